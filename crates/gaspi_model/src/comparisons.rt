//! Whether two replies, refusals, or arguments of collectives are the same. Refusals and collectives are compared by numbers
//! (`Fields`); the private functions give these numbers and compare them.

ghost use Rattle.std.specs.Prelude.{◌≡◌, true, nat_eq};
ghost use Rattle.std.specs.Cmp.Lexicographic.{pointwise};
ghost use Rattle.gaspi_model.specs.Fields.{listed};
ghost use Rattle.gaspi_types.specs.Collectives.{same_coll, same_args};
ghost use Rattle.gaspi_types.specs.Replies.{refusal_fields, coll_fields, stage_number, op_number, type_number, same_refusal, same_numbers, same_reply};

use gaspi_types::{Args, Coll, NumType, Numbers, Op, Refusal, RefusalFields, Reply, Stage};

/// The numbers by which a refusal or a collective is compared, in order.
#[derive(Clone, Copy)]
pub(crate) enum Fields {
    Nothing,
    One(u32),
    Two(u32, u32),
    Three(u32, u32, u32),
    Four(u32, u32, u32, u32),
}

/// The number by which a stage is compared.
fn stage_number(stage: Stage) -> u32
    ensures { result ≡ stage_number stage }
{
    match stage {
        Stage::Building => 0,
        Stage::Committed => 1,
    }
}

/// The number by which an operation is compared.
fn op_number(op: Op) -> u32
    ensures { result ≡ op_number op }
{
    match op {
        Op::Min => 0,
        Op::Max => 1,
        Op::Sum => 2,
    }
}

/// The number by which a type is compared.
fn type_number(num_type: NumType) -> u32
    ensures { result ≡ type_number num_type }
{
    match num_type {
        NumType::Int => 0,
        NumType::Uint => 1,
        NumType::Long => 2,
        NumType::Ulong => 3,
        NumType::Float => 4,
        NumType::Double => 5,
    }
}

/// The numbers by which a collective is compared: that of its kind, and what it is called with, values aside.
fn coll_fields(coll: Coll) -> Fields
    ensures { listed result ≡ coll_fields coll }
{
    match coll {
        Coll::Barrier => Fields::One(0),
        Coll::Allreduce(op, num_type, count) => {
            Fields::Four(1, op_number(op), type_number(num_type), count)
        }
        Coll::Create(segment, size) => Fields::Three(2, segment, size),
        Coll::Commit(mask) => Fields::Two(3, mask),
    }
}

/// The fields of a refusal as numbers; its own number is not among them.
fn refusal_fields(refusal: &Refusal) -> Fields
    ensures { listed result ≡ refusal_fields refusal.now }
{
    match refusal.parts().1 {
        RefusalFields::Nothing => Fields::Nothing,
        RefusalFields::OneNumber(n) => Fields::One(n),
        RefusalFields::TwoNumbers(m, n) => Fields::Two(m, n),
        RefusalFields::OneStage(stage) => Fields::One(stage_number(stage)),
        RefusalFields::OneCollective(kept) => coll_fields(kept),
    }
}

/// Whether two lists of such numbers are equal.
fn same_fields(a: Fields, b: Fields) -> bool
    ensures { result ≡ pointwise nat_eq (listed a) (listed b) }
{
    match (a, b) {
        (Fields::Nothing, Fields::Nothing) => true,
        (Fields::One(m), Fields::One(n)) => m == n,
        (Fields::Two(k, m), Fields::Two(l, n)) => k == l && m == n,
        (Fields::Three(h, k, m), Fields::Three(i, l, n)) => h == i && k == l && m == n,
        (Fields::Four(f, h, k, m), Fields::Four(g, i, l, n)) => {
            f == g && h == i && k == l && m == n
        }
        _ => false,
    }
}

/// Whether refusals are the same: their numbers and their fields are.
fn same_refusal(a: &Refusal, b: &Refusal) -> bool
    ensures { result ≡ same_refusal a.now b.now }
{
    a.number() == b.number() && same_fields(refusal_fields(a), refusal_fields(b))
}

/// Whether lists of numbers are the same: their types and their numbers are. (GASPI: allreduce)
pub fn same_numbers(a: &Numbers, b: &Numbers) -> bool
    ensures { result ≡ same_numbers a.now b.now }
{
    type_number(a.num_type()) == type_number(b.num_type()) && a.items() == b.items()
}

/// Whether collectives are the same, values aside: their kinds and what they are called with. (GASPI: collectives)
pub fn same_coll(a: Coll, b: Coll) -> bool
    ensures value { result ≡ same_coll a b }
    ensures equal { result ≡ true → a ≡ b }
{
    same_fields(coll_fields(a), coll_fields(b))
}

/// Whether the arguments of collectives are the same, values included. (GASPI: timeouts)
pub fn same_args(a: &Args, b: &Args) -> bool
    ensures { result ≡ same_args a.now b.now }
{
    same_coll(a.coll, b.coll) && same_numbers(&a.values, &b.values)
}

/// Whether replies are the same.
pub fn same_reply(a: &Reply, b: &Reply) -> bool
    ensures { result ≡ same_reply a.now b.now }
{
    match (a, b) {
        (Reply::Done, Reply::Done) | (Reply::Timeout, Reply::Timeout) => true,
        (Reply::Value(m), Reply::Value(n)) => m == n,
        (Reply::Id(m), Reply::Id(n)) | (Reply::Mask(m), Reply::Mask(n)) => m == n,
        (Reply::Bytes(m), Reply::Bytes(n)) => m.as_slice() == n.as_slice(),
        (Reply::List(m), Reply::List(n)) => same_numbers(m, n),
        (Reply::Refused(m), Reply::Refused(n)) => same_refusal(m, n),
        _ => false,
    }
}
