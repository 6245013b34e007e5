//! Collectives without their values, the stage of a group, and the numbers of an allreduce: their types, the ranges of these,
//! and lists.

ghost use Rattle.std.specs.Prelude.{◌≡◌, ◌↔◌, IsTrue, IfOk, IsOk, length};
ghost use Rattle.std.specs.List.{list_all};
ghost use Rattle.gaspi_types.specs.NumberTypes.{lowest, highest, is_in_type, AreInType};

use crate::lists::BoxedSequence;
use crate::memory::NoMemory;
use std::alloc::Global;
use std::marker::Model;

/// A type of numbers. The calls that take a type refuse `Float` and `Double`. (GASPI: collectives)
#[derive(Clone, Copy, Debug, PartialEq, Eq)]
pub enum NumType {
    /// 32 bits with a sign.
    Int,
    /// 32 bits.
    Uint,
    /// 64 bits with a sign.
    Long,
    /// 64 bits.
    Ulong,
    /// Its numbers are written as those of `Long`.
    Float,
    /// Its numbers are written as those of `Long`.
    Double,
}

/// The operation of an allreduce. (GASPI: allreduce)
#[derive(Clone, Copy, Debug, PartialEq, Eq)]
pub enum Op {
    Min,
    Max,
    /// The sum, which wraps in the bits of the type.
    Sum,
}

/// The stage of a group. (GASPI: groups)
#[derive(Clone, Copy, Debug, PartialEq, Eq)]
pub enum Stage {
    /// Ranks may be added.
    Building,
    /// No rank may be added.
    Committed,
}

/// What a collective is called with, values aside. (GASPI: collectives)
#[derive(Clone, Copy, Debug, PartialEq, Eq)]
pub enum Coll {
    Barrier,
    /// The operation, the type of the numbers, and how many numbers a member gives.
    Allreduce(Op, NumType, u32),
    /// The segment id, and the size in bytes.
    Create(u32, u32),
    /// The ranks of the group: bit r for rank r.
    Commit(u32),
}

/// The least number of a type; those of `Float` and `Double` are as those of `Long`.
fn lowest(num_type: NumType) -> i128
    ensures { result ≡ lowest num_type }
{
    match num_type {
        NumType::Int => -2147483648,
        NumType::Uint | NumType::Ulong => 0,
        NumType::Long | NumType::Float | NumType::Double => -9223372036854775808,
    }
}

/// The greatest number of a type; those of `Float` and `Double` are as those of `Long`.
fn highest(num_type: NumType) -> i128
    ensures { result ≡ highest num_type }
{
    match num_type {
        NumType::Int => 2147483647,
        NumType::Uint => 4294967295,
        NumType::Long | NumType::Float | NumType::Double => 9223372036854775807,
        NumType::Ulong => 18446744073709551615,
    }
}

/// Whether a number is in the range of a type: 32 or 64 bits with or without a sign, where those of `Float` and
/// `Double` are as those of `Long`. (GASPI: collectives)
pub fn is_in_type(num_type: NumType, number: i128) -> bool
    ensures { result ≡ is_in_type num_type number }
{
    lowest(num_type) <= number && number <= highest(num_type)
}

/// Whether each number is in the range of a type, for `are_in_type`.
fn all_pass(num_type: NumType, numbers: &[i128]) -> bool
    ensures { result ≡ list_all (is_in_type num_type) numbers.now }
{
    numbers.iter().all(|number| is_in_type(num_type, *number))
}

/// Numbers of a type, each in the type's range. Contracts see the type and the numbers. (GASPI: allreduce)
#[derive(Debug, PartialEq, Eq, Drop)]
pub struct Numbers {
    num_type: NumType,
    items: BoxedSequence<i128>,
}

impl Model for Numbers {
    ghost use Rattle.gaspi_types.specs.NumberTypes.{AreInType, TypedNumbers};

    ghost Value = { TypedNumbers };

    ghost view = { λ n. record { num_type = n.num_type; items = n.items } };

    ghost invariant = { λ n. AreInType n.num_type n.items };

    ghost inverse = { λ v. record { num_type = v.num_type; items = v.items } };
}

impl Numbers {
    /// Whether all numbers are in the range of a type. (GASPI: collectives)
    pub fn are_in_type(num_type: NumType, numbers: &[i128]) -> bool
        ensures { IsTrue result ↔ AreInType num_type numbers.now }
    {
        all_pass(num_type, numbers)
    }

    /// Numbers of a type, which have to be in its range, as `are_in_type` answers. No memory is taken.
    pub fn new(num_type: NumType, items: BoxedSequence<i128>) -> Numbers
        requires { AreInType num_type items }
        ensures { result ≡ record { num_type = num_type; items = items } }
    {
        Numbers { num_type, items }
    }

    /// The type of the numbers.
    pub fn num_type(&self) -> NumType
        ensures { result ≡ self.now.num_type }
    {
        self.num_type
    }

    /// The numbers, in order.
    pub fn items(&self) -> &[i128]
        ensures items { result.now ≡ self.now.items }
        ensures range { AreInType self.now.num_type self.now.items }
    {
        self.items.as_slice()
    }

    /// Equal numbers. No memory is taken where there are none.
    pub fn copy(&self, alloc: Global) -> Result<Numbers, NoMemory>
        ensures ok { IfOk result (λ numbers. numbers ≡ self.now) }
        ensures empty { length self.now.items ≡ 0 → IsOk result }
    {
        Ok(Numbers {
            num_type: self.num_type,
            items: BoxedSequence::copied_from(alloc, self.items.as_slice())?,
        })
    }
}
