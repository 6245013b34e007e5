//! The reduction of an allreduce. (GASPI: allreduce)

ghost use Rattle.std.specs.Prelude.{◌≡◌, ◌+ℤ◌, true, length};
ghost use Rattle.gaspi_types.specs.Collectives.{wrapped, reduced, combined};
ghost use Rattle.gaspi_types.specs.NumberTypes.{is_in_type, AreInType};

use gaspi_types::{BoxedSequence, NumType, Op};

/// The sum of two numbers, wrapped in the bits of their type.
fn sum(num_type: NumType, a: i128, b: i128) -> i128
    requires first { is_in_type num_type a ≡ true }
    requires second { is_in_type num_type b ≡ true }
    ensures value { result ≡ wrapped num_type (a +ℤ b) }
    ensures range { is_in_type num_type result ≡ true }
{
    match num_type {
        NumType::Int => i128::from((a as i32).wrapping_add(b as i32)),
        NumType::Uint => i128::from((a as u32).wrapping_add(b as u32)),
        NumType::Ulong => i128::from((a as u64).wrapping_add(b as u64)),
        NumType::Long | NumType::Float | NumType::Double => {
            i128::from((a as i64).wrapping_add(b as i64))
        }
    }
}

/// The lesser, the greater or the sum of two numbers, by the operation.
fn reduced(op: Op, num_type: NumType, a: i128, b: i128) -> i128
    requires first { is_in_type num_type a ≡ true }
    requires second { is_in_type num_type b ≡ true }
    ensures value { result ≡ reduced op num_type a b }
    ensures range { is_in_type num_type result ≡ true }
{
    match op {
        Op::Min => a.min(b),
        Op::Max => a.max(b),
        Op::Sum => sum(num_type, a, b),
    }
}

/// Reduces the values of one more member onto `total`: each item becomes the lesser, the greater or the sum of itself and the
/// value at its index; a sum wraps in the bits of the type. Both lists are as long, with all numbers in the range of the type,
/// and so are the new ones. (GASPI: allreduce)
pub fn reduce(op: Op, num_type: NumType, total: &mut BoxedSequence<i128>, values: &[i128])
    requires lengths { length total.old ≡ length values.now }
    requires total { AreInType num_type total.old }
    requires values { AreInType num_type values.now }
    ensures reduced { total.new ≡ combined op num_type total.old values.now }
    ensures range { AreInType num_type total.new }
    ensures lengths { length total.new ≡ length total.old }
{
    for (index, value) in values.iter().enumerate() {
        let next = reduced(op, num_type, total.as_slice()[index], *value);
        total.set(index, next);
    }
}
