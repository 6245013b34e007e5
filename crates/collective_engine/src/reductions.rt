//! The reduction of a round, from the values in the buffers. (GASPI: allreduce)

ghost use Rattle.std.specs.Prelude.{◌≡◌, ◌≤◌, IsSome, length};
ghost use Rattle.std.specs.List.{AllByRecursion};
ghost use Rattle.gaspi_types.specs.Collectives.{values_in, reduced_onto, reduction_of};
ghost use Rattle.gaspi_types.specs.NumberTypes.{AreInType};
ghost use Rattle.collective_engine.specs.KeptContributions.{GivesNumbers, AreInRange};
ghost use Rattle.collective_engine.specs.RoundBuffers.{contribution_by};

use crate::buffers::{Buffers, given};
use gaspi_model::reduce;
use gaspi_types::{BoxedSequence, NumType, Numbers, Op, RankId};

/// The values of a rank's contribution to a round. The rank has contributed.
fn values(buffers: &Buffers, round: u32, rank: RankId) -> &[i128]
    requires { IsSome (contribution_by buffers.now round rank) }
    ensures items { result.now ≡ values_in (contribution_by buffers.now round rank) }
    ensures range { AreInRange (contribution_by buffers.now round rank) }
{
    given(buffers, round, rank).unwrap().values()
}

/// Reduces the contributions of these members to a round onto `total`, in their order. Each has contributed as many values as
/// `total` has, of the same type.
fn reduce_onto(
    buffers: &Buffers,
    round: u32,
    op: Op,
    num_type: NumType,
    total: &mut BoxedSequence<i128>,
    members: &[RankId],
)
    requires range { AreInType num_type total.old }
    requires given { AllByRecursion (λ m. GivesNumbers num_type (length total.old) (contribution_by buffers.now round m)) members.now }
    ensures reduced { total.new ≡ reduced_onto (contribution_by buffers.now round) op num_type total.old members.now }
    ensures range { AreInType num_type total.new }
    ensures lengths { length total.new ≡ length total.old }
{
    match members {
        [] => {}
        [member, others @ ..] => {
            reduce(op, num_type, total, values(buffers, round, *member));
            reduce_onto(buffers, round, op, num_type, total, others);
        }
    }
}

/// The list `reserved` with these items in place of its own. It is long enough. It takes no memory.
fn filled(mut reserved: BoxedSequence<i128>, items: &[i128]) -> BoxedSequence<i128>
    requires { length items.now ≤ length reserved }
    ensures { result ≡ items.now }
{
    reserved.truncate(items.len());
    reserved.overwrite(0, items);
    reserved
}

/// The reduction of the contributions of these members to a round, in their order, in the list `reserved`, which is long enough.
/// Each has contributed `count` values of the same type. It takes no memory.
pub(crate) fn reduction_of(
    buffers: &Buffers,
    round: u32,
    op: Op,
    num_type: NumType,
    count: u32,
    reserved: BoxedSequence<i128>,
    members: &[RankId],
) -> Numbers
    requires reserved { count ≤ length reserved }
    requires given { AllByRecursion (λ m. GivesNumbers num_type count (contribution_by buffers.now round m)) members.now }
    ensures fits { length result.items ≤ length reserved }
    ensures numbers { result ≡ reduction_of (contribution_by buffers.now round) op num_type members.now }
{
    match members {
        [] => Numbers::new(num_type, BoxedSequence::new()),
        [first, others @ ..] => {
            let mut total = filled(reserved, values(buffers, round, *first));
            reduce_onto(buffers, round, op, num_type, &mut total, others);
            Numbers::new(num_type, total)
        }
    }
}
