//! Questions on one round, read from the buffers: the collective of its first contribution, whether it is full, and the generations
//! of its new segments. Nothing changes. `reductions` has the values. (GASPI: collectives)

ghost use Rattle.std.specs.Prelude.{◌≡◌, ◌<◌, ◌≤◌, Some, OnOk, length};
ghost use Rattle.gaspi_types.specs.Collectives.{first_contribution, fits, is_full, generation_in, made_by};
ghost use Rattle.gaspi_model.specs.RoundRules.{coll_in};
ghost use Rattle.collective_engine.specs.RoundBuffers.{completed_by, contribution_by};
ghost use Rattle.gaspi_types.specs.declared.collectives.Coll.{Coll};

use crate::buffers::{Buffers, given};
use crate::generations::Generations;
use gaspi_model::check_fits;
use gaspi_types::{Coll, MemberSegment, RankId, Refusal};

/// The collective that the first contribution to a round has, in the order of these members; None where none has contributed.
pub(crate) fn first_coll(buffers: &Buffers, round: u32, members: &[RankId]) -> Option<Coll>
    ensures { result ≡ coll_in (first_contribution (contribution_by buffers.now round) members.now) }
{
    match members {
        [] => None,
        [member, others @ ..] => match given(buffers, round, *member) {
            Some(kept) => Some(kept.coll()),
            None => first_coll(buffers, round, others),
        },
    }
}

/// Checks a collective of a rank against the contributions of these members to the rank's round: it is theirs, values aside; else
/// `CollectiveMismatch`.
pub(crate) fn check(
    buffers: &Buffers,
    members: &[RankId],
    rank: usize,
    coll: Coll,
) -> Result<(), Refusal>
    requires { rank < 16 }
    ensures answer { result ≡ fits (first_contribution (contribution_by buffers.now (completed_by buffers.now rank)) members.now) coll }
    ensures equal { OnOk result ((kept : Coll) → coll_in (first_contribution (contribution_by buffers.now (completed_by buffers.now rank)) members.now) ≡ Some kept → kept ≡ coll) }
{
    let round = buffers.completed[rank];
    check_fits(first_coll(buffers, round, members), coll)
}

/// The collective of a rank's contribution to its round; None where the rank has not contributed.
pub(crate) fn own_coll(buffers: &Buffers, rank: RankId) -> Option<Coll>
    ensures { result ≡ coll_in (contribution_by buffers.now (completed_by buffers.now rank) rank) }
{
    let round = buffers.completed[rank.index()];
    let kept = given(buffers, round, rank)?;
    Some(kept.coll())
}

/// Whether each of these members has contributed to a round.
pub(crate) fn is_full(buffers: &Buffers, round: u32, members: &[RankId]) -> bool
    ensures { result ≡ is_full (contribution_by buffers.now round) members.now }
{
    members
        .iter()
        .all(|member| given(buffers, round, *member).is_some())
}

/// The generation of the new segment in a rank's contribution to a round; 0 where the rank has not contributed.
fn generation(buffers: &Buffers, round: u32, rank: RankId) -> u32
    ensures { result ≡ generation_in (contribution_by buffers.now round rank) }
{
    match given(buffers, round, rank) {
        Some(kept) => kept.generation(),
        None => 0,
    }
}

/// The generations of the new segments of these members in a round.
pub(crate) fn generations(buffers: &Buffers, round: u32, members: &[RankId]) -> Generations
    requires { length members.now ≤ 16 }
    ensures { result ≡ made_by (contribution_by buffers.now round) members.now }
{
    let mut made = [MemberSegment {
        rank: RankId::of(0),
        generation: 0,
    }; 16];
    for (place, member) in members.iter().enumerate() {
        made[place] = MemberSegment {
            rank: *member,
            generation: generation(buffers, round, *member),
        };
    }
    Generations {
        made,
        count: members.len(),
    }
}
