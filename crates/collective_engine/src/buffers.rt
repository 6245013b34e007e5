//! The two buffers of a group, with the counts of each rank: to read a contribution, to add one, and to complete a round. What the
//! ranks must have done before is required, and not checked. (GASPI: collectives)

ghost use Rattle.std.specs.Prelude.{◌≡◌, ◌+◌, ◌<◌, ◌≤◌, length, replicate, IfOk};
ghost use Rattle.std.specs.Option.{option_copied};
ghost use Rattle.collective_engine.specs.RoundBuffers.{joined_by, completed_by, buffer_of, contribution_by, with_contribution, with_round_completed, HasCapacity};

use crate::kept_contributions::KeptContribution;
use gaspi_types::{Args, NoMemory, RankId, Sequence};
use std::alloc::Global;

/// The contributions of each rank to its last two rounds, and how far it has come. A rank is an index from 0 to 15.
#[derive(Debug, Drop)]
pub struct Buffers {
    /// To how many rounds the rank has contributed.
    pub(crate) joined: [u32; 16],
    /// How many rounds the rank has completed.
    pub(crate) completed: [u32; 16],
    /// Its contribution to the last even round.
    pub(crate) even: Sequence<KeptContribution>,
    /// Its contribution to the last odd round.
    pub(crate) odd: Sequence<KeptContribution>,
}

/// One buffer: a stored contribution for each rank.
fn kept_contributions(alloc: Global) -> Result<Sequence<KeptContribution>, NoMemory>
    ensures { IfOk result (λ kept. length kept ≡ 16) }
{
    let mut kept = Sequence::with_capacity(alloc, 16)?;
    for _rank in 0..16u32 {
        kept.push(KeptContribution::empty(alloc)?)?;
    }
    Ok(kept)
}

/// The buffers of a group with no contribution.
pub(crate) fn opening(alloc: Global) -> Result<Buffers, NoMemory>
    ensures capacity { IfOk result HasCapacity }
    ensures joined { IfOk result (λ buffers. buffers.joined ≡ replicate 16 0) }
    ensures completed { IfOk result (λ buffers. buffers.completed ≡ replicate 16 0) }
{
    Ok(Buffers {
        joined: [0; 16],
        completed: [0; 16],
        even: kept_contributions(alloc)?,
        odd: kept_contributions(alloc)?,
    })
}

/// To how many rounds a rank has contributed, and how many it has completed.
pub(crate) fn counts(buffers: &Buffers, rank: RankId) -> (u32, u32)
    ensures joined { result.0 ≡ joined_by buffers.now rank }
    ensures completed { result.1 ≡ completed_by buffers.now rank }
{
    (
        buffers.joined[rank.index()],
        buffers.completed[rank.index()],
    )
}

/// The buffer of a round: by its number, even or odd.
fn buffer_of(buffers: &Buffers, round: u32) -> &Sequence<KeptContribution>
    ensures { result.now ≡ buffer_of buffers.now round }
{
    if round % 2 == 0 {
        &buffers.even
    } else {
        &buffers.odd
    }
}

/// The contribution of a rank to a round, one of its last two; None where the rank has not contributed.
pub(crate) fn given(buffers: &Buffers, round: u32, rank: RankId) -> Option<&KeptContribution>
    ensures { option_copied result ≡ contribution_by buffers.now round rank }
{
    if round < buffers.joined[rank.index()] {
        buffer_of(buffers, round).get(rank.index())
    } else {
        None
    }
}

/// Appends a contribution of a rank to its next round. It overwrites the one of two rounds before. It takes no memory.
pub(crate) fn contribute(buffers: &mut Buffers, rank: RankId, args: &Args, generation: u32)
    requires capacity { HasCapacity buffers.old }
    requires count { joined_by buffers.old rank < 4294967295 }
    requires values { length args.now.values.items ≤ 255 }
    ensures { buffers.new ≡ with_contribution buffers.old rank (record { args = args.now; generation = generation }) }
{
    let round = buffers.joined[rank.index()];
    match round % 2 {
        0 => buffers.even.at_mut(rank.index()).put(args, generation),
        _ => buffers.odd.at_mut(rank.index()).put(args, generation),
    }
    buffers.joined[rank.index()] = round + 1;
}

/// Completes the round of a rank, the last to which it has contributed.
pub(crate) fn leave(buffers: &mut Buffers, rank: usize)
    requires bound { rank < 16 }
    requires joined { joined_by buffers.old rank ≡ completed_by buffers.old rank + 1 }
    ensures { buffers.new ≡ with_round_completed buffers.old rank }
{
    buffers.completed[rank] = buffers.joined[rank];
}
