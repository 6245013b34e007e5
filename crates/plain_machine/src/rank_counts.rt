//! The transfer counts: how many transfers of each rank are enabled, and of all; and the enabled transfer at an index of their list
//! (`place` is such an index, and no place of an event).
//!
//! An event changes the transfers of its owner alone. So counts are stored, a rank is counted again only after its own events, and a
//! sought transfer is looked for in the lanes of one rank. To *forget* a count is to store none; while one rank's alone is forgotten,
//! the count of all others is known. `lanes` are the nonempty lanes (clause `named`), and the stored counts are right, before (clause
//! `counts`) and after (clause `kept`).

ghost use Rattle.std.specs.Prelude.{◌≡◌, ◌≤◌, None, Option, ℕ, length, replicate, slice_get, slice_set, if◌then◌else◌, IfOk};
ghost use Rattle.gaspi_types.specs.Tables.{item_at};
ghost use Rattle.gaspi_model.specs.Step.{owner_of};
ghost use Rattle.gaspi_model.specs.Transfers.{transfers};
ghost use Rattle.plain_machine.specs.Machine.{is_still};
ghost use Rattle.plain_machine.specs.NonemptyLanes.{IsSearchOf, nonempty_lanes};
ghost use Rattle.plain_machine.specs.RankCounts.{transfers_of, count_without, without_count, AreRankCounts, AreCounts, HaveFewTransfers};

use crate::listing::{TransferSearch, lanes_count, lanes_transfer};
use crate::nonempty_lanes::{LaneId, lanes_of_rank};
use gaspi_model::Posts;
use gaspi_types::{Call, Event, Limits, NoMemory, RankId, Sequence, Transfer};
use std::alloc::Global;

/// For each rank the count of its enabled transfers, or none where they may have changed since they were counted.
type RankCounts = Sequence<Option<usize>>;

/// The stored counts.
#[derive(Debug, Drop)]
pub struct TransferCounts {
    /// Of each rank.
    by_rank: RankCounts,
    /// Of all ranks but `forgotten`; None where more than one rank's count was forgotten since all were counted.
    others: Option<usize>,
    /// The rank that `others` leaves out; None where it counts all.
    forgotten: Option<RankId>,
}

/// No count of any rank, for the opening state.
fn opening_rank_counts(alloc: Global, ranks: u32) -> Result<RankCounts, NoMemory>
    ensures { IfOk result (λ counts. counts ≡ replicate ranks None) }
{
    let mut counts = Sequence::new(alloc);
    for _rank in 0..ranks {
        counts.push(None)?;
    }
    Ok(counts)
}

/// No count, for the opening state.
pub fn opening_counts(alloc: Global, ranks: u32) -> Result<TransferCounts, NoMemory>
    ensures { IfOk result (λ counts. counts ≡ record { by_rank = replicate ranks None; others = None; forgotten = None }) }
{
    Ok(TransferCounts {
        by_rank: opening_rank_counts(alloc, ranks)?,
        others: None,
        forgotten: None,
    })
}

/// The stored count of a rank, if there is one.
fn kept_count(counts: &RankCounts, rank: RankId) -> Option<usize>
    ensures { result ≡ item_at counts.now rank }
{
    match counts.get(rank.index()) {
        Some(count) => *count,
        None => None,
    }
}

/// Stores a count of a rank, or none. Where there is no such rank nothing changes.
fn set_count(counts: &mut RankCounts, rank: RankId, count: Option<usize>)
    ensures { counts.new ≡ slice_set counts.old rank count }
{
    let place = rank.index();
    if place < counts.len() {
        *counts.at_mut(place) = count;
    }
}

/// The count of all ranks but `rank`, from that of all but `forgotten`, where one follows from the other: `rank` is left out already,
/// or its own count is stored.
fn count_without(counts: &TransferCounts, rank: RankId) -> Option<usize>
    ensures { result ≡ count_without counts.now rank }
{
    let others = counts.others?;
    match counts.forgotten {
        Some(forgotten) if forgotten == rank => Some(others),
        Some(_) => None,
        None => others.checked_sub(kept_count(&counts.by_rank, rank)?),
    }
}

/// Forgets the count of a rank. That of all others stays, where it is known.
pub fn forget_count(counts: &mut TransferCounts, rank: RankId)
    ensures { counts.new ≡ without_count counts.old rank }
{
    counts.others = count_without(counts, rank);
    counts.forgotten = Some(rank);
    set_count(&mut counts.by_rank, rank, None);
}

/// The owner of an event.
fn owner(event: &Event) -> RankId
    ensures { result ≡ owner_of event.now }
{
    match event {
        Event::Called(caller, _, _) | Event::Joined(caller, _, _) => caller.rank,
        Event::Take(origin, _, _, _, _) | Event::Put(origin, _, _, _, _) => *origin,
    }
}

/// Forgets the count that an event may change: that of its owner.
pub fn forget_owner(counts: &mut TransferCounts, event: &Event)
    ensures { counts.new ≡ without_count counts.old (owner_of event.now) }
{
    forget_count(counts, owner(event));
}

/// Forgets the counts that the record of a call may change: those of a post and of a purge; any other call changes none.
pub fn forget_moved(counts: &mut TransferCounts, rank: RankId, call: &Call)
    ensures { counts.new ≡ (if is_still call.now then counts.old else without_count counts.old rank) }
{
    match call {
        Call::Write(_)
        | Call::Read(_)
        | Call::Notify(_)
        | Call::WriteNotify(_)
        | Call::ReadNotify(_)
        | Call::WriteList(_)
        | Call::WriteListNotify(_)
        | Call::ReadList(_)
        | Call::ReadListNotify(_)
        | Call::Purge(_) => forget_count(counts, rank),
        _ => {}
    }
}

/// How many transfers of a rank are enabled. They are counted where no count is stored, and then it is stored.
fn rank_count(
    limits: &Limits,
    posts: &Sequence<Posts>,
    lanes: &[LaneId],
    counts: &mut RankCounts,
    rank: RankId,
) -> usize
    requires named { lanes.now ≡ nonempty_lanes posts.now }
    requires few { HaveFewTransfers limits.now posts.now }
    requires counts { AreRankCounts limits.now posts.now counts.old }
    ensures count { result ≡ length (transfers_of limits.now posts.now rank) }
    ensures kept { AreRankCounts limits.now posts.now counts.new }
{
    if let Some(count) = kept_count(counts, rank) {
        return count;
    }
    let count = lanes_count(limits, posts, lanes_of_rank(lanes, rank));
    set_count(counts, rank, Some(count));
    count
}

/// How many transfers are enabled: the sum over all ranks. The counts of ranks are stored.
fn counts_sum(
    limits: &Limits,
    posts: &Sequence<Posts>,
    lanes: &[LaneId],
    counts: &mut RankCounts,
) -> usize
    requires named { lanes.now ≡ nonempty_lanes posts.now }
    requires ranks { length posts.now ≤ 16 }
    requires few { HaveFewTransfers limits.now posts.now }
    requires counts { AreRankCounts limits.now posts.now counts.old }
    ensures count { result ≡ length (transfers limits.now posts.now) }
    ensures kept { AreRankCounts limits.now posts.now counts.new }
{
    let mut count = 0;
    for rank in 0..posts.len() as u32 {
        count += rank_count(limits, posts, lanes, counts, RankId::of(rank));
    }
    count
}

/// How many transfers are enabled: of the others and of the rank whose count was forgotten, where these are known apart, and else the
/// sum over all ranks. Then the count of all is stored.
pub fn transfer_count(
    limits: &Limits,
    posts: &Sequence<Posts>,
    lanes: &[LaneId],
    counts: &mut TransferCounts,
) -> usize
    requires named { lanes.now ≡ nonempty_lanes posts.now }
    requires ranks { length posts.now ≤ 16 }
    requires few { HaveFewTransfers limits.now posts.now }
    requires counts { AreCounts limits.now posts.now counts.old }
    ensures count { result ≡ length (transfers limits.now posts.now) }
    ensures kept { AreCounts limits.now posts.now counts.new }
{
    let count = match (counts.others, counts.forgotten) {
        (Some(count), None) => return count,
        (Some(others), Some(rank)) => {
            others + rank_count(limits, posts, lanes, &mut counts.by_rank, rank)
        }
        (None, _) => counts_sum(limits, posts, lanes, &mut counts.by_rank),
    };
    counts.others = Some(count);
    counts.forgotten = None;
    count
}

/// The enabled transfer at an index among those of a rank. Where its count is stored and the index is past it, no lane is walked.
fn rank_transfer(
    limits: &Limits,
    posts: &Sequence<Posts>,
    lanes: &[LaneId],
    counts: &RankCounts,
    rank: RankId,
    place: usize,
) -> TransferSearch
    requires named { lanes.now ≡ nonempty_lanes posts.now }
    requires counts { AreRankCounts limits.now posts.now counts.now }
    ensures { IsSearchOf result (transfers_of limits.now posts.now rank) place }
{
    match kept_count(counts, rank) {
        Some(count) if count <= place => TransferSearch::Left(place - count),
        Some(_) | None => lanes_transfer(limits, posts, lanes_of_rank(lanes, rank), place),
    }
}

/// The enabled transfer at an index among all; None where the index is past the end.
pub fn transfer_at(
    limits: &Limits,
    posts: &Sequence<Posts>,
    lanes: &[LaneId],
    counts: &TransferCounts,
    place: usize,
) -> Option<Transfer>
    requires named { lanes.now ≡ nonempty_lanes posts.now }
    requires ranks { length posts.now ≤ 16 }
    requires counts { AreCounts limits.now posts.now counts.now }
    ensures { result ≡ slice_get (transfers limits.now posts.now) place }
{
    let mut left = place;
    for rank in 0..posts.len() as u32 {
        match rank_transfer(
            limits,
            posts,
            lanes,
            &counts.by_rank,
            RankId::of(rank),
            left,
        ) {
            TransferSearch::Found(transfer) => return Some(transfer),
            TransferSearch::Left(rest) => left = rest,
        }
    }
    None
}
