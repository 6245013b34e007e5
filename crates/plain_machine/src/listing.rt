//! The enabled transfers of lanes, in the order of the lanes and of their entries: how many, the one at an index, and all.
//!
//! Only nonempty lanes are walked, and in each of them each entry is judged by a summary of its lane. A transfer is sought by its
//! index in such a list; `place` is that index, and no place of an event.

ghost use Rattle.std.specs.Prelude.{◌≡◌, ℕ, ◌≤◌, ◌<◌, ◌^◌, ◌++◌, ◌||◌, ◌&&◌, nat_lt, List, length, slice_get, OnOk, IfOk};
ghost use Rattle.std.specs.List.{flat_map};
ghost use Rattle.std.specs.Option.{option_to_list};
ghost use Rattle.gaspi_types.specs.Lanes.{may_put};
ghost use Rattle.gaspi_types.specs.declared.entries.Entry.{Entry};
ghost use Rattle.gaspi_model.specs.Transfers.{transfer_of};
ghost use Rattle.plain_machine.specs.NonemptyLanes.{AreLaneCounts, IsSearchOf, entries_transfers, unbroken_transfers};

use crate::nonempty_lanes::{LaneId, open_entries};
use gaspi_model::Posts;
use gaspi_types::{Entry, Kind, Limits, NoMemory, Sequence, Transfer};
use plain_calls::{is_carried, is_posted, is_read, is_write};
use std::alloc::Global;

/// Over the number of every entry.
const NO_NUMBER: u64 = u64::MAX;

/// The summary of a lane, by which its enabled transfers are judged.
#[derive(Clone, Copy, Debug, PartialEq, Eq)]
pub struct LaneCounts {
    /// How many entries are carried.
    pub carried: usize,
    /// The least number of a write; `NO_NUMBER` where there is none.
    pub first_write: u64,
    /// The least number of a read; `NO_NUMBER` where there is none.
    pub first_read: u64,
}

/// What the search for the transfer at an index of a list has found.
#[derive(Clone, Copy, Debug, PartialEq, Eq)]
pub enum TransferSearch {
    /// The transfer at that index.
    Found(Transfer),
    /// The index is this far past the end of the list.
    Left(usize),
}

/// The lesser of `least` and, if it `counts`, `other`.
fn lesser(least: u64, counts: bool, other: u32) -> u64
    ensures { (n : ℕ) → nat_lt result n ≡ (nat_lt least n || (counts && nat_lt other n)) }
{
    let other = u64::from(other);
    if counts && other < least {
        other
    } else {
        least
    }
}

/// The summary of a lane, in one pass.
fn summary_of(entries: &[Entry]) -> LaneCounts
    ensures { AreLaneCounts entries.now result }
{
    let mut carried = 0;
    let mut first_write = NO_NUMBER;
    let mut first_read = NO_NUMBER;
    for entry in entries {
        if is_carried(entry) {
            carried += 1;
        }
        first_write = lesser(first_write, is_write(entry), entry.number);
        first_read = lesser(first_read, is_read(entry), entry.number);
    }
    LaneCounts {
        carried,
        first_write,
        first_read,
    }
}

/// Whether the put of an entry may come, by the summary of its lane. Whether the queue is broken is not asked here.
/// (GASPI: notification order)
fn may_put(summary: LaneCounts, entry: &Entry) -> bool
    ensures { (lane : List Entry) → AreLaneCounts lane summary → result ≡ may_put lane entry.now }
{
    is_carried(entry)
        && match entry.kind {
            Kind::Write { .. } | Kind::Read { .. } => true,
            Kind::Notify { .. } => summary.first_write >= u64::from(entry.number),
            Kind::ReadNote { .. } => summary.first_read >= u64::from(entry.number),
        }
}

/// The enabled transfer of an entry, by the summary of its lane; None where it has none. The queue of the lane is not broken.
fn transfer_of(limits: &Limits, id: &LaneId, summary: LaneCounts, entry: &Entry) -> Option<Transfer>
    ensures { (lane : List Entry) → AreLaneCounts lane summary → option_to_list result ≡ transfer_of id.now.origin id.now.queue id.now.target limits.now lane entry.now }
{
    let takes = is_posted(entry) && summary.carried < limits.depth as usize;
    if takes || may_put(summary, entry) {
        Some(Transfer {
            origin: id.origin,
            queue: id.queue,
            target: id.target,
            number: entry.number,
            put: !takes,
        })
    } else {
        None
    }
}

/// How many of these entries of a lane have an enabled transfer. The queue of the lane is not broken.
fn entries_count(limits: &Limits, id: &LaneId, entries: &[Entry]) -> usize
    ensures { result ≡ length (entries_transfers limits.now id.now entries.now) }
{
    let summary = summary_of(entries);
    let mut count = 0;
    for entry in entries {
        if transfer_of(limits, id, summary, entry).is_some() {
            count += 1;
        }
    }
    count
}

/// The enabled transfer at an index among those of the entries of a lane.
fn entries_transfer(limits: &Limits, id: &LaneId, entries: &[Entry], place: usize) -> TransferSearch
    ensures { IsSearchOf result (entries_transfers limits.now id.now entries.now) place }
{
    let summary = summary_of(entries);
    let mut left = place;
    for entry in entries {
        if let Some(transfer) = transfer_of(limits, id, summary, entry) {
            if left == 0 {
                return TransferSearch::Found(transfer);
            }
            left -= 1;
        }
    }
    TransferSearch::Left(left)
}

/// Appends the enabled transfers of the entries of a lane to `found`. Where memory runs out, some may have been appended.
fn push_transfers(
    found: &mut Sequence<Transfer>,
    limits: &Limits,
    id: &LaneId,
    entries: &[Entry],
) -> Result<(), NoMemory>
    ensures { OnOk result (found.new ≡ found.old ++ entries_transfers limits.now id.now entries.now) }
{
    let summary = summary_of(entries);
    for entry in entries {
        if let Some(transfer) = transfer_of(limits, id, summary, entry) {
            found.push(transfer)?;
        }
    }
    Ok(())
}

/// How many transfers of these lanes are enabled.
pub fn lanes_count(limits: &Limits, posts: &Sequence<Posts>, lanes: &[LaneId]) -> usize
    requires { length (flat_map (unbroken_transfers limits.now posts.now) lanes.now) < 2 ^ 32 }
    ensures { result ≡ length (flat_map (unbroken_transfers limits.now posts.now) lanes.now) }
{
    let mut count = 0;
    for id in lanes {
        count += entries_count(limits, id, open_entries(posts, id));
    }
    count
}

/// The enabled transfer at an index among those of these lanes.
pub fn lanes_transfer(
    limits: &Limits,
    posts: &Sequence<Posts>,
    lanes: &[LaneId],
    place: usize,
) -> TransferSearch
    ensures { IsSearchOf result (flat_map (unbroken_transfers limits.now posts.now) lanes.now) place }
{
    let mut left = place;
    for id in lanes {
        match entries_transfer(limits, id, open_entries(posts, id), left) {
            TransferSearch::Found(transfer) => return TransferSearch::Found(transfer),
            TransferSearch::Left(rest) => left = rest,
        }
    }
    TransferSearch::Left(left)
}

/// All enabled transfers of these lanes.
pub fn transfers(
    alloc: Global,
    limits: &Limits,
    posts: &Sequence<Posts>,
    lanes: &[LaneId],
) -> Result<Sequence<Transfer>, NoMemory>
    ensures { IfOk result (λ found. found ≡ flat_map (unbroken_transfers limits.now posts.now) lanes.now) }
{
    let mut found = Sequence::new(alloc);
    for id in lanes {
        push_transfers(&mut found, limits, id, open_entries(posts, id))?;
    }
    Ok(found)
}
