//! Lanes as lists of entries, as the machine's value `Posts` has them: questions on one entry and on one lane, and the entries of a
//! new post. Nothing here changes a lane. The lanes of `post_queue` are rings. (GASPI: one-sided communication)

ghost use Rattle.std.specs.Prelude.{◌≡◌, ◌+◌, ◌≤◌, ◌^◌, ◌<◌, length, IfOk};
ghost use Rattle.gaspi_types.specs.Lanes.{is_posted, is_carried, is_failed, is_write, is_read, position_of, carried_count, has_earlier_write, has_earlier_read, is_awaited, has_awaited, entry_owed, lane_owed, is_user, has_user, may_take, may_put, posted_entries};

use gaspi_types::{Entry, Kind, NoMemory, Phase, Sequence};
use std::alloc::Global;

/// Whether the phase of an entry is posted.
pub fn is_posted(entry: &Entry) -> bool
    ensures { result ≡ is_posted entry.now }
{
    matches!(entry.phase, Phase::Posted)
}

/// Whether the phase of an entry is carried: the entry has taken its bytes.
pub fn is_carried(entry: &Entry) -> bool
    ensures { result ≡ is_carried entry.now }
{
    matches!(entry.phase, Phase::Carried(_))
}

/// Whether an entry is a write.
pub fn is_write(entry: &Entry) -> bool
    ensures { result ≡ is_write entry.now }
{
    matches!(entry.kind, Kind::Write { .. })
}

/// Whether an entry is a read. The notification of a read is none.
pub fn is_read(entry: &Entry) -> bool
    ensures { result ≡ is_read entry.now }
{
    matches!(entry.kind, Kind::Read { .. })
}

/// The position in a lane of the entry with a number; None where no entry has it.
pub fn position_of(lane: &Sequence<Entry>, number: u32) -> Option<usize>
    ensures { result ≡ position_of lane.now number }
{
    lane.as_slice().iter().position(|e| e.number == number)
}

/// How many entries of a lane are carried.
pub fn carried_count(lane: &Sequence<Entry>) -> usize
    ensures { result ≡ carried_count lane.now }
{
    lane.as_slice().iter().filter(|e| is_carried(e)).count()
}

/// Whether a lane has a write with a smaller number, in any phase.
pub fn has_earlier_write(lane: &Sequence<Entry>, number: u32) -> bool
    ensures { result ≡ has_earlier_write lane.now number }
{
    lane.as_slice()
        .iter()
        .any(|e| is_write(e) && e.number < number)
}

/// Whether a lane has a read with a smaller number, in any phase.
pub fn has_earlier_read(lane: &Sequence<Entry>, number: u32) -> bool
    ensures { result ≡ has_earlier_read lane.now number }
{
    lane.as_slice()
        .iter()
        .any(|e| is_read(e) && e.number < number)
}

/// Whether `wait` waits for an entry: the entry is posted, or it is a read or the notification of a read, in any phase.
fn is_awaited(entry: &Entry) -> bool
    ensures { result ≡ is_awaited entry.now }
{
    is_posted(entry) || matches!(entry.kind, Kind::Read { .. } | Kind::ReadNote { .. })
}

/// Whether a lane has an awaited entry.
pub fn has_awaited(lane: &Sequence<Entry>) -> bool
    ensures { result ≡ has_awaited lane.now }
{
    lane.as_slice().iter().any(is_awaited)
}

/// Whether an entry has failed.
fn is_failed(entry: &Entry) -> bool
    ensures { result ≡ is_failed entry.now }
{
    matches!(entry.phase, Phase::Failed)
}

/// How many events a rank owes for an entry: two for a posted one, one for a carried one, none for a failed one. (own choice)
fn entry_owed(entry: &Entry) -> u32
    ensures { result ≡ entry_owed entry.now }
{
    match entry.phase {
        Phase::Posted => 2,
        Phase::Carried(_) => 1,
        Phase::Failed => 0,
    }
}

/// How many events a rank owes for the entries of a lane. The sum fits 32 bits.
pub fn lane_owed(lane: &Sequence<Entry>) -> u32
    requires { lane_owed lane.now < 2 ^ 32 }
    ensures { result ≡ lane_owed lane.now }
{
    lane.as_slice().iter().map(|e| entry_owed(e)).sum()
}

/// Whether an entry uses an own segment: a posted write of its bytes, or a read or the notification of a read that has not failed.
fn is_user(segment: u64, entry: &Entry) -> bool
    ensures { result ≡ is_user segment entry.now }
{
    match &entry.kind {
        Kind::Write { own, target: _ } => is_posted(entry) && u64::from(own.segment) == segment,
        Kind::Read { own, target: _ } => !is_failed(entry) && u64::from(own.segment) == segment,
        Kind::Notify { .. } => false,
        Kind::ReadNote { own } => !is_failed(entry) && u64::from(own.segment) == segment,
    }
}

/// Whether a lane has an entry that uses an own segment.
pub fn has_user(segment: u64, lane: &Sequence<Entry>) -> bool
    ensures { result ≡ has_user segment lane.now }
{
    lane.as_slice().iter().any(|e| is_user(segment, e))
}

/// Whether the take of an entry may come, as far as its lane says: the entry is posted, and fewer than `depth` entries of the lane
/// are carried. Whether the queue is broken is not asked here. `depth` is the most open entries of a queue.
pub fn may_take(depth: u32, lane: &Sequence<Entry>, entry: &Entry) -> bool
    ensures { result ≡ may_take depth lane.now entry.now }
{
    is_posted(entry) && carried_count(lane) < depth as usize
}

/// Whether the put of an entry may come, as far as its lane says: the entry is carried; and a notification has no earlier write in
/// the lane, the notification of a read no earlier read. Whether the queue is broken is not asked here. (GASPI: notification order)
pub fn may_put(lane: &Sequence<Entry>, entry: &Entry) -> bool
    ensures { result ≡ may_put lane.now entry.now }
{
    is_carried(entry)
        && match entry.kind {
            Kind::Write { .. } | Kind::Read { .. } => true,
            Kind::Notify { .. } => !has_earlier_write(lane, entry.number),
            Kind::ReadNote { .. } => !has_earlier_read(lane, entry.number),
        }
}

/// Entries of these kinds, in their order and all posted; their numbers rise by one, from `number` on.
pub fn posted_entries(
    alloc: Global,
    number: u32,
    kinds: &[Kind],
) -> Result<Sequence<Entry>, NoMemory>
    requires { number + length kinds.now < 2 ^ 32 }
    ensures { IfOk result (λ entries. entries ≡ posted_entries number kinds.now) }
{
    let mut entries = Sequence::new(alloc);
    let mut next = number;
    for kind in kinds {
        entries.push(Entry {
            number: next,
            kind: *kind,
            phase: Phase::Posted,
        })?;
        next += 1;
    }
    Ok(entries)
}
