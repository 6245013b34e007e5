//! The notification slots that a put has set and no reset has read since, each with the last put that has set it, for the
//! trace. `pass_X` changes this list by an event, by means of `set_slot` and `free_slot`. After `NoMemory` what it has is not
//! said.

ghost use Rattle.std.specs.Prelude.{◌≡◌, IfOk, OnOk, find};
ghost use Rattle.journal_pictures.specs.Diagram.{receiver};
ghost use Rattle.journal_pictures.specs.OpenEntries.{is_slot, slots_after, slots_put, with_slot, without_slot};

use crate::deliveries::Delivery;
use crate::open_entries::OpenEntry;
use gaspi_types::{Call, Direction, Event, NoMemory, Outcome, QueueId, RankId, Reply, Sequence};
use std::alloc::Global;

/// A slot that is set: its rank, segment and notification id; and the put that has set it: the origin and queue of its entry,
/// and its place.
#[derive(Clone, Copy, Debug, PartialEq, Eq)]
pub struct SetSlot {
    pub rank: RankId,
    pub segment: u64,
    pub note: u64,
    pub origin: RankId,
    pub queue: QueueId,
    pub place: u64,
}

/// Whether `slot` is the slot of that rank, segment and notification id.
fn is_slot(slot: &SetSlot, rank: RankId, segment: u64, note: u64) -> bool
    ensures { result ≡ is_slot rank segment note slot.now }
{
    slot.rank.number() == rank.number() && slot.segment == segment && slot.note == note
}

/// The slot of that rank, segment and notification id, or None where it is not set.
pub fn slot_at(slots: &[SetSlot], rank: RankId, segment: u64, note: u64) -> Option<SetSlot>
    ensures { result ≡ find (is_slot rank segment note) slots.now }
{
    slots
        .iter()
        .copied()
        .find(|slot| is_slot(slot, rank, segment, note))
}

/// The set slots without the slot of that rank, segment and notification id.
fn without_slot(
    alloc: Global,
    slots: &[SetSlot],
    rank: RankId,
    segment: u64,
    note: u64,
) -> Result<Sequence<SetSlot>, NoMemory>
    ensures { IfOk result (λ list. list ≡ without_slot rank segment note slots.now) }
{
    let kept = slots
        .iter()
        .copied()
        .filter(|slot| !is_slot(slot, rank, segment, note))
        .collect(alloc)?;
    Ok(Sequence::from_vec(kept))
}

/// Removes the slot of that rank, segment and notification id, where it is set.
fn free_slot(
    slots: &mut Sequence<SetSlot>,
    rank: RankId,
    segment: u64,
    note: u64,
) -> Result<(), NoMemory>
    ensures { OnOk result (slots.new ≡ without_slot rank segment note slots.old) }
{
    let alloc = slots.allocator();
    *slots = without_slot(alloc, slots.as_slice(), rank, segment, note)?;
    Ok(())
}

/// Adds a slot, in place of the same slot with an earlier put.
fn set_slot(slots: &mut Sequence<SetSlot>, slot: SetSlot) -> Result<(), NoMemory>
    ensures { OnOk result (slots.new ≡ with_slot slot slots.old) }
{
    free_slot(slots, slot.rank, slot.segment, slot.note)?;
    slots.push(slot)
}

/// The rank to which an entry of that direction brings its delivery.
fn receiver(direction: Direction, origin: RankId, target: RankId) -> RankId
    ensures { result ≡ receiver direction origin target }
{
    match direction {
        Direction::Outward => target,
        Direction::Inward => origin,
    }
}

/// Changes the set slots by a put at a place that is applied: `entry` is the open entry that is put. Only a notification sets a slot.
fn pass_put(
    slots: &mut Sequence<SetSlot>,
    place: u64,
    origin: RankId,
    queue: QueueId,
    target: RankId,
    entry: Option<OpenEntry>,
) -> Result<(), NoMemory>
    ensures { OnOk result (slots.new ≡ slots_put place origin queue target entry slots.old) }
{
    match entry {
        Some(
            OpenEntry {
                delivery: Delivery::Notification {
                    direction,
                    segment,
                    note,
                    ..
                },
                ..
            },
        ) => set_slot(
            slots,
            SetSlot {
                rank: receiver(direction, origin, target),
                segment,
                note,
                origin,
                queue,
                place,
            },
        ),
        _ => Ok(()),
    }
}

/// Changes the set slots by the event at a place: a put that is applied may set one, and a reset that answers a value removes
/// its own. `entry` is the open entry of such a put, as `put_entry` answers.
pub fn pass_slots(
    slots: &mut Sequence<SetSlot>,
    place: u64,
    event: &Event,
    entry: Option<OpenEntry>,
) -> Result<(), NoMemory>
    ensures { OnOk result (slots.new ≡ slots_after entry place event.now slots.old) }
{
    match event {
        Event::Put(origin, queue, target, _, Outcome::Applied) => {
            pass_put(slots, place, *origin, *queue, *target, entry)
        }
        Event::Called(caller, Call::Reset(call), Reply::Value(_)) => {
            free_slot(slots, caller.rank, call.seg, call.note)
        }
        _ => Ok(()),
    }
}
