//! A transfer on the memory that it works on: which bytes a take copies from there, which outcome a take or a put has, and what a
//! put changes there. (GASPI: one-sided communication)

ghost use Rattle.std.specs.Prelude.{◌≡◌, slice_set};
ghost use Rattle.gaspi_types.specs.Slots.{slots_of, with_slots};
ghost use Rattle.gaspi_model.specs.Transfers.{carried_bytes, source_bytes, take_outcome, put_outcome, outcome_at, memory_put};

use crate::node_memory::NodeMemory;
use gaspi_types::{Destination, Entry, Kind, Outcome, Phase, Sequence};
use segment_store::{Slots, bytes_of, is_generation, range_of, segment_in, store_bytes};

/// Sets a slot of a segment to a value. Where there is no such slot nothing changes. (GASPI: notify)
fn set_slot(slots: &mut Sequence<Option<Slots>>, seg: u64, note: u64, value: u32)
    ensures { slots.new ≡ with_slots slots.old seg (slice_set (slots_of slots.old seg) note value) }
{
    let place = seg as usize;
    if place < slots.len() {
        if let Some(mine) = slots.at_mut(place) {
            if note < mine.len() as u64 {
                mine.set(note, value);
            }
        }
    }
}

/// The bytes of a carried entry; none of an entry of another phase.
fn carried_bytes(phase: &Phase) -> &[u8]
    ensures { result.now ≡ carried_bytes phase.now }
{
    match phase {
        Phase::Carried(bytes) => bytes.as_slice(),
        Phase::Posted | Phase::Failed => &[],
    }
}

impl NodeMemory {
    ghost use Rattle.rank_node.specs.Values.{MemoryValue};

    /// The bytes that the take of an entry of this kind copies from this memory, lent; none for a notification.
    pub(crate) fn taken_bytes(&self, kind: &Kind) -> &[u8]
        ensures { result.now ≡ source_bytes self.now.memory kind.now }
    {
        match kind.source() {
            Some(range) => range_of(
                bytes_of(&self.segments, u64::from(range.segment)),
                range.offset as usize,
                range.size as usize,
            ),
            None => &[],
        }
    }

    /// The outcome of a transfer that needs a segment of this generation: failed where the segment is gone. (GASPI: state vector)
    fn outcome_at(&self, segment: u32, generation: u32) -> Outcome
        ensures { result ≡ outcome_at self.now.memory segment generation }
    {
        let mine = segment_in(&self.segments, u64::from(segment));
        if is_generation(generation, mine) {
            Outcome::Applied
        } else {
            Outcome::Failed
        }
    }

    /// The outcome of the take of an entry of this kind from this memory: a read may fail, no other take does. (GASPI: state vector)
    pub(crate) fn take_outcome(&self, kind: &Kind) -> Outcome
        ensures { result ≡ take_outcome self.now.memory kind.now }
    {
        match kind {
            Kind::Read { own: _, target } => self.outcome_at(target.segment, target.generation),
            Kind::Write { .. } | Kind::Notify { .. } | Kind::ReadNote { .. } => Outcome::Applied,
        }
    }

    /// The outcome of the put of an entry of this kind into this memory: a write and a notification may fail, no other put does.
    /// (GASPI: state vector)
    pub(crate) fn put_outcome(&self, kind: &Kind) -> Outcome
        ensures { result ≡ put_outcome self.now.memory kind.now }
    {
        match kind {
            Kind::Write { own: _, target } => self.outcome_at(target.segment, target.generation),
            Kind::Notify { target, value: _ } => {
                self.outcome_at(target.segment, target.generation)
            }
            Kind::Read { .. } | Kind::ReadNote { .. } => Outcome::Applied,
        }
    }

    /// Stores the bytes of a carried entry in its range, or sets its slot. The rest of the memory stays.
    /// (GASPI: write, read, notify)
    pub(crate) fn put(&mut self, entry: &Entry)
        ensures { self.new ≡ record self.old { memory = memory_put self.old.memory entry.now } }
    {
        match entry.kind.destination() {
            Destination::Range(range) => store_bytes(
                &mut self.segments,
                u64::from(range.segment),
                u64::from(range.offset),
                carried_bytes(&entry.phase),
            ),
            Destination::Slot(slot, value) => set_slot(
                &mut self.slots,
                u64::from(slot.segment),
                u64::from(slot.note),
                value,
            ),
        }
    }
}
