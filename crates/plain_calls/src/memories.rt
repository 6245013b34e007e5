//! Segments with their bytes and slots in the memory of a rank: single segments and slots, the slots of a new segment, and ranges of
//! slots. (GASPI: segments, notifications)

ghost use Rattle.std.specs.Prelude.{◌≡◌, ◌+◌, ◌<◌, ◌^◌, length, slice_set, position, IfSome, IfOk};
ghost use Rattle.std.specs.Option.{option_copied};
ghost use Rattle.gaspi_types.specs.Slots.{is_set, is_slot_range, first_set};
ghost use Rattle.gaspi_model.specs.State.{segment_at, new_slots};
ghost use Rattle.gaspi_model.specs.Memories.{bytes_of, slots_of, with_slots};

use gaspi_model::Memory;
use gaspi_types::{NoMemory, Segment, Sequence};
use segment_store::{is_within, range_of, segment_in};
use std::alloc::Global;

/// The segment under an id; None where there is none.
pub fn segment_at(memory: &Memory, segment: u64) -> Option<&Segment>
    ensures { option_copied result ≡ segment_at memory.now segment }
{
    segment_in(&memory.segments, segment)
}

/// The slots of a new segment: `notes` of them, all zero. (GASPI: notifications)
pub fn new_slots(alloc: Global, notes: u32) -> Result<Sequence<u32>, NoMemory>
    ensures { IfOk result (λ slots. slots ≡ new_slots notes) }
{
    Ok(Sequence::from_vec(vec![in alloc; 0u32; notes as usize]?))
}

/// The bytes of a segment; none where there is no such segment.
pub fn bytes_of(memory: &Memory, segment: u64) -> &[u8]
    ensures { result.now ≡ bytes_of memory.now segment }
{
    segment_store::bytes_of(&memory.segments, segment)
}

/// The slots of a segment; none where there is no such segment.
pub fn slots_of(memory: &Memory, segment: u64) -> &[u32]
    ensures { result.now ≡ slots_of memory.now segment }
{
    match memory.slots.get(segment as usize) {
        Some(Some(slots)) => slots.as_slice(),
        Some(None) | None => &[],
    }
}

/// Puts a segment with its slots under an id, or removes both. An id over 31 changes nothing.
pub fn set_segment(
    memory: &mut Memory,
    segment: u64,
    new: Option<Segment>,
    slots: Option<Sequence<u32>>,
)
    ensures { memory.new ≡ record memory.old { segments = slice_set memory.old.segments segment new; slots = slice_set memory.old.slots segment slots } }
{
    let place = segment as usize;
    if place < memory.segments.len() {
        *memory.segments.at_mut(place) = new;
    }
    if place < memory.slots.len() {
        *memory.slots.at_mut(place) = slots;
    }
}

/// Sets a slot of a segment to a value. Where there is no such slot nothing changes.
pub fn set_slot(memory: &mut Memory, segment: u64, note: u64, value: u32)
    ensures { memory.new ≡ with_slots memory.old segment (slice_set (slots_of memory.old segment) note value) }
{
    let place = segment as usize;
    if place < memory.slots.len() {
        if let Some(slots) = memory.slots.at_mut(place) {
            let slot = note as usize;
            if slot < slots.len() {
                *slots.at_mut(slot) = value;
            }
        }
    }
}

/// Whether a range of slots has a slot and lies within `notes` slots.
pub fn is_slot_range(begin: u64, num: u64, notes: u32) -> bool
    ensures { result ≡ is_slot_range begin num notes }
{
    1 <= num && is_within(begin, num, u64::from(notes))
}

/// The index of the first slot that is set; None where none is.
fn first_set_place(slots: &[u32]) -> Option<usize>
    ensures place { result ≡ position is_set slots.now }
    ensures bound { IfSome result (λ place. place < length slots.now) }
{
    slots.iter().position(|value| *value != 0)
}

/// The least slot of a range that is set; None where none is.
pub fn first_set(slots: &[u32], begin: usize, num: usize) -> Option<u32>
    requires { begin + num < 2 ^ 32 }
    ensures { result ≡ first_set slots.now begin num }
{
    let part = range_of(slots, begin, num);
    match first_set_place(part) {
        Some(place) => Some((begin + place) as u32),
        None => None,
    }
}
