//! The segments of a rank with their bytes, under their ids: to make one, to find one, and to write its bytes. Nothing is checked
//! here by the table of segments; a write that does not lie in its segment changes nothing. (GASPI: segments, atomics)

ghost use Rattle.std.specs.Prelude.{◌≡◌, IfOk};
ghost use Rattle.std.specs.Option.{option_copied};
ghost use Rattle.gaspi_types.specs.SegmentBytes.{with_range};
ghost use Rattle.gaspi_types.specs.SegmentWords.{with_sum, with_swap};
ghost use Rattle.gaspi_types.specs.Segments.{new_segment, segment_in, bytes_of, with_bytes, is_generation};

use crate::ranges::set_range;
use crate::words::{add_to_word, swap_word};
use gaspi_types::{NoMemory, OwnSegments, Segment, Sequence};
use std::alloc::Global;

/// A segment in this generation with `size` bytes, all zero. (GASPI: segments)
pub fn new_segment(alloc: Global, generation: u32, size: u32) -> Result<Segment, NoMemory>
    ensures { IfOk result (λ segment. segment ≡ new_segment generation size) }
{
    Ok(Segment {
        generation,
        bytes: Sequence::from_vec(vec![in alloc; 0u8; size as usize]?),
    })
}

/// The segment under an id; None where there is none.
pub fn segment_in(own: &OwnSegments, seg: u64) -> Option<&Segment>
    ensures { option_copied result ≡ segment_in own.now seg }
{
    match own.get(seg as usize) {
        Some(Some(mine)) => Some(mine),
        Some(None) | None => None,
    }
}

/// Whether a segment is there and has this generation.
pub fn is_generation(generation: u32, segment: Option<&Segment>) -> bool
    ensures { result ≡ is_generation generation (option_copied segment.entry) }
{
    match segment {
        Some(mine) => mine.generation == generation,
        None => false,
    }
}

/// The bytes of a segment; none where there is no such segment.
pub fn bytes_of(own: &OwnSegments, seg: u64) -> &[u8]
    ensures { result.now ≡ bytes_of own.now seg }
{
    match segment_in(own, seg) {
        Some(mine) => mine.bytes.as_slice(),
        None => &[],
    }
}

/// Writes bytes into a segment from an offset on. Where they do not lie in it, or there is no such segment, nothing changes.
pub fn store_bytes(own: &mut OwnSegments, seg: u64, offset: u64, new: &[u8])
    ensures { own.new ≡ with_bytes own.old seg (with_range (bytes_of own.old seg) offset new.now) }
{
    let place = seg as usize;
    if place < own.len() {
        if let Some(mine) = own.at_mut(place) {
            set_range(&mut mine.bytes, offset, new);
        }
    }
}

/// Adds a value to a memory word of a segment; sums wrap. Where there is no such word nothing changes. (GASPI: atomic_fetch_add)
pub fn add_to_segment(own: &mut OwnSegments, seg: u64, offset: u64, value: u64)
    ensures { own.new ≡ with_bytes own.old seg (with_sum (bytes_of own.old seg) offset value) }
{
    let place = seg as usize;
    if place < own.len() {
        if let Some(mine) = own.at_mut(place) {
            add_to_word(&mut mine.bytes, offset, value);
        }
    }
}

/// Puts a new value into a memory word of a segment, where the word is the comparator; else nothing changes.
/// (GASPI: atomic_compare_swap)
pub fn swap_in_segment(own: &mut OwnSegments, seg: u64, offset: u64, comparator: u64, new: u64)
    ensures { own.new ≡ with_bytes own.old seg (with_swap (bytes_of own.old seg) offset comparator new) }
{
    let place = seg as usize;
    if place < own.len() {
        if let Some(mine) = own.at_mut(place) {
            swap_word(&mut mine.bytes, offset, comparator, new);
        }
    }
}
