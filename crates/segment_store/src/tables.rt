//! Helpers of `Segments` alone: its tables before any segment is made, the zeros of a segment in a given list, and the checks of a
//! delete and an atomic. (GASPI: segments, atomics)

ghost use Rattle.std.specs.Prelude.{◌≡◌, IfOk, length, replicate, None};
ghost use Rattle.segment_store.specs.Segments.{nothing_known, own_word_checks, delete_checks};

use crate::{check_word, extent_in};
use gaspi_types::{Bytes, Extents, NoMemory, OwnSegments, Refusal, SegmentTable, Sequence};
use std::alloc::Global;

/// No own segment: 32 times None.
pub fn no_segments(alloc: Global) -> Result<OwnSegments, NoMemory>
    ensures { IfOk result (λ own. own ≡ replicate 32 None) }
{
    let mut own = Sequence::new(alloc);
    for _segment in 0..32u32 {
        own.push(None)?;
    }
    Ok(own)
}

/// A table with no segment: 32 times None.
fn no_extents(alloc: Global) -> Result<Extents, NoMemory>
    ensures { IfOk result (λ own. own ≡ replicate 32 None) }
{
    Ok(Sequence::from_vec(vec![in alloc; None; 32]?))
}

/// For each of `ranks` ranks a table with no segment.
fn no_known(alloc: Global, ranks: u32) -> Result<Sequence<Extents>, NoMemory>
    ensures { IfOk result (λ known. known ≡ replicate ranks (replicate 32 None)) }
{
    let mut known = Sequence::new(alloc);
    for _rank in 0..ranks {
        known.push(no_extents(alloc)?)?;
    }
    Ok(known)
}

/// The table of a rank that has no segment and knows none of `ranks` ranks. The next generation of each id is 0.
pub fn nothing_known(alloc: Global, ranks: u32) -> Result<SegmentTable, NoMemory>
    ensures { IfOk result (λ table. table ≡ nothing_known ranks) }
{
    Ok(SegmentTable {
        own: no_extents(alloc)?,
        next_generations: Sequence::from_vec(vec![in alloc; 0; 32]?),
        known: no_known(alloc, ranks)?,
    })
}

/// The list `room` with all its bytes set to zero. It takes no memory.
pub fn zeroed(room: Bytes) -> Bytes
    ensures { result ≡ replicate (length room) 0 }
{
    let mut bytes = room.into_vec();
    bytes.fill(0);
    Sequence::from_vec(bytes)
}

/// Checks that an own segment is there (`NoSegment`).
pub fn check_delete(own: &Extents, seg: u64) -> Result<(), Refusal>
    ensures { result ≡ delete_checks own.now seg }
{
    extent_in(own, seg).ok_or(Refusal::NoSegment)?;
    Ok(())
}

/// Checks a memory word of an own segment: the segment is there (`Unregistered`), the word lies in it (`BadRange`), and the offset
/// is divisible by 8 (`BadAlign`).
pub fn check_own_word(own: &Extents, seg: u64, offset: u64) -> Result<(), Refusal>
    ensures { result ≡ own_word_checks own.now seg offset }
{
    let mine = extent_in(own, seg).ok_or(Refusal::Unregistered)?;
    check_word(mine.size, offset)
}
