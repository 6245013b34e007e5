//! Laws of the segments of a rank: contracts of functions that do nothing.

ghost use Rattle.std.specs.Prelude.{◌≡◌, ◌≢◌, ℕ, ◌+◌, ◌%◌, ◌^◌, ◌<◌, ◌≤◌, List, length, Some, Ok};
ghost use Rattle.std.specs.Option.{option_map};
ghost use Rattle.byteorder.specs.Endian.{little_bytes};
ghost use Rattle.gaspi_types.specs.SegmentTables.{extent_in, own_range_checks};
ghost use Rattle.gaspi_types.specs.Segments.{segment_in, bytes_of, extent_of, extents_of};
ghost use Rattle.gaspi_types.specs.declared.segments.Segment.{Segment};
ghost use Rattle.segment_store.specs.Changes.{IsWritten};
ghost use Rattle.segment_store.specs.Segments.{SegmentsValue, IsSound, word_in, with_stored, with_added, with_swapped};

/// The table of own segments, by which calls are checked, has the generation and the size of each own segment, and no other extents.
pub fn extents()
    ensures each { (s : SegmentsValue) (segment : ℕ) → IsSound s → extent_in s.table.own segment ≡ option_map extent_of (segment_in s.segments segment) }
    ensures all { (s : SegmentsValue) → IsSound s → s.table.own ≡ extents_of s.segments }
{}

/// What a call that writes changes, where it is not refused: a store or a put just the bytes of its range, and an atomic just its
/// memory word. All other bytes, segments, generations and known segments stay. A put whose range does not lie in the segment
/// changes nothing, and neither does a swap where the word is not the comparator. Refusals follow from the generations and sizes of
/// the segments themselves. (GASPI: segments, atomics)
pub fn writes()
    ensures store { (s : SegmentsValue) (segment offset : ℕ) (bytes : List ℕ) → own_range_checks (extents_of s.segments) segment offset (length bytes) ≡ Ok tt
        → IsWritten s (with_stored s segment offset bytes) segment offset bytes }
    ensures put { (s : SegmentsValue) (segment offset : ℕ) (mine : Segment) (bytes : List ℕ) → segment_in s.segments segment ≡ Some mine
        → offset + length bytes ≤ length mine.bytes → IsWritten s (with_stored s segment offset bytes) segment offset bytes }
    ensures outside { (s : SegmentsValue) (segment offset : ℕ) (bytes : List ℕ) → length (bytes_of s.segments segment) < offset + length bytes
        → with_stored s segment offset bytes ≡ s }
    ensures added { (s : SegmentsValue) (segment offset value old : ℕ) → word_in s.segments segment offset ≡ Ok old
        → IsWritten s (with_added s segment offset value) segment offset (little_bytes 8 ((old + value) % 2 ^ 64)) }
    ensures swapped { (s : SegmentsValue) (segment offset new old : ℕ) → word_in s.segments segment offset ≡ Ok old
        → IsWritten s (with_swapped s segment offset old new) segment offset (little_bytes 8 new) }
    ensures unequal { (s : SegmentsValue) (segment offset comparator new old : ℕ) → word_in s.segments segment offset ≡ Ok old → old ≢ comparator
        → with_swapped s segment offset comparator new ≡ s }
{}
