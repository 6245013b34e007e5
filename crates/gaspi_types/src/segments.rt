//! Segments with their bytes, and tables of segments, which have generations and sizes alone. (GASPI: segments)

ghost use Rattle.std.specs.Prelude.{◌≡◌};
ghost use Rattle.gaspi_types.specs.World.{is_segment_size};

use crate::lists::{Bytes, Sequence};

/// The extent of a segment: its generation and its size in bytes. (GASPI: segments)
#[derive(Clone, Copy, Debug, PartialEq, Eq)]
pub struct Extent {
    pub generation: u32,
    pub size: u32,
}

/// Extents by segment id; None where no segment is there, or none is known.
pub type Extents = Sequence<Option<Extent>>;

/// The table of segments of a rank: the extents of its own segments and of those that it knows, without bytes. The ranges of a
/// post are checked with it.
#[derive(Debug, PartialEq, Eq, Drop)]
pub struct SegmentTable {
    /// Its own segments, by segment id.
    pub own: Extents,
    /// For each segment id the generation of its next own segment.
    pub next_generations: Sequence<u32>,
    /// For each rank, by its number, the segments that this rank knows of it.
    pub known: Sequence<Extents>,
}

/// A segment of a rank. (GASPI: segments)
#[derive(Debug, PartialEq, Eq, Drop)]
pub struct Segment {
    /// How often its id was used before.
    pub generation: u32,
    /// 1 to 1,048,576 bytes.
    pub bytes: Bytes,
}

/// The segments of a rank by segment id; None where there is no segment.
pub type OwnSegments = Sequence<Option<Segment>>;

/// Whether a segment may have that many bytes: 1 to 1,048,576. (own choice)
pub fn is_segment_size(size: u64) -> bool
    ensures { result ≡ is_segment_size size }
{
    (1..=1_048_576).contains(&size)
}
