//! The declared segments of a rank with their bytes, for its memory in the opening state. (GASPI: segments)

ghost use Rattle.std.specs.Prelude.{◌≡◌, IfOk, map};
ghost use Rattle.std.specs.Option.{option_map};
ghost use Rattle.std.specs.List.{range_with_len};
ghost use Rattle.gaspi_types.specs.Segments.{new_segment};
ghost use Rattle.gaspi_model.specs.State.{declared_size, opening_segments};

use gaspi_model::declared_size;
use gaspi_types::{NoMemory, OwnSegments, Segment, Sequence, Shape};
use segment_store::new_segment;
use std::alloc::Global;

/// The declared segment of a rank under an id, its bytes zero; None where the shape declares none.
fn opening_segment_at(
    alloc: Global,
    shape: &Shape,
    rank: u32,
    segment: u32,
) -> Result<Option<Segment>, NoMemory>
    ensures { IfOk result (λ s. s ≡ option_map (new_segment 0) (declared_size shape.now rank segment)) }
{
    match declared_size(shape, rank, segment) {
        Some(size) => Ok(Some(new_segment(alloc, 0, size)?)),
        None => Ok(None),
    }
}

/// The declared segments of a rank: one item for each of the 32 ids.
#[tactic(auto, using(gaspi_model::proofs::Ranges::map_range_more))]
pub fn opening_segments(alloc: Global, shape: &Shape, rank: u32) -> Result<OwnSegments, NoMemory>
    ensures { IfOk result (λ segments. segments ≡ opening_segments shape.now rank) }
{
    let mut segments = Sequence::new(alloc);
    for segment in 0..32 {
        segments.push(opening_segment_at(alloc, shape, rank, segment)?)?;
    }
    Ok(segments)
}
