//! What a rank has at the start, by the shape: its table of segments, its threads and its state vector. (GASPI: segments, state
//! vector)
//!
//! `opening` is said of what is so in the opening state.

ghost use Rattle.std.specs.Prelude.{◌≡◌, IfOk, replicate, map, false};
ghost use Rattle.std.specs.List.{list_any, range_with_len};
ghost use Rattle.gaspi_types.specs.World.{is_caller};
ghost use Rattle.gaspi_model.specs.State.{declared_size, opening_extents, opening_generations, opening_thread, opening_table};

use crate::states::ThreadState;
use gaspi_types::{Extent, Extents, NoMemory, SegmentTable, Sequence, Shape};
use std::alloc::Global;

/// The size with which a segment of a rank is declared, or None where it is not declared.
pub fn declared_size(shape: &Shape, rank: u32, segment: u32) -> Option<u32>
    ensures { result ≡ declared_size shape.now rank segment }
{
    shape
        .segments()
        .iter()
        .find(|d| d.rank.number() == rank && d.segment.number() == segment)
        .map(|d| d.size)
}

/// The extents of the declared segments of a rank, in generation 0, by segment id.
#[tactic(auto, using(crate::proofs::Ranges::map_range_more))]
fn opening_extents(alloc: Global, shape: &Shape, rank: u32) -> Result<Extents, NoMemory>
    ensures { IfOk result (λ extents. extents ≡ opening_extents shape.now rank) }
{
    let mut extents = Sequence::new(alloc);
    for segment in 0..32 {
        let extent = declared_size(shape, rank, segment).map(|size| Extent {
            generation: 0,
            size,
        });
        extents.push(extent)?;
    }
    Ok(extents)
}

/// The segments that every rank knows at the start: the declared ones of each rank, by the numbers of the ranks.
#[tactic(auto, using(crate::proofs::Ranges::map_range_more))]
fn opening_known(alloc: Global, shape: &Shape) -> Result<Sequence<Extents>, NoMemory>
    ensures { IfOk result (λ known. known ≡ map (opening_extents shape.now) (range_with_len 0 shape.now.limits.ranks)) }
{
    let mut known = Sequence::new(alloc);
    for rank in 0..shape.ranks() {
        known.push(opening_extents(alloc, shape, rank)?)?;
    }
    Ok(known)
}

/// For each segment id the generation of the rank's next segment: 1 where the id is declared, else 0.
#[tactic(auto, using(crate::proofs::Ranges::map_range_more))]
fn opening_generations(alloc: Global, shape: &Shape, rank: u32) -> Result<Sequence<u32>, NoMemory>
    ensures { IfOk result (λ generations. generations ≡ opening_generations shape.now rank) }
{
    let mut generations = Sequence::new(alloc);
    for segment in 0..32 {
        let used = declared_size(shape, rank, segment).is_some();
        generations.push(u32::from(used))?;
    }
    Ok(generations)
}

/// Whether a thread of a rank is a declared caller.
fn is_declared(shape: &Shape, rank: u32, thread: u32) -> bool
    ensures { result ≡ list_any (is_caller rank thread) shape.now.callers }
{
    shape
        .callers()
        .iter()
        .any(|c| c.rank.number() == rank && c.thread.number() == thread)
}

/// The state of a thread at the start: an active caller where it is declared, else absent.
pub fn opening_thread(shape: &Shape, rank: u32, thread: u32) -> ThreadState
    ensures { result ≡ opening_thread shape.now rank thread }
{
    if is_declared(shape, rank, thread) {
        ThreadState::Running
    } else {
        ThreadState::Absent
    }
}

/// The states of the four threads of a rank at the start.
#[tactic(auto, using(crate::proofs::Ranges::map_range_more))]
pub fn opening_threads(
    alloc: Global,
    shape: &Shape,
    rank: u32,
) -> Result<Sequence<ThreadState>, NoMemory>
    ensures { IfOk result (λ threads. threads ≡ map (opening_thread shape.now rank) (range_with_len 0 4)) }
{
    let mut threads = Sequence::new(alloc);
    for thread in 0..4 {
        threads.push(opening_thread(shape, rank, thread))?;
    }
    Ok(threads)
}

/// The state vector of a rank at the start: no rank is corrupt.
pub fn opening_corrupt(alloc: Global, ranks: u32) -> Result<Sequence<bool>, NoMemory>
    ensures { IfOk result (λ corrupt. corrupt ≡ replicate ranks false) }
{
    Ok(Sequence::from_vec(vec![in alloc; false; ranks as usize]?))
}

/// The table of segments of a rank at the start.
pub fn opening_table(alloc: Global, shape: &Shape, rank: u32) -> Result<SegmentTable, NoMemory>
    ensures { IfOk result (λ table. table ≡ opening_table shape.now rank) }
{
    Ok(SegmentTable {
        own: opening_extents(alloc, shape, rank)?,
        next_generations: opening_generations(alloc, shape, rank)?,
        known: opening_known(alloc, shape)?,
    })
}
