//! The world of `bench`, made without a text: ranks in a ring, each of which sends a number to its right neighbour in each bench
//! round. Its shape and scripts are made here, and the lines of the scripts in `ring_rounds`.

ghost use Rattle.std.specs.Prelude.{◌≡◌, ◌+◌, ◌<◌, ◌≤◌, IfOk, OnOk};
ghost use Rattle.rank_script.specs.Bench.{bench_shape, bench_segments, bench_callers};
ghost use Rattle.rank_script.specs.BenchScripts.{bench_scripts};

use crate::ring_ranks::RingRank;
use crate::scripts::{Script, ScriptLines, Scripts};
use gaspi_types::{CallerId, NoMemory, RankId, Shape, ShapeFault, ThreadId};
use std::alloc::Global;

/// The world of `bench`, with 1 to 16 ranks in a ring, and 1 to 5,000 bench rounds. In each a rank stores a number of the generator
/// that starts from the seed, sends it to its right neighbour, and expects that of its left neighbour. A line has the number that it
/// would have in a text of this world. The only failure is out of memory; what is taken is in proportion to the ranks.
pub fn bench_world(
    alloc: Global,
    seed: u32,
    ranks: u32,
    rounds: u32,
) -> Result<(Shape, Scripts), NoMemory>
    requires ranks { (1 ≤ ranks) × (ranks ≤ 16) }
    requires rounds { (1 ≤ rounds) × (rounds ≤ 5000) }
    ensures shape { IfOk result (λ made. made.0 ≡ bench_shape ranks rounds) }
    ensures scripts { IfOk result (λ made. made.1 ≡ bench_scripts seed ranks rounds ranks) }
{
    let shape = bench_shape(alloc, ranks, rounds)?;
    let scripts = bench_scripts(alloc, seed, ranks, rounds)?;
    Ok((shape, scripts))
}

/// The shape of that world: a segment of sixteen bytes and a caller for each rank. The only failure is out of memory.
fn bench_shape(alloc: Global, ranks: u32, rounds: u32) -> Result<Shape, NoMemory>
    requires ranks { (1 ≤ ranks) × (ranks ≤ 16) }
    requires rounds { rounds ≤ 5000 }
    ensures { IfOk result (λ shape. shape ≡ bench_shape ranks rounds) }
{
    let events = 12 * u64::from(rounds) + 1;
    let Ok(mut shape) = Shape::new(alloc, u64::from(ranks), 1, 4, 1, 1, events) else {
        unreachable!()
    };
    for rank in 0..ranks {
        declare_rank(&mut shape, rank)?;
    }
    Ok(shape)
}

/// Declares the segment and the caller of a rank, for `bench_shape`. Those of all ranks below it are declared, and no others. Where
/// memory runs out, the segment may be declared already.
fn declare_rank(shape: &mut Shape, rank: u32) -> Result<(), NoMemory>
    requires rank { rank < shape.old.limits.ranks }
    requires events { 0 < shape.old.limits.events }
    requires segments { shape.old.segments ≡ bench_segments rank }
    requires callers { shape.old.callers ≡ bench_callers rank }
    ensures { OnOk result (shape.new ≡ record { limits = shape.old.limits; segments = bench_segments (rank + 1); callers = bench_callers (rank + 1) }) }
{
    match shape.add_segment(u64::from(rank), 0, 16) {
        Ok(()) => {}
        Err(fault) => return Err(no_memory(fault)),
    }
    match shape.add_caller(u64::from(rank), 0) {
        Ok(()) => Ok(()),
        Err(fault) => Err(no_memory(fault)),
    }
}

/// Out of memory, for `declare_rank`: its declarations have no other fault.
fn no_memory(fault: ShapeFault) -> NoMemory
    requires { fault ≡ ShapeFault.NoMemory }
{
    let ShapeFault::NoMemory = fault else {
        unreachable!()
    };
    NoMemory
}

/// The scripts of all ranks, in order. Their lines take no memory here. The only failure is out of memory.
fn bench_scripts(alloc: Global, seed: u32, ranks: u32, rounds: u32) -> Result<Scripts, NoMemory>
    requires ranks { ranks ≤ 16 }
    requires rounds { (1 ≤ rounds) × (rounds ≤ 5000) }
    ensures { IfOk result (λ scripts. scripts ≡ bench_scripts seed ranks rounds ranks) }
{
    let mut scripts = Scripts::new(alloc);
    for rank in 0..ranks {
        let caller = CallerId {
            rank: RankId::of(rank),
            thread: ThreadId::of(0),
        };
        let ring = RingRank {
            seed,
            ranks,
            rounds,
            rank,
        };
        let lines = ScriptLines::of_ring(alloc, ring);
        scripts.add(Script { caller, lines })?;
    }
    Ok(scripts)
}
