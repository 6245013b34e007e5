//! Worlds that are started, with and without a worker, and closed; for the other files of tests.

ghost use Rattle.std.specs.Prelude.{◌≡◌, ℕ, IfOk, Some, slice_get};
ghost use Rattle.commit_table.specs.Calls.{IsOf, HoldsNone};
ghost use Rattle.gaspi_world.specs.Calling.{MayCall};

use gaspi_types::{NoMemory, Shape};
use gaspi_world::{Passes, Started, World};
use std::alloc::Global;

/// A world without workers; each of its passes may make calls.
pub fn of_callers(alloc: Global, shape: &Shape) -> Result<Started, NoMemory>
    ensures { IfOk result (λ started. (k : ℕ) (p : _) → slice_get started.passes.items k ≡ Some p → MayCall started.world p) }
{
    let started = World::start(alloc, shape, 0)?;
    Ok(started)
}

/// A world with one worker; none of its passes holds a shard.
pub fn with_worker(alloc: Global, shape: &Shape) -> Result<Started, NoMemory>
    ensures { IfOk result (λ started. (k : ℕ) (p : _) → slice_get started.passes.items k ≡ Some p → IsOf started.world p × HoldsNone p.known) }
{
    let started = World::start(alloc, shape, 1)?;
    Ok(started)
}

/// Closes a world with all its passes: how many events its journal has, and its tally. None where these are not all its passes,
/// or memory runs out.
pub fn closed(alloc: Global, world: World, passes: Passes) -> Option<(usize, u64)>
    requires { (k : ℕ) (p : _) → slice_get passes.items k ≡ Some p → IsOf world p × HoldsNone p.known }
{
    if !world.whole(&passes) {
        return None;
    }
    match world.close(alloc, passes) {
        Ok((journal, tally)) => Some((journal.len(), tally.events())),
        Err(_) => None,
    }
}
