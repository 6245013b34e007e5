//! The scripts of a world on threads: each caller and each worker on one of its own.

ghost use Rattle.std.specs.Prelude.{◌≡◌, ◌≤◌, IfOk, true, Some, map};
ghost use Rattle.gaspi_texts.specs.JournalText.{HaveOwnValues};
ghost use Rattle.commit_table.specs.Calls.{AreWhole};
ghost use Rattle.gaspi_model.specs.Step.{is_legal};
ghost use Rattle.gaspi_model.specs.ContributionCounts.{ContributesOnce};
ghost use Rattle.gaspi_model.specs.Notifications.{HandsOutOnce};
ghost use Rattle.gaspi_world.specs.Closing.{HaveSeen, HaveDone};
ghost use Rattle.rank_script.specs.WorldText.{AreScriptsOf};
ghost use Rattle.gaspi_run.specs.Threads.{HasRunWorld};

use crate::tasks::{ThreadsResult, run_bodies};
use gaspi_model::{notification_order, settling};
use gaspi_texts::{Journal, journal_is_in_range};
use gaspi_types::{NoMemory, Sequence, Shape};
use gaspi_world::{Passes, Started, Tally, World, waits_last};
use plain_schedule::EndedCaller;
use rank_script::Scripts;
use std::alloc::Global;
use std::sync::Wait;
use std::thread::Threads;

/// What the scripts of a world on threads gave.
#[derive(Drop)]
pub struct RunResult {
    /// The history of the world.
    pub journal: Journal,
    /// What is known of the closed world.
    pub tally: Tally,
    /// How each caller ended, by rank and thread.
    pub outcomes: Sequence<EndedCaller>,
}

/// Ends a world with all its passes, for `run_on_threads`. The only failure is out of memory; then the world is gone.
fn closed(alloc: Global, world: World, passes: Passes) -> Result<(Journal, Tally), NoMemory>
    requires { AreWhole world passes.items }
    ensures tally { IfOk result (λ r. (r.1.start ≡ Some world.start) × (r.1.journal ≡ r.0)) }
    ensures passes { IfOk result (λ r. r.1.passes ≡ map (λ p. p.known) passes.items) }
    ensures legal { IfOk result (λ r. is_legal world.start.shape r.0 ≡ true) }
    ensures seen { IfOk result (λ r. HaveSeen r.0 passes.items) }
    ensures done { IfOk result (λ r. HaveDone world.start.shape r.0 passes.items) }
    ensures handed { IfOk result (λ r. HandsOutOnce world.start.shape r.0) }
    ensures contributed { IfOk result (λ r. ContributesOnce world.start.shape r.0) }
{
    match world.close(alloc, passes) {
        Ok(closed) => Ok(closed),
        Err(_) => Err(NoMemory),
    }
}

/// Runs the scripts of a world, each on a thread, beside 1 to 4 workers, which make the transfers. A call that blocks has `limit`
/// looks, at least one; the scripts are those of this shape's callers. The only failure is out of memory, and then no history is
/// answered.
pub fn run_on_threads<R: Threads + Wait + Sync>(
    rt: &R,
    alloc: Global,
    shape: &Shape,
    scripts: &Scripts,
    workers: u32,
    limit: u32,
) -> Result<RunResult, NoMemory>
    requires limit { 1 ≤ limit }
    requires workers { (1 ≤ workers) × (workers ≤ 4) }
    requires scripts { AreScriptsOf shape.now scripts.now }
    ensures ran { IfOk result (λ ran. HasRunWorld shape.now scripts.now workers limit ran.journal (Some ran.tally) ran.outcomes) }
    ensures values { IfOk result (λ ran. HaveOwnValues ran.journal) }
{
    settling();
    notification_order();
    waits_last();
    let Started { world, passes } = World::start(alloc, shape, workers)?;
    let ThreadsResult { passes, outcomes } = run_bodies(rt, alloc, &world, scripts, passes, limit)?;
    let (journal, tally) = closed(alloc, world, passes)?;
    prove!(journal_is_in_range(&journal));
    Ok(RunResult {
        journal,
        tally,
        outcomes,
    })
}
