//! A program on threads, from the start of its world to the close. The tasks of the threads, a body with a pass for each, are made,
//! run and taken apart here. `party` is the number of a pass; those of callers come first.

ghost use Rattle.std.specs.Prelude.{◌≡◌, ◌<◌, ◌≤◌, true, IfOk, map, length, option_to_list};
ghost use Rattle.std.specs.List.{All};
ghost use Rattle.gaspi_model.specs.Step.{is_legal};
ghost use Rattle.gaspi_model.specs.ContributionCounts.{ContributesOnce};
ghost use Rattle.gaspi_model.specs.Notifications.{HandsOutOnce};
ghost use Rattle.transfer_worker.specs.Turns.{IsDrained};
ghost use Rattle.rank_programs.specs.ThreadBodies.{EachAt, made_pass, AreCallersThere, BodyNeeds, outcome_of, outcomes_in, HaveAllRun, IsBodyOf, IsReady, HaveRun};

use crate::programs::Program;
use crate::thread_bodies::ThreadBody;
use gaspi_model::settling;
use gaspi_texts::Journal;
use gaspi_types::{NoMemory, Shape};
use gaspi_world::{Pass, Passes, Started, Task, World, launch};
use std::alloc::Global;
use std::sync::Wait;
use std::thread::Threads;
use thiserror::Error;

/// What a program on threads gave.
#[derive(Drop)]
pub struct ProgramResult<T> {
    /// The history of the world.
    pub journal: Journal,
    /// What the program came to for each caller, by rank and thread.
    pub outcomes: Vec<T>,
}

/// Why a program on threads gave no journal.
#[derive(Debug, Drop, Error)]
pub enum RunFault {
    /// Memory ran out, before the threads began or after they ended.
    #[error("out of memory")]
    NoMemory,
    /// The passes are not all those of the world any more: callers have exchanged theirs for others.
    #[error("passes of other callers")]
    NotWhole,
}

impl From<NoMemory> for RunFault {
    /// Out of memory, as a fault.
    fn from(_error: NoMemory) -> RunFault {
        RunFault::NoMemory
    }
}

/// The body for a pass: a caller's, with the program, or a worker's.
fn body_of<'a, P: Program>(
    world: &World,
    program: &'a P,
    party: usize,
) -> ThreadBody<'a, P, P::Outcome>
    ensures { IsBodyOf world.now party result }
{
    let callers = world.shape().callers().len();
    if party < callers {
        return ThreadBody::Caller {
            program,
            outcome: None,
        };
    }
    ThreadBody::Worker {
        first_turn: (party - callers) as u64,
    }
}

/// The task of a pass.
fn task_of<'a, P: Program>(
    world: &World,
    program: &'a P,
    pass: Pass,
    party: usize,
) -> Task<ThreadBody<'a, P, P::Outcome>>
    requires { pass ≡ made_pass world.now party }
    ensures { IsReady world.now party result }
{
    let body = body_of(world, program, party);
    Task { body, pass }
}

/// The tasks of all passes of a world, in their order. The only failure is out of memory.
fn tasks_of<'a, P: Program>(
    alloc: Global,
    world: &World,
    program: &'a P,
    passes: Passes,
) -> Result<Vec<Task<ThreadBody<'a, P, P::Outcome>>>, NoMemory>
    requires { EachAt (λ place pass. pass ≡ made_pass world.now place) passes.items }
    ensures ready { IfOk result (λ tasks. EachAt (IsReady world.now) tasks.items) }
    ensures count { IfOk result (λ tasks. length tasks.items ≡ length passes.items) }
{
    let mut tasks = Vec::with_capacity(alloc, passes.len())?;
    for pass in passes {
        let task = task_of(world, program, pass, tasks.len());
        tasks.push(task)?;
    }
    Ok(tasks)
}

/// Runs the tasks by `launch`, for `run_tasks`.
fn run_slice<R: Threads + Wait + Sync, P: Program + Sync>(
    rt: &R,
    alloc: Global,
    world: &World,
    tasks: &mut [Task<ThreadBody<'_, P, P::Outcome>>],
)
where
    P::Outcome: Send,
    requires { All (λ t. BodyNeeds t.body world.now t.pass) tasks.old }
    ensures ran { HaveAllRun tasks.old tasks.new }
    ensures count { length tasks.new ≡ length tasks.old }
{
    launch(rt, alloc, world, tasks);
}

/// Runs the tasks, each on a thread of its own. The list keeps its order.
fn run_tasks<R: Threads + Wait + Sync, P: Program + Sync>(
    rt: &R,
    alloc: Global,
    world: &World,
    tasks: &mut Vec<Task<ThreadBody<'_, P, P::Outcome>>>,
)
where
    P::Outcome: Send,
    requires { All (λ t. BodyNeeds t.body world.now t.pass) tasks.old.items }
    ensures ran { HaveAllRun tasks.old.items tasks.new.items }
    ensures count { length tasks.new.items ≡ length tasks.old.items }
{
    run_slice(rt, alloc, world, tasks.as_mut_slice());
}

/// The outcome of the caller of a body that has run the program; none of any other body.
fn outcome_of<P: Program>(body: ThreadBody<'_, P, P::Outcome>) -> Option<P::Outcome>
    ensures { option_to_list result ≡ outcome_of body.entry }
{
    match body {
        ThreadBody::Caller { outcome, .. } => outcome,
        ThreadBody::Worker { .. } => None,
    }
}

/// The passes of the tasks, in their order, and the outcomes of the callers. The only failure is out of memory; then the passes are
/// gone.
fn split<P: Program>(
    alloc: Global,
    tasks: Vec<Task<ThreadBody<'_, P, P::Outcome>>>,
) -> Result<(Passes, Vec<P::Outcome>), NoMemory>
    ensures passes { IfOk result (λ split. split.0.items ≡ map (λ t. t.pass) tasks.entry.items) }
    ensures outcomes { IfOk result (λ split. split.1.items ≡ outcomes_in tasks.entry.items) }
{
    let mut passes = Vec::with_capacity(alloc, tasks.len())?;
    let mut outcomes = Vec::new(alloc);
    for task in tasks {
        passes.push(task.pass)?;
        if let Some(outcome) = outcome_of(task.body) {
            outcomes.push(outcome)?;
        }
    }
    Ok((passes, outcomes))
}

/// Runs the program for each caller, and workers, each on a thread of its own, and gives the passes back with the outcomes of the
/// callers. `passes` are all passes of the world, which have done nothing, with a worker's among them. The only failure is out of
/// memory; then the passes are gone.
fn run_bodies<R: Threads + Wait + Sync, P: Program + Sync>(
    rt: &R,
    alloc: Global,
    world: &World,
    program: &P,
    passes: Passes,
) -> Result<(Passes, Vec<P::Outcome>), NoMemory>
where
    P::Outcome: Send,
    requires passes { EachAt (λ place pass. pass ≡ made_pass world.now place) passes.items }
    requires callers { AreCallersThere world.now }
    requires worker { length world.now.start.shape.callers < length passes.items }
    ensures ran { IfOk result (λ ran. HaveRun world.now ran.0.items) }
    ensures outcomes { IfOk result (λ ran. length ran.1.items ≡ length world.now.start.shape.callers) }
{
    let mut tasks = tasks_of(alloc, world, program, passes)?;
    run_tasks(rt, alloc, world, &mut tasks);
    split(alloc, tasks)
}

/// Ends a world whose bodies have run, and gives its journal. `NotWhole` where these are not all its passes; the only other failure is
/// out of memory.
fn closed(alloc: Global, world: World, passes: Passes) -> Result<Journal, RunFault>
    requires { HaveRun world passes.items }
    ensures legal { IfOk result (λ journal. is_legal world.start.shape journal ≡ true) }
    ensures drained { IfOk result (λ journal. IsDrained world.start.shape journal) }
    ensures handed { IfOk result (λ journal. HandsOutOnce world.start.shape journal) }
    ensures contributed { IfOk result (λ journal. ContributesOnce world.start.shape journal) }
{
    settling();
    if !world.whole(&passes) {
        return Err(RunFault::NotWhole);
    }
    match world.close(alloc, passes) {
        Ok((journal, _)) => Ok(journal),
        Err(_) => Err(RunFault::NoMemory),
    }
}

/// Runs a program for each caller of a world, beside 1 to 4 workers that make its transfers, each on a thread of its own. The journal
/// is a legal history of the world, and at its end the world is settled. `RunFault` says why there is no journal.
pub fn run_program<R: Threads + Wait + Sync, P: Program + Sync>(
    rt: &R,
    alloc: Global,
    shape: &Shape,
    program: &P,
    workers: u32,
) -> Result<ProgramResult<P::Outcome>, RunFault>
where
    P::Outcome: Send,
    requires { (1 ≤ workers) × (workers ≤ 4) }
    ensures outcomes { IfOk result (λ ran. length ran.outcomes.items ≡ length shape.now.callers) }
    ensures legal { IfOk result (λ ran. is_legal shape.now ran.journal ≡ true) }
    ensures drained { IfOk result (λ ran. IsDrained shape.now ran.journal) }
    ensures handed { IfOk result (λ ran. HandsOutOnce shape.now ran.journal) }
    ensures contributed { IfOk result (λ ran. ContributesOnce shape.now ran.journal) }
{
    let Started { world, passes } = World::start(alloc, shape, workers)?;
    let (passes, outcomes) = run_bodies(rt, alloc, &world, program, passes)?;
    let journal = closed(alloc, world, passes)?;
    Ok(ProgramResult { journal, outcomes })
}
