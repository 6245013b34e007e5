//! The tasks of a world's threads, a body with a pass for each: made of scripts and passes, run, and taken apart. `place` is the index
//! of a pass in the list of all, which is its number; those of callers come first.

ghost use Rattle.std.specs.Prelude.{◌≡◌, ◌+◌, ◌<◌, ◌≤◌, IfOk, OnOk, OnErr, map, length, option_to_list};
ghost use Rattle.std.specs.List.{All};
ghost use Rattle.gaspi_types.specs.declared.shapes.CallerId.{CallerId};
ghost use Rattle.gaspi_world.specs.Callers.{IsPassOf};
ghost use Rattle.rank_script.specs.PlainScripts.{ArePlain};
ghost use Rattle.rank_script.specs.WorldText.{AreScriptsOf};
ghost use Rattle.gaspi_run.specs.ThreadBodies.{made_pass, AreCallersThere, EachAt, BodyNeeds, IsBodyOf, IsReady, HaveAllRun, IsDone, HaveRun, ended_caller, ended_callers};

use crate::ScriptBody;
use crate::thread_bodies::ThreadBody;
use gaspi_types::{NoMemory, Sequence};
use gaspi_world::{Pass, Passes, Task, World, launch};
use plain_schedule::EndedCaller;
use rank_script::{Cursor, RunOutcome, Scripts};
use std::alloc::Global;
use std::sync::Wait;
use std::thread::Threads;

/// What is left when the bodies of a world have run.
#[derive(Drop)]
pub(crate) struct ThreadsResult {
    /// All passes of the world, by their numbers.
    pub passes: Passes,
    /// How its callers ended, by rank and thread.
    pub outcomes: Sequence<EndedCaller>,
}

/// The body of the caller whose pass this is: its script, before the first line. The memory that a run takes for its script is taken
/// here, which is the only failure.
fn caller_body<'a>(
    alloc: Global,
    world: &World,
    scripts: &'a Scripts,
    pass: &Pass,
    place: usize,
    limit: u32,
) -> Result<ThreadBody<'a>, NoMemory>
    requires pass { pass.now ≡ made_pass world.now place }
    requires caller { (c : CallerId) × IsPassOf world.now.start.shape c pass.now.known }
    requires scripts { AreScriptsOf world.now.start.shape scripts.now }
    ensures { IfOk result (λ part. IsBodyOf world.now scripts.now limit place part) }
{
    let caller = world.caller_of(pass);
    let Some(script) = scripts.of(caller) else {
        unreachable!()
    };
    let cursor = Cursor::new(alloc, script)?;
    Ok(ThreadBody::Caller(ScriptBody {
        script,
        cursor,
        limit,
        outcome: None,
    }))
}

/// The body for a pass: that of its caller, or that of a worker. The only failure is out of memory.
fn thread_body<'a>(
    alloc: Global,
    world: &World,
    scripts: &'a Scripts,
    pass: &Pass,
    place: usize,
    limit: u32,
) -> Result<ThreadBody<'a>, NoMemory>
    requires pass { pass.now ≡ made_pass world.now place }
    requires callers { AreCallersThere world.now }
    requires scripts { AreScriptsOf world.now.start.shape scripts.now }
    ensures { IfOk result (λ part. IsBodyOf world.now scripts.now limit place part) }
{
    let callers = world.shape().callers().len();
    if place < callers {
        return caller_body(alloc, world, scripts, pass, place, limit);
    }
    Ok(ThreadBody::Worker {
        turns: (place - callers) as u64,
    })
}

/// The task of a pass. The only failure is out of memory.
fn task_of<'a>(
    alloc: Global,
    world: &World,
    scripts: &'a Scripts,
    pass: Pass,
    place: usize,
    limit: u32,
) -> Result<Task<ThreadBody<'a>>, NoMemory>
    requires pass { pass ≡ made_pass world.now place }
    requires callers { AreCallersThere world.now }
    requires scripts { AreScriptsOf world.now.start.shape scripts.now }
    ensures { IfOk result (λ task. IsReady world.now scripts.now limit place task) }
{
    let body = thread_body(alloc, world, scripts, &pass, place, limit)?;
    Ok(Task { body, pass })
}

/// The tasks of all passes of a world, in their order. The only failure is out of memory.
fn tasks_of<'a>(
    alloc: Global,
    world: &World,
    scripts: &'a Scripts,
    passes: Passes,
    limit: u32,
) -> Result<Vec<Task<ThreadBody<'a>>>, NoMemory>
    requires passes { EachAt (λ place pass. pass ≡ made_pass world.now place) passes.items }
    requires callers { AreCallersThere world.now }
    requires scripts { AreScriptsOf world.now.start.shape scripts.now }
    ensures ready { IfOk result (λ tasks. EachAt (IsReady world.now scripts.now limit) tasks.items) }
    ensures count { IfOk result (λ tasks. length tasks.items ≡ length passes.items) }
{
    let mut tasks = Vec::with_capacity(alloc, passes.len())?;
    for pass in passes {
        let task = task_of(alloc, world, scripts, pass, tasks.len(), limit)?;
        tasks.push(task)?;
    }
    Ok(tasks)
}

/// Runs the tasks by `launch`, for `run_tasks`.
fn run_slice<R: Threads + Wait + Sync>(
    rt: &R,
    alloc: Global,
    world: &World,
    tasks: &mut [Task<ThreadBody<'_>>],
)
    requires { All (λ t. BodyNeeds t.body world.now t.pass) tasks.old }
    ensures ran { HaveAllRun tasks.old tasks.new }
    ensures count { length tasks.new ≡ length tasks.old }
{
    launch(rt, alloc, world, tasks);
}

/// Runs the tasks, each on a thread of its own. The list keeps its order.
fn run_tasks<R: Threads + Wait + Sync>(
    rt: &R,
    alloc: Global,
    world: &World,
    tasks: &mut Vec<Task<ThreadBody<'_>>>,
)
    requires { All (λ t. BodyNeeds t.body world.now t.pass) tasks.old.items }
    ensures ran { HaveAllRun tasks.old.items tasks.new.items }
    ensures count { length tasks.new.items ≡ length tasks.old.items }
{
    run_slice(rt, alloc, world, tasks.as_mut_slice());
}

/// How the caller of a body ended; none of a worker's body. Out of memory where the caller's run ended so, or where the body has not
/// run.
fn ended_caller(part: &ThreadBody<'_>) -> Result<Option<EndedCaller>, NoMemory>
    ensures finished { IfOk result (λ finished. option_to_list finished ≡ ended_caller part.now) }
    ensures told { OnOk result (IsDone part.now) }
    ensures undone { OnErr result (¬ IsDone part.now) }
{
    match part {
        ThreadBody::Caller(body) => match body.outcome {
            None | Some(RunOutcome::NoMemory { .. }) => Err(NoMemory),
            Some(outcome) => Ok(Some(EndedCaller {
                caller: body.script.caller,
                outcome,
            })),
        },
        ThreadBody::Worker { .. } => Ok(None),
    }
}

/// How the callers ended, in the order of their tasks; `callers` is how many there are. Out of memory also where a caller's run ended
/// so.
fn ended_callers_of(
    alloc: Global,
    callers: usize,
    tasks: &[Task<ThreadBody<'_>>],
) -> Result<Sequence<EndedCaller>, NoMemory>
    ensures finished { IfOk result (λ finished. finished ≡ ended_callers tasks.now) }
    ensures told { OnOk result (All (λ t. IsDone t.body) tasks.now) }
{
    let mut outcomes = Sequence::with_capacity(alloc, callers)?;
    for task in tasks {
        if let Some(finished) = ended_caller(&task.body)? {
            outcomes.push(finished)?;
        }
    }
    Ok(outcomes)
}

/// The passes of the tasks, in their order. The only failure is out of memory; then the passes are gone.
fn passes_of(alloc: Global, tasks: Vec<Task<ThreadBody<'_>>>) -> Result<Passes, NoMemory>
    ensures { IfOk result (λ passes. passes.items ≡ map (λ t. t.pass) tasks.entry.items) }
{
    let mut passes = Vec::with_capacity(alloc, tasks.len())?;
    for task in tasks {
        passes.push(task.pass)?;
    }
    Ok(passes)
}

/// Runs the scripts of a world and makes its transfers, each caller and each worker on a thread of its own. `passes` are all passes of
/// the world, which have done nothing. The only failure is out of memory, also that of a script's run; then the passes are gone.
pub(crate) fn run_bodies<R: Threads + Wait + Sync>(
    rt: &R,
    alloc: Global,
    world: &World,
    scripts: &Scripts,
    passes: Passes,
    limit: u32,
) -> Result<ThreadsResult, NoMemory>
    requires limit { 1 ≤ limit }
    requires passes { EachAt (λ place pass. pass ≡ made_pass world.now place) passes.items }
    requires count { length passes.items ≡ world.now.passes }
    requires callers { AreCallersThere world.now }
    requires scripts { AreScriptsOf world.now.start.shape scripts.now }
    ensures ran { IfOk result (λ ran. HaveRun world.now scripts.now limit ran.passes.items ran.outcomes) }
    ensures plain { ArePlain scripts.now }
{
    let callers = scripts.len();
    let mut tasks = tasks_of(alloc, world, scripts, passes, limit)?;
    run_tasks(rt, alloc, world, &mut tasks);
    let outcomes = ended_callers_of(alloc, callers, tasks.as_slice())?;
    let passes = passes_of(alloc, tasks)?;
    Ok(ThreadsResult { passes, outcomes })
}
