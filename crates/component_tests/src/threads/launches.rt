//! A world of two ranks that starts, is launched and is closed; the body of each pass learns a note of its own pass. The
//! private functions of the test hand the tasks to the launch.

ghost use Rattle.std.specs.Prelude.{◌≡◌, ℕ, true, map, IfOk, Some, slice_get};
ghost use Rattle.std.specs.List.{All};
ghost use Rattle.commit_table.specs.Calls.{IsOf, HoldsNone};

use super::worlds::{closed, with_worker};
use gaspi_types::Shape;
use gaspi_world::{Body, Note, Pass, Passes, Rank, Started, Task, World, launch};
use std::alloc::{AllocError, Global};
use std::sync::Wait;
use std::test::Fail;
use std::thread::Threads;

/// Two ranks with a caller each.
fn two_ranks(alloc: Global) -> Result<Shape, Fail> {
    let mut shape = Shape::new(alloc, 2, 1, 4, 8, 4, 100)?;
    shape.add_caller(0, 0)?;
    shape.add_caller(1, 2)?;
    Ok(shape)
}

/// Whether a world has all its passes, one for each of two callers and one for its worker, and its shape.
fn is_whole(started: &Started) -> bool {
    started.world.whole(&started.passes)
        && started.passes.len() == 3
        && started.world.shape().ranks() == 2
}

/// Whether a world with a worker starts with all its passes.
fn starts(alloc: Global, shape: &Shape) -> bool {
    match with_worker(alloc, shape) {
        Ok(started) => is_whole(&started),
        Err(_) => false,
    }
}

#[test]
fn a_world_starts_with_its_passes(rt: HostRuntime) -> Result<(), Fail> {
    let shape = two_ranks(rt.alloc())?;
    assert!(rt; starts(rt.alloc(), &shape));
    Ok(())
}

/// A body that learns a note of its own pass.
#[derive(Drop)]
struct OwnNote {
    learned: bool,
}

/// A note of what the pass has seen.
fn own_note(world: &World, pass: &mut Pass) -> Note
    requires { IsOf world.now pass.old }
    ensures same { pass.new ≡ pass.old }
    ensures note { result.table ≡ pass.old.table }
{
    Rank { world, pass }.note()
}

/// Lets the pass learn a note.
fn learn(world: &World, pass: &mut Pass, note: Note)
    requires pass { IsOf world.now pass.old }
    requires note { note.table ≡ world.now.table }
    ensures { (pass.new.table ≡ pass.old.table) × (pass.new.known.start ≡ pass.old.known.start) × (pass.new.known.held ≡ pass.old.known.held) }
{
    Rank { world, pass }.learn(note);
}

impl Body for OwnNote {
    ghost use Rattle.std.specs.Prelude.{◌≡◌, true};
    ghost use Rattle.commit_table.specs.Calls.{IsOf};

    ghost needs = { λ body world pass. IsOf world pass };

    ghost did = { λ body pass next after. (after.table ≡ pass.table) × (after.known.start ≡ pass.known.start) × (after.known.held ≡ pass.known.held) × (next.learned ≡ true) };

    fn run<R: Wait>(&mut self, _rt: &R, _alloc: Global, world: &World, pass: &mut Pass) {
        let note = own_note(world, pass);
        learn(world, pass, note);
        self.learned = true;
    }
}

/// A task for each pass.
fn tasks_of(alloc: Global, passes: Passes) -> Result<Vec<Task<OwnNote>>, AllocError>
    ensures { IfOk result (λ tasks. map (λ t. t.pass) tasks.items ≡ passes.items) }
{
    let mut tasks = Vec::with_capacity(alloc, passes.len())?;
    for pass in passes {
        let body = OwnNote { learned: false };
        tasks.push(Task { body, pass })?;
    }
    Ok(tasks)
}

/// The passes of the tasks.
fn passes_of(alloc: Global, tasks: Vec<Task<OwnNote>>) -> Result<Passes, AllocError>
    ensures { IfOk result (λ passes. passes.items ≡ map (λ t. t.pass) tasks.items) }
{
    let mut passes = Vec::with_capacity(alloc, tasks.len())?;
    for task in tasks {
        passes.push(task.pass)?;
    }
    Ok(passes)
}

/// Launches tasks.
fn run_slice<R: Threads + Wait + Sync>(
    rt: &R,
    alloc: Global,
    world: &World,
    tasks: &mut [Task<OwnNote>],
)
    requires { All (λ t. IsOf world.now t.pass × HoldsNone t.pass.known) tasks.old }
    ensures passes { All (λ t. IsOf world.now t.pass × HoldsNone t.pass.known) tasks.new }
    ensures bodies { All (λ t. t.body.learned ≡ true) tasks.new }
{
    launch(rt, alloc, world, tasks);
}

/// Launches tasks in a vector.
fn run_all<R: Threads + Wait + Sync>(
    rt: &R,
    alloc: Global,
    world: &World,
    tasks: &mut Vec<Task<OwnNote>>,
)
    requires { All (λ t. IsOf world.now t.pass × HoldsNone t.pass.known) tasks.old.items }
    ensures passes { All (λ t. IsOf world.now t.pass × HoldsNone t.pass.known) tasks.new.items }
    ensures bodies { All (λ t. t.body.learned ≡ true) tasks.new.items }
{
    run_slice(rt, alloc, world, tasks.as_mut_slice());
}

/// Launches a body on each pass, and gives the passes.
fn each_learns<R: Threads + Wait + Sync>(
    rt: &R,
    alloc: Global,
    world: &World,
    passes: Passes,
) -> Result<Passes, AllocError>
    requires { (k : ℕ) (p : _) → slice_get passes.items k ≡ Some p → IsOf world.now p × HoldsNone p.known }
    ensures { IfOk result (λ after. (k : ℕ) (p : _) → slice_get after.items k ≡ Some p → IsOf world.now p × HoldsNone p.known) }
{
    let mut tasks = tasks_of(alloc, passes)?;
    run_all(rt, alloc, world, &mut tasks);
    let passes = passes_of(alloc, tasks)?;
    Ok(passes)
}

/// How many events the journal and the tally have where each pass learns its own note.
fn events<R: Threads + Wait + Sync>(
    rt: &R,
    alloc: Global,
    world: World,
    passes: Passes,
) -> Result<Option<(usize, u64)>, AllocError>
    requires { (k : ℕ) (p : _) → slice_get passes.items k ≡ Some p → IsOf world p × HoldsNone p.known }
{
    let passes = each_learns(rt, alloc, &world, passes)?;
    Ok(closed(alloc, world, passes))
}

#[test]
fn a_world_is_launched_and_closed(rt: HostRuntime) -> Result<(), Fail> {
    let alloc = rt.alloc();
    let shape = two_ranks(alloc)?;
    let Started { world, passes } = with_worker(alloc, &shape)?;
    assert!(rt; matches!(events(&rt, alloc, world, passes)?, Some((0, 0))));
    Ok(())
}
