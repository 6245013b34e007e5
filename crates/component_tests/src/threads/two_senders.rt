//! Two ranks on threads that send each other a message and receive one: neither may wait until the other is done. The private
//! functions after the body hand the tasks to the launch.

ghost use Rattle.std.specs.Prelude.{◌≡◌, ℕ, map, IfOk, Some, slice_get};
ghost use Rattle.std.specs.List.{All};
ghost use Rattle.commit_table.specs.Calls.{IsOf, HoldsNone};
ghost use Rattle.gaspi_world.specs.Calling.{MayCall};

use super::worlds::{closed, of_callers};
use gaspi_types::{PassiveReceive, PassiveSend, Reply, Shape, Timeout};
use gaspi_world::{Body, Pass, Passes, Rank, Started, Task, World, launch};
use std::alloc::{AllocError, Global};
use std::sync::Wait;
use std::test::Fail;
use std::thread::Threads;

/// How many looks a call has.
const LOOKS: Timeout = Timeout::Looks(100_000_000);

/// A body that sends a message to the other rank, and receives one from it.
#[derive(Drop)]
struct Sender {
    other: u32,
    sent: bool,
    received: bool,
}

/// Sends a message to a rank. Whether that was done.
fn send<R: Wait>(rt: &R, alloc: Global, world: &World, pass: &mut Pass, to: u32) -> bool
    requires { MayCall world.now pass.old }
    ensures { MayCall world.now pass.new }
{
    let message = PassiveSend {
        seg: 0,
        offset: 0,
        rank: u64::from(to),
        size: 8,
    };
    let sent = Rank { world, pass }.gaspi_passive_send(rt, alloc, message, LOOKS);
    matches!(sent, Ok(Reply::Done))
}

/// Receives a message. Whether it is of that rank.
fn receive<R: Wait>(rt: &R, alloc: Global, world: &World, pass: &mut Pass, from: u32) -> bool
    requires { MayCall world.now pass.old }
    ensures { MayCall world.now pass.new }
{
    let place = PassiveReceive {
        seg: 0,
        offset: 8,
        size: 8,
    };
    match (Rank { world, pass }.gaspi_passive_receive(rt, alloc, place, LOOKS)) {
        Ok(Reply::Id(sender)) => sender == from,
        _ => false,
    }
}

impl Body for Sender {
    ghost use Rattle.gaspi_world.specs.Calling.{MayCall};

    ghost needs = { λ body world pass. MayCall world pass };

    ghost did = { λ body pass next after. (world : _) → MayCall world pass → MayCall world after };

    fn run<R: Wait>(&mut self, rt: &R, alloc: Global, world: &World, pass: &mut Pass) {
        self.sent = send(rt, alloc, world, pass, self.other);
        self.received = receive(rt, alloc, world, pass, self.other);
    }
}

/// A task for each of two passes: the first sends to rank 1, the second to rank 0.
fn tasks_of(alloc: Global, passes: Passes) -> Result<Vec<Task<Sender>>, AllocError>
    ensures { IfOk result (λ tasks. map (λ t. t.pass) tasks.items ≡ passes.items) }
{
    let mut tasks = Vec::with_capacity(alloc, passes.len())?;
    let mut other = 1;
    for pass in passes {
        let body = Sender {
            other,
            sent: false,
            received: false,
        };
        tasks.push(Task { body, pass })?;
        other = 0;
    }
    Ok(tasks)
}

/// The passes of the tasks.
fn passes_of(alloc: Global, tasks: Vec<Task<Sender>>) -> Result<Passes, AllocError>
    ensures { IfOk result (λ passes. passes.items ≡ map (λ t. t.pass) tasks.items) }
{
    let mut passes = Vec::with_capacity(alloc, tasks.len())?;
    for task in tasks {
        passes.push(task.pass)?;
    }
    Ok(passes)
}

/// Launches tasks.
fn run_slice<R: Threads + Wait + Sync>(
    rt: &R,
    alloc: Global,
    world: &World,
    tasks: &mut [Task<Sender>],
)
    requires { All (λ t. MayCall world.now t.pass) tasks.old }
    ensures { All (λ t. MayCall world.now t.pass) tasks.new }
{
    launch(rt, alloc, world, tasks);
}

/// Launches tasks in a vector.
fn run_all<R: Threads + Wait + Sync>(
    rt: &R,
    alloc: Global,
    world: &World,
    tasks: &mut Vec<Task<Sender>>,
)
    requires { All (λ t. MayCall world.now t.pass) tasks.old.items }
    ensures { All (λ t. MayCall world.now t.pass) tasks.new.items }
{
    run_slice(rt, alloc, world, tasks.as_mut_slice());
}

/// Launches a sender on each pass. Whether each sent its message and received the other's, and the passes.
fn each_sends<R: Threads + Wait + Sync>(
    rt: &R,
    alloc: Global,
    world: &World,
    passes: Passes,
) -> Result<(bool, Passes), AllocError>
    requires { (k : ℕ) (p : _) → slice_get passes.items k ≡ Some p → MayCall world.now p }
    ensures { IfOk result (λ after. (k : ℕ) (p : _) → slice_get after.1.items k ≡ Some p → IsOf world.now p × HoldsNone p.known) }
{
    let mut tasks = tasks_of(alloc, passes)?;
    run_all(rt, alloc, world, &mut tasks);
    let met = tasks
        .as_slice()
        .iter()
        .all(|task| task.body.sent && task.body.received);
    let passes = passes_of(alloc, tasks)?;
    Ok((met, passes))
}

/// Two ranks with a segment and a caller each.
fn two_ranks(alloc: Global) -> Result<Shape, Fail> {
    let mut shape = Shape::new(alloc, 2, 1, 4, 8, 4, 100)?;
    for rank in 0..2 {
        shape.add_segment(rank, 0, 16)?;
        shape.add_caller(rank, 0)?;
    }
    Ok(shape)
}

/// Whether each sent and received; and how many events the journal and the tally have.
fn meetings<R: Threads + Wait + Sync>(
    rt: &R,
    alloc: Global,
    world: World,
    passes: Passes,
) -> Result<(bool, Option<(usize, u64)>), AllocError>
    requires { (k : ℕ) (p : _) → slice_get passes.items k ≡ Some p → MayCall world p }
{
    let (met, passes) = each_sends(rt, alloc, &world, passes)?;
    Ok((met, closed(alloc, world, passes)))
}

#[test]
fn two_ranks_send_each_other_a_message(rt: HostRuntime) -> Result<(), Fail> {
    let alloc = rt.alloc();
    let shape = two_ranks(alloc)?;
    let Started { world, passes } = of_callers(alloc, &shape)?;
    let told = meetings(&rt, alloc, world, passes)?;
    assert!(rt; matches!(told, (true, Some((4, 4)))));
    Ok(())
}
