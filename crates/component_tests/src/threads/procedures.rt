//! Each procedure of a rank once, in a world of one rank without workers, so that its entries are not transferred.

ghost use Rattle.std.specs.Prelude.{◌≡◌, ℕ, Some, length, slice_get};
ghost use Rattle.std.specs.List.{All};
ghost use Rattle.gaspi_world.specs.Calling.{MayCall};

use super::worlds::of_callers;
use call_texts::read_call;
use gaspi_texts::read_reply;
use gaspi_types::{Call, NoMemory, Reply, Shape, Timeout};
use gaspi_world::{Body, Pass, Passes, Rank, Started, Stop, Task, World, launch};
use std::alloc::Global;
use std::sync::Wait;
use std::test::Fail;
use std::thread::Threads;
use timeout_state::Look;

/// Calls with their replies, in order, each with one look.
const CALLS: &str =
    "alloc 1 8 -> done\nregister 1 0 -> done\ncreate 2 8 0 -> done\ndelete 2 -> done\n\
store 0 0 0102 -> done\nload 0 0 2 -> bytes 0102\n\
write 0 0 0 1 0 2 0 -> done\nread 0 0 0 1 0 2 0 -> done\nnotify 0 0 3 7 0 -> done\n\
write_notify 0 0 0 1 0 2 3 7 0 -> done\nread_notify 0 0 0 1 0 2 3 0 -> done\n\
write_list 0 0 1 0 0 1 0 2 -> done\nwrite_list_notify 0 0 0 3 7 1 0 0 1 0 2 -> done\n\
read_list 0 0 1 0 0 1 0 2 -> done\nread_list_notify 0 0 0 3 1 0 0 1 0 2 -> done\n\
qsize 0 -> value 13\nwait 0 -> timeout\npurge 0 -> done\nwait 0 -> done\n\
waitsome 0 0 8 -> timeout\nreset 0 3 -> value 0\n\
passive_send 0 0 0 2 -> done\npassive_receive 0 4 2 -> id 0\n\
fetch_add 0 8 0 5 -> value 0\ncompare_swap 0 8 0 5 9 -> value 5\n\
group_create -> id 1\ngroup_add 1 0 -> done\ncommit 1 -> done\nbarrier 1 -> done\n\
allreduce 0 SUM INT 1 3 -> list INT 3\ngroup_delete 1 -> done\nstate -> mask 0\nend -> done\n";

/// The calls as a text. No clause says anything of them, so that the proof of the test does not carry the text.
fn calls() -> &'static str {
    CALLS
}

/// Makes a call by its procedure, with one look. The pass may call as before.
fn by_procedure<R: Wait>(
    rt: &R,
    alloc: Global,
    rank: &mut Rank<'_>,
    call: Call,
) -> Result<Reply, Stop>
    requires { MayCall rank.old.world.now rank.old.pass.now }
    ensures same { rank.new.pass.ghost_name ≡ rank.old.pass.ghost_name }
    ensures on { MayCall rank.old.world.now rank.new.pass.now }
{
    let once = Timeout::Looks(1);
    match call {
        Call::Alloc(args) => rank.gaspi_segment_alloc(rt, alloc, args),
        Call::Register(args) => rank.gaspi_segment_register(rt, alloc, args),
        Call::Create(args) => rank.gaspi_segment_create(rt, alloc, args, once),
        Call::Delete(args) => rank.gaspi_segment_delete(rt, alloc, args),
        Call::Store(args) => rank.gaspi_store(rt, alloc, args),
        Call::Load(args) => rank.gaspi_load(rt, alloc, args),
        Call::Write(args) => rank.gaspi_write(rt, alloc, args),
        Call::Read(args) => rank.gaspi_read(rt, alloc, args),
        Call::Notify(args) => rank.gaspi_notify(rt, alloc, args),
        Call::WriteNotify(args) => rank.gaspi_write_notify(rt, alloc, args),
        Call::ReadNotify(args) => rank.gaspi_read_notify(rt, alloc, args),
        Call::WriteList(args) => rank.gaspi_write_list(rt, alloc, args),
        Call::WriteListNotify(args) => rank.gaspi_write_list_notify(rt, alloc, args),
        Call::ReadList(args) => rank.gaspi_read_list(rt, alloc, args),
        Call::ReadListNotify(args) => rank.gaspi_read_list_notify(rt, alloc, args),
        Call::Wait(args) => rank.gaspi_wait(rt, alloc, args, once),
        Call::Purge(args) => rank.gaspi_queue_purge(rt, alloc, args),
        Call::Qsize(args) => rank.gaspi_queue_size(rt, alloc, args),
        Call::Waitsome(args) => rank.gaspi_notify_waitsome(rt, alloc, args, once),
        Call::Reset(args) => rank.gaspi_notify_reset(rt, alloc, args),
        Call::PassiveSend(args) => rank.gaspi_passive_send(rt, alloc, args, once),
        Call::PassiveReceive(args) => rank.gaspi_passive_receive(rt, alloc, args, once),
        Call::FetchAdd(args) => rank.gaspi_atomic_fetch_add(rt, alloc, args),
        Call::CompareSwap(args) => rank.gaspi_atomic_compare_swap(rt, alloc, args),
        Call::GroupCreate => rank.gaspi_group_create(rt, alloc),
        Call::GroupAdd(args) => rank.gaspi_group_add(rt, alloc, args),
        Call::GroupDelete(args) => rank.gaspi_group_delete(rt, alloc, args),
        Call::Commit(args) => rank.gaspi_group_commit(rt, alloc, args, once),
        Call::Barrier(args) => rank.gaspi_barrier(rt, alloc, args, once),
        Call::Allreduce(args) => rank.gaspi_allreduce(rt, alloc, args, once),
        Call::State => rank.gaspi_state_vec_get(rt, alloc),
        Call::End => rank.call(rt, alloc, &Call::End, once),
    }
}

/// Whether an attempt of the call `state`, at its last look, answers that no rank is corrupt.
fn is_attempted(alloc: Global, world: &World, pass: &mut Pass) -> bool
    requires { MayCall world.now pass.old }
    ensures { MayCall world.now pass.new }
{
    let mut rank = Rank { world, pass };
    matches!(
        rank.attempt(alloc, &Call::State, Look::Final),
        Ok(Reply::Mask(0))
    )
}

/// The call of a line and its reply; None where the line has not both.
fn parts_of(alloc: Global, line: &str) -> Result<Option<(Call, Reply)>, NoMemory> {
    let Some((call, reply)) = line.split_once(" -> ") else {
        return Ok(None);
    };
    if call == "end" {
        return Ok(Some((Call::End, Reply::Done)));
    }
    let (Some(call), Some(reply)) = (
        read_call(alloc, call.as_bytes())?,
        read_reply(alloc, reply.as_bytes())?,
    ) else {
        return Ok(None);
    };
    Ok(Some((call, reply)))
}

/// Makes a call by its procedure. Whether it gets its reply.
fn is_answered<R: Wait>(
    rt: &R,
    alloc: Global,
    world: &World,
    pass: &mut Pass,
    call: Call,
    reply: Reply,
) -> bool
    requires { MayCall world.now pass.old }
    ensures { MayCall world.now pass.new }
{
    let mut rank = Rank { world, pass };
    match by_procedure(rt, alloc, &mut rank, call) {
        Ok(told) => told == reply,
        Err(_) => false,
    }
}

/// A body that makes an attempt and the calls, and counts how many of them got their replies.
#[derive(Drop)]
struct Caller {
    answered: u32,
}

impl Body for Caller {
    ghost use Rattle.gaspi_world.specs.Calling.{MayCall};

    ghost needs = { λ body world pass. MayCall world pass };

    ghost did = { λ body pass next after. (world : _) → MayCall world pass → MayCall world after };

    fn run<R: Wait>(&mut self, rt: &R, alloc: Global, world: &World, pass: &mut Pass) {
        if is_attempted(alloc, world, pass) {
            self.answered = self.answered.saturating_add(1);
        }
        for line in calls().lines() {
            if let Ok(Some((call, reply))) = parts_of(alloc, line) {
                if is_answered(rt, alloc, world, pass, call, reply) {
                    self.answered = self.answered.saturating_add(1);
                }
            }
        }
    }
}

/// One rank with a segment and a caller.
fn one_rank(alloc: Global) -> Result<Shape, Fail> {
    let mut shape = Shape::new(alloc, 1, 1, 64, 8, 4, 100)?;
    shape.add_segment(0, 0, 16)?;
    shape.add_caller(0, 0)?;
    Ok(shape)
}

/// Launches tasks.
fn run_slice<R: Threads + Wait + Sync>(
    rt: &R,
    alloc: Global,
    world: &World,
    tasks: &mut [Task<Caller>],
)
    requires { All (λ t. MayCall world.now t.pass) tasks.old }
    ensures { length tasks.new ≡ length tasks.old }
{
    launch(rt, alloc, world, tasks);
}

/// How many calls got their replies, on a thread that has this pass.
fn run_one<R: Threads + Wait + Sync>(
    rt: &R,
    alloc: Global,
    world: &World,
    pass: Pass,
) -> Result<u32, Fail>
    requires { MayCall world.now pass }
{
    let body = Caller { answered: 0 };
    let mut tasks = vec![in alloc; Task { body, pass }]?;
    run_slice(rt, alloc, world, tasks.as_mut_slice());
    match tasks.pop() {
        Some(task) => Ok(task.body.answered),
        None => Ok(0),
    }
}

/// How many calls got their replies, of the last caller of a world.
fn answered<R: Threads + Wait + Sync>(
    rt: &R,
    alloc: Global,
    world: World,
    mut passes: Passes,
) -> Result<u32, Fail>
    requires { (k : ℕ) (p : _) → slice_get passes.items k ≡ Some p → MayCall world p }
{
    match passes.pop() {
        Some(pass) => run_one(rt, alloc, &world, pass),
        None => Ok(0),
    }
}

#[test]
fn each_procedure_is_answered(rt: HostRuntime) -> Result<(), Fail> {
    let alloc = rt.alloc();
    let shape = one_rank(alloc)?;
    let Started { world, passes } = of_callers(alloc, &shape)?;
    assert!(rt; answered(&rt, alloc, world, passes)? == 34);
    Ok(())
}
