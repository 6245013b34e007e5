//! A measure of the nodes of ranks, for whoever times this program: one thread drives worlds of two ranks, one after another. In each
//! world the ranks send each other eight bytes, as often as the words say.
//!
//! The words are the number of worlds, and how often in each the ranks do so: such a repetition is called a round here, and has twelve
//! events of each rank. The number of events is written. No function waits, and a call is looked at once.
#![tactic(auto)]

ghost use Rattle.std.specs.Prelude.{◌≡◌, ◌<◌, ◌≤◌, true, IfSome, IfOk};
ghost use Rattle.two_nodes.specs.Worlds.{HasTwoCallers, has_two_callers, is_driven};

use gaspi_types::{
    Barrier, Call, CallerId, Load, NoMemory, RankId, Reset, Sequence, Shape, ShapeFault, Store,
    ThreadId, Wait, Waitsome, WriteNotify,
};
use std::alloc::{AllocError, Global};
use std::env;
use std::process::ExitCode;
use std::rt::Env;
use two_nodes::{TwoNodes, has_two_callers};

/// The status where the words are not two numbers within their limits.
const WORDS: u8 = 1;

/// The status where the answer could not be written.
const NOT_WRITTEN: u8 = 6;

/// The status where memory ran out.
const NO_MEMORY: u8 = 7;

/// The status where a call had no reply, or a transfer was not enabled.
const STUCK: u8 = 8;

/// The most worlds.
const MOST_WORLDS: u64 = 1_000;

/// The most rounds in each world, for which a rank has room.
const MOST_ROUNDS: u64 = 5_461;

/// The number of worlds and that of rounds, which two words give; none where the words are not so.
fn asked(words: &[String]) -> Option<(u64, u64)>
    ensures { IfSome result (λ found. found.0 ≤ 1000) }
{
    let [worlds, rounds] = words else {
        return None;
    };
    let worlds = worlds.as_str().parse().ok()?;
    let rounds = rounds.as_str().parse().ok()?;
    if worlds > MOST_WORLDS || rounds > MOST_ROUNDS {
        return None;
    }
    Some((worlds, rounds))
}

/// The words after the program's name; no words where one of them is no text. The only failure is out of memory.
fn given_words<R: Env + Alloc<A = Global>>(rt: &R) -> Result<Vec<String>, AllocError> {
    let alloc = rt.alloc();
    match env::args(rt) {
        Ok(words) => words.skip(1).collect(alloc),
        Err(_) => Ok(Vec::new(alloc)),
    }
}

/// Two ranks with a segment and a caller each.
fn two_ranks(alloc: Global) -> Result<Shape, ShapeFault> {
    let mut shape = Shape::new(alloc, 2, 1, 4, 1, 1, 65_536)?;
    shape.add_segment(0, 0, 16)?;
    shape.add_segment(1, 0, 16)?;
    shape.add_caller(0, 0)?;
    shape.add_caller(1, 0)?;
    Ok(shape)
}

/// The call that stores eight bytes, at the beginning of the rank's segment. The only failure is out of memory.
fn store(alloc: Global) -> Result<Call, NoMemory>
    ensures { IfOk result (λ call. is_driven call ≡ true) }
{
    Ok(Call::Store(Store {
        seg: 0,
        offset: 0,
        bytes: Sequence::copied_from(alloc, &[1, 2, 3, 4, 5, 6, 7, 8])?,
    }))
}

/// The call that posts a write of those bytes to a rank, and a notification.
fn post(rank: u64) -> Call
    ensures { is_driven result ≡ true }
{
    Call::WriteNotify(WriteNotify {
        seg: 0,
        offset: 0,
        rank,
        rseg: 0,
        roffset: 8,
        size: 8,
        note: 0,
        value: 1,
        queue: 0,
    })
}

/// A call had no reply, or a transfer was not enabled.
#[derive(Debug)]
struct Stuck;

/// Makes a call of a rank at one look. `Stuck` where there is no reply at that look, or no memory.
fn call_once(alloc: Global, nodes: &mut TwoNodes, rank: RankId, call: &Call) -> Result<(), Stuck>
    requires rank { rank < 2 }
    requires callers { HasTwoCallers nodes.old }
    requires driven { is_driven call.now ≡ true }
    ensures { HasTwoCallers nodes.new }
{
    let caller = CallerId {
        rank,
        thread: ThreadId::of(0),
    };
    match nodes.call(alloc, caller, call) {
        Ok(Some(_)) => Ok(()),
        _ => Err(Stuck),
    }
}

/// Makes a call of both ranks, one after the other.
fn call_both(alloc: Global, nodes: &mut TwoNodes, call: &Call) -> Result<(), Stuck>
    requires callers { HasTwoCallers nodes.old }
    requires driven { is_driven call.now ≡ true }
    ensures { HasTwoCallers nodes.new }
{
    call_once(alloc, nodes, RankId::of(0), call)?;
    call_once(alloc, nodes, RankId::of(1), call)
}

/// Makes one transfer of a rank. `Stuck` where none is enabled.
fn move_one(nodes: &mut TwoNodes, rank: RankId) -> Result<(), Stuck>
    requires rank { rank < 2 }
    requires callers { HasTwoCallers nodes.old }
    ensures { HasTwoCallers nodes.new }
{
    if nodes.transfer(rank) {
        Ok(())
    } else {
        Err(Stuck)
    }
}

/// Makes the take and the put of each of the two entries that a rank has posted.
fn move_two(nodes: &mut TwoNodes, rank: RankId) -> Result<(), Stuck>
    requires rank { rank < 2 }
    requires callers { HasTwoCallers nodes.old }
    ensures { HasTwoCallers nodes.new }
{
    move_one(nodes, rank)?;
    move_one(nodes, rank)?;
    move_one(nodes, rank)?;
    move_one(nodes, rank)
}

/// Both ranks store and post, all entries are transferred, and both ranks wait for their queue.
fn send(alloc: Global, nodes: &mut TwoNodes, store: &Call) -> Result<(), Stuck>
    requires callers { HasTwoCallers nodes.old }
    requires driven { is_driven store.now ≡ true }
    ensures { HasTwoCallers nodes.new }
{
    call_both(alloc, nodes, store)?;
    call_once(alloc, nodes, RankId::of(0), &post(1))?;
    call_once(alloc, nodes, RankId::of(1), &post(0))?;
    move_two(nodes, RankId::of(0))?;
    move_two(nodes, RankId::of(1))?;
    call_both(alloc, nodes, &Call::Wait(Wait { queue: 0 }))
}

/// Both ranks find their notification, reset its slot, and load what was sent.
fn receive(alloc: Global, nodes: &mut TwoNodes) -> Result<(), Stuck>
    requires callers { HasTwoCallers nodes.old }
    ensures { HasTwoCallers nodes.new }
{
    let find = Waitsome {
        seg: 0,
        begin: 0,
        num: 1,
    };
    let load = Load {
        seg: 0,
        offset: 8,
        size: 8,
    };
    call_both(alloc, nodes, &Call::Waitsome(find))?;
    call_both(alloc, nodes, &Call::Reset(Reset { seg: 0, note: 0 }))?;
    call_both(alloc, nodes, &Call::Load(load))
}

/// Rank 0 joins a barrier, which is not ready at that look. `Stuck` where there is a reply.
fn join_first(alloc: Global, nodes: &mut TwoNodes, barrier: &Call) -> Result<(), Stuck>
    requires callers { HasTwoCallers nodes.old }
    requires driven { is_driven barrier.now ≡ true }
    ensures { HasTwoCallers nodes.new }
{
    match call_once(alloc, nodes, RankId::of(0), barrier) {
        Ok(()) => Err(Stuck),
        Err(Stuck) => Ok(()),
    }
}

/// Both ranks come to a barrier: rank 0 joins, rank 1 joins and has its reply, and rank 0 has its reply at its second look.
fn meet(alloc: Global, nodes: &mut TwoNodes) -> Result<(), Stuck>
    requires callers { HasTwoCallers nodes.old }
    ensures { HasTwoCallers nodes.new }
{
    let barrier = Barrier { group: 0 };
    join_first(alloc, nodes, &Call::Barrier(barrier))?;
    call_once(alloc, nodes, RankId::of(1), &Call::Barrier(barrier))?;
    call_once(alloc, nodes, RankId::of(0), &Call::Barrier(barrier))
}

/// One round: both ranks send, receive, and come to a barrier.
fn go_round(alloc: Global, nodes: &mut TwoNodes, store: &Call) -> Result<(), Stuck>
    requires callers { HasTwoCallers nodes.old }
    requires driven { is_driven store.now ≡ true }
    ensures { HasTwoCallers nodes.new }
{
    send(alloc, nodes, store)?;
    receive(alloc, nodes)?;
    meet(alloc, nodes)
}

/// Makes this number of rounds of a world, and gives how many events the world has then.
fn drive(alloc: Global, nodes: &mut TwoNodes, store: &Call, rounds: u64) -> Result<u64, Stuck>
    requires callers { HasTwoCallers nodes.old }
    requires driven { is_driven store.now ≡ true }
{
    for _ in 0..rounds {
        go_round(alloc, nodes, store)?;
    }
    Ok(nodes.places)
}

/// Makes all rounds of all worlds, and gives how many events these have together; none where one is stuck. The only failure is out of
/// memory.
fn drive_all(
    alloc: Global,
    shape: &Shape,
    store: &Call,
    worlds: u64,
    rounds: u64,
) -> Result<Option<u64>, NoMemory>
    requires callers { has_two_callers shape.now ≡ true }
    requires driven { is_driven store.now ≡ true }
{
    let mut events = 0u64;
    for _ in 0..worlds {
        let mut nodes = TwoNodes::new(alloc, shape)?;
        match drive(alloc, &mut nodes, store, rounds) {
            Ok(more) => events = events.saturating_add(more),
            Err(Stuck) => return Ok(None),
        }
    }
    Ok(Some(events))
}

/// As `drive_all`, with the `store` call made here.
fn measure(alloc: Global, shape: &Shape, worlds: u64, rounds: u64) -> Result<Option<u64>, NoMemory>
    requires { has_two_callers shape.now ≡ true }
{
    let store = store(alloc)?;
    drive_all(alloc, shape, &store, worlds, rounds)
}

/// Reads the words, makes the worlds, and writes the number of events.
fn main(rt: HostRuntime) -> ExitCode {
    let Ok(words) = given_words(&rt) else {
        return ExitCode::from(NO_MEMORY);
    };
    let Some((worlds, rounds)) = asked(words.as_slice()) else {
        return ExitCode::from(WORDS);
    };
    let Ok(shape) = two_ranks(rt.alloc()) else {
        return ExitCode::from(NO_MEMORY);
    };
    if !has_two_callers(&shape) {
        return ExitCode::from(STUCK);
    }
    let events = match measure(rt.alloc(), &shape, worlds, rounds) {
        Ok(Some(events)) => events,
        Ok(None) => return ExitCode::from(STUCK),
        Err(_) => return ExitCode::from(NO_MEMORY),
    };
    match println!(rt; "{}", events) {
        Ok(()) => ExitCode::from(0),
        Err(_) => ExitCode::from(NOT_WRITTEN),
    }
}
