//! Two nodes that one thread drives: a world of two ranks, with calls that reach the other rank or that both ranks make.

ghost use Rattle.std.specs.Prelude.{◌≡◌, ◌<◌, true};
ghost use Rattle.two_nodes.specs.Worlds.{HasTwoCallers, has_two_callers, is_driven};

use call_journal::{Verdict, check};
use call_texts::read_call;
use gaspi_texts::read_reply;
use gaspi_types::{
    Call, CallerId, Event, NoMemory, Outcome, PlacedEvent, QueueId, RankId, Reply, Sequence, Shape,
    ThreadId,
};
use rank_node::{Lent, Node};
use std::alloc::Global;
use std::test::Fail;
use two_nodes::{TwoNodes, has_two_callers, is_driven};

/// Calls of thread 0 of either rank with their replies, in order; a call that is not ready has another word. A call that is not
/// ready at its first look has a second one, and between the two all enabled transfers are made.
const CALLS: &str =
    "0 store 0 0 0102 -> done\n0 write_notify 0 0 1 0 4 2 3 7 0 -> done\n0 wait 0 -> done\n\
1 waitsome 0 0 8 -> id 3\n1 reset 0 3 -> value 7\n1 load 0 4 2 -> bytes 0102\n\
0 barrier 0 -> waits\n1 barrier 0 -> done\n0 barrier 0 -> done\n\
1 passive_receive 0 8 2 -> waits\n0 passive_send 0 0 1 2 -> done\n1 passive_receive 0 8 2 -> id 0\n\
0 alloc 1 8 -> done\n0 register 1 1 -> done\n1 write 0 4 0 1 0 2 0 -> done\n1 wait 0 -> done\n\
0 load 1 0 2 -> bytes 0102\n0 end -> done\n1 end -> done\n";

/// How many of these calls there are.
const COUNT: u32 = 19;

/// The calls as a text. No clause says anything of them, so that the proof of the test does not carry the text.
fn calls() -> &'static str {
    CALLS
}

/// Two ranks with a segment and a caller each.
fn two_ranks(alloc: Global) -> Result<Shape, Fail> {
    let mut shape = Shape::new(alloc, 2, 1, 4, 8, 4, 1_000)?;
    shape.add_segment(0, 0, 16)?;
    shape.add_segment(1, 0, 16)?;
    shape.add_caller(0, 0)?;
    shape.add_caller(1, 0)?;
    Ok(shape)
}

/// The call of a line, and its reply where the line has one; None where the line has no call.
fn parts_of(alloc: Global, line: &str) -> Result<Option<(Call, Option<Reply>)>, NoMemory> {
    let Some((call, reply)) = line.split_once(" -> ") else {
        return Ok(None);
    };
    let reply = read_reply(alloc, reply.as_bytes())?;
    match read_call(alloc, call.as_bytes())? {
        Some(call) => Ok(Some((call, reply))),
        None => Ok(None),
    }
}

/// Makes the enabled transfers of a rank, up to eight.
fn transfer_all(nodes: &mut TwoNodes, rank: RankId)
    requires rank { rank < 2 }
    requires callers { HasTwoCallers nodes.old }
    ensures { HasTwoCallers nodes.new }
{
    for _ in 0..8 {
        nodes.transfer(rank);
    }
}

/// One look at a call of a rank: its reply, or None where it is not ready.
fn look(alloc: Global, nodes: &mut TwoNodes, rank: RankId, call: &Call) -> Option<Reply>
    requires rank { rank < 2 }
    requires callers { HasTwoCallers nodes.old }
    requires driven { is_driven call.now ≡ true }
    ensures { HasTwoCallers nodes.new }
{
    let caller = CallerId {
        rank,
        thread: ThreadId::of(0),
    };
    match nodes.call(alloc, caller, call) {
        Ok(told) => told,
        Err(_) => None,
    }
}

/// The reply of the second look at a call, where it is not ready at the first, or else of the first.
fn look_twice(alloc: Global, nodes: &mut TwoNodes, rank: RankId, call: &Call) -> Option<Reply>
    requires rank { rank < 2 }
    requires callers { HasTwoCallers nodes.old }
    requires driven { is_driven call.now ≡ true }
    ensures { HasTwoCallers nodes.new }
{
    let told = look(alloc, nodes, rank, call);
    if told.is_some() {
        return told;
    }
    transfer_all(nodes, RankId::of(0));
    transfer_all(nodes, RankId::of(1));
    look(alloc, nodes, rank, call)
}

/// Whether `told` is the reply.
fn is_same(told: Option<Reply>, reply: Option<Reply>) -> bool {
    match (told, reply) {
        (Some(told), Some(reply)) => told == reply,
        (None, None) => true,
        _ => false,
    }
}

/// Whether the call of a line gets its reply.
fn is_told(alloc: Global, nodes: &mut TwoNodes, rank: RankId, line: &str) -> Result<bool, NoMemory>
    requires rank { rank < 2 }
    requires callers { HasTwoCallers nodes.old }
    ensures { HasTwoCallers nodes.new }
{
    let Some((call, reply)) = parts_of(alloc, line)? else {
        return Ok(false);
    };
    if !is_driven(&call) {
        return Ok(false);
    }
    Ok(is_same(look_twice(alloc, nodes, rank, &call), reply))
}

/// Whether the call of a line that begins with its rank gets its reply.
fn is_line_told(alloc: Global, nodes: &mut TwoNodes, line: &str) -> Result<bool, NoMemory>
    requires { HasTwoCallers nodes.old }
    ensures { HasTwoCallers nodes.new }
{
    let Some((rank, line)) = line.split_once(" ") else {
        return Ok(false);
    };
    if rank == "0" {
        is_told(alloc, nodes, RankId::of(0), line)
    } else {
        is_told(alloc, nodes, RankId::of(1), line)
    }
}

/// How many of the calls get their replies.
fn count_told(alloc: Global, nodes: &mut TwoNodes) -> Result<u32, NoMemory>
    requires { HasTwoCallers nodes.old }
{
    let mut told = 0u32;
    for line in calls().lines() {
        if is_line_told(alloc, nodes, line)? {
            told = told.saturating_add(1);
        }
    }
    Ok(told)
}

/// Adds the event at a place, where these events have one there.
fn add_at(
    alloc: Global,
    journal: &mut Sequence<Event>,
    events: &[PlacedEvent],
    place: u64,
) -> Result<(), NoMemory> {
    for one in events {
        if one.place == place {
            journal.push(one.event.copy(alloc)?)?;
        }
    }
    Ok(())
}

/// The first `count` events of two ranks, by their places.
fn merged(
    alloc: Global,
    first: &[PlacedEvent],
    second: &[PlacedEvent],
    count: u64,
) -> Result<Sequence<Event>, NoMemory> {
    let mut journal = Sequence::new(alloc);
    for place in 0..count {
        add_at(alloc, &mut journal, first, place)?;
        add_at(alloc, &mut journal, second, place)?;
    }
    Ok(journal)
}

/// Whether the journal of a world is legal.
fn is_legal(alloc: Global, shape: &Shape, nodes: TwoNodes) -> Result<bool, NoMemory> {
    let count = nodes.places;
    let (first, second) = nodes.into_journals();
    let journal = merged(alloc, first.as_slice(), second.as_slice(), count)?;
    let verdict = check(alloc, shape, &journal)?;
    Ok(journal.len() as u64 == count && verdict == Verdict::Legal)
}

/// Whether all calls get their replies, both callers have ended, and the journal is legal.
fn is_well_driven(alloc: Global, shape: &Shape) -> Result<bool, NoMemory> {
    if !has_two_callers(shape) {
        return Ok(false);
    }
    let mut nodes = TwoNodes::new(alloc, shape)?;
    let told = count_told(alloc, &mut nodes)?;
    let have_ended = nodes.first.all_ended() && nodes.second.all_ended();
    Ok(told == COUNT && have_ended && is_legal(alloc, shape, nodes)?)
}

/// Whether the front transfer of a lane would be applied. It is not made.
fn is_applied<'a>(own: &'a mut Node, peer: &'a mut Node) -> bool {
    let Some(transfer) = own.front(QueueId::of(0), RankId::of(1)) else {
        return false;
    };
    let lent = Lent {
        own,
        peer: Some(peer),
        group: None,
    };
    lent.outcome(&transfer) == Outcome::Applied
}

/// Whether a rank may post, and the first transfer of the post would be applied.
fn is_post_applied(alloc: Global, shape: &Shape) -> Result<bool, NoMemory> {
    if !has_two_callers(shape) {
        return Ok(false);
    }
    let mut nodes = TwoNodes::new(alloc, shape)?;
    let rank = RankId::of(0);
    let is_posted = is_told(alloc, &mut nodes, rank, "notify 0 1 3 7 0 -> done")?;
    Ok(is_posted && is_applied(&mut nodes.first, &mut nodes.second))
}

#[test]
fn two_ranks_are_driven(rt: HostRuntime) -> Result<(), Fail> {
    let alloc = rt.alloc();
    let shape = two_ranks(alloc)?;
    assert!(rt; matches!(is_well_driven(alloc, &shape), Ok(true)));
    assert!(rt; matches!(is_post_applied(alloc, &shape), Ok(true)));
    Ok(())
}
