//! One attempt to make a call, and what it is made of, in this order: shards, room, answer, memory, join, record. Nothing here waits.
//! `found` is what the look found; `told` is what the caller gets.

ghost use Rattle.std.specs.Prelude.{◌≡◌, ◌≢◌, ◌≤◌, ◌<◌, ℕ, false, Some, None, Err, IsSome, IfOk, IfErr};
ghost use Rattle.gaspi_types.specs.CallRows.{row_of};
ghost use Rattle.gaspi_types.specs.World.{IsShape};
ghost use Rattle.gaspi_types.specs.declared.events.Event.TheVariants.{Called};
ghost use Rattle.gaspi_types.specs.declared.replies.Ready.TheVariants as ready;
ghost use Rattle.gaspi_model.specs.Calls.{recorded_reply};
ghost use Rattle.gaspi_model.specs.CollectiveCalls.{is_joining, join_event};
ghost use Rattle.commit_table.specs.Calls.{IsOf, HoldsNone};
ghost use Rattle.rank_node.specs.Rooms.{IsReservedForRecord, IsReservedFor, FitsReserved};
ghost use Rattle.timeout_state.specs.declared.budget.Look.{Look};
ghost use Rattle.gaspi_world.specs.Attempts.{Attempted};
ghost use Rattle.gaspi_world.specs.Callers.{IsPassOf};
ghost use Rattle.gaspi_world.specs.HeldShards.{Holds, IsCommitted};
ghost use Rattle.gaspi_world.specs.HeldAttempts.{waits_for_later_look, is_full_for, IsHolder, MayRecord, MayJoinAs, FitsMemory, FoundFits, IsDecided, AttemptedWhileHeld};
ghost use Rattle.gaspi_world.specs.declared.attempts.Halt.TheVariants as halts;

use crate::committing::{commit_call, commit_join};
use crate::holding::{HeldShards, footprint_shard, give_back, take_and_look};
use crate::starts::Start;
use crate::worlds::Pass;
use commit_table::CommitTable;
use gaspi_types::{Args, Call, CallRow, GroupId, Invocation, Ready, Reply};
use rank_node::{Look, Room};
use std::alloc::Global;

/// Why an attempt recorded no call. The pass holds no shard then. Only after `NotYet` may the attempt have committed an event, the
/// join.
#[derive(Clone, Copy, Debug, PartialEq, Eq)]
pub enum Halt {
    /// A shard of the call was missed, since another pass held it. No look was made.
    Busy,
    /// The call is not ready, at a look that was not the last. A collective is pending then: it joined now or at an earlier look.
    /// (GASPI: timeouts)
    NotYet,
    /// Memory ran out, after the look.
    NoMemory,
    /// The caller's rank has no room for the events that the call needs.
    EventLimit,
}

/// The reply with which a call is recorded: the one that was found, or else `timeout`.
fn recorded_reply(found: Ready) -> Reply
    ensures { result ≡ recorded_reply found }
{
    match found {
        Ready::Reply(reply) => reply,
        Ready::Join(_) | Ready::NotReady => Reply::Timeout,
    }
}

/// The arguments of the join, where the look found that the call may join; otherwise what it found.
fn join_args(found: Ready) -> Result<Args, Ready>
    ensures joins { IfOk result (λ args. found ≡ ready.Join args) }
    ensures other { IfErr result (λ same. (same ≡ found) × (is_joining found ≡ false)) }
{
    match found {
        Ready::Join(args) => Ok(args),
        Ready::Reply(reply) => Err(Ready::Reply(reply)),
        Ready::NotReady => Err(Ready::NotReady),
    }
}

/// Whether a call is left for a later look: it is not ready, and this look is not the last.
fn waits_for_later_look(found: &Ready, look: Look) -> bool
    ensures { result ≡ waits_for_later_look found.now look }
{
    match (found, look) {
        (Ready::NotReady, Look::More) => true,
        _ => false,
    }
}

/// Commits a call with the reply to what was found, records it, and answers that reply. `found` is no join. `room` was taken for this
/// call: its record and the second copy of the reply take their memory from there.
fn record_with(
    table: &CommitTable<Start>,
    pass: &mut Pass,
    held: &mut HeldShards,
    invocation: &Invocation<'_>,
    call: Call,
    found: Ready,
    room: &mut Room,
) -> Reply
    requires world { IsShape table.now.start.shape }
    requires holder { IsHolder table.now invocation.now.caller call held.old pass.old }
    requires found { MayRecord table.now.start.shape invocation.now.caller call found pass.old.known.seen }
    requires fits { FoundFits table.now.start.shape invocation.now.caller call found room.old }
    requires row { room.old.row ≡ row_of call }
    requires room { (row_of call).group ≡ None → IsReservedForRecord held.old.nodes.own.value.posts held.old.nodes.own.value.memory call room.old }
    ensures table { pass.new.table ≡ pass.old.table }
    ensures held { Holds table.now.start.shape held.new pass.new.known }
    ensures reply { result ≡ recorded_reply found }
    ensures added { IsCommitted table.now.start.shape pass.old.known (Called invocation.now.caller call result) pass.new.known }
{
    let reply = recorded_reply(found);
    let told = room.again(&reply);
    commit_call(table, pass, held, invocation.caller, call, reply, room);
    told
}

/// Takes all memory for a call, and then commits and records it as `record_with` does. `found` is no join. Where memory runs out,
/// nothing has changed.
fn record_found(
    table: &CommitTable<Start>,
    pass: &mut Pass,
    alloc: Global,
    held: &mut HeldShards,
    invocation: &Invocation<'_>,
    found: Ready,
) -> Result<Reply, Halt>
    requires world { IsShape table.now.start.shape }
    requires holder { IsHolder table.now invocation.now.caller invocation.now.call.now held.old pass.old }
    requires found { MayRecord table.now.start.shape invocation.now.caller invocation.now.call.now found pass.old.known.seen }
    requires fits { FitsMemory table.now.start.shape invocation.now.caller invocation.now.call.now found held.old }
    ensures table { pass.new.table ≡ pass.old.table }
    ensures held { Holds table.now.start.shape held.new pass.new.known }
    ensures recorded { (look : Look) → waits_for_later_look found look ≡ false
        → IsDecided table.now.start.shape invocation.now.caller invocation.now.call.now found look pass.old.known result pass.new.known }
    ensures ample { (row_of invocation.now.call.now).takes_memory ≡ false → result ≢ Err halts.NoMemory }
{
    let mut room = Room::new(alloc, invocation.row);
    if held.nodes.reserve(alloc, invocation, &mut room).is_err() {
        return Err(Halt::NoMemory);
    }
    let Ok(call) = invocation.call.copy(alloc) else {
        return Err(Halt::NoMemory);
    };
    Ok(record_with(table, pass, held, invocation, call, found, &mut room))
}

/// Leaves a call that is not ready for a later look, where there may be one (`NotYet`); otherwise commits and records it as
/// `record_found` does. `found` is no join. After an error nothing has changed.
fn decide(
    table: &CommitTable<Start>,
    pass: &mut Pass,
    alloc: Global,
    held: &mut HeldShards,
    invocation: &Invocation<'_>,
    look: Look,
    found: Ready,
) -> Result<Reply, Halt>
    requires world { IsShape table.now.start.shape }
    requires holder { IsHolder table.now invocation.now.caller invocation.now.call.now held.old pass.old }
    requires found { MayRecord table.now.start.shape invocation.now.caller invocation.now.call.now found pass.old.known.seen }
    requires fits { FitsMemory table.now.start.shape invocation.now.caller invocation.now.call.now found held.old }
    ensures table { pass.new.table ≡ pass.old.table }
    ensures held { Holds table.now.start.shape held.new pass.new.known }
    ensures settled { IsDecided table.now.start.shape invocation.now.caller invocation.now.call.now found look pass.old.known result pass.new.known }
    ensures ample { (row_of invocation.now.call.now).takes_memory ≡ false → result ≢ Err halts.NoMemory }
{
    if waits_for_later_look(&found, look) {
        return Err(Halt::NotYet);
    }
    record_found(table, pass, alloc, held, invocation, found)
}

/// The group that a collective names, from its row. The row must have one of the eight groups.
fn call_group(row: &CallRow) -> GroupId
    requires { (id : ℕ) × (row.now.group ≡ Some id) × (id < 8) }
    ensures { Some result ≡ row.now.group }
{
    match row.group {
        Some(id) => GroupId::of(id as u32),
        None => unreachable!(),
    }
}

/// Commits and records the join of a collective, with memory from `room`, and finds on the held nodes whether it is ready then. The
/// collective is pending. No second look is made, since the shards are held. (GASPI: collectives)
fn join(
    table: &CommitTable<Start>,
    pass: &mut Pass,
    held: &mut HeldShards,
    invocation: &Invocation<'_>,
    call: &Call,
    args: Args,
    room: &mut Room,
) -> Ready
    requires world { IsShape table.now.start.shape }
    requires holder { IsHolder table.now invocation.now.caller call.now held.old pass.old }
    requires call { call.now ≡ invocation.now.call.now }
    requires joins { MayJoinAs table.now.start.shape invocation.now.caller call.now args held.old pass.old.known }
    requires fits { FitsReserved (ready.Join args) room.old }
    requires room { IsReservedFor held.old.nodes.own.value.posts held.old.nodes.own.value.memory call.now room.old }
    ensures table { pass.new.table ≡ pass.old.table }
    ensures holder { IsHolder table.now invocation.now.caller call.now held.new pass.new }
    ensures added { IsCommitted table.now.start.shape pass.old.known (join_event invocation.now.caller call.now args) pass.new.known }
    ensures found { MayRecord table.now.start.shape invocation.now.caller call.now result pass.new.known.seen }
    ensures fits { FoundFits table.now.start.shape invocation.now.caller call.now result room.new }
    ensures row { room.new.row ≡ room.old.row }
    ensures named { IsSome (row_of call.now).group }
{
    let group = call_group(&invocation.row);
    commit_join(table, pass, held, invocation.caller, group, args, room);
    held.nodes
        .answer_in(invocation.caller, call, &mut room.numbers)
}

/// Takes all memory for a collective, joins it, and then records it, or leaves it pending for a later look (`NotYet`). Where memory
/// runs out, it has not joined. (GASPI: collectives)
fn join_first(
    table: &CommitTable<Start>,
    pass: &mut Pass,
    alloc: Global,
    held: &mut HeldShards,
    invocation: &Invocation<'_>,
    look: Look,
    args: Args,
) -> Result<Reply, Halt>
    requires world { IsShape table.now.start.shape }
    requires holder { IsHolder table.now invocation.now.caller invocation.now.call.now held.old pass.old }
    requires joins { MayJoinAs table.now.start.shape invocation.now.caller invocation.now.call.now args held.old pass.old.known }
    requires fits { FitsMemory table.now.start.shape invocation.now.caller invocation.now.call.now (ready.Join args) held.old }
    ensures table { pass.new.table ≡ pass.old.table }
    ensures held { Holds table.now.start.shape held.new pass.new.known }
    ensures worked { AttemptedWhileHeld table.now.start.shape invocation.now.caller invocation.now.call.now look pass.old.known result pass.new.known }
    ensures ample { (row_of invocation.now.call.now).takes_memory ≡ false → result ≢ Err halts.NoMemory }
{
    let mut room = Room::new(alloc, invocation.row);
    if held.nodes.reserve(alloc, invocation, &mut room).is_err() {
        return Err(Halt::NoMemory);
    }
    let Ok(call) = invocation.call.copy(alloc) else {
        return Err(Halt::NoMemory);
    };
    let found = join(table, pass, held, invocation, &call, args, &mut room);
    if waits_for_later_look(&found, look) {
        return Err(Halt::NotYet);
    }
    Ok(record_with(table, pass, held, invocation, call, found, &mut room))
}

/// Whether the room of the caller's rank is less than the need of the call. (own choice)
fn lacks_room(held: &HeldShards, invocation: &Invocation<'_>) -> bool
    ensures { result ≡ is_full_for held.now.nodes.own.value.posts invocation.now.caller.thread invocation.now.call.now }
{
    held.nodes.own.room() < held.nodes.own.need(invocation)
}

/// The attempt while the call's shards are held and the look is made: tests the room, finds the answer, joins where the call may join,
/// and records. The shards stay held. Never `Busy`; after `NoMemory` and `EventLimit` nothing has changed.
fn attempt_held(
    table: &CommitTable<Start>,
    pass: &mut Pass,
    alloc: Global,
    held: &mut HeldShards,
    invocation: &Invocation<'_>,
    look: Look,
) -> Result<Reply, Halt>
    requires world { IsShape table.now.start.shape }
    requires holder { IsHolder table.now invocation.now.caller invocation.now.call.now held.old pass.old }
    ensures table { pass.new.table ≡ pass.old.table }
    ensures held { Holds table.now.start.shape held.new pass.new.known }
    ensures worked { AttemptedWhileHeld table.now.start.shape invocation.now.caller invocation.now.call.now look pass.old.known result pass.new.known }
    ensures ample { (row_of invocation.now.call.now).takes_memory ≡ false → result ≢ Err halts.NoMemory }
{
    if lacks_room(held, invocation) {
        return Err(Halt::EventLimit);
    }
    let Ok(found) = held.nodes.answer(alloc, invocation) else {
        return Err(Halt::NoMemory);
    };
    match join_args(found) {
        Ok(args) => join_first(table, pass, alloc, held, invocation, look, args),
        Err(found) => decide(table, pass, alloc, held, invocation, look, found),
    }
}

/// Counts the changes of a call for threads that watch them, where the call was recorded. `own` is the shard of the caller's rank,
/// `other` the one that the call has beside it.
fn count_changes(
    start: &Start,
    told: &Result<Reply, Halt>,
    row: &CallRow,
    own: u32,
    other: Option<u32>,
) {
    if told.is_ok() {
        start.count_call(row, own, other);
    }
}

/// One attempt of a caller to make a call (`Rank::attempt`): takes the call's shards, looks, does what the look allows, gives the
/// shards back, and counts the change for threads that watch. It gives the recorded reply, or says why nothing was recorded.
pub fn attempt(
    table: &CommitTable<Start>,
    pass: &mut Pass,
    alloc: Global,
    invocation: &Invocation<'_>,
    look: Look,
) -> Result<Reply, Halt>
    requires world { IsShape table.now.start.shape }
    requires pass { IsOf table.now pass.old }
    requires free { HoldsNone pass.old.known }
    requires caller { IsPassOf table.now.start.shape invocation.now.caller pass.old.known }
    ensures table { pass.new.table ≡ pass.old.table }
    ensures free { HoldsNone pass.new.known }
    ensures attempted { Attempted table.now.start.shape invocation.now.caller invocation.now.call.now look pass.old.known result pass.new.known }
    ensures ample { (row_of invocation.now.call.now).takes_memory ≡ false → result ≢ Err halts.NoMemory }
{
    let ranks = table.start().shape.ranks();
    let own = invocation.caller.rank;
    let other = footprint_shard(ranks, invocation.row.footprint.footprint(ranks, own));
    let Some(mut held) = take_and_look(table, pass, own.number(), other) else {
        return Err(Halt::Busy);
    };
    let told = attempt_held(table, pass, alloc, &mut held, invocation, look);
    give_back(table, pass, held);
    count_changes(table.start(), &told, &invocation.row, own.number(), other);
    told
}
