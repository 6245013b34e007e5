//! Calls and joins on the whole state: looks, with the room that their event needs, and the steps by a call or a join. `plain_calls`
//! has each on single posts, memories and groups; here these are found in the state by footprint and rank. A parameter `look` is an
//! evaluation. The suffix `_in` is for the whole state, and `_plain` for a call that is no collective, as in the clause `plain`. The
//! clause `whole` says that ranks and memories are a sound state with the used room of each rank (`IsStateOf`), and the clause
//! `found` that the evaluation is of this very call in this very state, whose rank has room for the event. After a step the stored
//! used room is right (clause `used`), and so is the list of nonempty lanes (clause `named`).

ghost use Rattle.std.specs.Prelude.{◌≡◌, ◌≢◌, ◌+◌, ◌<◌, ◌≤◌, ◌||◌, List, nat_le, length, map, slice_get, IfOk, OnOk, IsOk, Ok, Err, true, false, Some, None};
ghost use Rattle.gaspi_types.specs.CallRows.{row_of};
ghost use Rattle.gaspi_types.specs.Replies.{is_idle};
ghost use Rattle.gaspi_types.specs.Tables.{item_at};
ghost use Rattle.gaspi_types.specs.declared.events.Event.TheVariants.{Called, Joined};
ghost use Rattle.gaspi_types.specs.declared.replies.Ready.{Ready};
ghost use Rattle.gaspi_model.specs.Calls.{recorded_reply};
ghost use Rattle.gaspi_model.specs.CollectiveCalls.{collective_answer, is_join_of, joining_call, is_joining, join_event};
ghost use Rattle.gaspi_model.specs.State.{owed};
ghost use Rattle.gaspi_model.specs.Step.{answer_in, step, Steps, is_declared, is_pending, is_pending_of};
ghost use Rattle.gaspi_model.specs.declared.states.Memory.{Memory};
ghost use Rattle.gaspi_model.specs.declared.states.Posts.{Posts};
ghost use Rattle.plain_calls.specs.Looks.{recorded_of};
ghost use Rattle.plain_calls.specs.Memory.{is_send, is_allreduce, looks_with_memory, keeps_memory};
ghost use Rattle.plain_machine.specs.Looking.{IsEvaluationIn, IsEvaluationOn, IsEvaluationWithRoom, IsCharge, MayJoin, MayJoinWith, HasEventRoom, HasJoinRoom, look_purge};
ghost use Rattle.plain_machine.specs.Machine.{IsStateOf, IsMachine, StepsBy, state_in, used_room_of};
ghost use Rattle.plain_machine.specs.Footprints.{PostsAndLentMemory, call_lent, group_at, AreRanks};
ghost use Rattle.plain_machine.specs.NonemptyLanes.{nonempty_lanes};

use crate::footprints::{
    accessed_memory, call_footprint, empty_group, empty_memory, group_in, own_memory,
};
use crate::nonempty_lanes::{
    LaneId, has_entry, insert_lane, look_lane, look_purge, remove_queue_lanes,
};
use crate::ranks::RankTables;
use gaspi_model::{Memory, Posts, StepFault, Why};
use gaspi_types::{
    Args, Call, CallerId, Event, Footprint, GroupId, Invocation, NoMemory, RankId, Ready, Reply,
    Sequence, ThreadId,
};
use plain_calls::{
    Evaluation, Joining, charge, collective_look, complete, is_there, join, may_join, pending_on,
    record, register_at_peer, registration, thread_at,
};
use std::alloc::Global;

/// Whether a caller has a section.
pub fn has_section(ranks: &RankTables, caller: &CallerId) -> bool
    ensures { (memories : List Memory) → result ≡ is_declared (state_in ranks.now memories) caller.now.rank caller.now.thread }
{
    match ranks.posts.get(caller.rank.index()) {
        Some(posts) => is_there(thread_at(posts, caller.thread)),
        None => false,
    }
}

/// Whether a collective of a thread is pending on a group.
fn is_pending_at(posts: &Posts, thread: ThreadId, id: u64) -> bool
    ensures { result ≡ is_pending_of thread (item_at posts.now.pending id) }
{
    match pending_on(&posts.pending, id) {
        Some(pending) => pending.thread.number() == thread.number(),
        None => false,
    }
}

/// Writes the evaluation of a call that is no collective over `look`. Only a load, the post of a list and a send that is done take
/// memory; where it runs out, what `look` says is of no call.
fn look_plain(
    ranks: &RankTables,
    memories: &Sequence<Memory>,
    alloc: Global,
    invocation: &Invocation<'_>,
    look: &mut Evaluation,
) -> Result<(), NoMemory>
    requires whole { IsStateOf ranks.now memories.now }
    requires there { invocation.now.caller.rank < length ranks.now.posts }
    requires plain { (row_of invocation.now.call.now).group ≡ None }
    ensures look { OnOk result (IsEvaluationIn look.new (state_in ranks.now memories.now) invocation.now.caller invocation.now.call.now) }
    ensures ample { looks_with_memory invocation.now.call.now ≡ false → IsOk result }
    ensures idle { (ready : Ready) → is_send invocation.now.call.now ≡ true → answer_in (state_in ranks.now memories.now) invocation.now.caller.rank invocation.now.caller.thread invocation.now.call.now ≡ Some ready → is_idle (recorded_reply ready) ≡ true → IsOk result }
{
    let none = ranks.none.lent();
    let rank = invocation.caller.rank;
    let footprint = call_footprint(&ranks.limits, invocation);
    let own = own_memory(memories, none, rank, &footprint);
    let memory = accessed_memory(memories, none, rank, &footprint);
    plain_calls::look(
        alloc,
        &ranks.limits,
        invocation,
        ranks.posts.at(rank.index()),
        own,
        memory,
        look,
    )
}

/// The answer to a collective of a caller on group `id`. Only an allreduce takes memory.
fn look_collective(
    ranks: &RankTables,
    alloc: Global,
    caller: &CallerId,
    id: u64,
    call: &Call,
) -> Result<Ready, NoMemory>
    requires whole { (memories : List Memory) × IsStateOf ranks.now memories }
    requires there { caller.now.rank < length ranks.now.posts }
    ensures look { IfOk result (λ ready. (posts : Posts) → slice_get ranks.now.posts caller.now.rank ≡ Some posts → ready ≡ collective_answer posts (group_at ranks.now.groups id) caller.now.rank caller.now.thread id call.now) }
    ensures ample { is_allreduce call.now ≡ false → IsOk result }
{
    let none = empty_group(alloc);
    collective_look(
        alloc,
        ranks.posts.at(caller.rank.index()),
        group_in(&ranks.groups, &none, id),
        caller.rank,
        caller.thread,
        id,
        call,
    )
}

/// Writes the evaluation of a call of a caller over `look`. Only a load, the post of a list, an allreduce and a send that is done take
/// memory; where it runs out, what `look` says is of no call.
pub fn look_in(
    ranks: &RankTables,
    memories: &Sequence<Memory>,
    alloc: Global,
    invocation: &Invocation<'_>,
    look: &mut Evaluation,
) -> Result<(), NoMemory>
    requires whole { IsStateOf ranks.now memories.now }
    requires there { invocation.now.caller.rank < length ranks.now.posts }
    ensures look { OnOk result (IsEvaluationIn look.new (state_in ranks.now memories.now) invocation.now.caller invocation.now.call.now) }
    ensures ample { looks_with_memory invocation.now.call.now ≡ false → IsOk result }
    ensures idle { (ready : Ready) → is_send invocation.now.call.now ≡ true → answer_in (state_in ranks.now memories.now) invocation.now.caller.rank invocation.now.caller.thread invocation.now.call.now ≡ Some ready → is_idle (recorded_reply ready) ≡ true → IsOk result }
{
    match invocation.row.group {
        Some(id) => {
            let ready = look_collective(ranks, alloc, &invocation.caller, id, invocation.call)?;
            look.set_plain(ready);
            Ok(())
        }
        None => look_plain(ranks, memories, alloc, invocation, look),
    }
}

/// Whether a collective of a caller is pending on the group that its call names; false for a call that is no collective.
pub fn is_pending_in(ranks: &RankTables, invocation: &Invocation<'_>) -> bool
    ensures { (memories : List Memory) → result ≡ is_pending (state_in ranks.now memories) invocation.now.caller.rank invocation.now.caller.thread invocation.now.call.now }
{
    let caller = invocation.caller;
    match (ranks.posts.get(caller.rank.index()), invocation.row.group) {
        (Some(posts), Some(id)) => is_pending_at(posts, caller.thread, id),
        _ => false,
    }
}

/// Makes the step by a call with its evaluation, on the posts of its rank and the memory that it works on. `charge` is that of the
/// event. Where memory runs out nothing changes.
///
/// Here and up to `record_with_lanes` the evaluation keeps its answer, or the reply of it, and its message is taken out.
#[inline(always)]
fn record_on(
    ranks: &mut RankTables,
    memory: &mut Memory,
    alloc: Global,
    invocation: &Invocation<'_>,
    look: &mut Evaluation,
    charge: u32,
) -> Result<(), NoMemory>
    requires ranks { AreRanks ranks.old.limits ranks.old.posts }
    requires used { ranks.old.used ≡ map used_room_of ranks.old.posts }
    requires there { invocation.now.caller.rank < length ranks.old.posts }
    requires look { (posts : Posts) → slice_get ranks.old.posts invocation.now.caller.rank ≡ Some posts → IsEvaluationOn look.old ranks.old.limits posts memory.old invocation.now.caller invocation.now.call.now }
    requires charge { IsCharge charge ranks.old.posts invocation.now.caller invocation.now.call.now look.old.ready }
    requires room { HasEventRoom ranks.old.limits ranks.old.posts invocation.now.caller invocation.now.call.now look.old.ready }
    ensures ready { look.new.ready ≡ look.old.ready }
    ensures step { Steps {S = PostsAndLentMemory} (recorded_of result) (record { posts = ranks.old.posts; memory = memory.old }) (record { posts = ranks.new.posts; memory = memory.new }) (call_lent ranks.old.limits ranks.old.posts look.old.message memory.old invocation.now.caller invocation.now.call.now (recorded_reply look.old.ready)) }
    ensures ranks { length ranks.new.posts ≡ length ranks.old.posts }
    ensures limits { ranks.new.limits ≡ ranks.old.limits }
    ensures groups { ranks.new.groups ≡ ranks.old.groups }
    ensures used { ranks.new.used ≡ map used_room_of ranks.new.posts }
    ensures ample { keeps_memory invocation.now.call.now ≡ false → IsOk result }
{
    let rank = invocation.caller.rank.index();
    let taken = *ranks.used.at(rank);
    let used = taken + charge;
    let used = record(
        alloc,
        &ranks.limits,
        invocation,
        ranks.posts.at_mut(rank),
        memory,
        used,
        look,
    )?;
    *ranks.used.at_mut(rank) = used;
    Ok(())
}

/// Makes the step by a call that is no collective, with its evaluation. A `register` changes the posts of its
/// peer too. Where memory runs out nothing changes.
#[inline(always)]
fn record_plain(
    ranks: &mut RankTables,
    memories: &mut Sequence<Memory>,
    alloc: Global,
    invocation: &Invocation<'_>,
    look: &mut Evaluation,
    charge: u32,
) -> Result<(), NoMemory>
    requires whole { IsStateOf ranks.old memories.old }
    requires found { IsEvaluationWithRoom look.old (state_in ranks.old memories.old) invocation.now.caller invocation.now.call.now charge }
    requires plain { (row_of invocation.now.call.now).group ≡ None }
    ensures ready { look.new.ready ≡ look.old.ready }
    ensures step { StepsBy (recorded_of result) (state_in ranks.old memories.old) (state_in ranks.new memories.new) (Called invocation.now.caller invocation.now.call.now (recorded_reply look.old.ready)) }
    ensures used { ranks.new.used ≡ map used_room_of ranks.new.posts }
    ensures ample { keeps_memory invocation.now.call.now ≡ false → IsOk result }
{
    let rank = invocation.caller.rank;
    match call_footprint(&ranks.limits, invocation) {
        Footprint::Alone => {
            let mut none = empty_memory(alloc);
            record_on(ranks, &mut none, alloc, invocation, look, charge)
        }
        Footprint::OwnMemory => {
            let memory = memories.at_mut(rank.index());
            record_on(ranks, memory, alloc, invocation, look, charge)
        }
        Footprint::PeerMemory(peer) => {
            let memory = memories.at_mut(peer.index());
            record_on(ranks, memory, alloc, invocation, look, charge)
        }
        Footprint::BothMemories(peer) => {
            let target = memories.at_mut(peer.index());
            record_on(ranks, target, alloc, invocation, look, charge)
        }
        Footprint::Group(_) => {
            let mut none = empty_memory(alloc);
            record_on(ranks, &mut none, alloc, invocation, look, charge)
        }
        Footprint::GroupAndMemory(_) => {
            let memory = memories.at_mut(rank.index());
            record_on(ranks, memory, alloc, invocation, look, charge)
        }
        Footprint::PeerPosts(peer) => {
            let own = ranks.posts.at(rank.index());
            let registration = registration(rank, own, invocation.call, look);
            let mut none = empty_memory(alloc);
            record_on(ranks, &mut none, alloc, invocation, look, charge)?;
            register_at_peer(ranks.posts.at_mut(peer.index()), registration);
            Ok(())
        }
    }
}

/// Makes the step by a collective on group `id` with the answer of its look, and gives the reply. The answer is no join. It takes no
/// memory.
fn record_collective(
    ranks: &mut RankTables,
    alloc: Global,
    invocation: &Invocation<'_>,
    id: u64,
    ready: Ready,
) -> Reply
    requires whole { (memories : List Memory) × IsStateOf ranks.old memories }
    requires declared { (memories : List Memory) → is_declared (state_in ranks.old memories) invocation.now.caller.rank invocation.now.caller.thread ≡ true }
    requires there { invocation.now.caller.rank < length ranks.old.posts }
    requires group { (row_of invocation.now.call.now).group ≡ Some id }
    requires look { (posts : Posts) → slice_get ranks.old.posts invocation.now.caller.rank ≡ Some posts → ready ≡ collective_answer posts (group_at ranks.old.groups id) invocation.now.caller.rank invocation.now.caller.thread id invocation.now.call.now }
    requires unjoined { is_joining ready ≡ false }
    requires room { HasEventRoom ranks.old.limits ranks.old.posts invocation.now.caller invocation.now.call.now ready }
    ensures reply { result ≡ recorded_reply ready }
    ensures step { (memories : List Memory) → step (state_in ranks.old memories) (Called invocation.now.caller invocation.now.call.now (recorded_reply ready)) ≡ Ok (state_in ranks.new memories) }
    ensures used { ranks.new.used ≡ map used_room_of ranks.new.posts }
{
    let rank = invocation.caller.rank.index();
    if id < 8 {
        return complete(
            invocation,
            id,
            ranks.posts.at_mut(rank),
            ranks.groups.at_mut(id as usize),
            ranks.used.at_mut(rank),
            ready,
        );
    }
    let mut none = empty_group(alloc);
    complete(
        invocation,
        id,
        ranks.posts.at_mut(rank),
        &mut none,
        ranks.used.at_mut(rank),
        ready,
    )
}

/// The same as `record_plain` for a call that purges nothing, and adds the lane to which it posts to the nonempty lanes. Where
/// memory runs out nothing changes.
#[inline(always)]
fn record_posting(
    ranks: &mut RankTables,
    memories: &mut Sequence<Memory>,
    standing: &mut Vec<LaneId>,
    alloc: Global,
    invocation: &Invocation<'_>,
    look: &mut Evaluation,
    charge: u32,
) -> Result<(), NoMemory>
    requires machine { IsMachine (state_in ranks.old memories.old) ranks.old.used standing.old.items }
    requires found { IsEvaluationWithRoom look.old (state_in ranks.old memories.old) invocation.now.caller invocation.now.call.now charge }
    requires plain { (row_of invocation.now.call.now).group ≡ None }
    requires unpurged { look_purge invocation.now.call.now look.old ≡ None }
    ensures ready { look.new.ready ≡ look.old.ready }
    ensures step { StepsBy (recorded_of result) (state_in ranks.old memories.old) (state_in ranks.new memories.new) (Called invocation.now.caller invocation.now.call.now (recorded_reply look.old.ready)) }
    ensures used { ranks.new.used ≡ map used_room_of ranks.new.posts }
    ensures named { standing.new.items ≡ nonempty_lanes ranks.new.posts }
    ensures ample { keeps_memory invocation.now.call.now ≡ false → IsOk result }
{
    let Some(id) = look_lane(invocation, look) else {
        return record_plain(ranks, memories, alloc, invocation, look, charge);
    };
    if has_entry(&ranks.posts, &id) {
        return record_plain(ranks, memories, alloc, invocation, look, charge);
    }
    if standing.reserve(1).is_err() {
        return Err(NoMemory);
    }
    record_plain(ranks, memories, alloc, invocation, look, charge)?;
    insert_lane(standing, id);
    Ok(())
}

/// Makes the step by any call with its evaluation. The nonempty lanes get the lane to which the call posts, and
/// lose those of the queue that it purges. The evaluation is of this very call in this very state, and is no join; its rank has room
/// for the event. So nothing is checked again. Where memory runs out nothing changes.
#[inline(always)]
pub fn record_with_lanes(
    ranks: &mut RankTables,
    memories: &mut Sequence<Memory>,
    standing: &mut Vec<LaneId>,
    alloc: Global,
    invocation: &Invocation<'_>,
    look: &mut Evaluation,
    charge: u32,
) -> Result<(), NoMemory>
    requires machine { IsMachine (state_in ranks.old memories.old) ranks.old.used standing.old.items }
    requires found { IsEvaluationWithRoom look.old (state_in ranks.old memories.old) invocation.now.caller invocation.now.call.now charge }
    requires unjoined { is_joining look.old.ready ≡ false }
    ensures reply { recorded_reply look.new.ready ≡ recorded_reply look.old.ready }
    ensures step { StepsBy (recorded_of result) (state_in ranks.old memories.old) (state_in ranks.new memories.new) (Called invocation.now.caller invocation.now.call.now (recorded_reply look.old.ready)) }
    ensures used { ranks.new.used ≡ map used_room_of ranks.new.posts }
    ensures named { standing.new.items ≡ nonempty_lanes ranks.new.posts }
    ensures ample { keeps_memory invocation.now.call.now ≡ false → IsOk result }
{
    if let Some(id) = invocation.row.group {
        let ready = std::mem::replace(&mut look.ready, Ready::NotReady);
        look.ready = Ready::Reply(record_collective(ranks, alloc, invocation, id, ready));
        return Ok(());
    }
    let Some(queue) = look_purge(invocation.call, look) else {
        return record_posting(ranks, memories, standing, alloc, invocation, look, charge);
    };
    record_plain(ranks, memories, alloc, invocation, look, charge)?;
    remove_queue_lanes(standing, invocation.caller.rank, queue);
    Ok(())
}

/// The used room that the event of a call with this answer adds.
pub fn event_charge(ranks: &RankTables, invocation: &Invocation<'_>, ready: &Ready) -> u32
    requires { invocation.now.caller.rank < length ranks.now.posts }
    ensures charge { IsCharge result ranks.now.posts invocation.now.caller invocation.now.call.now ready.now }
    ensures bound { result ≤ 515 }
{
    let posts = ranks.posts.at(invocation.caller.rank.index());
    let state = thread_at(posts, invocation.caller.thread);
    charge(state, invocation, ready)
}

/// Whether a rank has room for an event with this charge.
fn has_room(ranks: &RankTables, rank: RankId, charge: u32) -> bool
    requires whole { (memories : List Memory) × IsStateOf ranks.now memories }
    requires there { rank < length ranks.now.posts }
    requires charge { charge ≤ 515 }
    ensures { (posts : Posts) → slice_get ranks.now.posts rank ≡ Some posts → result ≡ nat_le (posts.events + owed posts + charge) ranks.now.limits.events }
{
    let taken = *ranks.used.at(rank.index());
    taken + charge <= ranks.limits.events
}

/// Makes the step by a call with its reply, where a look has given this evaluation. Where it is no step, its cause is given: `Reply`
/// where the look found another one, or `Limit` without room. Then, and where memory runs out, nothing changes.
fn step_looked(
    ranks: &mut RankTables,
    memories: &mut Sequence<Memory>,
    standing: &mut Vec<LaneId>,
    alloc: Global,
    invocation: &Invocation<'_>,
    reply: &Reply,
    look: &mut Evaluation,
) -> Result<(), StepFault>
    requires machine { IsMachine (state_in ranks.old memories.old) ranks.old.used standing.old.items }
    requires declared { is_declared (state_in ranks.old memories.old) invocation.now.caller.rank invocation.now.caller.thread ≡ true }
    requires look { IsEvaluationIn look.old (state_in ranks.old memories.old) invocation.now.caller invocation.now.call.now }
    ensures step { StepsBy result (state_in ranks.old memories.old) (state_in ranks.new memories.new) (Called invocation.now.caller invocation.now.call.now reply.now) }
    ensures used { ranks.new.used ≡ map used_room_of ranks.new.posts }
    ensures named { standing.new.items ≡ nonempty_lanes ranks.new.posts }
    ensures ample { keeps_memory invocation.now.call.now ≡ false → result ≢ Err StepFault.NoMemory }
{
    if !look.may_be_recorded_with(reply) {
        return Err(StepFault::Illegal(Why::Reply));
    }
    let charge = event_charge(ranks, invocation, &look.ready);
    if !has_room(ranks, invocation.caller.rank, charge) {
        return Err(StepFault::Illegal(Why::Limit));
    }
    match record_with_lanes(ranks, memories, standing, alloc, invocation, look, charge) {
        Ok(()) => Ok(()),
        Err(NoMemory) => Err(StepFault::NoMemory),
    }
}

/// Makes the step by a call with its reply. Where it is no step, its cause is given: `Caller` without a section, `Reply` where the
/// look finds another one, or `Limit` without room. Then, and where memory runs out, nothing changes.
pub fn step_called(
    ranks: &mut RankTables,
    memories: &mut Sequence<Memory>,
    standing: &mut Vec<LaneId>,
    alloc: Global,
    invocation: &Invocation<'_>,
    reply: &Reply,
) -> Result<(), StepFault>
    requires { IsMachine (state_in ranks.old memories.old) ranks.old.used standing.old.items }
    ensures step { StepsBy result (state_in ranks.old memories.old) (state_in ranks.new memories.new) (Called invocation.now.caller invocation.now.call.now reply.now) }
    ensures used { ranks.new.used ≡ map used_room_of ranks.new.posts }
    ensures named { standing.new.items ≡ nonempty_lanes ranks.new.posts }
    ensures ample { (looks_with_memory invocation.now.call.now || keeps_memory invocation.now.call.now) ≡ false → result ≢ Err StepFault.NoMemory }
{
    if !has_section(ranks, &invocation.caller) {
        return Err(StepFault::Illegal(Why::Caller));
    }
    let mut look = Evaluation::of_no_call();
    match look_in(ranks, memories, alloc, invocation, &mut look) {
        Ok(()) => step_looked(
            ranks, memories, standing, alloc, invocation, reply, &mut look,
        ),
        Err(NoMemory) => Err(StepFault::NoMemory),
    }
}

/// Whether a join may come: its collective may join the group, with just these arguments.
fn may_join_in(ranks: &RankTables, alloc: Global, joining: &Joining<'_>) -> Result<bool, NoMemory>
    requires whole { (memories : List Memory) × IsStateOf ranks.now memories }
    requires there { joining.now.caller.rank < length ranks.now.posts }
    ensures { IfOk result (λ may. (posts : Posts) → slice_get ranks.now.posts joining.now.caller.rank ≡ Some posts
        → may ≡ is_join_of (collective_answer posts (group_at ranks.now.groups joining.now.group) joining.now.caller.rank joining.now.caller.thread joining.now.group (joining_call joining.now.group joining.now.args.now)) joining.now.args.now) }
{
    let none = empty_group(alloc);
    let number = u64::from(joining.group.number());
    may_join(
        alloc,
        joining,
        ranks.posts.at(joining.caller.rank.index()),
        group_in(&ranks.groups, &none, number),
    )
}

/// Makes the step by a join. The caller has a section, its collective may join this group with these arguments, and its rank has
/// room for one event. Where memory runs out nothing changes.
fn join_in(
    ranks: &mut RankTables,
    memories: &mut Sequence<Memory>,
    alloc: Global,
    joining: &Joining<'_>,
) -> Result<(), NoMemory>
    requires whole { IsStateOf ranks.old memories.old }
    requires declared { is_declared (state_in ranks.old memories.old) joining.now.caller.rank joining.now.caller.thread ≡ true }
    requires there { joining.now.caller.rank < length ranks.old.posts }
    requires joins { MayJoin (state_in ranks.old memories.old) joining.now.caller joining.now.group joining.now.args.now }
    requires room { HasJoinRoom ranks.old.limits ranks.old.posts joining.now.caller.rank }
    ensures step { StepsBy (recorded_of result) (state_in ranks.old memories.old) (state_in ranks.new memories.new) (Joined joining.now.caller joining.now.group joining.now.args.now) }
    ensures used { ranks.new.used ≡ map used_room_of ranks.new.posts }
{
    let rank = joining.caller.rank.index();
    join(
        alloc,
        &ranks.limits,
        joining,
        ranks.posts.at_mut(rank),
        memories.at_mut(rank),
        ranks.groups.at_mut(joining.group.index()),
        ranks.used.at_mut(rank),
    )
}

/// Makes the step by a join. Where it is no step, its cause is given: `Caller` without a section, `Join` where its collective may
/// not join with these arguments, or `Limit` without room. Then, and where memory runs out, nothing changes.
pub fn step_joined(
    ranks: &mut RankTables,
    memories: &mut Sequence<Memory>,
    alloc: Global,
    joining: &Joining<'_>,
) -> Result<(), StepFault>
    requires { IsStateOf ranks.old memories.old }
    ensures step { StepsBy result (state_in ranks.old memories.old) (state_in ranks.new memories.new) (Joined joining.now.caller joining.now.group joining.now.args.now) }
    ensures used { ranks.new.used ≡ map used_room_of ranks.new.posts }
{
    if !has_section(ranks, &joining.caller) {
        return Err(StepFault::Illegal(Why::Caller));
    }
    let may_join = match may_join_in(ranks, alloc, joining) {
        Ok(may_join) => may_join,
        Err(NoMemory) => return Err(StepFault::NoMemory),
    };
    if !may_join {
        return Err(StepFault::Illegal(Why::Join));
    }
    if !has_room(ranks, joining.caller.rank, 1) {
        return Err(StepFault::Illegal(Why::Limit));
    }
    match join_in(ranks, memories, alloc, joining) {
        Ok(()) => Ok(()),
        Err(NoMemory) => Err(StepFault::NoMemory),
    }
}

/// Makes the step by the join that a look at this call in this very state has found, with `args`, and gives the event. The join is a
/// step. Where memory runs out nothing changes.
pub fn join_found(
    ranks: &mut RankTables,
    memories: &mut Sequence<Memory>,
    alloc: Global,
    invocation: &Invocation<'_>,
    args: Args,
) -> Result<Event, NoMemory>
    requires whole { IsStateOf ranks.old memories.old }
    requires joins { MayJoinWith args (state_in ranks.old memories.old) invocation.now.caller invocation.now.call.now }
    ensures event { IfOk result (λ event. event ≡ join_event invocation.now.caller invocation.now.call.now args) }
    ensures step { StepsBy (recorded_of result) (state_in ranks.old memories.old) (state_in ranks.new memories.new) (join_event invocation.now.caller invocation.now.call.now args) }
    ensures used { ranks.new.used ≡ map used_room_of ranks.new.posts }
{
    let id = GroupId::of(invocation.row.group.unwrap_or(0) as u32);
    let joining = Joining {
        caller: invocation.caller,
        group: id,
        args: &args,
    };
    join_in(ranks, memories, alloc, &joining)?;
    Ok(Event::Joined(invocation.caller, id, args))
}
