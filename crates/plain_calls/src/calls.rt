//! Chooses by the kind of a call: its evaluation at a look, its effect on posts and memory, and the registration that it gives a
//! peer. A call was done where its reply is neither a refusal nor a timeout. In this file a *plain* call posts nothing and is no
//! collective; collectives are in `collective_calls` and `collective_steps`. `me` is the caller's rank, `memory` the memory that the
//! call works on: that of the rank that an atomic or a send names, else the own one.

ghost use Rattle.std.specs.Prelude.{◌≡◌, ◌≤◌, List, Option, Result, length, IfOk, IsOk, OnOk, OnErr, None, true, false};
ghost use Rattle.gaspi_types.specs.declared.entries.Kind.{Kind};
ghost use Rattle.gaspi_types.specs.declared.replies.Refusal.{Refusal};
ghost use Rattle.gaspi_types.specs.declared.replies.Reply.{Reply};
ghost use Rattle.gaspi_model.specs.Calls.{plain_result, answer, plain_effect, memory_effect, peer_after, recorded_reply};
ghost use Rattle.gaspi_model.specs.declared.states.Posts.{Posts};
ghost use Rattle.plain_calls.specs.Looks.{AreShort, Accepts, HasMessage, IsPostEvaluation, IsEvaluation, posts_effect_with};
ghost use Rattle.gaspi_model.specs.PassiveCalls.{sent_message};
ghost use Rattle.gaspi_types.specs.Replies.{is_idle};
ghost use Rattle.plain_calls.specs.Memory.{is_load, is_send, fills_memory, looks_with_memory, keeps_memory};
ghost use Rattle.plain_calls.specs.NumberBounds.{PlainCallIsBounded, CallIsBounded};
ghost use Rattle.plain_calls.specs.Registrations.{with_registration};

use crate::atomic_calls::{compare_swap_effect, fetch_add_effect, word_result};
use crate::group_calls::{
    group_add_effect, group_add_result, group_create_effect, group_create_result,
    group_delete_effect, group_delete_result, pending_on,
};
use crate::looks::Evaluation;
use crate::memories::slots_of;
use crate::memory_calls::{load_result, store_effect, store_result};
use crate::notification_calls::{reset_effect, reset_result, waitsome_result};
use crate::passive_calls::{
    front_of, message_of, receive_effect, receive_result, send_effect, send_result,
};
use crate::post_calls::posting_result;
use crate::posting::post;
use crate::queue_calls::{closed, purge_result, purged, qsize_result, state_result, wait_result};
use crate::replies::answer_of_result;
use crate::segment_calls::{
    Registration, alloc_effect, alloc_result, delete_effect, delete_result, register_result,
    registration_of, set_known_extent,
};
use crate::threads::{end_thread, is_running, thread_at};
use gaspi_model::{Memory, Posts};
use gaspi_types::{
    Call, CompareSwap, FetchAdd, Invocation, Kind, Limits, Message, NoMemory, RankId, Ready,
    Refusal, Reply, ThreadId,
};
use segment_store::EntryKinds;
use std::alloc::Global;

/// The result of a plain call: its refusal, its reply, or None where it is not ready. A load takes memory for its bytes; no other
/// call takes any. The world's limits (8 queues, 32 ranks, 4,096 bytes of a message) are required, so that each number of a reply
/// fits 32 bits.
fn plain_result(
    alloc: Global,
    limits: &Limits,
    me: RankId,
    posts: &Posts,
    memory: &Memory,
    call: &Call,
) -> Result<Result<Option<Reply>, Refusal>, NoMemory>
    requires queues { length posts.now.queues ≤ 8 }
    requires corrupt { length posts.now.corrupt ≤ 32 }
    requires inbox { AreShort memory.now.inbox }
    ensures finds { IfOk result (λ finds. finds ≡ plain_result limits.now me posts.now memory.now call.now) }
    ensures ample { is_load call.now ≡ false → IsOk result }
{
    Ok(match call {
        Call::Alloc(call) => alloc_result(&posts.segments.own, call),
        Call::Register(call) => register_result(limits.ranks, &posts.segments.own, call),
        Call::Delete(call) => delete_result(posts, call),
        Call::Store(call) => store_result(&posts.segments.own, call),
        Call::Load(call) => load_result(alloc, &posts.segments.own, &memory.segments, call)?,
        Call::Wait(call) => wait_result(posts, call),
        Call::Purge(call) => purge_result(posts, call),
        Call::Qsize(call) => qsize_result(posts, call),
        Call::Waitsome(call) => {
            let slots = slots_of(memory, call.seg);
            waitsome_result(limits.notes, &posts.segments.own, slots, call)
        }
        Call::Reset(call) => {
            let slots = slots_of(memory, call.seg);
            reset_result(limits.notes, &posts.segments.own, slots, call)
        }
        Call::PassiveSend(call) => {
            let room = memory.inbox.len() < limits.inbox as usize;
            send_result(limits.ranks, &posts.segments.own, room, call)
        }
        Call::PassiveReceive(call) => {
            let front = front_of(&memory.inbox);
            receive_result(&posts.segments.own, front, call)
        }
        Call::FetchAdd(
            FetchAdd {
                seg,
                offset,
                rank,
                ..
            },
        )
        | Call::CompareSwap(
            CompareSwap {
                seg,
                offset,
                rank,
                ..
            },
        ) => {
            let segments = &memory.segments;
            word_result(
                limits.ranks,
                me,
                &posts.segments,
                segments,
                *seg,
                *offset,
                *rank,
            )
        }
        Call::GroupCreate => group_create_result(&posts.groups),
        Call::GroupAdd(call) => {
            let pending = pending_on(&posts.pending, call.group);
            group_add_result(limits.ranks, &posts.groups, pending, call)
        }
        Call::GroupDelete(call) => {
            let pending = pending_on(&posts.pending, call.group);
            group_delete_result(&posts.groups, pending, call)
        }
        Call::State => state_result(posts.corrupt.as_slice()),
        _ => Ok(Some(Reply::Done)),
    })
}

/// Writes the evaluation of a call that posts, from what `posting_result` found: done, with the kinds of its entries, or its refusal.
/// The clause says so of any requested kinds and any result that `finds` agrees with (`Accepts`).
fn set_post(evaluation: &mut Evaluation, finds: Result<EntryKinds, Refusal>)
    ensures message { evaluation.new.message ≡ None }
    ensures finding { (asked : Result (List Kind) Refusal) (answers : Result (Option Reply) Refusal) → Accepts finds asked answers → IsPostEvaluation evaluation.new asked answers }
{
    match finds {
        Ok(kinds) => {
            evaluation.ready = Ready::Reply(Reply::Done);
            evaluation.kinds = kinds;
            evaluation.clear_message();
        }
        Err(refusal) => evaluation.set_plain(Ready::Reply(Reply::Refused(refusal))),
    }
}

/// Adds to an evaluation that has none the message of a send that is done, copied from the own memory. A send that is refused or not
/// ready has none, nor has any other call; these take no memory. Where memory runs out nothing changes.
fn set_message(
    alloc: Global,
    me: RankId,
    own: &Memory,
    call: &Call,
    evaluation: &mut Evaluation,
) -> Result<(), NoMemory>
    requires { evaluation.old.message ≡ None }
    ensures message { OnOk result (HasMessage evaluation.new (sent_message me own.now call.now)) }
    ensures ready { evaluation.new.ready ≡ evaluation.old.ready }
    ensures kinds { evaluation.new.kinds ≡ evaluation.old.kinds }
    ensures ample { is_send call.now ≡ false → IsOk result }
    ensures idle { is_idle (recorded_reply evaluation.old.ready) ≡ true → IsOk result }
{
    if let Call::PassiveSend(call) = call {
        if !evaluation.is_refused_or_timeout() {
            evaluation.message = Some(message_of(alloc, me, &own.segments, call)?);
        }
    }
    Ok(())
}

/// Writes the evaluation of a call that is no collective, by its caller, who may have ended, over `look`. `own` is the memory of the
/// caller's rank; a send copies its message from there. Only a load, the post of a list (clause `ample`) and a send that is done
/// (clause `idle`) take memory. Where it runs out, what `look` says is of no call.
pub fn look(
    alloc: Global,
    limits: &Limits,
    invocation: &Invocation<'_>,
    posts: &Posts,
    own: &Memory,
    memory: &Memory,
    look: &mut Evaluation,
) -> Result<(), NoMemory>
    requires queues { length posts.now.queues ≤ 8 }
    requires corrupt { length posts.now.corrupt ≤ 32 }
    requires inbox { AreShort memory.now.inbox }
    ensures look { OnOk result (IsEvaluation look.new limits.now invocation.now.caller.rank posts.now memory.now invocation.now.caller.thread invocation.now.call.now) }
    ensures message { OnOk result (HasMessage look.new (sent_message invocation.now.caller.rank own.now invocation.now.call.now)) }
    ensures ample { looks_with_memory invocation.now.call.now ≡ false → IsOk result }
    // A look at a send that is not done takes none.
    ensures idle { is_send invocation.now.call.now ≡ true → is_idle (recorded_reply (answer limits.now invocation.now.caller.rank posts.now memory.now invocation.now.caller.thread invocation.now.call.now)) ≡ true → IsOk result }
{
    let me = invocation.caller.rank;
    let call = invocation.call;
    if !is_running(thread_at(posts, invocation.caller.thread)) {
        look.set_plain(Ready::Reply(Reply::Refused(Refusal::CallerEnded)));
        return Ok(());
    }
    match invocation.row.posting {
        Some(to) => {
            set_post(look, posting_result(alloc, limits, me, posts, to, call)?);
            Ok(())
        }
        None => {
            let finds = plain_result(alloc, limits, me, posts, memory, call)?;
            look.set_plain(answer_of_result(finds));
            set_message(alloc, me, own, call, look)
        }
    }
}

/// Makes the effect of a plain call that was done, and leaves the count of events as it is. `thread` matters for the end alone, and
/// `message` for a send. An alloc and a send take memory; where memory runs out nothing changes.
fn plain_done(
    alloc: Global,
    limits: &Limits,
    posts: &mut Posts,
    memory: &mut Memory,
    thread: ThreadId,
    call: &Call,
    message: Option<Message>,
) -> Result<(), NoMemory>
    requires { PlainCallIsBounded posts.old call.now }
    ensures posts { OnOk result (posts.new ≡ plain_effect posts.old thread call.now) }
    ensures memory { OnOk result (memory.new ≡ memory_effect limits.now posts.old message memory.old call.now) }
    ensures posts_kept { OnErr result (posts.new ≡ posts.old) }
    ensures memory_kept { OnErr result (memory.new ≡ memory.old) }
    ensures ample { fills_memory call.now ≡ false → IsOk result }
{
    match call {
        Call::Alloc(call) => return alloc_effect(alloc, limits, posts, memory, call),
        Call::Delete(call) => delete_effect(posts, memory, call),
        Call::Store(call) => store_effect(memory, call),
        Call::Wait(call) => closed(posts, call.queue),
        Call::Purge(call) => purged(posts, call.queue),
        Call::Reset(call) => reset_effect(memory, call),
        Call::PassiveSend(_) => return send_effect(memory, message),
        Call::PassiveReceive(call) => receive_effect(memory, call),
        Call::FetchAdd(call) => fetch_add_effect(memory, call),
        Call::CompareSwap(call) => compare_swap_effect(memory, call),
        Call::GroupCreate => group_create_effect(posts),
        Call::GroupAdd(call) => group_add_effect(posts, call),
        Call::GroupDelete(call) => group_delete_effect(posts, call),
        Call::End => end_thread(posts, thread),
        _ => {}
    }
    Ok(())
}

/// Makes the effect of a call that is recorded neither with a refusal nor with a timeout, on the posts of its rank and on the memory
/// that it works on. A post appends entries of `kinds`, a send its `message`. The count of events stays as it is. A post, an alloc
/// and a send take memory; where memory runs out nothing changes.
pub fn call_effect(
    alloc: Global,
    limits: &Limits,
    invocation: &Invocation<'_>,
    posts: &mut Posts,
    memory: &mut Memory,
    kinds: &[Kind],
    message: Option<Message>,
) -> Result<(), NoMemory>
    requires { CallIsBounded posts.old invocation.now.call.now (length kinds.now) }
    ensures posts { OnOk result (posts.new ≡ posts_effect_with posts.old invocation.now.caller.thread invocation.now.call.now kinds.now) }
    ensures memory { OnOk result (memory.new ≡ memory_effect limits.now posts.old message memory.old invocation.now.call.now) }
    ensures posts_kept { OnErr result (posts.new ≡ posts.old) }
    ensures memory_kept { OnErr result (memory.new ≡ memory.old) }
    ensures ample { keeps_memory invocation.now.call.now ≡ false → IsOk result }
{
    match invocation.row.posting {
        Some(to) => post(alloc, posts, to.queue, to.rank, kinds),
        None => {
            let thread = invocation.caller.thread;
            plain_done(
                alloc,
                limits,
                posts,
                memory,
                thread,
                invocation.call,
                message,
            )
        }
    }
}

/// The registration that a call gives a peer: that of a `register` which is recorded as done; None for each other call, and for a
/// refusal. `look` is the evaluation of the call.
pub fn registration(
    me: RankId,
    posts: &Posts,
    call: &Call,
    look: &Evaluation,
) -> Option<Registration>
    ensures { (peer : Posts) → with_registration result peer ≡ peer_after me posts.now call.now (recorded_reply look.now.ready) peer }
{
    if look.is_refused_or_timeout() {
        return None;
    }
    match call {
        Call::Register(call) => Some(registration_of(me, &posts.segments.own, call)),
        _ => None,
    }
}

/// Makes the segment of a registration known to a peer, in the peer's posts; None changes nothing.
pub fn register_at_peer(peer: &mut Posts, registration: Option<Registration>)
    ensures { peer.new ≡ with_registration registration peer.old }
{
    if let Some(registration) = registration {
        set_known_extent(peer, registration);
    }
}
