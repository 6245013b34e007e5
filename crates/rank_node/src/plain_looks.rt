//! The answer of a look at a call that is no collective, on the posts of the caller's rank and the memory that the call works on. A
//! *plain* call posts nothing, and is no collective. The functions `look_at` give the result of a call from the stores of
//! `post_queue` and the table of segments; `plain_calls` has the others. Nothing changes.

ghost use Rattle.std.specs.Prelude.{◌≡◌, ◌≤◌, length, false, Some, IfOk, IsOk};
ghost use Rattle.gaspi_types.specs.CallRows.{row_of};
ghost use Rattle.gaspi_types.specs.Posts.{is_list_post};
ghost use Rattle.gaspi_types.specs.declared.replies.Ready.TheVariants.{NotReady};
ghost use Rattle.gaspi_model.specs.Calls.{plain_result, requested_kinds, answer};
ghost use Rattle.gaspi_model.specs.PostCalls.{post_request_result};
ghost use Rattle.gaspi_model.specs.QueueCalls.{wait_result, purge_result, qsize_result};
ghost use Rattle.gaspi_model.specs.SegmentCalls.{delete_result};
ghost use Rattle.gaspi_model.specs.declared.states.Posts.{Posts};
ghost use Rattle.plain_calls.specs.Memory.{is_load};

use crate::node_memory::NodeMemory;
use crate::node_posts::NodePosts;
use gaspi_types::{
    Call, CompareSwap, Delete, Extents, FetchAdd, Invocation, NoMemory, Posting, Purge, Qsize,
    Ready, Refusal, Reply, Wait,
};
use plain_calls::{
    alloc_result, answer_of_result, group_add_result, group_create_result, group_delete_result,
    load_result, receive_result, register_result, reset_result, send_result, state_result,
    store_result, waitsome_result, word_result,
};
use post_queue::Lanes;
use segment_store::{call_kinds, extent_in};
use std::alloc::Global;

/// The result of a `wait`: `BadQueue`, or `QueueBroken`, or done where its queue has no awaited entry, else not ready. (GASPI: wait)
fn look_at_wait(lanes: &Lanes, call: &Wait) -> Result<Option<Reply>, Refusal>
    ensures { (posts : Posts) → posts.queues ≡ lanes.now.queues → result ≡ wait_result posts call.now }
{
    if lanes.wait_ready(call.queue)? {
        Ok(Some(Reply::Done))
    } else {
        Ok(None)
    }
}

/// The result of a `purge`: done where the queue is there, broken or not; else `BadQueue`. (GASPI: queue_purge)
fn look_at_purge(lanes: &Lanes, call: &Purge) -> Result<Option<Reply>, Refusal>
    ensures { (posts : Posts) → posts.queues ≡ lanes.now.queues → result ≡ purge_result posts call.now }
{
    lanes.open_count(call.queue)?;
    Ok(Some(Reply::Done))
}

/// The result of a `qsize`: the open count of its queue, or `BadQueue`. (GASPI: queue_size)
fn look_at_size(lanes: &Lanes, call: &Qsize) -> Result<Option<Reply>, Refusal>
    ensures { (posts : Posts) → posts.queues ≡ lanes.now.queues → result ≡ qsize_result posts call.now }
{
    let count = lanes.open_count(call.queue)?;
    Ok(Some(Reply::Value(u64::from(count))))
}

/// The result of a `delete`: `NoSegment`, `SegmentBusy` with the least queue that has an entry that uses the segment, or done.
/// (GASPI: segment_delete)
fn look_at_delete(lanes: &Lanes, own: &Extents, call: &Delete) -> Result<Option<Reply>, Refusal>
    ensures { (posts : Posts) → posts.queues ≡ lanes.now.queues → posts.segments.own ≡ own.now → result ≡ delete_result posts call.now }
{
    extent_in(own, call.seg).ok_or(Refusal::NoSegment)?;
    match lanes.uses(call.seg) {
        Some(queue) => Err(Refusal::SegmentBusy { queue }),
        None => Ok(Some(Reply::Done)),
    }
}

/// The result of a plain call: its refusal, its reply, or None where it is not ready. Only a load takes memory.
fn plain_result(
    alloc: Global,
    posts: &NodePosts,
    memory: &NodeMemory,
    call: &Call,
) -> Result<Result<Option<Reply>, Refusal>, NoMemory>
    requires corrupt { length posts.now.posts.corrupt ≤ 32 }
    requires capacity { memory.now.capacity ≡ posts.now.limits.inbox }
    ensures finds { IfOk result (λ finds. finds ≡ plain_result posts.now.limits posts.now.me posts.now.posts memory.now.memory call.now) }
    ensures ample { is_load call.now ≡ false → IsOk result }
{
    let limits = &posts.limits;
    let table = &posts.segments;
    Ok(match call {
        Call::Alloc(call) => alloc_result(&table.own, call),
        Call::Register(call) => register_result(limits.ranks, &table.own, call),
        Call::Delete(call) => look_at_delete(&posts.lanes, &table.own, call),
        Call::Store(call) => store_result(&table.own, call),
        Call::Load(call) => load_result(alloc, &table.own, &memory.segments, call)?,
        Call::Wait(call) => look_at_wait(&posts.lanes, call),
        Call::Purge(call) => look_at_purge(&posts.lanes, call),
        Call::Qsize(call) => look_at_size(&posts.lanes, call),
        Call::Waitsome(call) => {
            waitsome_result(limits.notes, &table.own, memory.slots_of(call.seg), call)
        }
        Call::Reset(call) => {
            reset_result(limits.notes, &table.own, memory.slots_of(call.seg), call)
        }
        Call::PassiveSend(call) => {
            send_result(limits.ranks, &table.own, memory.inbox.has_room(), call)
        }
        Call::PassiveReceive(call) => receive_result(&table.own, memory.inbox.front(), call),
        Call::FetchAdd(
            FetchAdd {
                seg,
                offset,
                rank,
                ..
            },
        )
        | Call::CompareSwap(
            CompareSwap {
                seg,
                offset,
                rank,
                ..
            },
        ) => {
            let segments = &memory.segments;
            word_result(
                limits.ranks,
                posts.me,
                table,
                segments,
                *seg,
                *offset,
                *rank,
            )
        }
        Call::GroupCreate => group_create_result(posts.groups.handles()),
        Call::GroupAdd(call) => {
            let pending = posts.pending_at(call.group);
            group_add_result(limits.ranks, posts.groups.handles(), pending, call)
        }
        Call::GroupDelete(call) => {
            let pending = posts.pending_at(call.group);
            group_delete_result(posts.groups.handles(), pending, call)
        }
        Call::State => state_result(posts.corrupt.as_slice()),
        _ => Ok(Some(Reply::Done)),
    })
}

/// The result of a call that posts to the lane `to`: done, or its first refusal: `BadRank`, `BadQueue`, those of `call_kinds`, those
/// of `check_post`. Only the post of a list takes memory.
fn post_result(
    alloc: Global,
    posts: &NodePosts,
    to: Posting,
    call: &Call,
) -> Result<Result<Option<Reply>, Refusal>, NoMemory>
    ensures finds { IfOk result (λ finds. finds ≡ post_request_result posts.now.limits posts.now.posts to.rank to.queue (requested_kinds posts.now.limits posts.now.me posts.now.posts call.now)) }
    ensures ample { is_list_post call.now ≡ false → IsOk result }
{
    if to.rank >= u64::from(posts.limits.ranks) {
        return Ok(Err(Refusal::BadRank));
    }
    if posts.lanes.open_count(to.queue).is_err() {
        return Ok(Err(Refusal::BadQueue));
    }
    match call_kinds(alloc, posts.limits.notes, posts.me, &posts.segments, call)? {
        Ok(kinds) => match posts
            .lanes
            .check_post(to.queue, kinds.as_slice().len() as u32)
        {
            Ok(()) => Ok(Ok(Some(Reply::Done))),
            Err(refusal) => Ok(Err(refusal)),
        },
        Err(refusal) => Ok(Err(refusal)),
    }
}

/// The answer to a call that is no collective: a refusal or a reply, or that it is not ready. `memory` is that of the rank that an
/// atomic or a send names, and else that of the caller's rank. Only a load and the post of a list take memory, and a call that is
/// not ready takes none.
pub(crate) fn look(
    alloc: Global,
    posts: &NodePosts,
    memory: &NodeMemory,
    invocation: &Invocation<'_>,
) -> Result<Ready, NoMemory>
    requires corrupt { length posts.now.posts.corrupt ≤ 32 }
    requires capacity { memory.now.capacity ≡ posts.now.limits.inbox }
    ensures answer { IfOk result (λ ready. ready ≡ answer posts.now.limits posts.now.me posts.now.posts memory.now.memory invocation.now.caller.thread invocation.now.call.now) }
    ensures ample { (row_of invocation.now.call.now).takes_memory ≡ false → IsOk result }
    ensures unready { answer posts.now.limits posts.now.me posts.now.posts memory.now.memory invocation.now.caller.thread invocation.now.call.now ≡ NotReady → IsOk result }
{
    if !posts.is_running(invocation.caller.thread) {
        return Ok(Ready::Reply(Reply::Refused(Refusal::CallerEnded)));
    }
    let finds = match invocation.row.posting {
        Some(to) => post_result(alloc, posts, to, invocation.call)?,
        None => plain_result(alloc, posts, memory, invocation.call)?,
    };
    Ok(answer_of_result(finds))
}
