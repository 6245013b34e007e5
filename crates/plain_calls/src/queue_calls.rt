//! The calls on queues, and `state`. The functions with `_result` give the result of their call: its refusal, its reply, or None
//! where it is not ready. `closed` and `purged` make the effects of `wait` and `purge`. `purged_queue` and `owed_at` say what a
//! purge releases. The others are their helpers. (GASPI: one-sided communication, state vector)

ghost use Rattle.std.specs.Prelude.{◌≡◌, ◌≤◌, ◌<◌, ◌^◌, length, map};
ghost use Rattle.std.specs.List.{list_any};
ghost use Rattle.gaspi_types.specs.Lanes.{has_awaited};
ghost use Rattle.gaspi_types.specs.Queues.{queue_owed};
ghost use Rattle.gaspi_model.specs.QueueCalls.{wait_result, purge_result, qsize_result, state_result, closed, without_entries, emptied, purged};
ghost use Rattle.gaspi_model.specs.declared.states.Posts.{Posts};
ghost use Rattle.plain_calls.specs.NumberBounds.{purged_queue, owed_at};

use crate::lanes::{has_awaited, lane_owed};
use gaspi_model::Posts;
use gaspi_types::{Call, Entry, Purge, Qsize, Queue, Refusal, Reply, Sequence, Wait, mask_of};

/// Whether a queue has an awaited entry, in any lane.
fn has_awaited_entry(q: &Queue) -> bool
    ensures { result ≡ list_any has_awaited q.now.lanes }
{
    q.lanes.as_slice().iter().any(has_awaited)
}

/// The result of a `wait`: `BadQueue`, or `QueueBroken`, or done where the queue has no awaited entry, else not ready. (GASPI: wait)
pub fn wait_result(posts: &Posts, call: &Wait) -> Result<Option<Reply>, Refusal>
    ensures { result ≡ wait_result posts.now call.now }
{
    let q = posts
        .queues
        .get(call.queue as usize)
        .ok_or(Refusal::BadQueue)?;
    if let Some(rank) = q.broken {
        return Err(Refusal::QueueBroken {
            rank: rank.number(),
        });
    }
    if has_awaited_entry(q) {
        Ok(None)
    } else {
        Ok(Some(Reply::Done))
    }
}

/// The result of a `purge`: done where the queue is there, broken or not; else `BadQueue`. (GASPI: queue_purge)
pub fn purge_result(posts: &Posts, call: &Purge) -> Result<Option<Reply>, Refusal>
    ensures { result ≡ purge_result posts.now call.now }
{
    posts
        .queues
        .get(call.queue as usize)
        .ok_or(Refusal::BadQueue)?;
    Ok(Some(Reply::Done))
}

/// The result of a `qsize`: the open count of its queue, or `BadQueue`. (GASPI: queue_size)
pub fn qsize_result(posts: &Posts, call: &Qsize) -> Result<Option<Reply>, Refusal>
    ensures { result ≡ qsize_result posts.now call.now }
{
    let q = posts
        .queues
        .get(call.queue as usize)
        .ok_or(Refusal::BadQueue)?;
    Ok(Some(Reply::Value(u64::from(q.open_count))))
}

/// The result of `state`: the mask of the corrupt ranks. `corrupt` is the state vector of the caller's rank. (GASPI: state_vec_get)
pub fn state_result(corrupt: &[bool]) -> Result<Option<Reply>, Refusal>
    requires { length corrupt.now ≤ 32 }
    ensures { (posts : Posts) → posts.corrupt ≡ corrupt.now → result ≡ state_result posts }
{
    Ok(Some(Reply::Mask(mask_of(corrupt))))
}

/// Makes the open count of a queue 0. The entries stay. Where there is no such queue nothing changes. (GASPI: wait)
pub fn closed(posts: &mut Posts, queue: u64)
    ensures { posts.new ≡ closed posts.old queue }
{
    let place = queue as usize;
    if place < posts.queues.len() {
        posts.queues.at_mut(place).open_count = 0;
    }
}

/// Drops all entries of these lanes.
fn empty_lanes(lanes: &mut Sequence<Sequence<Entry>>)
    ensures { lanes.new ≡ map without_entries lanes.old }
{
    for target in 0..lanes.len() {
        lanes.at_mut(target).truncate(0);
    }
}

/// Drops all entries of a queue, and makes its open count 0 and the queue unbroken.
fn empty_queue(q: &mut Queue)
    ensures { q.new ≡ emptied q.old }
{
    q.open_count = 0;
    q.broken = None;
    empty_lanes(&mut q.lanes);
}

/// Drops all entries of a queue, and makes its open count 0 and the queue unbroken. The state vector stays. Where there is no such
/// queue nothing changes. (GASPI: queue_purge)
pub fn purged(posts: &mut Posts, queue: u64)
    ensures { posts.new ≡ purged posts.old queue }
{
    let place = queue as usize;
    if place < posts.queues.len() {
        empty_queue(posts.queues.at_mut(place));
    }
}

/// The queue that a call purges; None for every call but a `purge`.
pub fn purged_queue(call: &Call) -> Option<u64>
    ensures { result ≡ purged_queue call.now }
{
    match call {
        Call::Purge(call) => Some(call.queue),
        _ => None,
    }
}

/// How many events a rank owes for the entries of a queue. The sum fits 32 bits.
fn queue_owed(q: &Queue) -> u32
    requires { queue_owed q.now < 2 ^ 32 }
    ensures { result ≡ queue_owed q.now }
{
    let mut owed = 0;
    for lane in q.lanes.as_slice() {
        owed += lane_owed(lane);
    }
    owed
}

/// How many events a rank owes for the entries of the queue with a number; 0 where there is no such queue.
pub fn owed_at(queues: &Sequence<Queue>, queue: u64) -> u32
    requires { owed_at queues.now queue < 2 ^ 32 }
    ensures { result ≡ owed_at queues.now queue }
{
    match queues.get(queue as usize) {
        Some(q) => queue_owed(q),
        None => 0,
    }
}
