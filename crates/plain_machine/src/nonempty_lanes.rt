//! Lanes by their names, and the list of the nonempty lanes, by origin, queue and target: `standing` is that list, as the machine
//! stores it. A call *names* a lane where it adds it to the list. (GASPI: one-sided communication)

ghost use Rattle.std.specs.Prelude.{◌≡◌, ◌≢◌, ◌<◌, ◌≤◌, List, [], length, true, false, vec_len, vec_capacity};
ghost use Rattle.std.specs.List.{filter, insert, remove, prefix_len};
ghost use Rattle.std.specs.List.Sorted.{IsPartitionedBy};
ghost use Rattle.std.specs.Option.{option_copied};
ghost use Rattle.gaspi_model.specs.declared.states.Posts.{Posts};
ghost use Rattle.plain_machine.specs.NonemptyLanes.{is_before, is_elsewhere, lane_queue, queue_entries, lane_entries, unbroken_entries, post_lane, nonempty_lanes, nonempty_lanes_of};
ghost use Rattle.plain_machine.specs.Looking.{look_lane, look_purge};

use gaspi_model::Posts;
use gaspi_types::{Call, Entry, Invocation, Queue, QueueId, RankId, Sequence};
use plain_calls::{Evaluation, purged_queue};

/// The name of a lane.
#[derive(Clone, Copy, Debug, PartialEq, Eq)]
pub struct LaneId {
    /// The rank that posted its entries.
    pub origin: RankId,
    /// The queue.
    pub queue: QueueId,
    /// The other rank of its entries.
    pub target: RankId,
}

/// Whether a lane comes before another in the order of origin, queue and target.
fn is_before(a: &LaneId, b: &LaneId) -> bool
    ensures { result ≡ is_before a.now b.now }
{
    if a.origin != b.origin {
        return a.origin.number() < b.origin.number();
    }
    if a.queue != b.queue {
        return a.queue.number() < b.queue.number();
    }
    a.target.number() < b.target.number()
}

/// How many of these lanes, which are in that order, come before a lane: the index at which it is, or goes; found by halves.
fn place_among(lanes: &[LaneId], id: &LaneId) -> usize
    requires { IsPartitionedBy (λ x. is_before x id.now) lanes.now }
    ensures place { result ≡ prefix_len (λ x. is_before x id.now) lanes.now }
    ensures bound { result ≤ length lanes.now }
{
    lanes.partition_point(|named| is_before(named, id))
}

/// The nonempty lanes of a rank, among those of all ranks; found by halves.
pub fn lanes_of_rank(lanes: &[LaneId], rank: RankId) -> &[LaneId]
    ensures { (posts : List Posts) → lanes.now ≡ nonempty_lanes posts → result.now ≡ nonempty_lanes_of posts rank }
{
    let earlier = lanes.partition_point(|id| id.origin.number() < rank.number());
    let (_, others) = lanes.split_at(earlier);
    let count = others.partition_point(|id| id.origin.number() <= rank.number());
    let (own, _) = others.split_at(count);
    own
}

/// The queue of a lane; None where there is none.
fn lane_queue<'a>(posts: &'a Sequence<Posts>, id: &LaneId) -> Option<&'a Queue>
    ensures { option_copied result ≡ lane_queue posts.now id.now }
{
    let posts = posts.get(id.origin.index())?;
    posts.queues.get(id.queue.index())
}

/// The entries of a queue's lane to a target; none where there is no such lane.
fn queue_entries(q: &Queue, target: RankId) -> &[Entry]
    ensures { result.now ≡ queue_entries q.now target }
{
    match q.lanes.get(target.index()) {
        Some(lane) => lane.as_slice(),
        None => &[],
    }
}

/// Whether a lane has an entry.
pub fn has_entry(posts: &Sequence<Posts>, id: &LaneId) -> bool
    ensures none { result ≡ false → lane_entries posts.now id.now ≡ [] }
    ensures some { result ≡ true → lane_entries posts.now id.now ≢ [] }
{
    match lane_queue(posts, id) {
        Some(q) => !queue_entries(q, id.target).is_empty(),
        None => false,
    }
}

/// The entries of a lane of an unbroken queue, in any phase; none where the queue is broken. It does not ask the open count.
pub fn open_entries<'a>(posts: &'a Sequence<Posts>, id: &LaneId) -> &'a [Entry]
    ensures { result.now ≡ unbroken_entries posts.now id.now }
{
    match lane_queue(posts, id) {
        Some(q) if q.broken.is_none() => queue_entries(q, id.target),
        Some(_) | None => &[],
    }
}

/// The lane from `rank` to a target by a queue; None where one is over its range.
fn post_lane(rank: RankId, target: u64, queue: u64) -> Option<LaneId>
    ensures { result ≡ post_lane rank target queue }
{
    if target >= 16 || queue >= 8 {
        return None;
    }
    Some(LaneId {
        origin: rank,
        queue: QueueId::of(queue as u32),
        target: RankId::of(target as u32),
    })
}

/// The lane to which a call posts; None where it posts nothing, and where it is recorded with a refusal or a timeout.
pub fn look_lane(invocation: &Invocation<'_>, look: &Evaluation) -> Option<LaneId>
    ensures { result ≡ look_lane invocation.now.caller.rank invocation.now.call.now look.now }
{
    if look.is_refused_or_timeout() {
        return None;
    }
    match invocation.row.posting {
        Some(posting) => post_lane(invocation.caller.rank, posting.rank, posting.queue),
        None => None,
    }
}

/// The queue that a call purges; None where it purges none, and where it is recorded with a refusal or a timeout.
pub fn look_purge(call: &Call, look: &Evaluation) -> Option<u64>
    ensures { result ≡ look_purge call.now look.now }
{
    if look.is_refused_or_timeout() {
        return None;
    }
    purged_queue(call)
}

/// Adds a lane to the nonempty lanes, at its index in their order. The list has capacity for it.
pub fn insert_lane(standing: &mut Vec<LaneId>, id: LaneId)
    requires parted { IsPartitionedBy (λ x. is_before x id) standing.old.items }
    requires room { vec_len standing.old < vec_capacity standing.old }
    ensures { standing.new.items ≡ insert standing.old.items (prefix_len (λ x. is_before x id) standing.old.items) id }
{
    let place = place_among(standing, &id);
    let _named = standing.insert(place, id);
}

/// Removes what is at the index of a lane in the nonempty lanes: the lane itself, where it is among them. The list has an item
/// there.
pub fn remove_lane(standing: &mut Vec<LaneId>, id: &LaneId)
    requires parted { IsPartitionedBy (λ x. is_before x id.now) standing.old.items }
    requires there { prefix_len (λ x. is_before x id.now) standing.old.items < length standing.old.items }
    ensures { standing.new.items ≡ remove standing.old.items (prefix_len (λ x. is_before x id.now) standing.old.items) }
{
    let place = place_among(standing, id);
    let _named = standing.remove(place);
}

/// Removes all lanes of an origin's queue from the nonempty lanes. No entry is looked at.
pub fn remove_queue_lanes(standing: &mut Vec<LaneId>, origin: RankId, queue: u64)
    ensures { standing.new.items ≡ filter (is_elsewhere origin queue) standing.old.items }
{
    standing.retain(|id| id.origin != origin || u64::from(id.queue.number()) != queue);
}
