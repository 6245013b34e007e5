//! The take and the put of a front entry, on the stores that they change: the lanes and the state vector of the origin, and the
//! memory that they work on. The rank journal and the counts are not changed here, but in `posts_transfers`. The *next* entry of a
//! lane is its first posted one for a take, and its first carried one for a put. (GASPI: one-sided communication)

ghost use Rattle.std.specs.Prelude.{◌≡◌, true, slice_set, IfSome, IsSome, IsSomeAnd};
ghost use Rattle.gaspi_types.specs.declared.entries.Entry.{Entry};
ghost use Rattle.gaspi_model.specs.Transfers.{source_bytes, take_outcome, put_outcome, memory_put};
ghost use Rattle.post_queue.specs.LanesStates.{front_posted_of, front_carried_of, head_of, with_queue};
ghost use Rattle.post_queue.specs.Steps.{put_done_in, head_failed_in};
ghost use Rattle.rank_node.specs.Transfers.{FitsTaken, take_change, put_change, marked, memory_left};
ghost use Rattle.rank_node.specs.Values.{MemoryValue};

use crate::node_memory::NodeMemory;
use gaspi_types::{Outcome, RankId, Sequence};
use post_queue::Lanes;

/// Makes a target corrupt in a state vector. (GASPI: state vector)
fn mark_corrupt(corrupt: &mut Sequence<bool>, target: RankId)
    ensures { corrupt.new ≡ slice_set corrupt.old target true }
{
    let rank = target.index();
    if rank < corrupt.len() {
        *corrupt.at_mut(rank) = true;
    }
}

/// Makes the take of the first posted entry of a lane: it becomes carried, with its bytes from `source`, or it fails, which breaks
/// the queue and makes the target corrupt. It gives the outcome. It takes no memory.
pub(crate) fn take_next(
    lanes: &mut Lanes,
    corrupt: &mut Sequence<bool>,
    source: &NodeMemory,
    queue: u64,
    target: RankId,
) -> Outcome
    requires { IsSomeAnd (front_posted_of lanes.old queue target) (λ (e : Entry). FitsTaken source.now.memory e.kind (take_outcome source.now.memory e.kind)) }
    ensures outcome { IfSome (front_posted_of lanes.old queue target) (λ (e : Entry). result ≡ take_outcome source.now.memory e.kind) }
    ensures lanes { IfSome (front_posted_of lanes.old queue target) (λ (e : Entry). lanes.new ≡ with_queue lanes.old queue (take_change target (source_bytes source.now.memory e.kind) result)) }
    ensures corrupt { corrupt.new ≡ marked corrupt.old target result }
{
    let kind = *lanes.front_posted(queue, target).unwrap().kind();
    match source.take_outcome(&kind) {
        Outcome::Applied => {
            lanes.mark_carried(queue, target, source.taken_bytes(&kind));
            Outcome::Applied
        }
        Outcome::Failed => {
            lanes.fail_posted(queue, target);
            mark_corrupt(corrupt, target);
            Outcome::Failed
        }
    }
}

/// The outcome that the put of the first carried entry of a lane has.
fn next_outcome(lanes: &Lanes, destination: &NodeMemory, queue: u64, target: RankId) -> Outcome
    requires { IsSome (front_carried_of lanes.now queue target) }
    ensures { IfSome (front_carried_of lanes.now queue target) (λ (e : Entry). result ≡ put_outcome destination.now.memory e.kind) }
{
    let entry = lanes.front_carried(queue, target).unwrap();
    destination.put_outcome(&entry.kind)
}

/// Makes the put of the first carried entry of a lane, where it does not fail: the entry stores its bytes or sets its slot, and
/// goes. It takes no memory.
fn apply_put(lanes: &mut Lanes, destination: &mut NodeMemory, queue: u64, target: RankId)
    requires { IsSome (front_carried_of lanes.old queue target) }
    ensures lanes { lanes.new ≡ with_queue lanes.old queue (put_done_in target) }
    ensures memory { IfSome (front_carried_of lanes.old queue target) (λ (e : Entry). destination.new ≡ record destination.old { memory = memory_put destination.old.memory e }) }
    ensures head { IfSome (front_carried_of lanes.old queue target) (λ (e : Entry). head_of lanes.old queue target ≡ Some e) }
{
    let entry = lanes.front_carried(queue, target).unwrap();
    destination.put(entry);
    lanes.remove(queue, target);
}

/// Makes the put of the first carried entry of a lane, where it fails: the entry stays as failed, the queue is broken, and the
/// target is corrupt. It takes no memory.
fn fail_put(lanes: &mut Lanes, corrupt: &mut Sequence<bool>, queue: u64, target: RankId)
    requires { IsSome (front_carried_of lanes.old queue target) }
    ensures lanes { lanes.new ≡ with_queue lanes.old queue (head_failed_in target) }
    ensures corrupt { corrupt.new ≡ slice_set corrupt.old target true }
    ensures head { IfSome (front_carried_of lanes.old queue target) (λ (e : Entry). head_of lanes.old queue target ≡ Some e) }
{
    let _entry = lanes.front_carried(queue, target).unwrap();
    lanes.fail_carried(queue, target);
    mark_corrupt(corrupt, target);
}

/// Makes the put of the first carried entry of a lane, and gives the outcome: it is applied, or it fails where its segment is gone.
/// It takes no memory.
pub(crate) fn put_next(
    lanes: &mut Lanes,
    corrupt: &mut Sequence<bool>,
    destination: &mut NodeMemory,
    queue: u64,
    target: RankId,
) -> Outcome
    requires { IsSome (front_carried_of lanes.old queue target) }
    ensures outcome { IfSome (front_carried_of lanes.old queue target) (λ (e : Entry). result ≡ put_outcome destination.old.memory e.kind) }
    ensures head { IfSome (front_carried_of lanes.old queue target) (λ (e : Entry). head_of lanes.old queue target ≡ Some e) }
    ensures lanes { lanes.new ≡ with_queue lanes.old queue (put_change target result) }
    ensures corrupt { corrupt.new ≡ marked corrupt.old target result }
    ensures memory { IfSome (front_carried_of lanes.old queue target) (λ (e : Entry). destination.new ≡ record destination.old { memory = memory_left destination.old.memory e result }) }
{
    let outcome = next_outcome(lanes, destination, queue, target);
    match outcome {
        Outcome::Applied => apply_put(lanes, destination, queue, target),
        Outcome::Failed => fail_put(lanes, corrupt, queue, target),
    }
    outcome
}
