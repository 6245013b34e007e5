//! The take and the put of a front entry, on the posts of its origin and the memory that they work on, with the event in the rank
//! journal. (GASPI: one-sided communication)

ghost use Rattle.std.specs.Prelude.{◌≡◌, Some, IfSome};
ghost use Rattle.gaspi_types.specs.declared.entries.Entry.{Entry};
ghost use Rattle.gaspi_model.specs.Transfers.{source_bytes, take_outcome, put_outcome};
ghost use Rattle.post_queue.specs.LanesStates.{front_posted_of, front_carried_of, head_of};
ghost use Rattle.rank_node.specs.Transfers.{lanes_of, take_of, put_of, posts_taken, posts_put, memory_left, recorded, MayTakeFrom, MayPutNext};

use crate::lane_transfers::{put_next, take_next};
use crate::node_memory::NodeMemory;
use crate::node_posts::NodePosts;
use gaspi_types::{Event, Outcome, Transfer};

impl NodePosts {
    /// Makes the take of the first posted entry of the lane of `t`, from `source`, and records it with its outcome at `place`. There
    /// is such an entry, its bytes fit, and the rank journal has room. It takes no memory.
    pub(crate) fn take_from(&mut self, source: &NodeMemory, place: u64, t: &Transfer)
        requires { MayTakeFrom self.old source.now.memory t.now }
        ensures { IfSome (front_posted_of (lanes_of self.old) t.now.queue t.now.target) (λ (e : Entry).
            self.new ≡ recorded self.old (posts_taken self.old.posts t.now.queue t.now.target (source_bytes source.now.memory e.kind) (take_outcome source.now.memory e.kind)) place (take_of t.now (take_outcome source.now.memory e.kind))) }
    {
        let queue = u64::from(t.queue.number());
        let outcome = take_next(&mut self.lanes, &mut self.corrupt, source, queue, t.target);
        self.owed = self.lanes.owed();
        let event = Event::Take(t.origin, t.queue, t.target, t.number, outcome);
        self.add_event(place, event);
    }

    /// Makes the put of the first carried entry of the lane of `t`, into `destination`, records it with its outcome at `place`, and
    /// gives the outcome. There is such an entry, which is the head of the lane, and the rank journal has room. It takes no memory.
    pub(crate) fn put_into(
        &mut self,
        destination: &mut NodeMemory,
        place: u64,
        t: &Transfer,
    ) -> Outcome
        requires { MayPutNext self.old t.now }
        ensures outcome { IfSome (front_carried_of (lanes_of self.old) t.now.queue t.now.target) (λ (e : Entry). result ≡ put_outcome destination.old.memory e.kind) }
        ensures head { IfSome (front_carried_of (lanes_of self.old) t.now.queue t.now.target) (λ (e : Entry). head_of (lanes_of self.old) t.now.queue t.now.target ≡ Some e) }
        ensures posts { self.new ≡ recorded self.old (posts_put self.old.posts t.now.queue t.now.target result) place (put_of t.now result) }
        ensures memory { IfSome (front_carried_of (lanes_of self.old) t.now.queue t.now.target) (λ (e : Entry). destination.new ≡ record destination.old { memory = memory_left destination.old.memory e result }) }
    {
        let queue = u64::from(t.queue.number());
        let outcome = put_next(
            &mut self.lanes,
            &mut self.corrupt,
            destination,
            queue,
            t.target,
        );
        self.owed = self.lanes.owed();
        let event = Event::Put(t.origin, t.queue, t.target, t.number, outcome);
        self.add_event(place, event);
        outcome
    }
}
