//! The front of a lane, the kind of its entry, and the next movable lane: which transfer a worker makes next. Nothing changes. The
//! functions of `Node` are those of its posts. (GASPI: one-sided communication)

ghost use Rattle.std.specs.Prelude.{◌≡◌, ℕ, true, false, Some, IfSome, IfNone, IsSome};
ghost use Rattle.gaspi_types.specs.declared.entries.Entry.{Entry};
ghost use Rattle.post_queue.specs.MovableLanes.{is_movable_lane, IsNextLane};
ghost use Rattle.rank_node.specs.Fronts.{front_of, front_entry, IsFront};

use crate::node_posts::NodePosts;
use crate::nodes::Node;
use gaspi_types::{Kind, QueueId, RankId, Transfer};

impl NodePosts {
    /// The front of a lane: the put of its first carried entry, which is then the head of the lane, or else the take of its first
    /// posted one. None exactly where there is no such queue or lane, the queue is broken, or the lane has no such entry: then no
    /// transfer of the lane is enabled.
    pub fn front(&self, queue: QueueId, target: RankId) -> Option<Transfer>
        ensures value { result ≡ front_of self.now queue target }
        ensures front { IfSome result (IsFront self.now) }
    {
        let place = u64::from(queue.number());
        if let Some(entry) = self.lanes.front_carried(place, target) {
            return Some(Transfer {
                origin: self.me,
                queue,
                target,
                number: entry.number,
                put: true,
            });
        }
        let entry = self.lanes.front_posted(place, target)?;
        Some(Transfer {
            origin: self.me,
            queue,
            target,
            number: entry.number(),
            put: false,
        })
    }

    /// What the entry of a transfer asks for that is the front of its lane.
    pub(crate) fn kind(&self, t: &Transfer) -> Kind
        requires { IsSome (front_entry self.now t.now) }
        ensures { IfSome (front_entry self.now t.now) (λ (e : Entry). result ≡ e.kind) }
    {
        let queue = u64::from(t.queue.number());
        if t.put {
            self.lanes.front_carried(queue, t.target).unwrap().kind
        } else {
            *self.lanes.front_posted(queue, t.target).unwrap().kind()
        }
    }

    /// The next movable lane after the lane `after`, in cyclic order by queue and target. None exactly where no lane is movable.
    pub fn next_lane(&self, after: (QueueId, RankId)) -> Option<(QueueId, RankId)>
        ensures none { IfNone result ((queue target : ℕ) → is_movable_lane self.now.posts.queues queue target ≡ false) }
        ensures next { IfSome result (IsNextLane self.now.posts.queues after) }
    {
        self.lanes.next_lane(after)
    }
}

impl Node {
    /// The front of a lane of the rank: the put of its first carried entry, or else the take of its first posted one. None exactly
    /// where no transfer of the lane is enabled.
    pub fn front(&self, queue: QueueId, target: RankId) -> Option<Transfer>
        ensures value { result ≡ front_of self.now.posts queue target }
        ensures front { IfSome result (IsFront self.now.posts) }
    {
        self.posts.front(queue, target)
    }

    /// What the entry of a transfer asks for that is the front of its lane.
    pub fn kind(&self, t: &Transfer) -> Kind
        requires { IsFront self.now.posts t.now }
        ensures { IfSome (front_entry self.now.posts t.now) (λ (e : Entry). result ≡ e.kind) }
    {
        self.posts.kind(t)
    }

    /// The next movable lane after the lane `after`, in cyclic order by queue and target; it has a front. Calls that go on from the
    /// lane of the last answer reach every movable lane. None exactly where no lane is movable: then no transfer of the rank is
    /// enabled, and one word was read.
    pub fn next_lane(&self, after: (QueueId, RankId)) -> Option<(QueueId, RankId)>
        ensures none { IfNone result ((queue target : ℕ) → is_movable_lane self.now.posts.posts.queues queue target ≡ false) }
        ensures next { IfSome result (IsNextLane self.now.posts.posts.queues after) }
    {
        self.posts.next_lane(after)
    }
}
