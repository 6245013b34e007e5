//! The posts of a rank as a node has them: their stores, what contracts see of them, and the functions on them that several files
//! need.

ghost use Rattle.std.specs.Prelude.{◌≡◌, ◌++◌, ◌∷◌, [], ◌<◌, ◌+◌, length};
ghost use Rattle.std.specs.Option.{option_copied};
ghost use Rattle.gaspi_types.specs.Tables.{item_at};
ghost use Rattle.gaspi_model.specs.Posting.{counted};
ghost use Rattle.gaspi_model.specs.State.{thread_at, is_running};

use gaspi_model::ThreadState;
use gaspi_types::{Buffer, Event, Limits, PlacedEvent, RankId, SegmentTable, Sequence, ThreadId};
use group_registry::Groups;
use post_queue::Lanes;
use std::marker::Model;
use timeout_state::Pending;

/// The posts of a rank, with its rank journal. Contracts see them as the machine's posts. Lanes, groups, pending collectives and
/// rank journal took all their memory at the start.
#[derive(Drop)]
pub struct NodePosts {
    /// The limits of the world.
    pub(crate) limits: Limits,
    /// The rank.
    pub(crate) me: RankId,
    /// Its queues.
    pub(crate) lanes: Lanes,
    /// Its state vector: which ranks are corrupt for this one. (GASPI: state vector)
    pub(crate) corrupt: Sequence<bool>,
    /// Its table of segments.
    pub(crate) segments: SegmentTable,
    /// Its handles.
    pub(crate) groups: Groups,
    /// Its pending collectives.
    pub(crate) pending: Pending,
    /// The state of each of its four threads.
    pub(crate) threads: Sequence<ThreadState>,
    /// How many events the rank owes for the entries of its lanes.
    pub(crate) owed: u64,
    /// How many of its threads are active.
    pub(crate) running: usize,
    /// Its rank journal, with capacity for all events that the rank may record.
    pub(crate) journal: Buffer<PlacedEvent>,
}

impl Model for NodePosts {
    ghost use Rattle.rank_node.specs.Values.{PostsValue};

    ghost Value = { PostsValue };

    ghost use Rattle.rank_node.specs.Views.{posts_of, IsNodePosts};

    ghost view = { posts_of };

    ghost invariant = { IsNodePosts };
}

impl NodePosts {
    ghost use Rattle.rank_node.specs.Values.{PostsValue};

    /// The collective of the rank that is pending on a group; None where none is, also for a number over 7.
    pub(crate) fn pending_at(&self, group: u64) -> Option<&gaspi_types::PendingCollective>
        ensures { option_copied result ≡ item_at self.now.posts.pending group }
    {
        self.pending.named(group)
    }

    /// Whether a thread is active: it has a section and has not ended.
    pub(crate) fn is_running(&self, thread: ThreadId) -> bool
        ensures { result ≡ is_running (thread_at self.now.posts thread) }
    {
        matches!(self.threads.get(thread.index()), Some(ThreadState::Running))
    }

    /// Appends an event with its place to the rank journal, which makes the count of events one more. Nothing else changes. It takes
    /// no memory.
    pub(crate) fn add_event(&mut self, place: u64, event: Event)
        requires { self.old.posts.events < self.old.limits.events }
        ensures { self.new ≡ record self.old { posts = counted self.old.posts; journal = self.old.journal ++ record { place = place; event = event } ∷ [] } }
    {
        self.journal.push(PlacedEvent { place, event });
    }

    /// The rank journal. The rest of the posts is dropped.
    pub(crate) fn into_journal(self) -> Buffer<PlacedEvent>
        ensures { result.items ≡ self.journal }
    {
        let NodePosts { journal, .. } = self;
        journal
    }
}
