//! Effects on the posts of a rank, of calls that were done and are no collectives. A call was done where its reply is neither a
//! refusal nor a timeout. None takes memory, and the count of events stays: `recording` adds the event. The functions of single
//! changes require what the look has found; `change` and `affect` choose among them by the call.

ghost use Rattle.std.specs.Prelude.{◌≡◌, ◌+◌, ◌<◌, ◌≤◌, ◌^◌, Ok, IsOk, IfSome, IsSomeAnd, Some, slice_set};
ghost use Rattle.gaspi_types.specs.CallRows.{row_of};
ghost use Rattle.gaspi_types.specs.Groups.{next_group, building_at, delete_checks};
ghost use Rattle.gaspi_types.specs.SegmentTables.{next_generation};
ghost use Rattle.gaspi_types.specs.declared.replies.Reply.TheVariants.{Done};
ghost use Rattle.gaspi_model.specs.Calls.{plain_effect, posts_effect};
ghost use Rattle.gaspi_model.specs.GroupCalls.{group_create_effect, group_add_effect, group_delete_effect};
ghost use Rattle.gaspi_model.specs.Posting.{with_post};
ghost use Rattle.gaspi_model.specs.QueueCalls.{wait_result, closed, purged};
ghost use Rattle.gaspi_model.specs.SegmentCalls.{with_own, without_own, with_known};
ghost use Rattle.gaspi_model.specs.declared.states.ThreadState.TheVariants.{Ended};

use crate::node_counts::running_count;
use crate::node_posts::NodePosts;
use gaspi_model::ThreadState;
use gaspi_types::{Call, Extent, GroupAdd, Posting, RankId, ThreadId};
use post_queue::Entries;
use segment_store::{add_own, remove_own, set_known};

impl NodePosts {
    ghost use Rattle.std.specs.Prelude.{◌≡◌, ◌+◌, ◌<◌, ◌≤◌, ◌^◌, Ok, IsOk, IfSome, IsSomeAnd, Some, slice_set, ◌++◌, ◌∷◌, [], length, option_copied};
    ghost use Rattle.rank_node.specs.Effects.{with_posts, MayPost};

    /// Appends entries to the end of the lane `to`, and counts them as open and as owed. Its queue takes them, as the look has
    /// found. (GASPI: write, read, notify)
    pub(crate) fn post(&mut self, to: Posting, entries: Entries)
        requires { MayPost self.old to entries }
        ensures { self.new ≡ with_posts self.old (with_post self.old.posts to.queue to.rank (Ok entries)) }
    {
        let target = RankId::of(to.rank as u32);
        match self.lanes.post(to.queue, target, entries) {
            Ok(()) => {}
            Err(_refusal) => unreachable!(),
        }
        self.owed = self.lanes.owed();
    }

    /// Makes the open count of a queue 0. A `wait` for the queue would be done. (GASPI: wait)
    fn close_wait(&mut self, queue: u64)
        requires { wait_result self.old.posts (record { queue = queue }) ≡ Ok (Some Done) }
        ensures { self.new ≡ with_posts self.old (closed self.old.posts queue) }
    {
        self.lanes.close_wait(queue);
        self.owed = self.lanes.owed();
    }

    /// Drops all entries of a queue, and makes its open count 0 and the queue unbroken. The state vector stays. Where there is no
    /// such queue nothing changes. (GASPI: queue_purge)
    fn purge(&mut self, queue: u64)
        ensures { self.new ≡ with_posts self.old (purged self.old.posts queue) }
    {
        match self.lanes.purge(queue) {
            Ok(()) => {}
            Err(_refusal) => {}
        }
        self.owed = self.lanes.owed();
    }

    /// Adds an extent to the table of own segments, in the next generation of its id. (GASPI: segment_alloc)
    pub(crate) fn add_own(&mut self, seg: u64, size: u32)
        requires { next_generation self.old.posts.segments.next_generations seg + 1 < 2 ^ 32 }
        ensures { self.new ≡ with_posts self.old (with_own self.old.posts seg size) }
    {
        add_own(&mut self.segments, seg, size);
    }

    /// Removes an extent from the table of own segments. (GASPI: segment_delete)
    fn remove_own(&mut self, seg: u64)
        ensures { self.new ≡ with_posts self.old (without_own self.old.posts seg) }
    {
        remove_own(&mut self.segments, seg);
    }

    /// Makes a segment of `owner` known with this extent, or unknown where that is None. (GASPI: segment_register)
    pub(crate) fn set_known(&mut self, owner: RankId, seg: u64, extent: Option<Extent>)
        ensures { self.new ≡ with_posts self.old (with_known owner seg extent self.old.posts) }
    {
        set_known(&mut self.segments, owner, seg, extent);
    }

    /// Makes the group with the next id: building, with no rank. (GASPI: group_create)
    fn create_group(&mut self)
        requires { IsOk (next_group self.old.posts.groups) }
        ensures { self.new ≡ with_posts self.old (group_create_effect self.old.posts) }
    {
        match self.groups.create() {
            Ok(_id) => {}
            Err(_refusal) => unreachable!(),
        }
    }

    /// Adds a rank to a group that is building. A rank that is in the group already changes nothing. (GASPI: group_add)
    fn add_to_group(&mut self, call: &GroupAdd)
        requires rank { call.now.rank < 16 }
        requires group { IsOk (building_at self.old.posts.groups call.now.group) }
        ensures { self.new ≡ with_posts self.old (group_add_effect self.old.posts call.now) }
    {
        match self.groups.add(call.group, RankId::of(call.rank as u32)) {
            Ok(()) => {}
            Err(_refusal) => unreachable!(),
        }
    }

    /// Removes the handle of a group, which is there and is not group 0. (GASPI: group_delete)
    fn delete_group(&mut self, group: u64)
        requires { IsOk (delete_checks self.old.posts.groups group) }
        ensures { self.new ≡ with_posts self.old (group_delete_effect self.old.posts (record { group = group })) }
    {
        match self.groups.delete(group) {
            Ok(()) => {}
            Err(_refusal) => unreachable!(),
        }
    }

    /// Makes the state of a thread ended.
    fn end_thread(&mut self, thread: ThreadId)
        ensures { self.new ≡ with_posts self.old (record self.old.posts { threads = slice_set self.old.posts.threads thread Ended }) }
    {
        let place = thread.index();
        if place < self.threads.len() {
            *self.threads.at_mut(place) = ThreadState::Ended;
        }
        self.running = running_count(&self.threads);
    }

    ghost use Rattle.rank_node.specs.Effects.{MayChangePosts, MayAffectPosts};

    /// Makes the effect on its rank's posts of a call that was done, is no collective and posts nothing. The count of events stays.
    /// `thread` matters for the end alone. It takes no memory.
    fn change(&mut self, thread: ThreadId, call: &Call)
        requires { MayChangePosts self.old call.now }
        ensures { self.new ≡ with_posts self.old (plain_effect self.old.posts thread call.now) }
    {
        match call {
            Call::Alloc(call) => self.add_own(call.seg, call.size as u32),
            Call::Delete(call) => self.remove_own(call.seg),
            Call::Wait(call) => self.close_wait(call.queue),
            Call::Purge(call) => self.purge(call.queue),
            Call::GroupCreate => self.create_group(),
            Call::GroupAdd(call) => self.add_to_group(call),
            Call::GroupDelete(call) => self.delete_group(call.group),
            Call::End => self.end_thread(thread),
            _ => {}
        }
    }

    /// Appends the reserved entries of a post to the end of the lane `to`. They are there, and `entries` is None after that.
    /// (GASPI: write, read, notify)
    fn post_reserved(&mut self, to: Posting, entries: &mut Option<Entries>)
        requires { IsSomeAnd entries.old (λ entries. MayPost self.old to entries) }
        ensures { IfSome entries.old (λ entries. self.new ≡ with_posts self.old (with_post self.old.posts to.queue to.rank (Ok entries))) }
    {
        match entries.take() {
            Some(entries) => self.post(to, entries),
            None => unreachable!(),
        }
    }

    /// Makes the effect on its rank's posts of a call that was done and is no collective: of a post by `entries`, which is None
    /// after that, of any other call by `change`. The count of events stays. It takes no memory.
    pub(crate) fn affect(
        &mut self,
        thread: ThreadId,
        call: &Call,
        posting: Option<Posting>,
        entries: &mut Option<Entries>,
    )
        requires posting { posting ≡ (row_of call.now).posting }
        requires may { MayAffectPosts self.old posting call.now entries.old }
        ensures { self.new ≡ with_posts self.old (posts_effect self.old.limits self.old.me self.old.posts thread call.now) }
    {
        match posting {
            Some(to) => self.post_reserved(to, entries),
            None => self.change(thread, call),
        }
    }
}
