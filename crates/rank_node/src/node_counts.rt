//! Questions that threads ask a node before a call: the room of its rank, the need of the call, and whether all its callers have
//! ended. Nothing changes. The functions of `Node` are those of its posts.

ghost use Rattle.std.specs.Prelude.{◌≡◌, ◌+◌, ◌-◌, count_by, not};
ghost use Rattle.std.specs.List.{list_any};
ghost use Rattle.gaspi_types.specs.CallRows.{row_of, need_of};
ghost use Rattle.gaspi_model.specs.State.{owed, is_running, thread_at};
ghost use Rattle.gaspi_model.specs.Step.{is_pending_on};

use crate::node_posts::NodePosts;
use crate::nodes::Node;
use gaspi_model::ThreadState;
use gaspi_types::{Invocation, Sequence};
use plain_calls::is_running;

/// How many of these threads are active.
pub(crate) fn running_count(threads: &Sequence<ThreadState>) -> usize
    ensures { result ≡ count_by is_running threads.now }
{
    threads
        .as_slice()
        .iter()
        .filter(|t| is_running(**t))
        .count()
}

/// Whether one of these threads is active.
fn has_running(threads: &Sequence<ThreadState>) -> bool
    ensures { result ≡ list_any is_running threads.now }
{
    threads.as_slice().iter().any(|t| is_running(*t))
}

impl NodePosts {
    /// The room of the rank: how many events it may record beside those that it owes.
    pub fn room(&self) -> u64
        ensures { result ≡ self.now.limits.events - (self.now.posts.events + owed self.now.posts) }
    {
        u64::from(self.limits.events)
            .saturating_sub(self.journal.len() as u64)
            .saturating_sub(self.owed)
            .saturating_sub(self.running as u64)
    }

    /// Whether a collective of the caller is pending on the group that its call names; false for a call that is no collective.
    /// (GASPI: timeouts)
    fn is_pending(&self, invocation: &Invocation<'_>) -> bool
        ensures { result ≡ is_pending_on invocation.now.caller.thread self.now.posts (row_of invocation.now.call.now).group }
    {
        match invocation.row.group {
            Some(id) => match self.pending_at(id) {
                Some(pending) => pending.thread.number() == invocation.caller.thread.number(),
                None => false,
            },
            None => false,
        }
    }

    /// The room that a call of a caller of this rank must find at its look. A collective that is not pending for the caller needs an
    /// event more, for its join. (own choice)
    pub fn need(&self, invocation: &Invocation<'_>) -> u64
        ensures { result ≡ need_of invocation.now.call.now (is_pending_on invocation.now.caller.thread self.now.posts (row_of invocation.now.call.now).group) (not (is_running (thread_at self.now.posts invocation.now.caller.thread))) }
    {
        let pending = self.is_pending(invocation);
        let ended = !self.is_running(invocation.caller.thread);
        invocation.row.need(pending, ended)
    }

    /// Whether no thread of the rank is active: all its callers have ended.
    pub fn all_ended(&self) -> bool
        ensures { result ≡ not (list_any is_running self.now.posts.threads) }
    {
        !has_running(&self.threads)
    }
}

impl Node {
    /// The room of the rank: how many events it may record beside those that it owes.
    pub fn room(&self) -> u64
        ensures { result ≡ self.now.posts.limits.events - (self.now.posts.posts.events + owed self.now.posts.posts) }
    {
        self.posts.room()
    }

    /// The room that a call of a caller of this rank must find at its look. A collective that is not pending for the caller needs an
    /// event more, for its join. (own choice)
    pub fn need(&self, invocation: &Invocation<'_>) -> u64
        ensures { result ≡ need_of invocation.now.call.now (is_pending_on invocation.now.caller.thread self.now.posts.posts (row_of invocation.now.call.now).group) (not (is_running (thread_at self.now.posts.posts invocation.now.caller.thread))) }
    {
        self.posts.need(invocation)
    }

    /// Whether no thread of the rank is active: all its callers have ended.
    pub fn all_ended(&self) -> bool
        ensures { result ≡ not (list_any is_running self.now.posts.posts.threads) }
    {
        self.posts.all_ended()
    }
}
