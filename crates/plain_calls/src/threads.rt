//! The state of a thread in the posts of its rank: absent, active (`Running`) or ended.

ghost use Rattle.std.specs.Prelude.{◌≡◌, slice_set};
ghost use Rattle.gaspi_model.specs.State.{thread_at, is_running};
ghost use Rattle.gaspi_model.specs.Step.{is_there};
ghost use Rattle.gaspi_model.specs.declared.states.ThreadState.TheVariants.{Ended};

use gaspi_model::{Posts, ThreadState};
use gaspi_types::ThreadId;

/// The state of a thread; absent for a thread that the posts do not list.
pub fn thread_at(posts: &Posts, thread: ThreadId) -> ThreadState
    ensures { result ≡ thread_at posts.now thread }
{
    match posts.threads.get(thread.index()) {
        Some(state) => *state,
        None => ThreadState::Absent,
    }
}

/// Whether a thread has a section: it is active or has ended.
pub fn is_there(state: ThreadState) -> bool
    ensures { result ≡ is_there state }
{
    !matches!(state, ThreadState::Absent)
}

/// Whether a thread is active: it has a section and has not ended.
pub fn is_running(state: ThreadState) -> bool
    ensures { result ≡ is_running state }
{
    matches!(state, ThreadState::Running)
}

/// Makes the state of a thread ended. The rest of the posts stays.
pub fn end_thread(posts: &mut Posts, thread: ThreadId)
    ensures { posts.new ≡ record posts.old { threads = slice_set posts.old.threads thread Ended } }
{
    let place = thread.index();
    if place < posts.threads.len() {
        *posts.threads.at_mut(place) = ThreadState::Ended;
    }
}
