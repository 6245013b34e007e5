//! Counts over the entries of a queue, so that no call walks over them: they are raised and lowered as entries come, change their
//! phase, and go.

ghost use Rattle.std.specs.Prelude.{◌≡◌, ◌<◌, ◌≤◌, ℕ, slice_index};
ghost use Rattle.post_queue.specs.QueueCounts.{no_counts, with_entry, without_entry, with_user, without_user, AreBounded};

use crate::kinds::{PhaseKind, awaited_count, events_owed, used_segment};
use gaspi_types::Kind;

/// Counts over the entries of a queue.
#[derive(Debug, Drop)]
pub struct QueueCounts {
    /// How many are awaited.
    pub awaited: u32,
    /// How many events are owed for them.
    pub owed: u32,
    /// For each own segment how many of them use it.
    pub users: [u32; 32],
}

/// Counts one entry more that uses the segment `used`, if there is one.
fn raise_user(users: &mut [u32; 32], used: Option<u32>)
    requires { (segment : ℕ) → slice_index users.old segment ≤ 65535 }
    ensures { users.new ≡ with_user used users.old }
{
    match used {
        None => {}
        Some(segment) => {
            let place = segment as usize;
            if place < users.len() {
                users[place] += 1;
            }
        }
    }
}

/// Counts one entry less that uses the segment `used`, if there is one.
fn lower_user(users: &mut [u32; 32], used: Option<u32>)
    ensures { users.new ≡ without_user used users.old }
{
    match used {
        None => {}
        Some(segment) => {
            let place = segment as usize;
            if place < users.len() {
                users[place] = users[place].saturating_sub(1);
            }
        }
    }
}

impl QueueCounts {
    /// The counts of a queue with no entry.
    pub fn new() -> QueueCounts
        ensures { result ≡ no_counts }
    {
        QueueCounts {
            awaited: 0,
            owed: 0,
            users: [0; 32],
        }
    }

    /// Counts an entry of this kind in this phase.
    pub fn add(&mut self, kind: &Kind, progress: PhaseKind)
        requires { AreBounded self.old }
        ensures { self.new ≡ with_entry self.old kind.now progress }
    {
        self.awaited += awaited_count(kind, progress);
        self.owed += events_owed(progress);
        raise_user(&mut self.users, used_segment(kind, progress));
    }

    /// Counts an entry of this kind in this phase no more.
    pub fn subtract(&mut self, kind: &Kind, progress: PhaseKind)
        ensures { self.new ≡ without_entry self.old kind.now progress }
    {
        self.awaited = self.awaited.saturating_sub(awaited_count(kind, progress));
        self.owed = self.owed.saturating_sub(events_owed(progress));
        lower_user(&mut self.users, used_segment(kind, progress));
    }
}
