//! Counts of changes, which a thread watches while it waits.

use crossbeam_utils::CachePadded;
use std::alloc::{AllocError, Global};
use std::sync::atomic::AtomicU64;
use std::sync::atomic::Ordering::SeqCst;

/// How often threads counted a change of each thing, modulo 2^64. A thing is a number from 0 on, to which the user of the counts gives a
/// meaning. A count says only that another try may be worth while: not what has changed, nor that all changes were counted. Each count
/// has a line of a processor's cache of its own.
#[derive(Drop)]
pub struct Changes {
    /// The counts, by thing.
    counts: Vec<CachePadded<AtomicU64>>,
}

impl Changes {
    /// The counts of the things 0 to `things` - 1, all 0. The only failure is out of memory.
    pub fn new(alloc: Global, things: usize) -> Result<Changes, AllocError> {
        let mut counts = Vec::with_capacity(alloc, things)?;
        for _ in 0..things {
            counts.push(CachePadded::new(AtomicU64::new(0)))?;
        }
        Ok(Changes { counts })
    }

    /// Counts a change of a thing. Of a number that is no thing nothing is counted.
    pub fn count_change(&self, thing: u32) {
        if let Some(count) = self.counts.get(thing as usize) {
            count.fetch_add(1, SeqCst);
        }
    }

    /// How often a change of the thing was counted; 0 of a number that is no thing.
    pub fn count(&self, thing: u32) -> u64 {
        match self.counts.get(thing as usize) {
            Some(count) => count.load(SeqCst),
            None => 0,
        }
    }
}

/// What a thread watches for while it pauses.
pub trait Watched {
    /// Whether it has come.
    fn has_come(&self) -> bool;
}

/// Whether a change of a thing, or of either of two, was counted since this was made: to be watched by a `BackOff`.
#[derive(Drop)]
pub struct Change<'a> {
    /// The counts.
    changes: &'a Changes,
    /// The thing.
    one: u32,
    /// The second thing, where there is one.
    other: Option<u32>,
    /// The sum of their counts when this was made.
    seen: u64,
}

impl<'a> Change<'a> {
    /// A change from now on, of a thing, and of another where there is one.
    pub fn of(changes: &'a Changes, one: u32, other: Option<u32>) -> Change<'a> {
        let seen = sum(changes, one, other);
        Change {
            changes,
            one,
            other,
            seen,
        }
    }
}

impl Watched for Change<'_> {
    /// Whether a change was counted since this was made.
    fn has_come(&self) -> bool {
        sum(self.changes, self.one, self.other) != self.seen
    }
}

/// The sum of the counts of a thing and of the other, where there is one, modulo 2^64.
fn sum(changes: &Changes, one: u32, other: Option<u32>) -> u64 {
    match other {
        Some(other) => changes.count(one).wrapping_add(changes.count(other)),
        None => changes.count(one),
    }
}
