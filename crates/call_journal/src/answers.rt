//! The answers of `why`.

use gaspi_model::Why;
use gaspi_types::Sequence;

/// A write that a notification covers: the place of the call that posted it, its number, and the place of its put.
#[derive(Clone, Copy, Debug, PartialEq, Eq)]
pub struct CoveredWrite {
    pub post: u64,
    pub number: u32,
    pub put: u64,
}

/// The explanation of a place of a journal: which writes are covered by the notification that is put there.
#[derive(Debug, PartialEq, Eq, Drop)]
pub enum Explanation {
    /// Every write of the notification's lane that was posted before it, and not purged since, by rising number.
    Writes(Sequence<CoveredWrite>),
    /// The journal is legal, and at that place no notification is put: another event is there, or a put that failed, or none.
    NoNotification,
    /// The event at that place of the journal, from 0, is the first that is no step, for that cause.
    Illegal { place: u64, why: Why },
}
