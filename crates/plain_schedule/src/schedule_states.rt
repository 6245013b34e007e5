//! What a schedule has between two iterations. The iterations are in `moves`.

use gaspi_types::{CallerId, Event, Sequence};
use plain_machine::Machine;
use rank_script::{Cursor, RunOutcome};

/// A caller that has not ended.
#[derive(Debug, Drop)]
pub struct ActiveCaller<'a> {
    /// The caller.
    pub caller: CallerId,
    /// How far the run of its script has come.
    pub cursor: Cursor<'a>,
    /// How many looks its present call has had.
    pub looks: u32,
}

/// A caller that has ended, and how the run of its script ended.
#[derive(Clone, Copy, Debug, PartialEq, Eq)]
pub struct EndedCaller {
    /// The caller.
    pub caller: CallerId,
    /// How the run of its script ended.
    pub outcome: RunOutcome,
}

/// What a schedule has after some iterations, to which the next one is made.
#[derive(Debug, Drop)]
pub struct ScheduleState<'a> {
    /// The number of the generator.
    pub x: u32,
    /// The machine, in the state after the events so far.
    pub state: Machine,
    /// The callers that have not ended, by rank and thread.
    pub active: Sequence<ActiveCaller<'a>>,
    /// Those that have ended, in the order of their ends.
    pub ended: Sequence<EndedCaller>,
    /// The events so far.
    pub journal: Sequence<Event>,
}
