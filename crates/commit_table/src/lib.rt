//! One history under locks, committed by one addition.
//!
//! The state of a machine lies in shards. Threads share a `CommitTable` of them, and each has a `Pass`, by which it takes the shards
//! of an event, looks, commits the event by one atomic addition, and gives the shards back. What they commit is one legal history,
//! which exists in proofs alone. A contract sees a pass as what it knows (`PassView`): the history as it was seen, its own events, its
//! looks, and the shards that it holds. A shard value *stands for* a history where it is what the shard has after that history
//! (`Stands`).
//!
//! `specs/Machine.antt` says what a machine has to be, `specs/Rule.antt` what holds between any two atomic steps, and
//! `specs/Calls.antt` what each call asks and promises. No call of the table waits, and `CommitTable::new` alone takes memory.
//!
//! A thread that missed a shard waits by a `BackOff`, which can watch `Changes` of other threads. Two machines, `Counters` and
//! `TwoRanks`, serve tests, measures and proofs; `raised_by_two` lets two threads raise counters of one table.
#![tactic(auto)]

mod atomic_steps;
mod back_off;
mod changes;
mod close;
mod counter_tables;
mod counters;
mod pass;
mod races;
mod ranks;
mod seats;
mod shard_calls;
mod sharded;
mod shared_table;
mod steps;
mod table;
mod views;

pub use back_off::BackOff;
pub use changes::{Change, Changes, Watched};
pub use close::{ClosedTable, Tally};
pub use counter_tables::{CounterTable, close_counters, start_counters};
pub use counters::{
    CounterAnswer, CounterEvent, Counters, carry, raise, raise_both_held, raise_held,
};
pub use pass::{Note, Pass};
pub use races::{raise_often, raised_by_two};
pub use ranks::{PlacedRankEvent, RankEvent, RankProjection, TwoRanks, parts_are_the_history};
pub use sharded::Sharded;
pub use table::CommitTable;
pub use views::{LockOp, LockRecord, PassView, SeatView};
