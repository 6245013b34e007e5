//! What the GASPI machine is: its state, its step, its histories and their laws.
//!
//! Of code it has the types of the state; what ranks have at the start, which alone takes memory; and the rules that the
//! machine in memory, the stores of a rank and scripts share: to compare replies and arguments, what a collective is refused
//! for, whether it resumes a pending one, and the reduction of an allreduce. (GASPI: collectives, timeouts)
#![tactic(auto)]

mod collective_checks;
mod comparisons;
mod group_members;
mod laws;
mod notification_laws;
mod openings;
mod pendings;
mod reductions;
mod states;

pub use collective_checks::{check_count, check_fits, check_type};
pub use comparisons::{same_args, same_coll, same_numbers, same_reply};
pub use group_members::{Members, members_of};
pub use laws::{
    changes, coarser_locality, collectives, corruption, enabled, endings, groups, history_lengths,
    listing, locality, messages, notification_order, prefixes, replies, settling, soundness,
};
pub use notification_laws::{contribution_counts, notification_values};
pub use openings::{
    declared_size, opening_corrupt, opening_table, opening_thread, opening_threads,
};
pub use pendings::resume;
pub use reductions::reduce;
pub use states::{Memory, Posts, Shard, State, StepFault, ThreadState, Why};
