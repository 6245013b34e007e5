//! The GASPI machine as one state in memory, driven by one thread: the commands `step`, `check` and `why` run on it. *Plain* is said
//! of that one state, in contrast to the nodes of `rank_node`.
#![tactic(auto)]

mod footprints;
mod listing;
mod looking;
mod machine;
mod nonempty_lanes;
mod opening;
mod rank_counts;
mod ranks;
mod steps;
mod transfers;

pub use machine::{Machine, Transfers};
