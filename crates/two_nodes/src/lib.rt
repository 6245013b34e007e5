//! A world of two ranks and group 0 that one thread drives, without a lock: each call is one look, and each transfer is made when it
//! is asked for.
//!
//! Nothing waits here and nothing is shared: the code that drives the world says what comes next. Each event is made by the nodes
//! that it reaches, which are lent for it. Contracts say that it is a step of the machine, and that the nodes are those of the state
//! after it. `own` is the node of the rank that acts, `peer` that of the other rank, and `places` the place of the next event.
#![tactic(auto)]

mod calls;
mod clients;
mod looks;
mod moves;
mod stops;
mod transfers;
mod two_nodes;

pub use stops::CallStop;
pub use two_nodes::{TwoNodes, has_two_callers, is_driven};
