//! The pending collectives of one rank, and how many looks a call may still have.
//!
//! Contracts see a `Pending` as the list of the pending collectives by group id, and a `Budget` as the number of looks that are
//! left, or none for `Block`. Only `Pending::new` takes memory; arguments are moved in and out, and never copied. (GASPI: timeouts)
#![tactic(auto)]

mod budget;
mod laws;
mod pending;

pub use budget::{Budget, Look};
pub use laws::last_look_is_final;
pub use pending::Pending;
