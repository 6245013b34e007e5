//! The groups of one rank, and the member list that the first `commit` fixes for a group id in the whole world.
//!
//! Contracts see `Groups` as the rank and the handles of its groups, and a `Meeting` as the member list that is fixed, if there is
//! one. A call answers by the definitions of `gaspi_types` that the machine uses. Where it is refused nothing changes, and only
//! `Groups::new` takes memory. (GASPI: groups)
#![tactic(auto)]

mod groups;
mod laws;
mod meetings;

pub use groups::Groups;
pub use laws::no_id_is_given_again;
pub use meetings::Meeting;
