//! The rounds of one group in two buffers: the contributions to them, when a round is full, and what its values and new segments
//! come to.
//!
//! A rank contributes to its rounds one after another, and no member is over one round ahead of another. So its contributions to the
//! last two rounds are enough: one buffer has those to the even rounds, and the other those to the odd ones. Contracts speak of each
//! machine's group, whose lists of contributions only grow, that the buffers represent (`Represents`). The round of a rank is the
//! first that it has not completed. Only `Rounds::new` takes memory. (GASPI: collectives)
#![tactic(auto)]

mod buffers;
mod generations;
mod kept_contributions;
mod reading;
mod reductions;
mod rounds;

pub use gaspi_model::{check_count, check_type};
pub use generations::Generations;
pub use rounds::Rounds;
