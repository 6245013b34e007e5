//! The schedule of `step`: the scripts of a world on one thread, in an order that the seed fixes.
//!
//! `schedule` makes the calls of each script one after another on the plain machine, and then the caller's end, with the transfers
//! between them. A draw picks each time which caller or transfer comes next. How the run of a script ended is its outcome.
#![tactic(auto)]

mod moves;
mod schedule_states;
mod scheduling;

pub use schedule_states::EndedCaller;
pub use scheduling::{ScheduleResult, schedule};
