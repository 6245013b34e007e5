//! Ranks that run a program of your own, each caller on a thread, beside workers that make the transfers. (own choice)
//!
//! A `Program` says what a `Caller` does. Its procedures are methods, which give the value that the call answers; any other reply, and
//! a call that was not made, is the error `Unexpected`. `run_program` starts a world, runs the program for each of its callers, and
//! workers, each on a thread of its own, and closes the world: it gives the journal, and the outcome of each caller.
#![tactic(auto)]

mod callers;
mod procedures;
mod programs;
mod replies;
mod running;
mod thread_bodies;

pub use callers::Caller;
pub use programs::Program;
pub use replies::{Unexpected, bytes, done, id, mask, numbers, value};
pub use running::{ProgramResult, RunFault, run_program};
