//! The commands of the program, and callers that run their scripts in a world.
//!
//! A `ScriptBody` makes the calls of a script one after another by the pass of its caller, and then the caller's end. `schedule` of
//! `plain_schedule` does the same for all scripts of a world on one thread. How a run ended is its outcome.
#![tactic(auto)]

mod bodies;
mod command_results;
mod commands;
mod journal_output;
mod judging;
mod looks;
mod results;
mod script_runs;
mod tasks;
mod thread_bodies;
mod threads;

pub use bodies::ScriptBody;
pub use commands::{Answer, gaspirun, run_bench, run_command, run_threads};
pub use plain_schedule::{EndedCaller, ScheduleResult, schedule};
pub use threads::{RunResult, run_on_threads};
