//! What is found in journals: whether one is legal, and else which event is the first that is no step; which writes a
//! notification covers; the bench numbers and their laws; and the transcripts.
#![tactic(auto)]

mod answers;
mod bench_laws;
mod called_lines;
mod explanations;
mod journal_numbers;
mod lane_writes;
mod own_calls;
mod script_runs;
mod transcripts;
mod verdicts;

pub use answers::{CoveredWrite, Explanation};
pub use bench_laws::{bench_calls, bench_notifications, bench_transfers, bench_words};
pub use explanations::why;
pub use journal_numbers::{Numbers4, bench_numbers};
pub use transcripts::{transcripts_text, write_transcripts};
pub use verdicts::{Verdict, check};
