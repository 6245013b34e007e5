//! World texts, and runs of their scripts. `read_world` reads a text into a shape and scripts, or names its first fault; `bench_world`
//! makes those of `bench` without a text. A `Cursor` walks a script call by call, and each reply says where it goes on.
#![tactic(auto)]

mod arguments;
mod bench;
mod call_lines;
mod cursors;
mod expected;
mod generator;
mod line_fields;
mod line_timeouts;
mod lines;
mod readings;
mod remaining;
mod ring_ranks;
mod ring_rounds;
mod run_laws;
mod scripts;
mod split;
mod world_texts;

pub use bench::bench_world;
pub use cursors::Cursor;
pub use expected::ExpectedReply;
pub use generator::drawn;
pub use line_timeouts::LineTimeout;
pub use run_laws::runs;
pub use scripts::{RunOutcome, RunStop, Script, ScriptFault, ScriptLine, ScriptLines, Scripts};
pub use split::split_input;
pub use world_texts::{MOST_INPUT_BYTES, read_input, read_world};
