//! Pictures of journals: the sequence diagram of a run, in the text of Mermaid, and its trace, in the JSON of the Chrome trace
//! event format. A picture is made of the journal of a run alone, which is checked first.
#![tactic(auto)]

mod deliveries;
mod delivery_tables;
mod diagram_lines;
mod drawing;
mod json_lines;
mod laws;
mod open_entries;
mod set_slots;
mod trace_lines;
mod tracing;

pub use deliveries::Delivery;
pub use drawing::{SequenceAnswer, sequence};
pub use laws::arrows_join;
pub use tracing::{TraceAnswer, write_trace};
