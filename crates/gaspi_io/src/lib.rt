//! Where bytes are read from and where they go: sources and sinks, in memory and of the system; and to read all, to write all,
//! to write block by block.
//!
//! A source or a sink *tells* its bytes where contracts see them: the bytes that are `left` in a source, those that a sink has
//! `held`. Each counts its `faults`. A count of faults, reads or writes that is at `u64::MAX` stays there. The bytes of one
//! read or write are a piece.
#![tactic(auto)]

mod blocks;
mod faults;
mod front;
mod mem_sink;
mod mem_source;
mod read;
mod sink;
mod source;
mod standard;
mod sure;
mod write;

pub use blocks::{BLOCK_BYTES, WriteStop, write_block, write_full_block};
pub use faults::Failed;
pub use mem_sink::MemSink;
pub use mem_source::MemSource;
pub use read::{ReadStop, read_all};
pub use sink::Sink;
pub use source::Source;
pub use standard::{StdSink, StdSource};
pub use sure::{SureSink, SureSource};
pub use write::write_all;
