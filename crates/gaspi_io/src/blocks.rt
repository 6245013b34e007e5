//! A text that goes to a sink block by block, so that it is never in memory as a whole.

ghost use Rattle.std.specs.Prelude.{◌≡◌, ℕ, List, Option, [], OnOk, OnErr};
ghost use Rattle.gaspi_io.specs.Blocks.{IsOnItsWay};
ghost use Rattle.gaspi_io.specs.Faults.{HasCause};
ghost use Rattle.gaspi_io.specs.declared.blocks.WriteStop.TheVariants as stops;
ghost use Rattle.gaspi_io.specs.Sink.{with_more, AddsPrefix};

use crate::faults::Failed;
use crate::sink::Sink;
use crate::write::write_all;
use gaspi_types::{Bytes, NoMemory};

/// Why a text was not written whole. A prefix of it may be written.
#[derive(Clone, Copy, Debug, PartialEq, Eq)]
pub enum WriteStop {
    /// The sink failed.
    Fault,
    /// Memory ran out for the rest of the text.
    NoMemory,
}

impl From<Failed> for WriteStop {
    ghost from_gives = { λ _ stop. stop ≡ stops.Fault };

    /// For the operator `?`, where the sink failed.
    fn from(_failed: Failed) -> WriteStop {
        WriteStop::Fault
    }
}

impl From<NoMemory> for WriteStop {
    ghost from_gives = { λ _ stop. stop ≡ stops.NoMemory };

    /// For the operator `?`, where memory runs out.
    fn from(_error: NoMemory) -> WriteStop {
        WriteStop::NoMemory
    }
}

/// How many bytes fill a block.
pub const BLOCK_BYTES: usize = 65_536;

/// Writes all bytes of a block, and empties the block, of which the memory stays. Where the sink fails, it has got a prefix of
/// the block, which is shorter, and what the block has is not said.
pub fn write_block<K: Sink>(sink: &mut K, block: &mut Bytes) -> Result<(), Failed>
    ensures all { OnOk result (K.held sink.new ≡ with_more (K.held sink.old) block.old) }
    ensures emptied { OnOk result (block.new ≡ []) }
    ensures front { OnErr result (AddsPrefix block.old (K.held sink.old) (K.held sink.new)) }
    ensures cause { OnErr result (HasCause (K.faults sink.old) (K.faults sink.new)) }
    ensures still { OnOk result (K.faults sink.new ≡ K.faults sink.old) }
{
    write_all(sink, block.as_slice())?;
    block.truncate(0);
    Ok(())
}

/// Writes all bytes of a block and empties the block, where it has `BLOCK_BYTES` bytes or more, and else does nothing. A text
/// that was on its way stays so. Where the sink fails, it has got a prefix of the block, which is shorter, and what the block
/// has is not said.
pub fn write_full_block<K: Sink>(sink: &mut K, block: &mut Bytes) -> Result<(), Failed>
    ensures way { (old : Option (List ℕ)) (text : List ℕ) → IsOnItsWay old text (K.held sink.old) block.old → OnOk result (IsOnItsWay old text (K.held sink.new) block.new) }
    ensures front { OnErr result (AddsPrefix block.old (K.held sink.old) (K.held sink.new)) }
    ensures cause { OnErr result (HasCause (K.faults sink.old) (K.faults sink.new)) }
    ensures still { OnOk result (K.faults sink.new ≡ K.faults sink.old) }
{
    if block.len() < BLOCK_BYTES {
        return Ok(());
    }
    write_block(sink, block)
}
