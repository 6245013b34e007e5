//! A journal, written block by block, so that its text is never whole in memory.

ghost use Rattle.std.specs.Prelude.{◌≡◌, OnOk, OnErr, IsErrOf};
ghost use Rattle.gaspi_io.specs.Faults.{HasCause};
ghost use Rattle.gaspi_io.specs.Sink.{with_more, AddsPrefix};
ghost use Rattle.gaspi_io.specs.declared.blocks.WriteStop.TheVariants as stops;
ghost use Rattle.gaspi_texts.specs.JournalText.{journal_text};

use gaspi_io::{BLOCK_BYTES, Sink, WriteStop, write_block, write_full_block};
use gaspi_texts::{Journal, write_end_line, write_event_line};
use gaspi_types::{Bytes, NoMemory};
use std::alloc::Global;

/// Writes the text of a journal. The memory of one block is taken before anything is written; a line that is longer takes more. Where
/// a write fails or memory runs out, a prefix of the text was written, which is shorter than the text.
pub(crate) fn write_journal<K: Sink>(
    alloc: Global,
    sink: &mut K,
    journal: &Journal,
) -> Result<(), WriteStop>
    ensures all { OnOk result (K.held sink.new ≡ with_more (K.held sink.old) (journal_text journal.now)) }
    ensures still { OnOk result (K.faults sink.new ≡ K.faults sink.old) }
    ensures front { OnErr result (AddsPrefix (journal_text journal.now) (K.held sink.old) (K.held sink.new)) }
    ensures cause { IsErrOf result stops.Fault → HasCause (K.faults sink.old) (K.faults sink.new) }
    ensures lacks { IsErrOf result stops.NoMemory → K.faults sink.new ≡ K.faults sink.old }
{
    let mut block = Bytes::with_capacity(alloc, BLOCK_BYTES)?;
    block.append(b"journal 1\n")?;
    for (place, event) in journal.as_slice().iter().enumerate() {
        write_event_line(&mut block, place as u64, event)?;
        write_full_block(sink, &mut block)?;
    }
    write_end_line(&mut block, journal.len() as u64)?;
    write_block(sink, &mut block)?;
    Ok(())
}
