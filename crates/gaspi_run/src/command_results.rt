//! What a command makes of its input, before it is written.

ghost use Rattle.std.specs.Prelude.{◌≡◌, ◌⊎◌, Some, None, true, false, IfOk, OnErr};
ghost use Rattle.gaspi_io.specs.Faults.{HasCause};
ghost use Rattle.gaspi_io.specs.Sink.{with_more, AddsPrefix};
ghost use Rattle.gaspi_texts.specs.JournalText.{journal_text};

use crate::journal_output::write_journal;
use gaspi_io::{Failed, Sink, WriteStop, write_all};
use gaspi_texts::Journal;
use gaspi_types::{Bytes, NoMemory};
use gaspi_world::Tally;
use std::alloc::Global;
use std::marker::Model;

/// What a command makes of its input. The text of a journal is not in memory: it is made as it is written. Contracts say of a text
/// that is in memory that it is held.
#[derive(Drop)]
pub struct CommandResult {
    /// The history of the world that was run, or the journal that was read.
    journal: Journal,
    /// What is known of the closed world; none where no threads ran one.
    tally: Option<Tally>,
    /// The exit status, where the text is written whole.
    status: u8,
    /// The text; none where it is that of the journal.
    text: Option<Bytes>,
}

impl Model for CommandResult {
    ghost use Rattle.gaspi_run.specs.Results.{ResultValue, result_of};

    ghost Value = { ResultValue };

    ghost view = { λ r. result_of r.journal r.tally r.status r.text };
}

impl CommandResult {
    /// A result whose text is in memory.
    pub(crate) fn with_text(
        journal: Journal,
        tally: Option<Tally>,
        status: u8,
        text: Bytes,
    ) -> CommandResult
        ensures { result ≡ record { journal = journal; tally = tally; status = status; text = text; is_held = true } }
    {
        CommandResult {
            journal,
            tally,
            status,
            text: Some(text),
        }
    }

    /// A result whose text is that of its journal, and not in memory.
    pub(crate) fn with_journal_text(
        journal: Journal,
        tally: Option<Tally>,
        status: u8,
    ) -> CommandResult
        ensures { result ≡ record { journal = journal; tally = tally; status = status; text = journal_text journal; is_held = false } }
    {
        CommandResult {
            journal,
            tally,
            status,
            text: None,
        }
    }

    /// Writes the text, and gives the status: 6 where the text could not be written whole. It runs out of memory only where the text
    /// is that of the journal; then a prefix was written, which is shorter than the text.
    pub(crate) fn write<K: Sink>(&self, alloc: Global, sink: &mut K) -> Result<u8, NoMemory>
        ensures written { IfOk result (λ status. ((status ≡ self.now.status) × (K.held sink.new ≡ with_more (K.held sink.old) self.now.text) × (K.faults sink.new ≡ K.faults sink.old))
            ⊎ ((status ≡ 6) × AddsPrefix self.now.text (K.held sink.old) (K.held sink.new) × HasCause (K.faults sink.old) (K.faults sink.new))) }
        ensures cut { OnErr result ((self.now.is_held ≡ false) × AddsPrefix self.now.text (K.held sink.old) (K.held sink.new) × (K.faults sink.new ≡ K.faults sink.old)) }
    {
        match &self.text {
            Some(text) => match write_all(sink, text.as_slice()) {
                Ok(()) => Ok(self.status),
                Err(Failed) => Ok(6),
            },
            None => match write_journal(alloc, sink, &self.journal) {
                Ok(()) => Ok(self.status),
                Err(WriteStop::Fault) => Ok(6),
                Err(WriteStop::NoMemory) => Err(NoMemory),
            },
        }
    }

    /// The history, and what is known of the closed world. Status and text are dropped.
    pub(crate) fn into_history(self) -> (Journal, Option<Tally>)
        ensures { (result.0 ≡ self.journal) × (result.1 ≡ self.tally) }
    {
        let CommandResult { journal, tally, .. } = self;
        (journal, tally)
    }
}
