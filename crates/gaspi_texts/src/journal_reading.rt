//! The text of a journal read.

ghost use Rattle.std.specs.Prelude.{◌≡◌, ℕ, IfOk, IsErrOf};
ghost use Rattle.gaspi_texts.specs.JournalText.{journal_text, AreInRange, IsFaultyAt};
ghost use Rattle.gaspi_texts.specs.declared.journal_reading.JournalFault.TheVariants as faults;

use crate::journal_lines::{is_end_line, read_event_line};
use crate::{Journal, ReadingBuffers, events_have_no_line_feed};
use call_texts::first_line;
use gaspi_types::{Bytes, NoMemory, Sequence};
use std::alloc::Global;
use thiserror::Error;

/// Why a text is no journal.
#[derive(Debug, Drop, Error)]
pub enum JournalFault {
    /// The first line, from 1, that cannot follow those before it; where the text ends too early, the number of its lines plus
    /// 1.
    #[error("not a journal {line}")]
    At { line: u64 },
    /// Out of memory.
    #[error("out of memory")]
    NoMemory,
}

impl From<NoMemory> for JournalFault {
    ghost from_gives = { λ _ fault. fault ≡ faults.NoMemory };

    /// For the operator `?`, where memory runs out.
    fn from(_error: NoMemory) -> JournalFault {
        JournalFault::NoMemory
    }
}

/// The journal of a text, which has to have the one form of a journal; else the line of the first fault, or `NoMemory`.
pub fn read(alloc: Global, text: &[u8]) -> Result<Journal, JournalFault>
    ensures text { IfOk result (λ journal. text.now ≡ journal_text journal) }
    ensures ranges { IfOk result (λ journal. AreInRange journal) }
    ensures fault { (line : ℕ) → IsErrOf result (faults.At line) → IsFaultyAt text.now line }
{
    events_have_no_line_feed();
    let Some(mut rest) = text.strip_prefix(b"journal 1\n") else {
        return Err(JournalFault::At { line: 1 });
    };
    let mut journal: Journal = Sequence::new(alloc);
    let mut scratch = ReadingBuffers::new(alloc);
    let mut number = Bytes::new(alloc);
    while !rest.is_empty() {
        let (line, later) = first_line(rest);
        let place = journal.len() as u64;
        if is_end_line(&mut number, line, place)? {
            if later.is_empty() {
                return Ok(journal);
            }
            return Err(JournalFault::At { line: place + 3 });
        }
        let Some(event) = read_event_line(alloc, &mut scratch, &mut number, line, place)? else {
            return Err(JournalFault::At { line: place + 2 });
        };
        journal.push(event)?;
        rest = later;
    }
    let count = journal.len() as u64;
    Err(JournalFault::At { line: count + 2 })
}
