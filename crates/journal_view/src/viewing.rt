//! The result of an input: the picture of its journal, or why it has none. Nothing is written here. `told` is the result of
//! another function.

ghost use Rattle.std.specs.Prelude.{◌≡◌, ◌<◌, ◌≤◌, ◌+◌, ◌^◌, ℕ, length, IfOk, IsErrOf, Err};
ghost use Rattle.rank_script.specs.WorldText.{checked_world};
ghost use Rattle.rank_script.specs.declared.scripts.ScriptFault.TheVariants as script_faults;
ghost use Rattle.call_texts.specs.Lines.{fed_lines};
ghost use Rattle.gaspi_texts.specs.JournalText.{IsFaultyAt};
ghost use Rattle.gaspi_texts.specs.declared.journal_reading.JournalFault.TheVariants.{At};
ghost use Rattle.journal_view.specs.Viewing.{HasPicture, HasSequence, IsNoJournal, IsRead, IsUnread, IsViewed, Tells, illegal_text, long_text, why_word};

use crate::words::Picture;
use call_texts::first_line;
use gaspi_model::Why;
use gaspi_texts::{Journal, JournalFault, read, write_number};
use gaspi_types::{Bytes, NoMemory, Shape};
use journal_pictures::{SequenceAnswer, sequence};
use rank_script::{ScriptFault, read_input};
use std::alloc::Global;

/// A text that is to be written, and the exit status with it.
#[derive(Debug, Drop)]
pub struct TextResult {
    pub status: u8,
    pub text: Bytes,
}

/// The result of an input: a text, or the journal of which the trace is to be written. The text of a trace is never in memory
/// as a whole: it is made as it is written.
#[derive(Drop)]
pub enum ViewResult {
    Text(TextResult),
    Trace { shape: Shape, journal: Journal },
}

/// The word of a cause.
fn why_word(why: Why) -> &'static [u8]
    ensures { result.now ≡ why_word why }
{
    match why {
        Why::Caller => b"caller",
        Why::Limit => b"limit",
        Why::Join => b"join",
        Why::Reply => b"reply",
        Why::Take => b"take",
        Why::Put => b"put",
    }
}

/// The line that names the first event that is no step, and its cause.
pub fn illegal_text(alloc: Global, place: u64, why: Why) -> Result<Bytes, NoMemory>
    ensures { IfOk result (λ text. text ≡ illegal_text place why) }
{
    let mut text = Bytes::new(alloc);
    text.append(b"illegal ")?;
    write_number(&mut text, place)?;
    text.append(b" ")?;
    text.append(why_word(why))?;
    text.append(b"\n")?;
    Ok(text)
}

/// The line that says that a journal has too many events for a diagram, and how many.
fn long_text(alloc: Global, events: u64) -> Result<Bytes, NoMemory>
    ensures { IfOk result (λ text. text ≡ long_text events) }
{
    let mut text = Bytes::new(alloc);
    text.append(b"too long ")?;
    write_number(&mut text, events)?;
    text.append(b"\n")?;
    Ok(text)
}

/// The result of an input without a journal, with the first of its lines where none can be.
fn no_journal_result(alloc: Global, line: u64) -> Result<TextResult, NoMemory>
    ensures { IfOk result (λ told. IsNoJournal line told.status told.text) }
{
    let mut text = Bytes::new(alloc);
    text.append(b"not a journal ")?;
    write_number(&mut text, line)?;
    text.append(b"\n")?;
    Ok(TextResult { status: 4, text })
}

/// The sequence diagram of a journal, or why it has none.
fn sequence_result(alloc: Global, shape: &Shape, journal: &Journal) -> Result<TextResult, NoMemory>
    ensures { IfOk result (λ told. HasSequence shape.now journal.now told.status told.text) }
{
    match sequence(alloc, shape, journal)? {
        SequenceAnswer::Drawn(text) => Ok(TextResult { status: 0, text }),
        SequenceAnswer::Long { events } => {
            let text = long_text(alloc, events)?;
            Ok(TextResult { status: 9, text })
        }
        SequenceAnswer::Illegal { place, why } => {
            let text = illegal_text(alloc, place, why)?;
            Ok(TextResult { status: 4, text })
        }
    }
}

/// The picture of a journal. A trace is left to be written.
fn picture_result(
    alloc: Global,
    picture: Picture,
    shape: Shape,
    journal: Journal,
) -> Result<ViewResult, NoMemory>
    ensures { IfOk result (λ told. Tells picture (HasPicture picture shape journal) told) }
{
    match picture {
        Picture::Sequence => {
            let told = sequence_result(alloc, &shape, &journal)?;
            Ok(ViewResult::Text(told))
        }
        Picture::Trace => Ok(ViewResult::Trace { shape, journal }),
    }
}

/// How many lines a text has. The last may lack its line feed.
fn line_count(text: &[u8]) -> u64
    ensures count { result ≡ length (fed_lines text.now) }
    ensures bound { result ≤ length text.now }
{
    let mut count: u64 = 0;
    let mut rest = text;
    while !rest.is_empty() {
        let (_, later) = first_line(rest);
        count += 1;
        rest = later;
    }
    count
}

/// The result of a text that `read` refused as a journal: the line of its fault in the whole input. The text begins at the line
/// `number` of the input, which is so small that no line of it is too large a number.
fn fault_result(
    alloc: Global,
    fault: JournalFault,
    text: &[u8],
    number: u64,
) -> Result<TextResult, NoMemory>
    requires number { (1 ≤ number) × (number + length text.now < 2 ^ 63) }
    requires faulty { (line : ℕ) → fault ≡ At line → IsFaultyAt text.now line }
    ensures { IfOk result (λ told. IsUnread text.now number told.status told.text) }
{
    match fault {
        JournalFault::At { line } => no_journal_result(alloc, number - 1 + line),
        JournalFault::NoMemory => Err(NoMemory),
    }
}

/// The picture of the journal of an input, or why it has none. The text of the journal begins at the line `number` of the
/// input, which is so small that no line of it is too large a number.
fn journal_result(
    alloc: Global,
    picture: Picture,
    shape: Shape,
    text: &[u8],
    number: u64,
) -> Result<ViewResult, NoMemory>
    requires { (1 ≤ number) × (number + length text.now < 2 ^ 63) }
    ensures { IfOk result (λ told. Tells picture (IsRead picture shape text.now number) told) }
{
    match read(alloc, text) {
        Ok(journal) => picture_result(alloc, picture, shape, journal),
        Err(fault) => {
            let told = fault_result(alloc, fault, text, number)?;
            Ok(ViewResult::Text(told))
        }
    }
}

/// The picture for which the words ask, of the journal of an input, in the world of the text before it; or why there is none.
/// An error is the first fault of the world text.
pub fn view_result(alloc: Global, picture: Picture, input: &[u8]) -> Result<ViewResult, ScriptFault>
    ensures told { IfOk result (λ told. Tells picture (IsViewed picture input.now) told) }
    ensures fault { (number line : ℕ) → IsErrOf result (script_faults.At number line)
        → checked_world input.now ≡ Err (record { number = number; line = line }) }
{
    let (shape, _scripts, place) = read_input(alloc, input)?;
    match place {
        None => {
            let told = no_journal_result(alloc, line_count(input) + 1)?;
            Ok(ViewResult::Text(told))
        }
        Some((place, number)) => {
            let journal = &input[place as usize..];
            Ok(journal_result(alloc, picture, shape, journal, number)?)
        }
    }
}
