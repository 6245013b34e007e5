//! What `check` and `why` make of an input with a journal: whether the journal is legal, or which writes a notification of it covers.
//! The texts and statuses of what they find are made here too. `told` is the result; its text is in memory, and it has no tally. Where
//! a function of this file can fail, out of memory is the only failure, but for `judge_input`.

ghost use Rattle.std.specs.Prelude.{◌≡◌, ◌<◌, ◌≤◌, ◌+◌, ◌++◌, ◌^◌, ℕ, length, true, IfOk, OnOk, IsErrOf, Err, None};
ghost use Rattle.std.specs.List.{flat_map};
ghost use Rattle.rank_script.specs.WorldText.{checked_world};
ghost use Rattle.rank_script.specs.declared.scripts.ScriptFault.TheVariants as script_faults;
ghost use Rattle.call_texts.specs.Lines.{fed_lines};
ghost use Rattle.gaspi_run.specs.Judging.{AnswersQuestion, HasVerdict, HasWrites, IsChecked, IsNoJournal, IsRead, illegal_text, verdict_status, verdict_text, why_status, why_text, why_word, write_line, writes_text, no_notification_text};

use crate::command_results::CommandResult;
use call_journal::{CoveredWrite, Explanation, Verdict, check, why};
use call_texts::first_line;
use gaspi_model::Why;
use gaspi_texts::{Journal, JournalFault, read, write_number};
use gaspi_types::{Bytes, NoMemory, Sequence, Shape};
use rank_script::{ScriptFault, read_input};
use std::alloc::Global;

/// What is asked of a journal.
#[derive(Clone, Copy, Debug, PartialEq, Eq)]
pub enum Question {
    /// Whether it is legal: `check`.
    Verdict,
    /// Which writes the notification covers that was put at this place: `why`.
    Writes { place: u64 },
}

/// The word for a cause.
fn why_word(why: Why) -> &'static [u8]
    ensures { result.now ≡ why_word why }
{
    match why {
        Why::Caller => b"caller",
        Why::Limit => b"limit",
        Why::Join => b"join",
        Why::Reply => b"reply",
        Why::Take => b"take",
        Why::Put => b"put",
    }
}

/// The text that names the first event that is no step, by its place, and its cause.
fn illegal_text(alloc: Global, place: u64, why: Why) -> Result<Bytes, NoMemory>
    ensures { IfOk result (λ text. text ≡ illegal_text place why) }
{
    let mut text = Bytes::new(alloc);
    text.append(b"illegal ")?;
    write_number(&mut text, place)?;
    text.append(b" ")?;
    text.append(why_word(why))?;
    text.append(b"\n")?;
    Ok(text)
}

/// The text of a verdict on a journal of `count` events.
fn verdict_text(alloc: Global, count: u64, verdict: Verdict) -> Result<Bytes, NoMemory>
    ensures { IfOk result (λ text. text ≡ verdict_text count verdict) }
{
    match verdict {
        Verdict::Legal => {
            let mut text = Bytes::new(alloc);
            text.append(b"legal ")?;
            write_number(&mut text, count)?;
            text.append(b"\n")?;
            Ok(text)
        }
        Verdict::Illegal { place, why } => illegal_text(alloc, place, why),
    }
}

/// The status of `check` for a verdict.
fn verdict_status(verdict: Verdict) -> u8
    ensures { result ≡ verdict_status verdict }
{
    match verdict {
        Verdict::Legal => 0,
        Verdict::Illegal { .. } => 4,
    }
}

/// The result for an input that has no journal. `line` is the first line of the input that is not as a journal has it.
fn no_journal_result(alloc: Global, line: u64) -> Result<CommandResult, NoMemory>
    ensures none { IfOk result (λ told. IsNoJournal line told.journal told.status told.text) }
    ensures plain { IfOk result (λ told. (told.tally ≡ None) × (told.is_held ≡ true)) }
{
    let mut text = Bytes::new(alloc);
    text.append(b"not a journal ")?;
    write_number(&mut text, line)?;
    text.append(b"\n")?;
    Ok(CommandResult::with_text(Sequence::new(alloc), None, 4, text))
}

/// The result of `check` for a journal that was read.
fn verdict_result(alloc: Global, shape: &Shape, journal: Journal) -> Result<CommandResult, NoMemory>
    ensures verdict { IfOk result (λ told. HasVerdict shape.now told.journal told.status told.text) }
    ensures journal { IfOk result (λ told. told.journal ≡ journal) }
    ensures plain { IfOk result (λ told. (told.tally ≡ None) × (told.is_held ≡ true)) }
{
    let verdict = check(alloc, shape, &journal)?;
    let text = verdict_text(alloc, journal.len() as u64, verdict)?;
    Ok(CommandResult::with_text(journal, None, verdict_status(verdict), text))
}

/// Appends the line of a covered write: the place of the call that posted it, its entry number, and the place of its put. Where memory
/// runs out, the beginning of the line may be there.
fn append_write(text: &mut Bytes, write: &CoveredWrite) -> Result<(), NoMemory>
    ensures { OnOk result (text.new ≡ text.old ++ write_line write.now) }
{
    write_number(text, write.post)?;
    text.append(b" ")?;
    write_number(text, u64::from(write.number))?;
    text.append(b" ")?;
    write_number(text, write.put)?;
    text.append(b"\n")
}

/// Appends the lines of covered writes, in order. Where memory runs out, some of them may be there.
fn append_writes(text: &mut Bytes, writes: &[CoveredWrite]) -> Result<(), NoMemory>
    ensures { OnOk result (text.new ≡ text.old ++ flat_map write_line writes.now) }
{
    for write in writes {
        append_write(text, write)?;
    }
    Ok(())
}

/// The text of the writes that the notification covers which was put at a place.
fn writes_text(alloc: Global, place: u64, writes: &[CoveredWrite]) -> Result<Bytes, NoMemory>
    ensures { IfOk result (λ text. text ≡ writes_text place writes.now) }
{
    let mut text = Bytes::new(alloc);
    text.append(b"why ")?;
    write_number(&mut text, place)?;
    text.append(b" writes ")?;
    write_number(&mut text, writes.len() as u64)?;
    text.append(b"\n")?;
    append_writes(&mut text, writes)?;
    Ok(text)
}

/// The text for a place at which no notification was put.
fn no_notification_text(alloc: Global, place: u64) -> Result<Bytes, NoMemory>
    ensures { IfOk result (λ text. text ≡ no_notification_text place) }
{
    let mut text = Bytes::new(alloc);
    text.append(b"no notification ")?;
    write_number(&mut text, place)?;
    text.append(b"\n")?;
    Ok(text)
}

/// The text of an explanation of a place.
fn why_text(alloc: Global, place: u64, answer: &Explanation) -> Result<Bytes, NoMemory>
    ensures { IfOk result (λ text. text ≡ why_text place answer.now) }
{
    match answer {
        Explanation::Writes(writes) => writes_text(alloc, place, writes.as_slice()),
        Explanation::NoNotification => no_notification_text(alloc, place),
        Explanation::Illegal { place, why } => illegal_text(alloc, *place, *why),
    }
}

/// The status of `why` for an explanation.
fn why_status(answer: &Explanation) -> u8
    ensures { result ≡ why_status answer.now }
{
    match answer {
        Explanation::Writes(_) => 0,
        Explanation::NoNotification | Explanation::Illegal { .. } => 4,
    }
}

/// The result of `why` for a place of a journal that was read.
fn writes_result(
    alloc: Global,
    shape: &Shape,
    journal: Journal,
    place: u64,
) -> Result<CommandResult, NoMemory>
    ensures writes { IfOk result (λ told. HasWrites place shape.now told.journal told.status told.text) }
    ensures journal { IfOk result (λ told. told.journal ≡ journal) }
    ensures plain { IfOk result (λ told. (told.tally ≡ None) × (told.is_held ≡ true)) }
{
    let answer = why(alloc, shape, &journal, place)?;
    let text = why_text(alloc, place, &answer)?;
    Ok(CommandResult::with_text(journal, None, why_status(&answer), text))
}

/// The result for a journal that was read, by what is asked of it.
fn question_result(
    alloc: Global,
    shape: &Shape,
    journal: Journal,
    question: Question,
) -> Result<CommandResult, NoMemory>
    ensures answer { IfOk result (λ told. AnswersQuestion question shape.now told.journal told.status told.text) }
    ensures journal { IfOk result (λ told. told.journal ≡ journal) }
    ensures plain { IfOk result (λ told. (told.tally ≡ None) × (told.is_held ≡ true)) }
{
    match question {
        Question::Verdict => verdict_result(alloc, shape, journal),
        Question::Writes { place } => writes_result(alloc, shape, journal, place),
    }
}

/// How many lines a text has. The last may lack its line feed.
fn line_count(text: &[u8]) -> u64
    ensures count { result ≡ length (fed_lines text.now) }
    ensures bound { result ≤ length text.now }
{
    let mut count: u64 = 0;
    let mut rest = text;
    while !rest.is_empty() {
        let (_, later) = first_line(rest);
        count += 1;
        rest = later;
    }
    count
}

/// The result for a text that may be a journal, by what is asked of it. The text comes from an input, where its first line has this
/// number; where it is no journal, a line of the input is named.
fn journal_result(
    alloc: Global,
    shape: &Shape,
    text: &[u8],
    number: u64,
    question: Question,
) -> Result<CommandResult, NoMemory>
    requires { (1 ≤ number) × (number + length text.now < 2 ^ 63) }
    ensures read { IfOk result (λ told. IsRead question shape.now text.now number told.journal told.status told.text) }
    ensures plain { IfOk result (λ told. (told.tally ≡ None) × (told.is_held ≡ true)) }
{
    match read(alloc, text) {
        Ok(journal) => question_result(alloc, shape, journal, question),
        Err(JournalFault::At { line }) => no_journal_result(alloc, number - 1 + line),
        Err(JournalFault::NoMemory) => Err(NoMemory),
    }
}

/// The result of `check` or `why` for an input: its world text is read, and then its journal. Where no line begins with `journal`, the
/// line after the last is named. The error is the first fault of the world text, or out of memory.
pub fn judge_input(
    alloc: Global,
    input: &[u8],
    question: Question,
) -> Result<CommandResult, ScriptFault>
    ensures told { IfOk result (λ told. IsChecked question input.now told.journal told.status told.text) }
    ensures plain { IfOk result (λ told. (told.tally ≡ None) × (told.is_held ≡ true)) }
    ensures fault { (number line : ℕ) → IsErrOf result (script_faults.At number line)
        → checked_world input.now ≡ Err (record { number = number; line = line }) }
{
    let (shape, scripts, place) = read_input(alloc, input)?;
    // The journal has the room of the scripts, which say nothing of it.
    drop(scripts);
    match place {
        None => Ok(no_journal_result(alloc, line_count(input) + 1)?),
        Some((place, number)) => {
            let journal = &input[place as usize..];
            Ok(journal_result(alloc, &shape, journal, number, question)?)
        }
    }
}
