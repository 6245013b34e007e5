//! The answers of the program: what it writes to its sink, and its exit status. Each function writes one kind of answer;
//! `fault_line` makes the text of one, and `status_of` writes it.
//!
//! An answer for which there is no memory is status 7, and then nothing is written but a prefix of a trace. `told` is what
//! `view_result` gave.

ghost use Rattle.std.specs.Prelude.{◌≡◌, ◌⊎◌, map, None, Some, IfOk};
ghost use Rattle.gaspi_io.specs.Faults.{HasCause};
ghost use Rattle.gaspi_io.specs.Sink.{with_more, AddsPrefix};
ghost use Rattle.journal_view.specs.Answers.{Answers, Refuses, AnswersFault, AnswersIllegal, AnswersStop, AnswersTrace, AnswersView, fault_text};
ghost use Rattle.journal_view.specs.Words.{picture_of};
ghost use Rattle.journal_view.specs.declared.words.Picture.{Picture};

use crate::viewing::{ViewResult, illegal_text, view_result};
use crate::words::{Picture, read_words};
use gaspi_io::{Failed, ReadStop, Sink, Source, WriteStop, read_all, write_all};
use gaspi_model::Why;
use gaspi_texts::{Journal, write_number};
use gaspi_types::{Bytes, NoMemory, Shape};
use journal_pictures::{TraceAnswer, write_trace};
use rank_script::{MOST_INPUT_BYTES, ScriptFault};
use std::alloc::Global;

/// The line that names a fault of the input: its number and its line.
fn fault_line(alloc: Global, number: u32, line: u64) -> Result<Bytes, NoMemory>
    ensures { IfOk result (λ text. text ≡ fault_text (record { number = number; line = line })) }
{
    let mut text = Bytes::new(alloc);
    text.append(b"fault S")?;
    write_number(&mut text, u64::from(number))?;
    text.append(b" line ")?;
    write_number(&mut text, line)?;
    text.append(b"\n")?;
    Ok(text)
}

/// Writes a text. The answer is `status`, or 6 where the sink failed; then it has a prefix of the text.
fn status_of<K: Sink>(sink: &mut K, text: &[u8], status: u8) -> u8
    ensures { ((result ≡ status) × (K.held sink.new ≡ with_more (K.held sink.old) text.now) × (K.faults sink.new ≡ K.faults sink.old))
        ⊎ ((result ≡ 6) × AddsPrefix text.now (K.held sink.old) (K.held sink.new) × HasCause (K.faults sink.old) (K.faults sink.new)) }
{
    match write_all(sink, text) {
        Ok(()) => status,
        Err(Failed) => 6,
    }
}

/// Writes the line of a fault of the input, with status 2.
fn answer_fault<K: Sink>(alloc: Global, sink: &mut K, number: u32, line: u64) -> u8
    ensures { AnswersFault (K.held sink.old) (K.held sink.new) (K.faults sink.old) (K.faults sink.new) result (record { number = number; line = line }) }
{
    match fault_line(alloc, number, line) {
        Ok(text) => status_of(sink, text.as_slice(), 2),
        Err(NoMemory) => 7,
    }
}

/// Writes the first event that is no step, with status 4.
fn answer_illegal<K: Sink>(alloc: Global, sink: &mut K, place: u64, why: Why) -> u8
    ensures { AnswersIllegal (K.held sink.old) (K.held sink.new) (K.faults sink.old) (K.faults sink.new) result place why }
{
    match illegal_text(alloc, place, why) {
        Ok(text) => status_of(sink, text.as_slice(), 4),
        Err(NoMemory) => 7,
    }
}

/// Writes the trace of a journal, with status 0, or the first event that is no step.
fn answer_trace<K: Sink>(alloc: Global, sink: &mut K, shape: &Shape, journal: &Journal) -> u8
    ensures { AnswersTrace (K.held sink.old) (K.held sink.new) (K.faults sink.old) (K.faults sink.new) result shape.now journal.now }
{
    match write_trace(alloc, shape, journal, sink) {
        Ok(TraceAnswer::Traced) => 0,
        Ok(TraceAnswer::Refuted { place, why }) => answer_illegal(alloc, sink, place, why),
        Err(WriteStop::Fault) => 6,
        Err(WriteStop::NoMemory) => 7,
    }
}

/// Writes the result of an input: its picture, why it has none, or its fault.
fn answer_result<K: Sink>(alloc: Global, sink: &mut K, told: Result<ViewResult, ScriptFault>) -> u8
    ensures { AnswersView (K.held sink.old) (K.held sink.new) (K.faults sink.old) (K.faults sink.new) result told }
{
    match told {
        Ok(ViewResult::Text(told)) => status_of(sink, told.text.as_slice(), told.status),
        Ok(ViewResult::Trace { shape, journal }) => answer_trace(alloc, sink, &shape, &journal),
        Err(ScriptFault::At { number, line }) => answer_fault(alloc, sink, number, line),
        Err(ScriptFault::NoMemory) => 7,
    }
}

/// The answer where the input was not read whole: status 5 after a fault of the source, 7 where memory ran out; an input that
/// is too long has the fault S1 at line 0.
fn answer_stop<K: Sink>(alloc: Global, sink: &mut K, stop: ReadStop) -> u8
    ensures { AnswersStop (K.held sink.old) (K.held sink.new) (K.faults sink.old) (K.faults sink.new) result stop }
{
    match stop {
        ReadStop::Fault => 5,
        ReadStop::Long => answer_fault(alloc, sink, 1, 0),
        ReadStop::NoMemory => 7,
    }
}

/// Reads all that the source has, and writes the picture of its journal, or why there is none.
fn view_picture<S: Source, K: Sink>(
    alloc: Global,
    picture: Picture,
    source: &mut S,
    sink: &mut K,
) -> u8
    ensures { Answers picture (S.left source.old) (S.left source.new) (S.faults source.old) (S.faults source.new)
        (K.held sink.old) (K.held sink.new) (K.faults sink.old) (K.faults sink.new) result }
{
    match read_all(alloc, source, MOST_INPUT_BYTES as u64) {
        Ok(input) => answer_result(alloc, sink, view_result(alloc, picture, input.as_slice())),
        Err(stop) => answer_stop(alloc, sink, stop),
    }
}

/// The program: writes the picture for which the words after its name ask, of the journal in its input, and gives the exit
/// status. Words that ask for none are refused, and then nothing is read.
///
/// | Status | Where |
/// |---|---|
/// | 0 | the picture is written |
/// | 1 | the words are refused |
/// | 2 | the world text has a fault |
/// | 4 | there is no journal, or it is not legal |
/// | 5 | a read failed |
/// | 6 | a write failed |
/// | 7 | out of memory; a prefix of a trace may be written, and of no other text |
/// | 9 | the journal has too many events for that picture |
pub fn view<S: Source, K: Sink>(alloc: Global, words: &[&str], source: &mut S, sink: &mut K) -> u8
    ensures refused { picture_of (map (λ word. word.now) words.now) ≡ None
        → Refuses (K.held sink.old) (K.held sink.new) (K.faults sink.old) (K.faults sink.new) result × (source.new ≡ source.old) }
    ensures answers { (picture : Picture) → picture_of (map (λ word. word.now) words.now) ≡ Some picture
        → Answers picture (S.left source.old) (S.left source.new) (S.faults source.old) (S.faults source.new)
        (K.held sink.old) (K.held sink.new) (K.faults sink.old) (K.faults sink.new) result }
{
    match read_words(alloc, words) {
        Ok(Some(picture)) => view_picture(alloc, picture, source, sink),
        Ok(None) => status_of(sink, b"journal_view: words refused\n", 1),
        Err(NoMemory) => 7,
    }
}
