//! The functions of which a command is made, called one by one: a schedule, its transcripts, and what a command answers. `front` is
//! what a text has before the transcripts are appended; `told` is what was written or made.

ghost use Rattle.std.specs.Prelude.{◌≡◌, map};

use crate::running::{RUN, TOLD, TWO_RANKS, TWO_RESETS, answer_to, source_of};
use call_journal::write_transcripts;
use command_line::Command;
use gaspi_io::{SureSink, SureSource};
use gaspi_run::{Answer, run_command, schedule};
use gaspi_texts::Journal;
use gaspi_types::{Bytes, NoMemory, Shape};
use rank_script::{RunOutcome, ScriptFault, Scripts, read_world};
use std::alloc::Global;
use std::process::Abort;
use std::sync::Wait;
use std::test::Fail;
use std::thread::Threads;

/// What a schedule of a text gave, and the transcripts after a front.
#[derive(Drop)]
struct RunText {
    /// How many events its history has.
    events: usize,
    /// How many callers came past the last line of their scripts.
    ended: usize,
    /// The front, and the transcripts after it.
    text: Bytes,
}

/// The front, and the transcripts of a journal after it. The only failure is out of memory.
fn text_of(
    alloc: Global,
    front: &[u8],
    shape: &Shape,
    scripts: &Scripts,
    journal: &Journal,
) -> Result<Bytes, NoMemory> {
    let mut text = Bytes::copied_from(alloc, front)?;
    write_transcripts(&mut text, shape, scripts, journal)?;
    Ok(text)
}

/// Schedules scripts with seed 0, and makes their text. It promises nothing, so that the proof of a test does not have the text in it.
/// The only failure is out of memory.
fn run_text_of(
    alloc: Global,
    front: &[u8],
    shape: &Shape,
    scripts: &Scripts,
) -> Result<RunText, NoMemory>
    requires { map (λ s. s.caller) scripts.now ≡ shape.now.callers }
{
    let ran = schedule(alloc, shape, scripts, 0, 1_000_000)?;
    let text = text_of(alloc, front, shape, scripts, &ran.journal)?;
    let ended = ran
        .outcomes
        .as_slice()
        .iter()
        .filter(|f| f.outcome == RunOutcome::Ended)
        .count();
    Ok(RunText {
        events: ran.journal.len(),
        ended,
        text,
    })
}

/// Reads a world text, and schedules its scripts as `run_text_of` does.
fn scheduled(alloc: Global, text: &[u8], front: &[u8]) -> Result<RunText, ScriptFault> {
    let (shape, scripts) = read_world(alloc, text)?;
    Ok(run_text_of(alloc, front, &shape, &scripts)?)
}

/// Whether six calls, two ends, two takes and two puts came of the first world, `TWO_RANKS`, and its transcripts come after the front.
fn is_first_world(told: &RunText, front: &[u8]) -> bool {
    let text = told.text.as_slice().strip_prefix(front);
    told.events == 12 && told.ended == 2 && text == Some(TOLD.as_bytes())
}

// A schedule gives the transcripts of the first world, and they are appended to what was there.
#[test]
fn a_schedule_is_told(rt: HostRuntime) -> Result<(), Fail> {
    let front = b"before\n".as_slice();
    let told = scheduled(rt.alloc(), TWO_RANKS.as_bytes(), front)?;
    assert!(rt; is_first_world(&told, front));
    Ok(())
}

/// What `step --brief` answers with seed 0, by `run_command`. It promises nothing, so that the proof of a test does not have the
/// answer in it.
fn stepped(alloc: Global, source: &mut SureSource, sink: &mut SureSink) -> Answer {
    let command = Command::Step {
        seed: 0,
        limit: 1_000_000,
        brief: true,
    };
    run_command(alloc, command, source, sink)
}

/// Whether it answers the first world with status 0 and its journal, and writes its transcripts.
fn is_answered(alloc: Global, source: &mut SureSource, sink: &mut SureSink) -> bool {
    let answer = stepped(alloc, source, sink);
    answer.status == 0 && answer.journal.len() == 12 && sink.bytes() == TOLD.as_bytes()
}

// A command that needs no threads answers with its journal.
#[test]
fn a_command_answers_with_its_journal(rt: HostRuntime) -> Result<(), Fail> {
    let mut source = source_of(rt.alloc(), TWO_RANKS)?;
    let mut sink = SureSink::with_capacity(rt.alloc(), 1000)?;
    assert!(rt; is_answered(rt.alloc(), &mut source, &mut sink));
    Ok(())
}

/// The transcripts of a journal in the world of a text. The error is a fault of the text, or out of memory.
fn transcripts_of(alloc: Global, text: &[u8], journal: &Journal) -> Result<Bytes, ScriptFault> {
    let (shape, scripts) = read_world(alloc, text)?;
    Ok(text_of(alloc, b"", &shape, &scripts, journal)?)
}

/// Whether an answer is that of a run on threads that ended well, and what was written are the transcripts of its journal.
fn is_of_its_journal(alloc: Global, answer: &Answer, told: &[u8]) -> bool {
    match transcripts_of(alloc, TWO_RESETS.as_bytes(), &answer.journal) {
        Ok(text) => answer.status == 0 && answer.tally.is_some() && text.as_slice() == told,
        Err(_) => false,
    }
}

/// Whether the world of two resets is answered so on threads.
fn writes_its_journal<R: Threads + Wait + Sync + Abort>(
    rt: &R,
    alloc: Global,
    source: &mut SureSource,
    sink: &mut SureSink,
) -> bool {
    let answer = answer_to(rt, alloc, &RUN, source, sink);
    is_of_its_journal(alloc, &answer, sink.bytes())
}

// A run on threads writes the transcripts of the journal that it answers.
#[test]
fn a_run_on_threads_tells_its_own_journal(rt: HostRuntime) -> Result<(), Fail> {
    let mut source = source_of(rt.alloc(), TWO_RESETS)?;
    let mut sink = SureSink::with_capacity(rt.alloc(), 1000)?;
    assert!(rt; writes_its_journal(&rt, rt.alloc(), &mut source, &mut sink));
    Ok(())
}
