//! Transcripts: the replies of each caller, with the line of its script that made each call, and how its run ended. What the
//! text of a private function has after `NoMemory` is not said.

ghost use Rattle.std.specs.Prelude.{◌≡◌, ◌<◌, ◌++◌, List, OnOk, OnErr, codes, IfOk};
ghost use Rattle.std.specs.Fmt.{decimal};
ghost use Rattle.gaspi_types.specs.declared.events.Event.{Event};
ghost use Rattle.gaspi_texts.specs.EventText.{caller_word};
ghost use Rattle.rank_script.specs.declared.scripts.Script.{Script};
ghost use Rattle.call_journal.specs.CallerTables.{HasCallers};
ghost use Rattle.call_journal.specs.OwnCalls.{pairs_of, IsCallTable};
ghost use Rattle.call_journal.specs.ScriptRuns.{told_text, IsToldTable};
ghost use Rattle.call_journal.specs.Transcripts.{call_line, ended_line, outcome_line, thread_transcript, rank_transcripts, transcripts};

use crate::own_calls::{RecordedCall, RecordedCalls, own_calls};
use crate::script_runs::{ToldRun, ToldRuns, script_runs};
use gaspi_texts::{Journal, write_number, write_reply};
use gaspi_types::{Bytes, CallerId, NoMemory, RankId, Reply, Shape, ThreadId};
use rank_script::{RunOutcome, Scripts};
use std::alloc::Global;

/// For how many bytes memory is taken before a line of a transcript is known: for those of most lines.
const BYTES_OF_A_LINE: usize = 20;

/// Adds a caller: its rank, a dot, and its thread.
fn write_caller(text: &mut Bytes, caller: CallerId) -> Result<(), NoMemory>
    ensures { OnOk result (text.new ≡ text.old ++ caller_word caller) }
{
    write_number(text, u64::from(caller.rank.number()))?;
    text.push(b'.')?;
    write_number(text, u64::from(caller.thread.number()))
}

/// How each line of a recorded call of a caller begins: the caller, and a space.
fn line_start(alloc: Global, caller: CallerId) -> Result<Bytes, NoMemory>
    ensures { IfOk result (λ start. start ≡ caller_word caller ++ codes " ") }
{
    let mut start = Bytes::new(alloc);
    write_caller(&mut start, caller)?;
    start.push(b' ')?;
    Ok(start)
}

/// Adds the line of a recorded call: how the lines of its caller begin, the line of the script, and the reply.
fn write_call(text: &mut Bytes, start: &[u8], line: u64, reply: &Reply) -> Result<(), NoMemory>
    ensures { (caller : CallerId) → start.now ≡ caller_word caller ++ codes " " → OnOk result (text.new ≡ text.old ++ call_line caller line reply.now) }
{
    text.append(start)?;
    write_number(text, line)?;
    text.push(b' ')?;
    write_reply(text, reply)?;
    text.push(b'\n')
}

/// Adds the line of a run that ended.
fn write_ended(text: &mut Bytes, caller: CallerId) -> Result<(), NoMemory>
    ensures { OnOk result (text.new ≡ text.old ++ ended_line caller) }
{
    write_caller(text, caller)?;
    text.append(b" ended\n")
}

/// Adds the line of a run with another outcome, with the word of that outcome and the line of the script.
fn write_at_line(text: &mut Bytes, caller: CallerId, word: &[u8], line: u64) -> Result<(), NoMemory>
    ensures { OnOk result (text.new ≡ text.old ++ (caller_word caller ++ (word.now ++ (decimal line ++ codes "\n")))) }
{
    write_caller(text, caller)?;
    text.append(word)?;
    write_number(text, line)?;
    text.push(b'\n')
}

/// Adds the line of the outcome of a run. A run that is out of memory has the word of one at the event limit.
fn write_outcome(text: &mut Bytes, caller: CallerId, outcome: RunOutcome) -> Result<(), NoMemory>
    ensures { OnOk result (text.new ≡ text.old ++ outcome_line caller outcome) }
{
    match outcome {
        RunOutcome::Ended => write_ended(text, caller),
        RunOutcome::Failed { line } => write_at_line(text, caller, b" failed ", line),
        RunOutcome::Stuck { line } => write_at_line(text, caller, b" stuck ", line),
        RunOutcome::Limit { line } | RunOutcome::NoMemory { line } => {
            write_at_line(text, caller, b" limit ", line)
        }
    }
}

/// Adds the transcript of a caller, of which `calls` are the recorded calls.
fn write_transcript(
    text: &mut Bytes,
    caller: &CallerId,
    run: &ToldRun,
    calls: &[RecordedCall<'_>],
) -> Result<(), NoMemory>
    ensures { OnOk result (text.new ≡ text.old ++ told_text caller.now run.now.lines run.now.outcome (pairs_of calls.now)) }
{
    let alloc = text.allocator();
    let start = line_start(alloc, *caller)?;
    let mut lines = run.lines.reader();
    for own in calls {
        let Some(line) = lines.next() else {
            return write_outcome(text, *caller, run.outcome);
        };
        write_call(text, start.as_slice(), line, own.reply)?;
    }
    write_outcome(text, *caller, run.outcome)
}

/// Adds the transcript of a caller, where it has a script. The tables have to have its run and its calls.
fn write_thread(
    text: &mut Bytes,
    caller: &CallerId,
    runs: &ToldRuns,
    table: &RecordedCalls<'_>,
) -> Result<(), NoMemory>
    requires runs { HasCallers runs.now }
    requires calls { HasCallers table.now }
    ensures { (scripts : List Script) (history : List Event) → IsToldTable runs.now scripts history → IsCallTable table.now history
        → OnOk result (text.new ≡ text.old ++ thread_transcript scripts history caller.now.rank caller.now.thread) }
{
    let rank = caller.rank.index();
    let thread = caller.thread.index();
    let runs = runs.at(rank);
    let calls = table.at(rank);
    match runs.at(thread) {
        Some(run) => write_transcript(text, caller, run, calls.at(thread).as_slice()),
        None => Ok(()),
    }
}

/// Adds the transcripts of the callers of a rank, by thread.
fn write_rank(
    text: &mut Bytes,
    rank: u32,
    runs: &ToldRuns,
    table: &RecordedCalls<'_>,
) -> Result<(), NoMemory>
    requires rank { rank < 16 }
    requires runs { HasCallers runs.now }
    requires calls { HasCallers table.now }
    ensures { (scripts : List Script) (history : List Event) → IsToldTable runs.now scripts history → IsCallTable table.now history
        → OnOk result (text.new ≡ text.old ++ rank_transcripts scripts history rank) }
{
    for thread in 0..4u32 {
        let caller = CallerId {
            rank: RankId::of(rank),
            thread: ThreadId::of(thread),
        };
        write_thread(text, &caller, runs, table)?;
    }
    Ok(())
}

/// For how many bytes memory is taken before the transcripts of these runs are known.
fn room_for(runs: &ToldRuns) -> usize {
    let mut lines: usize = 0;
    for row in runs.as_slice() {
        for run in row.as_slice() {
            match run {
                Some(run) => lines = lines.saturating_add(run.lines.count()),
                None => {}
            }
        }
    }
    lines.saturating_mul(BYTES_OF_A_LINE)
}

/// The transcripts of all callers, by rank and thread, of whose runs this is told.
fn text_of_runs(
    alloc: Global,
    shape: &Shape,
    runs: &ToldRuns,
    journal: &Journal,
) -> Result<Bytes, NoMemory>
    requires { HasCallers runs.now }
    ensures { (scripts : List Script) → IsToldTable runs.now scripts journal.now → IfOk result (λ text. text ≡ transcripts shape.now scripts journal.now) }
{
    let table = own_calls(alloc, runs, journal.as_slice())?;
    let mut text = Bytes::with_capacity(alloc, room_for(runs))?;
    let limits = shape.limits();
    for rank in 0..limits.ranks {
        write_rank(&mut text, rank, runs, &table)?;
    }
    Ok(text)
}

/// The transcripts of all callers of a world, by rank and thread. The scripts are given back before memory is taken for calls and text.
/// The only failure is out of memory.
pub fn transcripts_text(
    alloc: Global,
    shape: &Shape,
    scripts: Scripts,
    journal: &Journal,
) -> Result<Bytes, NoMemory>
    ensures { IfOk result (λ text. text ≡ transcripts shape.now scripts journal.now) }
{
    let runs = script_runs(alloc, &scripts, journal.as_slice())?;
    drop(scripts);
    text_of_runs(alloc, shape, &runs, journal)
}

/// Adds the transcripts of all callers of a world, by rank and thread. After `NoMemory` nothing has changed.
pub fn write_transcripts(
    text: &mut Bytes,
    shape: &Shape,
    scripts: &Scripts,
    journal: &Journal,
) -> Result<(), NoMemory>
    ensures ok { OnOk result (text.new ≡ text.old ++ transcripts shape.now scripts.now journal.now) }
    ensures err { OnErr result (text.new ≡ text.old) }
{
    let alloc = text.allocator();
    let runs = script_runs(alloc, scripts, journal.as_slice())?;
    let told = text_of_runs(alloc, shape, &runs, journal)?;
    text.extend(told)
}
