//! What each command makes of its input, as a `CommandResult`: of `check` and `why` it is made in `judging`. The statuses and texts of
//! runs are made here too. `finished` are callers that have ended, with the outcomes of their runs; `told` is the result.

ghost use Rattle.std.specs.Prelude.{◌≡◌, ◌≤◌, ℕ, IfOk, IsErrOf, Err, None, true, false};
ghost use Rattle.rank_script.specs.WorldText.{world_text};
ghost use Rattle.rank_script.specs.declared.scripts.ScriptFault.TheVariants as script_faults;
ghost use Rattle.command_line.specs.declared.words.Command.TheVariants as commands;
ghost use Rattle.gaspi_model.specs.Step.{is_legal};
ghost use Rattle.call_journal.specs.Numbers.{AreNumbers};
ghost use Rattle.gaspi_run.specs.Command.{has_failed_or_stuck, is_any_limit, run_status, run_text, numbers_text, IsWithin, is_plain, writes_journal, HasRunOnThreads, HasBenched, IsStepped, IsCommandResult, world_read};

use crate::command_results::CommandResult;
use crate::judging::{Question, judge_input};
use crate::threads::{RunResult, run_on_threads};
use call_journal::{
    Numbers4, bench_calls, bench_notifications, bench_numbers, bench_transfers, bench_words,
    transcripts_text,
};
use command_line::Command;
use gaspi_model::StepFault;
use gaspi_texts::{Journal, write_number};
use gaspi_types::{Bytes, NoMemory, Shape};
use gaspi_world::Tally;
use plain_schedule::{EndedCaller, schedule};
use rank_script::{RunOutcome, ScriptFault, Scripts, bench_world, read_world};
use std::alloc::Global;
use std::sync::Wait;
use std::thread::Threads;

/// Whether the run of one of these callers has failed or is stuck.
fn is_any_wrong(finished: &[EndedCaller]) -> bool
    ensures { result ≡ has_failed_or_stuck finished.now }
{
    finished.iter().any(|f| {
        matches!(
            f.outcome,
            RunOutcome::Failed { .. } | RunOutcome::Stuck { .. }
        )
    })
}

/// Whether the run of one of these callers ended at the event limit.
fn is_any_limit(finished: &[EndedCaller]) -> bool
    ensures { result ≡ is_any_limit finished.now }
{
    finished
        .iter()
        .any(|f| matches!(f.outcome, RunOutcome::Limit { .. }))
}

/// The status of `run`, `bench` and `step`: 3 where a caller has failed or is stuck, or else 8 where one ended at the event limit, or
/// else 0.
fn run_status(finished: &[EndedCaller]) -> u8
    ensures { result ≡ run_status finished.now }
{
    if is_any_wrong(finished) {
        3
    } else if is_any_limit(finished) {
        8
    } else {
        0
    }
}

/// The result of `run` or `step`. With `brief` its text is the transcripts, which are in memory; otherwise it is that of the journal.
/// The scripts are given back before the text is made. The only failure is out of memory.
fn told_of_run(
    alloc: Global,
    brief: bool,
    shape: &Shape,
    scripts: Scripts,
    journal: Journal,
    tally: Option<Tally>,
    status: u8,
) -> Result<CommandResult, NoMemory>
    ensures { IfOk result (λ told. told ≡ record { journal = journal; tally = tally; status = status; text = run_text brief shape.now scripts journal; is_held = brief }) }
{
    if !brief {
        return Ok(CommandResult::with_journal_text(journal, tally, status));
    }
    let text = transcripts_text(alloc, shape, scripts, &journal)?;
    Ok(CommandResult::with_text(journal, tally, status, text))
}

/// The result of `run`: the input is a world text, whose scripts run on threads, with 1 to 4 workers and `limit` looks for a call that
/// blocks. The error is the first fault of the text, or out of memory.
pub fn run_result<R: Threads + Wait + Sync>(
    rt: &R,
    alloc: Global,
    workers: u32,
    limit: u32,
    brief: bool,
    input: Bytes,
) -> Result<CommandResult, ScriptFault>
    requires limit { 1 ≤ limit }
    requires workers { (1 ≤ workers) × (workers ≤ 4) }
    ensures told { IfOk result (λ told. HasRunOnThreads workers limit brief input told.journal told.tally told.status told.text) }
    ensures held { IfOk result (λ told. told.is_held ≡ false → writes_journal (commands.Run workers limit brief) ≡ true) }
    ensures fault { (number line : ℕ) → IsErrOf result (script_faults.At number line)
        → world_text input ≡ Err (record { number = number; line = line }) }
{
    let (shape, scripts) = read_world(alloc, input.as_slice())?;
    // The rank journals have the room of the text, of which the scripts are kept.
    drop(input);
    let RunResult {
        journal,
        tally,
        outcomes,
    } = run_on_threads(rt, alloc, &shape, &scripts, workers, limit)?;
    let status = run_status(outcomes.as_slice());
    let told = told_of_run(alloc, brief, &shape, scripts, journal, Some(tally), status)?;
    Ok(told)
}

/// The text of bench numbers.
fn numbers_text(alloc: Global, numbers: Numbers4) -> Result<Bytes, NoMemory>
    ensures { IfOk result (λ text. text ≡ numbers_text numbers) }
{
    let mut text = Bytes::new(alloc);
    text.append(b"calls ")?;
    write_number(&mut text, numbers.calls)?;
    text.append(b"\ntransfers ")?;
    write_number(&mut text, numbers.transfers)?;
    text.append(b"\nnotifications ")?;
    write_number(&mut text, numbers.notifications)?;
    text.append(b"\nsum ")?;
    write_number(&mut text, numbers.sum)?;
    text.append(b"\n")?;
    Ok(text)
}

/// The bench numbers of a journal, which is legal, since a world ran it. The only failure is out of memory.
fn numbers_of(alloc: Global, shape: &Shape, journal: &Journal) -> Result<Numbers4, NoMemory>
    requires { is_legal shape.now journal.now ≡ true }
    ensures { IfOk result (λ numbers. AreNumbers shape.now journal.now numbers) }
{
    match bench_numbers(alloc, shape, journal) {
        Ok(numbers) => Ok(numbers),
        Err(StepFault::Illegal(_)) => unreachable!(),
        Err(StepFault::NoMemory) => Err(NoMemory),
    }
}

/// The result of `bench`: its world runs on threads, with one worker and 100,000,000 looks for a call that blocks, and its text has
/// the bench numbers. The only failure is out of memory.
pub fn bench_result<R: Threads + Wait + Sync>(
    rt: &R,
    alloc: Global,
    seed: u32,
    ranks: u32,
    rounds: u32,
) -> Result<CommandResult, NoMemory>
    requires { IsWithin (commands.Bench seed ranks rounds) }
    ensures told { IfOk result (λ told. HasBenched seed ranks rounds told.journal told.tally told.status told.text) }
    ensures held { IfOk result (λ told. told.is_held ≡ true) }
{
    bench_calls();
    bench_transfers();
    bench_notifications();
    bench_words();
    let (shape, scripts) = bench_world(alloc, seed, ranks, rounds)?;
    let RunResult {
        journal,
        tally,
        outcomes,
    } = run_on_threads(rt, alloc, &shape, &scripts, 1, 100_000_000)?;
    let numbers = numbers_of(alloc, &shape, &journal)?;
    let text = numbers_text(alloc, numbers)?;
    let status = run_status(outcomes.as_slice());
    Ok(CommandResult::with_text(journal, Some(tally), status, text))
}

/// The result of `step`: the input is a world text, whose scripts run on one thread, from a seed and with `limit` looks for a call
/// that blocks. The error is the first fault of the text, or out of memory.
fn step_result(
    alloc: Global,
    seed: u32,
    limit: u32,
    brief: bool,
    input: Bytes,
) -> Result<CommandResult, ScriptFault>
    requires { 1 ≤ limit }
    ensures told { IfOk result (λ told. IsStepped seed limit brief input told.journal told.status told.text) }
    ensures plain { IfOk result (λ told. told.tally ≡ None) }
    ensures held { IfOk result (λ told. told.is_held ≡ false → writes_journal (commands.Step seed limit brief) ≡ true) }
    ensures fault { (number line : ℕ) → IsErrOf result (script_faults.At number line)
        → world_text input ≡ Err (record { number = number; line = line }) }
{
    let (shape, scripts) = read_world(alloc, input.as_slice())?;
    // The journal has the room of the text, of which the scripts are kept.
    drop(input);
    let ran = schedule(alloc, &shape, &scripts, seed, limit)?;
    let status = run_status(ran.outcomes.as_slice());
    let told = told_of_run(alloc, brief, &shape, scripts, ran.journal, None, status)?;
    Ok(told)
}

/// The result of a command that needs no threads: of `step`, `check` or `why`. The error is the first fault of the world text in the
/// input, or out of memory.
pub fn command_result(
    alloc: Global,
    command: Command,
    input: Bytes,
) -> Result<CommandResult, ScriptFault>
    requires within { IsWithin command }
    requires plain { is_plain command ≡ true }
    ensures told { IfOk result (λ told. IsCommandResult command input told.journal told.tally told.status told.text) }
    ensures held { IfOk result (λ told. told.is_held ≡ false → writes_journal command ≡ true) }
    ensures fault { (number line : ℕ) → IsErrOf result (script_faults.At number line)
        → world_read command input ≡ Err (record { number = number; line = line }) }
{
    match command {
        Command::Run { .. } | Command::Bench { .. } => unreachable!(),
        Command::Step { seed, limit, brief } => step_result(alloc, seed, limit, brief, input),
        Command::Check => judge_input(alloc, input.as_slice(), Question::Verdict),
        Command::Why { place } => judge_input(alloc, input.as_slice(), Question::Writes { place }),
    }
}
