//! The commands of the program: what each reads, writes and answers. All that is written goes to `sink`, and all that is read comes
//! from `source`; nothing is written before all is read.

ghost use Rattle.std.specs.Prelude.{◌≡◌, ◌⊎◌, true, map, None, Some, Err, IfOk};
ghost use Rattle.gaspi_io.specs.Faults.{HasCause};
ghost use Rattle.gaspi_io.specs.Sink.{with_more, AddsPrefix};
ghost use Rattle.command_line.specs.Words.{command_of};
ghost use Rattle.command_line.specs.declared.words.Command.{Command};
ghost use Rattle.command_line.specs.declared.words.Command.TheVariants as commands;
ghost use Rattle.gaspi_run.specs.Command.{fault_text, IsWithin, is_plain, HasNoJournal, Refuses, AnswersBench, Answers};
ghost use Rattle.gaspi_run.specs.Answering.{AnswersFault, AnswersResult, AnswersStop};

use crate::command_results::CommandResult;
use crate::results::{bench_result, command_result, run_result};
use command_line::{Command, read_words};
use gaspi_io::{Failed, ReadStop, Sink, Source, read_all, write_all};
use gaspi_texts::{Journal, write_number};
use gaspi_types::{Bytes, NoMemory, Sequence};
use gaspi_world::Tally;
use rank_script::{MOST_INPUT_BYTES, ScriptFault};
use std::alloc::Global;
use std::sync::Wait;
use std::thread::Threads;

/// The program's answer: its exit status, the history of the world that it ran or the journal that it read, and what is known of
/// the closed world where threads ran it.
///
/// | Status | Where |
/// |---|---|
/// | 0 | every run came past its last line; of `check`: the journal is legal; of `why`: and its notification was put there |
/// | 1 | the words are refused |
/// | 2 | the world text has a fault |
/// | 3 | a caller has failed or is stuck |
/// | 4 | `check`, `why`: there is no journal, or it is not legal; `why`: no notification was put at that place |
/// | 5 | a read failed |
/// | 6 | a write failed |
/// | 7 | out of memory |
/// | 8 | a caller ended at the event limit, and none has failed or is stuck |
#[derive(Drop)]
pub struct Answer {
    /// The exit status.
    pub status: u8,
    /// The history of the world that was run, or the journal that was read; empty where neither came to be.
    pub journal: Journal,
    /// What is known of the closed world; none where no threads ran one.
    pub tally: Option<Tally>,
}

/// The text that names a fault of a world text and its line. The only failure is out of memory.
fn fault_line(alloc: Global, number: u32, line: u64) -> Result<Bytes, NoMemory>
    ensures { IfOk result (λ text. text ≡ fault_text (record { number = number; line = line })) }
{
    let mut text = Bytes::new(alloc);
    text.append(b"fault S")?;
    write_number(&mut text, u64::from(number))?;
    text.append(b" line ")?;
    write_number(&mut text, line)?;
    text.append(b"\n")?;
    Ok(text)
}

/// Writes a text, and gives the status that it is called with, or 6 where the text could not be written whole: then a prefix of it
/// was.
fn status_of<K: Sink>(sink: &mut K, text: &[u8], status: u8) -> u8
    ensures { ((result ≡ status) × (K.held sink.new ≡ with_more (K.held sink.old) text.now) × (K.faults sink.new ≡ K.faults sink.old))
        ⊎ ((result ≡ 6) × AddsPrefix text.now (K.held sink.old) (K.held sink.new) × HasCause (K.faults sink.old) (K.faults sink.new)) }
{
    match write_all(sink, text) {
        Ok(()) => status,
        Err(Failed) => 6,
    }
}

/// An answer with a status alone: no history, and nothing known of a world.
fn answer_without_journal(alloc: Global, status: u8) -> Answer
    ensures { (result.status ≡ status) × HasNoJournal result }
{
    Answer {
        status,
        journal: Sequence::new(alloc),
        tally: None,
    }
}

/// Writes the line that names a fault of the input, and answers status 2; 6 where it could not be written whole, 7 where there was no
/// memory for it.
fn answer_fault<K: Sink>(alloc: Global, sink: &mut K, number: u32, line: u64) -> Answer
    ensures { AnswersFault (K.held sink.old) (K.held sink.new) (K.faults sink.old) (K.faults sink.new) result (record { number = number; line = line }) }
{
    let status = match fault_line(alloc, number, line) {
        Ok(text) => status_of(sink, text.as_slice(), 2),
        Err(NoMemory) => 7,
    };
    answer_without_journal(alloc, status)
}

/// Writes what a command made of its input, or the fault of the input, and answers it. `told` is what the command's function gave.
fn answer_result<K: Sink>(
    alloc: Global,
    sink: &mut K,
    told: Result<CommandResult, ScriptFault>,
) -> Answer
    ensures { AnswersResult (K.held sink.old) (K.held sink.new) (K.faults sink.old) (K.faults sink.new) result told }
{
    match told {
        Ok(told) => match told.write(alloc, sink) {
            Ok(status) => {
                let (journal, tally) = told.into_history();
                Answer {
                    status,
                    journal,
                    tally,
                }
            }
            Err(NoMemory) => answer_without_journal(alloc, 7),
        },
        Err(ScriptFault::At { number, line }) => answer_fault(alloc, sink, number, line),
        Err(ScriptFault::NoMemory) => answer_without_journal(alloc, 7),
    }
}

/// Answers an input that was not read, by why the read stopped: it failed (5), the input is too long (fault S1 at line 0), or out of
/// memory (7).
fn answer_stop<K: Sink>(alloc: Global, sink: &mut K, stop: ReadStop) -> Answer
    ensures { AnswersStop (K.held sink.old) (K.held sink.new) (K.faults sink.old) (K.faults sink.new) result stop }
{
    match stop {
        ReadStop::Fault => answer_without_journal(alloc, 5),
        ReadStop::Long => answer_fault(alloc, sink, 1, 0),
        ReadStop::NoMemory => answer_without_journal(alloc, 7),
    }
}

/// Answers a command that needs no threads: reads all that the source has left, and writes what the command makes of it.
pub fn run_command<S: Source, K: Sink>(
    alloc: Global,
    command: Command,
    source: &mut S,
    sink: &mut K,
) -> Answer
    requires within { IsWithin command }
    requires plain { is_plain command ≡ true }
    ensures { Answers command (S.left source.old) (S.left source.new) (S.faults source.old) (S.faults source.new)
        (K.held sink.old) (K.held sink.new) (K.faults sink.old) (K.faults sink.new) result }
{
    match read_all(alloc, source, MOST_INPUT_BYTES as u64) {
        Ok(input) => answer_result(alloc, sink, command_result(alloc, command, input)),
        Err(stop) => answer_stop(alloc, sink, stop),
    }
}

/// Answers `run`: reads all that the source has left, runs its scripts on threads, and writes the journal, or with `brief` the
/// transcripts.
pub fn run_threads<R: Threads + Wait + Sync, S: Source, K: Sink>(
    rt: &R,
    alloc: Global,
    workers: u32,
    limit: u32,
    brief: bool,
    source: &mut S,
    sink: &mut K,
) -> Answer
    requires { IsWithin (commands.Run workers limit brief) }
    ensures { Answers (commands.Run workers limit brief) (S.left source.old) (S.left source.new) (S.faults source.old) (S.faults source.new)
        (K.held sink.old) (K.held sink.new) (K.faults sink.old) (K.faults sink.new) result }
{
    match read_all(alloc, source, MOST_INPUT_BYTES as u64) {
        Ok(input) => {
            let told = run_result(rt, alloc, workers, limit, brief, input);
            answer_result(alloc, sink, told)
        }
        Err(stop) => answer_stop(alloc, sink, stop),
    }
}

/// Answers `bench`: runs its world on threads, and writes the bench numbers. It reads nothing.
pub fn run_bench<R: Threads + Wait + Sync, K: Sink>(
    rt: &R,
    alloc: Global,
    seed: u32,
    ranks: u32,
    rounds: u32,
    sink: &mut K,
) -> Answer
    requires { IsWithin (commands.Bench seed ranks rounds) }
    ensures { AnswersBench seed ranks rounds (K.held sink.old) (K.held sink.new) (K.faults sink.old) (K.faults sink.new) result }
{
    match bench_result(rt, alloc, seed, ranks, rounds) {
        Ok(told) => answer_result(alloc, sink, Ok(told)),
        Err(NoMemory) => answer_without_journal(alloc, 7),
    }
}

/// Answers a command whose words were read.
fn answer_command<R: Threads + Wait + Sync, S: Source, K: Sink>(
    rt: &R,
    alloc: Global,
    command: Command,
    source: &mut S,
    sink: &mut K,
) -> Answer
    requires { IsWithin command }
    ensures { Answers command (S.left source.old) (S.left source.new) (S.faults source.old) (S.faults source.new)
        (K.held sink.old) (K.held sink.new) (K.faults sink.old) (K.faults sink.new) result }
{
    match command {
        Command::Run {
            workers,
            limit,
            brief,
        } => run_threads(rt, alloc, workers, limit, brief, source, sink),
        Command::Bench {
            seed,
            ranks,
            rounds,
        } => run_bench(rt, alloc, seed, ranks, rounds, sink),
        Command::Step { .. } | Command::Check | Command::Why { .. } => {
            run_command(alloc, command, source, sink)
        }
    }
}

/// The program: does what the words after its name ask for, with its input, and writes its output. Where the words are refused,
/// nothing is read, and the status is 1. Of the commands `run` and `bench` use threads and wait.
pub fn gaspirun<R: Threads + Wait + Sync, S: Source, K: Sink>(
    rt: &R,
    alloc: Global,
    words: &[&str],
    source: &mut S,
    sink: &mut K,
) -> Answer
    ensures refused { command_of (map (λ word. word.now) words.now) ≡ None
        → Refuses (K.held sink.old) (K.held sink.new) (K.faults sink.old) (K.faults sink.new) result × (source.new ≡ source.old) }
    ensures answers { (command : Command) → command_of (map (λ word. word.now) words.now) ≡ Some command
        → Answers command (S.left source.old) (S.left source.new) (S.faults source.old) (S.faults source.new)
        (K.held sink.old) (K.held sink.new) (K.faults sink.old) (K.faults sink.new) result }
{
    match read_words(alloc, words) {
        Ok(Some(command)) => answer_command(rt, alloc, command, source, sink),
        Ok(None) => {
            let status = status_of(sink, b"gaspirun: words refused\n", 1);
            answer_without_journal(alloc, status)
        }
        Err(NoMemory) => answer_without_journal(alloc, 7),
    }
}
