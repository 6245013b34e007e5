//! The program: it hands the words after its name to `gaspi_run::gaspirun`, with standard input and output. What a command does is
//! there; here are the words, the streams and the exit status.
#![tactic(auto)]

ghost use Rattle.std.specs.Prelude.{◌≡◌, map, drop, IfOk, None, Some, string_bytes};
ghost use Rattle.std.specs.Process.{exit_status};
ghost use Rattle.command_line.specs.Words.{command_of};
ghost use Rattle.command_line.specs.declared.words.Command.{Command};
ghost use Rattle.gaspi_run.specs.Command.{Refuses, Answers};
ghost use Rattle.gaspi_run.specs.declared.commands.Answer.{Answer};

use gaspi_io::{Sink, Source, StdSink, StdSource};
use gaspi_run::gaspirun;
use std::alloc::{AllocError, Global};
use std::env;
use std::io::{self, ErrorKind};
use std::process::ExitCode;
use std::rt::Env;
use std::sync::Wait;
use std::thread::Threads;

/// The status where memory ran out.
const NO_MEMORY: u8 = 7;

/// All words that the program was given, its name first. Where one of them is no text, there are no words, which the command refuses.
/// The only failure is out of memory.
fn given_words<R: Env + Alloc<A = Global>>(rt: &R) -> Result<Vec<String>, AllocError> {
    let alloc = rt.alloc();
    match env::args(rt) {
        Ok(words) => words.collect(alloc),
        Err(error) => {
            if error.kind() == ErrorKind::OutOfMemory {
                Err(AllocError)
            } else {
                Ok(Vec::new(alloc))
            }
        }
    }
}

/// The words as the command takes them: all of them, in order, each as it was given. The only failure is out of memory.
fn spelled(alloc: Global, words: &[String]) -> Result<Vec<&str>, AllocError>
    ensures { IfOk result (λ spelled. map (λ word. word.now) spelled.items ≡ map string_bytes words.now) }
{
    let mut spelled = Vec::new(alloc);
    for word in words {
        spelled.push(word.as_str())?;
    }
    Ok(spelled)
}

/// The words after the program's name, of all that it was given. The only failure is out of memory.
fn after_name(alloc: Global, words: &[String]) -> Result<Vec<&str>, AllocError>
    ensures { IfOk result (λ spelled. map (λ word. word.now) spelled.items ≡ map string_bytes (drop 1 words.now)) }
{
    match words {
        [] => Ok(Vec::new(alloc)),
        [_name, rest @ ..] => spelled(alloc, rest),
    }
}

/// A status as the process gives it.
fn exit_code(status: u8) -> ExitCode
    ensures { exit_status result ≡ status }
{
    ExitCode::from(status)
}

/// The program, with the words that it was given, its name first: does what the others ask for, and gives the exit status. `main`
/// calls it with the streams of the system.
fn run<R: Threads + Wait + Sync, S: Source, K: Sink>(
    rt: &R,
    alloc: Global,
    given: &[String],
    source: &mut S,
    sink: &mut K,
) -> ExitCode
    ensures refused { command_of (map string_bytes (drop 1 given.now)) ≡ None
        → (answer : Answer) × (exit_status result ≡ answer.status)
        × Refuses (K.held sink.old) (K.held sink.new) (K.faults sink.old) (K.faults sink.new) answer × (source.new ≡ source.old) }
    ensures answers { (command : Command) → command_of (map string_bytes (drop 1 given.now)) ≡ Some command
        → (answer : Answer) × (exit_status result ≡ answer.status)
        × Answers command (S.left source.old) (S.left source.new) (S.faults source.old) (S.faults source.new)
        (K.held sink.old) (K.held sink.new) (K.faults sink.old) (K.faults sink.new) answer }
{
    let Ok(words) = after_name(alloc, given) else {
        return exit_code(NO_MEMORY);
    };
    let answer = gaspirun(rt, alloc, words.as_slice(), source, sink);
    exit_code(answer.status)
}

/// Runs the program on its words, standard input and standard output.
fn main(rt: HostRuntime) -> ExitCode {
    let Ok(given) = given_words(&rt) else {
        return exit_code(NO_MEMORY);
    };
    let mut source = StdSource::new(rt.reader());
    let mut sink = StdSink::new(io::writer(&rt));
    run(&rt, rt.alloc(), given.as_slice(), &mut source, &mut sink)
}
