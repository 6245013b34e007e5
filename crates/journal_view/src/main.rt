//! The program: it hands `view` the words after its name, standard input and standard output, and gives the process the exit
//! status.
#![tactic(auto)]

ghost use Rattle.std.specs.Prelude.{◌≡◌, map, drop, IfOk, None, Some, string_bytes};
ghost use Rattle.std.specs.Process.{exit_status};
ghost use Rattle.journal_view.specs.Answers.{Answers, Refuses};
ghost use Rattle.journal_view.specs.Words.{picture_of};
ghost use Rattle.journal_view.specs.declared.words.Picture.{Picture};

mod answering;
mod laws;
mod viewing;
mod words;

use answering::view;
use gaspi_io::{Sink, Source, StdSink, StdSource};
use std::alloc::{AllocError, Global};
use std::env;
use std::io::{self, ErrorKind};
use std::process::ExitCode;
use std::rt::Env;

/// The exit status where memory runs out.
const NO_MEMORY: u8 = 7;

/// All words that the program was given, its name first, or an error where memory runs out. Where one of them is no text the
/// list is empty, and so refused.
fn given_words<R: Env + Alloc<A = Global>>(rt: &R) -> Result<Vec<String>, AllocError> {
    let alloc = rt.alloc();
    match env::args(rt) {
        Ok(words) => words.collect(alloc),
        Err(error) => {
            if error.kind() == ErrorKind::OutOfMemory {
                Err(AllocError)
            } else {
                Ok(Vec::new(alloc))
            }
        }
    }
}

/// The words as they are read: all of them, in order, each as it was given. Takes memory for the list alone.
fn spelled(alloc: Global, words: &[String]) -> Result<Vec<&str>, AllocError>
    ensures { IfOk result (λ spelled. map (λ word. word.now) spelled.items ≡ map string_bytes words.now) }
{
    let mut spelled = Vec::new(alloc);
    for word in words {
        spelled.push(word.as_str())?;
    }
    Ok(spelled)
}

/// The words after the program's name, of all that it was given.
fn after_name(alloc: Global, words: &[String]) -> Result<Vec<&str>, AllocError>
    ensures { IfOk result (λ spelled. map (λ word. word.now) spelled.items ≡ map string_bytes (drop 1 words.now)) }
{
    match words {
        [] => Ok(Vec::new(alloc)),
        [_name, rest @ ..] => spelled(alloc, rest),
    }
}

/// An exit status in the type of the system.
fn exit_code(status: u8) -> ExitCode
    ensures { exit_status result ≡ status }
{
    ExitCode::from(status)
}

/// The program on all words that it was given: the status of `view`, or 7 where memory runs out before.
fn run<S: Source, K: Sink>(
    alloc: Global,
    given: &[String],
    source: &mut S,
    sink: &mut K,
) -> ExitCode
    ensures refused { picture_of (map string_bytes (drop 1 given.now)) ≡ None
        → Refuses (K.held sink.old) (K.held sink.new) (K.faults sink.old) (K.faults sink.new) (exit_status result) × (source.new ≡ source.old) }
    ensures answers { (picture : Picture) → picture_of (map string_bytes (drop 1 given.now)) ≡ Some picture
        → Answers picture (S.left source.old) (S.left source.new) (S.faults source.old) (S.faults source.new)
        (K.held sink.old) (K.held sink.new) (K.faults sink.old) (K.faults sink.new) (exit_status result) }
{
    let Ok(words) = after_name(alloc, given) else {
        return exit_code(NO_MEMORY);
    };
    exit_code(view(alloc, words.as_slice(), source, sink))
}

/// The program over the words, the streams and the memory of the system.
fn main(rt: HostRuntime) -> ExitCode {
    let Ok(given) = given_words(&rt) else {
        return exit_code(NO_MEMORY);
    };
    let mut source = StdSource::new(rt.reader());
    let mut sink = StdSink::new(io::writer(&rt));
    run(rt.alloc(), given.as_slice(), &mut source, &mut sink)
}
