//! A measure of the commit table, for whoever times this program: two threads raise counters, as often as the words say. Each time is
//! a take of a shard, a look, a commit and a give-back.
//!
//! The words are `own` or `one`, which say whether each thread has a counter of its own, and the number of times. The number of events
//! in the closed history is written.
#![tactic(auto)]

ghost use Rattle.std.specs.Prelude.{◌<◌, IfSome};

use commit_table::raised_by_two;
use std::alloc::{AllocError, Global};
use std::env;
use std::process::ExitCode;
use std::rt::Env;

/// The status where the words are not so.
const WORDS: u8 = 1;

/// The status where the answer could not be written.
const NOT_WRITTEN: u8 = 6;

/// The status where memory ran out.
const NO_MEMORY: u8 = 7;

/// The most times that a thread raises a counter, since both may raise the same, which goes to 1,000,000.
const MOST: u64 = 500_000;

/// The counter of the second thread, and the number of times, which two words give; none where the words are not so.
fn asked(words: &[String]) -> Option<(u32, u64)>
    ensures { IfSome result (λ found. found.0 < 2) }
{
    let [counters, times] = words else {
        return None;
    };
    let counter = match counters.as_str() {
        "own" => 1,
        "one" => 0,
        _ => return None,
    };
    let times = times.as_str().parse().ok()?;
    if times > MOST {
        return None;
    }
    Some((counter, times))
}

/// The words after the program's name; no words where one of them is no text. The only failure is out of memory.
fn given_words<R: Env + Alloc<A = Global>>(rt: &R) -> Result<Vec<String>, AllocError> {
    let alloc = rt.alloc();
    match env::args(rt) {
        Ok(words) => words.skip(1).collect(alloc),
        Err(_) => Ok(Vec::new(alloc)),
    }
}

/// Reads the words, lets the threads raise their counters, and writes the number of events.
fn main(rt: HostRuntime) -> ExitCode {
    let Ok(words) = given_words(&rt) else {
        return ExitCode::from(NO_MEMORY);
    };
    let Some((counter, times)) = asked(words.as_slice()) else {
        return ExitCode::from(WORDS);
    };
    let Ok(ended) = raised_by_two(&rt, rt.alloc(), 0, counter, times) else {
        return ExitCode::from(NO_MEMORY);
    };
    match println!(rt; "{}", ended.tally.events()) {
        Ok(()) => ExitCode::from(0),
        Err(_) => ExitCode::from(NOT_WRITTEN),
    }
}
