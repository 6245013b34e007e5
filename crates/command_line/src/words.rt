//! The words of the command line, read into a command. The private functions read what clap found in them.

ghost use Rattle.std.specs.Prelude.{◌≡◌, ◌≢◌, ◌≤◌, IfOk, ℕ, Bool, Some, codes, map, None};
ghost use Rattle.clap.specs.Words.{found_of, kind_of, rows_of, subcommand_rows_of};
ghost use Rattle.command_line.specs.Words.{bench_of, command_of, flag_at, number_at, run_of, step_of, why_of, words_in};

use crate::arguments::program;
use clap::error::ErrorKind;
use clap::{ArgMatches, Error};
use gaspi_types::NoMemory;
use std::alloc::Global;

/// What the program has to do.
#[derive(Clone, Copy, Debug, PartialEq, Eq)]
pub enum Command {
    /// `run`: run a world text on threads.
    Run {
        /// How many workers make the transfers, from 1 to 4.
        workers: u32,
        /// How many looks a call with `block` has, from 1 to 100,000,000.
        limit: u32,
        /// Whether the transcripts are written, and not the journal.
        brief: bool,
    },
    /// `step`: run a world text on one thread.
    Step {
        /// The first number of the generator.
        seed: u32,
        /// How many looks a call with `block` has, from 1 to 100,000,000.
        limit: u32,
        /// Whether the transcripts are written, and not the journal.
        brief: bool,
    },
    /// `check`: say whether a journal is legal.
    Check,
    /// `why`: say which writes a notification of a journal covers.
    Why {
        /// The place of the put of the notification, from 0.
        place: u64,
    },
    /// `bench`: run a world that is made from a seed, and write its bench numbers.
    Bench {
        /// The first number of the generator.
        seed: u32,
        /// How many ranks there are, from 1 to 16.
        ranks: u32,
        /// How many bench rounds there are, from 1 to 5,000.
        rounds: u32,
    },
}

/// The number of the option with the name `id`, or None where it is not there.
fn number(matches: &ArgMatches<'_>, id: &str) -> Option<u32>
    ensures { result ≡ number_at 32 id.now (rows_of (found_of matches.now)) }
{
    matches.get_one::<u32>(id)
}

/// The place after `--place`, or None where it is not there.
fn place(matches: &ArgMatches<'_>) -> Option<u64>
    ensures { result ≡ number_at 64 (codes "place") (rows_of (found_of matches.now)) }
{
    matches.get_one::<u64>("place")
}

/// Whether the flag with the name `id` was given.
fn flag(matches: &ArgMatches<'_>, id: &str) -> bool
    ensures { result ≡ flag_at id.now (rows_of (found_of matches.now)) }
{
    match matches.get_str(id) {
        Some(text) => text == "true",
        None => false,
    }
}

/// What the words after `run` ask for, or None where an option is not there.
fn run(matches: &ArgMatches<'_>) -> Option<Command>
    ensures { result ≡ run_of (rows_of (found_of matches.now)) }
{
    let workers = number(matches, "workers")?;
    let limit = number(matches, "limit")?;
    let brief = flag(matches, "brief");
    Some(Command::Run {
        workers,
        limit,
        brief,
    })
}

/// What the words after `step` ask for, or None where an option is not there.
fn step(matches: &ArgMatches<'_>) -> Option<Command>
    ensures { result ≡ step_of (rows_of (found_of matches.now)) }
{
    let seed = number(matches, "seed")?;
    let limit = number(matches, "limit")?;
    let brief = flag(matches, "brief");
    Some(Command::Step { seed, limit, brief })
}

/// What the words after `why` ask for, or None where an option is not there.
fn why(matches: &ArgMatches<'_>) -> Option<Command>
    ensures { result ≡ why_of (rows_of (found_of matches.now)) }
{
    let place = place(matches)?;
    Some(Command::Why { place })
}

/// What the words after `bench` ask for, or None where an option is not there.
fn bench(matches: &ArgMatches<'_>) -> Option<Command>
    ensures { result ≡ bench_of (rows_of (found_of matches.now)) }
{
    let seed = number(matches, "seed")?;
    let ranks = number(matches, "ranks")?;
    let rounds = number(matches, "rounds")?;
    Some(Command::Bench {
        seed,
        ranks,
        rounds,
    })
}

/// What the subcommand and its words ask for; None where there is none of these subcommands.
fn asked(matches: &ArgMatches<'_>) -> Option<Command>
    ensures { result ≡ words_in (subcommand_rows_of matches.now) }
{
    let (name, inner) = matches.subcommand()?;
    if name == "run" {
        run(inner)
    } else if name == "step" {
        step(inner)
    } else if name == "check" {
        Some(Command::Check)
    } else if name == "why" {
        why(inner)
    } else if name == "bench" {
        bench(inner)
    } else {
        None
    }
}

/// None for words that clap refuses, or `NoMemory` where it had no memory.
fn refused(error: &Error) -> Result<Option<Command>, NoMemory>
    ensures { IfOk result (λ command. (command ≡ None) × (kind_of error.now ≢ ErrorKind.OutOfMemory)) }
{
    match error.kind() {
        ErrorKind::OutOfMemory => Err(NoMemory),
        _ => Ok(None),
    }
}

/// What the words after the program's name ask for: `run [--workers N] [--limit N] [--brief]`, `step [--seed N] [--limit N]
/// [--brief]`, `check`, `why --place K` or `bench --seed N --ranks R --rounds M`. None where the words are refused.
pub fn read_words(alloc: Global, words: &[&str]) -> Result<Option<Command>, NoMemory>
    ensures command { IfOk result (λ command. command ≡ command_of (map (λ word. word.now) words.now)) }
    ensures workers { IfOk result (λ command. (workers limit : ℕ) (brief : Bool)
        → command ≡ Some (Command.Run workers limit brief)
        → (1 ≤ workers) × (workers ≤ 4) × (1 ≤ limit) × (limit ≤ 100000000)) }
    ensures limit { IfOk result (λ command. (seed limit : ℕ) (brief : Bool)
        → command ≡ Some (Command.Step seed limit brief) → (1 ≤ limit) × (limit ≤ 100000000)) }
    ensures bench { IfOk result (λ command. (seed ranks rounds : ℕ)
        → command ≡ Some (Command.Bench seed ranks rounds)
        → (1 ≤ ranks) × (ranks ≤ 16) × (1 ≤ rounds) × (rounds ≤ 5000)) }
{
    let program = program(alloc)?;
    match program.try_get_matches_from(words) {
        Ok(matches) => Ok(asked(&matches)),
        Err(error) => refused(&error),
    }
}
