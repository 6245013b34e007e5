//! The words of the command line: the flags as clap has them, and the picture for which words ask. A contract says what a flag
//! or the program is as data (`rule`, `app`; `specs/Words`), and that no flag is of another command (`local`).

ghost use Rattle.std.specs.Prelude.{◌≡◌, ◌≢◌, IfOk, false, map, None};
ghost use Rattle.clap.specs.Words.{app_of, found_of, kind_of, rows_of, rule_of};
ghost use Rattle.clap.specs.declared.builder.Command.TheViews.{out-Command as fields_of};
ghost use Rattle.journal_view.specs.Words.{flag_at, picture_in, picture_of, program_app, sequence_rule, the_app, trace_rule};

use clap::error::ErrorKind;
use clap::{Arg, ArgAction, ArgMatches, Command, Error};
use gaspi_types::NoMemory;
use std::alloc::{AllocError, Global};

/// A picture of a journal.
#[derive(Clone, Copy, Debug, PartialEq, Eq)]
pub enum Picture {
    /// `--sequence`: a sequence diagram, in the text of Mermaid.
    Sequence,
    /// `--trace`: a trace, in the JSON of the Chrome trace event format.
    Trace,
}

/// The flag `--sequence`.
fn sequence<'a>(alloc: Global) -> Arg<'a>
    ensures rule { rule_of result ≡ sequence_rule }
    ensures local { result.global ≡ false }
{
    Arg::new(alloc, "sequence")
        .long("sequence")
        .action(ArgAction::SetTrue)
}

/// The flag `--trace`.
fn trace<'a>(alloc: Global) -> Arg<'a>
    ensures rule { rule_of result ≡ trace_rule }
    ensures local { result.global ≡ false }
{
    Arg::new(alloc, "trace")
        .long("trace")
        .action(ArgAction::SetTrue)
}

/// The program without its flags. It has no help and no version.
fn bare_program<'a>(alloc: Global) -> Command<'a>
    ensures app { app_of result ≡ program_app }
    ensures local { (fields_of result).has_globals ≡ false }
{
    Command::new(alloc, "journal_view")
        .no_binary_name(true)
        .disable_help_flag(true)
        .disable_version_flag(true)
}

/// The program with its flags.
fn program<'a>(alloc: Global) -> Result<Command<'a>, AllocError>
    ensures { IfOk result (λ command. app_of command ≡ the_app) }
{
    bare_program(alloc).arg(sequence(alloc))?.arg(trace(alloc))
}

/// Whether the flag with the name `id` was given.
fn flag(matches: &ArgMatches<'_>, id: &str) -> bool
    ensures { result ≡ flag_at id.now (rows_of (found_of matches.now)) }
{
    match matches.get_str(id) {
        Some(text) => text == "true",
        None => false,
    }
}

/// The picture for which the flags ask, or None unless exactly one of them was given.
fn asked(matches: &ArgMatches<'_>) -> Option<Picture>
    ensures { result ≡ picture_in (rows_of (found_of matches.now)) }
{
    match (flag(matches, "sequence"), flag(matches, "trace")) {
        (true, false) => Some(Picture::Sequence),
        (false, true) => Some(Picture::Trace),
        _ => None,
    }
}

/// None for words that clap refuses, or `NoMemory` where it had no memory.
fn refused(error: &Error) -> Result<Option<Picture>, NoMemory>
    ensures { IfOk result (λ picture. (picture ≡ None) × (kind_of error.now ≢ ErrorKind.OutOfMemory)) }
{
    match error.kind() {
        ErrorKind::OutOfMemory => Err(NoMemory),
        _ => Ok(None),
    }
}

/// The picture for which the words after the program's name ask: `--sequence` or `--trace`. None where the words are refused.
pub fn read_words(alloc: Global, words: &[&str]) -> Result<Option<Picture>, NoMemory>
    ensures { IfOk result (λ picture. picture ≡ picture_of (map (λ word. word.now) words.now)) }
{
    let program = program(alloc)?;
    match program.try_get_matches_from(words) {
        Ok(matches) => Ok(asked(&matches)),
        Err(error) => refused(&error),
    }
}
