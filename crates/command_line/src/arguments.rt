//! The command as `clap` has it: its options, its subcommands with their options, and the program of these. A contract says
//! what each is as data (`rule`, `app`; `specs/Words`), and that every option is of its subcommand alone (`local`). Each
//! function takes its memory from `alloc`; without any the subcommands and the program are an error.

ghost use Rattle.std.specs.Prelude.{◌≡◌, IfOk, false};
ghost use Rattle.clap.specs.Words.{app_of, rule_of};
ghost use Rattle.clap.specs.declared.builder.Command.TheViews.{out-Command as fields_of};
ghost use Rattle.command_line.specs.Words.{
  bench_app,
  brief_rule,
  check_app,
  judging_app,
  limit_rule,
  needed_seed_rule,
  place_rule,
  program_app,
  ranks_rule,
  rounds_rule,
  run_app,
  running_app,
  seed_rule,
  step_app,
  the_app,
  why_app,
  workers_rule,
};

use clap::{Arg, ArgAction, Command, value_parser};
use std::alloc::{AllocError, Global};

/// `--workers N`: how many workers make the transfers.
fn workers<'a>(alloc: Global) -> Arg<'a>
    ensures rule { rule_of result ≡ workers_rule }
    ensures local { result.global ≡ false }
{
    Arg::new(alloc, "workers")
        .long("workers")
        .action(ArgAction::Set)
        .value_parser(value_parser!(u32).range(1..=4))
        .default_value("1")
}

/// `--seed N`: the first number of the generator, where it may be left out.
fn seed<'a>(alloc: Global) -> Arg<'a>
    ensures rule { rule_of result ≡ seed_rule }
    ensures local { result.global ≡ false }
{
    Arg::new(alloc, "seed")
        .long("seed")
        .action(ArgAction::Set)
        .value_parser(value_parser!(u32))
        .default_value("0")
}

/// `--limit N`: how many looks a call with `block` has.
fn limit<'a>(alloc: Global) -> Arg<'a>
    ensures rule { rule_of result ≡ limit_rule }
    ensures local { result.global ≡ false }
{
    Arg::new(alloc, "limit")
        .long("limit")
        .action(ArgAction::Set)
        .value_parser(value_parser!(u32).range(1..=100_000_000))
        .default_value("1000000")
}

/// `--brief`: write the transcripts, and not the journal.
fn brief<'a>(alloc: Global) -> Arg<'a>
    ensures rule { rule_of result ≡ brief_rule }
    ensures local { result.global ≡ false }
{
    Arg::new(alloc, "brief")
        .long("brief")
        .action(ArgAction::SetTrue)
}

/// `--place K`: the place of the put of a notification.
fn place<'a>(alloc: Global) -> Arg<'a>
    ensures rule { rule_of result ≡ place_rule }
    ensures local { result.global ≡ false }
{
    Arg::new(alloc, "place")
        .long("place")
        .action(ArgAction::Set)
        .value_parser(value_parser!(u64))
        .required(true)
}

/// `--seed N`, where it may not be left out.
fn needed_seed<'a>(alloc: Global) -> Arg<'a>
    ensures rule { rule_of result ≡ needed_seed_rule }
    ensures local { result.global ≡ false }
{
    Arg::new(alloc, "seed")
        .long("seed")
        .action(ArgAction::Set)
        .value_parser(value_parser!(u32))
        .required(true)
}

/// `--ranks R`: how many ranks there are.
fn ranks<'a>(alloc: Global) -> Arg<'a>
    ensures rule { rule_of result ≡ ranks_rule }
    ensures local { result.global ≡ false }
{
    Arg::new(alloc, "ranks")
        .long("ranks")
        .action(ArgAction::Set)
        .value_parser(value_parser!(u32).range(1..=16))
        .required(true)
}

/// `--rounds M`: how many bench rounds there are.
fn rounds<'a>(alloc: Global) -> Arg<'a>
    ensures rule { rule_of result ≡ rounds_rule }
    ensures local { result.global ≡ false }
{
    Arg::new(alloc, "rounds")
        .long("rounds")
        .action(ArgAction::Set)
        .value_parser(value_parser!(u32).range(1..=5_000))
        .required(true)
}

/// The subcommand `run` with its options: `--workers`, `--limit` and `--brief`.
fn run<'a>(alloc: Global) -> Result<Command<'a>, AllocError>
    ensures app { IfOk result (λ command. app_of command ≡ run_app) }
    ensures local { IfOk result (λ command. (fields_of command).has_globals ≡ false) }
{
    Command::new(alloc, "run")
        .arg(workers(alloc))?
        .arg(limit(alloc))?
        .arg(brief(alloc))
}

/// The subcommand `step` with its options: `--seed`, `--limit` and `--brief`.
fn step<'a>(alloc: Global) -> Result<Command<'a>, AllocError>
    ensures app { IfOk result (λ command. app_of command ≡ step_app) }
    ensures local { IfOk result (λ command. (fields_of command).has_globals ≡ false) }
{
    Command::new(alloc, "step")
        .arg(seed(alloc))?
        .arg(limit(alloc))?
        .arg(brief(alloc))
}

/// The subcommand `check`, which has no option.
fn check<'a>(alloc: Global) -> Command<'a>
    ensures app { app_of result ≡ check_app }
    ensures local { (fields_of result).has_globals ≡ false }
{
    Command::new(alloc, "check")
}

/// The subcommand `why` with its option `--place`.
fn why<'a>(alloc: Global) -> Result<Command<'a>, AllocError>
    ensures app { IfOk result (λ command. app_of command ≡ why_app) }
    ensures local { IfOk result (λ command. (fields_of command).has_globals ≡ false) }
{
    Command::new(alloc, "why").arg(place(alloc))
}

/// The subcommand `bench` with its options: `--seed`, `--ranks` and `--rounds`.
fn bench<'a>(alloc: Global) -> Result<Command<'a>, AllocError>
    ensures app { IfOk result (λ command. app_of command ≡ bench_app) }
    ensures local { IfOk result (λ command. (fields_of command).has_globals ≡ false) }
{
    Command::new(alloc, "bench")
        .arg(needed_seed(alloc))?
        .arg(ranks(alloc))?
        .arg(rounds(alloc))
}

/// The program without its subcommands, of which it needs one. It has no help and no version.
fn bare_program<'a>(alloc: Global) -> Command<'a>
    ensures app { app_of result ≡ program_app }
    ensures local { (fields_of result).has_globals ≡ false }
{
    Command::new(alloc, "gaspirun")
        .no_binary_name(true)
        .disable_help_flag(true)
        .disable_version_flag(true)
        .disable_help_subcommand(true)
        .subcommand_required(true)
}

/// The program with the subcommands that run a world text.
fn running_program<'a>(alloc: Global) -> Result<Command<'a>, AllocError>
    ensures { IfOk result (λ command. app_of command ≡ running_app) }
{
    bare_program(alloc)
        .subcommand(run(alloc)?)?
        .subcommand(step(alloc)?)
}

/// The same, and the subcommands that read a journal.
fn judging_program<'a>(alloc: Global) -> Result<Command<'a>, AllocError>
    ensures { IfOk result (λ command. app_of command ≡ judging_app) }
{
    running_program(alloc)?
        .subcommand(check(alloc))?
        .subcommand(why(alloc)?)
}

/// The program, with all its subcommands.
pub(crate) fn program<'a>(alloc: Global) -> Result<Command<'a>, AllocError>
    ensures { IfOk result (λ command. app_of command ≡ the_app) }
{
    judging_program(alloc)?.subcommand(bench(alloc)?)
}
