//! Callers as bodies of a world's threads. (own choice)

use crate::script_runs::{end, run_lines};
use gaspi_world::{Body, Pass, World, waits_on};
use rank_script::{Cursor, RunOutcome, Script, runs};
use std::alloc::Global;
use std::sync::Wait;

/// A caller that runs its script in a world, and then ends. (own choice)
#[derive(Drop)]
pub struct ScriptBody<'a> {
    /// The script of the caller whose pass the body gets.
    pub script: &'a Script,
    /// How far the run has come: before `run` it is before the first line.
    pub cursor: Cursor<'a>,
    /// How many looks a call that blocks may have, one at least.
    pub limit: u32,
    /// How the run ended; none before `run`.
    pub outcome: Option<RunOutcome>,
}

impl<'a> Body for ScriptBody<'a> {
    ghost use Rattle.std.specs.Prelude.{◌≡◌};
    ghost use Rattle.rank_script.specs.Runs.{at_first_line};
    ghost use Rattle.gaspi_run.specs.Bodies.{IsRunnable, IsFresh, HasRunScript};

    ghost needs = { λ body world pass. IsRunnable body.script.now body.limit × IsFresh body.script.now world pass × (body.cursor ≡ at_first_line body.script.now.lines) };

    ghost did = { λ body pass next after. (next.script ≡ body.script) × (next.limit ≡ body.limit) × HasRunScript body.script.now body.limit next.outcome pass after };

    /// Runs the script: it makes the calls of its lines, and then, however the run ended, the end of the caller.
    fn run<R: Wait>(&mut self, rt: &R, alloc: Global, world: &World, pass: &mut Pass) {
        runs();
        waits_on();
        world.shape().limits();
        let outcome = run_lines(rt, alloc, world, pass, self);
        end(rt, alloc, world, pass);
        self.outcome = Some(outcome);
    }
}
