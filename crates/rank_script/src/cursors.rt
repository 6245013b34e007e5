//! A cursor walks a script call by call. The present call is the one to be made next, and the present line has it. The tests of a line
//! and a reply, which say where it goes on, are here too.

ghost use Rattle.std.specs.Prelude.{◌≡◌, ◌+◌, ◌<◌, ◌^◌, true, IfOk, IfSome, Some};
ghost use Rattle.std.specs.Option.{option_map};
ghost use Rattle.rank_script.specs.Runs.{RunEnded, at_first_line, advanced, stopped, present_of, line_of, outcome_of, is_stuck, is_retried, is_failed, is_timeout};

use crate::remaining::Remaining;
use crate::scripts::{RunOutcome, RunStop, Script, ScriptLine};
use gaspi_model::same_reply;
use gaspi_types::{Call, NoMemory, Reply, Timeout};
use std::alloc::Global;
use std::marker::Model;

/// How far a run of a script has come: the lines whose calls are still to be made, or how the run ended.
#[derive(Debug, Drop)]
pub struct Cursor<'a> {
    /// The lines whose calls are still to be made, the present one first.
    left: Remaining<'a>,
    /// How often the present line's call was made already.
    made: u32,
    /// How the run ended, where no line is left.
    ending: RunOutcome,
}

impl<'a> Model for Cursor<'a> {
    ghost use Rattle.rank_script.specs.Runs.{RunPosition};

    ghost Value = { RunPosition };

    ghost use Rattle.rank_script.specs.Cursors.{going_or_over};

    ghost view = { λ c. going_or_over c.left c.made c.ending };
}

impl<'a> Cursor<'a> {
    /// A run before its first line. Where the lines are those of `bench`, memory for one bench round is taken here; the run takes none
    /// later. The only failure is out of memory.
    pub fn new(alloc: Global, script: &'a Script) -> Result<Cursor<'a>, NoMemory>
        ensures { IfOk result (λ cursor. cursor ≡ at_first_line script.now.lines) }
    {
        Ok(Cursor {
            left: Remaining::new(alloc, &script.lines)?,
            made: 0,
            ending: RunOutcome::Ended,
        })
    }

    /// The present call with its timeout; none exactly where the run has ended.
    pub fn present(&self) -> Option<(&Call, Timeout)>
        ensures { option_map (λ call. (call.0.now, call.1)) result ≡ present_of self.now }
    {
        let line = self.left.first()?;
        Some((&line.call, line.timeout.get()))
    }

    /// The present call with its timeout, lent for as long as the script is, so that it serves while the run moves on. None where the
    /// run has ended, and for a line of `bench`, which no script has in memory.
    pub fn present_in_memory(&self) -> Option<(&'a Call, Timeout)>
        ensures { IfSome result (λ call. present_of self.now ≡ Some (call.0.now, call.1)) }
    {
        let line = self.left.first_in_memory()?;
        Some((&line.call, line.timeout.get()))
    }

    /// Goes on after the reply of the present call. A timeout on a line that blocks ends the run as stuck. After another timeout the
    /// same call is present again, while its line has tries left. Then a reply that is not the expected one ends the run as failed;
    /// otherwise the next line is present. A run that has ended stays as it is.
    pub fn advance(&mut self, reply: &Reply)
        ensures { self.new ≡ advanced self.old reply.now }
    {
        let Some(line) = self.left.first() else {
            return;
        };
        let number = line.number;
        if is_stuck(line, reply) {
            self.end(RunOutcome::Stuck { line: number });
        } else if is_retried(line, self.made, reply) {
            self.made += 1;
        } else if is_failed(line, reply) {
            self.end(RunOutcome::Failed { line: number });
        } else {
            self.left.step();
            self.made = 0;
            self.ending = RunOutcome::Ended;
        }
    }

    /// Ends the run with this outcome, for `advance` and `stop`.
    fn end(&mut self, outcome: RunOutcome)
        ensures { self.new ≡ RunEnded outcome }
    {
        self.left.clear();
        self.ending = outcome;
    }

    /// Ends the run before the present call, which is not made; `halted` says why. A run that has ended stays as it is.
    pub fn stop(&mut self, halted: RunStop)
        ensures { self.new ≡ stopped self.old halted }
    {
        let Some(line) = self.left.first() else {
            return;
        };
        let line = line.number;
        self.end(match halted {
            RunStop::Limit => RunOutcome::Limit { line },
            RunStop::NoMemory => RunOutcome::NoMemory { line },
        });
    }

    /// The number of the present line; 0 where the run has ended.
    pub fn line(&self) -> u64
        ensures { result ≡ line_of self.now }
    {
        match self.left.first() {
            Some(line) => line.number,
            None => 0,
        }
    }

    /// How the run ended; none where it has not.
    pub fn outcome(&self) -> Option<RunOutcome>
        ensures { result ≡ outcome_of self.now }
    {
        match self.left.first() {
            Some(_) => None,
            None => Some(self.ending),
        }
    }
}

/// Whether a reply ends the run at its line: a timeout on a line that blocks.
fn is_stuck(line: &ScriptLine, reply: &Reply) -> bool
    ensures { result ≡ is_stuck line.now reply.now }
{
    matches!(line.timeout.get(), Timeout::Block) && is_timeout(reply)
}

/// Whether a line's call is made again after a reply: it timed out, and the line has tries left. `made` is how often the call was made
/// before the one with this reply.
fn is_retried(line: &ScriptLine, made: u32, reply: &Reply) -> bool
    ensures exact { result ≡ is_retried line.now made reply.now }
    ensures room { result ≡ true → made + 1 < 2 ^ 32 }
{
    is_timeout(reply) && made < line.tries && made + 1 < line.tries
}

/// Whether a line expects another reply than this, which is its last. A line that expects none never does.
fn is_failed(line: &ScriptLine, reply: &Reply) -> bool
    ensures { result ≡ is_failed line.now reply.now }
{
    match &line.expected {
        Some(expected) => !same_reply(reply, expected.reply()),
        None => false,
    }
}

/// Whether a reply is a timeout.
fn is_timeout(reply: &Reply) -> bool
    ensures { result ≡ is_timeout reply.now }
{
    matches!(reply, Reply::Timeout)
}
