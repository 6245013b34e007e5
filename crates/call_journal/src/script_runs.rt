//! The runs of all scripts, followed at once through the calls that a history has: which lines made the calls, and how each run
//! ended. What a table has after `NoMemory` is not said.

ghost use Rattle.std.specs.Prelude.{◌≡◌, ◌<◌, [], map, OnOk, IfOk};
ghost use Rattle.std.specs.List.{range_with_len};
ghost use Rattle.gaspi_types.specs.CallRows.{is_end};
ghost use Rattle.gaspi_types.specs.Tables.{changed_at};
ghost use Rattle.call_journal.specs.CallerTables.{HasCallers};
ghost use Rattle.call_journal.specs.ScriptRuns.{followed_run, followed_item, run_through, run_of, told_run, told_item, IsRunTable, IsToldTable};

use crate::called_lines::CalledLines;
use gaspi_types::{Call, CallerId, Event, NoMemory, RankId, Reply, Sequence, ThreadId};
use rank_script::{Cursor, RunOutcome, RunStop, Script, Scripts};
use std::alloc::Global;

/// A run of a script, followed up to some call of its caller.
#[derive(Debug, Drop)]
pub struct FollowedRun<'a> {
    /// The lines that made the calls.
    lines: CalledLines,
    cursor: Cursor<'a>,
}

/// What transcripts tell of a run, without its script.
#[derive(Debug, Drop)]
pub struct ToldRun {
    /// The lines that made the calls.
    pub lines: CalledLines,
    pub outcome: RunOutcome,
}

/// The run of each caller, by rank and thread; none where it has no script.
type FollowedRuns<'a> = Sequence<Sequence<Option<FollowedRun<'a>>>>;

/// What is told of the run of each caller, by rank and thread; none where it has no script.
pub type ToldRuns = Sequence<Sequence<Option<ToldRun>>>;

/// Whether a call is the end of its caller.
fn is_end(call: &Call) -> bool
    ensures { result ≡ is_end call.now }
{
    matches!(call, Call::End)
}

impl<'a> FollowedRun<'a> {
    /// A run before its first call.
    fn new(alloc: Global, script: &'a Script) -> Result<FollowedRun<'a>, NoMemory>
        ensures { IfOk result (λ run. run ≡ run_through script.now []) }
    {
        Ok(FollowedRun {
            lines: CalledLines::new(alloc),
            cursor: Cursor::new(alloc, script)?,
        })
    }

    /// Follows the run through a call. The end of its caller stops a run that has not ended, and no call behind is made by a line.
    fn follow(&mut self, call: &Call, reply: &Reply) -> Result<(), NoMemory>
        ensures { OnOk result (self.new ≡ followed_run self.old (call.now, reply.now)) }
    {
        if self.cursor.outcome().is_some() {
            return Ok(());
        }
        if is_end(call) {
            self.cursor.stop(RunStop::Limit);
            return Ok(());
        }
        self.lines.push(self.cursor.line())?;
        self.cursor.advance(reply);
        Ok(())
    }

    /// What is told of the run. One that has not ended came to the event limit at its present line.
    fn told(self) -> ToldRun
        ensures { result ≡ told_run self.entry }
    {
        let FollowedRun { lines, cursor } = self;
        let line = cursor.line();
        let outcome = cursor.outcome().unwrap_or(RunOutcome::Limit { line });
        ToldRun { lines, outcome }
    }
}

/// The run of a caller before its first call; none where it has no script.
fn first_run<'a>(
    alloc: Global,
    scripts: &'a Scripts,
    caller: CallerId,
) -> Result<Option<FollowedRun<'a>>, NoMemory>
    ensures { IfOk result (λ run. run ≡ run_of scripts.now [] caller.rank caller.thread) }
{
    match scripts.of(caller) {
        Some(script) => Ok(Some(FollowedRun::new(alloc, script)?)),
        None => Ok(None),
    }
}

/// The runs of the four threads of a rank, before their first calls.
fn first_row<'a>(
    alloc: Global,
    scripts: &'a Scripts,
    rank: u32,
) -> Result<Sequence<Option<FollowedRun<'a>>>, NoMemory>
    requires { rank < 16 }
    ensures { IfOk result (λ row. row ≡ map (run_of scripts.now [] rank) (range_with_len 0 4)) }
{
    let mut row = Sequence::new(alloc);
    for thread in 0..4u32 {
        let caller = CallerId {
            rank: RankId::of(rank),
            thread: ThreadId::of(thread),
        };
        row.push(first_run(alloc, scripts, caller)?)?;
    }
    Ok(row)
}

/// The runs of all callers, of 16 ranks with four threads each, before their first calls.
fn first_runs<'a>(alloc: Global, scripts: &'a Scripts) -> Result<FollowedRuns<'a>, NoMemory>
    ensures { IfOk result (λ runs. IsRunTable runs scripts.now []) }
{
    let mut runs = Sequence::new(alloc);
    for rank in 0..16u32 {
        runs.push(first_row(alloc, scripts, rank)?)?;
    }
    Ok(runs)
}

/// Follows the run of a caller through a call. The table has to have an item for each caller.
fn follow_call(
    runs: &mut FollowedRuns<'_>,
    caller: CallerId,
    call: &Call,
    reply: &Reply,
) -> Result<(), NoMemory>
    requires { HasCallers runs.old }
    ensures { OnOk result (runs.new ≡ changed_at runs.old caller.rank (λ row. changed_at row caller.thread (followed_item (call.now, reply.now)))) }
{
    let row = runs.at_mut(caller.rank.index());
    match row.at_mut(caller.thread.index()) {
        Some(run) => run.follow(call, reply),
        None => Ok(()),
    }
}

/// The runs of all callers, followed through the calls of a history.
fn followed_runs<'a>(
    alloc: Global,
    scripts: &'a Scripts,
    history: &[Event],
) -> Result<FollowedRuns<'a>, NoMemory>
    ensures { IfOk result (λ runs. IsRunTable runs scripts.now history.now) }
{
    let mut runs = first_runs(alloc, scripts)?;
    for event in history {
        if let Event::Called(caller, call, reply) = event {
            follow_call(&mut runs, *caller, call, reply)?;
        }
    }
    Ok(runs)
}

/// What is told of the runs of a rank.
fn told_row(
    alloc: Global,
    row: Sequence<Option<FollowedRun<'_>>>,
) -> Result<Sequence<Option<ToldRun>>, NoMemory>
    ensures { IfOk result (λ told. told ≡ map told_item row.entry) }
{
    let mut told = Sequence::new(alloc);
    for run in row.into_vec() {
        told.push(run.map(|run| run.told()))?;
    }
    Ok(told)
}

/// What is told of the runs of all callers.
fn told_runs(alloc: Global, runs: FollowedRuns<'_>) -> Result<ToldRuns, NoMemory>
    ensures { IfOk result (λ told. told ≡ map (map told_item) runs.entry) }
{
    let mut told = Sequence::new(alloc);
    for row in runs.into_vec() {
        told.push(told_row(alloc, row)?)?;
    }
    Ok(told)
}

/// What the calls of a history tell of the runs of all callers.
pub fn script_runs(
    alloc: Global,
    scripts: &Scripts,
    history: &[Event],
) -> Result<ToldRuns, NoMemory>
    ensures { IfOk result (λ told. IsToldTable told scripts.now history.now) }
{
    let runs = followed_runs(alloc, scripts, history)?;
    told_runs(alloc, runs)
}
