//! The calls of each caller in a history, found for all callers at once, for transcripts. What a table has after `NoMemory` is
//! not said.

ghost use Rattle.std.specs.Prelude.{◌≡◌, ◌<◌, ◌++◌, ◌∷◌, [], List, replicate, OnOk, IfOk};
ghost use Rattle.gaspi_types.specs.Tables.{changed_at};
ghost use Rattle.call_journal.specs.CallerTables.{HasCallers};
ghost use Rattle.call_journal.specs.OwnCalls.{IsCallTable};
ghost use Rattle.call_journal.specs.declared.own_calls.RecordedCall.{RecordedCall};

use crate::script_runs::ToldRuns;
use gaspi_types::{Call, CallerId, Event, NoMemory, RankId, Reply, Sequence, ThreadId};
use std::alloc::Global;

/// A recorded call and its reply, lent by the history.
#[derive(Clone, Copy, Debug)]
pub struct RecordedCall<'a> {
    pub call: &'a Call,
    pub reply: &'a Reply,
}

/// The recorded calls of each caller, by rank and thread, each list in the order of the history.
pub type RecordedCalls<'a> = Sequence<Sequence<Sequence<RecordedCall<'a>>>>;

/// An empty list for a caller, with memory for the calls that the lines of its script made, and for its end.
fn empty_list<'a>(
    alloc: Global,
    caller: CallerId,
    runs: &ToldRuns,
) -> Result<Sequence<RecordedCall<'a>>, NoMemory>
    requires { HasCallers runs.now }
    ensures { IfOk result (λ calls. calls ≡ []) }
{
    let row = runs.at(caller.rank.index());
    match row.at(caller.thread.index()) {
        Some(run) => Sequence::with_capacity(alloc, run.lines.count().saturating_add(1)),
        None => Ok(Sequence::new(alloc)),
    }
}

/// An empty list for each of four threads of a rank.
fn empty_row<'a>(
    alloc: Global,
    rank: u32,
    runs: &ToldRuns,
) -> Result<Sequence<Sequence<RecordedCall<'a>>>, NoMemory>
    requires rank { rank < 16 }
    requires callers { HasCallers runs.now }
    ensures { IfOk result (λ row. row ≡ replicate 4 []) }
{
    let mut row = Sequence::new(alloc);
    for thread in 0..4u32 {
        let caller = CallerId {
            rank: RankId::of(rank),
            thread: ThreadId::of(thread),
        };
        row.push(empty_list(alloc, caller, runs)?)?;
    }
    Ok(row)
}

/// The table without a call, for 16 ranks with four threads each.
fn empty_table<'a>(alloc: Global, runs: &ToldRuns) -> Result<RecordedCalls<'a>, NoMemory>
    requires { HasCallers runs.now }
    ensures { IfOk result (λ table. table ≡ replicate 16 (replicate 4 [])) }
{
    let mut table = Sequence::new(alloc);
    for rank in 0..16u32 {
        table.push(empty_row(alloc, rank, runs)?)?;
    }
    Ok(table)
}

/// Adds the call `own` behind the others of its caller. The table has to have a list for each caller.
fn add_call<'a>(
    table: &mut RecordedCalls<'a>,
    caller: CallerId,
    own: RecordedCall<'a>,
) -> Result<(), NoMemory>
    requires { HasCallers table.old }
    ensures { OnOk result (table.new ≡ changed_at table.old caller.rank (λ row. changed_at row caller.thread (λ (calls : List RecordedCall). calls ++ own.entry ∷ []))) }
{
    let row = table.at_mut(caller.rank.index());
    let calls = row.at_mut(caller.thread.index());
    calls.push(own)
}

/// The recorded calls of all callers in a history. What is told of their runs says for how many there is memory from the start.
pub fn own_calls<'a>(
    alloc: Global,
    runs: &ToldRuns,
    history: &'a [Event],
) -> Result<RecordedCalls<'a>, NoMemory>
    requires { HasCallers runs.now }
    ensures { IfOk result (λ table. IsCallTable table history.now) }
{
    let mut table = empty_table(alloc, runs)?;
    for event in history {
        if let Event::Called(caller, call, reply) = event {
            add_call(&mut table, *caller, RecordedCall { call, reply })?;
        }
    }
    Ok(table)
}
