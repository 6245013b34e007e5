//! The schedule of a world's scripts on one thread: its callers at the start, and all its iterations.

ghost use Rattle.std.specs.Prelude.{◌≡◌, ℕ, ◌<◌, ◌≤◌, ◌++◌, OnOk, IfOk, true};
ghost use Rattle.gaspi_texts.specs.JournalText.{AreInRange, HaveOwnValues};
ghost use Rattle.gaspi_types.specs.World.{IsShape};
ghost use Rattle.gaspi_model.specs.Step.{is_legal};
ghost use Rattle.rank_script.specs.PlainScripts.{ArePlain};
ghost use Rattle.rank_script.specs.WorldText.{AreScriptsOf};
ghost use Rattle.plain_schedule.specs.Endings.{HasSettled, HaveEnded};
ghost use Rattle.plain_schedule.specs.Schedule.{starts, rank_starts, thread_starts, started, IsScheduled};

use crate::moves::iterate;
use crate::schedule_states::{ActiveCaller, EndedCaller, ScheduleState};
use gaspi_model::{enabled, endings, settling, soundness};
use gaspi_texts::{Journal, journal_is_in_range};
use gaspi_types::{CallerId, NoMemory, RankId, Sequence, Shape, ThreadId};
use plain_calls::Evaluation;
use plain_machine::Machine;
use rank_script::{Cursor, Scripts, runs};
use std::alloc::Global;

/// What a schedule gave.
#[derive(Debug, Drop)]
pub struct ScheduleResult {
    /// The scheduled history.
    pub journal: Journal,
    /// How each caller ended, in the order of their ends.
    pub outcomes: Sequence<EndedCaller>,
}

/// Appends a caller before its first line to the active ones, where it has a script. Where memory runs out, nothing changes.
fn add_start<'a>(
    active: &mut Sequence<ActiveCaller<'a>>,
    caller: CallerId,
    scripts: &'a Scripts,
) -> Result<(), NoMemory>
    ensures { OnOk result (active.new ≡ active.old ++ thread_starts scripts.now caller.rank caller.thread) }
{
    let Some(script) = scripts.of(caller) else {
        return Ok(());
    };
    active.push(ActiveCaller {
        caller: script.caller,
        cursor: Cursor::new(active.allocator(), script)?,
        looks: 0,
    })
}

/// Appends the callers of a rank that have a script, by thread, each before its first line. Where memory runs out, some may be there.
fn add_starts<'a>(
    active: &mut Sequence<ActiveCaller<'a>>,
    rank: u32,
    scripts: &'a Scripts,
) -> Result<(), NoMemory>
    requires { rank < 16 }
    ensures { OnOk result (active.new ≡ active.old ++ rank_starts scripts.now rank) }
{
    for thread in 0..4u32 {
        let caller = CallerId {
            rank: RankId::of(rank),
            thread: ThreadId::of(thread),
        };
        add_start(active, caller, scripts)?;
    }
    Ok(())
}

/// The active callers at the start, by rank and thread, each before its first line. The contract says also that the shape is that of a
/// world, and that no script makes an end. The only failure is out of memory.
fn starts<'a>(
    alloc: Global,
    shape: &Shape,
    scripts: &'a Scripts,
) -> Result<Sequence<ActiveCaller<'a>>, NoMemory>
    ensures active { IfOk result (λ active. active ≡ starts shape.now scripts.now) }
    ensures world { IsShape shape.now }
    ensures plain { ArePlain scripts.now }
{
    let limits = shape.limits();
    let mut active = Sequence::with_capacity(alloc, scripts.len())?;
    for rank in 0..limits.ranks {
        add_starts(&mut active, rank, scripts)?;
    }
    Ok(active)
}

/// The scheduled history of a world's scripts, and how each caller ended. A call that blocks has `limit` looks, at least one; the
/// scripts are those of this shape's callers. The only failure is out of memory.
pub fn schedule(
    alloc: Global,
    shape: &Shape,
    scripts: &Scripts,
    seed: u32,
    limit: u32,
) -> Result<ScheduleResult, NoMemory>
    requires limit { 1 ≤ limit }
    requires scripts { AreScriptsOf shape.now scripts.now }
    ensures scheduled { IfOk result (λ ran. IsScheduled shape.now scripts.now seed limit ran.journal ran.outcomes) }
    ensures legal { IfOk result (λ ran. is_legal shape.now ran.journal ≡ true) }
    ensures settled { IfOk result (λ ran. HasSettled shape.now ran.journal) }
    ensures runs { IfOk result (λ ran. HaveEnded shape.now scripts.now ran.journal ran.outcomes) }
    ensures ranges { IfOk result (λ ran. AreInRange ran.journal) }
    ensures values { IfOk result (λ ran. HaveOwnValues ran.journal) }
{
    soundness();
    enabled();
    settling();
    endings();
    runs();
    let mut schedule = ScheduleState {
        x: seed,
        state: Machine::start(alloc, shape)?,
        active: starts(alloc, shape, scripts)?,
        ended: Sequence::new(alloc),
        // Most lines make an event at least. Memory that no event needs is never used.
        journal: Sequence::with_capacity(alloc, scripts.line_count())?,
    };
    let mut look = Evaluation::of_no_call();
    while iterate(&mut schedule, alloc, limit, &mut look)? {}
    let ScheduleState {
        x: _,
        state: _,
        active: _,
        ended: finished,
        journal,
    } = schedule;
    prove!(journal_is_in_range(&journal));
    Ok(ScheduleResult {
        journal,
        outcomes: finished,
    })
}
