//! A call with all its looks: attempts, and pauses between them, until it is recorded or stopped.

ghost use Rattle.std.specs.Prelude.{◌≡◌, ◌≢◌, Err, false};
ghost use Rattle.gaspi_types.specs.CallRows.{row_of};
ghost use Rattle.gaspi_types.specs.World.{IsShape};
ghost use Rattle.timeout_state.specs.Looks.{looks_of, HasLook};
ghost use Rattle.commit_table.specs.Calls.{IsOf, HoldsNone};
ghost use Rattle.gaspi_world.specs.Callers.{IsPassOf};
ghost use Rattle.gaspi_world.specs.Calling.{Calls};
ghost use Rattle.gaspi_world.specs.declared.calling.Stop.TheVariants.{NoMemory};

use crate::attempts::{Halt, attempt};
use crate::holding::footprint_shard;
use crate::starts::Start;
use crate::worlds::Pass;
use commit_table::{BackOff, Change, CommitTable};
use gaspi_types::{Invocation, Reply, Timeout};
use rank_node::Budget;
use std::alloc::Global;
use std::sync::Wait;

/// Why a call with all its looks recorded nothing. The pass holds no shard then. A collective may have joined at an earlier look; then
/// it is pending.
#[derive(Clone, Copy, Debug, PartialEq, Eq)]
pub enum Stop {
    /// Memory ran out, at the last of the call's looks.
    NoMemory,
    /// The caller's rank has no room for the events that the call needs, found at the last of the call's looks.
    EventLimit,
}

/// The most pauses of a call between two looks, while spare pauses are left.
const MOST_PAUSES: u32 = 4;

/// The spare pauses of a call, beside the one after each look: enough for a hundred looks. Its later pauses are sleeps.
const SPARE_PAUSES: u32 = 300;

/// Pauses after a look at a call that was not ready, until `change` has come: at most four times, and once where no spare pauses are
/// left. `spare` goes down by the pauses after the first. A look takes the shards from the threads that the call waits for, so few are
/// made. But not every change is counted, so after these pauses one is made in any case.
fn pause<R: Wait>(rt: &R, pauses: &mut BackOff, change: &Change<'_>, spare: &mut u32) {
    for _ in 1..MOST_PAUSES {
        if pauses.pause_watching(rt, change) || *spare == 0 {
            return;
        }
        *spare -= 1;
    }
    pauses.pause_watching(rt, change);
}

/// Makes a call (`Rank::call`): attempts it until it is recorded or stopped, with as many looks as its timeout has. Between two
/// attempts it pauses, and holds no shard. A missed shard is no look. The call's row is computed once, before the attempts.
/// (GASPI: timeouts)
pub fn call<R: Wait>(
    rt: &R,
    table: &CommitTable<Start>,
    pass: &mut Pass,
    alloc: Global,
    invocation: &Invocation<'_>,
    timeout: Timeout,
) -> Result<Reply, Stop>
    requires world { IsShape table.now.start.shape }
    requires pass { IsOf table.now pass.old }
    requires free { HoldsNone pass.old.known }
    requires caller { IsPassOf table.now.start.shape invocation.now.caller pass.old.known }
    requires timeout { HasLook (looks_of timeout) }
    ensures table { pass.new.table ≡ pass.old.table }
    ensures free { HoldsNone pass.new.known }
    ensures ample { (row_of invocation.now.call.now).takes_memory ≡ false → result ≢ Err NoMemory }
    ensures calls { Calls table.now.start.shape invocation.now.caller invocation.now.call.now timeout pass.old.known result pass.new.known }
{
    let start = table.start();
    let ranks = start.shape.ranks();
    let own = invocation.caller.rank;
    let other = footprint_shard(ranks, invocation.row.footprint.footprint(ranks, own));
    let mut pauses = BackOff::new();
    let mut budget = Budget::new(timeout);
    let mut look = budget.next();
    let mut spare = SPARE_PAUSES;
    for _ in rt.forever() {
        let change = Change::of(&start.changes, own.number(), other);
        match attempt(table, pass, alloc, invocation, look) {
            Ok(reply) => return Ok(reply),
            Err(Halt::Busy) => pauses.pause(rt),
            Err(Halt::NotYet) => {
                look = budget.next();
                pause(rt, &mut pauses, &change, &mut spare);
            }
            Err(Halt::EventLimit) => return Err(Stop::EventLimit),
            Err(Halt::NoMemory) => return Err(Stop::NoMemory),
        }
    }
    unreachable!()
}
