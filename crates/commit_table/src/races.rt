//! Two threads that raise counters of one table.

ghost use Rattle.std.specs.Prelude.{◌≡◌, ◌<◌, length, IfOk};
ghost use Rattle.commit_table.specs.Counters.{counters};
ghost use Rattle.commit_table.specs.Calls.{IsOf, HoldsNone, Closed, AreShards};

use crate::{
    ClosedTable, CommitTable, CounterAnswer, CounterTable, Counters, Pass, close_counters, raise,
    start_counters,
};
use std::alloc::{AllocError, Global};
use std::sync::Wait;
use std::thread::{Threads, join, yield_now};

/// Raises a counter `times` times, or until it is at its greatest value, and tries again after each miss. The pass is given back.
pub fn raise_often<R: Wait>(
    rt: &R,
    table: &CommitTable<Counters>,
    mut pass: Pass<Counters>,
    counter: u32,
    times: u64,
) -> Pass<Counters>
    requires pass { IsOf table.now pass × HoldsNone pass.known }
    requires counter { counter < 2 }
    ensures pass { IsOf table.now result × HoldsNone result.known × (result.known.party ≡ pass.known.party) }
{
    let mut left = times;
    for _ in rt.forever() {
        if left == 0 {
            break;
        }
        match raise(table, &mut pass, counter) {
            CounterAnswer::Done(_) => left -= 1,
            CounterAnswer::Busy => yield_now(),
            CounterAnswer::Stuck => break,
        }
    }
    pass
}

/// A new table of counters: its two passes, on two threads, raise a counter each, which may be the same one, `times` times. Then the
/// table is closed. The only failure is out of memory.
pub fn raised_by_two<R: Threads + Wait + Sync>(
    rt: &R,
    alloc: Global,
    first_counter: u32,
    second_counter: u32,
    times: u64,
) -> Result<ClosedTable<Counters>, AllocError>
    requires { (first_counter < 2) × (second_counter < 2) }
    ensures passes { IfOk result (λ end. length end.tally.passes ≡ 2) }
    ensures journal { IfOk result (λ end. Closed counters end.tally.journal end.tally.passes) }
    ensures shards { IfOk result (λ end. AreShards counters end.shards.items end.tally.journal) }
{
    let CounterTable {
        table,
        first,
        second,
    } = start_counters(alloc)?;
    let (first, second) = join(
        rt,
        || -> Pass<Counters>
            requires { IsOf table first × HoldsNone first.known × (first_counter < 2) }
            ensures { IsOf table result × HoldsNone result.known × (result.known.party ≡ first.known.party) }
        { raise_often(rt, &table, first, first_counter, times) },
        || -> Pass<Counters>
            requires { IsOf table second × HoldsNone second.known × (second_counter < 2) }
            ensures { IsOf table result × HoldsNone result.known × (result.known.party ≡ second.known.party) }
        { raise_often(rt, &table, second, second_counter, times) },
    );
    close_counters(alloc, table, first, second)
}
