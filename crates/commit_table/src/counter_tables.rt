//! A table of the two counters with two passes, made and closed, for tests and measures.
ghost use Rattle.std.specs.Prelude.{◌≡◌, ◌∷◌, [], Some, IfOk};
ghost use Rattle.commit_table.specs.Counters.{counters};
ghost use Rattle.commit_table.specs.Views.{new_pass};
ghost use Rattle.commit_table.specs.declared.counters.Counters.{Counters};
ghost use Rattle.commit_table.specs.Calls.{IsOf, HoldsNone, AreWhole, Closed, AreShards};

use crate::close::ClosedTable;
use crate::counters::Counters;
use crate::pass::Pass;
use crate::table::CommitTable;
use std::alloc::{AllocError, Global};

/// A table of the two counters, and its two passes, which hold no shard: `first` has party 0, and `second` party 1.
pub struct CounterTable {
    /// The table.
    pub table: CommitTable<Counters>,
    /// The pass of party 0.
    pub first: Pass<Counters>,
    /// The pass of party 1.
    pub second: Pass<Counters>,
    ghost two: { table.passes ≡ 2 },
    ghost first_is: { IsOf table first × HoldsNone first.known × (first.known.party ≡ Some 0) },
    ghost second_is: { IsOf table second × HoldsNone second.known × (second.known.party ≡ Some 1) },
}

/// A table of the two counters, which are 0, and its two passes, which have seen nothing. The only failure is out of memory.
pub fn start_counters(alloc: Global) -> Result<CounterTable, AllocError>
    ensures first { IfOk result (λ game. (start : Counters) × (game.first.known ≡ new_pass start (Some 0) [])) }
    ensures second { IfOk result (λ game. (start : Counters) × (game.second.known ≡ new_pass start (Some 1) [])) }
{
    let (table, mut passes) = CommitTable::new(alloc, Counters, vec![in alloc; 0, 0]?, 2)?;
    let Some(second) = passes.pop() else {
        unreachable!()
    };
    let Some(first) = passes.pop() else {
        unreachable!()
    };
    Ok(CounterTable {
        table,
        first,
        second,
    })
}

/// Closes the table with its two passes, of parties 0 and 1. It takes memory for the list of the passes alone; where that runs out,
/// table and passes are gone.
pub fn close_counters(
    alloc: Global,
    table: CommitTable<Counters>,
    first: Pass<Counters>,
    second: Pass<Counters>,
) -> Result<ClosedTable<Counters>, AllocError>
    requires two { table.passes ≡ 2 }
    requires first { IsOf table first × HoldsNone first.known × (first.known.party ≡ Some 0) }
    requires second { IsOf table second × HoldsNone second.known × (second.known.party ≡ Some 1) }
    ensures passes { IfOk result (λ end. end.tally.passes ≡ first.known ∷ second.known ∷ []) }
    ensures journal { IfOk result (λ end. Closed counters end.tally.journal end.tally.passes) }
    ensures shards { IfOk result (λ end. AreShards counters end.shards.items end.tally.journal) }
{
    let passes = vec![in alloc; first, second]?;
    Ok(table.close(passes))
}
