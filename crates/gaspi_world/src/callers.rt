//! The numbers of a world's callers: 0 for the first in the order of rank and thread, and so on. The number of a caller is the party
//! of its pass.

ghost use Rattle.std.specs.Prelude.{◌≡◌, IfOk};
ghost use Rattle.gaspi_world.specs.Callers.{numbered, all_numbered};
ghost use Rattle.gaspi_model.specs.Parties.{comes_before, number_of};

use gaspi_types::{CallerId, NoMemory, Sequence};
use std::alloc::Global;

/// Whether caller `a` comes before caller `b` in the order of rank and thread.
fn comes_before(a: &CallerId, b: &CallerId) -> bool
    ensures { result ≡ comes_before a.now b.now }
{
    a.rank.number() * 4 + a.thread.number() < b.rank.number() * 4 + b.thread.number()
}

/// The number of a caller: how many of these callers come before it.
fn number_of(callers: &[CallerId], caller: &CallerId) -> usize
    ensures { result ≡ number_of callers.now caller.now }
{
    callers.iter().filter(|c| comes_before(c, caller)).count()
}

/// The caller with a number; none where no caller has it.
fn numbered(callers: &[CallerId], number: usize) -> Option<CallerId>
    ensures { result ≡ numbered callers.now number }
{
    callers
        .iter()
        .copied()
        .find(|c| number_of(callers, c) == number)
}

/// At each index below the count of callers the caller with that number: the list that `World` keeps. The only failure is out of
/// memory.
#[tactic(auto, using(crate::proofs::Numbers::numbered_more))]
pub fn all_numbered(
    alloc: Global,
    callers: &[CallerId],
) -> Result<Sequence<Option<CallerId>>, NoMemory>
    ensures { IfOk result (λ rows. rows ≡ all_numbered callers.now) }
{
    let mut rows = Sequence::with_capacity(alloc, callers.len())?;
    for number in 0..callers.len() {
        rows.push(numbered(callers, number))?;
    }
    Ok(rows)
}
