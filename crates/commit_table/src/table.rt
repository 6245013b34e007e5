//! The commit table, as its users call it: it is made here with its passes, and each call is handed on to the pass. The functions
//! before `CommitTable::new` fill the slots and make the passes for it.
ghost use Rattle.std.specs.Prelude.{◌≡◌, ℕ, ◌+◌, ◌^◌, ◌<◌, ◌≤◌, Option, Some, None, List, [], ◌∷◌, ◌++◌, length, slice_get, replicate, vec_len, vec_capacity, IfOk, IfSome, IfNone};
ghost use mathlib.Core.List.{IsPrefix};
ghost use Rattle.commit_table.specs.declared.views.LockRecord.{LockRecord};
ghost use Rattle.commit_table.specs.Views.{held_at, at_rest, splitting_seat, new_pass, noted, after_take, after_miss, after_give_back};
ghost use Rattle.commit_table.specs.Calls.{slot_of, spread, IsSized, IsOf, HasSoundView, ShardTaken, MissWitness, Looked, MayCommit, Committed, AreShards, misses_in};

use crate::pass::{Note, Pass};
use crate::seats::split_pass;
use crate::sharded::Sharded;
use crate::shared_table::{OwnedTable, SharedTable, TableKey, TableSeat};
use atomic_table::Table;
use std::alloc::{AllocError, Global};
use std::marker::Model;

/// The commit table of a machine: its locks, shard values and journal word. Its history exists in proofs alone. Threads share the
/// table by `&`.
#[derive(Drop)]
pub struct CommitTable<M: Sharded> {
    /// Words, slots and rule, as `atomic_table` keeps them.
    pub(crate) table: OwnedTable<M>,
    /// The machine's start, and how many passes there are.
    pub(crate) begin: TableKey<M>,
    // An empty list with capacity for all shard values, so that `close` takes no memory.
    pub(crate) room: Vec<M::Shard>,
}

impl<M: Sharded> Model for CommitTable<M> {
    ghost use Rattle.std.specs.Prelude.{◌≡◌, ◌≤◌, ◌<◌, ◌^◌, [], vec_len, vec_capacity};
    ghost use Rattle.commit_table.specs.Calls.{TableValue, IsSized};

    ghost Value = { TableValue M };

    ghost view = { λ t. record { table = t.table.shared.table_id; start = t.begin.start; passes = t.begin.passes } };

    ghost invariant = { λ t. (t.table.shared.key ≡ t.begin) × IsSized t.table.shared.table_id (M.machine t.begin.start).shards × (t.room.items ≡ []) × (vec_len t.room ≡ 0) × ((M.machine t.begin.start).shards ≤ vec_capacity t.room) × ((M.machine t.begin.start).shards < 2 ^ 32) };
}

// Appends the slot of one shard with its value, and the seven empty slots before the slot of the next shard, for `fill`. Where memory
// runs out, some of them may be there already.
fn fill_next<X: Drop>(slots: &mut Vec<Option<X>>, shard: X) -> Result<(), AllocError>
    ensures { IfOk result (λ _. slots.new.items ≡ slots.old.items ++ spread (shard ∷ [])) }
{
    slots.push(Some(shard))?;
    slots.push(None)?;
    slots.push(None)?;
    slots.push(None)?;
    slots.push(None)?;
    slots.push(None)?;
    slots.push(None)?;
    slots.push(None)?;
    Ok(())
}

// Appends for each value its slot and seven empty ones, in order, for `filled`. Where memory runs out, some of them may be there
// already.
fn fill<X: Drop>(slots: &mut Vec<Option<X>>, shards: Vec<X>) -> Result<(), AllocError>
    requires { slots.old.items ≡ [] }
    ensures { IfOk result (λ _. slots.new.items ≡ spread shards.items) }
{
    for shard in shards {
        fill_next(slots, shard)?;
    }
    Ok(())
}

// New slots for a table, with each shard's value in its slot. The only failure is out of memory.
fn filled<X: Drop>(alloc: Global, shards: Vec<X>) -> Result<Vec<Option<X>>, AllocError>
    requires few { vec_len shards < 2 ^ 32 }
    ensures values { IfOk result (λ v. v.items ≡ spread shards.items) }
    ensures count { IfOk result (λ v. length v.items ≡ slot_of (length shards.items)) }
{
    let mut slots = Vec::with_capacity(alloc, shards.len() * 8)?;
    fill(&mut slots, shards)?;
    Ok(slots)
}

/// The passes of the parties 0 to n - 1, in order, each with a seat that is split off the first seat of a table with this many shards,
/// for `CommitTable::new`. The only failure is out of memory.
fn make_passes<M: Sharded>(
    alloc: Global,
    board: &SharedTable<M>,
    mut seat: TableSeat<M>,
    shards: usize,
    n: u32,
) -> Result<Vec<Pass<M>>, AllocError>
    requires table { (seat.table_id ≡ board.now.table_id) × (slot_of shards ≡ seat.table_id.slots) × (n ≡ board.now.key.passes) }
    requires size { IsSized board.now.table_id (M.machine board.now.key.start).shards }
    requires ready { seat.me ≡ (splitting_seat board.now.key.start 0 n, []) }
    ensures count { IfOk result (λ ps. length ps.items ≡ n) }
    ensures passes { IfOk result (λ ps. (k : ℕ) → k < n → slice_get ps.items k ≡ Some (record { table = board.now.table_id; known = new_pass board.now.key.start (Some k) [] })) }
{
    let mut passes = Vec::with_capacity(alloc, n as usize)?;
    for party in 0..n {
        let own = split_pass(board, &mut seat, party);
        passes.push(Pass::new(alloc, own, party, shards)?)?;
    }
    Ok(passes)
}

impl<M: Sharded> CommitTable<M> {
    /// A table of the machine with this start, and all its passes: those of the parties 0 to n - 1, in order. `shards` are the shard
    /// values at the start, in order. The only failure is out of memory.
    pub fn new(
        alloc: Global,
        start: M,
        shards: Vec<M::Shard>,
        n: u32,
    ) -> Result<(CommitTable<M>, Vec<Pass<M>>), AllocError>
        requires few { vec_len shards < 2 ^ 32 }
        requires shards { AreShards (M.machine start) shards.items [] }
        ensures table { IfOk result (λ r. (r.0.start ≡ start) × (r.0.passes ≡ n) × (r.0.table.slots ≡ slot_of (M.machine start).shards)) }
        ensures count { IfOk result (λ r. length r.1.items ≡ n) }
        ensures passes { IfOk result (λ r. (k : ℕ) → k < n → slice_get r.1.items k ≡ Some (record { table = r.0.table; known = new_pass start (Some k) [] })) }
    {
        let count = shards.len();
        let room = Vec::with_capacity(alloc, count)?;
        let words = Vec::from_elem(alloc, 0u64, (count + 1) * 16)?;
        let slots = filled(alloc, shards)?;
        let begin = TableKey { start, passes: n };
        let Ok((table, seat)) = Table::new(alloc, words.as_slice(), slots, &begin) else {
            return Err(AllocError);
        };
        let passes = make_passes(alloc, &table.shared, seat, count, n)?;
        let table = CommitTable { table, begin, room };
        Ok((table, passes))
    }

    /// The start of the machine, which the table was made with. The contract says also that the table has a slot for each shard, as
    /// `misses` asks.
    pub fn start(&self) -> &M
        ensures start { result.now ≡ self.now.start }
        ensures slots { self.now.table.slots ≡ slot_of (M.machine self.now.start).shards }
    {
        &self.begin.start
    }

    /// Takes a shard that the pass does not hold, and gives its value, which stands for a legal history: one compare-exchange, and
    /// after a take one load and one exchange. None is a miss, and nothing is taken: another pass has taken the shard and not given it
    /// back. The pass counts the miss, and knows the lock operations of all passes up to it.
    pub fn try_take(&self, pass: &mut Pass<M>, shard: u32) -> Option<M::Shard>
        requires pass { IsOf self.now pass.old }
        requires shard { shard < (M.machine self.now.start).shards }
        requires free { held_at pass.old.known.held shard ≡ None }
        ensures sound { HasSoundView (M.machine self.now.start) pass.old.known }
        ensures shard_taken { IfSome result (λ x. (g : List M.Event) × (pass.new ≡ record pass.old { known = after_take pass.old.known shard g }) × ShardTaken (M.machine self.now.start) pass.old.known shard x g) }
        ensures missed { IfNone result ((records : List LockRecord) × (pass.new ≡ record pass.old { known = after_miss pass.old.known shard records }) × MissWitness pass.old.known shard records) }
    {
        pass.try_take(&self.table.shared, shard)
    }

    /// Makes a look: the pass has seen the history so far, and its length is answered. The contract says also that the pass's party is
    /// below the count of passes.
    pub fn look(&self, pass: &mut Pass<M>) -> u64
        requires pass { IsOf self.now pass.old }
        ensures table { pass.new.table ≡ pass.old.table }
        ensures seen { (h : List M.Event) × Looked (M.machine self.now.start) pass.old.known result h pass.new.known }
        ensures party { (p : ℕ) × (pass.old.known.party ≡ Some p) × (p < self.now.passes) }
    {
        pass.look(&self.table.shared)
    }

    /// Commits an event after the history so far, in one addition, and answers its place. The pass must hold the shards of the event,
    /// which may follow what the pass has seen; where the event has a party, it must be the pass's. The shards stay held.
    pub fn commit(&self, pass: &mut Pass<M>, event: &M::Event) -> u64
        requires pass { IsOf self.now pass.old }
        requires may { MayCommit (M.machine self.now.start) pass.old.known event.now }
        ensures table { pass.new.table ≡ pass.old.table }
        ensures seen { (h : List M.Event) × Committed (M.machine self.now.start) pass.old.known event.now result h pass.new.known }
    {
        pass.commit(&self.table.shared, event)
    }

    /// Gives a held shard back, with a value that stands for the history with which the pass holds it.
    pub fn give_back(&self, pass: &mut Pass<M>, shard: u32, value: M::Shard)
        requires pass { IsOf self.now pass.old }
        requires shard { shard < (M.machine self.now.start).shards }
        requires value { (g : List M.Event) × (held_at pass.old.known.held shard ≡ Some g) × (M.machine self.now.start).Stands shard value g }
        ensures { pass.new ≡ record pass.old { known = after_give_back pass.old.known shard } }
    {
        pass.give_back(&self.table.shared, shard, value);
    }

    /// A note of what the pass has seen, for another pass of this table to learn. The pass stays as it was.
    pub fn note(&self, pass: &mut Pass<M>) -> Note<M>
        requires pass { IsOf self.now pass.old }
        ensures same { pass.new ≡ pass.old }
        ensures note { result ≡ record { table = pass.old.table; known = noted pass.old.known } }
    {
        pass.note(&self.table.shared)
    }

    /// Makes one look, and uses up a note of this table: the history that the pass has then seen begins with what the note has.
    pub fn learn(&self, pass: &mut Pass<M>, note: Note<M>)
        requires pass { IsOf self.now pass.old }
        requires note { note.table ≡ self.now.table }
        ensures table { pass.new.table ≡ pass.old.table }
        ensures seen { (h : List M.Event) × Looked (M.machine self.now.start) pass.old.known (length h) h pass.new.known × IsPrefix note.known.seen h }
    {
        pass.learn(&self.table.shared, note);
    }

    /// How often the pass missed a shard of the table, or the largest `u64` where it was more often.
    pub fn misses(pass: &Pass<M>, shard: u32) -> u64
        requires { slot_of shard < pass.now.table.slots }
        ensures { result ≡ misses_in pass.now.known.missed shard }
    {
        pass.misses(shard)
    }

    /// The party of the pass.
    pub fn number(pass: &Pass<M>) -> u32
        ensures { pass.now.known.party ≡ Some result }
    {
        pass.number()
    }
}
