//! The atomic steps on the words that passes take, each in a function of its own; its clause `told` says what the seat knows after it.
//! Between two of them other threads may take theirs. `board` is the shared table. The slot of a held shard is *out* while the seat
//! may exchange its value, and otherwise at home in the table.
ghost use Rattle.std.specs.Prelude.{◌≡◌, ℕ, ◌+◌, ◌<◌, Option, Some, None, List, [], ◌∷◌};
ghost use Rattle.commit_table.specs.Views.{held_at, at_rest, with_slot_out, with_kept_history, after_give_back};
ghost use Rattle.commit_table.specs.Steps.{TakesShard, FetchesSlot, LooksOnce, CommitsEvent};
ghost use Rattle.commit_table.specs.Calls.{slot_of, IsSized, MayCommit};

use crate::atomic_steps::{
    Commit, CommittedEvent, FetchSlot, FreeWord, Look, PassCount, ReturnSlot, TakeWord,
};
use crate::sharded::Sharded;
use crate::shared_table::{SharedTable, TableSeat};
use std::marker::Brand;

/// The index of the journal word.
const JOURNAL: usize = 0;

// From one word that is used to the next. Threads that write two words on one line of a processor's cache wait for one another.
const WORDS_APART: usize = 16;

// Take, or miss: a compare-exchange of a shard's word from 0 to 1. The old value is answered: 0 where the shard was free and is now
// held, 1 where another pass held it. After a take the slot is out with the seat.
pub fn take_word<M: Sharded>(board: &SharedTable<M>, seat: &mut TableSeat<M>, shard: u32) -> u64
    requires table { seat.old.table_id ≡ board.now.table_id }
    requires size { IsSized board.now.table_id (M.machine board.now.key.start).shards }
    requires shard { shard < (M.machine board.now.key.start).shards }
    requires ready { seat.old.me ≡ (at_rest seat.old.me.0.known, []) }
    requires party { (p : ℕ) × (seat.old.me.0.known.party ≡ Some p) }
    requires free { held_at seat.old.me.0.known.held shard ≡ None }
    ensures seat { (seat.new.table_id ≡ seat.old.table_id) × (seat.new.id ≡ seat.old.id) }
    ensures told { TakesShard M.machine shard seat.old.me.0.known result seat.new.me }
{
    board.compare_exchange::<TakeWord>(seat, (shard as usize + 1) * WORDS_APART, 0, 1)
}

// The slot of a held shard goes home, with what is in it: a load of the shard's word.
pub fn return_slot<M: Sharded>(board: &SharedTable<M>, seat: &mut TableSeat<M>, shard: u32)
    requires table { seat.old.table_id ≡ board.now.table_id }
    requires size { IsSized board.now.table_id (M.machine board.now.key.start).shards }
    requires ready { (y : Option M.Shard) × (seat.old.me ≡ (with_slot_out seat.old.me.0.known shard, (slot_of shard, y) ∷ [])) }
    requires held { (g : List M.Event) × (held_at seat.old.me.0.known.held shard ≡ Some g) }
    requires shard { shard < (M.machine board.now.key.start).shards }
    ensures seat { (seat.new.table_id ≡ seat.old.table_id) × (seat.new.id ≡ seat.old.id) }
    ensures told { seat.new.me ≡ (at_rest seat.old.me.0.known, []) }
{
    board.load::<ReturnSlot>(seat, (shard as usize + 1) * WORDS_APART);
}

// The slot of a held shard goes out with the seat: a load of the shard's word.
pub fn fetch_slot<M: Sharded>(board: &SharedTable<M>, seat: &mut TableSeat<M>, shard: u32)
    requires table { seat.old.table_id ≡ board.now.table_id }
    requires size { IsSized board.now.table_id (M.machine board.now.key.start).shards }
    requires ready { seat.old.me ≡ (at_rest seat.old.me.0.known, []) }
    requires held { (g : List M.Event) × (held_at seat.old.me.0.known.held shard ≡ Some g) }
    requires shard { shard < (M.machine board.now.key.start).shards }
    ensures seat { (seat.new.table_id ≡ seat.old.table_id) × (seat.new.id ≡ seat.old.id) }
    ensures told { FetchesSlot M.machine shard seat.old.me.0.known seat.new.me }
{
    board.load::<FetchSlot>(seat, (shard as usize + 1) * WORDS_APART);
}

// Give-back: a store of 0 to the shard's word. The value must be in the slot, which is out with the seat, and stand for the history
// with which the shard is held.
pub fn free_word<M: Sharded>(board: &SharedTable<M>, seat: &mut TableSeat<M>, shard: u32)
    requires table { seat.old.table_id ≡ board.now.table_id }
    requires size { IsSized board.now.table_id (M.machine board.now.key.start).shards }
    requires ready { (x : M.Shard) × (seat.old.me ≡ (with_slot_out seat.old.me.0.known shard, (slot_of shard, Some x) ∷ [])) × ((g : List M.Event) × (held_at seat.old.me.0.known.held shard ≡ Some g) × (M.machine board.now.key.start).Stands shard x g) }
    requires shard { shard < (M.machine board.now.key.start).shards }
    ensures seat { (seat.new.table_id ≡ seat.old.table_id) × (seat.new.id ≡ seat.old.id) }
    ensures told { seat.new.me ≡ (at_rest (after_give_back seat.old.me.0.known shard), []) }
{
    board.store::<FreeWord>(seat, (shard as usize + 1) * WORDS_APART, 0);
}

// Look: a load of the journal word, whose value is answered. `N` says in proofs how many passes there are.
pub fn look_counted<M: Sharded, N: PassCount>(
    board: &SharedTable<M>,
    seat: &mut TableSeat<M>,
) -> u64
    requires table { seat.old.table_id ≡ board.now.table_id }
    requires size { IsSized board.now.table_id (M.machine board.now.key.start).shards }
    requires ready { seat.old.me ≡ (with_kept_history seat.old.me.0.known seat.old.me.0.note_history, []) }
    requires count { N.passes ≡ board.now.key.passes }
    ensures seat { (seat.new.table_id ≡ seat.old.table_id) × (seat.new.id ≡ seat.old.id) }
    ensures told { LooksOnce M.machine board.now.key.passes seat.old.me.0.known seat.old.me.0.note_history result seat.new.me }
{
    board.load::<Look<N>>(seat, JOURNAL)
}

/// Look, as `look_counted`, with the count of passes filled in.
pub fn look_word<M: Sharded>(board: &SharedTable<M>, seat: &mut TableSeat<M>) -> u64
    requires table { seat.old.table_id ≡ board.now.table_id }
    requires size { IsSized board.now.table_id (M.machine board.now.key.start).shards }
    requires ready { seat.old.me ≡ (with_kept_history seat.old.me.0.known seat.old.me.0.note_history, []) }
    ensures seat { (seat.new.table_id ≡ seat.old.table_id) × (seat.new.id ≡ seat.old.id) }
    ensures told { LooksOnce M.machine board.now.key.passes seat.old.me.0.known seat.old.me.0.note_history result seat.new.me }
{
    look_counted::<M, Brand>(board, seat)
}

// Commit: an addition of 1 to the journal word, whose old value is answered: the place of the event. `J` says in proofs which event it
// is.
pub fn add_told<M: Sharded, J: CommittedEvent<M::Event>>(
    board: &SharedTable<M>,
    seat: &mut TableSeat<M>,
    event: &M::Event,
) -> u64
    requires table { seat.old.table_id ≡ board.now.table_id }
    requires size { IsSized board.now.table_id (M.machine board.now.key.start).shards }
    requires ready { seat.old.me ≡ (at_rest seat.old.me.0.known, []) }
    requires told { J.told ≡ event.now ∷ [] }
    requires party { (p : ℕ) × (seat.old.me.0.known.party ≡ Some p) }
    requires may { MayCommit (M.machine board.now.key.start) seat.old.me.0.known event.now }
    ensures seat { (seat.new.table_id ≡ seat.old.table_id) × (seat.new.id ≡ seat.old.id) }
    ensures told { CommitsEvent M.machine seat.old.me.0.known event.now result seat.new.me }
{
    board.fetch_add::<Commit<J>>(seat, JOURNAL, 1)
}
