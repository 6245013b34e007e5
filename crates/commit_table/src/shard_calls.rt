//! The calls of a pass that are made of several atomic steps, a take with its value and a give-back; and the commit. The steps
//! themselves are in `steps`. `board` is the shared table; the clause `told` says what the seat knows then.
ghost use Rattle.std.specs.Prelude.{◌≡◌, ℕ, ◌+◌, ◌<◌, Option, Some, None, List, [], ◌∷◌, IfSome, IfNone};
ghost use mathlib.Core.List.{IsPrefix};
ghost use Rattle.commit_table.specs.declared.views.LockRecord.{LockRecord};
ghost use Rattle.commit_table.specs.Views.{held_at, at_rest, with_slot_out, after_take, after_miss, after_give_back};
ghost use Rattle.commit_table.specs.Steps.{Of};
ghost use Rattle.commit_table.specs.Calls.{slot_of, IsSized, HasSoundView, MissWitness, MayCommit, Committed};

use crate::sharded::Sharded;
use crate::shared_table::{SharedTable, TableSeat};
use crate::steps::{add_told, fetch_slot, free_word, return_slot, take_word};
use std::marker::Brand;

// From the slot of one shard to that of the next: no two are on one line of a processor's cache.
const SLOTS_APART: usize = 8;

// Takes the value of a held shard out of its slot, which is out with the seat, and returns the slot to the table: for `take_shard`.
fn empty_slot<M: Sharded>(board: &SharedTable<M>, seat: &mut TableSeat<M>, shard: u32) -> M::Shard
    requires table { seat.old.table_id ≡ board.now.table_id }
    requires size { IsSized board.now.table_id (M.machine board.now.key.start).shards }
    requires ready { (x : M.Shard) × (g : List M.Event) × (seat.old.me ≡ (with_slot_out seat.old.me.0.known shard, (slot_of shard, Some x) ∷ [])) × (held_at seat.old.me.0.known.held shard ≡ Some g) }
    requires shard { shard < (M.machine board.now.key.start).shards }
    ensures seat { (seat.new.table_id ≡ seat.old.table_id) × (seat.new.id ≡ seat.old.id) }
    ensures value { seat.old.me.1 ≡ (slot_of shard, Some result) ∷ [] }
    ensures told { seat.new.me ≡ (at_rest seat.old.me.0.known, []) }
{
    let value = board.exchange(seat, shard as usize * SLOTS_APART, None);
    return_slot(board, seat, shard);
    match value {
        Some(value) => value,
        None => unreachable!(),
    }
}

// Takes a shard that the seat does not hold, and gives its value. None is a miss: then nothing is taken.
pub fn take_shard<M: Sharded>(
    board: &SharedTable<M>,
    seat: &mut TableSeat<M>,
    shard: u32,
) -> Option<M::Shard>
    requires table { seat.old.table_id ≡ board.now.table_id }
    requires size { IsSized board.now.table_id (M.machine board.now.key.start).shards }
    requires shard { shard < (M.machine board.now.key.start).shards }
    requires ready { seat.old.me ≡ (at_rest seat.old.me.0.known, []) }
    requires party { (p : ℕ) × (seat.old.me.0.known.party ≡ Some p) }
    requires free { held_at seat.old.me.0.known.held shard ≡ None }
    ensures seat { (seat.new.table_id ≡ seat.old.table_id) × (seat.new.id ≡ seat.old.id) }
    ensures sound { Of M.machine seat.old.me.0.known (λ m. HasSoundView m seat.old.me.0.known) }
    ensures some { IfSome result (λ x. (g : List M.Event) × (seat.new.me ≡ (at_rest (after_take seat.old.me.0.known shard g), [])) × IsPrefix seat.old.me.0.known.seen g × Of M.machine seat.old.me.0.known (λ m. m.Legal g × m.Stands shard x g)) }
    ensures none { IfNone result ((records : List LockRecord) × (seat.new.me ≡ (at_rest (after_miss seat.old.me.0.known shard records), [])) × MissWitness seat.old.me.0.known shard records) }
{
    if take_word(board, seat, shard) != 0 {
        return None;
    }
    Some(empty_slot(board, seat, shard))
}

// Gives a held shard back: first the value is in its slot, then the word is 0. The value must stand for the history with which the
// shard is held.
pub fn give_back_shard<M: Sharded>(
    board: &SharedTable<M>,
    seat: &mut TableSeat<M>,
    shard: u32,
    value: M::Shard,
)
    requires table { seat.old.table_id ≡ board.now.table_id }
    requires size { IsSized board.now.table_id (M.machine board.now.key.start).shards }
    requires shard { shard < (M.machine board.now.key.start).shards }
    requires ready { seat.old.me ≡ (at_rest seat.old.me.0.known, []) }
    requires value { (g : List M.Event) × (held_at seat.old.me.0.known.held shard ≡ Some g) × (M.machine board.now.key.start).Stands shard value g }
    ensures seat { (seat.new.table_id ≡ seat.old.table_id) × (seat.new.id ≡ seat.old.id) }
    ensures told { seat.new.me ≡ (at_rest (after_give_back seat.old.me.0.known shard), []) }
{
    fetch_slot(board, seat, shard);
    let _ = board.exchange(seat, shard as usize * SLOTS_APART, Some(value));
    free_word(board, seat, shard);
}

// Commits an event, and answers its place: `add_told`, with the event filled in.
pub fn add_event<M: Sharded>(
    board: &SharedTable<M>,
    seat: &mut TableSeat<M>,
    event: &M::Event,
) -> u64
    requires table { seat.old.table_id ≡ board.now.table_id }
    requires size { IsSized board.now.table_id (M.machine board.now.key.start).shards }
    requires ready { seat.old.me ≡ (at_rest seat.old.me.0.known, []) }
    requires party { (p : ℕ) × (seat.old.me.0.known.party ≡ Some p) }
    requires begun { seat.old.me.0.known.start ≡ Some board.now.key.start }
    requires may { MayCommit (M.machine board.now.key.start) seat.old.me.0.known event.now }
    ensures seat { (seat.new.table_id ≡ seat.old.table_id) × (seat.new.id ≡ seat.old.id) }
    ensures rest { seat.new.me ≡ (at_rest seat.new.me.0.known, []) }
    ensures told { (h : List M.Event) × Committed (M.machine board.now.key.start) seat.old.me.0.known event.now result h seat.new.me.0.known }
{
    add_told::<M, Brand>(board, seat, event)
}
