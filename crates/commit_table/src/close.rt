//! The end of a table that no thread uses any more: a new seat takes in all passes and looks last, the shard values leave their slots,
//! and the tally keeps what is known.
ghost use Rattle.std.specs.Prelude.{◌≡◌, ℕ, ◌+◌, ◌%◌, ◌<◌, ◌≤◌, false, IsTrue, Option, Some, None, List, [], ◌∷◌, ◌++◌, map, length, slice_get, slice_set, slice_index_or, vec_len, vec_capacity};
ghost use Rattle.commit_table.specs.Views.{closing_seat, closed_seat, tally_of};
ghost use Rattle.commit_table.specs.Steps.{EndsTable};
ghost use Rattle.commit_table.specs.Calls.{slot_of, IsSized, AreWhole, Closed, AreShards};
ghost use Rattle.atomic_table.specs.Table.{Final, Seen};
ghost use Rattle.std.specs.Mem.Slots.{IsFull, slots_items, slots_filled, slots_len};
ghost use mathlib.Core.Option.{some};
ghost use lib.ListN.{get_elem?};

use crate::pass::Pass;
use crate::seats::{join_pass, last_look, open_closer, split_tally};
use crate::sharded::Sharded;
use crate::shared_table::{OwnedTable, SharedTable, TableSeat};
use crate::table::CommitTable;
use std::alloc::Global;
use std::marker::Model;

/// What is known of a closed table: its history, and what each pass knew. A running program has the length of the history, and proofs
/// have the rest.
#[derive(Drop)]
pub struct Tally<M: Sharded> {
    /// The seat that was split off at the close: it has seen the whole history, and remembers all passes.
    seat: TableSeat<M>,
    /// The length of that history.
    length: u64,
}

impl<M: Sharded> Model for Tally<M> {
    ghost use Rattle.std.specs.Prelude.{◌≡◌, length as count};
    ghost use Rattle.commit_table.specs.Calls.{TallyValue};

    ghost Value = { TallyValue M M.Event };

    ghost view = { λ t. record { start = t.seat.me.0.known.start; journal = t.seat.me.0.known.seen; passes = t.seat.me.0.joined_passes } };

    ghost invariant = { λ t. t.length ≡ count t.seat.me.0.known.seen };
}

impl<M: Sharded> Tally<M> {
    /// How many events the history has.
    pub fn events(&self) -> u64
        ensures { result ≡ length self.now.journal }
    {
        self.length
    }
}

/// What remains of a table that was closed.
#[derive(Drop)]
pub struct ClosedTable<M: Sharded> {
    /// The values of all shards, in order.
    pub shards: Vec<M::Shard>,
    /// What is known of its history.
    pub tally: Tally<M>,
}

// A new seat that has taken in all passes of the table, in order, for `close`.
fn join_all<M: Sharded>(board: &SharedTable<M>, passes: Vec<Pass<M>>) -> TableSeat<M>
    requires size { IsSized board.now.table_id (M.machine board.now.key.start).shards }
    requires whole { AreWhole (record { table = board.now.table_id; start = board.now.key.start; passes = board.now.key.passes }) passes.items }
    ensures seat { result.table_id ≡ board.now.table_id }
    ensures told { result.me ≡ (closing_seat board.now.key.start result.me.0.known.seen (map (λ p. p.known) passes.items), []) }
{
    let mut seat = open_closer(board);
    for pass in passes {
        join_pass(board, &mut seat, pass.into_seat());
    }
    seat
}

/// Takes the value of a shard out of its slot, for `move_value`. The slot with index `i` must be filled, and have a value. Other slots
/// stay.
fn take_value<X: Drop>(closed: &mut atomic_table::Closed<Option<X>, Global>, i: usize) -> X
    requires place { (i < slots_len closed.old.slots) × IsTrue (slice_index_or (slots_filled closed.old.slots) i false) }
    requires value { (x : X) × (get_elem? (slots_items closed.old.slots) i ≡ some (Some x)) }
    ensures value { get_elem? (slots_items closed.old.slots) i ≡ some (Some result) }
    ensures others { (slots_items closed.new.slots ≡ slots_items closed.old.slots) × (slots_filled closed.new.slots ≡ slice_set (slots_filled closed.old.slots) i false) × (slots_len closed.new.slots ≡ slots_len closed.old.slots) }
{
    match closed.take(i) {
        Some(value) => value,
        None => unreachable!(),
    }
}

// Empties the slot with index `i`, for `move_values`: the value of a shard goes to the end of `room`, which must have capacity for it;
// a slot between two shards has no value, and nothing is appended.
fn move_value<X: Drop>(
    closed: &mut atomic_table::Closed<Option<X>, Global>,
    room: &mut Vec<X>,
    i: usize,
)
    requires place { (i < slots_len closed.old.slots) × IsTrue (slice_index_or (slots_filled closed.old.slots) i false) }
    requires value { i % 8 ≡ 0 → (x : X) × (get_elem? (slots_items closed.old.slots) i ≡ some (Some x)) }
    requires room { i % 8 ≡ 0 → vec_len room.old < vec_capacity room.old }
    ensures capacity { vec_capacity room.new ≡ vec_capacity room.old }
    ensures moved { i % 8 ≡ 0 → (x : X) × (get_elem? (slots_items closed.old.slots) i ≡ some (Some x)) × (room.new.items ≡ room.old.items ++ x ∷ []) × (vec_len room.new ≡ vec_len room.old + 1) }
    ensures between { 0 < i % 8 → (room.new.items ≡ room.old.items) × (vec_len room.new ≡ vec_len room.old) }
    ensures others { (slots_items closed.new.slots ≡ slots_items closed.old.slots) × (slots_filled closed.new.slots ≡ slice_set (slots_filled closed.old.slots) i false) × (slots_len closed.new.slots ≡ slots_len closed.old.slots) }
{
    if i % 8 == 0 {
        room.push_reserved(take_value(closed, i));
    } else {
        let _ = closed.take(i);
    }
}

// Moves the values of all shards into `room`, in order, and frees the table, for `values_of`. The room is empty and has capacity for
// all.
fn move_values<X: Drop>(
    mut closed: atomic_table::Closed<Option<X>, Global>,
    mut room: Vec<X>,
) -> Vec<X>
    requires full { IsFull closed.slots }
    requires values { (k : ℕ) → slot_of k < slots_len closed.slots → (x : X) × (get_elem? (slots_items closed.slots) (slot_of k) ≡ some (Some x)) }
    requires room { (room.items ≡ []) × (vec_len room ≡ 0) × (slots_len closed.slots ≤ slot_of (vec_capacity room)) }
    requires slots { (shards : ℕ) × (slots_len closed.slots ≡ slot_of shards) }
    ensures count { slot_of (length result.items) ≡ slots_len closed.slots }
    ensures values { (k : ℕ) (x : X) → slice_get result.items k ≡ Some x → get_elem? (slots_items closed.slots) (slot_of k) ≡ some (Some x) }
{
    let count = closed.slot_count();
    let mut i = 0;
    while i < count {
        move_value(&mut closed, &mut room, i);
        i += 1;
    }
    closed.free();
    room
}

// Closes the table by the seat that took in all passes and looked last, and gives the values of all shards, in order. The room is
// empty and has capacity for all.
fn values_of<M: Sharded>(
    table: OwnedTable<M>,
    seat: TableSeat<M>,
    room: Vec<M::Shard>,
) -> Vec<M::Shard>
    requires table { seat.table_id ≡ table.shared.table_id }
    requires size { IsSized table.shared.table_id (M.machine table.shared.key.start).shards }
    requires ready { seat.me ≡ (closed_seat table.shared.key.start seat.me.0.known.seen seat.me.0.joined_passes, []) }
    requires room { (room.items ≡ []) × (vec_len room ≡ 0) × ((M.machine table.shared.key.start).shards ≤ vec_capacity room) }
    ensures { AreShards (M.machine table.shared.key.start) result.items seat.me.0.known.seen }
{
    move_values(table.close_with(seat), room)
}

impl<M: Sharded> CommitTable<M> {
    /// Closes the table, with all its passes, none of which holds a shard. It cannot fail, and takes no memory.
    pub fn close(self, passes: Vec<Pass<M>>) -> ClosedTable<M>
        requires { AreWhole self passes.items }
        ensures passes { result.tally.passes ≡ map (λ p. p.known) passes.items }
        ensures start { result.tally.start ≡ Some self.start }
        ensures journal { Closed (M.machine self.start) result.tally.journal result.tally.passes }
        ensures shards { AreShards (M.machine self.start) result.shards.items result.tally.journal }
    {
        let CommitTable { table, begin, room } = self;
        let mut seat = join_all(&table.shared, passes);
        let length = last_look(&table.shared, &mut seat);
        let kept = split_tally(&table.shared, &mut seat);
        drop(begin);
        ClosedTable {
            shards: values_of(table, seat, room),
            tally: Tally { seat: kept, length },
        }
    }
}
