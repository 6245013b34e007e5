//! Seats are made, split off and joined here for passes, notes and `close`, and the closing seat makes its last look: each by one
//! load, which changes no word. `board` is the shared table; the clauses `told` and `new` say what a seat knows then.
ghost use Rattle.std.specs.Prelude.{◌≡◌, ℕ, ◌+◌, ◌<◌, Option, Some, None, List, [], ◌∷◌, ◌++◌, length};
ghost use Rattle.commit_table.specs.Views.{held_at, at_rest, with_note, noted, new_pass, splitting_seat, closing_seat, with_pass, closed_seat, tally_of};
ghost use Rattle.commit_table.specs.Rule.{RemembersParty};
ghost use Rattle.commit_table.specs.Steps.{EndsTable};
ghost use Rattle.commit_table.specs.Calls.{IsSized};

use crate::atomic_steps::{
    JoinNote, JoinPass, LastLook, OpenCloser, SplitNote, SplitPass, SplitTally,
};
use crate::sharded::Sharded;
use crate::shared_table::{SharedTable, TableSeat};

// Split: a new seat for the pass of a party, from the first seat of the table, which has made the passes of all parties below.
pub fn split_pass<M: Sharded>(
    board: &SharedTable<M>,
    seat: &mut TableSeat<M>,
    party: u32,
) -> TableSeat<M>
    requires table { seat.old.table_id ≡ board.now.table_id }
    requires size { IsSized board.now.table_id (M.machine board.now.key.start).shards }
    requires ready { seat.old.me ≡ (splitting_seat board.now.key.start party board.now.key.passes, []) }
    requires party { party < board.now.key.passes }
    ensures seat { (seat.new.table_id ≡ seat.old.table_id) × (seat.new.me ≡ (splitting_seat board.now.key.start (party + 1) board.now.key.passes, [])) }
    ensures new { (result.table_id ≡ seat.old.table_id) × (result.me ≡ (at_rest (new_pass board.now.key.start (Some party) []), [])) }
{
    board.split_seat::<SplitPass>(seat)
}

// Split: a new seat for a note, which has seen what this seat has, and has no party. This seat stays as it was.
pub fn split_note<M: Sharded>(board: &SharedTable<M>, seat: &mut TableSeat<M>) -> TableSeat<M>
    requires table { seat.old.table_id ≡ board.now.table_id }
    requires size { IsSized board.now.table_id (M.machine board.now.key.start).shards }
    requires ready { seat.old.me ≡ (at_rest seat.old.me.0.known, []) }
    ensures seat { (seat.new.table_id ≡ seat.old.table_id) × (seat.new.me ≡ seat.old.me) }
    ensures new { (result.table_id ≡ seat.old.table_id) × (result.me ≡ (at_rest (noted seat.old.me.0.known), [])) }
{
    board.split_seat::<SplitNote>(seat)
}

// Seat join: the seat of a note is used up. This seat has then seen the longer of both histories, and remembers the other one until it
// looks.
pub fn join_note<M: Sharded>(board: &SharedTable<M>, seat: &mut TableSeat<M>, note: TableSeat<M>)
    requires table { (seat.old.table_id ≡ board.now.table_id) × (note.table_id ≡ board.now.table_id) }
    requires size { IsSized board.now.table_id (M.machine board.now.key.start).shards }
    requires ready { (seat.old.me ≡ (at_rest seat.old.me.0.known, [])) × (note.me ≡ (at_rest note.me.0.known, [])) }
    requires bare { note.me.0.known.party ≡ None }
    ensures seat { seat.new.table_id ≡ seat.old.table_id }
    ensures told { seat.new.me ≡ (with_note seat.old.me.0.known note.me.0.known.seen, []) }
{
    board.join_seat::<JoinNote>(seat, note);
}

// A new seat for `close`, which has seen nothing and taken in no pass yet.
pub fn open_closer<M: Sharded>(board: &SharedTable<M>) -> TableSeat<M>
    requires size { IsSized board.now.table_id (M.machine board.now.key.start).shards }
    ensures new { (result.table_id ≡ board.now.table_id) × (result.me ≡ (closing_seat board.now.key.start [] [], [])) }
{
    board.load_new_seat::<OpenCloser>(0).1
}

// Seat join: the seat of a pass that holds no shard is used up. The closing seat has then seen the longer of both histories, and
// remembers what the pass knew.
pub fn join_pass<M: Sharded>(board: &SharedTable<M>, seat: &mut TableSeat<M>, pass: TableSeat<M>)
    requires table { (seat.old.table_id ≡ board.now.table_id) × (pass.table_id ≡ board.now.table_id) }
    requires size { IsSized board.now.table_id (M.machine board.now.key.start).shards }
    requires ready { (seat.old.me ≡ (closing_seat board.now.key.start seat.old.me.0.known.seen seat.old.me.0.joined_passes, [])) × (pass.me ≡ (at_rest pass.me.0.known, [])) }
    requires party { (p : ℕ) × (pass.me.0.known.party ≡ Some p) }
    requires free { (i : ℕ) → held_at pass.me.0.known.held i ≡ None }
    ensures seat { seat.new.table_id ≡ seat.old.table_id }
    ensures told { seat.new.me ≡ (with_pass seat.old.me.0 pass.me.0.known, []) }
{
    board.join_seat::<JoinPass>(seat, pass);
}

// The last look, of the closing seat, which has taken in all passes: so the history that it sees is whole. Its length is answered.
pub fn last_look<M: Sharded>(board: &SharedTable<M>, seat: &mut TableSeat<M>) -> u64
    requires table { seat.old.table_id ≡ board.now.table_id }
    requires size { IsSized board.now.table_id (M.machine board.now.key.start).shards }
    requires ready { seat.old.me ≡ (closing_seat board.now.key.start seat.old.me.0.known.seen seat.old.me.0.joined_passes, []) }
    requires all { (p : ℕ) → p < board.now.key.passes → RemembersParty (M.machine board.now.key.start) board.now.key.start board.now.key.passes seat.old.me.0.joined_passes p }
    ensures seat { (seat.new.table_id ≡ seat.old.table_id) }
    ensures told { (h : List M.Event) × (seat.new.me ≡ (closed_seat board.now.key.start h seat.old.me.0.joined_passes, [])) × (result ≡ length h) × EndsTable M.machine (M.machine board.now.key.start) seat.old.me.0.joined_passes h }
{
    board.load::<LastLook>(seat, 0)
}

// Split: a new seat for the tally, with what the closing seat has seen and remembers. The closing seat stays as it was.
pub fn split_tally<M: Sharded>(board: &SharedTable<M>, seat: &mut TableSeat<M>) -> TableSeat<M>
    requires table { seat.old.table_id ≡ board.now.table_id }
    requires size { IsSized board.now.table_id (M.machine board.now.key.start).shards }
    requires ready { (h : List M.Event) × (seat.old.me ≡ (closed_seat board.now.key.start h seat.old.me.0.joined_passes, [])) }
    ensures seat { (seat.new.table_id ≡ seat.old.table_id) × (seat.new.me ≡ seat.old.me) }
    ensures new { (result.table_id ≡ seat.old.table_id) × (result.me ≡ (tally_of seat.old.me.0, [])) }
{
    board.split_seat::<SplitTally>(seat)
}
