//! Passes and notes: seats at the table, with what a pass needs beside its seat. A function that `CommitTable` has too does its work
//! here, for the pass, on the shared table, which is `board`.
ghost use Rattle.std.specs.Prelude.{◌≡◌, ℕ, ◌+◌, ◌-◌, ◌^◌, ◌<◌, Option, Some, None, List, [], ◌∷◌, length, min, slice_index, slice_set, vec_len, IfOk, IfSome, IfNone};
ghost use Rattle.commit_table.specs.declared.views.LockRecord.{LockRecord};
ghost use Rattle.commit_table.specs.Views.{at_rest, held_at, new_pass, noted, after_take, after_miss, after_give_back};
ghost use Rattle.commit_table.specs.Calls.{slot_of, IsSized, HasSoundView, ShardTaken, MissWitness, Looked, MayCommit, Committed, misses_in};
ghost use mathlib.Core.List.{IsPrefix};

use crate::seats::{join_note, split_note};
use crate::shard_calls::{add_event, give_back_shard, take_shard};
use crate::sharded::Sharded;
use crate::shared_table::{SharedTable, TableSeat};
use crate::steps::look_word;
use std::alloc::{AllocError, Global};
use std::marker::Model;

/// The right to act as one party of a table. It may move to another thread, and what it knows moves with it.
#[derive(Drop)]
pub struct Pass<M: Sharded> {
    /// The seat at the table.
    seat: TableSeat<M>,
    /// The number of the pass.
    party: u32,
    /// By shard, how often the pass missed it, up to the largest `u64`.
    misses: Vec<u64>,
}

impl<M: Sharded> Model for Pass<M> {
    ghost use Rattle.std.specs.Prelude.{◌≡◌, ℕ, [], Some, length, vec_len};
    ghost use Rattle.commit_table.specs.Views.{at_rest};
    ghost use Rattle.commit_table.specs.Calls.{slot_of, PassValue, Counts};

    ghost Value = { PassValue M M.Event };

    ghost view = { λ p. record { table = p.seat.table_id; known = p.seat.me.0.known } };

    ghost invariant = { λ p. (p.seat.me ≡ (at_rest p.seat.me.0.known, [])) × (p.seat.me.0.known.party ≡ Some p.party) × (slot_of (vec_len p.misses) ≡ p.seat.table_id.slots) × (slot_of (length p.misses.items) ≡ p.seat.table_id.slots) × Counts p.misses.items p.seat.me.0.known.missed };
}

/// What a pass has seen, for another pass of the same table. It has no party, and holds no shard.
#[derive(Drop)]
pub struct Note<M: Sharded> {
    /// The seat at the table.
    seat: TableSeat<M>,
}

impl<M: Sharded> Model for Note<M> {
    ghost use Rattle.std.specs.Prelude.{◌≡◌, [], None};
    ghost use Rattle.commit_table.specs.Views.{at_rest};
    ghost use Rattle.commit_table.specs.Calls.{PassValue};

    ghost Value = { PassValue M M.Event };

    ghost view = { λ p. record { table = p.seat.table_id; known = p.seat.me.0.known } };

    ghost invariant = { λ p. (p.seat.me ≡ (at_rest p.seat.me.0.known, [])) × (p.seat.me.0.known.party ≡ None) };
}

impl<M: Sharded> Pass<M> {
    /// The pass of a party with this seat, which has seen nothing; its table has this many shards. The only failure is out of memory.
    pub(crate) fn new(
        alloc: Global,
        seat: TableSeat<M>,
        party: u32,
        shards: usize,
    ) -> Result<Pass<M>, AllocError>
        requires { (slot_of shards ≡ seat.table_id.slots) × ((start : M) × (seat.me ≡ (at_rest (new_pass start (Some party) []), []))) }
        ensures { IfOk result (λ p. (p.table ≡ seat.table_id) × (p.known ≡ seat.me.0.known)) }
    {
        let misses = Vec::from_elem(alloc, 0, shards)?;
        Ok(Pass {
            seat,
            party,
            misses,
        })
    }

    /// The seat of a pass that is used up, for `close`. What it knows stays in the seat; its counts of misses are dropped.
    pub(crate) fn into_seat(self) -> TableSeat<M>
        ensures seat { (result.table_id ≡ self.table) × (result.me ≡ (at_rest self.known, [])) }
        ensures party { (p : ℕ) × (self.known.party ≡ Some p) }
    {
        let Pass {
            seat,
            party: _,
            misses,
        } = self;
        drop(misses);
        seat
    }

    /// How often the pass missed a shard.
    pub(crate) fn misses(&self, shard: u32) -> u64
        requires { slot_of shard < self.now.table.slots }
        ensures { result ≡ misses_in self.now.known.missed shard }
    {
        self.misses[shard as usize]
    }

    /// The party of the pass.
    pub(crate) fn number(&self) -> u32
        ensures { self.now.known.party ≡ Some result }
    {
        self.party
    }

    /// Counts one more miss of a shard, up to the largest `u64`, for `try_take`.
    fn count_miss(misses: &mut Vec<u64>, shard: u32)
        requires { shard < vec_len misses.old }
        ensures len { vec_len misses.new ≡ vec_len misses.old }
        ensures items { misses.new.items ≡ slice_set misses.old.items shard (min (slice_index misses.old.items shard + 1) (2 ^ 64 - 1)) }
    {
        misses[shard as usize] = misses[shard as usize].saturating_add(1);
    }

    /// Takes a shard that the pass does not hold, and gives its value. None is a miss, which is counted.
    pub(crate) fn try_take(&mut self, board: &SharedTable<M>, shard: u32) -> Option<M::Shard>
        requires table { (self.old.table ≡ board.now.table_id) × (self.old.known.start ≡ Some board.now.key.start) }
        requires size { IsSized board.now.table_id (M.machine board.now.key.start).shards }
        requires shard { shard < (M.machine board.now.key.start).shards }
        requires free { held_at self.old.known.held shard ≡ None }
        ensures sound { HasSoundView (M.machine board.now.key.start) self.old.known }
        ensures taken { IfSome result (λ x. (g : List M.Event) × (self.new ≡ record self.old { known = after_take self.old.known shard g }) × ShardTaken (M.machine board.now.key.start) self.old.known shard x g) }
        ensures missed { IfNone result ((records : List LockRecord) × (self.new ≡ record self.old { known = after_miss self.old.known shard records }) × MissWitness self.old.known shard records) }
    {
        let Some(value) = take_shard(board, &mut self.seat, shard) else {
            Self::count_miss(&mut self.misses, shard);
            return None;
        };
        Some(value)
    }

    /// Makes a look, and answers the length of the history.
    pub(crate) fn look(&mut self, board: &SharedTable<M>) -> u64
        requires table { (self.old.table ≡ board.now.table_id) × (self.old.known.start ≡ Some board.now.key.start) }
        requires size { IsSized board.now.table_id (M.machine board.now.key.start).shards }
        ensures table { self.new.table ≡ self.old.table }
        ensures told { (h : List M.Event) × Looked (M.machine board.now.key.start) self.old.known result h self.new.known }
        ensures party { (p : ℕ) × (self.old.known.party ≡ Some p) × (p < board.now.key.passes) }
    {
        look_word(board, &mut self.seat)
    }

    /// Commits an event, and answers its place.
    pub(crate) fn commit(&mut self, board: &SharedTable<M>, event: &M::Event) -> u64
        requires table { (self.old.table ≡ board.now.table_id) × (self.old.known.start ≡ Some board.now.key.start) }
        requires size { IsSized board.now.table_id (M.machine board.now.key.start).shards }
        requires may { MayCommit (M.machine board.now.key.start) self.old.known event.now }
        ensures table { self.new.table ≡ self.old.table }
        ensures told { (h : List M.Event) × Committed (M.machine board.now.key.start) self.old.known event.now result h self.new.known }
    {
        add_event(board, &mut self.seat, event)
    }

    /// Gives a held shard back with its value.
    pub(crate) fn give_back(&mut self, board: &SharedTable<M>, shard: u32, value: M::Shard)
        requires table { self.old.table ≡ board.now.table_id }
        requires size { IsSized board.now.table_id (M.machine board.now.key.start).shards }
        requires shard { shard < (M.machine board.now.key.start).shards }
        requires value { (g : List M.Event) × (held_at self.old.known.held shard ≡ Some g) × (M.machine board.now.key.start).Stands shard value g }
        ensures { self.new ≡ record self.old { known = after_give_back self.old.known shard } }
    {
        give_back_shard(board, &mut self.seat, shard, value);
    }

    /// A note of what the pass has seen. The pass stays as it was.
    pub(crate) fn note(&mut self, board: &SharedTable<M>) -> Note<M>
        requires table { self.old.table ≡ board.now.table_id }
        requires size { IsSized board.now.table_id (M.machine board.now.key.start).shards }
        ensures same { self.new ≡ self.old }
        ensures note { result ≡ record { table = self.old.table; known = noted self.old.known } }
    {
        let seat = split_note(board, &mut self.seat);
        Note { seat }
    }

    /// Uses up a note of the same table, and makes one look.
    pub(crate) fn learn(&mut self, board: &SharedTable<M>, note: Note<M>)
        requires table { (self.old.table ≡ board.now.table_id) × (self.old.known.start ≡ Some board.now.key.start) × (note.table ≡ board.now.table_id) }
        requires size { IsSized board.now.table_id (M.machine board.now.key.start).shards }
        ensures table { self.new.table ≡ self.old.table }
        ensures told { (h : List M.Event) × Looked (M.machine board.now.key.start) self.old.known (length h) h self.new.known × IsPrefix note.known.seen h }
    {
        let Note { seat } = note;
        join_note(board, &mut self.seat, seat);
        look_word(board, &mut self.seat);
    }
}
