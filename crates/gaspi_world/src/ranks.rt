//! A caller in its world: attempts, calls with all their looks, notes of what its pass has seen, and its misses. Its procedures are in
//! `procedures`.

ghost use Rattle.std.specs.Prelude.{◌≡◌, ◌≢◌, ◌<◌, Err, false};
ghost use mathlib.Core.List.{IsPrefix};
ghost use Rattle.commit_table.specs.Attempts.{IsLookedOnly};
ghost use Rattle.gaspi_types.specs.CallRows.{row_of};
ghost use Rattle.gaspi_types.specs.declared.shapes.CallerId.{CallerId};
ghost use Rattle.timeout_state.specs.Looks.{looks_of, HasLook};
ghost use Rattle.commit_table.specs.Calls.{IsOf, HoldsNone, misses_in};
ghost use Rattle.commit_table.specs.Views.{noted};
ghost use Rattle.gaspi_world.specs.Attempts.{Attempted, IsExtended};
ghost use Rattle.gaspi_world.specs.Callers.{IsPassOf};
ghost use Rattle.gaspi_world.specs.Calling.{MayCall, CallsBy};
ghost use Rattle.gaspi_world.specs.WorldMachine.{world_machine};
ghost use Rattle.gaspi_world.specs.declared.attempts.Halt.TheVariants as halts;
ghost use Rattle.gaspi_world.specs.declared.calling.Stop.TheVariants as stops;

use crate::attempts::{Halt, attempt};
use crate::calling;
use crate::calling::Stop;
use crate::starts::Start;
use crate::worlds::{Pass, World};
use commit_table::CommitTable;
use gaspi_types::{Call, Invocation, Reply, Timeout};
use rank_node::Look;
use std::alloc::Global;
use std::sync::Wait;

/// What a pass has seen, for another pass of its world: made by `Rank::note`, used by `Rank::learn`.
pub type Note = commit_table::Note<Start>;

/// A caller in its world: the world, and the caller's pass. (GASPI: ranks)
#[derive(Drop)]
pub struct Rank<'a> {
    /// The world.
    pub world: &'a World,
    /// The pass of the caller, which no other thread has meanwhile.
    pub pass: &'a mut Pass,
}

impl<'a> Rank<'a> {
    /// One attempt to make a call; it never waits. `look` says whether this look is the last: then a call that is not ready is
    /// recorded with `timeout`. An error says why nothing was recorded (`Halt`). Memory is taken only where the call's row says so.
    /// (GASPI: timeouts)
    pub fn attempt(&mut self, alloc: Global, call: &Call, look: Look) -> Result<Reply, Halt>
        requires { MayCall self.old.world.now self.old.pass.now }
        ensures same { (self.new.world.now ≡ self.old.world.now) × (self.new.pass.ghost_name ≡ self.old.pass.ghost_name) }
        ensures table { self.new.pass.now.table ≡ self.old.pass.now.table }
        ensures free { HoldsNone self.new.pass.now.known }
        ensures ample { (row_of call.now).takes_memory ≡ false → result ≢ Err halts.NoMemory }
        ensures on { MayCall self.old.world.now self.new.pass.now }
        ensures attempted { (c : CallerId) → IsPassOf self.old.world.now.start.shape c self.old.pass.now.known
            → Attempted self.old.world.now.start.shape c call.now look self.old.pass.now.known result self.new.pass.now.known }
    {
        self.world.shape().limits();
        let caller = self.world.caller_of(self.pass);
        let invocation = Invocation::new(caller, call);
        attempt(self.world.table(), self.pass, alloc, &invocation, look)
    }

    /// Makes a call with as many looks as its timeout has, at least one, and backs off between them. It gives the recorded reply; an
    /// error says why nothing was recorded (`Stop`). Memory is taken only where the call's row says so. (GASPI: timeouts)
    pub fn call<R: Wait>(
        &mut self,
        rt: &R,
        alloc: Global,
        call: &Call,
        timeout: Timeout,
    ) -> Result<Reply, Stop>
        requires pass { MayCall self.old.world.now self.old.pass.now }
        requires timeout { HasLook (looks_of timeout) }
        ensures same { (self.new.world.now ≡ self.old.world.now) × (self.new.pass.ghost_name ≡ self.old.pass.ghost_name) }
        ensures ample { (row_of call.now).takes_memory ≡ false → result ≢ Err stops.NoMemory }
        ensures on { MayCall self.old.world.now self.new.pass.now }
        ensures calls { CallsBy self.old.world.now call.now timeout self.old.pass.now result self.new.pass.now }
    {
        self.world.shape().limits();
        let caller = self.world.caller_of(self.pass);
        let invocation = Invocation::new(caller, call);
        let table = self.world.table();
        calling::call(rt, table, self.pass, alloc, &invocation, timeout)
    }

    /// A note of what the pass has seen, for another pass of this world to learn. The pass stays as it was.
    pub fn note(&mut self) -> Note
        requires { IsOf self.old.world.now self.old.pass.now }
        ensures same { (self.new.world.now ≡ self.old.world.now) × (self.new.pass.ghost_name ≡ self.old.pass.ghost_name) }
        ensures pass { self.new.pass.now ≡ self.old.pass.now }
        ensures note { result ≡ record { table = self.old.pass.now.table; known = noted self.old.pass.now.known } }
    {
        self.world.table().note(self.pass)
    }

    /// Makes one look, and uses up a note of this world: the history that the pass has then seen begins with what the note has. The
    /// shards that the pass holds and its own events stay.
    pub fn learn(&mut self, note: Note)
        requires pass { IsOf self.old.world.now self.old.pass.now }
        requires note { note.table ≡ self.old.world.now.table }
        ensures same { (self.new.world.now ≡ self.old.world.now) × (self.new.pass.ghost_name ≡ self.old.pass.ghost_name) }
        ensures table { self.new.pass.now.table ≡ self.old.pass.now.table }
        ensures looked { IsLookedOnly (world_machine self.old.world.now.start.shape) self.old.pass.now.known self.new.pass.now.known }
        ensures held { self.new.pass.now.known.held ≡ self.old.pass.now.known.held }
        ensures goes_on { (c : CallerId) → IsPassOf self.old.world.now.start.shape c self.old.pass.now.known
            → IsExtended self.old.world.now.start.shape c self.old.pass.now.known self.new.pass.now.known × (self.new.pass.now.known.mine ≡ self.old.pass.now.known.mine) }
        ensures learned { IsPrefix note.known.seen self.new.pass.now.known.seen }
    {
        self.world.shape().limits();
        self.world.table().learn(self.pass, note);
    }

    /// How often the pass missed the shard with this number, or the largest `u64` where it was more often.
    pub fn misses(&self, shard: u32) -> u64
        requires pass { IsOf self.now.world.now self.now.pass.now }
        requires shard { shard < (world_machine self.now.world.now.start.shape).shards }
        ensures { result ≡ misses_in self.now.pass.now.known.missed shard }
    {
        self.world.table().start();
        CommitTable::misses(self.pass, shard)
    }
}
