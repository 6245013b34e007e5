//! A worker of a world: its turns, and its pauses while all ranks are quiet.

ghost use Rattle.std.specs.Prelude.{◌≡◌, ◌<◌, ◌+◌, ◌%◌, ◌^◌, true};
ghost use Rattle.commit_table.specs.Calls.{IsOf, HoldsNone};
ghost use Rattle.gaspi_model.specs.Step.{is_legal};
ghost use Rattle.gaspi_world.specs.Callers.{IsWorkers};
ghost use Rattle.transfer_worker.specs.Order.{Drains, GoesPast, MakesTurn, Rests, first_rank, next_turn};
ghost use Rattle.transfer_worker.specs.Turns.{IsExtended, Turned, IsDrained};

use crate::quiet::QuietRanks;
use crate::tries::{Others, try_others, try_ranks};
use crate::turns::Turn;
use commit_table::BackOff;
use gaspi_world::{Pass, World};
use std::sync::Wait;

/// A worker in its world, by its pass.
#[derive(Drop)]
pub struct Worker<'a> {
    /// Its world.
    pub world: &'a World,
    /// Its pass, which is that of a worker, and holds no shard between turns.
    pub pass: &'a mut Pass,
    /// The number of its next turn, modulo 2^64. A turn begins at the rank of its number, modulo how many ranks there are.
    pub turns: u64,
}

/// The number of the next turn, where the one with number `turns` came to `others`: the same where no rank was tried, since that was
/// no turn.
fn next_turn(others: Others, turns: u64) -> u64
    ensures { result ≡ next_turn others turns }
{
    match others {
        Others::Moved | Others::Busy | Others::Quiet => turns.wrapping_add(1),
        Others::Passed => turns,
    }
}

impl<'a> Worker<'a> {
    /// The rank at which the next turn begins.
    fn first(&self) -> u32
        ensures first { result ≡ first_rank self.now.world.now.start.shape self.now.turns }
        ensures rank { result < self.now.world.now.start.shape.limits.ranks }
    {
        let ranks = u64::from(self.world.shape().limits().ranks);
        (self.turns % ranks) as u32
    }

    /// Counts a turn, modulo 2^64.
    fn count(&mut self)
        ensures same { (self.new.world ≡ self.old.world) × (self.new.pass ≡ self.old.pass) }
        ensures turns { self.new.turns ≡ (self.old.turns + 1) % 2 ^ 64 }
    {
        self.turns = self.turns.wrapping_add(1);
    }

    /// Makes a full turn: tries each rank once, from the one of its number on, up to the first that moved. It waits for nothing, and
    /// takes no memory. (GASPI: one-sided communication)
    pub fn turn(&mut self) -> Turn
        requires pass { IsOf self.old.world.now self.old.pass.now }
        requires free { HoldsNone self.old.pass.now.known }
        requires worker { IsWorkers self.old.world.now.start.shape self.old.pass.now.known }
        ensures same { (self.new.world.now ≡ self.old.world.now) × (self.new.pass.ghost_name ≡ self.old.pass.ghost_name) }
        ensures table { self.new.pass.now.table ≡ self.old.pass.now.table }
        ensures free { HoldsNone self.new.pass.now.known }
        ensures turns { self.new.turns ≡ (self.old.turns + 1) % 2 ^ 64 }
        ensures goes_on { IsExtended self.old.pass.now.known self.new.pass.now.known }
        ensures legal { is_legal self.old.world.now.start.shape self.new.pass.now.known.seen ≡ true }
        ensures turned { Turned self.old.world.now.start.shape self.old.pass.now.known result self.new.pass.now.known }
        ensures order { MakesTurn self.old.world.now.start.shape (first_rank self.old.world.now.start.shape self.old.turns) self.old.pass.now.known result self.new.pass.now.known }
    {
        let first = self.first();
        self.count();
        try_ranks(self.world, self.pass, first)
    }

    /// Makes a turn that passes over the quiet ranks, for `drain`. Where no rank was tried, it is not counted.
    fn go_past(&mut self, quiet: &mut QuietRanks<'_>) -> Others
        requires pass { IsOf self.old.world.now self.old.pass.now }
        requires free { HoldsNone self.old.pass.now.known }
        requires worker { IsWorkers self.old.world.now.start.shape self.old.pass.now.known }
        ensures same { (self.new.world.now ≡ self.old.world.now) × (self.new.pass.ghost_name ≡ self.old.pass.ghost_name) }
        ensures table { self.new.pass.now.table ≡ self.old.pass.now.table }
        ensures free { HoldsNone self.new.pass.now.known }
        ensures goes_on { IsExtended self.old.pass.now.known self.new.pass.now.known }
        ensures past { GoesPast self.old.world.now.start.shape self.old.turns quiet.old.counts self.old.pass.now.known result self.new.turns quiet.new.counts self.new.pass.now.known }
    {
        let first = self.first();
        let others = try_others(self.world, self.pass, first, quiet);
        self.turns = next_turn(others, self.turns);
        others
    }

    /// Pauses, for `drain`, where no transfer was found; and where all ranks are quiet after that, makes a full turn. True where the
    /// turn found the world settled.
    fn rest<R: Wait>(&mut self, rt: &R, pauses: &mut BackOff, quiet: &QuietRanks<'_>) -> bool
        requires pass { IsOf self.old.world.now self.old.pass.now }
        requires free { HoldsNone self.old.pass.now.known }
        requires worker { IsWorkers self.old.world.now.start.shape self.old.pass.now.known }
        ensures same { (self.new.world.now ≡ self.old.world.now) × (self.new.pass.ghost_name ≡ self.old.pass.ghost_name) }
        ensures table { self.new.pass.now.table ≡ self.old.pass.now.table }
        ensures free { HoldsNone self.new.pass.now.known }
        ensures goes_on { IsExtended self.old.pass.now.known self.new.pass.now.known }
        ensures drained { result ≡ true → (is_legal self.old.world.now.start.shape self.new.pass.now.known.seen ≡ true) × IsDrained self.old.world.now.start.shape self.new.pass.now.known.seen }
        ensures rests { Rests self.old.world.now.start.shape self.old.turns self.old.pass.now.known result self.new.turns self.new.pass.now.known }
    {
        if pauses.pause_watching(rt, quiet) {
            return false;
        }
        match self.turn() {
            Turn::Drained => true,
            Turn::Moved | Turn::Busy | Turn::Idle => false,
        }
    }

    /// Makes turns until the world is settled. A turn passes over ranks that have posted nothing since a try found nothing there, and
    /// may make several transfers of a lane; where no rank has posted for a while, a full turn is made. It waits by pauses, holds no
    /// shard then, and takes no memory. (GASPI: one-sided communication)
    pub fn drain<R: Wait>(&mut self, rt: &R)
        requires pass { IsOf self.old.world.now self.old.pass.now }
        requires free { HoldsNone self.old.pass.now.known }
        requires worker { IsWorkers self.old.world.now.start.shape self.old.pass.now.known }
        ensures same { (self.new.world.now ≡ self.old.world.now) × (self.new.pass.ghost_name ≡ self.old.pass.ghost_name) }
        ensures table { self.new.pass.now.table ≡ self.old.pass.now.table }
        ensures free { HoldsNone self.new.pass.now.known }
        ensures goes_on { IsExtended self.old.pass.now.known self.new.pass.now.known }
        ensures legal { is_legal self.old.world.now.start.shape self.new.pass.now.known.seen ≡ true }
        ensures drained { IsDrained self.old.world.now.start.shape self.new.pass.now.known.seen }
        ensures turns { Drains self.old.world.now.start.shape self.old.turns self.old.pass.now.known self.new.turns self.new.pass.now.known }
    {
        let mut pauses = BackOff::new();
        let mut quiet = QuietRanks::none(self.world);
        for _ in rt.forever() {
            match self.go_past(&mut quiet) {
                Others::Moved => pauses.reset(),
                Others::Busy => pauses.pause(rt),
                Others::Quiet | Others::Passed => {
                    if self.rest(rt, &mut pauses, &quiet) {
                        return;
                    }
                }
            }
        }
        unreachable!()
    }
}
