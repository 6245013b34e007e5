//! The tries of a turn: the ranks are tried in their order, from `first` on and with rank 0 after the last, up to the first that
//! moved. There are two kinds. A full turn (`try_ranks`) passes over no rank, and makes one transfer at most. The other kind
//! (`try_others`) passes over quiet ranks, and may make several transfers of a lane.

ghost use Rattle.std.specs.Prelude.{◌≡◌, ◌<◌, true};
ghost use Rattle.commit_table.specs.Calls.{IsOf, HoldsNone};
ghost use Rattle.gaspi_model.specs.Step.{is_legal};
ghost use Rattle.gaspi_world.specs.Callers.{IsWorkers};
ghost use Rattle.transfer_worker.specs.Order.{MakesTurn, TriesOther, TriesOthers, with_other};
ghost use Rattle.transfer_worker.specs.QuietRanks.{TellsStill};
ghost use Rattle.transfer_worker.specs.Turns.{IsExtended, Turned};

use crate::quiet::QuietRanks;
use crate::turns::{Turn, with_try};
use gaspi_types::RankId;
use gaspi_world::{Moving, Pass, World, world_histories};

/// The tries of a full turn: every rank in its order, from `first` on, up to the first that moved. It waits for nothing, and takes no
/// memory.
pub fn try_ranks(world: &World, pass: &mut Pass, first: u32) -> Turn
    requires pass { IsOf world.now pass.old }
    requires free { HoldsNone pass.old.known }
    requires worker { IsWorkers world.now.start.shape pass.old.known }
    requires first { first < world.now.start.shape.limits.ranks }
    ensures table { pass.new.table ≡ pass.old.table }
    ensures free { HoldsNone pass.new.known }
    ensures goes_on { IsExtended pass.old.known pass.new.known }
    ensures legal { is_legal world.now.start.shape pass.new.known.seen ≡ true }
    ensures turned { Turned world.now.start.shape pass.old.known result pass.new.known }
    ensures order { MakesTurn world.now.start.shape first pass.old.known result pass.new.known }
{
    world_histories();
    let ranks = world.shape().limits().ranks;
    let mut so_far = Turn::Drained;
    for step in 0..ranks {
        let origin = RankId::of((first + step) % ranks);
        let moving = world.transfer(pass, origin);
        if moving == Moving::Moved {
            return Turn::Moved;
        }
        so_far = with_try(so_far, moving);
    }
    so_far
}

/// What the tries of the others came to: of those ranks that are not known to be quiet.
#[derive(Clone, Copy, Debug, PartialEq, Eq)]
pub enum Others {
    /// Transfers of a lane were made.
    Moved,
    /// None was made, and at a try a shard was missed.
    Busy,
    /// None was made, and at no try a shard was missed.
    Quiet,
    /// No rank was tried: all are quiet, as far as is known.
    Passed,
}

/// What tries come to with that of one rank more, which came to `other`. `so_far` is what those before came to; none of them moved.
fn with_other(so_far: Others, other: Others) -> Others
    ensures { result ≡ with_other so_far other }
{
    match (so_far, other) {
        (_, Others::Moved) => Others::Moved,
        (_, Others::Busy) => Others::Busy,
        (Others::Passed, Others::Quiet) => Others::Quiet,
        (so_far, _) => so_far,
    }
}

/// Tries a rank, where it is not known to be quiet (`Passed`). Where no transfer of it may come next, its count is added to `quiet`:
/// the one that was read before the try.
fn try_other(world: &World, pass: &mut Pass, origin: RankId, quiet: &mut QuietRanks<'_>) -> Others
    requires pass { IsOf world.now pass.old }
    requires free { HoldsNone pass.old.known }
    requires worker { IsWorkers world.now.start.shape pass.old.known }
    requires rank { origin < world.now.start.shape.limits.ranks }
    ensures table { pass.new.table ≡ pass.old.table }
    ensures free { HoldsNone pass.new.known }
    ensures goes_on { IsExtended pass.old.known pass.new.known }
    ensures tried { TellsStill world.now.start.shape (λ begun. TriesOther world.now.start.shape begun origin pass.old.known result pass.new.known) quiet.old.counts pass.old.known quiet.new.counts pass.new.known }
{
    let count = world.posts().count(origin.number());
    if quiet.is_quiet(origin.number(), count) {
        return Others::Passed;
    }
    match world.transfer_lane(pass, origin) {
        Moving::Moved => Others::Moved,
        Moving::Busy => Others::Busy,
        Moving::Empty | Moving::Ended => {
            quiet.add(origin.number(), count);
            Others::Quiet
        }
    }
}

/// The tries of a turn that passes over quiet ranks: the others in their order, from `first` on, up to the first that moved. Ranks at
/// which nothing was found are added to `quiet`. It waits for nothing, and takes no memory.
pub fn try_others(world: &World, pass: &mut Pass, first: u32, quiet: &mut QuietRanks<'_>) -> Others
    requires pass { IsOf world.now pass.old }
    requires free { HoldsNone pass.old.known }
    requires worker { IsWorkers world.now.start.shape pass.old.known }
    requires first { first < world.now.start.shape.limits.ranks }
    ensures table { pass.new.table ≡ pass.old.table }
    ensures free { HoldsNone pass.new.known }
    ensures goes_on { IsExtended pass.old.known pass.new.known }
    ensures order { TellsStill world.now.start.shape (λ begun. TriesOthers world.now.start.shape begun first pass.old.known result pass.new.known) quiet.old.counts pass.old.known quiet.new.counts pass.new.known }
{
    let ranks = world.shape().limits().ranks;
    let mut so_far = Others::Passed;
    for next in 0..ranks {
        let other = try_other(world, pass, RankId::of((first + next) % ranks), quiet);
        if other == Others::Moved {
            return Others::Moved;
        }
        so_far = with_other(so_far, other);
    }
    so_far
}
