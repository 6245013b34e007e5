//! The end of a world: its journal, merged from the rank journals of its shards, and what its passes knew.

ghost use Rattle.std.specs.Prelude.{◌≡◌, ◌+◌, ◌*◌, ◌≤◌, ◌++◌, true, Some, List, [], map, length, IfOk, IfErr};
ghost use Rattle.commit_table.specs.Calls.{AreShards, AreWhole};
ghost use Rattle.gaspi_types.specs.World as shapes;
ghost use Rattle.gaspi_types.specs.World.{IsShape};
ghost use Rattle.gaspi_types.specs.declared.events.Event.{Event};
ghost use Rattle.gaspi_model.specs.Step.{is_legal};
ghost use Rattle.gaspi_model.specs.ContributionCounts.{ContributesOnce};
ghost use Rattle.gaspi_model.specs.Notifications.{HandsOutOnce};
ghost use Rattle.gaspi_world.specs.Closing.{HaveSeen, HaveDone, journals_of};
ghost use Rattle.gaspi_world.specs.WorldMachine.{world_machine};

use crate::shards::WorldShard;
use crate::starts::Start;
use crate::worlds::{Passes, World};
use commit_table::ClosedTable;
use gaspi_model::{contribution_counts, notification_values};
use gaspi_texts::{Journal, MergeRoom};
use std::alloc::Global;
use std::boxed::Box;

/// What is known of a closed world: its journal, and what each pass had seen and done. In a running program it has the number of
/// events alone.
pub type Tally = commit_table::Tally<Start>;

/// A world for whose journal there was no memory, and its passes: both as they were.
#[derive(Drop)]
pub struct Unclosed {
    /// The world, as it was.
    pub world: World,
    /// The passes that it was to be closed with, as they were.
    pub passes: Passes,
}

/// Adds the rank journal of a rank's shard to the lists of `room`, which must have room for one more. Of a group's shard it adds
/// nothing.
fn add_journal(room: &mut MergeRoom, shard: WorldShard)
    requires { length room.old.lists + length (journals_of shard) ≤ room.old.ranks }
    ensures { room.new ≡ record room.old { lists = room.old.lists ++ journals_of shard } }
{
    match shard {
        WorldShard::Rank(node) => room.add(Box::into_inner(node).into_journal()),
        WorldShard::Group(node) => drop(node),
    }
}

/// The journal, merged in `room` from the rank journals of these shards: all shards of one closed world. The room is empty and was
/// made for that world, so no memory is taken.
fn merged(shards: Vec<WorldShard>, mut room: MergeRoom) -> Journal
    requires room { (w : shapes.ShapeValue) × (journal : List Event) × IsShape w × AreShards (world_machine w) shards.items journal × (is_legal w journal ≡ true) × (room ≡ record { lists = []; ranks = w.limits.ranks; events = w.limits.ranks * w.limits.events }) }
    ensures { (w : shapes.ShapeValue) (journal : List Event) → IsShape w → AreShards (world_machine w) shards.items journal → is_legal w journal ≡ true → result ≡ journal }
{
    for shard in shards {
        add_journal(&mut room, shard);
    }
    room.merge()
}

/// Ends a world with all its passes, and merges its journal in `room`, which was made for it. It cannot fail.
fn close_with(world: World, passes: Passes, room: MergeRoom) -> (Journal, Tally)
    requires whole { AreWhole world passes.items }
    requires room { room ≡ record { lists = []; ranks = world.start.shape.limits.ranks; events = world.start.shape.limits.ranks * world.start.shape.limits.events } }
    ensures tally { (result.1.start ≡ Some world.start) × (result.1.journal ≡ result.0) }
    ensures passes { result.1.passes ≡ map (λ p. p.known) passes.items }
    ensures legal { is_legal world.start.shape result.0 ≡ true }
    ensures seen { HaveSeen result.0 passes.items }
    ensures done { HaveDone world.start.shape result.0 passes.items }
    ensures handed { HandsOutOnce world.start.shape result.0 }
    ensures contributed { ContributesOnce world.start.shape result.0 }
{
    contribution_counts();
    notification_values();
    world.shape().limits();
    let ClosedTable { shards, tally } = world.into_table().close(passes);
    (merged(shards, room), tally)
}

impl World {
    /// Ends a world, with all its passes, none of which holds a shard, and gives its journal with what its passes knew. The only
    /// failure is out of memory, before anything changes: world and passes come back, and may be closed later.
    pub fn close(self, alloc: Global, passes: Passes) -> Result<(Journal, Tally), Unclosed>
        requires whole { AreWhole self passes.items }
        ensures tally { IfOk result (λ r. (r.1.start ≡ Some self.start) × (r.1.journal ≡ r.0)) }
        ensures passes { IfOk result (λ r. r.1.passes ≡ map (λ p. p.known) passes.items) }
        ensures legal { IfOk result (λ r. is_legal self.start.shape r.0 ≡ true) }
        ensures seen { IfOk result (λ r. HaveSeen r.0 passes.items) }
        ensures done { IfOk result (λ r. HaveDone self.start.shape r.0 passes.items) }
        ensures handed { IfOk result (λ r. HandsOutOnce self.start.shape r.0) }
        ensures contributed { IfOk result (λ r. ContributesOnce self.start.shape r.0) }
        ensures unclosed { IfErr result (λ u. (u.world ≡ self) × (u.passes.items ≡ passes.items)) }
    {
        let limits = self.shape().limits();
        let ranks = limits.ranks as usize;
        match MergeRoom::for_events(alloc, ranks, ranks * limits.events as usize) {
            Ok(room) => Ok(close_with(self, passes, room)),
            Err(_) => Err(Unclosed {
                world: self,
                passes,
            }),
        }
    }
}
