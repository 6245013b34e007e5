//! The start of a world, as its commit table keeps it: the shape, and the counts of changes that waiting threads watch. `own` is the
//! shard of the rank that owns an event, `other` the one that the event has beside it.

ghost use Rattle.gaspi_types.specs.World.{IsShape};

use crate::shards::WorldShard;
use commit_table::{Changes, Sharded};
use gaspi_types::{CallRow, Event, NoMemory, Shape};
use std::alloc::Global;

/// The start of a world, by its shape. `World::start` alone makes one, so each table of this machine is that of a world.
#[derive(Drop)]
pub struct Start {
    /// The shape of the world.
    pub shape: Shape,
    /// By shard: how often an event was counted that may make a call ready which waits for that shard.
    pub(crate) changes: Changes,
    /// By rank: how often a recorded call of the rank was counted that is a post, even a refused one, or an end.
    pub(crate) posts: Changes,
    /// Private, so that no other file makes a start.
    sealed: (),
    pub ghost valid: { ∥ IsShape shape ∥₁ },
}

impl Start {
    ghost use Rattle.std.specs.Prelude.{◌≡◌, IfOk};

    /// Counts a recorded call: in `posts` where it is a post or an end, whatever its reply, and in `changes` for its other shard,
    /// where it has one. Its own shard is not counted.
    pub(crate) fn count_call(&self, row: &CallRow, own: u32, other: Option<u32>) {
        if row.posting.is_some() || row.ends {
            self.posts.count_change(own);
        }
        if let Some(other) = other {
            self.changes.count_change(other);
        }
    }

    /// Counts one or more transfers in `changes`: for the origin's shard, and for the other where that is a different one.
    pub(crate) fn count_transfer(&self, own: u32, other: Option<u32>) {
        self.changes.count_change(own);
        let other = other.unwrap_or(own);
        if other != own {
            self.changes.count_change(other);
        }
    }

    /// The start of a world of this shape, with nothing counted. The only failure is out of memory.
    pub(crate) fn of(alloc: Global, shape: &Shape) -> Result<Start, NoMemory>
        ensures { IfOk result (λ start. start.shape ≡ shape.now) }
    {
        shape.limits();
        let ranks = shape.ranks() as usize;
        Ok(Start {
            shape: shape.copy(alloc)?,
            changes: Changes::new(alloc, ranks + 8)?,
            posts: Changes::new(alloc, ranks)?,
            sealed: (),
        })
    }
}

impl Sharded for Start {
    type Shard = WorldShard;

    type Event = Event;

    ghost use Rattle.gaspi_world.specs.WorldMachine.{world_machine};
    ghost use Rattle.gaspi_world.specs.WorldLaws.{world_lawful};

    ghost machine = { λ start. world_machine start.shape };

    ghost lawful = { λ start. world_lawful start.shape start.valid };
}
