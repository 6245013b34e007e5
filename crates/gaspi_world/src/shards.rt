//! The shard values of a world, and those of its opening state: one for each rank, and then one for each of the eight groups.

ghost use Rattle.std.specs.Prelude.{◌≡◌, ◌<◌, ◌≤◌, ◌+◌, [], IfOk};
ghost use Rattle.gaspi_types.specs.World.{ShapeValue, IsShape};
ghost use Rattle.commit_table.specs.Calls.{AreShards};
ghost use Rattle.gaspi_world.specs.Shards.{IsOpeningShard};
ghost use Rattle.gaspi_world.specs.WorldMachine.{world_machine};

use gaspi_types::{GroupId, NoMemory, RankId, Shape};
use rank_node::{GroupNode, Node};
use std::alloc::Global;
use std::boxed::Box;

/// A shard value: a rank node or a group node, in a box. So a take or a give-back moves a pointer, however large the node is.
#[derive(Drop)]
pub enum WorldShard {
    /// Of a rank: its posts, its memory and its rank journal.
    Rank(Box<Node>),
    /// Of a group: its member list and its rounds.
    Group(Box<GroupNode>),
}

/// The shard value of a rank in the opening state. The only failure is out of memory.
fn rank_shard(alloc: Global, shape: &Shape, rank: u32) -> Result<WorldShard, NoMemory>
    requires { rank < shape.now.limits.ranks }
    ensures { IfOk result (λ shard. IsOpeningShard shape.now rank shard) }
{
    shape.limits();
    let node = Node::new(alloc, shape, RankId::of(rank))?;
    Ok(WorldShard::Rank(Box::new(alloc, node)?))
}

/// The shard value of a group in the opening state, in a world of `ranks` ranks. The only failure is out of memory.
fn group_shard(alloc: Global, ranks: u32, id: u32) -> Result<WorldShard, NoMemory>
    requires ranks { ranks ≤ 16 }
    requires id { id < 8 }
    ensures { (w : ShapeValue) → w.limits.ranks ≡ ranks → IfOk result (λ shard. IsOpeningShard w (ranks + id) shard) }
{
    let node = GroupNode::new(alloc, GroupId::of(id), ranks)?;
    Ok(WorldShard::Group(Box::new(alloc, node)?))
}

/// The shard values of the opening state: of each rank, and then of each group. The only failure is out of memory; the rank journals
/// get all their memory here.
pub fn opening_shards(alloc: Global, shape: &Shape) -> Result<Vec<WorldShard>, NoMemory>
    requires { IsShape shape.now }
    ensures { IfOk result (λ shards. AreShards (world_machine shape.now) shards.items []) }
{
    let ranks = shape.ranks();
    let mut shards = Vec::with_capacity(alloc, ranks as usize + 8)?;
    for rank in 0..ranks {
        shards.push(rank_shard(alloc, shape, rank)?)?;
    }
    for id in 0..8 {
        shards.push(group_shard(alloc, ranks, id)?)?;
    }
    Ok(shards)
}
