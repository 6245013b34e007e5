//! The nodes of ranks and of groups at their start.

use gaspi_types::{GroupId, NoMemory, QueueId, RankId, Shape};
use rank_node::{GroupNode, Node};
use std::alloc::Global;
use std::test::Fail;

/// Two ranks, the first of which has a segment and a caller.
fn two_ranks(alloc: Global) -> Result<Shape, Fail> {
    let mut shape = Shape::new(alloc, 2, 1, 4, 4, 1, 20)?;
    shape.add_segment(0, 5, 16)?;
    shape.add_caller(0, 2)?;
    Ok(shape)
}

/// Whether a node has that room, all its callers have ended or not, and no lane of it is movable.
fn is_idle(node: &Node, room: u64, ended: bool) -> bool {
    node.room() == room
        && node.all_ended() == ended
        && node.next_lane((QueueId::of(0), RankId::of(0))).is_none()
        && node.front(QueueId::of(0), RankId::of(1)).is_none()
}

/// Whether the node of a rank is so at its start.
fn starts(
    alloc: Global,
    shape: &Shape,
    rank: u32,
    room: u64,
    ended: bool,
) -> Result<bool, NoMemory> {
    if rank >= shape.ranks() || rank >= 16 {
        return Ok(false);
    }
    let node = Node::new(alloc, shape, RankId::of(rank))?;
    Ok(is_idle(&node, room, ended))
}

/// Whether a group of a world of two ranks has that member list at its start.
fn has_members(alloc: Global, id: GroupId, members: Option<u32>) -> Result<bool, NoMemory> {
    let group = GroupNode::new(alloc, id, 2)?;
    Ok(group.meeting.members() == members)
}

#[test]
fn nodes_start(rt: HostRuntime) -> Result<(), Fail> {
    let alloc = rt.alloc();
    let shape = two_ranks(alloc)?;
    assert!(rt; matches!(starts(alloc, &shape, 0, 19, false), Ok(true)));
    assert!(rt; matches!(starts(alloc, &shape, 1, 20, true), Ok(true)));
    assert!(rt; matches!(has_members(alloc, GroupId::of(0), Some(3)), Ok(true)));
    assert!(rt; matches!(has_members(alloc, GroupId::of(7), None), Ok(true)));
    Ok(())
}
