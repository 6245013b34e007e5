//! The node of a rank in the opening state: its posts with all stores and the rank journal, and its memory.

ghost use Rattle.std.specs.Prelude.{◌≡◌, ◌<◌, ◌≤◌, IfOk, [], None, false, map, replicate};
ghost use Rattle.std.specs.Option.{option_map};
ghost use Rattle.std.specs.List.{range_with_len};
ghost use Rattle.gaspi_types.specs.Groups.{opening_handles};
ghost use Rattle.gaspi_model.specs.State.{declared_size, new_slots, opening_slots, opening_table, opening_thread};
ghost use Rattle.rank_node.specs.Openings.{IsOpeningNode};

use crate::node_counts::running_count;
use crate::node_memory::NodeMemory;
use crate::node_posts::NodePosts;
use crate::nodes::Node;
use gaspi_model::{ThreadState, declared_size, opening_corrupt, opening_table, opening_threads};
use gaspi_types::{Buffer, Limits, NoMemory, PlacedEvent, RankId, SegmentTable, Sequence, Shape};
use group_registry::Groups;
use plain_calls::opening_segments;
use post_queue::Lanes;
use segment_store::{Inbox, Slots};
use std::alloc::Global;
use timeout_state::Pending;

/// The slots of the declared segment of a rank under an id, all zero; None where the shape declares none.
fn opening_slots_at(
    alloc: Global,
    shape: &Shape,
    rank: u32,
    segment: u32,
) -> Result<Option<Slots>, NoMemory>
    ensures { IfOk result (λ slots. slots ≡ option_map (λ size. new_slots shape.now.limits.notes) (declared_size shape.now rank segment)) }
{
    let notes = shape.limits().notes;
    match declared_size(shape, rank, segment) {
        Some(_) => Ok(Some(Slots::new(alloc, notes)?)),
        None => Ok(None),
    }
}

/// The slots of the declared segments of a rank: one item for each of the 32 ids.
#[tactic(auto, using(gaspi_model::proofs::Ranges::map_range_more))]
fn opening_slots(
    alloc: Global,
    shape: &Shape,
    rank: u32,
) -> Result<Sequence<Option<Slots>>, NoMemory>
    ensures { IfOk result (λ slots. slots ≡ opening_slots shape.now rank) }
{
    let mut slots = Sequence::new(alloc);
    for segment in 0..32 {
        slots.push(opening_slots_at(alloc, shape, rank, segment)?)?;
    }
    Ok(slots)
}

/// Three tables of a rank's posts in the opening state: its state vector, its table of segments, and its threads.
fn opening_tables(
    alloc: Global,
    shape: &Shape,
    rank: u32,
) -> Result<(Sequence<bool>, SegmentTable, Sequence<ThreadState>), NoMemory>
    ensures corrupt { IfOk result (λ tables. tables.0 ≡ replicate shape.now.limits.ranks false) }
    ensures segments { IfOk result (λ tables. tables.1 ≡ opening_table shape.now rank) }
    ensures threads { IfOk result (λ tables. tables.2 ≡ map (opening_thread shape.now rank) (range_with_len 0 4)) }
{
    Ok((
        opening_corrupt(alloc, shape.limits().ranks)?,
        opening_table(alloc, shape, rank)?,
        opening_threads(alloc, shape, rank)?,
    ))
}

/// Three stores of a rank in the opening state: its groups, its pending collectives (none), and its rank journal (empty).
fn opening_records(
    alloc: Global,
    limits: Limits,
    rank: RankId,
) -> Result<(Groups, Pending, Buffer<PlacedEvent>), NoMemory>
    requires least { 1 ≤ limits.ranks }
    requires greatest { limits.ranks ≤ 16 }
    requires own { rank < limits.ranks }
    ensures groups { IfOk result (λ records. records.0 ≡ record { me = rank; groups = opening_handles limits.ranks }) }
    ensures pending { IfOk result (λ records. records.1 ≡ replicate 8 None) }
    ensures journal { IfOk result (λ records. records.2 ≡ record { items = []; capacity = limits.events }) }
{
    Ok((
        Groups::new(alloc, rank, limits.ranks)?,
        Pending::new(alloc)?,
        Buffer::with_capacity(alloc, limits.events as usize)?,
    ))
}

impl NodePosts {
    ghost use Rattle.std.specs.Prelude.{◌≡◌, ◌<◌, IfOk};
    ghost use Rattle.rank_node.specs.Openings.{posts_at_start};

    /// The posts of a rank in the opening state. All memory of their stores and of the rank journal is taken here.
    pub(crate) fn new(alloc: Global, shape: &Shape, rank: RankId) -> Result<NodePosts, NoMemory>
        requires { rank < shape.now.limits.ranks }
        ensures { IfOk result (λ posts. posts ≡ posts_at_start shape.now rank) }
    {
        let limits = shape.limits();
        let lanes = Lanes::new(alloc, limits.queues, limits.ranks, limits.depth)?;
        let (corrupt, segments, threads) = opening_tables(alloc, shape, rank.number())?;
        let (groups, pending, journal) = opening_records(alloc, limits, rank)?;
        Ok(NodePosts {
            limits,
            me: rank,
            owed: lanes.owed(),
            lanes,
            corrupt,
            segments,
            groups,
            pending,
            running: running_count(&threads),
            threads,
            journal,
        })
    }
}

impl NodeMemory {
    ghost use Rattle.std.specs.Prelude.{◌≡◌, IfOk};
    ghost use Rattle.rank_node.specs.Openings.{memory_at_start};

    /// The memory of a rank in the opening state: the declared segments with their slots, and an empty inbox.
    pub(crate) fn new(alloc: Global, shape: &Shape, rank: RankId) -> Result<NodeMemory, NoMemory>
        ensures { IfOk result (λ memory. memory ≡ memory_at_start shape.now rank) }
    {
        let limits = shape.limits();
        Ok(NodeMemory {
            segments: opening_segments(alloc, shape, rank.number())?,
            slots: opening_slots(alloc, shape, rank.number())?,
            inbox: Inbox::new(alloc, limits.inbox)?,
        })
    }
}

impl Node {
    /// The node of a rank in the opening state. All its stores and its rank journal take their memory here; what a call needs beside
    /// that is taken for that call, by `room`.
    pub fn new(alloc: Global, shape: &Shape, rank: RankId) -> Result<Node, NoMemory>
        requires { rank < shape.now.limits.ranks }
        ensures { IfOk result (λ node. IsOpeningNode shape.now rank node) }
    {
        Ok(Node {
            posts: NodePosts::new(alloc, shape, rank)?,
            memory: NodeMemory::new(alloc, shape, rank)?,
        })
    }
}
