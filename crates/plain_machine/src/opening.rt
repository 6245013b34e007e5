//! The parts of the opening state: the shape's segments and callers, all else zero or empty; and the used room of each rank. The
//! functions `all_` give one item for each rank or group, the functions `opening_` one item or a table of it. (GASPI: segments)

ghost use Rattle.std.specs.Prelude.{◌≡◌, ◌+◌, ◌<◌, ◌≤◌, IfOk, replicate, map, count_by, [], None};
ghost use Rattle.std.specs.Option.{option_map};
ghost use Rattle.std.specs.List.{range_with_len};
ghost use Rattle.gaspi_model.specs.State.{declared_size, opening_thread, opening_queue, opening_posts, opening_slots, opening_memory, opening_part, opening_group, new_slots, is_running};

use gaspi_model::{
    Memory, Posts, declared_size, opening_corrupt, opening_table, opening_thread, opening_threads,
};
use gaspi_types::{
    Entry, Group, Handles, NoMemory, PendingCollective, Queue, RankContributions, Sequence, Shape,
    all_below,
};
use plain_calls::{is_running, new_slots, opening_segments};
use std::alloc::Global;

/// The used room of a rank in the opening state: one event for the end of each active thread.
#[tactic(auto, using(gaspi_model::proofs::Ranges::map_range_more))]
fn opening_used(shape: &Shape, rank: u32) -> u32
    ensures { result ≡ count_by is_running (map (opening_thread shape.now rank) (range_with_len 0 4)) }
{
    let mut running = 0;
    for thread in 0..4 {
        if is_running(opening_thread(shape, rank, thread)) {
            running += 1;
        }
    }
    running
}

/// An empty lane to each rank.
fn opening_lanes(alloc: Global, ranks: u32) -> Result<Sequence<Sequence<Entry>>, NoMemory>
    ensures { IfOk result (λ lanes. lanes ≡ replicate ranks []) }
{
    let mut lanes = Sequence::new(alloc);
    for _rank in 0..ranks {
        lanes.push(Sequence::new(alloc))?;
    }
    Ok(lanes)
}

/// The queues of a rank, with no entry.
fn opening_queues(alloc: Global, queues: u32, ranks: u32) -> Result<Sequence<Queue>, NoMemory>
    ensures { IfOk result (λ rows. rows ≡ replicate queues (opening_queue ranks)) }
{
    let mut rows = Sequence::new(alloc);
    for _queue in 0..queues {
        rows.push(Queue {
            open_count: 0,
            broken: None,
            lanes: opening_lanes(alloc, ranks)?,
        })?;
    }
    Ok(rows)
}

/// The pending collectives of a rank: none on any group.
fn opening_pending(alloc: Global) -> Result<Sequence<Option<PendingCollective>>, NoMemory>
    ensures { IfOk result (λ pending. pending ≡ replicate 8 None) }
{
    let mut pending = Sequence::new(alloc);
    for _group in 0..8u32 {
        pending.push(None)?;
    }
    Ok(pending)
}

/// The posts of a rank.
fn opening_posts(alloc: Global, shape: &Shape, rank: u32) -> Result<Posts, NoMemory>
    ensures { IfOk result (λ posts. posts ≡ opening_posts shape.now rank) }
{
    let ranks = shape.limits().ranks;
    Ok(Posts {
        queues: opening_queues(alloc, shape.queues(), ranks)?,
        corrupt: opening_corrupt(alloc, ranks)?,
        segments: opening_table(alloc, shape, rank)?,
        groups: Handles::opening(alloc, ranks)?,
        pending: opening_pending(alloc)?,
        threads: opening_threads(alloc, shape, rank)?,
        events: 0,
        next: 0,
    })
}

/// The slots of the declared segment of a rank under an id, all zero; None where the shape declares none.
fn opening_slots_at(
    alloc: Global,
    shape: &Shape,
    rank: u32,
    segment: u32,
) -> Result<Option<Sequence<u32>>, NoMemory>
    ensures { IfOk result (λ slots. slots ≡ option_map (λ size. new_slots shape.now.limits.notes) (declared_size shape.now rank segment)) }
{
    match declared_size(shape, rank, segment) {
        Some(_) => Ok(Some(new_slots(alloc, shape.notes())?)),
        None => Ok(None),
    }
}

/// The slots of the declared segments of a rank: one item for each of the 32 ids.
#[tactic(auto, using(gaspi_model::proofs::Ranges::map_range_more))]
fn opening_slots(
    alloc: Global,
    shape: &Shape,
    rank: u32,
) -> Result<Sequence<Option<Sequence<u32>>>, NoMemory>
    ensures { IfOk result (λ slots. slots ≡ opening_slots shape.now rank) }
{
    let mut slots = Sequence::new(alloc);
    for segment in 0..32 {
        slots.push(opening_slots_at(alloc, shape, rank, segment)?)?;
    }
    Ok(slots)
}

/// The memory of a rank.
fn opening_memory(alloc: Global, shape: &Shape, rank: u32) -> Result<Memory, NoMemory>
    ensures { IfOk result (λ memory. memory ≡ opening_memory shape.now rank) }
{
    Ok(Memory {
        segments: opening_segments(alloc, shape, rank)?,
        slots: opening_slots(alloc, shape, rank)?,
        inbox: Sequence::with_capacity(alloc, shape.inbox() as usize)?,
    })
}

/// The posts of each rank.
#[tactic(auto, using(gaspi_model::proofs::Ranges::map_range_more))]
pub fn all_posts(alloc: Global, shape: &Shape) -> Result<Sequence<Posts>, NoMemory>
    ensures { IfOk result (λ posts. posts ≡ map (opening_posts shape.now) (range_with_len 0 shape.now.limits.ranks)) }
{
    let mut posts = Sequence::new(alloc);
    for rank in 0..shape.ranks() {
        posts.push(opening_posts(alloc, shape, rank)?)?;
    }
    Ok(posts)
}

/// The memory of each rank.
#[tactic(auto, using(gaspi_model::proofs::Ranges::map_range_more))]
pub fn all_memories(alloc: Global, shape: &Shape) -> Result<Sequence<Memory>, NoMemory>
    ensures { IfOk result (λ memories. memories ≡ map (opening_memory shape.now) (range_with_len 0 shape.now.limits.ranks)) }
{
    let mut memories = Sequence::new(alloc);
    for rank in 0..shape.ranks() {
        memories.push(opening_memory(alloc, shape, rank)?)?;
    }
    Ok(memories)
}

/// The used room of each rank.
#[tactic(auto, using(gaspi_model::proofs::Ranges::map_range_more))]
pub fn all_used(alloc: Global, shape: &Shape) -> Result<Sequence<u32>, NoMemory>
    ensures { IfOk result (λ taken. taken ≡ map (λ rank. count_by is_running (map (opening_thread shape.now rank) (range_with_len 0 4))) (range_with_len 0 shape.now.limits.ranks)) }
{
    let mut taken = Sequence::new(alloc);
    for rank in 0..shape.ranks() {
        taken.push(opening_used(shape, rank))?;
    }
    Ok(taken)
}

/// For each rank its contributions to a group: none.
fn opening_parts(alloc: Global, ranks: u32) -> Result<Sequence<RankContributions>, NoMemory>
    ensures { IfOk result (λ parts. parts ≡ replicate ranks opening_part) }
{
    let mut parts = Sequence::new(alloc);
    for _rank in 0..ranks {
        parts.push(RankContributions {
            contributions: Sequence::new(alloc),
            completed: 0,
        })?;
    }
    Ok(parts)
}

/// A group: the member list of group 0 has every rank, that of another is not fixed.
fn opening_group(alloc: Global, ranks: u32, group: u32) -> Result<Group, NoMemory>
    requires { ranks ≤ 16 }
    ensures { IfOk result (λ x. x ≡ opening_group ranks group) }
{
    let members = if group == 0 {
        Some(all_below(ranks))
    } else {
        None
    };
    Ok(Group {
        members,
        contributions: opening_parts(alloc, ranks)?,
    })
}

/// The eight groups.
#[tactic(auto, using(gaspi_model::proofs::Ranges::map_range_more))]
pub fn all_groups(alloc: Global, shape: &Shape) -> Result<Sequence<Group>, NoMemory>
    ensures { IfOk result (λ groups. groups ≡ map (opening_group shape.now.limits.ranks) (range_with_len 0 8)) }
{
    let ranks = shape.limits().ranks;
    let mut groups = Sequence::new(alloc);
    for group in 0..8 {
        groups.push(opening_group(alloc, ranks, group)?)?;
    }
    Ok(groups)
}
