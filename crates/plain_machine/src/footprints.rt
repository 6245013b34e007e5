//! Finds what an event reaches beside its owner's posts: its footprint, the memory that it works on, the own memory, and the group.
//! Where it reaches none, an empty one is lent in its place (`none`), so that one function serves all events. (own choice)

ghost use Rattle.std.specs.Prelude.{◌≡◌, ◌≤◌, slice_get};
ghost use Rattle.gaspi_model.specs.Parts.{empty_memory, memory_or_none, empty_group};
ghost use Rattle.plain_machine.specs.Footprints.{call_footprint, memory_at, own_at, group_at};

use gaspi_model::Memory;
use gaspi_types::{Footprint, Group, Invocation, Limits, RankId, Sequence};
use std::alloc::Global;

/// The footprint of a call of a caller.
pub fn call_footprint(limits: &Limits, invocation: &Invocation<'_>) -> Footprint
    requires { limits.now.ranks ≤ 16 }
    ensures { result ≡ call_footprint limits.now invocation.now.caller.rank invocation.now.call.now }
{
    let declaration = invocation.row.footprint;
    declaration.footprint(limits.ranks, invocation.caller.rank)
}

/// A memory with no segment, for an event that works on none. It takes no memory.
pub fn empty_memory(alloc: Global) -> Memory
    ensures { result ≡ empty_memory }
{
    Memory {
        segments: Sequence::new(alloc),
        slots: Sequence::new(alloc),
        inbox: Sequence::new(alloc),
    }
}

/// A memory with no segment, made once. It is lent to the looks that work on none. (own choice)
#[derive(Debug, Drop)]
pub struct EmptyMemory {
    memory: Memory,
    ghost empty: { memory ≡ empty_memory },
}

impl EmptyMemory {
    /// An empty memory. It takes no memory.
    pub fn new(alloc: Global) -> EmptyMemory {
        EmptyMemory {
            memory: empty_memory(alloc),
        }
    }

    /// The memory, which is empty.
    pub fn lent(&self) -> &Memory
        ensures { result.now ≡ empty_memory }
    {
        &self.memory
    }
}

/// A group with no member list and no contributions, for a number over 7. It takes no memory.
pub fn empty_group(alloc: Global) -> Group
    ensures { result ≡ empty_group }
{
    Group {
        members: None,
        contributions: Sequence::new(alloc),
    }
}

/// The group with a number; `none` for a number over 7.
pub fn group_in<'a>(groups: &'a Sequence<Group>, none: &'a Group, id: u64) -> &'a Group
    requires { none.now ≡ empty_group }
    ensures { result.now ≡ group_at groups.now id }
{
    if id >= 8 {
        return none;
    }
    match groups.get(id as usize) {
        Some(group) => group,
        None => none,
    }
}

/// The memory of a rank; `none` where there is no such rank.
fn memory_of<'a>(memories: &'a Sequence<Memory>, none: &'a Memory, rank: RankId) -> &'a Memory
    requires { none.now ≡ empty_memory }
    ensures { result.now ≡ memory_or_none (slice_get memories.now rank) }
{
    match memories.get(rank.index()) {
        Some(memory) => memory,
        None => none,
    }
}

/// The memory that an event of `me` with this footprint works on; `none` where it works on no memory.
pub fn accessed_memory<'a>(
    memories: &'a Sequence<Memory>,
    none: &'a Memory,
    me: RankId,
    footprint: &Footprint,
) -> &'a Memory
    requires { none.now ≡ empty_memory }
    ensures { result.now ≡ memory_at memories.now me footprint.now }
{
    match footprint {
        Footprint::OwnMemory | Footprint::GroupAndMemory(_) => memory_of(memories, none, me),
        Footprint::PeerMemory(rank) | Footprint::BothMemories(rank) => memory_of(
            memories, none, *rank,
        ),
        Footprint::Alone | Footprint::PeerPosts(_) | Footprint::Group(_) => none,
    }
}

/// The own memory of `me`, where an event with this footprint reaches it; else `none`.
pub fn own_memory<'a>(
    memories: &'a Sequence<Memory>,
    none: &'a Memory,
    me: RankId,
    footprint: &Footprint,
) -> &'a Memory
    requires { none.now ≡ empty_memory }
    ensures { result.now ≡ own_at memories.now me footprint.now }
{
    match footprint {
        Footprint::OwnMemory | Footprint::BothMemories(_) | Footprint::GroupAndMemory(_) => {
            memory_of(memories, none, me)
        }
        Footprint::Alone
        | Footprint::PeerMemory(_)
        | Footprint::PeerPosts(_)
        | Footprint::Group(_) => none,
    }
}
