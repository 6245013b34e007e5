//! The state of the machine and its parts, and why an event is no step in a state.

use gaspi_types::{
    Group, GroupId, Handles, Limits, Messages, OwnSegments, PendingCollective, Queue, RankId,
    SegmentTable, Sequence,
};

/// Whether a thread of a rank is a declared caller, and whether it has ended.
#[derive(Clone, Copy, Debug, PartialEq, Eq)]
pub enum ThreadState {
    /// It is no caller.
    Absent,
    /// It is an active caller.
    Running,
    /// It is a caller, and has ended.
    Ended,
}

/// The posts of a rank: all that it has but bytes, slots and messages.
#[derive(Debug, PartialEq, Eq, Drop)]
pub struct Posts {
    /// Its queues, by number.
    pub queues: Sequence<Queue>,
    /// Which ranks are corrupt for this one. (GASPI: state vector)
    pub corrupt: Sequence<bool>,
    /// Its table of segments.
    pub segments: SegmentTable,
    /// Its groups. (GASPI: groups)
    pub groups: Handles,
    /// Its pending collective on each group, by group id. (GASPI: collectives, timeouts)
    pub pending: Sequence<Option<PendingCollective>>,
    /// Its threads, by number.
    pub threads: Sequence<ThreadState>,
    /// How many events it has recorded.
    pub events: u32,
    /// The number of its next entry.
    pub next: u32,
}

/// The memory of a rank: the bytes and slots of its segments, by segment id, and its inbox.
#[derive(Debug, PartialEq, Eq, Drop)]
pub struct Memory {
    /// Its segments with their bytes.
    pub segments: OwnSegments,
    /// The notification slots of each segment. (GASPI: notifications)
    pub slots: Sequence<Option<Sequence<u32>>>,
    /// The messages that it has not received, the earliest first. (GASPI: passive communication)
    pub inbox: Messages,
}

/// The state of the machine: the limits, the posts and the memory of each rank, and each group.
#[derive(Debug, PartialEq, Eq, Drop)]
pub struct State {
    pub limits: Limits,
    /// By the numbers of the ranks.
    pub posts: Sequence<Posts>,
    /// By the numbers of the ranks.
    pub memories: Sequence<Memory>,
    /// What all ranks share of each group, by group id. (GASPI: groups, collectives)
    pub groups: Sequence<Group>,
}

/// The name of a part of the state, which an event reads or changes as a whole. (own choice)
#[derive(Clone, Copy, Debug, PartialEq, Eq)]
pub enum Shard {
    /// The posts of a rank.
    Posts(RankId),
    /// The memory of a rank.
    Memory(RankId),
    /// A group.
    Group(GroupId),
}

/// The cause: why an event is no step.
#[derive(Clone, Copy, Debug, PartialEq, Eq)]
pub enum Why {
    /// The caller is not declared.
    Caller,
    /// The rank has no room for the event.
    Limit,
    /// The caller's collective may not join with these arguments.
    Join,
    /// The call may not be recorded with this reply.
    Reply,
    /// There is no such entry, or its take may not come now, or has another outcome.
    Take,
    /// There is no such entry, or its put may not come now, or has another outcome.
    Put,
}

/// Why a step was not made. The state is then as before.
#[derive(Clone, Copy, Debug, PartialEq, Eq)]
pub enum StepFault {
    /// The event is no step, for that cause.
    Illegal(Why),
    /// Out of memory.
    NoMemory,
}
