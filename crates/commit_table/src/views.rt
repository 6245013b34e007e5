//! What a pass or a seat knows, and what lock operations are. The types are for proofs alone: no value of them is made.
use std::collections::LinkedList;

/// What a pass or a note knows, as contracts see it.
pub struct PassView<S, E> {
    /// The start of the machine, from the table which made the pass or the note. Only what is left of a seat that another took in has
    /// none, and no call gives that out.
    pub start: Option<S>,
    /// The number of the pass, which no other pass has. A note has none.
    pub party: Option<u32>,
    /// The history so far as it was seen.
    pub seen: LinkedList<E>,
    /// The events that name its party, in order: all of them were committed by this pass.
    pub mine: LinkedList<E>,
    /// The places of all events that this pass committed, in order.
    pub commits: LinkedList<u64>,
    /// The lengths of the history at each look, in order.
    pub looks: LinkedList<u64>,
    /// What was taken and given back, the newest first. The first pair of a shard says whether the pass holds the shard: then it has
    /// the history that the shard's value stands for, and otherwise none.
    pub held: LinkedList<(u32, Option<LinkedList<E>>)>,
    /// The shards that were missed, in order, one for each miss.
    pub missed: LinkedList<u32>,
    /// The shards that this pass took, gave back and missed, the newest first, each with what it did.
    pub lock_operations: LinkedList<(u32, LockOp)>,
    /// The lock operations of all passes up to the last miss, the newest first. That miss is the first of them.
    pub lock_history: LinkedList<LockRecord>,
}

/// What a pass did at the word of a shard, which is the shard's lock.
pub enum LockOp {
    /// It found the shard free, and took it.
    Took,
    /// It gave back the shard, which it held.
    GaveBack,
    /// It found that another pass held the shard.
    Missed,
}

/// One lock operation: which pass took, gave back or missed which shard.
pub struct LockRecord {
    /// The shard.
    pub shard: u32,
    /// The party of the pass.
    pub party: u32,
    /// What the pass did.
    pub op: LockOp,
}

/// What a seat at the table knows: what contracts see of it, and what it remembers between the atomic steps of a call.
pub struct SeatView<S, E> {
    /// What contracts see.
    pub known: PassView<S, E>,
    /// The held shard whose slot is out: the seat alone may exchange the value there.
    pub slot_out: Option<u32>,
    /// Of the two histories of a seat join the shorter one, which the seat remembers until it looks.
    pub note_history: LinkedList<E>,
    /// The first party whose pass the seat is to make.
    pub first_party: u32,
    /// The party after the last of these; no greater than `first_party` where the seat makes no pass.
    pub end_party: u32,
    /// Whether the seat takes in all passes, to close the table.
    pub is_closer: bool,
    /// What each pass knew that was taken in, in order.
    pub joined_passes: LinkedList<PassView<S, E>>,
    /// The seat has taken in all passes, and looked since.
    pub closed: bool,
}
