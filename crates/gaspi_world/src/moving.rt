//! What a try to make transfers of a rank came to: the answer of `World::transfer` and `World::transfer_lane`.

/// What a try to make a transfer of a rank, or several of one lane, came to. Only after `Moved` was anything committed.
#[derive(Clone, Copy, Debug, PartialEq, Eq)]
pub enum Moving {
    /// One transfer was made; by `transfer_lane` one or more.
    Moved,
    /// The rank's shard was missed, or the other shard of the rank's next transfer.
    Busy,
    /// No transfer of that rank may come next, and one of its threads has not ended.
    Empty,
    /// No transfer of that rank may come next, and all its threads have ended.
    Ended,
}
