//! The calls on a queue of the caller's rank. (GASPI: one-sided communication)

/// Waits until a queue has no awaited entry; then its open count is 0. (GASPI: wait)
#[derive(Clone, Copy, Debug, PartialEq, Eq)]
pub struct Wait {
    pub queue: u64,
}

/// Removes all entries of a queue, and makes its open count 0 and the queue unbroken. (GASPI: queue_purge)
#[derive(Clone, Copy, Debug, PartialEq, Eq)]
pub struct Purge {
    pub queue: u64,
}

/// Answers the open count of a queue: how many entries were posted to it since its last wait or purge that was done. (GASPI:
/// queue_size)
#[derive(Clone, Copy, Debug, PartialEq, Eq)]
pub struct Qsize {
    pub queue: u64,
}
