//! Why a call recorded nothing.

/// Why a call recorded nothing: the world is as it was.
#[derive(Clone, Copy, Debug, PartialEq, Eq)]
pub enum CallStop {
    /// Out of memory.
    NoMemory,
    /// The caller's rank lacks room for the events that the call needs.
    EventLimit,
}
