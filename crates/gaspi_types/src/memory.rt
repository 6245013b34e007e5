//! The one answer where memory runs out.

ghost use Rattle.std.specs.Prelude.{◌≡◌};

use std::alloc::{AllocError, AllocFailed};

/// Out of memory: an allocation was refused. Nothing else is answered so.
#[derive(Clone, Copy, Debug, PartialEq, Eq)]
pub struct NoMemory;

impl From<AllocError> for NoMemory {
    /// For the operator `?`, where the standard library had no memory.
    fn from(_error: AllocError) -> NoMemory {
        NoMemory
    }
}

impl<T: Drop> From<AllocFailed<T>> for NoMemory {
    /// For the operator `?`, where the standard library had no memory.
    fn from(_error: AllocFailed<T>) -> NoMemory {
        NoMemory
    }
}
