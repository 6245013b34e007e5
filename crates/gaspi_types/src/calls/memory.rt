//! The calls of a rank on the bytes of its own segments. (own choice)

ghost use Rattle.std.specs.Prelude.{◌≡◌, IfOk, IsOk, length};

use crate::lists::{Bytes, Sequence};
use crate::memory::NoMemory;
use std::alloc::Global;

/// Writes bytes into an own segment, from `offset` on. (own choice)
#[derive(Debug, PartialEq, Eq, Drop)]
pub struct Store {
    pub seg: u64,
    pub offset: u64,
    pub bytes: Bytes,
}

/// Answers `size` bytes of an own segment, from `offset` on. (own choice)
#[derive(Clone, Copy, Debug, PartialEq, Eq)]
pub struct Load {
    pub seg: u64,
    pub offset: u64,
    pub size: u64,
}

impl Store {
    /// An equal store. No memory is taken where the store has no bytes.
    pub fn copy(&self, alloc: Global) -> Result<Store, NoMemory>
        ensures ok { IfOk result (λ store. store ≡ self.now) }
        ensures listless { length self.now.bytes ≡ 0 → IsOk result }
    {
        Ok(Store {
            seg: self.seg,
            offset: self.offset,
            bytes: Sequence::copied_from(alloc, self.bytes.as_slice())?,
        })
    }
}
