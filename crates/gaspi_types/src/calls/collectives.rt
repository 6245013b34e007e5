//! The collective calls, which all members of a group make. (GASPI: collectives)

ghost use Rattle.std.specs.Prelude.{◌≡◌, IfOk, IsOk, length};

use crate::collectives::{Numbers, Op};
use crate::memory::NoMemory;
use std::alloc::Global;

/// The group commit: once every member has joined, a group of the caller's rank whose stage is building is committed. The first
/// one of an id fixes the member list. (GASPI: group_commit)
#[derive(Clone, Copy, Debug, PartialEq, Eq)]
pub struct Commit {
    pub group: u64,
}

/// Is done once every member of a group has joined its round. (GASPI: barrier)
#[derive(Clone, Copy, Debug, PartialEq, Eq)]
pub struct Barrier {
    pub group: u64,
}

/// Answers the reduction of the numbers of all members, position by position, once every member has joined. (GASPI: allreduce)
#[derive(Debug, PartialEq, Eq, Drop)]
pub struct Allreduce {
    pub group: u64,
    pub op: Op,
    /// The numbers of the caller's rank, with their type.
    pub values: Numbers,
}

impl Allreduce {
    /// An equal call. No memory is taken where there are no numbers.
    pub fn copy(&self, alloc: Global) -> Result<Allreduce, NoMemory>
        ensures ok { IfOk result (λ call. call ≡ self.now) }
        ensures empty { length self.now.values.items ≡ 0 → IsOk result }
    {
        Ok(Allreduce {
            group: self.group,
            op: self.op,
            values: self.values.copy(alloc)?,
        })
    }
}

/// Makes an own segment of this id and size, in bytes, at its join; once every member has joined, the segments of all members
/// are known to the caller's rank. (GASPI: segment_create)
#[derive(Clone, Copy, Debug, PartialEq, Eq)]
pub struct Create {
    pub seg: u64,
    pub size: u64,
    pub group: u64,
}
