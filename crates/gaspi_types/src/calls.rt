//! The type of all calls. Each call with fields is a struct of its own, in a module below for each chapter of GASPI.

ghost use Rattle.std.specs.Prelude.{◌≡◌, IfOk, IsOk, true};
ghost use Rattle.gaspi_types.specs.Copies.{is_listless_call};

mod atomics;
mod collectives;
mod groups;
mod memory;
mod notifications;
mod passive;
mod posts;
mod queues;
mod segments;

use crate::memory::NoMemory;
pub use atomics::{CompareSwap, FetchAdd};
pub use collectives::{Allreduce, Barrier, Commit, Create};
pub use groups::{GroupAdd, GroupDelete};
pub use memory::{Load, Store};
pub use notifications::{Reset, Waitsome};
pub use passive::{PassiveReceive, PassiveSend};
pub use posts::{
    Item, Notify, Read, ReadList, ReadListNotify, ReadNotify, Write, WriteList, WriteListNotify,
    WriteNotify, is_list_length,
};
pub use queues::{Purge, Qsize, Wait};
pub use segments::{Alloc, Delete, Register};
use std::alloc::Global;

/// A call as its caller wrote it, without its timeout: ids, ranks, offsets and sizes are any numbers, and a call whose numbers
/// are outside their limits is refused at its look. Offsets and sizes are in bytes.
#[derive(Debug, PartialEq, Eq, Drop)]
pub enum Call {
    Alloc(Alloc),
    Register(Register),
    Delete(Delete),
    Store(Store),
    Load(Load),
    Write(Write),
    Read(Read),
    Notify(Notify),
    WriteNotify(WriteNotify),
    ReadNotify(ReadNotify),
    WriteList(WriteList),
    WriteListNotify(WriteListNotify),
    ReadList(ReadList),
    ReadListNotify(ReadListNotify),
    Wait(Wait),
    Purge(Purge),
    Qsize(Qsize),
    Waitsome(Waitsome),
    Reset(Reset),
    PassiveSend(PassiveSend),
    PassiveReceive(PassiveReceive),
    FetchAdd(FetchAdd),
    CompareSwap(CompareSwap),
    /// Makes a group of the caller's rank, with no rank in it, and answers its number. (GASPI: group_create)
    GroupCreate,
    GroupAdd(GroupAdd),
    GroupDelete(GroupDelete),
    Commit(Commit),
    Barrier(Barrier),
    Allreduce(Allreduce),
    Create(Create),
    /// Answers which ranks are corrupt for the caller's rank. (GASPI: state_vec_get)
    State,
    /// The end of a caller. (own choice)
    End,
}

/// How many looks a call may have. (GASPI: timeouts)
#[derive(Clone, Copy, Debug, PartialEq, Eq)]
pub enum Timeout {
    /// That many looks, at least one.
    Looks(u32),
    /// Looks without end, until the call is refused or ready.
    Block,
}

impl Call {
    /// An equal call. No memory is taken where no list in the call has an item.
    pub fn copy(&self, alloc: Global) -> Result<Call, NoMemory>
        ensures ok { IfOk result (λ call. call ≡ self.now) }
        ensures listless { is_listless_call self.now ≡ true → IsOk result }
    {
        match self {
            Call::Alloc(call) => Ok(Call::Alloc(*call)),
            Call::Register(call) => Ok(Call::Register(*call)),
            Call::Delete(call) => Ok(Call::Delete(*call)),
            Call::Store(call) => Ok(Call::Store(call.copy(alloc)?)),
            Call::Load(call) => Ok(Call::Load(*call)),
            Call::Write(call) => Ok(Call::Write(*call)),
            Call::Read(call) => Ok(Call::Read(*call)),
            Call::Notify(call) => Ok(Call::Notify(*call)),
            Call::WriteNotify(call) => Ok(Call::WriteNotify(*call)),
            Call::ReadNotify(call) => Ok(Call::ReadNotify(*call)),
            Call::WriteList(call) => Ok(Call::WriteList(call.copy(alloc)?)),
            Call::WriteListNotify(call) => Ok(Call::WriteListNotify(call.copy(alloc)?)),
            Call::ReadList(call) => Ok(Call::ReadList(call.copy(alloc)?)),
            Call::ReadListNotify(call) => Ok(Call::ReadListNotify(call.copy(alloc)?)),
            Call::Wait(call) => Ok(Call::Wait(*call)),
            Call::Purge(call) => Ok(Call::Purge(*call)),
            Call::Qsize(call) => Ok(Call::Qsize(*call)),
            Call::Waitsome(call) => Ok(Call::Waitsome(*call)),
            Call::Reset(call) => Ok(Call::Reset(*call)),
            Call::PassiveSend(call) => Ok(Call::PassiveSend(*call)),
            Call::PassiveReceive(call) => Ok(Call::PassiveReceive(*call)),
            Call::FetchAdd(call) => Ok(Call::FetchAdd(*call)),
            Call::CompareSwap(call) => Ok(Call::CompareSwap(*call)),
            Call::GroupCreate => Ok(Call::GroupCreate),
            Call::GroupAdd(call) => Ok(Call::GroupAdd(*call)),
            Call::GroupDelete(call) => Ok(Call::GroupDelete(*call)),
            Call::Commit(call) => Ok(Call::Commit(*call)),
            Call::Barrier(call) => Ok(Call::Barrier(*call)),
            Call::Allreduce(call) => Ok(Call::Allreduce(call.copy(alloc)?)),
            Call::Create(call) => Ok(Call::Create(*call)),
            Call::State => Ok(Call::State),
            Call::End => Ok(Call::End),
        }
    }
}
