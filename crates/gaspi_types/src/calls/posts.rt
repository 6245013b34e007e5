//! The calls that post entries to the lane of a rank and a queue. (GASPI: one-sided communication)
//!
//! `seg` and `offset` are of an own segment, `rseg` and `roffset` of a segment of `rank`. `note` is the notification id; its
//! segment is `nseg` for a list, and for a single post `rseg`, or `seg` after a read. `Item` has what each write and read of
//! them has in common.

ghost use Rattle.std.specs.Prelude.{◌≡◌, IfOk, IsOk, length};
ghost use Rattle.gaspi_types.specs.Posts.{is_list_length, write_item, read_item, write_notify_item, read_notify_item};

use crate::lists::Sequence;
use crate::memory::NoMemory;
use std::alloc::Global;

/// Whether a list post may have that many items: 1 to 256.
pub fn is_list_length(length: usize) -> bool
    ensures { result ≡ is_list_length length }
{
    1 <= length && length <= 256
}

/// The ranges of one write or read: `size` bytes of an own segment, and as many of a segment of the call's rank.
#[derive(Clone, Copy, Debug, PartialEq, Eq)]
pub struct Item {
    pub seg: u64,
    pub offset: u64,
    pub rseg: u64,
    pub roffset: u64,
    pub size: u64,
}

/// Posts a write into a segment of a rank. (GASPI: write)
#[derive(Clone, Copy, Debug, PartialEq, Eq)]
pub struct Write {
    pub seg: u64,
    pub offset: u64,
    pub rank: u64,
    pub rseg: u64,
    pub roffset: u64,
    pub size: u64,
    pub queue: u64,
}

/// Posts a read from a segment of a rank. (GASPI: read)
#[derive(Clone, Copy, Debug, PartialEq, Eq)]
pub struct Read {
    pub seg: u64,
    pub offset: u64,
    pub rank: u64,
    pub rseg: u64,
    pub roffset: u64,
    pub size: u64,
    pub queue: u64,
}

/// Posts a notification: a slot of a segment of a rank gets a value. (GASPI: notify)
#[derive(Clone, Copy, Debug, PartialEq, Eq)]
pub struct Notify {
    pub rseg: u64,
    pub rank: u64,
    pub note: u64,
    pub value: u32,
    pub queue: u64,
}

/// Posts a write into a segment of a rank, and behind it a notification of a slot of that segment. (GASPI: write_notify)
#[derive(Clone, Copy, Debug, PartialEq, Eq)]
pub struct WriteNotify {
    pub seg: u64,
    pub offset: u64,
    pub rank: u64,
    pub rseg: u64,
    pub roffset: u64,
    pub size: u64,
    pub note: u64,
    pub value: u32,
    pub queue: u64,
}

/// Posts a read from a segment of a rank, and behind it its notification, of a slot of the own segment. (GASPI: read_notify)
#[derive(Clone, Copy, Debug, PartialEq, Eq)]
pub struct ReadNotify {
    pub seg: u64,
    pub offset: u64,
    pub rank: u64,
    pub rseg: u64,
    pub roffset: u64,
    pub size: u64,
    pub note: u64,
    pub queue: u64,
}

/// Posts writes into segments of a rank, one for each item. (GASPI: write_list)
#[derive(Debug, PartialEq, Eq, Drop)]
pub struct WriteList {
    pub rank: u64,
    pub queue: u64,
    pub items: Sequence<Item>,
}

/// Posts writes into segments of a rank, one for each item, and a notification behind them. (GASPI: write_list_notify)
#[derive(Debug, PartialEq, Eq, Drop)]
pub struct WriteListNotify {
    pub rank: u64,
    pub queue: u64,
    pub nseg: u64,
    pub note: u64,
    pub value: u32,
    pub items: Sequence<Item>,
}

/// Posts reads from segments of a rank, one for each item. (GASPI: read_list)
#[derive(Debug, PartialEq, Eq, Drop)]
pub struct ReadList {
    pub rank: u64,
    pub queue: u64,
    pub items: Sequence<Item>,
}

/// Posts reads from segments of a rank, one for each item, and behind them their notification, of a slot of an own segment.
/// (GASPI: read_list_notify)
#[derive(Debug, PartialEq, Eq, Drop)]
pub struct ReadListNotify {
    pub rank: u64,
    pub queue: u64,
    pub nseg: u64,
    pub note: u64,
    pub items: Sequence<Item>,
}

impl WriteList {
    /// An equal call. No memory is taken where the call has no items.
    pub fn copy(&self, alloc: Global) -> Result<WriteList, NoMemory>
        ensures ok { IfOk result (λ call. call ≡ self.now) }
        ensures listless { length self.now.items ≡ 0 → IsOk result }
    {
        Ok(WriteList {
            rank: self.rank,
            queue: self.queue,
            items: Sequence::copied_from(alloc, self.items.as_slice())?,
        })
    }
}

impl WriteListNotify {
    /// An equal call. No memory is taken where the call has no items.
    pub fn copy(&self, alloc: Global) -> Result<WriteListNotify, NoMemory>
        ensures ok { IfOk result (λ call. call ≡ self.now) }
        ensures listless { length self.now.items ≡ 0 → IsOk result }
    {
        Ok(WriteListNotify {
            rank: self.rank,
            queue: self.queue,
            nseg: self.nseg,
            note: self.note,
            value: self.value,
            items: Sequence::copied_from(alloc, self.items.as_slice())?,
        })
    }
}

impl ReadList {
    /// An equal call. No memory is taken where the call has no items.
    pub fn copy(&self, alloc: Global) -> Result<ReadList, NoMemory>
        ensures ok { IfOk result (λ call. call ≡ self.now) }
        ensures listless { length self.now.items ≡ 0 → IsOk result }
    {
        Ok(ReadList {
            rank: self.rank,
            queue: self.queue,
            items: Sequence::copied_from(alloc, self.items.as_slice())?,
        })
    }
}

impl ReadListNotify {
    /// An equal call. No memory is taken where the call has no items.
    pub fn copy(&self, alloc: Global) -> Result<ReadListNotify, NoMemory>
        ensures ok { IfOk result (λ call. call ≡ self.now) }
        ensures listless { length self.now.items ≡ 0 → IsOk result }
    {
        Ok(ReadListNotify {
            rank: self.rank,
            queue: self.queue,
            nseg: self.nseg,
            note: self.note,
            items: Sequence::copied_from(alloc, self.items.as_slice())?,
        })
    }
}

impl Write {
    /// The ranges of the one write or read of this call.
    pub fn item(&self) -> Item
        ensures { result ≡ write_item self.now }
    {
        Item {
            seg: self.seg,
            offset: self.offset,
            rseg: self.rseg,
            roffset: self.roffset,
            size: self.size,
        }
    }
}

impl Read {
    /// The ranges of the one write or read of this call.
    pub fn item(&self) -> Item
        ensures { result ≡ read_item self.now }
    {
        Item {
            seg: self.seg,
            offset: self.offset,
            rseg: self.rseg,
            roffset: self.roffset,
            size: self.size,
        }
    }
}

impl WriteNotify {
    /// The ranges of the one write or read of this call.
    pub fn item(&self) -> Item
        ensures { result ≡ write_notify_item self.now }
    {
        Item {
            seg: self.seg,
            offset: self.offset,
            rseg: self.rseg,
            roffset: self.roffset,
            size: self.size,
        }
    }
}

impl ReadNotify {
    /// The ranges of the one write or read of this call.
    pub fn item(&self) -> Item
        ensures { result ≡ read_notify_item self.now }
    {
        Item {
            seg: self.seg,
            offset: self.offset,
            rseg: self.rseg,
            roffset: self.roffset,
            size: self.size,
        }
    }
}
