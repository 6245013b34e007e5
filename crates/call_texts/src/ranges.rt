//! That the numbers, bytes and lists in a value are in the ranges of their types, which is so of every value. Each function
//! only reads the value, and its contract says so.

ghost use Rattle.hex.specs.Hex.{IsBytes};
ghost use Rattle.call_texts.specs.CallText.{IsWritable};
ghost use Rattle.call_texts.specs.Fields.{IsInRange, IsItemInRange};
ghost use Rattle.call_texts.specs.declared.fields.Field.TheVariants.{Items, Elements};
ghost use Rattle.gaspi_types.specs.declared.calls.Call.TheVariants as calls;

use gaspi_types::{
    Alloc, Allreduce, Barrier, Call, Commit, CompareSwap, Create, Delete, FetchAdd, GroupAdd,
    GroupDelete, Item, Load, Notify, Numbers, PassiveReceive, PassiveSend, Purge, Qsize, Read,
    ReadList, ReadListNotify, ReadNotify, Register, Reset, Store, Wait, Waitsome, Write, WriteList,
    WriteListNotify, WriteNotify,
};

/// Bytes are below 256.
pub fn bytes_are_in_range(bytes: &[u8])
    ensures { IsBytes bytes.now }
{}

/// The numbers of an item are in the ranges of their types.
fn item_is_in_range(_item: Item)
    ensures { IsItemInRange _item }
{}

/// So are the numbers of items, and how many items there are.
fn items_are_in_range(items: &[Item])
    ensures { IsInRange Items items.now }
{
    for item in items {
        item_is_in_range(*item);
    }
}

/// Numbers of a type are in its range, and how many there are is below 2^64.
fn numbers_are_in_range(numbers: &Numbers)
    ensures { IsInRange Elements numbers.now }
{
    let _read = numbers.items().len();
}

/// The numbers of a `write_notify` are in the ranges of their types.
fn write_notify_is_in_range(_call: WriteNotify)
    ensures { IsWritable (calls.WriteNotify _call) }
{}

/// The numbers of a `read_notify` are in the ranges of their types.
fn read_notify_is_in_range(_call: ReadNotify)
    ensures { IsWritable (calls.ReadNotify _call) }
{}

/// The numbers and bytes of a call are in the ranges of their types; so, by `calls_read_back`, its text reads back as that
/// call.
pub fn call_is_in_range(call: &Call)
    ensures { IsWritable call.now }
{
    match call {
        Call::Alloc(Alloc { seg, size }) => {
            let _read = (*seg, *size);
        }
        Call::Register(Register { seg, rank }) => {
            let _read = (*seg, *rank);
        }
        Call::Delete(Delete { seg }) => {
            let _read = *seg;
        }
        Call::Store(Store { seg, offset, bytes }) => {
            let _read = (*seg, *offset);
            bytes_are_in_range(bytes.as_slice());
        }
        Call::Load(Load { seg, offset, size }) => {
            let _read = (*seg, *offset, *size);
        }
        Call::Write(
            Write {
                seg,
                offset,
                rank,
                rseg,
                roffset,
                size,
                queue,
            },
        ) => {
            let _read = (*seg, *offset, *rank, *rseg, *roffset, *size, *queue);
        }
        Call::Read(
            Read {
                seg,
                offset,
                rank,
                rseg,
                roffset,
                size,
                queue,
            },
        ) => {
            let _read = (*seg, *offset, *rank, *rseg, *roffset, *size, *queue);
        }
        Call::Notify(
            Notify {
                rseg,
                rank,
                note,
                value,
                queue,
            },
        ) => {
            let _read = (*rseg, *rank, *note, *value, *queue);
        }
        Call::WriteNotify(call) => write_notify_is_in_range(*call),
        Call::ReadNotify(call) => read_notify_is_in_range(*call),
        Call::WriteList(WriteList { rank, queue, items }) => {
            let _read = (*rank, *queue);
            items_are_in_range(items.as_slice());
        }
        Call::WriteListNotify(
            WriteListNotify {
                rank,
                queue,
                nseg,
                note,
                value,
                items,
            },
        ) => {
            let _read = (*rank, *queue, *nseg, *note, *value);
            items_are_in_range(items.as_slice());
        }
        Call::ReadList(ReadList { rank, queue, items }) => {
            let _read = (*rank, *queue);
            items_are_in_range(items.as_slice());
        }
        Call::ReadListNotify(
            ReadListNotify {
                rank,
                queue,
                nseg,
                note,
                items,
            },
        ) => {
            let _read = (*rank, *queue, *nseg, *note);
            items_are_in_range(items.as_slice());
        }
        Call::Wait(Wait { queue }) => {
            let _read = *queue;
        }
        Call::Purge(Purge { queue }) => {
            let _read = *queue;
        }
        Call::Qsize(Qsize { queue }) => {
            let _read = *queue;
        }
        Call::Waitsome(Waitsome { seg, begin, num }) => {
            let _read = (*seg, *begin, *num);
        }
        Call::Reset(Reset { seg, note }) => {
            let _read = (*seg, *note);
        }
        Call::PassiveSend(
            PassiveSend {
                seg,
                offset,
                rank,
                size,
            },
        ) => {
            let _read = (*seg, *offset, *rank, *size);
        }
        Call::PassiveReceive(PassiveReceive { seg, offset, size }) => {
            let _read = (*seg, *offset, *size);
        }
        Call::FetchAdd(
            FetchAdd {
                seg,
                offset,
                rank,
                value,
            },
        ) => {
            let _read = (*seg, *offset, *rank, *value);
        }
        Call::CompareSwap(
            CompareSwap {
                seg,
                offset,
                rank,
                comparator,
                new,
            },
        ) => {
            let _read = (*seg, *offset, *rank, *comparator, *new);
        }
        Call::GroupAdd(GroupAdd { group, rank }) => {
            let _read = (*group, *rank);
        }
        Call::GroupDelete(GroupDelete { group }) => {
            let _read = *group;
        }
        Call::Commit(Commit { group }) | Call::Barrier(Barrier { group }) => {
            let _read = *group;
        }
        Call::Allreduce(
            Allreduce {
                group,
                op: _,
                values,
            },
        ) => {
            let _read = *group;
            numbers_are_in_range(values);
        }
        Call::Create(Create { seg, size, group }) => {
            let _read = (*seg, *size, *group);
        }
        Call::GroupCreate | Call::State | Call::End => {}
    }
}
