//! The entries that each call of a post asks for, on a table of segments.

use gaspi_types::{
    ByteRange, Call, CallerId, Extent, Extents, Item, Kind, NoMemory, NoteSlot, Notify, RankId,
    Read, ReadList, ReadListNotify, ReadNotify, SegmentTable, Sequence, Shape, ThreadId, Write,
    WriteList, WriteListNotify, WriteNotify,
};
use post_queue::{Entries, build};
use std::alloc::Global;
use std::test::Fail;

/// Extents by segment id.
fn extents(alloc: Global, extents: &[Option<Extent>]) -> Result<Extents, NoMemory> {
    Sequence::copied_from(alloc, extents)
}

/// The known segments of two ranks.
fn known_of(alloc: Global, first: Extents, second: Extents) -> Result<Sequence<Extents>, NoMemory> {
    let ranks = vec![in alloc; first, second]?;
    Ok(Sequence::from_vec(ranks))
}

/// The extent of a segment that is there.
fn extent(generation: u32, size: u32) -> Option<Extent> {
    Some(Extent { generation, size })
}

/// The table of rank 0, which has segment 0 and knows segment 1 of rank 1.
fn table(alloc: Global) -> Result<SegmentTable, NoMemory> {
    let nothing = extents(alloc, &[])?;
    let target = extents(alloc, &[None, extent(5, 32)])?;
    let known = known_of(alloc, nothing, target)?;
    let own = extents(alloc, &[extent(2, 16)])?;
    Ok(SegmentTable {
        own,
        next_generations: Sequence::new(alloc),
        known,
    })
}

/// The range in the caller's own segment.
fn own() -> ByteRange {
    ByteRange {
        segment: 0,
        generation: 2,
        offset: 8,
        size: 4,
    }
}

/// The range in the target's segment.
fn target() -> ByteRange {
    ByteRange {
        segment: 1,
        generation: 5,
        offset: 16,
        size: 4,
    }
}

/// The kind of a write.
fn write() -> Kind {
    Kind::Write {
        own: own(),
        target: target(),
    }
}

/// The kind of a read.
fn read() -> Kind {
    Kind::Read {
        own: own(),
        target: target(),
    }
}

/// The kind of a notification of the target.
fn notify() -> Kind {
    Kind::Notify {
        target: NoteSlot {
            segment: 1,
            generation: 5,
            note: 3,
        },
        value: 7,
    }
}

/// The kind of the notification of a read.
fn read_note() -> Kind {
    Kind::ReadNote {
        own: NoteSlot {
            segment: 0,
            generation: 2,
            note: 3,
        },
    }
}

/// A write.
fn write_call() -> Call {
    Call::Write(Write {
        seg: 0,
        offset: 8,
        rank: 1,
        rseg: 1,
        roffset: 16,
        size: 4,
        queue: 0,
    })
}

/// A read.
fn read_call() -> Call {
    Call::Read(Read {
        seg: 0,
        offset: 8,
        rank: 1,
        rseg: 1,
        roffset: 16,
        size: 4,
        queue: 0,
    })
}

/// A notification.
fn notify_call() -> Call {
    Call::Notify(Notify {
        rseg: 1,
        rank: 1,
        note: 3,
        value: 7,
        queue: 0,
    })
}

/// A write with its notification.
fn write_notify_call() -> Call {
    Call::WriteNotify(WriteNotify {
        seg: 0,
        offset: 8,
        rank: 1,
        rseg: 1,
        roffset: 16,
        size: 4,
        note: 3,
        value: 7,
        queue: 0,
    })
}

/// A read with its notification.
fn read_notify_call() -> Call {
    Call::ReadNotify(ReadNotify {
        seg: 0,
        offset: 8,
        rank: 1,
        rseg: 1,
        roffset: 16,
        size: 4,
        note: 3,
        queue: 0,
    })
}

/// The items of a list: twice the same two ranges.
fn items(alloc: Global) -> Result<Sequence<Item>, NoMemory> {
    let item = Item {
        seg: 0,
        offset: 8,
        rseg: 1,
        roffset: 16,
        size: 4,
    };
    Sequence::copied_from(alloc, &[item, item])
}

/// A list of writes.
fn write_list_call(alloc: Global) -> Result<Call, NoMemory> {
    Ok(Call::WriteList(WriteList {
        rank: 1,
        queue: 0,
        items: items(alloc)?,
    }))
}

/// A list of reads.
fn read_list_call(alloc: Global) -> Result<Call, NoMemory> {
    Ok(Call::ReadList(ReadList {
        rank: 1,
        queue: 0,
        items: items(alloc)?,
    }))
}

/// A list of writes with their notification.
fn write_list_notify_call(alloc: Global) -> Result<Call, NoMemory> {
    Ok(Call::WriteListNotify(WriteListNotify {
        rank: 1,
        queue: 0,
        nseg: 1,
        note: 3,
        value: 7,
        items: items(alloc)?,
    }))
}

/// A list of reads with their notification.
fn read_list_notify_call(alloc: Global) -> Result<Call, NoMemory> {
    Ok(Call::ReadListNotify(ReadListNotify {
        rank: 1,
        queue: 0,
        nseg: 0,
        note: 3,
        items: items(alloc)?,
    }))
}

/// Whether the entries have these kinds, in order.
fn are_of(entries: Entries, kinds: &[Kind]) -> bool {
    let mut entries = entries;
    for kind in kinds {
        match entries.take_first() {
            Some(draft) if draft.kind() == kind => {}
            _ => return false,
        }
    }
    entries.len() == 0
}

/// Whether a call asks for entries of these kinds.
fn brings(alloc: Global, table: &SegmentTable, shape: &Shape, call: Call, kinds: &[Kind]) -> bool {
    if call.row().posting.is_none() {
        return false;
    }
    let caller = CallerId {
        rank: RankId::of(0),
        thread: ThreadId::of(0),
    };
    match build(alloc, table, shape, caller, &call) {
        Ok(entries) => are_of(entries, kinds),
        Err(_) => false,
    }
}

/// Whether each call without a list asks for its entries.
fn calls_bring(alloc: Global, table: &SegmentTable, shape: &Shape) -> bool {
    brings(alloc, table, shape, write_call(), &[write()])
        && brings(alloc, table, shape, read_call(), &[read()])
        && brings(alloc, table, shape, notify_call(), &[notify()])
        && brings(
            alloc,
            table,
            shape,
            write_notify_call(),
            &[write(), notify()],
        )
        && brings(
            alloc,
            table,
            shape,
            read_notify_call(),
            &[read(), read_note()],
        )
}

/// The same of a call with a list, where there was memory for the call.
fn list_brings(
    alloc: Global,
    table: &SegmentTable,
    shape: &Shape,
    call: Result<Call, NoMemory>,
    kinds: &[Kind],
) -> bool {
    match call {
        Ok(call) => brings(alloc, table, shape, call, kinds),
        Err(_) => false,
    }
}

/// Whether each call with a list of two items asks for its entries.
fn lists_bring(alloc: Global, table: &SegmentTable, shape: &Shape) -> bool {
    list_brings(
        alloc,
        table,
        shape,
        write_list_call(alloc),
        &[write(), write()],
    ) && list_brings(
        alloc,
        table,
        shape,
        read_list_call(alloc),
        &[read(), read()],
    )
}

/// Whether each list with a notification does.
fn notifying_lists_bring(alloc: Global, table: &SegmentTable, shape: &Shape) -> bool {
    let written = &[write(), write(), notify()];
    let read = &[read(), read(), read_note()];
    list_brings(alloc, table, shape, write_list_notify_call(alloc), written)
        && list_brings(alloc, table, shape, read_list_notify_call(alloc), read)
}

/// Whether all calls ask for their entries, in a world of two ranks.
fn all_bring(alloc: Global, shape: &Shape) -> Result<bool, NoMemory> {
    let table = table(alloc)?;
    Ok(
        calls_bring(alloc, &table, shape)
            && lists_bring(alloc, &table, shape)
            && notifying_lists_bring(alloc, &table, shape),
    )
}

#[test]
fn each_call_brings_its_entries(rt: HostRuntime) -> Result<(), Fail> {
    let alloc = rt.alloc();
    let shape = Shape::new(alloc, 2, 1, 8, 4, 1, 9)?;
    assert!(rt; all_bring(alloc, &shape)?);
    Ok(())
}
