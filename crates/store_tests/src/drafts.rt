//! Drafts of entries, and lists of them.

use gaspi_types::{ByteRange, Kind, NoMemory, NoteSlot};
use post_queue::{Draft, Entries, carried_size};
use std::alloc::Global;
use std::test::Fail;

/// A write of three bytes.
fn write() -> Kind {
    let range = ByteRange {
        segment: 1,
        generation: 0,
        offset: 8,
        size: 3,
    };
    Kind::Write {
        own: range,
        target: range,
    }
}

/// A notification.
fn notify() -> Kind {
    Kind::Notify {
        target: NoteSlot {
            segment: 1,
            generation: 0,
            note: 2,
        },
        value: 7,
    }
}

/// Whether an entry of that kind carries that many bytes.
fn carries(kind: &Kind, size: u32) -> bool {
    carried_size(kind) == size
}

/// Whether a draft has its kind, before and after it is taken apart, and capacity for that many bytes.
fn has_room(alloc: Global, kind: Kind, size: usize) -> Result<bool, NoMemory> {
    let draft = Draft::new(alloc, kind)?;
    let has_kind = *draft.kind() == kind;
    let (same, room) = draft.into_parts();
    Ok(has_kind && same == kind && room.len() == size)
}

/// Removes the first entry. Whether it was of that kind.
fn takes(entries: &mut Entries, kind: &Kind) -> bool {
    match entries.take_first() {
        Some(draft) => draft.kind() == kind,
        None => false,
    }
}

/// Whether a list of two kinds gives two entries of these kinds, in order, and no more.
fn are_two(alloc: Global, first: Kind, second: Kind) -> Result<bool, NoMemory> {
    let mut entries = Entries::new(alloc, &[first, second])?;
    let are_two = entries.len() == 2;
    let taken = takes(&mut entries, &first) && takes(&mut entries, &second);
    Ok(are_two && taken && entries.len() == 0)
}

#[test]
fn drafts_have_room_for_their_bytes(rt: HostRuntime) -> Result<(), Fail> {
    let alloc = rt.alloc();
    assert!(rt; carries(&write(), 3));
    assert!(rt; has_room(alloc, write(), 3)?);
    assert!(rt; has_room(alloc, notify(), 0)?);
    assert!(rt; are_two(alloc, write(), notify())?);
    Ok(())
}
