//! The notification slots of one segment.

use gaspi_types::{NoMemory, Refusal, Shape};
use segment_store::Slots;
use std::alloc::Global;
use std::test::Fail;

/// The slots of a segment, in a world of four slots.
fn slots_of(alloc: Global) -> Result<Slots, Fail> {
    let shape = Shape::new(alloc, 1, 1, 1, 4, 1, 1)?;
    Ok(Slots::new(alloc, shape.limits().notes)?)
}

/// Sets a slot, where it is there.
fn set(slots: &mut Slots, note: u64, value: u32) -> bool {
    let there = note < slots.len() as u64;
    if there {
        slots.set(note, value);
    }
    there
}

/// The first slot of a range with a notification.
fn first(slots: &Slots, begin: u64, num: u64) -> Result<Option<u32>, Refusal> {
    slots.waitsome(begin, num)
}

/// Whether a slot has that value, and a reset answers it.
fn takes(slots: &mut Slots, note: u64, value: u32) -> bool {
    slots.value(note) == Ok(value) && slots.reset(note) == Ok(value)
}

/// Whether two slots are set, the one of them twice.
fn are_set(slots: &mut Slots) -> bool {
    set(slots, 3, 6) && set(slots, 2, 5) && set(slots, 2, 8)
}

/// Whether slot 2 is found and reset, and then slot 3 is the first.
fn are_found(slots: &mut Slots) -> bool {
    matches!(first(slots, 1, 3), Ok(Some(2)))
        && takes(slots, 2, 8)
        && matches!(first(slots, 1, 3), Ok(Some(3)))
}

#[test]
fn slots_keep_their_values(rt: HostRuntime) -> Result<(), Fail> {
    let mut slots = slots_of(rt.alloc())?;
    assert!(rt; slots.len() == 4);
    assert!(rt; matches!(first(&slots, 0, 4), Ok(None)));
    assert!(rt; are_set(&mut slots));
    assert!(rt; are_found(&mut slots));
    Ok(())
}
