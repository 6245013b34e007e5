//! Events copied, a journal as a text both ways, and rank journals merged.

use crate::one_rank::{caller, notified, shape, taken};
use call_journal::{Verdict, check};
use gaspi_texts::{Journal, MergeRoom, RankJournal, ReservedJournal, have_own_values, read, write};
use gaspi_types::{Bytes, Event, NoMemory, PlacedEvent, RankId, Shape};
use std::alloc::Global;
use std::test::Fail;

/// Whether an event has a copy, which is equal to it.
fn is_copied(alloc: Global, event: &Event) -> bool {
    match event.copy(alloc) {
        Ok(copy) => copy == *event,
        Err(_) => false,
    }
}

#[test]
fn events_are_copied(rt: HostRuntime) -> Result<(), Fail> {
    assert!(rt; is_copied(rt.alloc(), &notified(caller())));
    assert!(rt; is_copied(rt.alloc(), &taken(RankId::of(0))));
    Ok(())
}

/// The journal of a notification and its take, in memory that is taken first.
fn two_events(alloc: Global) -> Result<Journal, NoMemory> {
    let mut reserved = ReservedJournal::with_capacity(alloc, 2)?;
    reserved.push(notified(caller()));
    reserved.push(taken(RankId::of(0)));
    Ok(reserved.into_sequence())
}

/// The text of a journal; of one in which a join has not the values of its collective, nothing. Each join of a run has them.
fn text_of(alloc: Global, journal: &Journal) -> Result<Bytes, NoMemory> {
    let mut text = Bytes::new(alloc);
    if have_own_values(journal) {
        write(&mut text, journal)?;
    }
    Ok(text)
}

/// Whether a text is that of a journal.
fn is_written_as(alloc: Global, journal: &Journal, text: &[u8]) -> bool {
    match text_of(alloc, journal) {
        Ok(written) => written.as_slice() == text,
        Err(_) => false,
    }
}

/// Whether a text reads as that journal.
fn is_read_from(alloc: Global, journal: &Journal, text: &[u8]) -> bool {
    match read(alloc, text) {
        Ok(again) => again == *journal,
        Err(_) => false,
    }
}

/// Whether a journal is legal in the world of a shape.
fn is_legal(alloc: Global, shape: &Shape, journal: &Journal) -> bool {
    match check(alloc, shape, journal) {
        Ok(verdict) => verdict == Verdict::Legal,
        Err(_) => false,
    }
}

/// The text of the journal of two events.
const TEXT: &[u8] = b"journal 1\n0 called 0.0 notify 0 0 3 7 0 -> done\n1 take 0 0 0 0 ok\nend 2\n";

/// Whether the journal of two events has its text both ways, and is legal.
fn is_told(alloc: Global) -> Result<bool, Fail> {
    let shape = shape(alloc)?;
    let journal = two_events(alloc)?;
    Ok(
        is_written_as(alloc, &journal, TEXT)
            && is_read_from(alloc, &journal, TEXT)
            && is_legal(alloc, &shape, &journal),
    )
}

// Texts that are no journals, and journals that are not legal, are in the tables of `tests/`.
#[test]
fn a_journal_has_its_text_and_is_legal(rt: HostRuntime) -> Result<(), Fail> {
    assert!(rt; is_told(rt.alloc())?);
    Ok(())
}

/// The journal of three events, merged of two rank journals.
fn three_merged(alloc: Global) -> Result<Journal, NoMemory> {
    let mut first = RankJournal::with_capacity(alloc, 2)?;
    first.push(PlacedEvent {
        place: 0,
        event: notified(caller()),
    });
    first.push(PlacedEvent {
        place: 2,
        event: taken(RankId::of(1)),
    });
    let mut second = RankJournal::with_capacity(alloc, 1)?;
    second.push(PlacedEvent {
        place: 1,
        event: taken(RankId::of(0)),
    });
    let mut room = MergeRoom::for_events(alloc, 2, 3)?;
    room.add(first);
    room.add(second);
    Ok(room.merge())
}

/// The same journal, with its events in order.
fn three_events(alloc: Global) -> Result<Journal, NoMemory> {
    let mut reserved = ReservedJournal::with_capacity(alloc, 3)?;
    reserved.push(notified(caller()));
    reserved.push(taken(RankId::of(0)));
    reserved.push(taken(RankId::of(1)));
    Ok(reserved.into_sequence())
}

/// Whether rank journals are merged by place, and not one after another.
fn is_merged(alloc: Global) -> Result<bool, NoMemory> {
    Ok(three_merged(alloc)? == three_events(alloc)?)
}

#[test]
fn rank_journals_are_merged_by_place(rt: HostRuntime) -> Result<(), Fail> {
    assert!(rt; is_merged(rt.alloc())?);
    Ok(())
}
