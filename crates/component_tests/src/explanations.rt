//! Which writes a notification covers, of three journals as texts.

use call_journal::{CoveredWrite, Explanation, why};
use gaspi_model::Why;
use gaspi_texts::read;
use gaspi_types::{Sequence, Shape};
use std::alloc::Global;
use std::test::Fail;

/// A world of two ranks with a segment of 16 bytes each; the first has a caller.
fn shape(alloc: Global) -> Result<Shape, Fail> {
    let mut shape = Shape::new(alloc, 2, 1, 4, 8, 1, 100)?;
    shape.add_segment(0, 0, 16)?;
    shape.add_segment(1, 0, 16)?;
    shape.add_caller(0, 0)?;
    Ok(shape)
}

/// A write and its notification, each put.
const PUT: &[u8] =
    b"journal 1\n0 called 0.0 write_notify 0 0 1 0 4 2 3 7 0 -> done\n1 take 0 0 1 0 ok\n2 put 0 0 1 0 ok\n3 take 0 0 1 1 ok\n4 put 0 0 1 1 ok\nend 5\n";

/// A write that a purge removes, and a notification after it that is put.
const PURGED: &[u8] =
    b"journal 1\n0 called 0.0 write 0 0 1 0 4 2 0 -> done\n1 called 0.0 purge 0 -> done\n2 called 0.0 notify 0 1 3 7 0 -> done\n3 take 0 0 1 1 ok\n4 put 0 0 1 1 ok\nend 5\n";

/// A write and its notification, each put, and after them a put of no entry.
const ILLEGAL: &[u8] =
    b"journal 1\n0 called 0.0 write_notify 0 0 1 0 4 2 3 7 0 -> done\n1 take 0 0 1 0 ok\n2 put 0 0 1 0 ok\n3 take 0 0 1 1 ok\n4 put 0 0 1 1 ok\n5 put 0 0 1 2 ok\nend 6\n";

/// Whether `wanted` is the explanation of a place of a journal.
fn is_answer(alloc: Global, text: &[u8], place: u64, wanted: &Explanation) -> Result<bool, Fail> {
    let shape = shape(alloc)?;
    match read(alloc, text) {
        Ok(journal) => match why(alloc, &shape, &journal, place) {
            Ok(answer) => Ok(answer == *wanted),
            Err(_) => Ok(false),
        },
        Err(_) => Ok(false),
    }
}

/// Whether those writes are covered by the notification that is put at a place.
fn are_writes(
    alloc: Global,
    text: &[u8],
    place: u64,
    writes: &[CoveredWrite],
) -> Result<bool, Fail> {
    let writes = Sequence::copied_from(alloc, writes)?;
    is_answer(alloc, text, place, &Explanation::Writes(writes))
}

#[test]
fn a_notification_stands_for_the_write_before_it(rt: HostRuntime) -> Result<(), Fail> {
    let write = CoveredWrite {
        post: 0,
        number: 0,
        put: 2,
    };
    assert!(rt; are_writes(rt.alloc(), PUT, 4, &[write])?);
    assert!(rt; is_answer(rt.alloc(), PUT, 2, &Explanation::NoNotification)?);
    assert!(rt; is_answer(rt.alloc(), PUT, u64::MAX, &Explanation::NoNotification)?);
    Ok(())
}

#[test]
fn a_notification_does_not_stand_for_purged_writes(rt: HostRuntime) -> Result<(), Fail> {
    assert!(rt; are_writes(rt.alloc(), PURGED, 4, &[])?);
    Ok(())
}

#[test]
fn an_illegal_journal_is_told_as_such(rt: HostRuntime) -> Result<(), Fail> {
    let wanted = Explanation::Illegal {
        place: 5,
        why: Why::Put,
    };
    assert!(rt; is_answer(rt.alloc(), ILLEGAL, 4, &wanted)?);
    Ok(())
}
