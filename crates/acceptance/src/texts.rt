//! Calls, replies and events read as whole texts. The commands read the words of a line instead, by the same code.

use gaspi_texts::{read_call, read_event, read_reply};
use gaspi_types::{Call, Event, NoMemory, Reply, Reset};
use std::alloc::Global;
use std::test::Fail;

/// Whether a text is a reset of slot 2 of segment 1.
fn is_reset(alloc: Global, text: &[u8]) -> Result<bool, NoMemory> {
    match read_call(alloc, text)? {
        Some(Call::Reset(Reset { seg, note })) => Ok(seg == 1 && note == 2),
        _ => Ok(false),
    }
}

// A call may have blanks and leading zeros; an `end` is no call of a text.
#[test]
fn calls_are_read(rt: HostRuntime) -> Result<(), Fail> {
    assert!(rt; is_reset(rt.alloc(), b"\treset 01 2 ")?);
    assert!(rt; !is_reset(rt.alloc(), b"end")?);
    Ok(())
}

/// Whether a text is a list of -7 and 0.
fn is_list(alloc: Global, text: &[u8]) -> Result<bool, NoMemory> {
    match read_reply(alloc, text)? {
        Some(Reply::List(list)) => Ok(list.items() == [-7, 0].as_slice()),
        _ => Ok(false),
    }
}

// A reply may have blanks, leading zeros and a sign at zero; its numbers must be in the range of their type.
#[test]
fn replies_are_read_in_any_spelling(rt: HostRuntime) -> Result<(), Fail> {
    assert!(rt; is_list(rt.alloc(), b" list\tLONG -07  -0 ")?);
    assert!(rt; !is_list(rt.alloc(), b"list UINT -7 0")?);
    Ok(())
}

/// The reply with which a text says that a caller ended; none where it says no such event.
fn end_reply(alloc: Global, text: &[u8]) -> Result<Option<Reply>, NoMemory> {
    match read_event(alloc, text)? {
        Some(Event::Called(_, Call::End, reply)) => Ok(Some(reply)),
        _ => Ok(None),
    }
}

/// Whether a text is an end with value 5.
fn is_end(alloc: Global, text: &[u8]) -> Result<bool, NoMemory> {
    Ok(matches!(end_reply(alloc, text)?, Some(Reply::Value(5))))
}

// An event has one spelling.
#[test]
fn events_are_read_in_one_spelling(rt: HostRuntime) -> Result<(), Fail> {
    assert!(rt; is_end(rt.alloc(), b"called 1.2 end -> value 5")?);
    assert!(rt; !is_end(rt.alloc(), b"called 1.2 end -> value 05")?);
    Ok(())
}
