//! The lines of a journal's text, behind the first one: whether a line is the one that is expected. Each function writes over
//! the buffers that it gets, also where it answers `NoMemory`.

ghost use Rattle.std.specs.Prelude.{◌≡◌, ◌≢◌, ◌++◌, ◌↔◌, IsTrue, IfOk, OnOk, MatchOption};
ghost use Rattle.std.specs.Fmt.{decimal};
ghost use Rattle.gaspi_types.specs.declared.events.Event.{Event};
ghost use Rattle.gaspi_texts.specs.EventText.{IsInEventRange};
ghost use Rattle.gaspi_texts.specs.JournalText.{event_line, end_line};

use crate::{ReadingBuffers, read_event_with, write_number};
use gaspi_types::{Bytes, Event, NoMemory};
use std::alloc::Global;

/// Makes `text` a number in decimal and what follows it.
fn set_number(text: &mut Bytes, number: u64, behind: &[u8]) -> Result<(), NoMemory>
    ensures { OnOk result (text.new ≡ decimal number ++ behind.now) }
{
    text.truncate(0);
    write_number(text, number)?;
    text.append(behind)
}

/// Whether a line is the end line of a journal of `count` events.
pub(crate) fn is_end_line(scratch: &mut Bytes, line: &[u8], count: u64) -> Result<bool, NoMemory>
    ensures { IfOk result (λ ends. IsTrue ends ↔ (line.now ≡ end_line count)) }
{
    let Some(number) = line.strip_prefix(b"end ") else {
        return Ok(false);
    };
    set_number(scratch, count, b"\n")?;
    Ok(number == scratch.as_slice())
}

/// The event of a line, or None exactly where it is the line of no event at that place.
pub(crate) fn read_event_line<'a>(
    alloc: Global,
    scratch: &mut ReadingBuffers<'a>,
    number: &mut Bytes,
    line: &'a [u8],
    place: u64,
) -> Result<Option<Event>, NoMemory>
    ensures { IfOk result (λ found. MatchOption found
        ((event : Event) → IsInEventRange event → line.now ≢ event_line place event)
        (λ event. IsInEventRange event × (line.now ≡ event_line place event))) }
{
    set_number(number, place, b" ")?;
    let Some(behind) = line.strip_prefix(number.as_slice()) else {
        return Ok(None);
    };
    let Some(text) = behind.strip_suffix(b"\n") else {
        return Ok(None);
    };
    read_event_with(alloc, scratch, text)
}
