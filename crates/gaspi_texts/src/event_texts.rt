//! Texts of events, both ways. An event has one text: `read_event` accepts no other.

ghost use Rattle.std.specs.Prelude.{◌≡◌, ◌≢◌, ◌++◌, ◌∷◌, ◌↔◌, IsTrue, take, length, OnOk, OnErr, IfOk, MatchOption};
ghost use Rattle.std.specs.Fmt.{decimal};
ghost use Rattle.gaspi_types.specs.declared.events.Event.{Event};
ghost use Rattle.gaspi_texts.specs.EventText.{caller_word, event_text, IsInEventRange};

use crate::collective_texts::append_args;
use crate::event_reading::{is_written_so, outcome_word, read_event_words};
use crate::reply_texts::write_reply;
use crate::text_laws::{events_read_back, read_events_are_in_range, read_events_are_written};
use call_texts::{append_line, append_numbers, append_word, set_pieces, write_call, write_number};
use gaspi_types::{Bytes, CallerId, Event, GroupId, NoMemory, Sequence};
use std::alloc::Global;

/// Adds a space and a caller: its rank, a dot, and its thread. After `NoMemory` the text still begins with what it had.
fn append_caller(text: &mut Bytes, caller: CallerId) -> Result<(), NoMemory>
    ensures ok { OnOk result (text.new ≡ text.old ++ 32 ∷ caller_word caller) }
    ensures err { OnErr result (take (length text.old) text.new ≡ text.old) }
{
    text.push(b' ')?;
    write_number(text, u64::from(caller.rank.number()))?;
    text.push(b'.')?;
    write_number(text, u64::from(caller.thread.number()))
}

/// Adds a caller and a group, each behind a space. After `NoMemory` the text still begins with what it had.
fn append_caller_and_group(
    text: &mut Bytes,
    caller: CallerId,
    group: GroupId,
) -> Result<(), NoMemory>
    ensures ok { OnOk result (text.new ≡ text.old ++ 32 ∷ (caller_word caller ++ 32 ∷ decimal group)) }
    ensures err { OnErr result (take (length text.old) text.new ≡ text.old) }
{
    append_caller(text, caller)?;
    append_numbers(text, &[u64::from(group.number())])
}

/// Adds the text of an event. After `NoMemory` the text still begins with what it had.
#[tactic(auto, unfolding(crate::specs::EventText::words_of_event))]
fn append_event(text: &mut Bytes, event: &Event) -> Result<(), NoMemory>
    ensures ok { OnOk result (text.new ≡ text.old ++ event_text event.now) }
    ensures err { OnErr result (take (length text.old) text.new ≡ text.old) }
{
    match event {
        Event::Called(caller, call, reply) => {
            text.append(b"called")?;
            append_caller(text, *caller)?;
            text.push(b' ')?;
            write_call(text, call)?;
            text.append(b" -> ")?;
            write_reply(text, reply)
        }
        Event::Joined(caller, group, args) => {
            text.append(b"joined")?;
            append_caller_and_group(text, *caller, *group)?;
            append_args(text, args)
        }
        Event::Take(origin, queue, target, number, outcome) => {
            append_line(
                text,
                b"take",
                &[
                    u64::from(origin.number()),
                    u64::from(queue.number()),
                    u64::from(target.number()),
                    u64::from(*number),
                ],
            )?;
            append_word(text, outcome_word(*outcome))
        }
        Event::Put(origin, queue, target, number, outcome) => {
            append_line(
                text,
                b"put",
                &[
                    u64::from(origin.number()),
                    u64::from(queue.number()),
                    u64::from(target.number()),
                    u64::from(*number),
                ],
            )?;
            append_word(text, outcome_word(*outcome))
        }
    }
}

/// Adds the text of an event. After `NoMemory` nothing has changed.
pub fn write_event(text: &mut Bytes, event: &Event) -> Result<(), NoMemory>
    ensures ok { OnOk result (text.new ≡ text.old ++ event_text event.now) }
    ensures err { OnErr result (text.new ≡ text.old) }
{
    let start = text.len();
    let written = append_event(text, event);
    if written.is_err() {
        text.truncate(start);
    }
    written
}

/// Memory for reading events, used again for each: for the pieces of a text, and for the text of the event that they spell.
/// Contracts say nothing of what it holds.
#[derive(Debug, Drop)]
pub struct ReadingBuffers<'a> {
    pieces: Vec<&'a [u8]>,
    text: Bytes,
}

impl<'a> ReadingBuffers<'a> {
    /// Buffers without memory, which they take as they are used.
    pub fn new(alloc: Global) -> ReadingBuffers<'a> {
        ReadingBuffers {
            pieces: Vec::new(alloc),
            text: Sequence::new(alloc),
        }
    }
}

/// Whether a text is that of an event, whose text replaces what `written` held.
fn is_text_of(written: &mut Bytes, event: &Event, text: &[u8]) -> Result<bool, NoMemory>
    ensures { IfOk result (λ same. IsTrue same ↔ (text.now ≡ event_text event.now)) }
{
    written.truncate(0);
    write_event(written, event)?;
    Ok(written.as_slice() == text)
}

/// The event that a text spells, or None exactly where it is the text of no event. It writes over `scratch`.
pub fn read_event_with<'a>(
    alloc: Global,
    scratch: &mut ReadingBuffers<'a>,
    text: &'a [u8],
) -> Result<Option<Event>, NoMemory>
    ensures { IfOk result (λ found. MatchOption found
        ((event : Event) → IsInEventRange event → text.now ≢ event_text event)
        (λ event. IsInEventRange event × (text.now ≡ event_text event))) }
{
    // The laws that tie what is spelled to what would be written.
    events_read_back();
    read_events_are_in_range();
    read_events_are_written();
    set_pieces(&mut scratch.pieces, text)?;
    let pieces = scratch.pieces.as_slice();
    let Some(event) = read_event_words(alloc, pieces)? else {
        return Ok(None);
    };
    if is_written_so(&event, pieces) || is_text_of(&mut scratch.text, &event, text)? {
        Ok(Some(event))
    } else {
        Ok(None)
    }
}

/// The same, with buffers of its own.
pub fn read_event(alloc: Global, text: &[u8]) -> Result<Option<Event>, NoMemory>
    ensures { IfOk result (λ found. MatchOption found
        ((event : Event) → IsInEventRange event → text.now ≢ event_text event)
        (λ event. IsInEventRange event × (text.now ≡ event_text event))) }
{
    let mut scratch = ReadingBuffers::new(alloc);
    read_event_with(alloc, &mut scratch, text)
}
