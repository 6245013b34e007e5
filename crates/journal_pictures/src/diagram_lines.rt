//! The lines of a sequence diagram: participants, notes and arrows. `write_X` adds a whole line, or none, and `append_X` some
//! of a line. A note here is one of Mermaid: a text over a participant. `told` is a text that another function has written.
//!
//! What the text has after `NoMemory` is not said: no caller goes on with it. Some functions take memory for a text that goes
//! into the line.

ghost use Rattle.std.specs.Prelude.{◌≡◌, ◌++◌, IfOk, OnOk};
ghost use Rattle.call_texts.specs.CallText.{call_text};
ghost use Rattle.gaspi_texts.specs.EventText.{event_text};
ghost use Rattle.gaspi_texts.specs.ReplyText.{reply_text};
ghost use Rattle.journal_pictures.specs.Diagram.{arrow, arrow_head, arrow_line, bytes_text, called_text, delivery_text, entry_text, entry_word, event_line, labelled, note_head, note_line, notification_text, participant_line, shortened, transfer_line, way_of};

use crate::deliveries::Delivery;
use gaspi_texts::{write_call, write_event, write_number, write_reply};
use gaspi_types::{
    Bytes, Call, CallerId, Direction, Event, NoMemory, Outcome, QueueId, RankId, Reply,
};
use std::alloc::Global;

/// How many bytes the text of a call, a reply or a join may have in a line. A longer one is cut to its first 57, and three
/// dots.
const MOST_BYTES: usize = 60;

/// Adds the text `told`; of one over 60 bytes the first 57 and three dots.
fn append_shortened(text: &mut Bytes, told: &[u8]) -> Result<(), NoMemory>
    ensures { OnOk result (text.new ≡ text.old ++ shortened told.now) }
{
    if told.len() > MOST_BYTES {
        let first = &told[..57];
        text.append(first)?;
        text.append(b"...")
    } else {
        text.append(told)
    }
}

/// Adds a label, and a number behind it.
fn append_labelled(text: &mut Bytes, label: &[u8], number: u64) -> Result<(), NoMemory>
    ensures { OnOk result (text.new ≡ text.old ++ labelled label.now number) }
{
    text.append(label)?;
    write_number(text, number)
}

/// Adds the line that names a rank.
pub(crate) fn write_participant(text: &mut Bytes, rank: u32) -> Result<(), NoMemory>
    ensures { OnOk result (text.new ≡ text.old ++ participant_line rank) }
{
    append_labelled(text, b"    participant R", u64::from(rank))?;
    append_labelled(text, b" as rank ", u64::from(rank))?;
    text.append(b"\n")
}

/// Adds the first bytes of a note: the rank over which it is, and the place of its event.
fn append_note_head(text: &mut Bytes, place: u64, rank: u64) -> Result<(), NoMemory>
    ensures { OnOk result (text.new ≡ text.old ++ note_head place rank) }
{
    append_labelled(text, b"    Note over R", rank)?;
    append_labelled(text, b": ", place)
}

/// Adds a note over a rank, for the event at a place.
fn write_note(text: &mut Bytes, place: u64, rank: RankId, note: &[u8]) -> Result<(), NoMemory>
    ensures { OnOk result (text.new ≡ text.old ++ note_line place rank note.now) }
{
    append_note_head(text, place, u64::from(rank.number()))?;
    text.append(b" ")?;
    text.append(note)?;
    text.append(b"\n")
}

/// Adds the text of a call, shortened where it is long.
fn append_call(text: &mut Bytes, call: &Call) -> Result<(), NoMemory>
    ensures { OnOk result (text.new ≡ text.old ++ shortened (call_text call.now)) }
{
    let mut told = Bytes::new(text.allocator());
    write_call(&mut told, call)?;
    append_shortened(text, told.as_slice())
}

/// Adds the text of a reply, shortened where it is long.
fn append_reply(text: &mut Bytes, reply: &Reply) -> Result<(), NoMemory>
    ensures { OnOk result (text.new ≡ text.old ++ shortened (reply_text reply.now)) }
{
    let mut told = Bytes::new(text.allocator());
    write_reply(&mut told, reply)?;
    append_shortened(text, told.as_slice())
}

/// Adds a caller, its call, and the reply, each of the last two shortened where it is long.
fn append_called(
    text: &mut Bytes,
    caller: CallerId,
    call: &Call,
    reply: &Reply,
) -> Result<(), NoMemory>
    ensures { OnOk result (text.new ≡ text.old ++ called_text caller call.now reply.now) }
{
    text.append(b"called ")?;
    write_number(text, u64::from(caller.rank.number()))?;
    text.append(b".")?;
    write_number(text, u64::from(caller.thread.number()))?;
    text.append(b" ")?;
    append_call(text, call)?;
    text.append(b" -> ")?;
    append_reply(text, reply)
}

/// The text of the note of a call with its reply.
fn called_text(
    alloc: Global,
    caller: CallerId,
    call: &Call,
    reply: &Reply,
) -> Result<Bytes, NoMemory>
    ensures { IfOk result (λ text. text ≡ called_text caller call.now reply.now) }
{
    let mut text = Bytes::new(alloc);
    append_called(&mut text, caller, call, reply)?;
    Ok(text)
}

/// Adds the note of a call with its reply.
fn write_called(
    text: &mut Bytes,
    place: u64,
    caller: CallerId,
    call: &Call,
    reply: &Reply,
) -> Result<(), NoMemory>
    ensures { OnOk result (text.new ≡ text.old ++ note_line place caller.rank (called_text caller call.now reply.now)) }
{
    let rank = caller.rank;
    let note = called_text(text.allocator(), caller, call, reply)?;
    write_note(text, place, rank, note.as_slice())
}

/// The text of the note of a join, shortened where it is long.
fn joined_text(alloc: Global, event: &Event) -> Result<Bytes, NoMemory>
    ensures { IfOk result (λ text. text ≡ shortened (event_text event.now)) }
{
    let mut told = Bytes::new(alloc);
    write_event(&mut told, event)?;
    let mut text = Bytes::new(alloc);
    append_shortened(&mut text, told.as_slice())?;
    Ok(text)
}

/// Adds the note of a join.
fn write_joined(text: &mut Bytes, place: u64, rank: RankId, event: &Event) -> Result<(), NoMemory>
    ensures { OnOk result (text.new ≡ text.old ++ note_line place rank (shortened (event_text event.now))) }
{
    let note = joined_text(text.allocator(), event)?;
    write_note(text, place, rank, note.as_slice())
}

/// The name of an entry in a diagram, by what it brings.
fn entry_word(delivery: &Delivery) -> &'static [u8]
    ensures { result.now ≡ entry_word delivery.now }
{
    match delivery {
        Delivery::Bytes { direction, .. } => match direction {
            Direction::Outward => b"write",
            Direction::Inward => b"read",
        },
        Delivery::Notification { direction, .. } => match direction {
            Direction::Outward => b"notify",
            Direction::Inward => b"read_notify",
        },
    }
}

/// Adds how many bytes come to which segment and offset.
fn append_bytes(text: &mut Bytes, size: u64, segment: u64, offset: u64) -> Result<(), NoMemory>
    ensures { OnOk result (text.new ≡ text.old ++ bytes_text size segment offset) }
{
    append_labelled(text, b"size ", size)?;
    append_labelled(text, b", segment ", segment)?;
    append_labelled(text, b", offset ", offset)
}

/// Adds which value comes to which notification id and segment.
fn append_notification(
    text: &mut Bytes,
    segment: u64,
    note: u64,
    value: u32,
) -> Result<(), NoMemory>
    ensures { OnOk result (text.new ≡ text.old ++ notification_text segment note value) }
{
    append_labelled(text, b"id ", note)?;
    append_labelled(text, b", value ", u64::from(value))?;
    append_labelled(text, b", segment ", segment)
}

/// Adds what an entry brings.
fn append_delivery(text: &mut Bytes, delivery: &Delivery) -> Result<(), NoMemory>
    ensures { OnOk result (text.new ≡ text.old ++ delivery_text delivery.now) }
{
    match delivery {
        Delivery::Bytes {
            size,
            segment,
            offset,
            ..
        } => append_bytes(text, *size, *segment, *offset),
        Delivery::Notification {
            segment,
            note,
            value,
            ..
        } => append_notification(text, *segment, *note, *value),
    }
}

/// Whether a delivery is outward or inward.
fn way_of(delivery: &Delivery) -> Direction
    ensures { result ≡ way_of delivery.now }
{
    match delivery {
        Delivery::Bytes { direction, .. } | Delivery::Notification { direction, .. } => *direction,
    }
}

/// The arrow of a transfer: one with a cross where the transfer failed.
fn arrow(outcome: Outcome) -> &'static [u8]
    ensures { result.now ≡ arrow outcome }
{
    match outcome {
        Outcome::Applied => b"->>R",
        Outcome::Failed => b"--xR",
    }
}

/// Adds the first bytes of an arrow: from which rank to which it goes.
fn append_arrow(
    text: &mut Bytes,
    from: RankId,
    to: RankId,
    outcome: Outcome,
) -> Result<(), NoMemory>
    ensures { OnOk result (text.new ≡ text.old ++ arrow_head from to outcome) }
{
    append_labelled(text, b"    R", u64::from(from.number()))?;
    append_labelled(text, arrow(outcome), u64::from(to.number()))?;
    text.append(b": ")
}

/// Adds the name of an entry, and that its transfer failed, where it did.
fn append_entry(text: &mut Bytes, outcome: Outcome, delivery: &Delivery) -> Result<(), NoMemory>
    ensures { OnOk result (text.new ≡ text.old ++ entry_text outcome delivery.now) }
{
    text.append(entry_word(delivery))?;
    match outcome {
        Outcome::Applied => text.append(b": "),
        Outcome::Failed => text.append(b" failed: "),
    }
}

/// Adds the arrow of a transfer: the rank that it leaves and the one to which it comes, what it brings, and the queue of its
/// entry.
fn write_arrow(
    text: &mut Bytes,
    place: u64,
    origin: RankId,
    queue: QueueId,
    target: RankId,
    outcome: Outcome,
    delivery: &Delivery,
) -> Result<(), NoMemory>
    ensures { OnOk result (text.new ≡ text.old ++ arrow_line place origin queue target outcome delivery.now) }
{
    match way_of(delivery) {
        Direction::Outward => append_arrow(text, origin, target, outcome)?,
        Direction::Inward => append_arrow(text, target, origin, outcome)?,
    }
    write_number(text, place)?;
    text.append(b" ")?;
    append_entry(text, outcome, delivery)?;
    append_delivery(text, delivery)?;
    append_labelled(text, b", queue ", u64::from(queue.number()))?;
    text.append(b"\n")
}

/// Adds the arrow of a transfer; nothing where `delivery` is None, since no such entry was posted.
fn write_transfer(
    text: &mut Bytes,
    place: u64,
    origin: RankId,
    queue: QueueId,
    target: RankId,
    outcome: Outcome,
    delivery: Option<Delivery>,
) -> Result<(), NoMemory>
    ensures { OnOk result (text.new ≡ text.old ++ transfer_line place origin queue target outcome delivery) }
{
    match delivery {
        Some(delivery) => write_arrow(text, place, origin, queue, target, outcome, &delivery),
        None => Ok(()),
    }
}

/// Adds the line of the event at a place; nothing for a take that is applied. `delivery` is what the entry of a transfer
/// brings, as `delivery_for` answers.
pub(crate) fn write_line(
    text: &mut Bytes,
    place: u64,
    event: &Event,
    delivery: Option<Delivery>,
) -> Result<(), NoMemory>
    ensures { OnOk result (text.new ≡ text.old ++ event_line place event.now delivery) }
{
    match event {
        Event::Called(caller, call, reply) => write_called(text, place, *caller, call, reply),
        Event::Joined(caller, _, _) => write_joined(text, place, caller.rank, event),
        Event::Take(_, _, _, _, Outcome::Applied) => Ok(()),
        Event::Take(origin, queue, target, _, Outcome::Failed) => write_transfer(
            text,
            place,
            *origin,
            *queue,
            *target,
            Outcome::Failed,
            delivery,
        ),
        Event::Put(origin, queue, target, _, outcome) => write_transfer(
            text, place, *origin, *queue, *target, *outcome, delivery,
        ),
    }
}
