//! The lines of a trace, each an object of JSON behind a comma and a line feed: names of tracks, slices, marks of spans, and
//! ends of arrows. What the text has after `NoMemory` is not said: no caller goes on with it.
//!
//! A slice is of a call, a join or the put of a notification, and is one place long. A span is of an entry, from its post to
//! its end; its marks are its begin (`b`), its take (`n`) and its end (`e`). An arrow starts at the put that has set a slot,
//! and finishes at the call that gets the notification; its number is the place of that call.
//!
//! `write_X` adds whole lines, `append_X` some of a line, and `end_X` ends a line of which the text has the front, up to its
//! `args`. In the words that they get, JSON escapes nothing (`IsPlain`).
#![tactic(auto, unfolding(json::specs::Print::escape_byte))]

ghost use Rattle.std.specs.Prelude.{◌≡◌, ◌++◌, ◌∷◌, ◌<◌, ◌^◌, ℕ, List, codes, length, map, slice_get, OnOk, Some};
ghost use Rattle.serde_json.specs.Written.{compact_text};
ghost use Rattle.serde_json.specs.Data.{Members, member, no_members, string};
ghost use Rattle.journal_pictures.specs.Diagram.{entry_word};
ghost use Rattle.journal_pictures.specs.JsonLines.{IsPlain, line, line_front, lines};
ghost use Rattle.journal_pictures.specs.OpenEntries.{put_entry};
ghost use Rattle.journal_pictures.specs.Trace.{arrow_finish, arrow_start, arrow_to, call_marks, call_slice, call_word, caller_name, coll_word, done_marks, entry_members, event_objects, got_slot, join_slice, named, purge_end, put_marks, put_slice, put_step, queue_name, queue_track, rank_name, slice, span_begin, span_end, span_mark, span_taken, track_name};

use crate::deliveries::Delivery;
use crate::json_lines::{Piece, append_pieces};
use crate::open_entries::{EntryTable, OpenEntry, RankEntries, in_queue, new_entries};
use crate::set_slots::{SetSlot, slot_at};
use call_texts::{call_is_in_range, written_words_are_plain};
use gaspi_texts::{reply_is_in_range, write_call, write_reply};
use gaspi_types::{
    Bytes, Call, CallerId, Coll, Direction, Event, GroupId, NoMemory, Outcome, QueueId, RankId,
    Reply,
};

/// The track of queue 0. The tracks below it are those of threads.
const FIRST_QUEUE: u64 = 16;

/// Adds the object that names a rank, as the first one has no comma before it.
pub(crate) fn append_rank(text: &mut Bytes, rank: u32) -> Result<(), NoMemory>
    ensures { OnOk result (text.new ≡ text.old ++ compact_text (rank_name rank)) }
{
    let rank = u64::from(rank);
    append_pieces(
        text,
        &[
            Piece::Fixed(b"{\"args\":{\"name\":\"rank "),
            Piece::Number(rank),
            Piece::Fixed(b"\"},\"name\":\"process_name\",\"ph\":\"M\",\"pid\":"),
            Piece::Number(rank),
            Piece::Fixed(b"}"),
        ],
    )
}

/// Adds the line that names a rank.
pub(crate) fn write_rank(text: &mut Bytes, rank: u32) -> Result<(), NoMemory>
    ensures { OnOk result (text.new ≡ text.old ++ line (rank_name rank)) }
{
    text.append(b",\n")?;
    append_rank(text, rank)
}

/// Adds the line that names a track: a label, in which JSON escapes nothing, and a number behind it.
fn write_track(
    text: &mut Bytes,
    rank: u32,
    track: u64,
    label: &[u8],
    number: u64,
) -> Result<(), NoMemory>
    requires { IsPlain label.now }
    ensures { OnOk result (text.new ≡ text.old ++ line (track_name rank track (named label.now number))) }
{
    append_pieces(
        text,
        &[
            Piece::Fixed(b",\n{\"args\":{\"name\":\""),
            Piece::Fixed(label),
            Piece::Number(number),
            Piece::Fixed(b"\"},\"name\":\"thread_name\",\"ph\":\"M\",\"pid\":"),
            Piece::Number(u64::from(rank)),
            Piece::Fixed(b",\"tid\":"),
            Piece::Number(track),
            Piece::Fixed(b"}"),
        ],
    )
}

/// Adds the line that names the track of a caller.
pub(crate) fn write_caller(text: &mut Bytes, caller: &CallerId) -> Result<(), NoMemory>
    ensures { OnOk result (text.new ≡ text.old ++ line (caller_name caller.now)) }
{
    let thread = u64::from(caller.thread.number());
    write_track(text, caller.rank.number(), thread, b"thread ", thread)
}

/// Adds the line that names the track of a queue.
pub(crate) fn write_queue(text: &mut Bytes, rank: u32, queue: u32) -> Result<(), NoMemory>
    ensures { OnOk result (text.new ≡ text.old ++ line (queue_name rank queue)) }
{
    let queue = u64::from(queue);
    write_track(text, rank, FIRST_QUEUE + queue, b"queue ", queue)
}

/// Ends the line of a slice with that name, on a track of a rank. JSON has to escape nothing in the name.
fn end_slice(
    text: &mut Bytes,
    place: u64,
    rank: RankId,
    track: u64,
    name: &[u8],
) -> Result<(), NoMemory>
    requires { IsPlain name.now }
    ensures { (before : List ℕ) (arguments : Members) → text.old ≡ before ++ line_front arguments
        → OnOk result (text.new ≡ before ++ line (slice place rank track name.now arguments)) }
{
    append_pieces(
        text,
        &[
            Piece::Fixed(b",\"dur\":1,\"name\":\""),
            Piece::Fixed(name),
            Piece::Fixed(b"\",\"ph\":\"X\",\"pid\":"),
            Piece::Number(u64::from(rank.number())),
            Piece::Fixed(b",\"tid\":"),
            Piece::Number(track),
            Piece::Fixed(b",\"ts\":"),
            Piece::Number(place),
            Piece::Fixed(b"}"),
        ],
    )
}

/// The word of a call, as in its text.
fn call_word(call: &Call) -> &'static [u8]
    ensures { result.now ≡ call_word call.now }
{
    match call {
        Call::Alloc(_) => b"alloc",
        Call::Register(_) => b"register",
        Call::Delete(_) => b"delete",
        Call::Store(_) => b"store",
        Call::Load(_) => b"load",
        Call::Write(_) => b"write",
        Call::Read(_) => b"read",
        Call::Notify(_) => b"notify",
        Call::WriteNotify(_) => b"write_notify",
        Call::ReadNotify(_) => b"read_notify",
        Call::WriteList(_) => b"write_list",
        Call::WriteListNotify(_) => b"write_list_notify",
        Call::ReadList(_) => b"read_list",
        Call::ReadListNotify(_) => b"read_list_notify",
        Call::Wait(_) => b"wait",
        Call::Purge(_) => b"purge",
        Call::Qsize(_) => b"qsize",
        Call::Waitsome(_) => b"waitsome",
        Call::Reset(_) => b"reset",
        Call::PassiveSend(_) => b"passive_send",
        Call::PassiveReceive(_) => b"passive_receive",
        Call::FetchAdd(_) => b"fetch_add",
        Call::CompareSwap(_) => b"compare_swap",
        Call::GroupCreate => b"group_create",
        Call::GroupAdd(_) => b"group_add",
        Call::GroupDelete(_) => b"group_delete",
        Call::Commit(_) => b"commit",
        Call::Barrier(_) => b"barrier",
        Call::Allreduce(_) => b"allreduce",
        Call::Create(_) => b"create",
        Call::State => b"state",
        Call::End => b"end",
    }
}

/// Adds the slice of a call with its reply, on the track of its caller. After `NoMemory` some of the line may be there.
fn write_call_slice(
    text: &mut Bytes,
    place: u64,
    caller: &CallerId,
    call: &Call,
    reply: &Reply,
) -> Result<(), NoMemory>
    ensures { OnOk result (text.new ≡ text.old ++ line (call_slice place caller.now call.now reply.now)) }
{
    call_is_in_range(call);
    reply_is_in_range(reply);
    written_words_are_plain();
    text.append(b",\n{\"args\":{\"call\":\"")?;
    write_call(text, call)?;
    text.append(b"\",\"reply\":\"")?;
    write_reply(text, reply)?;
    text.append(b"\"}")?;
    let thread = u64::from(caller.thread.number());
    end_slice(text, place, caller.rank, thread, call_word(call))
}

/// The word of a collective, as in its text. JSON escapes nothing in it.
fn coll_word(coll: &Coll) -> &'static [u8]
    ensures word { result.now ≡ coll_word coll.now }
    ensures plain { IsPlain result.now }
{
    match coll {
        Coll::Barrier => b"barrier",
        Coll::Allreduce(_, _, _) => b"allreduce",
        Coll::Create(_, _) => b"create",
        Coll::Commit(_) => b"commit",
    }
}

/// Adds the slice of a join, on the track of its caller.
fn write_join(
    text: &mut Bytes,
    place: u64,
    caller: &CallerId,
    group: GroupId,
    coll: &Coll,
) -> Result<(), NoMemory>
    ensures { OnOk result (text.new ≡ text.old ++ line (join_slice place caller.now group coll.now)) }
{
    append_pieces(
        text,
        &[
            Piece::Fixed(b",\n{\"args\":{\"collective\":\""),
            Piece::Fixed(coll_word(coll)),
            Piece::Fixed(b"\",\"group\":"),
            Piece::Number(u64::from(group.number())),
            Piece::Fixed(b"}"),
        ],
    )?;
    let thread = u64::from(caller.thread.number());
    end_slice(text, place, caller.rank, thread, b"join")
}

/// The track of a queue.
fn queue_track(queue: QueueId) -> u64
    ensures { result ≡ queue_track queue }
{
    FIRST_QUEUE + u64::from(queue.number())
}

/// Adds the slice of the put of a notification, on the track of its queue; nothing where the entry brings bytes.
fn write_put_slice(
    text: &mut Bytes,
    place: u64,
    origin: RankId,
    queue: QueueId,
    delivery: &Delivery,
) -> Result<(), NoMemory>
    ensures { OnOk result (text.new ≡ text.old ++ lines (put_slice place origin queue delivery.now)) }
{
    match delivery {
        Delivery::Bytes { .. } => Ok(()),
        Delivery::Notification {
            segment,
            note,
            value,
            ..
        } => {
            append_pieces(
                text,
                &[
                    Piece::Fixed(b",\n{\"args\":{\"notification\":"),
                    Piece::Number(*note),
                    Piece::Fixed(b",\"segment\":"),
                    Piece::Number(*segment),
                    Piece::Fixed(b",\"value\":"),
                    Piece::Number(u64::from(*value)),
                    Piece::Fixed(b"}"),
                ],
            )?;
            end_slice(text, place, origin, queue_track(queue), b"put")
        }
    }
}

/// Ends the line of a mark of an entry's span. The letter says which mark it is: `b`, `n` or `e`.
fn end_mark(
    text: &mut Bytes,
    letter: &[u8],
    place: u64,
    origin: RankId,
    queue: QueueId,
    number: u64,
) -> Result<(), NoMemory>
    requires { IsPlain letter.now }
    ensures { (before : List ℕ) (arguments : Members) → text.old ≡ before ++ line_front arguments
        → OnOk result (text.new ≡ before ++ line (span_mark letter.now place origin queue number arguments)) }
{
    let rank = u64::from(origin.number());
    append_pieces(
        text,
        &[
            Piece::Fixed(b",\"cat\":\"entry\",\"id\":\""),
            Piece::Number(rank),
            Piece::Fixed(b"."),
            Piece::Number(number),
            Piece::Fixed(b"\",\"name\":\"queue "),
            Piece::Number(u64::from(queue.number())),
            Piece::Fixed(b"\",\"ph\":\""),
            Piece::Fixed(letter),
            Piece::Fixed(b"\",\"pid\":"),
            Piece::Number(rank),
            Piece::Fixed(b",\"tid\":"),
            Piece::Number(queue_track(queue)),
            Piece::Fixed(b",\"ts\":"),
            Piece::Number(place),
            Piece::Fixed(b"}"),
        ],
    )
}

/// The name of an entry in a trace, by what it brings. JSON escapes nothing in it.
fn entry_word(delivery: &Delivery) -> &'static [u8]
    ensures word { result.now ≡ entry_word delivery.now }
    ensures plain { IsPlain result.now }
{
    match delivery {
        Delivery::Bytes { direction, .. } => match direction {
            Direction::Outward => b"write",
            Direction::Inward => b"read",
        },
        Delivery::Notification { direction, .. } => match direction {
            Direction::Outward => b"notify",
            Direction::Inward => b"read_notify",
        },
    }
}

/// Adds the front of the line that begins an entry's span, with what the entry brings.
fn append_entry(text: &mut Bytes, entry: &OpenEntry) -> Result<(), NoMemory>
    ensures { OnOk result (text.new ≡ text.old ++ line_front (entry_members entry.now)) }
{
    let word = entry_word(&entry.delivery);
    match entry.delivery {
        Delivery::Bytes {
            size,
            segment,
            offset,
            ..
        } => append_pieces(
            text,
            &[
                Piece::Fixed(b",\n{\"args\":{\"entry\":\""),
                Piece::Fixed(word),
                Piece::Fixed(b"\",\"number\":"),
                Piece::Number(entry.number),
                Piece::Fixed(b",\"offset\":"),
                Piece::Number(offset),
                Piece::Fixed(b",\"segment\":"),
                Piece::Number(segment),
                Piece::Fixed(b",\"size\":"),
                Piece::Number(size),
                Piece::Fixed(b",\"target\":"),
                Piece::Number(entry.target),
                Piece::Fixed(b"}"),
            ],
        ),
        Delivery::Notification {
            segment,
            note,
            value,
            ..
        } => append_pieces(
            text,
            &[
                Piece::Fixed(b",\n{\"args\":{\"entry\":\""),
                Piece::Fixed(word),
                Piece::Fixed(b"\",\"notification\":"),
                Piece::Number(note),
                Piece::Fixed(b",\"number\":"),
                Piece::Number(entry.number),
                Piece::Fixed(b",\"segment\":"),
                Piece::Number(segment),
                Piece::Fixed(b",\"target\":"),
                Piece::Number(entry.target),
                Piece::Fixed(b",\"value\":"),
                Piece::Number(u64::from(value)),
                Piece::Fixed(b"}"),
            ],
        ),
    }
}

/// Adds the begin of an entry's span.
fn write_begin(
    text: &mut Bytes,
    place: u64,
    origin: RankId,
    entry: &OpenEntry,
) -> Result<(), NoMemory>
    ensures { OnOk result (text.new ≡ text.old ++ line (span_begin place origin entry.now)) }
{
    append_entry(text, entry)?;
    end_mark(text, b"b", place, origin, entry.queue, entry.number)
}

/// Adds a mark of an entry's span, with the word of a step: what has come to the entry.
fn write_step(
    text: &mut Bytes,
    letter: &[u8],
    step: &[u8],
    place: u64,
    origin: RankId,
    queue: QueueId,
    number: u64,
) -> Result<(), NoMemory>
    requires letter { IsPlain letter.now }
    requires step { IsPlain step.now }
    ensures { OnOk result (text.new ≡ text.old ++ line (span_mark letter.now place origin queue number (member (codes "step") (string step.now) no_members))) }
{
    append_pieces(
        text,
        &[
            Piece::Fixed(b",\n{\"args\":{\"step\":\""),
            Piece::Fixed(step),
            Piece::Fixed(b"\"}"),
        ],
    )?;
    end_mark(text, letter, place, origin, queue, number)
}

/// Adds the end of an entry's span, with the word for how it ends.
fn write_end(
    text: &mut Bytes,
    how: &[u8],
    place: u64,
    origin: RankId,
    queue: QueueId,
    number: u64,
) -> Result<(), NoMemory>
    requires { IsPlain how.now }
    ensures { OnOk result (text.new ≡ text.old ++ line (span_end how.now place origin queue number)) }
{
    write_step(text, b"e", how, place, origin, queue, number)
}

/// Adds the mark of a take: one within the span of its entry where it is applied, and the end of the span where it failed.
fn write_take(
    text: &mut Bytes,
    place: u64,
    origin: RankId,
    queue: QueueId,
    number: u32,
    outcome: Outcome,
) -> Result<(), NoMemory>
    ensures { OnOk result (text.new ≡ text.old ++ line (span_taken outcome place origin queue number)) }
{
    let number = u64::from(number);
    match outcome {
        Outcome::Applied => write_step(text, b"n", b"take", place, origin, queue, number),
        Outcome::Failed => write_end(text, b"take failed", place, origin, queue, number),
    }
}

/// The word of a put in a trace. JSON escapes nothing in it.
fn put_step(outcome: Outcome) -> &'static [u8]
    ensures word { result.now ≡ put_step outcome }
    ensures plain { IsPlain result.now }
{
    match outcome {
        Outcome::Applied => b"put",
        Outcome::Failed => b"put failed",
    }
}

/// Adds the end of the span of an entry at its put, and a slice where it puts a notification. `entry` is the open entry, as
/// `put_entry` answers.
fn write_put(
    text: &mut Bytes,
    place: u64,
    origin: RankId,
    queue: QueueId,
    number: u32,
    outcome: Outcome,
    entry: Option<OpenEntry>,
) -> Result<(), NoMemory>
    ensures { OnOk result (text.new ≡ text.old ++ lines (span_end (put_step outcome) place origin queue number ∷ put_marks place origin queue entry)) }
{
    write_end(
        text,
        put_step(outcome),
        place,
        origin,
        queue,
        u64::from(number),
    )?;
    match entry {
        Some(entry) => write_put_slice(text, place, origin, queue, &entry.delivery),
        None => Ok(()),
    }
}

/// Adds the begins of the spans of entries, at their post.
fn write_begins(
    text: &mut Bytes,
    place: u64,
    origin: RankId,
    entries: &[OpenEntry],
) -> Result<(), NoMemory>
    ensures { OnOk result (text.new ≡ text.old ++ lines (map (span_begin place origin) entries.now)) }
{
    for entry in entries {
        write_begin(text, place, origin, entry)?;
    }
    Ok(())
}

/// Adds the ends of the spans of entries, at a purge of their queue.
fn write_purge(
    text: &mut Bytes,
    place: u64,
    origin: RankId,
    entries: &[OpenEntry],
) -> Result<(), NoMemory>
    ensures { OnOk result (text.new ≡ text.old ++ lines (map (purge_end place origin) entries.now)) }
{
    for entry in entries {
        write_end(text, b"purge", place, origin, entry.queue, entry.number)?;
    }
    Ok(())
}

/// Adds the marks of a call that is done: the ends of the spans of a purged queue, or the begins of those of posted entries.
/// `own` has the open entries of its rank before it.
fn write_call_marks(
    text: &mut Bytes,
    place: u64,
    origin: RankId,
    own: &RankEntries,
    call: &Call,
) -> Result<(), NoMemory>
    requires { own.now.next < 2 ^ 62 }
    ensures { OnOk result (text.new ≡ text.old ++ lines (call_marks place origin (Some own.now) call.now)) }
{
    let alloc = text.allocator();
    match call {
        Call::Purge(call) => {
            let ended = in_queue(alloc, call.queue, own.entries.as_slice())?;
            write_purge(text, place, origin, ended.as_slice())
        }
        _ => {
            let begun = new_entries(alloc, own.next, call)?;
            write_begins(text, place, origin, begun.as_slice())
        }
    }
}

/// Adds the start of an arrow with that number, at the put that has set a slot.
fn write_arrow_start(text: &mut Bytes, id: u64, slot: &SetSlot) -> Result<(), NoMemory>
    ensures { OnOk result (text.new ≡ text.old ++ line (arrow_start id slot.now)) }
{
    append_pieces(
        text,
        &[
            Piece::Fixed(b",\n{\"cat\":\"notification\",\"id\":"),
            Piece::Number(id),
            Piece::Fixed(b",\"name\":\"notification\",\"ph\":\"s\",\"pid\":"),
            Piece::Number(u64::from(slot.origin.number())),
            Piece::Fixed(b",\"tid\":"),
            Piece::Number(queue_track(slot.queue)),
            Piece::Fixed(b",\"ts\":"),
            Piece::Number(slot.place),
            Piece::Fixed(b"}"),
        ],
    )
}

/// Adds the finish of an arrow, at the call at a place, which is the number of the arrow.
fn write_arrow_finish(text: &mut Bytes, place: u64, caller: &CallerId) -> Result<(), NoMemory>
    ensures { OnOk result (text.new ≡ text.old ++ line (arrow_finish place caller.now)) }
{
    append_pieces(
        text,
        &[
            Piece::Fixed(b",\n{\"bp\":\"e\",\"cat\":\"notification\",\"id\":"),
            Piece::Number(place),
            Piece::Fixed(b",\"name\":\"notification\",\"ph\":\"f\",\"pid\":"),
            Piece::Number(u64::from(caller.rank.number())),
            Piece::Fixed(b",\"tid\":"),
            Piece::Number(u64::from(caller.thread.number())),
            Piece::Fixed(b",\"ts\":"),
            Piece::Number(place),
            Piece::Fixed(b"}"),
        ],
    )
}

/// Adds both ends of an arrow, from the put that has set a slot to the call at a place.
fn write_arrow(
    text: &mut Bytes,
    place: u64,
    caller: &CallerId,
    slot: &SetSlot,
) -> Result<(), NoMemory>
    ensures { OnOk result (text.new ≡ text.old ++ lines (arrow_to place caller.now (Some slot.now))) }
{
    write_arrow_start(text, place, slot)?;
    write_arrow_finish(text, place, caller)
}

/// The set slot whose notification a call gets: the one that a `waitsome` names, or that a `reset` reads with another value
/// than 0. None for every other call, and where no put has set the slot.
fn got_slot(slots: &[SetSlot], caller: &CallerId, call: &Call, reply: &Reply) -> Option<SetSlot>
    ensures { result ≡ got_slot slots.now caller.now call.now reply.now }
{
    match (call, reply) {
        (Call::Waitsome(call), Reply::Id(note)) => {
            slot_at(slots, caller.rank, call.seg, u64::from(*note))
        }
        (Call::Reset(call), Reply::Value(value)) => {
            if *value == 0 {
                None
            } else {
                slot_at(slots, caller.rank, call.seg, call.note)
            }
        }
        _ => None,
    }
}

/// Adds the arrow to the call at a place; nothing where it gets no notification.
fn write_arrow_to(
    text: &mut Bytes,
    place: u64,
    caller: &CallerId,
    slot: Option<SetSlot>,
) -> Result<(), NoMemory>
    ensures { OnOk result (text.new ≡ text.old ++ lines (arrow_to place caller.now slot)) }
{
    match slot {
        Some(slot) => write_arrow(text, place, caller, &slot),
        None => Ok(()),
    }
}

/// Adds the marks of a call, where its reply is that it is done.
fn write_done(
    text: &mut Bytes,
    place: u64,
    origin: RankId,
    own: &RankEntries,
    call: &Call,
    reply: &Reply,
) -> Result<(), NoMemory>
    requires { own.now.next < 2 ^ 62 }
    ensures { OnOk result (text.new ≡ text.old ++ lines (done_marks place origin (Some own.now) call.now reply.now)) }
{
    match reply {
        Reply::Done => write_call_marks(text, place, origin, own, call),
        _ => Ok(()),
    }
}

/// Adds all lines of a call: its slice, its marks and its arrow.
fn write_called(
    text: &mut Bytes,
    own: &RankEntries,
    slots: &[SetSlot],
    place: u64,
    caller: &CallerId,
    call: &Call,
    reply: &Reply,
) -> Result<(), NoMemory>
    requires { own.now.next < 2 ^ 62 }
    ensures { OnOk result (text.new ≡ text.old ++ lines (call_slice place caller.now call.now reply.now
        ∷ (done_marks place caller.now.rank (Some own.now) call.now reply.now ++ arrow_to place caller.now (got_slot slots.now caller.now call.now reply.now)))) }
{
    write_call_slice(text, place, caller, call, reply)?;
    write_done(text, place, caller.rank, own, call, reply)?;
    write_arrow_to(text, place, caller, got_slot(slots, caller, call, reply))
}

/// Adds all lines of the event at a place, by the open entries and the set slots before it. The table has to have 16 ranks
/// (`many`) with next numbers below 2^62 (`small`), and `entry` has to be what `put_entry` answers.
pub(crate) fn write_objects(
    text: &mut Bytes,
    ranks: &EntryTable,
    slots: &[SetSlot],
    place: u64,
    event: &Event,
    entry: Option<OpenEntry>,
) -> Result<(), NoMemory>
    requires many { length ranks.now ≡ 16 }
    requires small { (rank : ℕ) (r : RankEntries) → slice_get ranks.now rank ≡ Some r → r.next < 2 ^ 62 }
    requires entry { entry ≡ put_entry ranks.now event.now }
    ensures { OnOk result (text.new ≡ text.old ++ lines (event_objects ranks.now slots.now place event.now)) }
{
    match event {
        Event::Called(caller, call, reply) => {
            let own = ranks.at(caller.rank.index());
            write_called(text, own, slots, place, caller, call, reply)
        }
        Event::Joined(caller, group, args) => write_join(text, place, caller, *group, &args.coll),
        Event::Take(origin, queue, _, number, outcome) => {
            write_take(text, place, *origin, *queue, *number, *outcome)
        }
        Event::Put(origin, queue, _, number, outcome) => {
            write_put(text, place, *origin, *queue, *number, *outcome, entry)
        }
    }
}
