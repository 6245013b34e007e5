//! The calls `passive_send` and `passive_receive`. The functions with `_result` give the result of their call: its refusal, its
//! reply, or None where it is not ready; `own` is the table of the caller's own segments, and a clause on a result speaks of all
//! posts and memories that have it. The functions with `_effect` make its effect. The rest makes a message, and reads the first one
//! of an inbox. (GASPI: passive communication)

ghost use Rattle.std.specs.Prelude.{◌≡◌, ◌≤◌, ◌<◌, ◌^◌, IfOk, OnOk, OnErr, IsOk, IfSome, None};
ghost use Rattle.gaspi_types.specs.Inboxes.{has_room};
ghost use Rattle.gaspi_types.specs.declared.shapes.Limits.{Limits};
ghost use Rattle.gaspi_model.specs.PassiveCalls.{send_result, message_of, send_effect, receive_result, receive_effect};
ghost use Rattle.gaspi_model.specs.declared.states.Memory.{Memory};
ghost use Rattle.gaspi_model.specs.declared.states.Posts.{Posts};
ghost use Rattle.plain_calls.specs.Looks.{AreShort, front_of};

use gaspi_model::Memory;
use gaspi_types::{
    Extents, Message, Messages, NoMemory, OwnSegments, PassiveReceive, PassiveSend, RankId,
    Refusal, Reply, Sequence,
};
use segment_store::{bytes_of, check_message_range, range_of, store_bytes};
use std::alloc::Global;

/// The result of a send in a world of `ranks` ranks: `BadRank`, or the refusal of `check_message_range`, or done where the inbox of
/// the rank that it names has room, else not ready. (GASPI: passive_send)
pub fn send_result(
    ranks: u32,
    own: &Extents,
    inbox_has_room: bool,
    call: &PassiveSend,
) -> Result<Option<Reply>, Refusal>
    ensures { (limits : Limits) (posts : Posts) (memory : Memory) → limits.ranks ≡ ranks → posts.segments.own ≡ own.now → has_room limits.inbox memory.inbox ≡ inbox_has_room → result ≡ send_result limits posts memory call.now }
{
    if call.rank >= u64::from(ranks) {
        return Err(Refusal::BadRank);
    }
    check_message_range(own, call.seg, call.offset, call.size)?;
    if inbox_has_room {
        Ok(Some(Reply::Done))
    } else {
        Ok(None)
    }
}

/// The message of a send by `me`: a copy of the bytes of its range in the own segments.
pub fn message_of(
    alloc: Global,
    me: RankId,
    segments: &OwnSegments,
    call: &PassiveSend,
) -> Result<Message, NoMemory>
    ensures { IfOk result (λ message. (own : Memory) → own.segments ≡ segments.now → message ≡ message_of me own call.now) }
{
    let bytes = range_of(
        bytes_of(segments, call.seg),
        call.offset as usize,
        call.size as usize,
    );
    Ok(Message {
        sender: me,
        bytes: Sequence::copied_from(alloc, bytes)?,
    })
}

/// Puts a message into the inbox, as the last one; None changes nothing. Where memory runs out the message is lost and the inbox
/// stays.
pub fn send_effect(memory: &mut Memory, message: Option<Message>) -> Result<(), NoMemory>
    ensures ok { OnOk result (memory.new ≡ send_effect message memory.old) }
    ensures err { OnErr result (memory.new ≡ memory.old) }
{
    if let Some(message) = message {
        memory.inbox.push(message)?;
    }
    Ok(())
}

/// The sender and the size of the first message of an inbox; None where there is no message. No message is over 4,096 bytes.
pub fn front_of(inbox: &Messages) -> Option<(u32, u32)>
    requires { AreShort inbox.now }
    ensures { result ≡ front_of inbox.now }
{
    match inbox.as_slice() {
        [] => None,
        [first, ..] => Some((first.sender.number(), first.bytes.len() as u32)),
    }
}

/// The result of a receive: the refusal of `check_message_range`, or not ready where there is no message, or `PassiveSize` where the
/// first one is too long, else its sender. `front` has the sender and the size of the first message of the caller's inbox.
/// (GASPI: passive_receive)
pub fn receive_result(
    own: &Extents,
    front: Option<(u32, u32)>,
    call: &PassiveReceive,
) -> Result<Option<Reply>, Refusal>
    ensures { (posts : Posts) (memory : Memory) → posts.segments.own ≡ own.now → front_of memory.inbox ≡ front → result ≡ receive_result posts memory call.now }
{
    check_message_range(own, call.seg, call.offset, call.size)?;
    let Some((sender, waiting)) = front else {
        return Ok(None);
    };
    if u64::from(waiting) > call.size {
        return Err(Refusal::PassiveSize { waiting });
    }
    Ok(Some(Reply::Id(sender)))
}

/// Removes the first message, and stores its bytes from the offset of the receive on. Where there is no message nothing changes.
/// (GASPI: passive_receive)
pub fn receive_effect(memory: &mut Memory, call: &PassiveReceive)
    ensures { memory.new ≡ receive_effect memory.old call.now }
{
    if memory.inbox.is_empty() {
        return;
    }
    let message = memory.inbox.remove(0);
    store_bytes(
        &mut memory.segments,
        call.seg,
        call.offset,
        message.bytes.as_slice(),
    );
}
