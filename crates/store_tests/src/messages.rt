//! The inbox of one rank.

use gaspi_types::{Message, NoMemory, RankId, Refusal, Sequence};
use segment_store::Inbox;
use std::alloc::Global;
use std::test::Fail;

/// The empty inbox, of two messages at most.
fn empty(alloc: Global) -> Result<Inbox, NoMemory> {
    Inbox::new(alloc, 2)
}

/// Whether a message is there, and is that.
fn is_that(message: Option<Message>, sender: u32, bytes: &[u8]) -> bool {
    match message {
        Some(message) => message.sender.number() == sender && message.bytes.as_slice() == bytes,
        None => false,
    }
}

/// Puts a message into an inbox. It comes back where the inbox has no room, or the message is too long.
fn put(
    alloc: Global,
    inbox: &mut Inbox,
    sender: RankId,
    bytes: &[u8],
) -> Result<Option<Message>, NoMemory> {
    let bytes = Sequence::copied_from(alloc, bytes)?;
    if bytes.is_empty() || bytes.len() > 4_096 {
        return Ok(Some(Message { sender, bytes }));
    }
    Ok(inbox.deposit(sender, bytes).err())
}

/// The sender and the size of the first message.
fn front(inbox: &Inbox) -> Option<(u32, u32)> {
    inbox.front()
}

/// The answer of a receive of at most `size` bytes.
fn receive(inbox: &mut Inbox, size: u64) -> Result<Option<Message>, Refusal> {
    inbox.receive(size)
}

/// Whether a receive of at most `size` bytes gives that message.
fn gives(inbox: &mut Inbox, size: u64, sender: u32, bytes: &[u8]) -> bool {
    match inbox.receive(size) {
        Ok(message) => is_that(message, sender, bytes),
        Err(_) => false,
    }
}

/// Whether there is room, and how many messages there are.
fn has(inbox: &Inbox, room: bool, messages: usize) -> bool {
    inbox.has_room() == room && inbox.len() == messages
}

/// Whether an inbox is empty.
fn is_empty(inbox: &mut Inbox) -> bool {
    front(inbox).is_none() && matches!(receive(inbox, 4_096), Ok(None)) && has(inbox, true, 0)
}

/// Whether two messages fill the inbox, and a third comes back.
fn fills(alloc: Global, inbox: &mut Inbox) -> Result<bool, NoMemory> {
    let first = put(alloc, inbox, RankId::of(3), &[7, 8, 9])?.is_none() && has(inbox, true, 1);
    let second = put(alloc, inbox, RankId::of(1), &[5])?.is_none() && has(inbox, false, 2);
    let returned = put(alloc, inbox, RankId::of(2), &[6, 6])?;
    Ok(first && second && is_that(returned, 2, &[6, 6]) && has(inbox, false, 2))
}

/// Whether both messages are received, each only where it is not too long.
fn empties(inbox: &mut Inbox) -> bool {
    let is_first = matches!(front(inbox), Some((3, 3)));
    let refused = matches!(receive(inbox, 2), Err(Refusal::PassiveSize { waiting: 3 }));
    let first = is_first && refused && gives(inbox, 3, 3, &[7, 8, 9]);
    first && matches!(front(inbox), Some((1, 1))) && gives(inbox, 9, 1, &[5])
}

#[test]
fn messages_are_received_in_the_order_of_their_sends(rt: HostRuntime) -> Result<(), Fail> {
    let alloc = rt.alloc();
    let mut inbox = empty(alloc)?;
    assert!(rt; is_empty(&mut inbox));
    assert!(rt; fills(alloc, &mut inbox)?);
    assert!(rt; empties(&mut inbox));
    assert!(rt; is_empty(&mut inbox));
    Ok(())
}
