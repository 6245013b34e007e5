//! The inbox of a rank as a ring: a list of fixed capacity, where messages are appended at the end and removed at the front.
//! (GASPI: passive communication)

ghost use Rattle.std.specs.Prelude.{◌≡◌, ◌≤◌, [], length, true, IfOk, IfSome};
ghost use Rattle.gaspi_types.specs.Inboxes.{is_passive_size, has_room, first_within};

use circular_buffer::HeapCircularBuffer;
use gaspi_types::{Bytes, Message, NoMemory, RankId, Refusal};
use std::alloc::Global;
use std::marker::Model;

/// The inbox of one rank: the messages that it has not received, the earliest first. Contracts see the most messages that it may
/// have, 1 to 64, and the list of its messages.
#[derive(Drop)]
pub struct Inbox {
    /// The messages, with capacity for the most of them.
    ring: HeapCircularBuffer<Message>,
}

impl Model for Inbox {
    ghost use Rattle.segment_store.specs.Held.{InboxValue, inbox_value, IsInbox};

    ghost Value = { InboxValue };

    ghost view = { λ inbox. inbox_value inbox.ring };

    ghost invariant = { λ inbox. IsInbox inbox.ring };
}

impl Inbox {
    ghost use Rattle.segment_store.specs.Held.{message_of, deposit_answer, with_deposit, front_of, Receives};

    /// The empty inbox, for `most` messages at most: 1 to 64, the limits of a world's inboxes. All memory of the ring is taken here;
    /// the bytes of a message come with it.
    pub fn new(alloc: Global, most: u32) -> Result<Inbox, NoMemory>
        requires least { 1 ≤ most }
        requires greatest { most ≤ 64 }
        ensures { IfOk result (λ inbox. inbox ≡ record { most = most; messages = [] }) }
    {
        Ok(Inbox {
            ring: HeapCircularBuffer::with_capacity(alloc, most as usize)?,
        })
    }

    /// How many messages there are, at most `most`.
    pub fn len(&self) -> usize
        ensures value { result ≡ length self.now.messages }
        ensures bound { result ≤ self.now.most }
        ensures most { self.now.most ≤ 64 }
    {
        self.ring.len()
    }

    /// Whether one message more fits: exactly where `deposit` does not give its message back.
    pub fn has_room(&self) -> bool
        ensures { result ≡ has_room self.now.most self.now.messages }
    {
        self.ring.len() < self.ring.capacity()
    }

    /// Appends a message of 1 to 4,096 bytes. Exactly where there is no room, nothing changes and the message is given back. It
    /// takes no memory. (GASPI: passive_send)
    pub fn deposit(&mut self, sender: RankId, bytes: Bytes) -> Result<(), Message>
        requires { is_passive_size (length bytes) ≡ true }
        ensures answer { result ≡ deposit_answer self.old (message_of sender bytes) }
        ensures inbox { self.new ≡ with_deposit self.old (message_of sender bytes) }
    {
        self.ring.try_push_back(Message { sender, bytes })
    }

    /// The sender of the first message and its size in bytes; None exactly where there is no message.
    pub fn front(&self) -> Option<(u32, u32)>
        ensures value { result ≡ front_of self.now.messages }
        ensures sized { IfSome result (λ front. is_passive_size front.1 ≡ true) }
    {
        let message = self.ring.front()?;
        Some((message.sender.number(), size_of(message)))
    }

    /// Removes the first message and gives it, where it has at most `size` bytes; None exactly where there is no message. A longer
    /// one stays, and `PassiveSize` has its size. (GASPI: passive_receive)
    pub fn receive(&mut self, size: u64) -> Result<Option<Message>, Refusal>
        ensures answer { result ≡ first_within size self.old.messages }
        ensures inbox { Receives self.old self.new result }
        ensures sized { IfOk result (λ given. IfSome given (λ message. is_passive_size (length message.bytes) ≡ true)) }
    {
        match self.front() {
            Some((_sender, waiting)) if u64::from(waiting) > size => {
                Err(Refusal::PassiveSize { waiting })
            }
            _ => Ok(self.ring.pop_front()),
        }
    }
}

/// How many bytes a message has.
fn size_of(message: &Message) -> u32
    requires { is_passive_size (length message.now.bytes) ≡ true }
    ensures { result ≡ length message.now.bytes }
{
    message.bytes.len() as u32
}
