//! Reserved memory: all that the record of a call needs is taken before it, so that the record takes none. In this file a *room* is
//! that memory, and no count of events.

ghost use Rattle.std.specs.Prelude.{◌≡◌, ◌≤◌, false, length, IfOk, IsOk, IsSome, None, Ok, OnOk, Some};
ghost use Rattle.gaspi_types.specs.CallRows.{row_of};
ghost use Rattle.gaspi_types.specs.SegmentTables.{alloc_checks};
ghost use Rattle.gaspi_model.specs.Calls.{requested_kinds};
ghost use Rattle.gaspi_model.specs.PassiveCalls.{sent_message};
ghost use Rattle.rank_node.specs.Making.{made_segment};
ghost use Rattle.rank_node.specs.Values.{PostsValue, MemoryValue};
ghost use Rattle.rank_node.specs.Rooms.{empty_room, HasEntries, HasMade, HasBytes, IsReservedFor};

use crate::making::MadeSegment;
use crate::node_memory::NodeMemory;
use crate::node_posts::NodePosts;
use crate::reserved_numbers::ReservedNumbers;
use gaspi_types::{Bytes, Call, CallRow, Invocation, Message, NoMemory, Posting, Reply, Sequence};
use plain_calls::message_of;
use post_queue::{BuildStop, Entries, asked_entries};
use segment_store::{check_alloc, check_own_range};
use std::alloc::Global;

/// The reserved memory of a call, with its row.
#[derive(Debug, Drop)]
pub struct Room {
    /// The row of the call.
    pub row: CallRow,
    /// The entries of a post, with capacity for their bytes.
    pub entries: Option<Entries>,
    /// The segment that an alloc or a create makes.
    pub made: Option<MadeSegment>,
    /// The message of a send.
    pub message: Option<Message>,
    /// A list for the bytes of a load, for a second reply.
    pub bytes: Bytes,
    /// Lists for the numbers of an allreduce.
    pub numbers: ReservedNumbers,
}

/// The entries that a call asks for, with capacity for their bytes; None where it posts nothing, and where it is refused for what it
/// asks.
fn reserve_entries(
    alloc: Global,
    posts: &NodePosts,
    posting: Option<Posting>,
    call: &Call,
) -> Result<Option<Entries>, NoMemory>
    requires { posting ≡ (row_of call.now).posting }
    ensures entries { IfOk result (λ entries. HasEntries (row_of call.now).posting (requested_kinds posts.now.limits posts.now.me posts.now.posts call.now) entries) }
    ensures ample { (row_of call.now).takes_memory ≡ false → IsOk result }
{
    if posting.is_none() {
        return Ok(None);
    }
    match asked_entries(alloc, posts.limits.notes, posts.me, &posts.segments, call) {
        Ok(entries) => Ok(Some(entries)),
        Err(BuildStop::Refused(_refusal)) => Ok(None),
        Err(BuildStop::NoMemory) => Err(NoMemory),
    }
}

/// A made segment for this id and size; None where `alloc` would be refused.
fn reserve_segment(
    alloc: Global,
    posts: &NodePosts,
    seg: u64,
    size: u64,
) -> Result<Option<MadeSegment>, NoMemory>
    requires { posts.now.limits.notes ≤ 1024 }
    ensures { IfOk result (λ made. alloc_checks posts.now.posts.segments.own seg size ≡ Ok tt → made ≡ Some (made_segment posts.now.limits posts.now.posts seg size)) }
{
    match check_alloc(&posts.segments.own, seg, size) {
        Ok(()) => Ok(Some(posts.make_segment(alloc, seg, size)?)),
        Err(_refusal) => Ok(None),
    }
}

/// The made segment of an alloc or a create; None where `alloc` would be refused, and for every other call.
fn reserve_made(
    alloc: Global,
    posts: &NodePosts,
    call: &Call,
) -> Result<Option<MadeSegment>, NoMemory>
    requires { posts.now.limits.notes ≤ 1024 }
    ensures made { IfOk result (λ made. HasMade posts.now call.now made) }
    ensures ample { (row_of call.now).takes_memory ≡ false → IsOk result }
{
    match call {
        Call::Alloc(call) => reserve_segment(alloc, posts, call.seg, call.size),
        Call::Create(call) => reserve_segment(alloc, posts, call.seg, call.size),
        _ => Ok(None),
    }
}

/// The message of a send, copied from the own memory; None for every other call.
fn reserve_message(
    alloc: Global,
    posts: &NodePosts,
    memory: &NodeMemory,
    call: &Call,
) -> Result<Option<Message>, NoMemory>
    ensures message { IfOk result (λ message. message ≡ sent_message posts.now.me memory.now.memory call.now) }
    ensures ample { (row_of call.now).takes_memory ≡ false → IsOk result }
{
    match call {
        Call::PassiveSend(call) => {
            let message = message_of(alloc, posts.me, &memory.segments, call)?;
            Ok(Some(message))
        }
        _ => Ok(None),
    }
}

/// As many zeros as a load reads bytes; none where it is refused, and for every other call.
fn reserve_bytes(alloc: Global, posts: &NodePosts, call: &Call) -> Result<Bytes, NoMemory>
    ensures bytes { IfOk result (λ bytes. HasBytes posts.now call.now bytes) }
    ensures ample { (row_of call.now).takes_memory ≡ false → IsOk result }
{
    if let Call::Load(call) = call {
        let own = &posts.segments.own;
        if check_own_range(own, call.seg, call.offset, call.size).is_ok() {
            return Ok(Sequence::from_vec(vec![in alloc; 0u8; call.size as usize]?));
        }
    }
    Ok(Sequence::new(alloc))
}

/// A law: a call that posts nothing and takes no memory needs nothing but its row.
fn needs_its_row_alone(call: &Call, room: &Room)
    requires posting { (row_of call.now).posting ≡ None }
    requires memory { (row_of call.now).takes_memory ≡ false }
    requires empty { room.now ≡ empty_room (row_of call.now) }
    ensures { (posts : PostsValue) (memory : MemoryValue) → IsReservedFor posts memory call.now room.now }
{}

/// Reserves what a call that posts needs, its entries alone.
fn reserve_post(
    alloc: Global,
    posts: &NodePosts,
    invocation: &Invocation<'_>,
    room: &mut Room,
) -> Result<(), NoMemory>
    requires posting { IsSome (row_of invocation.now.call.now).posting }
    requires empty { room.old ≡ empty_room (row_of invocation.now.call.now) }
    ensures room { (memory : MemoryValue) → OnOk result (IsReservedFor posts.now memory invocation.now.call.now room.new) }
    ensures ample { (row_of invocation.now.call.now).takes_memory ≡ false → IsOk result }
{
    room.entries = reserve_entries(alloc, posts, invocation.row.posting, invocation.call)?;
    Ok(())
}

/// Reserves what a call that posts nothing needs, in the posts and the memory of its caller's rank.
fn reserve_memory(
    alloc: Global,
    posts: &NodePosts,
    memory: &NodeMemory,
    invocation: &Invocation<'_>,
    room: &mut Room,
) -> Result<(), NoMemory>
    requires posting { (row_of invocation.now.call.now).posting ≡ None }
    requires notes { posts.now.limits.notes ≤ 1024 }
    requires empty { room.old ≡ empty_room (row_of invocation.now.call.now) }
    ensures room { OnOk result (IsReservedFor posts.now memory.now invocation.now.call.now room.new) }
    ensures ample { (row_of invocation.now.call.now).takes_memory ≡ false → IsOk result }
{
    let call = invocation.call;
    room.made = reserve_made(alloc, posts, call)?;
    room.message = reserve_message(alloc, posts, memory, call)?;
    room.bytes = reserve_bytes(alloc, posts, call)?;
    room.numbers = ReservedNumbers::for_call(alloc, call)?;
    Ok(())
}

/// Reserves the memory that a call needs, on the posts and the memory of its caller's rank, which do not change. A call whose row
/// says that it takes no memory takes none. `room` is that of this call, in which nothing is reserved yet.
pub(crate) fn reserve(
    alloc: Global,
    posts: &NodePosts,
    memory: &NodeMemory,
    invocation: &Invocation<'_>,
    room: &mut Room,
) -> Result<(), NoMemory>
    requires notes { posts.now.limits.notes ≤ 1024 }
    requires empty { room.old ≡ empty_room (row_of invocation.now.call.now) }
    ensures room { OnOk result (IsReservedFor posts.now memory.now invocation.now.call.now room.new) }
    ensures ample { (row_of invocation.now.call.now).takes_memory ≡ false → IsOk result }
{
    match (invocation.row.posting, invocation.row.takes_memory) {
        (None, false) => {
            needs_its_row_alone(invocation.call, room);
            Ok(())
        }
        (None, true) => reserve_memory(alloc, posts, memory, invocation, room),
        (Some(_), _) => reserve_post(alloc, posts, invocation, room),
    }
}

/// Gives a list of bytes away and leaves the empty one. It takes no memory.
fn take_bytes(bytes: &mut Bytes) -> Bytes
    ensures { result ≡ bytes.old }
{
    let alloc = bytes.allocator();
    std::mem::replace(bytes, Sequence::new(alloc))
}

/// Equal bytes in `list`, which is long enough. It takes no memory.
fn copied_bytes(bytes: &Bytes, mut list: Bytes) -> Bytes
    requires { length bytes.now ≤ length list }
    ensures { result ≡ bytes.now }
{
    list.truncate(bytes.len());
    list.overwrite(0, bytes.as_slice());
    list
}

impl Room {
    ghost use Rattle.std.specs.Prelude.{◌≡◌};
    ghost use Rattle.rank_node.specs.Rooms.{ReplyFitsReserved, empty_room};

    /// The room of a call with this row, in which nothing is reserved yet. It takes no memory.
    pub fn new(alloc: Global, row: CallRow) -> Room
        ensures { result ≡ empty_room row }
    {
        Room {
            row,
            entries: None,
            made: None,
            message: None,
            bytes: Sequence::new(alloc),
            numbers: ReservedNumbers::nothing(),
        }
    }

    /// An equal reply for the caller, beside that in the event. It works once, for it uses the list for a load's bytes or the
    /// caller's list of numbers. All else of the room stays, so it still serves the record. It takes no memory.
    pub fn again(&mut self, reply: &Reply) -> Reply
        requires { ReplyFitsReserved reply.now self.old }
        ensures reply { result ≡ reply.now }
        ensures kept { self.new ≡ record self.old { bytes = self.new.bytes; numbers = self.new.numbers } }
        ensures numbers { (self.new.numbers.values ≡ self.old.numbers.values) × (self.new.numbers.event ≡ self.old.numbers.event) }
    {
        match reply {
            Reply::Bytes(bytes) => Reply::Bytes(copied_bytes(bytes, take_bytes(&mut self.bytes))),
            _ => self.numbers.again(reply),
        }
    }
}
