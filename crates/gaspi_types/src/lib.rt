//! The types that all crates of the runtime share: ids, limits and shapes; calls with their rows, replies and footprints;
//! entries, queues and events; segments with their tables, messages, groups; and two kinds of lists. Functions here make, copy
//! and read such values. None knows a state of the machine.
//!
//! Here and in all crates `alloc` is where memory is taken from, `rt` is the runtime handle by which a thread waits and starts
//! others, and a contract sees of a value its model: what `impl Model` says.
#![tactic(auto)]

mod buffers;
mod call_rows;
mod calls;
mod collectives;
mod entries;
mod events;
mod footprints;
mod groups;
mod ids;
mod inboxes;
mod invocations;
mod lists;
mod masks;
mod memory;
mod replies;
mod segments;
mod shapes;

pub use buffers::Buffer;
pub use call_rows::{CallRow, Posting, need};
pub use calls::{
    Alloc, Allreduce, Barrier, Call, Commit, CompareSwap, Create, Delete, FetchAdd, GroupAdd,
    GroupDelete, Item, Load, Notify, PassiveReceive, PassiveSend, Purge, Qsize, Read, ReadList,
    ReadListNotify, ReadNotify, Register, Reset, Store, Timeout, Wait, Waitsome, Write, WriteList,
    WriteListNotify, WriteNotify, is_list_length,
};
pub use collectives::{Coll, NumType, Numbers, Op, Stage, is_in_type};
pub use entries::{
    ByteRange, Destination, Direction, Endpoints, Entry, Kind, NoteSlot, Phase, Queue,
};
pub use events::{Event, Outcome, PlacedEvent, Transfer};
pub use footprints::{DeclaredFootprint, Footprint};
pub use groups::{
    Args, Contribution, Group, Handle, Handles, MemberSegment, PendingCollective,
    RankContributions, Resume,
};
pub use ids::{GroupId, NoteId, QueueId, RankId, SegId, ThreadId};
pub use inboxes::{Message, Messages, is_passive_size};
pub use invocations::Invocation;
pub use lists::{BoxedSequence, Bytes, Sequence};
pub use masks::{all_below, is_member, mask_of, with_member};
pub use memory::NoMemory;
pub use replies::{Ready, Refusal, RefusalFields, Reply};
pub use segments::{Extent, Extents, OwnSegments, Segment, SegmentTable, is_segment_size};
pub use shapes::{CallerId, DeclaredSegment, Limits, Shape, ShapeFault};
