//! The calls `alloc`, `register` and `delete`. The functions with `_result` give the result of their call: its refusal, or done;
//! `own` is the table of the caller's own segments, and a clause speaks of all posts that have it. The functions with `_effect` make
//! its effect. `make_segment` and `insert_segment` are the halves of an alloc: the first takes all memory, the second takes none.
//! (GASPI: segments)

ghost use Rattle.std.specs.Prelude.{◌≡◌, ◌+◌, ◌<◌, ◌≤◌, ◌^◌, length, OnOk, OnErr, IfOk, IfSome};
ghost use Rattle.std.specs.List.{list_any};
ghost use Rattle.gaspi_types.specs.Lanes.{has_user};
ghost use Rattle.gaspi_types.specs.SegmentTables.{extent_in};
ghost use Rattle.gaspi_model.specs.SegmentCalls.{alloc_result, with_own, alloc_effect, register_result, with_known, delete_result, without_own, delete_effect};
ghost use Rattle.gaspi_types.specs.Queues.{user_of};
ghost use Rattle.gaspi_types.specs.declared.shapes.Limits.{Limits};
ghost use Rattle.plain_calls.specs.NumberBounds.{AllocIsBounded};
ghost use Rattle.plain_calls.specs.Segments.{made_segment};
ghost use Rattle.gaspi_model.specs.declared.states.Posts.{Posts};

use crate::lanes::has_user;
use crate::memories::{new_slots, set_segment};
use gaspi_model::{Memory, Posts};
use gaspi_types::{
    Alloc, Delete, Extent, Extents, Limits, NoMemory, Queue, RankId, Refusal, Register, Reply,
    Segment, Sequence,
};
use segment_store::{
    add_own, check_alloc, extent_in, new_segment, next_generation, remove_own, set_known,
};
use std::alloc::Global;

/// The result of an `alloc`: done, or the refusal of `check_alloc`. (GASPI: segment_alloc)
pub fn alloc_result(own: &Extents, call: &Alloc) -> Result<Option<Reply>, Refusal>
    ensures { (posts : Posts) → posts.segments.own ≡ own.now → result ≡ alloc_result posts call.now }
{
    check_alloc(own, call.seg, call.size)?;
    Ok(Some(Reply::Done))
}

/// A segment with its slots that was allocated and is in no table yet.
#[derive(Debug, Drop)]
pub struct MadeSegment {
    /// The segment, all bytes zero.
    segment: Segment,
    /// Its slots, all zero.
    slots: Sequence<u32>,
}

/// Allocates the segment of an `alloc`: the next generation of its id, all bytes and slots zero. It is in no table yet.
/// (GASPI: segment_alloc)
pub fn make_segment(
    alloc: Global,
    limits: &Limits,
    posts: &Posts,
    call: &Alloc,
) -> Result<MadeSegment, NoMemory>
    requires { call.now.size < 2 ^ 32 }
    ensures { IfOk result (λ made. made ≡ made_segment limits.now posts.now call.now) }
{
    let generation = next_generation(&posts.segments.next_generations, call.seg);
    Ok(MadeSegment {
        segment: new_segment(alloc, generation, call.size as u32)?,
        slots: new_slots(alloc, limits.notes)?,
    })
}

/// Puts a made segment and its slots into memory, and its extent into the table of segments, where the next generation of its id
/// becomes one more. It takes no memory. (GASPI: segment_alloc)
pub fn insert_segment(posts: &mut Posts, memory: &mut Memory, call: &Alloc, made: MadeSegment)
    requires { AllocIsBounded posts.old call.now }
    ensures posts { posts.new ≡ with_own posts.old call.now.seg call.now.size }
    ensures memory { (limits : Limits) → made ≡ made_segment limits posts.old call.now → memory.new ≡ alloc_effect limits posts.old memory.old call.now }
{
    let MadeSegment { segment, slots } = made;
    set_segment(memory, call.seg, Some(segment), Some(slots));
    add_own(&mut posts.segments, call.seg, call.size as u32);
}

/// Makes an own segment, in the next generation of its id, all bytes and slots zero. Where memory runs out nothing changes.
/// (GASPI: segment_alloc)
pub fn alloc_effect(
    alloc: Global,
    limits: &Limits,
    posts: &mut Posts,
    memory: &mut Memory,
    call: &Alloc,
) -> Result<(), NoMemory>
    requires { AllocIsBounded posts.old call.now }
    ensures posts { OnOk result (posts.new ≡ with_own posts.old call.now.seg call.now.size) }
    ensures memory { OnOk result (memory.new ≡ alloc_effect limits.now posts.old memory.old call.now) }
    ensures posts_kept { OnErr result (posts.new ≡ posts.old) }
    ensures memory_kept { OnErr result (memory.new ≡ memory.old) }
{
    let made = make_segment(alloc, limits, posts, call)?;
    insert_segment(posts, memory, call, made);
    Ok(())
}

/// The result of a `register` in a world of `ranks` ranks: done, `BadRank` or `NoSegment`. (GASPI: segment_register)
pub fn register_result(ranks: u32, own: &Extents, call: &Register) -> Result<Option<Reply>, Refusal>
    ensures { (limits : Limits) (posts : Posts) → limits.ranks ≡ ranks → posts.segments.own ≡ own.now → result ≡ register_result limits posts call.now }
{
    if call.rank >= u64::from(ranks) {
        return Err(Refusal::BadRank);
    }
    extent_in(own, call.seg).ok_or(Refusal::NoSegment)?;
    Ok(Some(Reply::Done))
}

/// What a rank gets by a `register`, to know a segment of another rank.
#[derive(Clone, Copy, Debug, PartialEq, Eq)]
pub struct Registration {
    /// The rank whose segment it is.
    pub owner: RankId,
    /// The id of the segment.
    pub seg: u64,
    /// Its generation and size; None where the owner has no such segment.
    pub extent: Option<Extent>,
}

/// The registration of an own segment of `me`, with its present extent. (GASPI: segment_register)
pub fn registration_of(me: RankId, own: &Extents, call: &Register) -> Registration
    ensures { result ≡ record { owner = me; seg = call.now.seg; extent = extent_in own.now call.now.seg } }
{
    Registration {
        owner: me,
        seg: call.seg,
        extent: extent_in(own, call.seg),
    }
}

/// Makes the segment of a registration known in the posts of the rank that gets the registration.
pub fn set_known_extent(posts: &mut Posts, registration: Registration)
    ensures { posts.new ≡ with_known registration.owner registration.seg registration.extent posts.old }
{
    set_known(
        &mut posts.segments,
        registration.owner,
        registration.seg,
        registration.extent,
    );
}

/// Whether a queue has an entry that uses an own segment.
fn queue_uses(q: &Queue, seg: u64) -> bool
    ensures { result ≡ list_any (has_user seg) q.now.lanes }
{
    q.lanes.as_slice().iter().any(|lane| has_user(seg, lane))
}

/// The least queue with an entry that uses an own segment; None where no queue has one.
fn user_of(queues: &Sequence<Queue>, seg: u64) -> Option<usize>
    ensures queue { result ≡ user_of queues.now seg }
    ensures bound { IfSome result (λ queue. queue < length queues.now) }
{
    queues.as_slice().iter().position(|q| queue_uses(q, seg))
}

/// The result of a `delete`: `NoSegment`, `SegmentBusy` with the least queue that has an entry that uses the segment, or done.
/// (GASPI: segment_delete)
pub fn delete_result(posts: &Posts, call: &Delete) -> Result<Option<Reply>, Refusal>
    requires { length posts.now.queues ≤ 8 }
    ensures { result ≡ delete_result posts.now call.now }
{
    extent_in(&posts.segments.own, call.seg).ok_or(Refusal::NoSegment)?;
    match user_of(&posts.queues, call.seg) {
        Some(queue) => Err(Refusal::SegmentBusy {
            queue: queue as u32,
        }),
        None => Ok(Some(Reply::Done)),
    }
}

/// Removes an own segment from the table of segments, and its bytes and slots from memory. What other ranks know of the segment
/// stays. (GASPI: segment_delete)
pub fn delete_effect(posts: &mut Posts, memory: &mut Memory, call: &Delete)
    ensures posts { posts.new ≡ without_own posts.old call.now.seg }
    ensures memory { memory.new ≡ delete_effect memory.old call.now }
{
    remove_own(&mut posts.segments, call.seg);
    set_segment(memory, call.seg, None, None);
}
