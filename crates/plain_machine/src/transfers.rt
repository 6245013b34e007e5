//! The take and the put of one entry: to find the entry, to judge its transfer with the memory that it works on, and to change the
//! posts of its origin. `steps` makes whole steps from these. A position is the index of an entry in its lane; so is `place` here. A
//! *given* outcome is that of an event to be judged; without one the machine's outcome is used.
//! (GASPI: one-sided communication, notification order)

ghost use Rattle.std.specs.Prelude.{◌≡◌, ◌≢◌, ◌+◌, ◌<◌, ◌^◌, IfOk, Err};
ghost use Rattle.std.specs.Option.{unwrap_or};
ghost use Rattle.gaspi_model.specs.Transfers.{same_outcome, find_entry, lane_phase, queue_phase, posts_phase, outcome_at, take_outcome, put_outcome, source_bytes, take_result, carried_bytes, memory_put, memory_after_put, queue_without, posts_without, queue_failed, posts_failed, posts_after_put};
ghost use Rattle.gaspi_model.specs.Step.{Steps};
ghost use Rattle.plain_calls.specs.Looks.{made_of};
ghost use Rattle.gaspi_model.specs.declared.states.Memory.{Memory};
ghost use Rattle.plain_machine.specs.Entries.{Finds, IsTakeResult, found_at, take_result_outcome, posts_after_take_result};

use crate::nonempty_lanes::LaneId;
use gaspi_model::{Memory, Posts, StepFault, Why};
use gaspi_types::{
    Bytes, Destination, Entry, Kind, Limits, NoMemory, Outcome, Phase, Queue, RankId, Sequence,
};
use plain_calls::{bytes_of, may_put, may_take, position_of, segment_at, set_slot};
use segment_store::{is_generation, range_of, store_bytes};
use std::alloc::Global;

/// An entry that was found in the posts of its origin.
#[derive(Drop)]
pub struct LaneEntry<'a> {
    /// Its queue.
    pub queue: &'a Queue,
    /// Its lane.
    pub lane: &'a Sequence<Entry>,
    /// Its position in the lane.
    pub position: usize,
    /// The entry itself.
    pub entry: &'a Entry,
}

/// The entry of a lane with a number. Where there is none, `why` is given back as the cause.
pub fn find_entry<'a>(
    posts: &'a Posts,
    id: &LaneId,
    number: u32,
    why: Why,
) -> Result<LaneEntry<'a>, Why>
    ensures { Finds result (find_entry posts.now id.now.queue id.now.target number why) }
{
    let queue = posts.queues.get(id.queue.index()).ok_or(why)?;
    let lane = queue.lanes.get(id.target.index()).ok_or(why)?;
    let place = position_of(lane, number).ok_or(why)?;
    let entry = lane.get(place).ok_or(why)?;
    Ok(LaneEntry {
        queue,
        lane,
        position: place,
        entry,
    })
}

/// Whether two outcomes are the same.
fn same_outcome(a: Outcome, b: Outcome) -> bool
    ensures { result ≡ same_outcome a b }
{
    matches!(
        (a, b),
        (Outcome::Applied, Outcome::Applied) | (Outcome::Failed, Outcome::Failed)
    )
}

/// The outcome of a transfer that needs a segment of this generation: failed where the segment is gone. (GASPI: state vector)
fn outcome_at(memory: &Memory, segment: u32, generation: u32) -> Outcome
    ensures { result ≡ outcome_at memory.now segment generation }
{
    if is_generation(generation, segment_at(memory, u64::from(segment))) {
        Outcome::Applied
    } else {
        Outcome::Failed
    }
}

/// The outcome of the take of an entry of this kind from this memory: a read fails where the target's segment of its generation is
/// gone. (GASPI: state vector)
fn take_outcome(memory: &Memory, kind: &Kind) -> Outcome
    ensures { result ≡ take_outcome memory.now kind.now }
{
    match kind {
        Kind::Read { own: _, target } => outcome_at(memory, target.segment, target.generation),
        Kind::Write { .. } | Kind::Notify { .. } | Kind::ReadNote { .. } => Outcome::Applied,
    }
}

/// The outcome of the put of an entry of this kind into this memory: a write or a notification fails where the target's segment of
/// its generation is gone. (GASPI: state vector)
fn put_outcome(memory: &Memory, kind: &Kind) -> Outcome
    ensures { result ≡ put_outcome memory.now kind.now }
{
    match kind {
        Kind::Write { own: _, target } => outcome_at(memory, target.segment, target.generation),
        Kind::Notify { target, value: _ } => {
            outcome_at(memory, target.segment, target.generation)
        }
        Kind::Read { .. } | Kind::ReadNote { .. } => Outcome::Applied,
    }
}

/// A copy of the bytes that the take of an entry of this kind copies; none for a notification.
fn source_bytes(alloc: Global, memory: &Memory, kind: &Kind) -> Result<Bytes, NoMemory>
    ensures { IfOk result (λ bytes. bytes ≡ source_bytes memory.now kind.now) }
{
    match kind.source() {
        Some(range) => {
            let bytes = bytes_of(memory, u64::from(range.segment));
            Sequence::copied_from(
                alloc,
                range_of(bytes, range.offset as usize, range.size as usize),
            )
        }
        None => Ok(Sequence::new(alloc)),
    }
}

/// Gives an entry of a lane a phase. Where there is no such entry nothing changes.
fn set_lane_phase(lane: &mut Sequence<Entry>, place: usize, phase: Phase)
    ensures { lane.new ≡ lane_phase lane.old place phase }
{
    if place < lane.len() {
        lane.at_mut(place).phase = phase;
    }
}

/// Gives an entry of a queue a phase.
fn set_queue_phase(q: &mut Queue, target: RankId, place: usize, phase: Phase)
    ensures { q.new ≡ queue_phase target place phase q.old }
{
    let lane = target.index();
    if lane < q.lanes.len() {
        set_lane_phase(q.lanes.at_mut(lane), place, phase);
    }
}

/// Gives an entry of a rank a phase. The count of events stays.
fn set_phase(posts: &mut Posts, id: &LaneId, place: usize, phase: Phase)
    ensures { posts.new ≡ posts_phase posts.old id.now.queue id.now.target place phase }
{
    let q = id.queue.index();
    if q < posts.queues.len() {
        set_queue_phase(posts.queues.at_mut(q), id.target, place, phase);
    }
}

/// Makes an entry of a queue failed, which stays in its place, and breaks the queue.
fn fail_queue_entry(q: &mut Queue, target: RankId, place: usize)
    ensures { q.new ≡ queue_failed target place q.old }
{
    set_queue_phase(q, target, place, Phase::Failed);
    q.broken = Some(target);
}

/// Makes an entry failed, breaks its queue, and makes its target corrupt. The count of events stays. (GASPI: state vector)
fn fail_entry(posts: &mut Posts, id: &LaneId, place: usize)
    ensures { posts.new ≡ posts_failed posts.old id.now.queue id.now.target place }
{
    let q = id.queue.index();
    if q < posts.queues.len() {
        fail_queue_entry(posts.queues.at_mut(q), id.target, place);
    }
    let rank = id.target.index();
    if rank < posts.corrupt.len() {
        *posts.corrupt.at_mut(rank) = true;
    }
}

/// Removes an entry from a lane of a queue.
fn remove_queue_entry(q: &mut Queue, target: RankId, place: usize)
    ensures { q.new ≡ queue_without target place q.old }
{
    let lane = target.index();
    if lane < q.lanes.len() {
        let entries = q.lanes.at_mut(lane);
        if place < entries.len() {
            let _entry = entries.remove(place);
        }
    }
}

/// Removes an entry from its lane. The count of events stays.
fn remove_entry(posts: &mut Posts, id: &LaneId, place: usize)
    ensures { posts.new ≡ posts_without posts.old id.now.queue id.now.target place }
{
    let q = id.queue.index();
    if q < posts.queues.len() {
        remove_queue_entry(posts.queues.at_mut(q), id.target, place);
    }
}

/// What the take of an entry gives.
#[derive(Debug, Drop)]
pub enum TakeResult {
    /// The bytes that the entry takes.
    Bytes(Bytes),
    /// The take has failed.
    Failed,
}

impl TakeResult {
    /// The outcome of the take.
    pub fn outcome(&self) -> Outcome
        ensures { result ≡ take_result_outcome self.now }
    {
        match self {
            TakeResult::Bytes(_) => Outcome::Applied,
            TakeResult::Failed => Outcome::Failed,
        }
    }
}

/// What the take of an entry that was found gives; the posts do not change. The take is enabled (the entry is posted, its queue is
/// not broken, and fewer than the depth entries of its lane are carried), and a given outcome is the machine's; else the cause is
/// `Take`.
pub fn take_bytes(
    alloc: Global,
    limits: &Limits,
    memory: &Memory,
    at: &LaneEntry<'_>,
    given: Option<Outcome>,
) -> Result<TakeResult, StepFault>
    ensures outcome { IfOk result (λ taken. take_result_outcome taken ≡ unwrap_or given (take_outcome memory.now (found_at at.now).entry.kind)) }
    ensures bytes { IsTakeResult result (take_result limits.now memory.now (found_at at.now) (unwrap_or given (take_outcome memory.now (found_at at.now).entry.kind))) }
{
    let fitting = take_outcome(memory, &at.entry.kind);
    let outcome = given.unwrap_or(fitting);
    if at.queue.broken.is_some()
        || !may_take(limits.depth, at.lane, at.entry)
        || !same_outcome(outcome, fitting)
    {
        return Err(StepFault::Illegal(Why::Take));
    }
    if matches!(outcome, Outcome::Failed) {
        return Ok(TakeResult::Failed);
    }
    match source_bytes(alloc, memory, &at.entry.kind) {
        Ok(bytes) => Ok(TakeResult::Bytes(bytes)),
        Err(NoMemory) => Err(StepFault::NoMemory),
    }
}

/// Makes the entry at a position carried with its bytes, or failed, and counts the event.
pub fn set_take(posts: &mut Posts, id: &LaneId, place: usize, taken: TakeResult)
    requires { posts.old.events + 1 < 2 ^ 32 }
    ensures { posts.new ≡ posts_after_take_result posts.old id.now.queue id.now.target place taken }
{
    match taken {
        TakeResult::Bytes(bytes) => set_phase(posts, id, place, Phase::Carried(bytes)),
        TakeResult::Failed => fail_entry(posts, id, place),
    }
    posts.events += 1;
}

/// The bytes of a carried entry; none of an entry of another phase.
fn carried_bytes(phase: &Phase) -> &[u8]
    ensures { result.now ≡ carried_bytes phase.now }
{
    match phase {
        Phase::Carried(bytes) => bytes.as_slice(),
        Phase::Posted | Phase::Failed => &[],
    }
}

/// Stores the bytes of a carried entry in its range, or sets its slot. The rest of the memory stays.
fn memory_put(memory: &mut Memory, entry: &Entry)
    ensures { memory.new ≡ memory_put memory.old entry.now }
{
    match entry.kind.destination() {
        Destination::Range(range) => store_bytes(
            &mut memory.segments,
            u64::from(range.segment),
            u64::from(range.offset),
            carried_bytes(&entry.phase),
        ),
        Destination::Slot(slot, value) => {
            set_slot(memory, u64::from(slot.segment), u64::from(slot.note), value);
        }
    }
}

/// Makes the put of an entry that was found, on the memory alone, and gives the outcome. The put is enabled (the entry is carried,
/// its queue is not broken, and a notification has no earlier write in the lane, the notification of a read no earlier read), and a
/// given outcome is the machine's; else the cause is `Put`, and nothing changes. It takes no memory.
pub fn put_bytes(
    memory: &mut Memory,
    at: &LaneEntry<'_>,
    given: Option<Outcome>,
) -> Result<Outcome, StepFault>
    ensures outcome { IfOk result (λ outcome. outcome ≡ unwrap_or given (put_outcome memory.old (found_at at.now).entry.kind)) }
    ensures step { Steps {S = Memory} (made_of result) memory.old memory.new (memory_after_put memory.old (found_at at.now) (unwrap_or given (put_outcome memory.old (found_at at.now).entry.kind))) }
    ensures ample { result ≢ Err StepFault.NoMemory }
{
    let fitting = put_outcome(memory, &at.entry.kind);
    let outcome = given.unwrap_or(fitting);
    if at.queue.broken.is_some() || !may_put(at.lane, at.entry) || !same_outcome(outcome, fitting) {
        return Err(StepFault::Illegal(Why::Put));
    }
    if matches!(outcome, Outcome::Applied) {
        memory_put(memory, at.entry);
    }
    Ok(outcome)
}

/// Removes the entry at a position from its lane, or makes it failed, and counts the event.
pub fn set_put(posts: &mut Posts, id: &LaneId, place: usize, outcome: Outcome)
    requires { posts.old.events + 1 < 2 ^ 32 }
    ensures { posts.new ≡ posts_after_put posts.old id.now.queue id.now.target place outcome }
{
    match outcome {
        Outcome::Applied => remove_entry(posts, id, place),
        Outcome::Failed => fail_entry(posts, id, place),
    }
    posts.events += 1;
}
