//! Makes the step by any event on the whole state, in place: the ranks, their memories and the nonempty lanes (`standing`). Calls
//! and joins go to `looking`; takes and puts are here. A *given* outcome is that of the event; without one the machine's outcome is
//! used. After each function the stored used room is right (clause `used`), and so is the list of nonempty lanes (clause `named`).

ghost use Rattle.std.specs.Prelude.{◌≡◌, ◌≢◌, ◌<◌, ℕ, List, length, map, IfOk, Err, true, false};
ghost use Rattle.gaspi_types.specs.declared.events.Event.TheVariants.{Take, Put};
ghost use Rattle.gaspi_types.specs.declared.footprints.Footprint.TheVariants.{PeerMemory, BothMemories};
ghost use Rattle.gaspi_model.specs.Step.{Steps, transfer_event};
ghost use Rattle.gaspi_model.specs.declared.states.Memory.{Memory};
ghost use Rattle.plain_calls.specs.Looks.{made_of};
ghost use Rattle.plain_calls.specs.Memory.{takes_memory};
ghost use Rattle.plain_machine.specs.Machine.{IsStateOf, IsMachine, StepsBy, state_in, used_room_of, take_event, put_event};
ghost use Rattle.plain_machine.specs.Entries.{found_at, outcome_in_memories, memories_after_put, released_by_take};
ghost use Rattle.plain_machine.specs.NonemptyLanes.{nonempty_lanes};

use crate::footprints::{accessed_memory, empty_memory};
use crate::looking::{step_called, step_joined};
use crate::nonempty_lanes::{LaneId, has_entry, remove_lane};
use crate::ranks::RankTables;
use crate::transfers::{LaneEntry, find_entry, put_bytes, set_put, set_take, take_bytes};
use gaspi_model::{Memory, StepFault, Why};
use gaspi_types::{Event, Footprint, Invocation, Outcome, RankId, Sequence, Transfer};
use plain_calls::Joining;
use std::alloc::Global;

/// Gives back one event of a rank's used room where its take failed: the put will not come.
fn release(rooms: &mut Sequence<u32>, rank: usize, outcome: Outcome)
    ensures { rooms.new ≡ released_by_take rooms.old rank outcome }
{
    if matches!(outcome, Outcome::Failed) && rank < rooms.len() {
        let room = rooms.at_mut(rank);
        *room = room.saturating_sub(1);
    }
}

/// Makes the step by a take, with the given outcome or else the machine's, and gives the outcome. Where the take is no step, its
/// cause is given and nothing changes; where memory runs out, nothing changes.
fn step_take(
    ranks: &mut RankTables,
    memories: &Sequence<Memory>,
    alloc: Global,
    id: &LaneId,
    number: u32,
    given: Option<Outcome>,
) -> Result<Outcome, StepFault>
    requires { IsStateOf ranks.old memories.now }
    ensures outcome { IfOk result (λ outcome. take_event (state_in ranks.old memories.now) id.now number given ≡ Take id.now.origin id.now.queue id.now.target number outcome) }
    ensures step { StepsBy (made_of result) (state_in ranks.old memories.now) (state_in ranks.new memories.now) (take_event (state_in ranks.old memories.now) id.now number given) }
    ensures used { ranks.new.used ≡ map used_room_of ranks.new.posts }
{
    let rank = id.origin.index();
    if rank >= ranks.posts.len() {
        return Err(StepFault::Illegal(Why::Take));
    }
    let at = match find_entry(ranks.posts.at(rank), id, number, Why::Take) {
        Ok(at) => at,
        Err(why) => return Err(StepFault::Illegal(why)),
    };
    let none = empty_memory(alloc);
    let footprint = at
        .entry
        .kind
        .take_footprint(id.target)
        .footprint(ranks.limits.ranks, id.origin);
    let memory = accessed_memory(memories, &none, id.origin, &footprint);
    match take_bytes(alloc, &ranks.limits, memory, &at, given) {
        Ok(taken) => {
            let outcome = taken.outcome();
            let place = at.position;
            set_take(ranks.posts.at_mut(rank), id, place, taken);
            release(&mut ranks.used, rank, outcome);
            Ok(outcome)
        }
        Err(fault) => Err(fault),
    }
}

/// Makes the put of an entry that was found, on the memory that its footprint has, with the given outcome or else the machine's, and
/// gives the outcome. Where the put may not come, its cause is given and nothing changes. The posts do not change. It takes no
/// memory.
fn put_at(
    memories: &mut Sequence<Memory>,
    alloc: Global,
    me: RankId,
    footprint: Footprint,
    at: &LaneEntry<'_>,
    given: Option<Outcome>,
) -> Result<Outcome, StepFault>
    requires own { me < length memories.old }
    requires peer { (rank : ℕ) → footprint ≡ PeerMemory rank → rank < length memories.old }
    requires both { (rank : ℕ) → footprint ≡ BothMemories rank → rank < length memories.old }
    ensures outcome { IfOk result (λ outcome. outcome ≡ outcome_in_memories given memories.old me footprint (found_at at.now)) }
    ensures step { Steps {S = List Memory} (made_of result) memories.old memories.new (memories_after_put memories.old me footprint (found_at at.now) (outcome_in_memories given memories.old me footprint (found_at at.now))) }
    ensures ample { result ≢ Err StepFault.NoMemory }
{
    match footprint {
        Footprint::OwnMemory => put_bytes(memories.at_mut(me.index()), at, given),
        Footprint::PeerMemory(peer) => put_bytes(memories.at_mut(peer.index()), at, given),
        Footprint::BothMemories(peer) => put_bytes(memories.at_mut(peer.index()), at, given),
        Footprint::GroupAndMemory(_) => put_bytes(memories.at_mut(me.index()), at, given),
        Footprint::Alone | Footprint::PeerPosts(_) | Footprint::Group(_) => {
            let mut none = empty_memory(alloc);
            put_bytes(&mut none, at, given)
        }
    }
}

/// Makes the step by a put, with the given outcome or else the machine's, and gives the outcome. Where the put is no step, its cause
/// is given and nothing changes. The nonempty lanes are not changed here. It takes no memory.
fn step_put(
    ranks: &mut RankTables,
    memories: &mut Sequence<Memory>,
    alloc: Global,
    id: &LaneId,
    number: u32,
    given: Option<Outcome>,
) -> Result<Outcome, StepFault>
    requires { IsStateOf ranks.old memories.old }
    ensures outcome { IfOk result (λ outcome. put_event (state_in ranks.old memories.old) id.now number given ≡ Put id.now.origin id.now.queue id.now.target number outcome) }
    ensures step { StepsBy (made_of result) (state_in ranks.old memories.old) (state_in ranks.new memories.new) (put_event (state_in ranks.old memories.old) id.now number given) }
    ensures used { ranks.new.used ≡ map used_room_of ranks.new.posts }
    ensures ample { result ≢ Err StepFault.NoMemory }
{
    let rank = id.origin.index();
    if rank >= ranks.posts.len() {
        return Err(StepFault::Illegal(Why::Put));
    }
    let at = match find_entry(ranks.posts.at(rank), id, number, Why::Put) {
        Ok(at) => at,
        Err(why) => return Err(StepFault::Illegal(why)),
    };
    let footprint = at
        .entry
        .kind
        .put_footprint(id.target)
        .footprint(ranks.limits.ranks, id.origin);
    match put_at(memories, alloc, id.origin, footprint, &at, given) {
        Ok(outcome) => {
            let place = at.position;
            set_put(ranks.posts.at_mut(rank), id, place, outcome);
            Ok(outcome)
        }
        Err(fault) => Err(fault),
    }
}

/// As `step_put`, and removes the lane from the nonempty lanes where the entry that left it was its last.
fn step_leaving(
    ranks: &mut RankTables,
    memories: &mut Sequence<Memory>,
    standing: &mut Vec<LaneId>,
    alloc: Global,
    id: &LaneId,
    number: u32,
    given: Option<Outcome>,
) -> Result<Outcome, StepFault>
    requires { IsMachine (state_in ranks.old memories.old) ranks.old.used standing.old.items }
    ensures outcome { IfOk result (λ outcome. put_event (state_in ranks.old memories.old) id.now number given ≡ Put id.now.origin id.now.queue id.now.target number outcome) }
    ensures step { StepsBy (made_of result) (state_in ranks.old memories.old) (state_in ranks.new memories.new) (put_event (state_in ranks.old memories.old) id.now number given) }
    ensures used { ranks.new.used ≡ map used_room_of ranks.new.posts }
    ensures named { standing.new.items ≡ nonempty_lanes ranks.new.posts }
    ensures ample { result ≢ Err StepFault.NoMemory }
{
    let outcome = step_put(ranks, memories, alloc, id, number, given)?;
    if !has_entry(&ranks.posts, id) {
        remove_lane(standing, id);
    }
    Ok(outcome)
}

/// Makes the step by an event. Where it is no step, its cause is given and nothing changes; where memory runs out, nothing changes.
pub fn step(
    ranks: &mut RankTables,
    memories: &mut Sequence<Memory>,
    standing: &mut Vec<LaneId>,
    alloc: Global,
    event: &Event,
) -> Result<(), StepFault>
    requires { IsMachine (state_in ranks.old memories.old) ranks.old.used standing.old.items }
    ensures step { StepsBy result (state_in ranks.old memories.old) (state_in ranks.new memories.new) event.now }
    ensures used { ranks.new.used ≡ map used_room_of ranks.new.posts }
    ensures named { standing.new.items ≡ nonempty_lanes ranks.new.posts }
    ensures ample { takes_memory event.now ≡ false → result ≢ Err StepFault.NoMemory }
{
    match event {
        Event::Called(caller, call, reply) => {
            let invocation = Invocation::new(*caller, call);
            step_called(ranks, memories, standing, alloc, &invocation, reply)
        }
        Event::Joined(caller, id, args) => {
            let joining = Joining {
                caller: *caller,
                group: *id,
                args,
            };
            step_joined(ranks, memories, alloc, &joining)
        }
        Event::Take(origin, queue, target, number, outcome) => {
            let id = LaneId {
                origin: *origin,
                queue: *queue,
                target: *target,
            };
            let given = Some(*outcome);
            step_take(ranks, memories, alloc, &id, *number, given)?;
            Ok(())
        }
        Event::Put(origin, queue, target, number, outcome) => {
            let id = LaneId {
                origin: *origin,
                queue: *queue,
                target: *target,
            };
            let given = Some(*outcome);
            step_leaving(ranks, memories, standing, alloc, &id, *number, given)?;
            Ok(())
        }
    }
}

/// Makes the step by a transfer, with the machine's outcome, and gives the event. Where it is no step, its cause is given and
/// nothing changes; where memory runs out, nothing changes.
pub fn make(
    ranks: &mut RankTables,
    memories: &mut Sequence<Memory>,
    standing: &mut Vec<LaneId>,
    alloc: Global,
    transfer: &Transfer,
) -> Result<Event, StepFault>
    requires { IsMachine (state_in ranks.old memories.old) ranks.old.used standing.old.items }
    ensures event { IfOk result (λ event. event ≡ transfer_event (state_in ranks.old memories.old) transfer.now) }
    ensures step { StepsBy (made_of result) (state_in ranks.old memories.old) (state_in ranks.new memories.new) (transfer_event (state_in ranks.old memories.old) transfer.now) }
    ensures used { ranks.new.used ≡ map used_room_of ranks.new.posts }
    ensures named { standing.new.items ≡ nonempty_lanes ranks.new.posts }
    ensures ample { transfer.now.put ≡ true → result ≢ Err StepFault.NoMemory }
{
    let id = LaneId {
        origin: transfer.origin,
        queue: transfer.queue,
        target: transfer.target,
    };
    let number = transfer.number;
    if transfer.put {
        let outcome = step_leaving(ranks, memories, standing, alloc, &id, number, None)?;
        return Ok(Event::Put(id.origin, id.queue, id.target, number, outcome));
    }
    let outcome = step_take(ranks, memories, alloc, &id, number, None)?;
    Ok(Event::Take(id.origin, id.queue, id.target, number, outcome))
}
