//! The nodes that one event reaches, owned in boxes by the thread that holds their locks. `HeldNodes` has the same functions as
//! `Lent`: looks, reserved memory, and steps. But `Lent::room` gives a room, and `HeldNodes::reserve` fills one that is there, so that
//! it is not moved. A clause `kind` says that the other node is of the kind that it was (`IsSameKind`).

ghost use Rattle.std.specs.Prelude.{◌≡◌, ◌≤◌, ℕ, length, false, None, Some, IfOk, IsOk, OnOk};
ghost use Rattle.gaspi_types.specs.CallRows.{row_of};
ghost use Rattle.gaspi_types.specs.declared.events.Event.TheVariants.{Called, Joined};
ghost use Rattle.gaspi_types.specs.declared.events.Outcome.{Outcome};
ghost use Rattle.gaspi_types.specs.declared.replies.Ready.TheVariants.{NotReady};
ghost use Rattle.gaspi_model.specs.CollectiveCalls.{joining_call};
ghost use Rattle.gaspi_model.specs.Sound.{IsSound};
ghost use Rattle.gaspi_model.specs.Step.{answer_in, step, transfer_event};
ghost use Rattle.gaspi_model.specs.declared.states.State.{State};
ghost use Rattle.rank_node.specs.Collectives.{IsMadeFor, IsPendingFor};
ghost use Rattle.rank_node.specs.Fronts.{front_outcome, IsFront};
ghost use Rattle.rank_node.specs.HeldNodes.{peer_of, group_of, IsSameKind};
ghost use Rattle.rank_node.specs.Lending.{LendsFor, AreLentFor, MayStep, IsStepOn, IsLeft};
ghost use Rattle.rank_node.specs.Numbers.{elements_in, AnswerFits};
ghost use Rattle.rank_node.specs.Rooms.{empty_room, IsReservedFor, IsReservedForRecord, FitsReserved};
ghost use Rattle.rank_node.specs.declared.rooms.Room.{Room};
ghost use Rattle.rank_node.specs.TransferSteps.{MayTake, MayPut, IsFirstPosted, IsFirstCarried, LendsForTransfer, lent_memory};
ghost use Rattle.rank_node.specs.Transfers.{take_of, put_of, event_of};

use crate::collective_completions::{complete, refuse};
use crate::collective_joins::{FoundJoin, join};
use crate::collective_looks::{look, look_again, look_nowhere};
use crate::lent_plain::{answer_alone, answer_between, called_alone, called_between};
use crate::lent_transfers::{front_outcome, put_alone, put_between, take_alone, take_between};
use crate::making::MadeSegment;
use crate::nodes::{GroupNode, Node};
use crate::reserved_numbers::ReservedNumbers;
use crate::rooms::{Room, reserve};
use gaspi_types::{
    Args, Call, CallerId, GroupId, Invocation, NoMemory, Outcome, Ready, Reply, ThreadId, Transfer,
};
use std::alloc::Global;
use std::boxed::Box;

/// The nodes that an event reaches, owned by the thread that holds their locks.
#[derive(Drop)]
pub struct HeldNodes {
    /// The node of the event's owner.
    pub own: Box<Node>,
    /// The node that the event reaches beside that, if any.
    pub other: OtherNode,
}

/// The node that an event reaches beside that of its owner.
#[derive(Drop)]
pub enum OtherNode {
    /// The event reaches none.
    Nothing,
    /// The node of a peer.
    Rank(Box<Node>),
    /// The node of a group.
    Group(Box<GroupNode>),
}

impl HeldNodes {
    /// The answer to a call of a thread of the own rank: its reply, that it may join, or that it is not ready. The memory that
    /// `reserve` takes for the call is enough for a second, equal reply (clause `fits`). It takes memory only where the call's row says
    /// so, and none where the call is not ready. The nodes do not change.
    pub fn answer(&self, alloc: Global, invocation: &Invocation<'_>) -> Result<Ready, NoMemory>
        requires lent { AreLentFor invocation.now.call.now self.now.own.value (peer_of self.now.other) (group_of self.now.other) }
        ensures answer { (s : State) → IsSound s → LendsFor s invocation.now.call.now self.now.own.value (peer_of self.now.other) (group_of self.now.other)
            → IfOk result (λ ready. answer_in s self.now.own.value.posts.me invocation.now.caller.thread invocation.now.call.now ≡ Some ready) }
        ensures ample { (row_of invocation.now.call.now).takes_memory ≡ false → IsOk result }
        ensures unready { (s : State) → IsSound s → LendsFor s invocation.now.call.now self.now.own.value (peer_of self.now.other) (group_of self.now.other)
            → answer_in s self.now.own.value.posts.me invocation.now.caller.thread invocation.now.call.now ≡ Some NotReady → IsOk result }
        ensures fits { (room : Room) → IsReservedFor self.now.own.value.posts self.now.own.value.memory invocation.now.call.now room → IfOk result (λ ready. FitsReserved ready room) }
    {
        match invocation.row.group {
            Some(id) => {
                self.answer_collective(alloc, invocation.caller.thread, id, invocation.call)
            }
            None => match &self.other {
                OtherNode::Rank(peer) => answer_between(alloc, &self.own, peer, invocation),
                OtherNode::Nothing | OtherNode::Group(_) => {
                    answer_alone(alloc, &self.own, invocation)
                }
            },
        }
    }

    /// The answer to a collective of a thread on group `id`. Its reply or its arguments have no more numbers than the call has
    /// elements (clause `fits`). It takes memory only where the call's row says so, and none where the call is not ready.
    /// (GASPI: collectives)
    fn answer_collective(
        &self,
        alloc: Global,
        thread: ThreadId,
        id: u64,
        call: &Call,
    ) -> Result<Ready, NoMemory>
        requires named { (row_of call.now).group ≡ Some id }
        requires lent { AreLentFor call.now self.now.own.value (peer_of self.now.other) (group_of self.now.other) }
        ensures answer { (s : State) → IsSound s → LendsFor s call.now self.now.own.value (peer_of self.now.other) (group_of self.now.other)
            → IfOk result (λ ready. answer_in s self.now.own.value.posts.me thread call.now ≡ Some ready) }
        ensures fits { IfOk result (λ ready. AnswerFits ready (elements_in call.now)) }
        ensures ample { (row_of call.now).takes_memory ≡ false → IsOk result }
        ensures unready { (s : State) → IsSound s → LendsFor s call.now self.now.own.value (peer_of self.now.other) (group_of self.now.other)
            → answer_in s self.now.own.value.posts.me thread call.now ≡ Some NotReady → IsOk result }
    {
        match &self.other {
            OtherNode::Group(group) => look(alloc, &self.own.posts, group, thread, id, call),
            OtherNode::Nothing | OtherNode::Rank(_) => {
                Ok(look_nowhere(&self.own.posts, thread, id, call))
            }
        }
    }

    /// Takes the memory that the record of a call needs, into its room, in which nothing is reserved yet. A call whose row says that it
    /// takes none takes none. The nodes do not change.
    pub fn reserve(
        &self,
        alloc: Global,
        invocation: &Invocation<'_>,
        room: &mut Room,
    ) -> Result<(), NoMemory>
        requires lent { AreLentFor invocation.now.call.now self.now.own.value (peer_of self.now.other) (group_of self.now.other) }
        requires empty { room.old ≡ empty_room (row_of invocation.now.call.now) }
        ensures room { OnOk result (IsReservedFor self.now.own.value.posts self.now.own.value.memory invocation.now.call.now room.new) }
        ensures ample { (row_of invocation.now.call.now).takes_memory ≡ false → IsOk result }
    {
        reserve(alloc, &self.own.posts, &self.own.memory, invocation, room)
    }

    /// The answer to a collective of a caller after its join, in reserved memory. The collective is pending for the caller. The
    /// numbers of a reply use the list for the event, and fit that for the caller; where the call is not ready, `room` stays as it
    /// is. It takes no memory. (GASPI: timeouts)
    pub fn answer_in(&self, caller: CallerId, call: &Call, room: &mut ReservedNumbers) -> Ready
        requires own { caller.rank ≡ self.now.own.value.posts.me }
        requires lent { AreLentFor call.now self.now.own.value (peer_of self.now.other) (group_of self.now.other) }
        requires pending { (id : ℕ) × IsPendingFor self.now.own.value.posts caller.thread id call.now }
        requires event { elements_in call.now ≤ room.old.event }
        requires caller { room.old.event ≤ room.old.caller }
        ensures answer { (s : State) → IsSound s → LendsFor s call.now self.now.own.value (peer_of self.now.other) (group_of self.now.other)
            → answer_in s self.now.own.value.posts.me caller.thread call.now ≡ Some result }
        ensures fits { AnswerFits result room.new.caller }
        ensures kept { result ≡ NotReady → room.new ≡ room.old }
    {
        match &self.other {
            OtherNode::Group(group) => look_again(group, caller.rank, call, room),
            OtherNode::Nothing | OtherNode::Rank(_) => unreachable!(),
        }
    }

    /// Makes the step by a call with its reply, recorded at `place` in the owner's rank journal. `room` is the memory that was
    /// reserved for this call on these nodes; of a collective its row alone is used. It takes no memory.
    pub fn called(
        &mut self,
        place: u64,
        caller: CallerId,
        call: Call,
        reply: Reply,
        room: &mut Room,
    )
        requires step { MayStep (Called caller call reply) self.old.own.value (peer_of self.old.other) (group_of self.old.other) }
        requires row { room.old.row ≡ row_of call }
        requires room { (row_of call).group ≡ None → IsReservedForRecord self.old.own.value.posts self.old.own.value.memory call room.old }
        ensures left { (s t : State) → IsStepOn s t (Called caller call reply) self.old.own.value (peer_of self.old.other) (group_of self.old.other)
            → IsLeft s t (Called caller call reply) place self.old.own.value self.new.own.value (peer_of self.old.other) (peer_of self.new.other) (group_of self.new.other) }
        ensures kind { IsSameKind self.new.other self.old.other }
    {
        match room.row.group {
            Some(id) => self.complete(place, caller, id, call, reply),
            None => match &mut self.other {
                OtherNode::Rank(peer) => {
                    called_between(&mut self.own, peer, place, caller, call, reply, room)
                }
                _ => called_alone(&mut self.own, place, caller, call, reply, room),
            },
        }
    }

    /// Makes the step by a collective on group `id` with its reply, recorded at `place`. It takes no memory.
    /// (GASPI: collectives, timeouts)
    fn complete(&mut self, place: u64, caller: CallerId, id: u64, call: Call, reply: Reply)
        requires own { caller.rank ≡ self.old.own.value.posts.me }
        requires named { (row_of call).group ≡ Some id }
        requires step { MayStep (Called caller call reply) self.old.own.value (peer_of self.old.other) (group_of self.old.other) }
        ensures left { (s t : State) → IsStepOn s t (Called caller call reply) self.old.own.value (peer_of self.old.other) (group_of self.old.other)
            → IsLeft s t (Called caller call reply) place self.old.own.value self.new.own.value (peer_of self.old.other) (peer_of self.new.other) (group_of self.new.other) }
        ensures kind { IsSameKind self.new.other self.old.other }
    {
        match &mut self.other {
            OtherNode::Group(group) => complete(
                &mut self.own,
                group,
                place,
                caller,
                GroupId::of(id as u32),
                call,
                reply,
            ),
            _ => refuse(&mut self.own, place, caller, call, reply),
        }
    }

    /// Makes the step by the join of a collective, recorded at `place`. The segment of a create was made before, in `made`, and
    /// `room` has a list for its values. The collective is pending for the caller then. It takes no memory.
    /// (GASPI: collectives, segment_create)
    pub fn joined(
        &mut self,
        place: u64,
        caller: CallerId,
        group: GroupId,
        args: Args,
        room: &mut ReservedNumbers,
        made: Option<MadeSegment>,
    )
        requires own { caller.rank ≡ self.old.own.value.posts.me }
        requires step { MayStep (Joined caller group args) self.old.own.value (peer_of self.old.other) (group_of self.old.other) }
        requires capacity { length args.values.items ≤ room.old.values }
        requires made { IsMadeFor self.old.own.value.posts args.coll made }
        ensures left { (s t : State) → IsStepOn s t (Joined caller group args) self.old.own.value (peer_of self.old.other) (group_of self.old.other)
            → IsLeft s t (Joined caller group args) place self.old.own.value self.new.own.value (peer_of self.old.other) (peer_of self.new.other) (group_of self.new.other) }
        ensures kind { IsSameKind self.new.other self.old.other }
        ensures pending { IsPendingFor self.new.own.value.posts caller.thread group (joining_call group args) }
        ensures event { room.new.event ≡ room.old.event }
        ensures caller { room.new.caller ≡ room.old.caller }
    {
        match &mut self.other {
            OtherNode::Group(node) => {
                let found = FoundJoin {
                    caller,
                    group,
                    args,
                    made,
                };
                join(&mut self.own, node, place, found, room)
            }
            OtherNode::Nothing | OtherNode::Rank(_) => unreachable!(),
        }
    }

    /// The outcome of a transfer that is the front of its lane: with this outcome it is a step of the machine, in each sound state
    /// of which the nodes are lent for it. The nodes do not change. (GASPI: state vector)
    pub fn outcome(&self, t: &Transfer) -> Outcome
        requires { IsFront self.now.own.value.posts t.now }
        ensures value { front_outcome self.now.own.value.posts (lent_memory self.now.own.value (peer_of self.now.other)) t.now ≡ Some result }
        ensures machine { (s : State) → IsSound s → LendsForTransfer s t.now self.now.own.value (peer_of self.now.other) (group_of self.now.other)
            → (event_of t.now result ≡ transfer_event s t.now) × IsOk (step s (event_of t.now result)) }
    {
        match &self.other {
            OtherNode::Rank(peer) => front_outcome(&self.own.posts, &peer.memory, t),
            OtherNode::Nothing | OtherNode::Group(_) => {
                front_outcome(&self.own.posts, &self.own.memory, t)
            }
        }
    }

    /// Makes the step by the take of the first posted entry of a lane, with its outcome, recorded at `place`. It takes no memory.
    pub fn take(&mut self, place: u64, t: Transfer)
        requires { MayTake self.old.own.value (peer_of self.old.other) (group_of self.old.other) t }
        ensures kind { IsSameKind self.new.other self.old.other }
        ensures group_kept { group_of self.new.other ≡ group_of self.old.other }
        ensures left { (s after : State) (outcome : Outcome) → IsStepOn s after (take_of t outcome) self.old.own.value (peer_of self.old.other) (group_of self.old.other)
            → IsFirstPosted self.old.own.value.posts t
            → IsLeft s after (take_of t outcome) place self.old.own.value self.new.own.value (peer_of self.old.other) (peer_of self.new.other) (group_of self.new.other) }
    {
        match &mut self.other {
            OtherNode::Rank(peer) => take_between(&mut self.own, peer, place, t),
            _ => take_alone(&mut self.own, place, t),
        }
    }

    /// Makes the step by the put of the first carried entry of a lane, with its outcome, recorded at `place`. It takes no memory.
    pub fn put(&mut self, place: u64, t: Transfer)
        requires { MayPut self.old.own.value (peer_of self.old.other) (group_of self.old.other) t }
        ensures kind { IsSameKind self.new.other self.old.other }
        ensures group_kept { group_of self.new.other ≡ group_of self.old.other }
        ensures left { (s after : State) (outcome : Outcome) → IsStepOn s after (put_of t outcome) self.old.own.value (peer_of self.old.other) (group_of self.old.other)
            → IsFirstCarried self.old.own.value.posts t
            → IsLeft s after (put_of t outcome) place self.old.own.value self.new.own.value (peer_of self.old.other) (peer_of self.new.other) (group_of self.new.other) }
    {
        match &mut self.other {
            OtherNode::Rank(peer) => put_between(&mut self.own, peer, place, t),
            _ => put_alone(&mut self.own, place, t),
        }
    }
}
