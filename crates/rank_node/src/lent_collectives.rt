//! The functions of `Lent` for collectives: their answers, joins and records. A group whose number is over 7 has no node. The
//! promises `own`, `peer` and `group` say that the same nodes are still lent. (GASPI: collectives, timeouts)

ghost use Rattle.std.specs.Prelude.{◌≡◌, ◌≤◌, ℕ, length, false, Option, None, Some, IfOk, IsOk};
ghost use Rattle.gaspi_types.specs.CallRows.{row_of};
ghost use Rattle.gaspi_types.specs.declared.events.Event.TheVariants.{Called, Joined};
ghost use Rattle.gaspi_types.specs.declared.replies.Ready.TheVariants.{NotReady};
ghost use Rattle.gaspi_model.specs.CollectiveCalls.{joining_call};
ghost use Rattle.gaspi_model.specs.Sound.{IsSound};
ghost use Rattle.gaspi_model.specs.Step.{answer_in};
ghost use Rattle.gaspi_model.specs.declared.states.State.{State};
ghost use Rattle.rank_node.specs.Collectives.{IsMadeFor, IsPendingFor};
ghost use Rattle.rank_node.specs.Lending.{behind, AreSame, LendsFor, AreLentFor, MayStep, IsStepOn, IsLeft};
ghost use Rattle.rank_node.specs.Numbers.{elements_in, AnswerFits};

use crate::collective_completions::{complete, refuse};
use crate::collective_joins::{FoundJoin, join};
use crate::collective_looks::{look, look_again, look_nowhere};
use crate::lent::Lent;
use crate::making::MadeSegment;
use crate::reserved_numbers::ReservedNumbers;
use gaspi_types::{Args, Call, CallerId, GroupId, NoMemory, Ready, Reply, ThreadId};
use std::alloc::Global;

impl Lent<'_> {
    /// The answer to a collective of a thread on group `id`. Its reply or its arguments have no more numbers than the call has
    /// elements (clause `fits`). It takes memory only where the call's row says so, and none where the call is not ready.
    /// (GASPI: collectives)
    pub(crate) fn answer_collective(
        &self,
        alloc: Global,
        thread: ThreadId,
        id: u64,
        call: &Call,
    ) -> Result<Ready, NoMemory>
        requires named { (row_of call.now).group ≡ Some id }
        requires lent { AreLentFor call.now self.now.own.now (behind self.now.peer) (behind self.now.group) }
        ensures answer { (s : State) → IsSound s → LendsFor s call.now self.now.own.now (behind self.now.peer) (behind self.now.group)
            → IfOk result (λ ready. answer_in s self.now.own.now.posts.me thread call.now ≡ Some ready) }
        ensures fits { IfOk result (λ ready. AnswerFits ready (elements_in call.now)) }
        ensures ample { (row_of call.now).takes_memory ≡ false → IsOk result }
        ensures unready { (s : State) → IsSound s → LendsFor s call.now self.now.own.now (behind self.now.peer) (behind self.now.group)
            → answer_in s self.now.own.now.posts.me thread call.now ≡ Some NotReady → IsOk result }
    {
        match &self.group {
            Some(group) => look(alloc, &self.own.posts, group, thread, id, call),
            None => Ok(look_nowhere(&self.own.posts, thread, id, call)),
        }
    }

    /// The answer to a collective of a caller after its join, in reserved memory. The collective is pending for the caller. The
    /// numbers of a reply use the list for the event, and fit that for the caller; where the call is not ready, `room` stays as it
    /// is. It takes no memory. (GASPI: timeouts)
    pub fn answer_in(&self, caller: CallerId, call: &Call, room: &mut ReservedNumbers) -> Ready
        requires own { caller.rank ≡ self.now.own.now.posts.me }
        requires lent { AreLentFor call.now self.now.own.now (behind self.now.peer) (behind self.now.group) }
        requires pending { (id : ℕ) × IsPendingFor self.now.own.now.posts caller.thread id call.now }
        requires event { elements_in call.now ≤ room.old.event }
        requires caller { room.old.event ≤ room.old.caller }
        ensures answer { (s : State) → IsSound s → LendsFor s call.now self.now.own.now (behind self.now.peer) (behind self.now.group)
            → answer_in s self.now.own.now.posts.me caller.thread call.now ≡ Some result }
        ensures fits { AnswerFits result room.new.caller }
        ensures kept { result ≡ NotReady → room.new ≡ room.old }
    {
        match &self.group {
            Some(group) => look_again(group, caller.rank, call, room),
            None => unreachable!(),
        }
    }

    /// Makes the step by the join of a collective, recorded at `place`. The segment of a create was made before, in `made`, and
    /// `room` has a list for its values. The collective is pending for the caller then. It takes no memory.
    /// (GASPI: collectives, segment_create)
    pub fn joined(
        &mut self,
        place: u64,
        caller: CallerId,
        group: GroupId,
        args: Args,
        room: &mut ReservedNumbers,
        made: Option<MadeSegment>,
    )
        requires own { caller.rank ≡ self.old.own.now.posts.me }
        requires step { MayStep (Joined caller group args) self.old.own.now (behind self.old.peer) (behind self.old.group) }
        requires capacity { length args.values.items ≤ room.old.values }
        requires made { IsMadeFor self.old.own.now.posts args.coll made }
        ensures left { (s t : State) → IsStepOn s t (Joined caller group args) self.old.own.now (behind self.old.peer) (behind self.old.group)
            → IsLeft s t (Joined caller group args) place self.old.own.now self.new.own.now (behind self.old.peer) (behind self.new.peer) (behind self.new.group) }
        ensures own { self.new.own.ghost_name ≡ self.old.own.ghost_name }
        ensures peer { AreSame self.new.peer self.old.peer }
        ensures peer_value { behind self.new.peer ≡ behind self.old.peer }
        ensures group { AreSame self.new.group self.old.group }
        ensures pending { IsPendingFor self.new.own.now.posts caller.thread group (joining_call group args) }
        ensures event { room.new.event ≡ room.old.event }
        ensures caller { room.new.caller ≡ room.old.caller }
    {
        match &mut self.group {
            Some(node) => {
                let found = FoundJoin {
                    caller,
                    group,
                    args,
                    made,
                };
                join(self.own, node, place, found, room)
            }
            None => unreachable!(),
        }
    }

    /// Makes the step by a collective on group `id` with its reply, recorded at `place`. It takes no memory.
    /// (GASPI: collectives, timeouts)
    pub(crate) fn complete(
        &mut self,
        place: u64,
        caller: CallerId,
        id: u64,
        call: Call,
        reply: Reply,
    )
        requires own { caller.rank ≡ self.old.own.now.posts.me }
        requires named { (row_of call).group ≡ Some id }
        requires step { MayStep (Called caller call reply) self.old.own.now (behind self.old.peer) (behind self.old.group) }
        ensures left { (s t : State) → IsStepOn s t (Called caller call reply) self.old.own.now (behind self.old.peer) (behind self.old.group)
            → IsLeft s t (Called caller call reply) place self.old.own.now self.new.own.now (behind self.old.peer) (behind self.new.peer) (behind self.new.group) }
        ensures own { self.new.own.ghost_name ≡ self.old.own.ghost_name }
        ensures peer { AreSame self.new.peer self.old.peer }
        ensures peer_value { behind self.new.peer ≡ behind self.old.peer }
        ensures group { AreSame self.new.group self.old.group }
    {
        match &mut self.group {
            Some(group) => complete(
                self.own,
                group,
                place,
                caller,
                GroupId::of(id as u32),
                call,
                reply,
            ),
            None => refuse(self.own, place, caller, call, reply),
        }
    }
}
