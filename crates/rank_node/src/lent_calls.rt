//! The functions of `Lent` for any call: its answer, the memory that its record needs, and its record. Clauses `own`, `peer` and
//! `group` say that the same nodes are still lent.

ghost use Rattle.std.specs.Prelude.{◌≡◌, None, IfOk, IsOk, false};
ghost use Rattle.gaspi_types.specs.CallRows.{row_of};
ghost use Rattle.gaspi_types.specs.declared.events.Event.TheVariants.{Called};
ghost use Rattle.gaspi_types.specs.declared.replies.Ready.TheVariants.{NotReady};
ghost use Rattle.gaspi_model.specs.Sound.{IsSound};
ghost use Rattle.gaspi_model.specs.Step.{answer_in};
ghost use Rattle.gaspi_model.specs.declared.states.State.{State};
ghost use Rattle.rank_node.specs.Lending.{behind, AreSame, LendsFor, AreLentFor, MayStep, IsStepOn, IsLeft};
ghost use Rattle.rank_node.specs.Rooms.{IsReservedFor, IsReservedForRecord, FitsReserved};
ghost use Rattle.rank_node.specs.declared.rooms.Room.{Room};

use crate::lent::Lent;
use crate::lent_plain::{answer_alone, answer_between, called_alone, called_between};
use crate::rooms::{Room, reserve};
use gaspi_types::{Call, CallerId, Invocation, NoMemory, Ready, Reply};
use std::alloc::Global;

impl Lent<'_> {
    /// The answer to a call of a thread of the own rank: its reply, that it may join, or that it is not ready. The memory that
    /// `room` takes for the call is enough for a second, equal reply (clause `fits`). It takes memory only where the call's row says
    /// so, and none where the call is not ready. The nodes do not change.
    pub fn answer(&self, alloc: Global, invocation: &Invocation<'_>) -> Result<Ready, NoMemory>
        requires lent { AreLentFor invocation.now.call.now self.now.own.now (behind self.now.peer) (behind self.now.group) }
        ensures answer { (s : State) → IsSound s → LendsFor s invocation.now.call.now self.now.own.now (behind self.now.peer) (behind self.now.group)
            → IfOk result (λ ready. answer_in s self.now.own.now.posts.me invocation.now.caller.thread invocation.now.call.now ≡ Some ready) }
        ensures ample { (row_of invocation.now.call.now).takes_memory ≡ false → IsOk result }
        ensures unready { (s : State) → IsSound s → LendsFor s invocation.now.call.now self.now.own.now (behind self.now.peer) (behind self.now.group)
            → answer_in s self.now.own.now.posts.me invocation.now.caller.thread invocation.now.call.now ≡ Some NotReady → IsOk result }
        ensures fits { (room : Room) → IsReservedFor self.now.own.now.posts self.now.own.now.memory invocation.now.call.now room → IfOk result (λ ready. FitsReserved ready room) }
    {
        match invocation.row.group {
            Some(id) => {
                self.answer_collective(alloc, invocation.caller.thread, id, invocation.call)
            }
            None => match &self.peer {
                Some(peer) => answer_between(alloc, self.own, peer, invocation),
                None => answer_alone(alloc, self.own, invocation),
            },
        }
    }

    /// Takes the memory that the record of a call needs. A call whose row says that it takes none takes none. The nodes do not
    /// change.
    pub fn room(&self, alloc: Global, invocation: &Invocation<'_>) -> Result<Room, NoMemory>
        requires lent { AreLentFor invocation.now.call.now self.now.own.now (behind self.now.peer) (behind self.now.group) }
        ensures room { IfOk result (λ room. IsReservedFor self.now.own.now.posts self.now.own.now.memory invocation.now.call.now room) }
        ensures ample { (row_of invocation.now.call.now).takes_memory ≡ false → IsOk result }
    {
        let mut room = Room::new(alloc, invocation.row);
        reserve(
            alloc,
            &self.own.posts,
            &self.own.memory,
            invocation,
            &mut room,
        )?;
        Ok(room)
    }

    /// Makes the step by a call with its reply, recorded at `place` in the owner's rank journal. `room` is the memory that was
    /// reserved for this call on these nodes; of a collective its row alone is used. It takes no memory.
    pub fn called(&mut self, place: u64, caller: CallerId, call: Call, reply: Reply, mut room: Room)
        requires step { MayStep (Called caller call reply) self.old.own.now (behind self.old.peer) (behind self.old.group) }
        requires row { room.row ≡ row_of call }
        requires room { (row_of call).group ≡ None → IsReservedForRecord self.old.own.now.posts self.old.own.now.memory call room }
        ensures left { (s t : State) → IsStepOn s t (Called caller call reply) self.old.own.now (behind self.old.peer) (behind self.old.group)
            → IsLeft s t (Called caller call reply) place self.old.own.now self.new.own.now (behind self.old.peer) (behind self.new.peer) (behind self.new.group) }
        ensures own { self.new.own.ghost_name ≡ self.old.own.ghost_name }
        ensures peer { AreSame self.new.peer self.old.peer }
        ensures group { AreSame self.new.group self.old.group }
    {
        match room.row.group {
            Some(id) => self.complete(place, caller, id, call, reply),
            None => match &mut self.peer {
                Some(peer) => called_between(self.own, peer, place, caller, call, reply, &mut room),
                None => called_alone(self.own, place, caller, call, reply, &mut room),
            },
        }
    }
}
