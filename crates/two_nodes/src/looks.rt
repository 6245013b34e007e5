//! One look at a call on the nodes that are lent for it, with the events that follow from it. Each event gets the next place.
//! Clauses `own`, `peer` and `group` say that the same nodes are still lent.

ghost use Rattle.std.specs.Prelude.{◌≡◌, ℕ, ◌+◌, ◌<◌, ◌^◌, Some, Ok, IfOk, IsErr};
ghost use Rattle.std.specs.Option.{unwrap_or};
ghost use Rattle.gaspi_types.specs.CallRows.{row_of};
ghost use Rattle.gaspi_types.specs.declared.events.Event.TheVariants.{Called, Joined};
ghost use Rattle.gaspi_model.specs.CollectiveCalls.{group_of};
ghost use Rattle.gaspi_model.specs.declared.states.State.{State};
ghost use Rattle.rank_node.specs.Lending.{behind, AreSame, MayStep, IsStepOn, IsLeft};
ghost use Rattle.rank_node.specs.Collectives.{IsPendingFor};
ghost use Rattle.rank_node.specs.Numbers.{elements_in, ReplyFits};
ghost use Rattle.rank_node.specs.Rooms.{IsReservedFor};
ghost use Rattle.two_nodes.specs.LentLooks.{AreLentTo, MayLook, IsJoiner, MayJoin, HaveLooked};

use crate::stops::CallStop;
use gaspi_types::{Args, Call, CallRow, CallerId, GroupId, Invocation, NoMemory, Ready, Reply};
use rank_node::{Lent, Room};
use std::alloc::Global;

/// Records a call with the reply of its look, and gives an equal reply. All memory is taken first; where it runs out nothing
/// changes.
fn settle(
    lent: &mut Lent<'_>,
    alloc: Global,
    places: &mut u64,
    invocation: &Invocation<'_>,
    reply: Reply,
) -> Result<Reply, NoMemory>
    requires step { MayStep (Called invocation.now.caller invocation.now.call.now reply) lent.old.own.now (behind lent.old.peer) (behind lent.old.group) }
    requires places { places.old < 2 ^ 32 }
    ensures own { lent.new.own.ghost_name ≡ lent.old.own.ghost_name }
    ensures peer { AreSame lent.new.peer lent.old.peer }
    ensures group { AreSame lent.new.group lent.old.group }
    ensures reply { IfOk result (λ told. (told ≡ reply) × (places.new ≡ places.old + 1)) }
    ensures left { IfOk result (λ told. (s t : State) → IsStepOn s t (Called invocation.now.caller invocation.now.call.now reply) lent.old.own.now (behind lent.old.peer) (behind lent.old.group)
        → IsLeft s t (Called invocation.now.caller invocation.now.call.now reply) places.old lent.old.own.now lent.new.own.now (behind lent.old.peer) (behind lent.new.peer) (behind lent.new.group)) }
    ensures kept { IsErr result → (lent.new ≡ lent.old) × (places.new ≡ places.old) }
{
    let told = reply.copy(alloc)?;
    let call = invocation.call.copy(alloc)?;
    let room = lent.room(alloc, invocation)?;
    lent.called(*places, invocation.caller, call, reply, room);
    *places += 1;
    Ok(told)
}

/// Records a collective that has joined with the reply of its second look, and gives an equal reply. It takes no memory but what
/// `room` has.
fn complete(
    lent: &mut Lent<'_>,
    places: &mut u64,
    caller: CallerId,
    call: Call,
    reply: Reply,
    mut room: Room,
) -> Reply
    requires step { MayStep (Called caller call reply) lent.old.own.now (behind lent.old.peer) (behind lent.old.group) }
    requires row { room.row ≡ row_of call }
    requires named { (id : ℕ) × ((row_of call).group ≡ Some id) }
    requires fits { ReplyFits reply room.numbers.caller }
    requires places { places.old < 2 ^ 33 }
    ensures own { lent.new.own.ghost_name ≡ lent.old.own.ghost_name }
    ensures peer { AreSame lent.new.peer lent.old.peer }
    ensures group { AreSame lent.new.group lent.old.group }
    ensures reply { result ≡ reply }
    ensures places { places.new ≡ places.old + 1 }
    ensures left { (s t : State) → IsStepOn s t (Called caller call reply) lent.old.own.now (behind lent.old.peer) (behind lent.old.group)
        → IsLeft s t (Called caller call reply) places.old lent.old.own.now lent.new.own.now (behind lent.old.peer) (behind lent.new.peer) (behind lent.new.group) }
{
    let told = room.numbers.again(&reply);
    lent.called(*places, caller, call, reply, room);
    *places += 1;
    told
}

/// The group of a row, whose number is below 8.
fn named_group(row: &CallRow) -> GroupId
    requires { unwrap_or row.now.group 0 < 8 }
    ensures { result ≡ unwrap_or row.now.group 0 }
{
    GroupId::of(row.group.unwrap_or(0) as u32)
}

/// Makes the join of a collective. It takes no memory but what `room` has; the lists for its reply stay there.
fn join_once(
    lent: &mut Lent<'_>,
    places: &mut u64,
    invocation: &Invocation<'_>,
    args: Args,
    room: &mut Room,
)
    requires joins { MayJoin invocation.now.caller invocation.now.call.now args lent.old.own.now (behind lent.old.peer) (behind lent.old.group) }
    requires room { IsReservedFor lent.old.own.now.posts lent.old.own.now.memory invocation.now.call.now room.old }
    requires places { places.old < 2 ^ 32 }
    ensures own { lent.new.own.ghost_name ≡ lent.old.own.ghost_name }
    ensures peer { AreSame lent.new.peer lent.old.peer }
    ensures group { AreSame lent.new.group lent.old.group }
    ensures places { places.new ≡ places.old + 1 }
    ensures row { room.new.row ≡ row_of invocation.now.call.now }
    ensures event { room.new.numbers.event ≡ elements_in invocation.now.call.now }
    ensures caller { room.new.numbers.caller ≡ elements_in invocation.now.call.now }
    ensures pending { IsPendingFor lent.new.own.now.posts invocation.now.caller.thread (group_of invocation.now.call.now) invocation.now.call.now }
    ensures left { (s m : State) → IsStepOn s m (Joined invocation.now.caller (group_of invocation.now.call.now) args) lent.old.own.now (behind lent.old.peer) (behind lent.old.group)
        → IsLeft s m (Joined invocation.now.caller (group_of invocation.now.call.now) args) places.old lent.old.own.now lent.new.own.now (behind lent.old.peer) (behind lent.new.peer) (behind lent.new.group) }
{
    let id = named_group(&invocation.row);
    let made = room.made.take();
    lent.joined(
        *places,
        invocation.caller,
        id,
        args,
        &mut room.numbers,
        made,
    );
    *places += 1;
}

/// Makes the join of a collective, looks at it again, and records it where it is ready; else None. It takes no memory but what
/// `room` has.
fn join_with(
    lent: &mut Lent<'_>,
    places: &mut u64,
    invocation: &Invocation<'_>,
    args: Args,
    call: Call,
    mut room: Room,
) -> Option<Reply>
    requires joins { MayJoin invocation.now.caller invocation.now.call.now args lent.old.own.now (behind lent.old.peer) (behind lent.old.group) }
    requires call { call ≡ invocation.now.call.now }
    requires room { IsReservedFor lent.old.own.now.posts lent.old.own.now.memory invocation.now.call.now room }
    requires places { places.old < 2 ^ 32 }
    ensures own { lent.new.own.ghost_name ≡ lent.old.own.ghost_name }
    ensures peer { AreSame lent.new.peer lent.old.peer }
    ensures group { AreSame lent.new.group lent.old.group }
    ensures looked { (s : State) → IsJoiner s invocation.now.caller invocation.now.call.now args lent.old.own.now (behind lent.old.peer) (behind lent.old.group)
        → HaveLooked s invocation.now.caller invocation.now.call.now (Ok result) places.old places.new lent.old.own.now lent.new.own.now (behind lent.old.peer) (behind lent.new.peer) (behind lent.new.group) }
{
    join_once(lent, places, invocation, args, &mut room);
    let found = lent.answer_in(invocation.caller, invocation.call, &mut room.numbers);
    match found {
        Ready::Reply(reply) => {
            let caller = &invocation.caller;
            Some(complete(lent, places, *caller, call, reply, room))
        }
        Ready::NotReady => None,
        Ready::Join(_) => unreachable!(),
    }
}

/// Makes the join of a collective that may join, looks at it again, and records it where it is ready; else None. All memory is taken
/// first; where it runs out nothing changes.
fn join(
    lent: &mut Lent<'_>,
    alloc: Global,
    places: &mut u64,
    invocation: &Invocation<'_>,
    args: Args,
) -> Result<Option<Reply>, CallStop>
    requires joins { MayJoin invocation.now.caller invocation.now.call.now args lent.old.own.now (behind lent.old.peer) (behind lent.old.group) }
    requires places { places.old < 2 ^ 32 }
    ensures own { lent.new.own.ghost_name ≡ lent.old.own.ghost_name }
    ensures peer { AreSame lent.new.peer lent.old.peer }
    ensures group { AreSame lent.new.group lent.old.group }
    ensures looked { (s : State) → IsJoiner s invocation.now.caller invocation.now.call.now args lent.old.own.now (behind lent.old.peer) (behind lent.old.group)
        → HaveLooked s invocation.now.caller invocation.now.call.now result places.old places.new lent.old.own.now lent.new.own.now (behind lent.old.peer) (behind lent.new.peer) (behind lent.new.group) }
{
    let Ok(call) = invocation.call.copy(alloc) else {
        return Err(CallStop::NoMemory);
    };
    let Ok(room) = lent.room(alloc, invocation) else {
        return Err(CallStop::NoMemory);
    };
    Ok(join_with(lent, places, invocation, args, call, room))
}

/// One look at a call: where the call has a reply it is recorded, and where it may join it joins first. None where it is not ready;
/// then a collective may have joined. `EventLimit` where its rank lacks room for it, and `NoMemory`; then nothing changes.
pub(crate) fn look(
    lent: &mut Lent<'_>,
    alloc: Global,
    places: &mut u64,
    invocation: &Invocation<'_>,
) -> Result<Option<Reply>, CallStop>
    requires lent { MayLook invocation.now.caller invocation.now.call.now lent.old.own.now (behind lent.old.peer) (behind lent.old.group) }
    requires places { places.old < 2 ^ 32 }
    ensures own { lent.new.own.ghost_name ≡ lent.old.own.ghost_name }
    ensures peer { AreSame lent.new.peer lent.old.peer }
    ensures group { AreSame lent.new.group lent.old.group }
    ensures looked { (s : State) → AreLentTo s invocation.now.caller invocation.now.call.now lent.old.own.now (behind lent.old.peer) (behind lent.old.group)
        → HaveLooked s invocation.now.caller invocation.now.call.now result places.old places.new lent.old.own.now lent.new.own.now (behind lent.old.peer) (behind lent.new.peer) (behind lent.new.group) }
{
    if lent.own.room() < lent.own.need(invocation) {
        return Err(CallStop::EventLimit);
    }
    let Ok(ready) = lent.answer(alloc, invocation) else {
        return Err(CallStop::NoMemory);
    };
    match ready {
        Ready::NotReady => Ok(None),
        Ready::Reply(reply) => match settle(lent, alloc, places, invocation, reply) {
            Ok(told) => Ok(Some(told)),
            Err(NoMemory) => Err(CallStop::NoMemory),
        },
        Ready::Join(args) => join(lent, alloc, places, invocation, args),
    }
}
