//! Calls that are no collectives, as the clause `plain` requires: their answers and their records, on one or two nodes. `_alone` is
//! for a call that reaches the own node only, `_between` for one that reaches a peer's. `Lent` and `HeldNodes` choose between them.

ghost use Rattle.std.specs.Prelude.{◌≡◌, Option, None, Some, IfOk, IsOk, false};
ghost use Rattle.gaspi_types.specs.CallRows.{row_of};
ghost use Rattle.gaspi_types.specs.declared.events.Event.TheVariants.{Called};
ghost use Rattle.gaspi_types.specs.declared.replies.Ready.TheVariants.{NotReady};
ghost use Rattle.gaspi_model.specs.Calls.{peer_after};
ghost use Rattle.gaspi_model.specs.Sound.{IsSound};
ghost use Rattle.gaspi_model.specs.Step.{answer_in};
ghost use Rattle.gaspi_model.specs.declared.states.Posts.{Posts};
ghost use Rattle.gaspi_model.specs.declared.states.State.{State};
ghost use Rattle.plain_calls.specs.Registrations.{with_registration};
ghost use Rattle.rank_node.specs.Effects.{with_posts};
ghost use Rattle.rank_node.specs.Lending.{LendsFor, IsStepOn, MayStepBetween, IsLeft, AreLentBetween};
ghost use Rattle.rank_node.specs.Rooms.{IsReservedFor, IsReservedForRecord, FitsReserved};
ghost use Rattle.rank_node.specs.declared.nodes.GroupNode.{GroupNode};
ghost use Rattle.rank_node.specs.declared.rooms.Room.{Room};

use crate::node_memory::NodeMemory;
use crate::node_posts::NodePosts;
use crate::nodes::Node;
use crate::plain_looks::look;
use crate::recording::record;
use crate::rooms::Room;
use gaspi_types::{Call, CallerId, Invocation, NoMemory, Ready, Reply};
use plain_calls::{Registration, is_refused_or_timeout, registration_of};
use std::alloc::Global;

/// The registration that a call gives a peer: that of a `register` with a reply that is no refusal; None for each other call.
fn registration(posts: &NodePosts, call: &Call, reply: &Reply) -> Option<Registration>
    ensures { (peer : Posts) → with_registration result peer ≡ peer_after posts.now.me posts.now.posts call.now reply.now peer }
{
    if is_refused_or_timeout(reply) {
        return None;
    }
    match call {
        Call::Register(call) => Some(registration_of(posts.me, &posts.segments.own, call)),
        _ => None,
    }
}

/// Makes the segment of a registration known to a peer; None changes nothing.
fn register_at(peer: &mut NodePosts, registration: Option<Registration>)
    ensures { peer.new ≡ with_posts peer.old (with_registration registration peer.old.posts) }
{
    if let Some(registration) = registration {
        peer.set_known(registration.owner, registration.seg, registration.extent);
    }
}

/// The answer to a call that reaches the own node only. It takes memory only where the call's row says so, and none where the call
/// is not ready.
pub fn answer_alone(
    alloc: Global,
    own: &Node,
    invocation: &Invocation<'_>,
) -> Result<Ready, NoMemory>
    requires plain { (row_of invocation.now.call.now).group ≡ None }
    requires lent { AreLentBetween invocation.now.call.now own.now None }
    ensures answer { (s : State) (group : Option GroupNode) → IsSound s → LendsFor s invocation.now.call.now own.now None group
        → IfOk result (λ ready. answer_in s own.now.posts.me invocation.now.caller.thread invocation.now.call.now ≡ Some ready) }
    ensures ample { (row_of invocation.now.call.now).takes_memory ≡ false → IsOk result }
    ensures unready { (s : State) (group : Option GroupNode) → IsSound s → LendsFor s invocation.now.call.now own.now None group
        → answer_in s own.now.posts.me invocation.now.caller.thread invocation.now.call.now ≡ Some NotReady → IsOk result }
    ensures fits { (room : Room) → IsReservedFor own.now.posts own.now.memory invocation.now.call.now room → IfOk result (λ ready. FitsReserved ready room) }
{
    look(alloc, &own.posts, &own.memory, invocation)
}

/// The answer to a call that reaches the node of a peer, on the memory of the peer. It takes memory only where the call's row says
/// so, and none where the call is not ready.
pub fn answer_between(
    alloc: Global,
    own: &Node,
    peer: &Node,
    invocation: &Invocation<'_>,
) -> Result<Ready, NoMemory>
    requires plain { (row_of invocation.now.call.now).group ≡ None }
    requires lent { AreLentBetween invocation.now.call.now own.now (Some peer.now) }
    ensures answer { (s : State) (group : Option GroupNode) → IsSound s → LendsFor s invocation.now.call.now own.now (Some peer.now) group
        → IfOk result (λ ready. answer_in s own.now.posts.me invocation.now.caller.thread invocation.now.call.now ≡ Some ready) }
    ensures ample { (row_of invocation.now.call.now).takes_memory ≡ false → IsOk result }
    ensures unready { (s : State) (group : Option GroupNode) → IsSound s → LendsFor s invocation.now.call.now own.now (Some peer.now) group
        → answer_in s own.now.posts.me invocation.now.caller.thread invocation.now.call.now ≡ Some NotReady → IsOk result }
    ensures fits { (room : Room) → IsReservedFor own.now.posts own.now.memory invocation.now.call.now room → IfOk result (λ ready. FitsReserved ready room) }
{
    look(alloc, &own.posts, &peer.memory, invocation)
}

/// Makes the step by a call with its reply, which reaches the own node only, recorded at `place`. `room` is the memory that was
/// reserved for it, and is used. It takes no memory.
pub fn called_alone(
    own: &mut Node,
    place: u64,
    caller: CallerId,
    call: Call,
    reply: Reply,
    room: &mut Room,
)
    requires plain { (row_of call).group ≡ None }
    requires step { MayStepBetween (Called caller call reply) own.old None }
    requires room { IsReservedForRecord own.old.posts own.old.memory call room.old }
    ensures { (s t : State) (group : Option GroupNode) → IsStepOn s t (Called caller call reply) own.old None group → IsLeft s t (Called caller call reply) place own.old own.new None None group }
{
    record(
        &mut own.posts,
        &mut own.memory,
        place,
        caller,
        call,
        reply,
        room,
    );
}

/// Makes the step by a call with its reply, which reaches the node of a peer: on the memory of the peer, and on the peer's posts for
/// a `register`. It is recorded at `place` in the own rank journal. `room` is the memory that was reserved for it, and is used. It
/// takes no memory.
pub fn called_between(
    own: &mut Node,
    peer: &mut Node,
    place: u64,
    caller: CallerId,
    call: Call,
    reply: Reply,
    room: &mut Room,
)
    requires plain { (row_of call).group ≡ None }
    requires step { MayStepBetween (Called caller call reply) own.old (Some peer.old) }
    requires room { IsReservedForRecord own.old.posts own.old.memory call room.old }
    ensures { (s t : State) (group : Option GroupNode) → IsStepOn s t (Called caller call reply) own.old (Some peer.old) group
        → IsLeft s t (Called caller call reply) place own.old own.new (Some peer.old) (Some peer.new) group }
{
    let registration = registration(&own.posts, &call, &reply);
    record(
        &mut own.posts,
        &mut peer.memory,
        place,
        caller,
        call,
        reply,
        room,
    );
    register_at(&mut peer.posts, registration);
}
