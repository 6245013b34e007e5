//! The commit of a call or a join, and its record in the nodes of the held shards, which follows at once. `place` is what the commit
//! answered. The memory of the record is in `room` already. Transfers are committed in `transfers`.

ghost use Rattle.std.specs.Prelude.{◌≡◌, ◌≤◌, ℕ, ◌++◌, ◌∷◌, [], None, Some, true, length};
ghost use Rattle.gaspi_types.specs.CallRows.{row_of};
ghost use Rattle.gaspi_types.specs.World.{IsShape};
ghost use Rattle.gaspi_types.specs.declared.events.Event.TheVariants.{Called, Joined};
ghost use Rattle.gaspi_model.specs.CollectiveCalls.{joining_call};
ghost use Rattle.gaspi_model.specs.Step.{is_legal};
ghost use Rattle.commit_table.specs.Calls.{IsOf};
ghost use Rattle.gaspi_types.specs.declared.calls.Call.{Call};
ghost use Rattle.gaspi_types.specs.declared.groups.Args.{Args};
ghost use Rattle.gaspi_types.specs.declared.replies.Reply.{Reply};
ghost use Rattle.gaspi_types.specs.declared.shapes.CallerId.{CallerId};
ghost use Rattle.gaspi_model.specs.declared.states.State.{State};
ghost use Rattle.rank_node.specs.Collectives.{IsMadeFor, IsPendingFor};
ghost use Rattle.rank_node.specs.HeldNodes.{peer_of, group_of, IsSameKind};
ghost use Rattle.rank_node.specs.Lending.{MayStep, IsStepOn, IsLeft};
ghost use Rattle.rank_node.specs.Rooms.{IsReservedForRecord};
ghost use Rattle.gaspi_world.specs.RankShards.{call_other};
ghost use Rattle.gaspi_world.specs.Callers.{IsPassOf};
ghost use Rattle.gaspi_world.specs.HeldShards.{Holds, IsCommitted};

use crate::holding::HeldShards;
use crate::starts::Start;
use crate::worlds::Pass;
use commit_table::CommitTable;
use gaspi_types::{Args, Call, CallerId, Event, GroupId, Reply};
use rank_node::{HeldNodes, Room};

/// Records in the held nodes a call that was committed at a place. The event must be a call, with the reply, and the room that of this
/// call.
fn record_call(nodes: &mut HeldNodes, place: u64, event: Event, room: &mut Room)
    requires called { (caller : CallerId) × (call : Call) × (reply : Reply) × (event ≡ Called caller call reply) × (room.old.row ≡ row_of call) × ((row_of call).group ≡ None → IsReservedForRecord nodes.old.own.value.posts nodes.old.own.value.memory call room.old) }
    requires step { MayStep event nodes.old.own.value (peer_of nodes.old.other) (group_of nodes.old.other) }
    ensures left { (s t : State) → IsStepOn s t event nodes.old.own.value (peer_of nodes.old.other) (group_of nodes.old.other)
        → IsLeft s t event place nodes.old.own.value nodes.new.own.value (peer_of nodes.old.other) (peer_of nodes.new.other) (group_of nodes.new.other) }
    ensures kind { IsSameKind nodes.new.other nodes.old.other }
{
    match event {
        Event::Called(caller, call, reply) => nodes.called(place, caller, call, reply, room),
        _ => unreachable!(),
    }
}

/// Commits a call with its reply, and records it in the held nodes, with the memory that `room` has for that. The shards stay held.
pub fn commit_call(
    table: &CommitTable<Start>,
    pass: &mut Pass,
    held: &mut HeldShards,
    caller: CallerId,
    call: Call,
    reply: Reply,
    room: &mut Room,
)
    requires world { IsShape table.now.start.shape }
    requires pass { IsOf table.now pass.old }
    requires caller { IsPassOf table.now.start.shape caller pass.old.known }
    requires held { Holds table.now.start.shape held.old pass.old.known }
    requires shards { (held.old.own ≡ caller.rank) × (held.old.other ≡ call_other table.now.start.shape caller call) }
    requires step { is_legal table.now.start.shape (pass.old.known.seen ++ Called caller call reply ∷ []) ≡ true }
    requires row { room.old.row ≡ row_of call }
    requires room { (row_of call).group ≡ None → IsReservedForRecord held.old.nodes.own.value.posts held.old.nodes.own.value.memory call room.old }
    ensures table { pass.new.table ≡ pass.old.table }
    ensures held { Holds table.now.start.shape held.new pass.new.known }
    ensures shards { (held.new.own ≡ held.old.own) × (held.new.other ≡ held.old.other) }
    ensures added { IsCommitted table.now.start.shape pass.old.known (Called caller call reply) pass.new.known }
{
    let event = Event::Called(caller, call, reply);
    let place = table.commit(pass, &event);
    record_call(&mut held.nodes, place, event, room);
}

/// Records in the held nodes a join that was committed at a place. The event must be a join. The made segment of a `create` leaves the
/// room; what is in it for the record of the call stays.
fn record_join(nodes: &mut HeldNodes, place: u64, event: Event, room: &mut Room)
    requires joined { (caller : CallerId) × (group : ℕ) × (args : Args) × (event ≡ Joined caller group args) × (caller.rank ≡ nodes.old.own.value.posts.me) × (length args.values.items ≤ room.old.numbers.values) × IsMadeFor nodes.old.own.value.posts args.coll room.old.made }
    requires step { MayStep event nodes.old.own.value (peer_of nodes.old.other) (group_of nodes.old.other) }
    ensures left { (s t : State) → IsStepOn s t event nodes.old.own.value (peer_of nodes.old.other) (group_of nodes.old.other)
        → IsLeft s t event place nodes.old.own.value nodes.new.own.value (peer_of nodes.old.other) (peer_of nodes.new.other) (group_of nodes.new.other) }
    ensures kind { IsSameKind nodes.new.other nodes.old.other }
    ensures pending { (caller : CallerId) (group : ℕ) (args : Args) → event ≡ Joined caller group args → IsPendingFor nodes.new.own.value.posts caller.thread group (joining_call group args) }
    ensures row { room.new.row ≡ room.old.row }
    ensures event { room.new.numbers.event ≡ room.old.numbers.event }
    ensures caller { room.new.numbers.caller ≡ room.old.numbers.caller }
{
    let made = room.made.take();
    match event {
        Event::Joined(caller, group, args) => {
            nodes.joined(place, caller, group, args, &mut room.numbers, made)
        }
        _ => unreachable!(),
    }
}

/// Commits the join of a collective, and records it in the held nodes: the collective is pending then. The shards stay held, and
/// `room` still has what the record of the call needs. (GASPI: collectives)
pub fn commit_join(
    table: &CommitTable<Start>,
    pass: &mut Pass,
    held: &mut HeldShards,
    caller: CallerId,
    group: GroupId,
    args: Args,
    room: &mut Room,
)
    requires world { IsShape table.now.start.shape }
    requires pass { IsOf table.now pass.old }
    requires caller { IsPassOf table.now.start.shape caller pass.old.known }
    requires held { Holds table.now.start.shape held.old pass.old.known }
    requires shards { (held.old.own ≡ caller.rank) × (held.old.other ≡ call_other table.now.start.shape caller (joining_call group args)) }
    requires step { is_legal table.now.start.shape (pass.old.known.seen ++ Joined caller group args ∷ []) ≡ true }
    requires capacity { length args.values.items ≤ room.old.numbers.values }
    requires made { IsMadeFor held.old.nodes.own.value.posts args.coll room.old.made }
    ensures table { pass.new.table ≡ pass.old.table }
    ensures held { Holds table.now.start.shape held.new pass.new.known }
    ensures shards { (held.new.own ≡ held.old.own) × (held.new.other ≡ held.old.other) }
    ensures added { IsCommitted table.now.start.shape pass.old.known (Joined caller group args) pass.new.known }
    ensures pending { IsPendingFor held.new.nodes.own.value.posts caller.thread group (joining_call group args) }
    ensures row { room.new.row ≡ room.old.row }
    ensures event { room.new.numbers.event ≡ room.old.numbers.event }
    ensures caller { room.new.numbers.caller ≡ room.old.numbers.caller }
{
    let event = Event::Joined(caller, group, args);
    let place = table.commit(pass, &event);
    record_join(&mut held.nodes, place, event, room);
}
