//! The step by a join, on the own node and the node of the group. `join` is the step; the other functions are its helpers. None
//! takes memory: the list for the values and the segment of a create were reserved before. (GASPI: collectives, segment_create)

ghost use Rattle.std.specs.Prelude.{◌≡◌, ◌≤◌, true, length, Option, None, Some, IfSome};
ghost use Rattle.gaspi_types.specs.Tables.{item_at};
ghost use Rattle.gaspi_types.specs.declared.events.Event.TheVariants.{Joined};
ghost use Rattle.collective_engine.specs.KeptContributions.{HasItsValues};
ghost use Rattle.collective_engine.specs.RoundBuffers.{may_join};
ghost use Rattle.gaspi_model.specs.CollectiveCalls.{joined_posts, joining_call, contribution_of, made_generation, made_posts, made_memory};
ghost use Rattle.gaspi_model.specs.declared.states.State.{State};
ghost use Rattle.plain_calls.specs.NumberBounds.{JoinIsBounded};
ghost use Rattle.rank_node.specs.Collectives.{IsMadeFor, MayJoinHere, AddsContribution, IsPendingFor};
ghost use Rattle.rank_node.specs.CollectiveSteps.{MayStepOn};
ghost use Rattle.rank_node.specs.Lending.{IsStepOn, IsLeft};
ghost use Rattle.rank_node.specs.Making.{with_made};
ghost use Rattle.rank_node.specs.Values.{PostsValue};
ghost use Rattle.rank_node.specs.declared.nodes.Node.{Node};

use crate::making::MadeSegment;
use crate::node_memory::NodeMemory;
use crate::node_posts::NodePosts;
use crate::nodes::{GroupNode, Node};
use crate::reserved_numbers::{ReservedNumbers, copied_args, take_numbers};
use gaspi_types::{Args, CallerId, Coll, Event, GroupId, RankId, ThreadId};
use segment_store::{add_own, next_generation};

/// The generation of the segment that a collective makes at its join; 0 where it makes none. (GASPI: segment_create)
fn made_generation(own: &NodePosts, coll: Coll) -> u32
    ensures { result ≡ made_generation own.now.posts coll }
{
    match coll {
        Coll::Create(seg, _) => next_generation(&own.segments.next_generations, u64::from(seg)),
        _ => 0,
    }
}

/// Adds the segment of a create to the table of own segments. Every other collective changes nothing. (GASPI: segment_create)
fn add_made(own: &mut NodePosts, coll: Coll)
    requires { JoinIsBounded own.old.posts coll }
    ensures { own.new ≡ record own.old { posts = made_posts own.old.posts coll } }
{
    if let Coll::Create(seg, size) = coll {
        add_own(&mut own.segments, u64::from(seg), size);
    }
}

/// Makes a collective of a thread pending on group `id`, on which none is, and adds the segment of a create to the table of own
/// segments.
fn add_pending(own: &mut NodePosts, thread: ThreadId, id: GroupId, args: Args)
    requires none { item_at own.old.posts.pending id ≡ None }
    requires bounded { JoinIsBounded own.old.posts args.coll }
    ensures { own.new ≡ record own.old { posts = joined_posts own.old.posts thread id args } }
{
    add_made(own, args.coll);
    own.pending.put_in(id, thread, args);
}

/// Puts a made segment under an id; None changes nothing.
fn insert_if_made(memory: &mut NodeMemory, seg: u64, made: Option<MadeSegment>)
    ensures made { IfSome made (λ made. memory.new ≡ with_made memory.old seg made) }
    ensures none { made ≡ None → memory.new ≡ memory.old }
{
    match made {
        Some(made) => memory.insert_segment(seg, made),
        None => {}
    }
}

/// Puts the made segment of a create into the memory of its rank. Every other collective changes nothing. (GASPI: segment_create)
fn insert_made(memory: &mut NodeMemory, coll: Coll, made: Option<MadeSegment>)
    ensures { (own : PostsValue) → IsMadeFor own coll made → memory.new ≡ record memory.old { memory = made_memory own.limits own.posts memory.old.memory coll } }
{
    match coll {
        Coll::Create(seg, _) => insert_if_made(memory, u64::from(seg), made),
        _ => drop(made),
    }
}

/// Adds a contribution of `me` to its round, with the generation of its new segment; a `commit` fixes the member list. Both fit, as
/// the look has found.
fn join_group(group: &mut GroupNode, me: RankId, args: &Args, generation: u32)
    requires may { may_join group.old.rounds me args.now.coll ≡ true }
    requires values { HasItsValues args.now }
    ensures { AddsContribution group.old group.new me (record { args = args.now; generation = generation }) }
{
    // The look has found that the list and the round fit.
    if let Coll::Commit(mask) = args.coll {
        let _ = group.meeting.fix(mask);
    }
    let _ = group.rounds.join(me, args, generation);
}

/// Makes the effect of a join, its event not counted: the rank has contributed, the segment of a create is there, and the collective
/// is pending. `kept` are equal arguments, which the pending collective keeps.
fn apply_join(
    own: &mut Node,
    group: &mut GroupNode,
    caller: &CallerId,
    id: GroupId,
    args: &Args,
    kept: Args,
    made: Option<MadeSegment>,
)
    requires own { caller.now.rank ≡ own.old.posts.me }
    requires kept { kept ≡ args.now }
    requires joins { MayJoinHere own.old.posts group.old id args.now }
    requires made { IsMadeFor own.old.posts args.now.coll made }
    ensures posts { own.new.posts ≡ record own.old.posts { posts = joined_posts own.old.posts.posts caller.now.thread id args.now } }
    ensures memory { own.new.memory ≡ record own.old.memory { memory = made_memory own.old.posts.limits own.old.posts.posts own.old.memory.memory args.now.coll } }
    ensures group { AddsContribution group.old group.new caller.now.rank (contribution_of own.old.posts.posts args.now) }
{
    let generation = made_generation(&own.posts, args.coll);
    join_group(group, caller.rank, args, generation);
    insert_made(&mut own.memory, args.coll, made);
    add_pending(&mut own.posts, caller.thread, id, kept);
}

/// A join that a look has found to be possible.
#[derive(Debug, Drop)]
pub(crate) struct FoundJoin {
    /// The caller that joins.
    pub caller: CallerId,
    /// The group.
    pub group: GroupId,
    /// The arguments, which go into the journal.
    pub args: Args,
    /// The segment of a create, which was made before.
    pub made: Option<MadeSegment>,
}

/// Makes the step by a join, recorded at `place`. The arguments that stay pending are a copy, its values in the list of `room`. It
/// takes no memory. (GASPI: collectives, segment_create)
pub(crate) fn join(
    own: &mut Node,
    group: &mut GroupNode,
    place: u64,
    found: FoundJoin,
    room: &mut ReservedNumbers,
)
    requires own { found.caller.rank ≡ own.old.posts.me }
    requires step { MayStepOn (Joined found.caller found.group found.args) own.old (Some group.old) }
    requires capacity { length found.args.values.items ≤ room.old.values }
    requires made { IsMadeFor own.old.posts found.args.coll found.made }
    ensures left { (s t : State) (peer : Option Node) → IsStepOn s t (Joined found.caller found.group found.args) own.old peer (Some group.old)
        → IsLeft s t (Joined found.caller found.group found.args) place own.old own.new peer peer (Some group.new) }
    ensures pending { IsPendingFor own.new.posts found.caller.thread found.group (joining_call found.group found.args) }
    ensures event { room.new.event ≡ room.old.event }
    ensures caller { room.new.caller ≡ room.old.caller }
{
    let FoundJoin {
        caller,
        group: id,
        args,
        made,
    } = found;
    let kept = copied_args(&args, take_numbers(&mut room.values));
    apply_join(own, group, &caller, id, &args, kept, made);
    own.posts.add_event(place, Event::Joined(caller, id, args));
}
