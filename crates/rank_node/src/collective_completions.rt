//! The step by a collective with its reply, on the own node and the node of its group. `complete` is the step, and `refuse` that of
//! a collective on a number over 7; the other functions are helpers of `complete`. `me` is the caller's rank. None takes memory.
//! (GASPI: collectives)

ghost use Rattle.std.specs.Prelude.{◌≡◌, ℕ, true, false, Option, None, Some};
ghost use Rattle.gaspi_types.specs.CallRows.{row_of};
ghost use Rattle.gaspi_types.specs.Collectives.{with_completed};
ghost use Rattle.gaspi_types.specs.Replies.{is_idle};
ghost use Rattle.gaspi_types.specs.declared.events.Event.TheVariants.{Called};
ghost use Rattle.gaspi_types.specs.declared.groups.Group.{Group};
ghost use Rattle.collective_engine.specs.RoundBuffers.{is_in};
ghost use Rattle.gaspi_model.specs.CollectiveCalls.{posts_at_completion, completed_posts};
ghost use Rattle.gaspi_model.specs.declared.states.State.{State};
ghost use Rattle.plain_calls.specs.NumberBounds.{CompletionIsBounded};
ghost use Rattle.plain_calls.specs.Rounds.{group_after_collective};
ghost use Rattle.rank_node.specs.Collectives.{MayLeave, IsBuiltYet, MayComplete, with_all_known, completion_effect};
ghost use Rattle.rank_node.specs.CollectiveSteps.{MayStepOn};
ghost use Rattle.rank_node.specs.Lending.{IsGroupNode, IsStepOn, IsLeft};
ghost use Rattle.rank_node.specs.declared.nodes.Node.{Node};

use crate::node_posts::NodePosts;
use crate::nodes::{GroupNode, Node};
use gaspi_types::{
    Call, CallerId, Event, Extent, GroupId, MemberSegment, RankId, Reply, SegmentTable, ThreadId,
};
use plain_calls::is_refused_or_timeout;
use segment_store::set_known;

/// Makes segment `seg` of each of these ranks known in `table`, in the generation in which the rank made it. (GASPI: segment_create)
fn make_known(table: &mut SegmentTable, made: &[MemberSegment], seg: u64, size: u32)
    ensures { table.new ≡ with_all_known seg size made.now table.old }
{
    match made {
        [] => {}
        [first, others @ ..] => {
            let extent = Some(Extent {
                generation: first.generation,
                size,
            });
            set_known(table, first.rank, seg, extent);
            make_known(table, others, seg, size);
        }
    }
}

/// Changes the own posts as the kind of a collective asks at its completion: a `commit` makes the stage of its group committed, a
/// create makes the new segment of each member known. What is pending, the rounds and the count of events stay.
/// (GASPI: group_commit, segment_create)
fn apply_effect(own: &mut NodePosts, group: &GroupNode, me: RankId, id: GroupId, call: &Call)
    requires built { IsBuiltYet own.old.posts.groups id call.now }
    requires bounded { CompletionIsBounded call.now }
    requires member { is_in group.now.rounds.members me ≡ true }
    ensures { (g : Group) → IsGroupNode g group.now → own.new ≡ record own.old { posts = posts_at_completion g me id call.now own.old.posts } }
{
    match call {
        Call::Commit(_) => own.groups.committed(u64::from(id.number())),
        Call::Create(call) => {
            let made = group.rounds.generations(me);
            make_known(
                &mut own.segments,
                made.as_slice(),
                call.seg,
                call.size as u32,
            );
        }
        _ => {}
    }
}

/// Completes the round of `me`, which is full: the group counts one completed round more for that rank. The rank's posts stay.
fn leave(group: &mut GroupNode, me: RankId)
    requires { (g : Group) × MayLeave g group.old me }
    ensures { (g : Group) → IsGroupNode g group.old → IsGroupNode (with_completed g me) group.new }
{
    prove!(group.rounds.full(me));
    group.rounds.leave(me);
}

/// Makes the effect of the completion of a collective of a thread: on the own posts, with none pending on the group, and one
/// completed round more for `me`. The event is not counted.
fn complete_round(
    own: &mut NodePosts,
    group: &mut GroupNode,
    me: RankId,
    thread: ThreadId,
    id: GroupId,
    call: &Call,
)
    requires own { me ≡ own.old.me }
    requires done { MayComplete own.old group.old thread id call.now }
    ensures posts { (g : Group) → IsGroupNode g group.old → own.new ≡ record own.old { posts = completed_posts own.old.posts g me id call.now } }
    ensures group { (g : Group) → IsGroupNode g group.old → IsGroupNode (with_completed g me) group.new }
{
    apply_effect(own, group, me, id, call);
    own.pending.take_out(id, thread);
    leave(group, me);
}

/// Makes the effect of a collective with its reply: that of its completion, or nothing for a refusal or a timeout. The event is not
/// counted.
fn apply_completion(
    own: &mut NodePosts,
    group: &mut GroupNode,
    caller: &CallerId,
    id: GroupId,
    call: &Call,
    reply: &Reply,
)
    requires own { caller.now.rank ≡ own.old.me }
    requires done { is_idle reply.now ≡ false → MayComplete own.old group.old caller.now.thread id call.now }
    ensures posts { (g : Group) → IsGroupNode g group.old → own.new ≡ record own.old { posts = completion_effect own.old.posts g caller.now.rank id call.now reply.now } }
    ensures group { (g : Group) → IsGroupNode g group.old → IsGroupNode (group_after_collective g caller.now.rank reply.now) group.new }
{
    if !is_refused_or_timeout(reply) {
        complete_round(own, group, caller.rank, caller.thread, id, call);
    }
}

/// Makes the step by a collective with its reply, recorded at `place`: the collective is completed, or refused, or not ready in
/// time. It takes no memory. (GASPI: collectives, timeouts)
pub(crate) fn complete(
    own: &mut Node,
    group: &mut GroupNode,
    place: u64,
    caller: CallerId,
    id: GroupId,
    call: Call,
    reply: Reply,
)
    requires own { caller.rank ≡ own.old.posts.me }
    requires named { (row_of call).group ≡ Some id }
    requires step { MayStepOn (Called caller call reply) own.old (Some group.old) }
    ensures { (s t : State) (peer : Option Node) → IsStepOn s t (Called caller call reply) own.old peer (Some group.old)
        → IsLeft s t (Called caller call reply) place own.old own.new peer peer (Some group.new) }
{
    apply_completion(&mut own.posts, group, &caller, id, &call, &reply);
    own.posts
        .add_event(place, Event::Called(caller, call, reply));
}

/// Makes the step by a collective on a group whose number is over 7, recorded at `place`: its reply is a refusal, and nothing but
/// the rank journal changes. It takes no memory.
pub(crate) fn refuse(own: &mut Node, place: u64, caller: CallerId, call: Call, reply: Reply)
    requires named { (id : ℕ) × ((row_of call).group ≡ Some id) }
    requires step { MayStepOn (Called caller call reply) own.old None }
    ensures { (s t : State) (peer : Option Node) → IsStepOn s t (Called caller call reply) own.old peer None
        → IsLeft s t (Called caller call reply) place own.old own.new peer peer None }
{
    own.posts
        .add_event(place, Event::Called(caller, call, reply));
}
