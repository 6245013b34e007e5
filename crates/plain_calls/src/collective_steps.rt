//! The steps by a join and by a collective with its reply, on the posts of the caller's rank `me`, the memory of that rank, and the
//! group with the number `id`. Nothing is checked here: the look at these very values was made before.
//! (GASPI: collectives, groups, segments)

ghost use Rattle.std.specs.Prelude.{◌≡◌, ◌+◌, ◌<◌, ◌≤◌, ◌^◌, OnOk, OnErr, Some, Ok, false, true};
ghost use Rattle.gaspi_types.specs.Collectives.{contributions_of, round_of, with_joined, with_completed};
ghost use Rattle.gaspi_types.specs.Groups.{with_committed};
ghost use Rattle.gaspi_types.specs.Replies.{is_idle};
ghost use Rattle.gaspi_types.specs.Tables.{item_at};
ghost use Rattle.gaspi_types.specs.World.{are_limits};
ghost use Rattle.gaspi_types.specs.declared.shapes.Limits.{Limits};
ghost use Rattle.gaspi_model.specs.Calls.{recorded_reply};
ghost use Rattle.gaspi_model.specs.CollectiveCalls.{collective_answer, is_join_of, joining_call, contribution_of, made_generation, made_posts, made_memory, with_pending, joined_posts, posts_at_completion, completed_posts, is_joining};
ghost use Rattle.gaspi_model.specs.Contributions.{AreSoundContributions};
ghost use Rattle.gaspi_model.specs.Posting.{counted};
ghost use Rattle.gaspi_model.specs.Sound.{IsSoundPosts};
ghost use Rattle.gaspi_model.specs.State.{owed, thread_at};
ghost use Rattle.gaspi_model.specs.Step.{PostsAndGroup, completed, joined, Steps, is_there};
ghost use Rattle.plain_calls.specs.Looks.{recorded_of};
ghost use Rattle.plain_calls.specs.NumberBounds.{JoinIsBounded, CompletionIsBounded};
ghost use Rattle.plain_calls.specs.Rounds.{posts_after_collective, group_after_collective};

use crate::collective_calls::Joining;
use crate::contributions::{complete_round, join_round, register_round};
use crate::replies::{is_refused_or_timeout, recorded_reply};
use crate::segment_calls::{insert_segment, make_segment};
use gaspi_model::{Memory, Posts};
use gaspi_types::{
    Alloc, Call, Coll, Contribution, Group, Handle, Invocation, Limits, NoMemory,
    PendingCollective, RankId, Ready, Reply, Stage,
};
use segment_store::next_generation;
use std::alloc::Global;

/// Makes a collective pending on a group, or none. The rest of the posts stays; a number over 7 changes nothing.
fn set_pending(posts: &mut Posts, id: u64, pending: Option<PendingCollective>)
    ensures { posts.new ≡ with_pending id pending posts.old }
{
    let place = id as usize;
    if place < posts.pending.len() {
        *posts.pending.at_mut(place) = pending;
    }
}

/// Makes the stage of a group committed. Where there is no such group nothing changes. (GASPI: group_commit)
fn commit_group(posts: &mut Posts, id: u64)
    ensures { posts.new ≡ record posts.old { groups = with_committed posts.old.groups id } }
{
    let committed = posts.groups.handle(id).map(|handle| Handle {
        stage: Stage::Committed,
        ..handle
    });
    posts.groups.set(id, committed);
}

/// Changes the posts of `me` as the kind of a collective asks at its completion: a `commit` makes the stage of its group committed,
/// a create makes the new segment of each member known. What is pending and the count of events stay.
/// (GASPI: group_commit, segment_create)
fn complete_posts(posts: &mut Posts, group: &Group, me: RankId, id: u64, call: &Call)
    requires { CompletionIsBounded call.now }
    ensures { posts.new ≡ posts_at_completion group.now me id call.now posts.old }
{
    match call {
        Call::Commit(_) => commit_group(posts, id),
        Call::Create(call) => register_round(posts, group, me, call.seg, call.size as u32),
        _ => {}
    }
}

/// Makes the effect of a collective with its reply, and counts the event. A refusal or a timeout changes the count alone. Otherwise
/// the round of `me` is completed, and none is pending on the group.
fn apply_completion(
    posts: &mut Posts,
    group: &mut Group,
    me: RankId,
    id: u64,
    call: &Call,
    reply: &Reply,
)
    requires bounded { is_idle reply.now ≡ false → CompletionIsBounded call.now }
    requires rounds { round_of group.old me + 1 < 2 ^ 32 }
    requires events { posts.old.events + 1 < 2 ^ 32 }
    ensures posts { posts.new ≡ posts_after_collective posts.old group.old me id call.now reply.now }
    ensures group { group.new ≡ group_after_collective group.old me reply.now }
{
    if !is_refused_or_timeout(reply) {
        complete_posts(posts, group, me, id, call);
        set_pending(posts, id, None);
        complete_round(group, me);
    }
    posts.events += 1;
}

/// Records a collective with the answer of its look, and gives the reply with which it was recorded. The look was at this very call
/// on these very posts and this group, and found no join. Where the rank has room for one event, this is the step by the call.
/// `used` is the rank's used room, before and after. It takes no memory. (GASPI: collectives, timeouts)
pub fn complete(
    invocation: &Invocation<'_>,
    id: u64,
    posts: &mut Posts,
    group: &mut Group,
    used: &mut u32,
    ready: Ready,
) -> Reply
    requires part { AreSoundContributions posts.old.events (item_at posts.old.pending id) (contributions_of group.old invocation.now.caller.rank) }
    requires used { used.old ≡ posts.old.events + owed posts.old }
    requires few { used.old + 1 < 2 ^ 32 }
    requires there { is_there (thread_at posts.old invocation.now.caller.thread) ≡ true }
    requires look { ready ≡ collective_answer posts.old group.old invocation.now.caller.rank invocation.now.caller.thread id invocation.now.call.now }
    requires unjoined { is_joining ready ≡ false }
    ensures reply { result ≡ recorded_reply ready }
    ensures step { (limits : Limits) → posts.old.events + owed posts.old + 1 ≤ limits.events
        → completed limits invocation.now.caller.rank posts.old group.old invocation.now.caller.thread id invocation.now.call.now (recorded_reply ready) ≡ Ok (record { posts = posts.new; group = group.new }) }
    ensures used { used.new ≡ posts.new.events + owed posts.new }
{
    let reply = recorded_reply(ready);
    apply_completion(
        posts,
        group,
        invocation.caller.rank,
        id,
        invocation.call,
        &reply,
    );
    *used += 1;
    reply
}

/// The generation of the segment that a collective makes at its join; 0 where it makes none. (GASPI: segment_create)
fn made_generation(posts: &Posts, coll: Coll) -> u32
    ensures { result ≡ made_generation posts.now coll }
{
    match coll {
        Coll::Create(seg, _) => next_generation(&posts.segments.next_generations, u64::from(seg)),
        _ => 0,
    }
}

/// Adds a contribution of `me` to its round, and makes the segment of a create. What is pending and the count of events stay. Where
/// memory runs out nothing changes. (GASPI: collectives, segment_create)
fn contribute(
    alloc: Global,
    limits: &Limits,
    me: RankId,
    posts: &mut Posts,
    memory: &mut Memory,
    group: &mut Group,
    contribution: Contribution,
) -> Result<(), NoMemory>
    requires { JoinIsBounded posts.old contribution.args.coll }
    ensures posts { OnOk result (posts.new ≡ made_posts posts.old contribution.args.coll) }
    ensures memory { OnOk result (memory.new ≡ made_memory limits.now posts.old memory.old contribution.args.coll) }
    ensures group { OnOk result (group.new ≡ with_joined group.old me contribution) }
    ensures posts_kept { OnErr result (posts.new ≡ posts.old) }
    ensures memory_kept { OnErr result (memory.new ≡ memory.old) }
    ensures group_kept { OnErr result (group.new ≡ group.old) }
{
    match contribution.args.coll {
        Coll::Create(seg, size) => {
            let call = Alloc {
                seg: u64::from(seg),
                size: u64::from(size),
            };
            let made = make_segment(alloc, limits, posts, &call)?;
            join_round(group, me, contribution)?;
            insert_segment(posts, memory, &call, made);
            Ok(())
        }
        _ => join_round(group, me, contribution),
    }
}

/// Makes the effect of a join: the rank has contributed to its round, the segment of a create is made, the collective is pending for
/// its caller, and one event more is counted. All memory is taken first; where it runs out nothing changes.
fn apply_join(
    alloc: Global,
    limits: &Limits,
    joining: &Joining<'_>,
    posts: &mut Posts,
    memory: &mut Memory,
    group: &mut Group,
) -> Result<(), NoMemory>
    requires bounded { JoinIsBounded posts.old joining.now.args.now.coll }
    requires events { posts.old.events + 1 < 2 ^ 32 }
    ensures posts { OnOk result (posts.new ≡ counted (joined_posts posts.old joining.now.caller.thread joining.now.group joining.now.args.now)) }
    ensures memory { OnOk result (memory.new ≡ made_memory limits.now posts.old memory.old joining.now.args.now.coll) }
    ensures group { OnOk result (group.new ≡ with_joined group.old joining.now.caller.rank (contribution_of posts.old joining.now.args.now)) }
    ensures posts_kept { OnErr result (posts.new ≡ posts.old) }
    ensures memory_kept { OnErr result (memory.new ≡ memory.old) }
    ensures group_kept { OnErr result (group.new ≡ group.old) }
{
    let pending = PendingCollective {
        thread: joining.caller.thread,
        args: joining.args.copy(alloc)?,
    };
    let contribution = Contribution {
        args: joining.args.copy(alloc)?,
        generation: made_generation(posts, joining.args.coll),
    };
    contribute(
        alloc,
        limits,
        joining.caller.rank,
        posts,
        memory,
        group,
        contribution,
    )?;
    set_pending(posts, u64::from(joining.group.number()), Some(pending));
    posts.events += 1;
    Ok(())
}

/// Makes the step by a join. The caller has a section, its collective may join this group with these arguments, and its rank has
/// room for one event. `used` is the rank's used room, before and after. Where memory runs out nothing changes.
/// (GASPI: collectives, segment_create)
pub fn join(
    alloc: Global,
    limits: &Limits,
    joining: &Joining<'_>,
    posts: &mut Posts,
    memory: &mut Memory,
    group: &mut Group,
    used: &mut u32,
) -> Result<(), NoMemory>
    requires limits { are_limits limits.now ≡ true }
    requires sound { IsSoundPosts limits.now posts.old }
    requires used { used.old ≡ posts.old.events + owed posts.old }
    requires there { is_there (thread_at posts.old joining.now.caller.thread) ≡ true }
    requires joins { is_join_of (collective_answer posts.old group.old joining.now.caller.rank joining.now.caller.thread joining.now.group (joining_call joining.now.group joining.now.args.now)) joining.now.args.now ≡ true }
    requires room { posts.old.events + owed posts.old + 1 ≤ limits.now.events }
    ensures step { Steps {S = PostsAndGroup} (recorded_of result) (record { posts = posts.old; group = group.old }) (record { posts = posts.new; group = group.new }) (joined limits.now joining.now.caller.rank posts.old group.old joining.now.caller.thread joining.now.group joining.now.args.now) }
    ensures memory { OnOk result (memory.new ≡ made_memory limits.now posts.old memory.old joining.now.args.now.coll) }
    ensures memory_kept { OnErr result (memory.new ≡ memory.old) }
    ensures used { used.new ≡ posts.new.events + owed posts.new }
{
    apply_join(alloc, limits, joining, posts, memory, group)?;
    *used += 1;
    Ok(())
}
