//! The answer of a look at a collective, on the posts of the caller's rank and the node of the group. `look` is the look itself,
//! `look_nowhere` that on a number over 7, for which there is no group, and `look_again` the second look after a join, in reserved
//! memory. The other functions are their helpers. Posts and group do not change. (GASPI: collectives, timeouts)

ghost use Rattle.std.specs.Prelude.{◌≡◌, ◌≤◌, ◌<◌, ℕ, true, false, Some, IfOk, IsOk, length};
ghost use Rattle.std.specs.Option.{option_copied};
ghost use Rattle.gaspi_types.specs.CallRows.{row_of};
ghost use Rattle.gaspi_types.specs.Tables.{item_at};
ghost use Rattle.gaspi_types.specs.declared.groups.Args.{Args};
ghost use Rattle.gaspi_types.specs.declared.groups.Group.{Group};
ghost use Rattle.gaspi_types.specs.declared.replies.Ready.TheVariants.{NotReady};
ghost use Rattle.collective_engine.specs.RoundBuffers.{is_in, may_join, is_full_for};
ghost use Rattle.gaspi_model.specs.CollectiveCalls.{args_of, segment_checks, agreement_checks, fresh_result, full_reply, resumed_answer, collective_answer};
ghost use Rattle.gaspi_model.specs.State.{thread_at, is_running};
ghost use Rattle.rank_node.specs.Lending.{IsGroupNode};
ghost use Rattle.rank_node.specs.Collectives.{AreSoundTogether, AgreeOnGroup, is_commit, IsMine, TakesOwn};
ghost use Rattle.rank_node.specs.Numbers.{elements_in, ReplyFits, AnswerFits};

use crate::node_posts::NodePosts;
use crate::nodes::GroupNode;
use crate::reserved_numbers::{ReservedNumbers, blank, take_numbers};
use crate::resuming::resumes;
use gaspi_types::{
    Args, BoxedSequence, Call, Coll, NoMemory, PendingCollective, RankId, Ready, Refusal, Reply,
    Resume, ThreadId,
};
use plain_calls::{args_of, called_on, check_fixed, collective_ready};
use segment_store::check_alloc;
use std::alloc::Global;

/// Checks the segment that a create is to make, as `alloc` does. Every other collective passes. (GASPI: segment_create)
fn check_segment(own: &NodePosts, call: &Call) -> Result<(), Refusal>
    ensures { result ≡ segment_checks own.now.posts call.now }
{
    match call {
        Call::Create(call) => check_alloc(&own.segments.own, call.seg, call.size),
        _ => Ok(()),
    }
}

/// Checks a collective against those of other members: a `commit` by the member list that is fixed, each other by the round of `me`,
/// to which `me` may contribute (`may_join`).
fn check_meeting(group: &GroupNode, me: RankId, args: &Args) -> Result<(), Refusal>
    requires { is_commit args.now.coll ≡ false → may_join group.now.rounds me args.now.coll ≡ true }
    ensures { (g : Group) → IsGroupNode g group.now → result ≡ agreement_checks g me args.now.coll }
{
    match args.coll {
        Coll::Commit(mask) => check_fixed(group.meeting.members(), mask),
        _ => group.rounds.fits(me, args),
    }
}

/// The result of a collective where no collective of its rank is pending on the group: it may join, with `args`, or it is refused.
/// `args` are the arguments of the call. By the counts of the group, the rank may contribute (`may_join`).
fn fresh_result(
    own: &NodePosts,
    group: &GroupNode,
    args: Option<Args>,
    call: &Call,
) -> Result<Ready, Refusal>
    requires { (a : Args) → args ≡ Some a → is_commit a.coll ≡ false → may_join group.now.rounds own.now.me a.coll ≡ true }
    ensures finds { (g : Group) (members : ℕ) → IsGroupNode g group.now → args ≡ args_of members call.now
        → result ≡ fresh_result own.now.posts g own.now.me members call.now }
    ensures fits { (members : ℕ) → args ≡ args_of members call.now → IfOk result (λ ready. AnswerFits ready (elements_in call.now)) }
{
    check_segment(own, call)?;
    let args = args.ok_or(Refusal::BadSize)?;
    check_meeting(group, own.me, &args)?;
    Ok(Ready::Join(args))
}

/// The reply of a collective whose round is full: for an allreduce the reduction, in `list`, which is long enough. It takes no
/// memory. (GASPI: allreduce)
fn full_reply(group: &GroupNode, me: RankId, call: &Call, list: BoxedSequence<i128>) -> Reply
    requires member { is_in group.now.rounds.members me ≡ true }
    requires full { is_full_for group.now.rounds me ≡ true }
    requires capacity { TakesOwn call.now group.now.rounds me (length list) }
    ensures reply { (g : Group) → IsMine g group.now me call.now → result ≡ full_reply g me call.now }
    ensures fits { ReplyFits result (length list) }
{
    match call {
        Call::Allreduce(_) => Reply::List(group.rounds.result(me, list)),
        _ => Reply::Done,
    }
}

/// As many zeros as a call has elements. Only an allreduce takes memory.
fn blank_for(alloc: Global, call: &Call) -> Result<BoxedSequence<i128>, NoMemory>
    ensures capacity { IfOk result (λ numbers. length numbers ≡ elements_in call.now) }
    ensures ample { (row_of call.now).takes_memory ≡ false → IsOk result }
{
    match call {
        Call::Allreduce(call) => blank(alloc, call.values.items().len()),
        _ => Ok(BoxedSequence::new()),
    }
}

/// The answer to a collective that is pending for its caller, and with which its rank has joined the round: its reply where that is
/// full, else not ready. Only an allreduce whose round is full takes memory.
fn resumed_answer(
    alloc: Global,
    group: &GroupNode,
    me: RankId,
    call: &Call,
) -> Result<Ready, NoMemory>
    requires { (g : Group) × IsMine g group.now me call.now }
    ensures finds { (g : Group) → IsMine g group.now me call.now → IfOk result (λ ready. ready ≡ resumed_answer g me call.now) }
    ensures fits { IfOk result (λ ready. AnswerFits ready (elements_in call.now)) }
    ensures ample { (row_of call.now).takes_memory ≡ false → IsOk result }
    ensures unready { (g : Group) → IsMine g group.now me call.now → resumed_answer g me call.now ≡ NotReady → IsOk result }
{
    if !group.rounds.full(me) {
        return Ok(Ready::NotReady);
    }
    let list = blank_for(alloc, call)?;
    Ok(Ready::Reply(full_reply(group, me, call, list)))
}

/// The answer to a collective of a thread of the own rank on group `id`: it may join, with its arguments, or it is not ready, or it
/// is refused or done, with its reply. It takes memory only where the call's row says so, and none where it is not ready.
/// (GASPI: collectives, timeouts)
pub(crate) fn look(
    alloc: Global,
    own: &NodePosts,
    group: &GroupNode,
    thread: ThreadId,
    id: u64,
    call: &Call,
) -> Result<Ready, NoMemory>
    requires there { id < 8 }
    requires together { AgreeOnGroup own.now id group.now }
    ensures look { (g : Group) → AreSoundTogether own.now.posts own.now.me id g → IsGroupNode g group.now
        → IfOk result (λ ready. ready ≡ collective_answer own.now.posts g own.now.me thread id call.now) }
    ensures fits { IfOk result (λ ready. AnswerFits ready (elements_in call.now)) }
    ensures ample { (row_of call.now).takes_memory ≡ false → IsOk result }
    ensures unready { (g : Group) → AreSoundTogether own.now.posts own.now.me id g → IsGroupNode g group.now → collective_answer own.now.posts g own.now.me thread id call.now ≡ NotReady → IsOk result }
{
    if !own.is_running(thread) {
        return Ok(collective_ready(Err(Refusal::CallerEnded)));
    }
    let handle = match called_on(own.groups.handles(), own.me, id, call) {
        Ok(handle) => handle,
        Err(refusal) => return Ok(collective_ready(Err(refusal))),
    };
    match resumes(own.pending_at(id), thread, handle.members, call) {
        Ok(Resume::Fresh) => {
            let args = args_of(alloc, handle.members, call)?;
            Ok(collective_ready(fresh_result(own, group, args, call)))
        }
        Ok(Resume::Same) => resumed_answer(alloc, group, own.me, call),
        Err(refusal) => Ok(collective_ready(Err(refusal))),
    }
}

/// The answer to a collective of a thread on a number over 7, for which there is no group: a refusal.
pub(crate) fn look_nowhere(own: &NodePosts, thread: ThreadId, id: u64, call: &Call) -> Ready
    requires { 8 ≤ id }
    ensures look { (g : Group) → result ≡ collective_answer own.now.posts g own.now.me thread id call.now }
    ensures fits { AnswerFits result (elements_in call.now) }
{
    if !own.is_running(thread) {
        return collective_ready(Err(Refusal::CallerEnded));
    }
    match called_on(own.groups.handles(), own.me, id, call) {
        Ok(_) => unreachable!(),
        Err(refusal) => collective_ready(Err(refusal)),
    }
}

/// The answer to a collective of `me` that is pending for its caller, with the numbers of a reply in the list for the event; where
/// it is not ready, `room` stays as it is. It takes no memory. (GASPI: timeouts)
pub(crate) fn look_again(
    group: &GroupNode,
    me: RankId,
    call: &Call,
    room: &mut ReservedNumbers,
) -> Ready
    requires mine { (g : Group) × IsMine g group.now me call.now }
    requires capacity { elements_in call.now ≤ room.old.event }
    ensures finds { (g : Group) → IsMine g group.now me call.now → result ≡ resumed_answer g me call.now }
    ensures fits { AnswerFits result room.old.event }
    ensures caller { room.new.caller ≡ room.old.caller }
    ensures kept { result ≡ NotReady → room.new ≡ room.old }
{
    if !group.rounds.full(me) {
        return Ready::NotReady;
    }
    let list = take_numbers(&mut room.event);
    Ready::Reply(full_reply(group, me, call, list))
}
