//! What a look at a collective finds, with its checks and its arguments. Nothing changes here; `collective_steps` has the steps.
//! `me` is the caller's rank and `id` the id of the collective's group. *Plain* arguments have no values: those of every collective
//! but an allreduce. (GASPI: collectives, groups, segments, timeouts)

ghost use Rattle.std.specs.Prelude.{◌≡◌, ℕ, length, true, false, Ok, OnOk, IfOk, IsOk};
ghost use Rattle.std.specs.Option.{option_map};
ghost use Rattle.gaspi_types.specs.Collectives.{no_values, contributions_of, is_round_full};
ghost use Rattle.gaspi_types.specs.Groups.{fix_checks};
ghost use Rattle.gaspi_types.specs.Tables.{item_at};
ghost use Rattle.gaspi_types.specs.declared.calls.Call.TheVariants as calls;
ghost use Rattle.gaspi_model.specs.CollectiveCalls.{element_checks, committed_at, building_with, staged_at, plain_args, args_of, segment_checks, agreement_checks, fresh_result, full_reply, resumed_answer, collective_ready, collective_answer, is_join_of, joining_call};
ghost use Rattle.gaspi_model.specs.Contributions.{IsSoundGroup, AreSoundContributions};
ghost use Rattle.plain_calls.specs.Memory.{is_allreduce};
ghost use Rattle.plain_calls.specs.Rounds.{called_on, IsReducible};

use crate::contributions::{check_round, is_round_full, round_reduction};
use crate::group_calls::pending_on;
use crate::threads::{is_running, thread_at};
use gaspi_model::{Posts, check_count, check_type, resume, same_args};
use gaspi_types::{
    Allreduce, Args, Barrier, BoxedSequence, Call, CallerId, Coll, Commit, Create, Group, GroupId,
    Handle, Handles, NoMemory, NumType, Numbers, RankId, Ready, Refusal, Reply, Resume, Stage,
    ThreadId, is_member,
};
use segment_store::check_alloc;
use std::alloc::Global;

/// Checks the elements of an allreduce: their count (`BadCount`), and then their type (`FloatType`). Every other collective passes.
/// (GASPI: allreduce)
fn check_elements(call: &Call) -> Result<(), Refusal>
    ensures { result ≡ element_checks call.now }
{
    match call {
        Call::Allreduce(call) => {
            check_count(call.values.items().len() as u64)?;
            check_type(call.values.num_type())
        }
        _ => Ok(()),
    }
}

/// The handle of group `id`, where its stage is committed: else `NoGroup`, or `GroupStage` where its stage is building.
fn committed_at(groups: &Handles, id: u64) -> Result<Handle, Refusal>
    ensures { result ≡ committed_at groups.now id }
{
    let handle = groups.handle(id).ok_or(Refusal::NoGroup)?;
    match handle.stage {
        Stage::Committed => Ok(handle),
        Stage::Building => Err(Refusal::GroupStage {
            stage: handle.stage,
        }),
    }
}

/// The handle of group `id`, where its stage is building and the rank `me` is in it: else `NoGroup`, `GroupStage` where its stage is
/// committed, or `NotMember`.
fn building_with(groups: &Handles, me: RankId, id: u64) -> Result<Handle, Refusal>
    ensures { result ≡ building_with groups.now me id }
{
    let handle = groups.building(id)?;
    if !is_member(handle.members, me) {
        return Err(Refusal::NotMember);
    }
    Ok(handle)
}

/// The handle of the group of a collective, where its stage is that which the collective needs: building for a `commit`, committed
/// for each other.
fn staged_at(groups: &Handles, me: RankId, id: u64, call: &Call) -> Result<Handle, Refusal>
    ensures { result ≡ staged_at groups.now me id call.now }
{
    match call {
        Call::Commit(_) => building_with(groups, me, id),
        _ => committed_at(groups, id),
    }
}

/// The handle of the group of a collective, where neither its elements nor the group's stage refuse it. What is pending on the
/// group, and its rounds, are not asked here.
pub fn called_on(groups: &Handles, me: RankId, id: u64, call: &Call) -> Result<Handle, Refusal>
    ensures group { result ≡ called_on groups.now me id call.now }
    ensures elements { OnOk result (element_checks call.now ≡ Ok tt) }
{
    check_elements(call)?;
    staged_at(groups, me, id, call)
}

/// No values. Their type is of no account.
fn no_values() -> Numbers
    ensures { result ≡ no_values }
{
    Numbers::new(NumType::Int, BoxedSequence::new())
}

/// What a create asks for; None where its id or its size is over 32 bits.
fn create_coll(call: &Create) -> Option<Coll>
    ensures { (members : ℕ) → option_map plain_args result ≡ args_of members (calls.Create call.now) }
{
    if call.seg > u64::from(u32::MAX) || call.size > u64::from(u32::MAX) {
        return None;
    }
    Some(Coll::Create(call.seg as u32, call.size as u32))
}

/// What a collective without values asks for, on a group with these members; None for every other call, and for a create whose id or
/// size is over 32 bits.
fn plain_coll(members: u32, call: &Call) -> Option<Coll>
    ensures { is_allreduce call.now ≡ false → option_map plain_args result ≡ args_of members call.now }
{
    match call {
        Call::Commit(_) => Some(Coll::Commit(members)),
        Call::Barrier(_) => Some(Coll::Barrier),
        Call::Create(call) => create_coll(call),
        _ => None,
    }
}

/// The arguments of a collective on a group with these members; None where the id or the size of a create is over 32 bits. The
/// elements were checked. Only an allreduce takes memory, for a copy of its values.
pub fn args_of(alloc: Global, members: u32, call: &Call) -> Result<Option<Args>, NoMemory>
    requires { element_checks call.now ≡ Ok tt }
    ensures args { IfOk result (λ args. args ≡ args_of members call.now) }
    ensures ample { is_allreduce call.now ≡ false → IsOk result }
{
    if let Call::Allreduce(call) = call {
        let values = call.values.copy(alloc)?;
        let count = call.values.items().len() as u32;
        let coll = Coll::Allreduce(call.op, call.values.num_type(), count);
        return Ok(Some(Args { coll, values }));
    }
    match plain_coll(members, call) {
        Some(coll) => Ok(Some(Args {
            coll,
            values: no_values(),
        })),
        None => Ok(None),
    }
}

/// Checks the segment that a create is to make, as `alloc` does. Every other collective passes. (GASPI: segment_create)
fn check_segment(posts: &Posts, call: &Call) -> Result<(), Refusal>
    ensures { result ≡ segment_checks posts.now call.now }
{
    match call {
        Call::Create(call) => check_alloc(&posts.segments.own, call.seg, call.size),
        _ => Ok(()),
    }
}

/// Checks the ranks of a `commit` against the member list of its group: where one is fixed, it is the same; else `GroupMismatch`.
/// `kept` is the list that is fixed. (own choice)
pub fn check_fixed(fixed: Option<u32>, mask: u32) -> Result<(), Refusal>
    ensures { result ≡ fix_checks fixed mask }
{
    match fixed {
        Some(kept) if kept != mask => Err(Refusal::GroupMismatch { kept }),
        _ => Ok(()),
    }
}

/// Checks a collective against those of other members: a `commit` by the member list that is fixed, each other by the round of `me`.
fn check_agreement(group: &Group, me: RankId, coll: Coll) -> Result<(), Refusal>
    ensures { result ≡ agreement_checks group.now me coll }
{
    match coll {
        Coll::Commit(mask) => check_fixed(group.members, mask),
        _ => check_round(group, me, coll),
    }
}

/// The result of a collective where no collective of its rank is pending on the group: it may join, with `args`, or it is refused.
/// `args` are the arguments of the call.
fn fresh_result(
    posts: &Posts,
    group: &Group,
    me: RankId,
    args: Option<Args>,
    call: &Call,
) -> Result<Ready, Refusal>
    ensures { (members : ℕ) → args ≡ args_of members call.now → result ≡ fresh_result posts.now group.now me members call.now }
{
    check_segment(posts, call)?;
    let args = args.ok_or(Refusal::BadSize)?;
    check_agreement(group, me, args.coll)?;
    Ok(Ready::Join(args))
}

/// The reply of a collective whose round is full: `List` of the reduction for an allreduce, which takes memory for it, and else
/// `Done`. The contributions to the round of an allreduce have as many values, of the same type. (GASPI: allreduce)
fn full_reply(alloc: Global, group: &Group, me: RankId, call: &Call) -> Result<Reply, NoMemory>
    requires full { is_round_full group.now me ≡ true }
    requires reducible { IsReducible group.now me call.now }
    ensures reply { IfOk result (λ reply. reply ≡ full_reply group.now me call.now) }
    ensures ample { is_allreduce call.now ≡ false → IsOk result }
{
    match call {
        Call::Allreduce(call) => {
            let total = round_reduction(alloc, group, me, call.op, call.values.num_type())?;
            Ok(Reply::List(total))
        }
        _ => Ok(Reply::Done),
    }
}

/// The answer to a collective that is pending for its caller: its reply where its round is full, else not ready. Only an allreduce
/// takes memory; the contributions to its round have as many values, of the same type.
fn resumed_answer(alloc: Global, group: &Group, me: RankId, call: &Call) -> Result<Ready, NoMemory>
    requires reducible { IsReducible group.now me call.now }
    ensures finds { IfOk result (λ ready. ready ≡ resumed_answer group.now me call.now) }
    ensures ample { is_allreduce call.now ≡ false → IsOk result }
{
    if !is_round_full(group, me) {
        return Ok(Ready::NotReady);
    }
    Ok(Ready::Reply(full_reply(alloc, group, me, call)?))
}

/// The answer that a result comes to: a refusal is a reply.
pub fn collective_ready(finds: Result<Ready, Refusal>) -> Ready
    ensures { result ≡ collective_ready finds }
{
    match finds {
        Ok(ready) => ready,
        Err(refusal) => Ready::Reply(Reply::Refused(refusal)),
    }
}

/// The answer to a collective: it may join, with its arguments; it is refused or done, with its reply; or it is not ready. Posts and
/// group are those of a sound state. Only an allreduce takes memory, for its values and for the reduction of a full round. The cost
/// goes by members and elements, never by rounds. (GASPI: collectives, timeouts)
pub fn collective_look(
    alloc: Global,
    posts: &Posts,
    group: &Group,
    me: RankId,
    thread: ThreadId,
    id: u64,
    call: &Call,
) -> Result<Ready, NoMemory>
    requires group { IsSoundGroup (length group.now.contributions) group.now }
    requires part { AreSoundContributions posts.now.events (item_at posts.now.pending id) (contributions_of group.now me) }
    ensures look { IfOk result (λ ready. ready ≡ collective_answer posts.now group.now me thread id call.now) }
    ensures ample { is_allreduce call.now ≡ false → IsOk result }
{
    if !is_running(thread_at(posts, thread)) {
        return Ok(collective_ready(Err(Refusal::CallerEnded)));
    }
    let handle = match called_on(&posts.groups, me, id, call) {
        Ok(handle) => handle,
        Err(refusal) => return Ok(collective_ready(Err(refusal))),
    };
    let args = args_of(alloc, handle.members, call)?;
    match resume(pending_on(&posts.pending, id), thread, args.as_ref()) {
        Ok(Resume::Fresh) => Ok(collective_ready(fresh_result(posts, group, me, args, call))),
        Ok(Resume::Same) => resumed_answer(alloc, group, me, call),
        Err(refusal) => Ok(collective_ready(Err(refusal))),
    }
}

/// The collective that joins group `id` with these arguments. Only an allreduce takes memory, for a copy of its values.
fn joining_call(alloc: Global, id: u64, args: &Args) -> Result<Call, NoMemory>
    ensures { IfOk result (λ call. call ≡ joining_call id args.now) }
{
    Ok(match args.coll {
        Coll::Barrier => Call::Barrier(Barrier { group: id }),
        Coll::Allreduce(op, _, _) => Call::Allreduce(Allreduce {
            group: id,
            op,
            values: args.values.copy(alloc)?,
        }),
        Coll::Create(seg, size) => Call::Create(Create {
            seg: u64::from(seg),
            size: u64::from(size),
            group: id,
        }),
        Coll::Commit(_) => Call::Commit(Commit { group: id }),
    })
}

/// The join of a caller: its group, and the arguments of its collective. (GASPI: collectives)
#[derive(Debug, Drop)]
pub struct Joining<'a> {
    /// The caller that joins.
    pub caller: CallerId,
    /// The group.
    pub group: GroupId,
    /// The arguments of its collective.
    pub args: &'a Args,
}

/// Whether a join may come: its collective may join the group, with just these arguments. `group` is the one that `joining` names,
/// and `posts` are those of the caller's rank, in a sound state. Nothing changes. An allreduce takes memory. (GASPI: collectives)
pub fn may_join(
    alloc: Global,
    joining: &Joining<'_>,
    posts: &Posts,
    group: &Group,
) -> Result<bool, NoMemory>
    requires group { IsSoundGroup (length group.now.contributions) group.now }
    requires part { AreSoundContributions posts.now.events (item_at posts.now.pending joining.now.group) (contributions_of group.now joining.now.caller.rank) }
    ensures { IfOk result (λ may. may ≡ is_join_of (collective_answer posts.now group.now joining.now.caller.rank joining.now.caller.thread joining.now.group (joining_call joining.now.group joining.now.args.now)) joining.now.args.now) }
{
    let id = u64::from(joining.group.number());
    let caller = joining.caller;
    let call = joining_call(alloc, id, joining.args)?;
    match collective_look(alloc, posts, group, caller.rank, caller.thread, id, &call)? {
        Ready::Join(may) => Ok(same_args(&may, joining.args)),
        Ready::Reply(_) | Ready::NotReady => Ok(false),
    }
}
