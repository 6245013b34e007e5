//! The pending collectives of one rank.

use gaspi_types::{
    Args, BoxedSequence, Coll, GroupId, NoMemory, NumType, Numbers, Op, Refusal, Resume, ThreadId,
};
use std::alloc::Global;
use std::test::Fail;
use timeout_state::Pending;

/// The arguments of a sum of one number.
fn sum_of(alloc: Global, number: i32) -> Result<Args, NoMemory> {
    let items = BoxedSequence::copied_from(alloc, &[i128::from(number)])?;
    Ok(Args {
        coll: Coll::Allreduce(Op::Sum, NumType::Int, 1),
        values: Numbers::new(NumType::Int, items),
    })
}

/// What a collective of a thread finds pending on a group.
fn state(
    pending: &Pending,
    group: GroupId,
    thread: ThreadId,
    args: &Args,
) -> Result<Resume, Refusal> {
    pending.state(group, thread, args)
}

/// Makes a copy of a collective pending, where none is pending on the group. Whether that was so.
fn is_put_in(
    alloc: Global,
    pending: &mut Pending,
    group: GroupId,
    thread: ThreadId,
    args: &Args,
) -> Result<bool, NoMemory> {
    let fresh = matches!(pending.state(group, thread, args), Ok(Resume::Fresh));
    if fresh {
        pending.put_in(group, thread, args.copy(alloc)?);
    }
    Ok(fresh)
}

/// Whether this collective of a thread is pending on a group.
fn is_on(pending: &Pending, group: GroupId, thread: ThreadId, args: &Args) -> bool {
    match pending.on(group) {
        Some(kept) => kept.thread == thread && kept.args == *args,
        None => false,
    }
}

/// Whether no collective is pending on a group.
fn is_idle(pending: &Pending, group: GroupId) -> bool {
    pending.on(group).is_none()
}

/// Removes the pending collective of a group, where it is this one. Whether that was so.
fn is_taken_out(pending: &mut Pending, group: GroupId, thread: ThreadId, args: &Args) -> bool {
    let same = matches!(pending.state(group, thread, args), Ok(Resume::Same));
    same && pending.take_out(group, thread) == *args
}

/// Whether another collective is refused to this thread and to another on a group, and not on the next group.
fn is_refused(pending: &Pending, group: GroupId, thread: ThreadId, args: &Args) -> bool {
    let other = state(pending, group, thread, args);
    let active = state(pending, group, ThreadId::of(0), args);
    matches!(other, Err(Refusal::ResumeOther { kept }) if kept == args.coll)
        && matches!(active, Err(Refusal::ActiveCollective { thread: 2 }))
        && is_fresh(pending, GroupId::of(6), thread, args)
}

/// Whether a collective of a thread finds none pending on a group.
fn is_fresh(pending: &Pending, group: GroupId, thread: ThreadId, args: &Args) -> bool {
    matches!(state(pending, group, thread, args), Ok(Resume::Fresh))
}

/// Whether a collective is made pending, another refused, and the first removed.
fn is_resumed(alloc: Global, pending: &mut Pending, three: &Args, four: &Args) -> bool {
    let (group, thread) = (GroupId::of(7), ThreadId::of(2));
    is_idle(pending, group)
        && matches!(is_put_in(alloc, pending, group, thread, three), Ok(true))
        && is_on(pending, group, thread, three)
        && is_idle(pending, GroupId::of(6))
        && is_refused(pending, group, thread, four)
        && is_taken_out(pending, group, thread, three)
        && is_idle(pending, group)
        && is_fresh(pending, group, thread, four)
}

#[test]
fn collective_is_resumed_and_ended(rt: HostRuntime) -> Result<(), Fail> {
    let alloc = rt.alloc();
    let three = sum_of(alloc, 3)?;
    let four = sum_of(alloc, 4)?;
    let mut pending = Pending::new(alloc)?;
    assert!(rt; is_resumed(alloc, &mut pending, &three, &four));
    Ok(())
}
