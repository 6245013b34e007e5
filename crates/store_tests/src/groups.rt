//! The groups of one rank, and the member list of a group id.

use gaspi_types::{NoMemory, RankId, Refusal, Stage};
use group_registry::{Groups, Meeting};
use std::alloc::Global;
use std::test::Fail;

/// The groups of rank 2 at its start, in a world of four ranks.
fn opening(alloc: Global) -> Result<Groups, NoMemory> {
    Groups::new(alloc, RankId::of(2), 4)
}

/// The stage of a group.
fn stage(groups: &Groups, group: u64) -> Result<Stage, Refusal> {
    groups.stage(group)
}

/// Makes a group. Whether it has that number, and `next` answered it before.
fn is_made(groups: &mut Groups, id: u32) -> bool {
    let told = matches!(groups.next(), Ok(group) if group.number() == id);
    told && matches!(groups.create(), Ok(group) if group.number() == id)
}

/// How many groups the rank has made, by its handles.
fn made(groups: &Groups) -> u32 {
    groups.handles().last_id
}

/// The refusal of one more group, or None where it is made.
fn create(groups: &mut Groups) -> Option<Refusal> {
    groups.create().err()
}

/// The answer where a rank is added to a group.
fn add(groups: &mut Groups, group: u64, rank: RankId) -> Result<(), Refusal> {
    groups.add(group, rank)
}

/// Commits a group, and gives its ranks.
fn commit(groups: &mut Groups, group: u64) -> Result<u32, Refusal> {
    let members = groups.commit_list(group)?;
    groups.committed(group);
    Ok(members)
}

/// The answer where a group is deleted.
fn delete(groups: &mut Groups, group: u64) -> Result<(), Refusal> {
    groups.delete(group)
}

/// Whether an answer is that the group is committed.
fn is_late(answer: Result<(), Refusal>) -> bool {
    matches!(
        answer,
        Err(Refusal::GroupStage {
            stage: Stage::Committed
        })
    )
}

/// Whether group 0 is there and stays, and group 1 is not there.
fn is_start(groups: &mut Groups) -> bool {
    matches!(stage(groups, 0), Ok(Stage::Committed))
        && is_late(delete(groups, 0))
        && matches!(stage(groups, 1), Err(Refusal::NoGroup))
}

/// Makes group 1 of ranks 0 and 2. Whether that went well.
fn is_built(groups: &mut Groups) -> bool {
    is_made(groups, 1)
        && add(groups, 1, RankId::of(0)).is_ok()
        && matches!(commit(groups, 1), Err(Refusal::NotMember))
        && add(groups, 1, RankId::of(2)).is_ok()
        && add(groups, 1, RankId::of(0)).is_ok()
}

/// Commits group 1. Whether it has its ranks, and takes no more.
fn is_committed(groups: &mut Groups) -> bool {
    matches!(commit(groups, 1), Ok(5))
        && matches!(stage(groups, 1), Ok(Stage::Committed))
        && is_late(add(groups, 1, RankId::of(3)))
}

/// Deletes group 1. Whether it is gone.
fn is_deleted(groups: &mut Groups) -> bool {
    delete(groups, 1).is_ok() && matches!(stage(groups, 1), Err(Refusal::NoGroup))
}

/// Makes the other groups. Whether there are as many as there may be, and no more.
fn are_made(groups: &mut Groups) -> bool {
    for id in 2..8u32 {
        if !is_made(groups, id) {
            return false;
        }
    }
    made(groups) == 7 && matches!(create(groups), Some(Refusal::GroupsFull))
}

#[test]
fn groups_are_built_and_committed(rt: HostRuntime) -> Result<(), Fail> {
    let mut groups = opening(rt.alloc())?;
    assert!(rt; is_start(&mut groups));
    assert!(rt; is_built(&mut groups));
    assert!(rt; is_committed(&mut groups));
    assert!(rt; is_deleted(&mut groups));
    assert!(rt; are_made(&mut groups));
    Ok(())
}

/// Whether a member list is fixed.
fn is_fixed(meeting: &mut Meeting, mask: u32) -> bool {
    meeting.fix(mask).is_ok() && meeting.members() == Some(mask)
}

/// Whether a member list is refused, since `kept` is fixed.
fn is_refused(meeting: &mut Meeting, mask: u32, kept: u32) -> bool {
    meeting.fix(mask) == Err(Refusal::GroupMismatch { kept })
}

#[test]
fn first_list_is_kept(rt: HostRuntime) {
    let mut meeting = Meeting::new();
    assert!(rt; meeting.members().is_none());
    assert!(rt; is_fixed(&mut meeting, 5));
    assert!(rt; is_refused(&mut meeting, 7, 5) && is_fixed(&mut meeting, 5));
}
