//! The calls on the groups of one rank, and what is pending on a group. The functions with `_result` give the result of their call:
//! its refusal, or its reply; `groups` has the handles of the caller's rank, and `pending` is what is pending on the group of the
//! call; a clause on a result speaks of all posts that have these. The functions with `_effect` make its effect. (GASPI: groups)

ghost use Rattle.std.specs.Prelude.{◌≡◌, ◌+◌, ◌<◌, ◌^◌};
ghost use Rattle.std.specs.Option.{option_copied};
ghost use Rattle.gaspi_types.specs.Groups.{idle_check};
ghost use Rattle.gaspi_types.specs.Tables.{item_at};
ghost use Rattle.gaspi_types.specs.declared.shapes.Limits.{Limits};
ghost use Rattle.gaspi_model.specs.GroupCalls.{group_create_result, group_create_effect, group_add_result, group_add_effect, group_delete_result, group_delete_effect};
ghost use Rattle.gaspi_model.specs.declared.states.Posts.{Posts};

use gaspi_model::Posts;
use gaspi_types::{
    GroupAdd, GroupDelete, Handle, Handles, PendingCollective, RankId, Refusal, Reply, Sequence,
    Stage, with_member,
};

/// The collective of a rank that is pending on a group; None where none is.
pub fn pending_on(
    pending: &Sequence<Option<PendingCollective>>,
    id: u64,
) -> Option<&PendingCollective>
    ensures { option_copied result ≡ item_at pending.now id }
{
    match pending.get(id as usize) {
        Some(Some(pending)) => Some(pending),
        Some(None) | None => None,
    }
}

/// Checks that no collective of the rank is pending on a group: else `ActiveCollective` with its thread.
fn check_idle(pending: Option<&PendingCollective>) -> Result<(), Refusal>
    ensures { result ≡ idle_check (option_copied pending.entry) }
{
    match pending {
        Some(collective) => Err(Refusal::ActiveCollective {
            thread: collective.thread.number(),
        }),
        None => Ok(()),
    }
}

/// The result of a `group_create`: the next id, or `GroupsFull`. (GASPI: group_create)
pub fn group_create_result(groups: &Handles) -> Result<Option<Reply>, Refusal>
    ensures { (posts : Posts) → posts.groups ≡ groups.now → result ≡ group_create_result posts }
{
    let made = groups.last_id;
    if made >= 7 {
        return Err(Refusal::GroupsFull);
    }
    Ok(Some(Reply::Id(made + 1)))
}

/// Makes the group with the next id: building, with no rank. (GASPI: group_create)
pub fn group_create_effect(posts: &mut Posts)
    requires { posts.old.groups.last_id + 1 < 2 ^ 32 }
    ensures { posts.new ≡ group_create_effect posts.old }
{
    let id = posts.groups.last_id + 1;
    let new = Handle {
        stage: Stage::Building,
        members: 0,
    };
    posts.groups.set(u64::from(id), Some(new));
    posts.groups.last_id = id;
}

/// The result of a `group_add` in a world of `ranks` ranks: done, or `BadRank`, `NoGroup`, `GroupStage` where the group is
/// committed, `ActiveCollective`. (GASPI: group_add)
pub fn group_add_result(
    ranks: u32,
    groups: &Handles,
    pending: Option<&PendingCollective>,
    call: &GroupAdd,
) -> Result<Option<Reply>, Refusal>
    ensures { (limits : Limits) (posts : Posts) → limits.ranks ≡ ranks → posts.groups ≡ groups.now → item_at posts.pending call.now.group ≡ option_copied pending.entry
        → result ≡ group_add_result limits posts call.now }
{
    if call.rank >= u64::from(ranks) {
        return Err(Refusal::BadRank);
    }
    groups.building(call.group)?;
    check_idle(pending)?;
    Ok(Some(Reply::Done))
}

/// Adds a rank to a group. A rank that is in the group already changes nothing. (GASPI: group_add)
pub fn group_add_effect(posts: &mut Posts, call: &GroupAdd)
    requires { call.now.rank < 16 }
    ensures { posts.new ≡ group_add_effect posts.old call.now }
{
    let rank = RankId::of(call.rank as u32);
    let changed = posts.groups.handle(call.group).map(|handle| Handle {
        members: with_member(handle.members, rank),
        ..handle
    });
    posts.groups.set(call.group, changed);
}

/// The result of a `group_delete`: done, or `NoGroup`, `GroupStage` for group 0, `ActiveCollective`. (GASPI: group_delete)
pub fn group_delete_result(
    groups: &Handles,
    pending: Option<&PendingCollective>,
    call: &GroupDelete,
) -> Result<Option<Reply>, Refusal>
    ensures { (posts : Posts) → posts.groups ≡ groups.now → item_at posts.pending call.now.group ≡ option_copied pending.entry → result ≡ group_delete_result posts call.now }
{
    groups.handle(call.group).ok_or(Refusal::NoGroup)?;
    if call.group == 0 {
        return Err(Refusal::GroupStage {
            stage: Stage::Committed,
        });
    }
    check_idle(pending)?;
    Ok(Some(Reply::Done))
}

/// Removes the handle of a group. The id is not given again. (GASPI: group_delete)
pub fn group_delete_effect(posts: &mut Posts, call: &GroupDelete)
    ensures { posts.new ≡ group_delete_effect posts.old call.now }
{
    posts.groups.set(call.group, None);
}
