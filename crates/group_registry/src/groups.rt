//! The groups of one rank as a store: to make one, to add a rank, to delete one, to make one committed. Whether a collective is
//! pending on a group is not asked here. (GASPI: groups)

ghost use Rattle.std.specs.Prelude.{◌≡◌, ◌≤◌, ◌<◌, None, IfOk, OnOk, OnErr, IsOk};
ghost use Rattle.gaspi_types.specs.Groups.{opening_handles, handle_at, next_group, with_group, stage_of, building_at, with_added, delete_checks, without_group, commit_list, with_committed};

use gaspi_types::{
    GroupId, Handle, Handles, NoMemory, RankId, Refusal, Stage, is_member, with_member,
};
use std::alloc::Global;
use std::marker::Model;

/// The groups of one rank, by their ids: group 0, which has every rank and stays, and up to seven that the rank has made. Contracts
/// see the rank and the handles.
///
/// Ids of groups are those that a caller wrote, so any number may come.
#[derive(Debug, Drop)]
pub struct Groups {
    /// The rank.
    me: RankId,
    /// Its handles.
    handles: Handles,
}

impl Model for Groups {
    ghost use Rattle.group_registry.specs.Registry.{Registry, IsRegistry};

    ghost Value = { Registry };

    ghost view = { λ groups. record { me = groups.me; groups = groups.handles } };

    ghost invariant = { λ groups. IsRegistry groups.handles };
}

impl Groups {
    ghost use Rattle.group_registry.specs.Registry.{IsRegistry, add_checks, AddsRank, with_groups};

    /// The groups of a rank in the opening state of a world of 1 to 16 ranks: group 0 with every rank, committed. All memory is
    /// taken here. (GASPI: groups)
    pub fn new(alloc: Global, rank: RankId, ranks: u32) -> Result<Groups, NoMemory>
        requires least { 1 ≤ ranks }
        requires greatest { ranks ≤ 16 }
        requires own { rank < ranks }
        ensures { IfOk result (λ groups. groups ≡ record { me = rank; groups = opening_handles ranks }) }
    {
        Ok(Groups {
            me: rank,
            handles: Handles::opening(alloc, ranks)?,
        })
    }

    /// The handles of the groups, lent: the checks of a rank's calls read them. The clause `registry` gives what holds of them at
    /// any time.
    pub fn handles(&self) -> &Handles
        ensures value { result.now ≡ self.now.groups }
        ensures registry { IsRegistry self.now.groups }
    {
        &self.handles
    }

    /// The id that `create` would give to a group; `GroupsFull` where it would make none. The clause `registry` gives what holds of
    /// the groups at any time.
    pub fn next(&self) -> Result<GroupId, Refusal>
        ensures answer { result ≡ next_group self.now.groups }
        ensures registry { IsRegistry self.now.groups }
    {
        if self.handles.last_id >= 7 {
            return Err(Refusal::GroupsFull);
        }
        Ok(GroupId::of(self.handles.last_id + 1))
    }

    /// Makes the group with the next id: building, with no rank. The ids rise from 1 to 7, and none is given again. `GroupsFull`
    /// where all are given, and then nothing changes. (GASPI: group_create)
    pub fn create(&mut self) -> Result<GroupId, Refusal>
        ensures answer { result ≡ next_group self.old.groups }
        ensures made { OnOk result (self.new ≡ with_groups self.old (with_group self.old.groups)) }
        ensures fresh { IfOk result (λ id. handle_at self.old.groups id ≡ None) }
        ensures refused { OnErr result (self.new ≡ self.old) }
    {
        let id = self.next()?;
        let handle = Handle {
            stage: Stage::Building,
            members: 0,
        };
        self.handles.set(u64::from(id.number()), Some(handle));
        self.handles.last_id = id.number();
        Ok(id)
    }

    /// Adds a rank to a group; one that is in it already changes nothing. `NoGroup`, or `GroupStage` where the group is committed;
    /// then nothing changes. Whether the rank is in the world is not asked. (GASPI: group_add)
    pub fn add(&mut self, group: u64, rank: RankId) -> Result<(), Refusal>
        ensures answer { result ≡ add_checks self.old.groups group }
        ensures added { OnOk result (self.new ≡ with_groups self.old (with_added self.old.groups group rank)) }
        ensures alone { OnOk result (AddsRank self.old.groups self.new.groups group rank) }
        ensures refused { OnErr result (self.new ≡ self.old) }
    {
        let handle = self.handles.building(group)?;
        let members = with_member(handle.members, rank);
        self.handles.set(group, Some(Handle { members, ..handle }));
        Ok(())
    }

    /// Deletes a group. `NoGroup`, or `GroupStage` for group 0, which stays; then nothing changes. (GASPI: group_delete)
    pub fn delete(&mut self, group: u64) -> Result<(), Refusal>
        ensures answer { result ≡ delete_checks self.old.groups group }
        ensures dropped { OnOk result (self.new ≡ with_groups self.old (without_group self.old.groups group)) }
        ensures refused { OnErr result (self.new ≡ self.old) }
    {
        self.handles.handle(group).ok_or(Refusal::NoGroup)?;
        if group == 0 {
            return Err(Refusal::GroupStage {
                stage: Stage::Committed,
            });
        }
        self.handles.set(group, None);
        Ok(())
    }

    /// The stage of a group; `NoGroup` where there is no such group.
    pub fn stage(&self, group: u64) -> Result<Stage, Refusal>
        ensures { result ≡ stage_of self.now.groups group }
    {
        let handle = self.handles.handle(group).ok_or(Refusal::NoGroup)?;
        Ok(handle.stage)
    }

    /// The ranks that this rank commits for a group, bit r for rank r. `NoGroup`; `GroupStage` where the group is committed;
    /// `NotMember` where this rank is not among them. (GASPI: group_commit)
    pub fn commit_list(&self, group: u64) -> Result<u32, Refusal>
        ensures answer { result ≡ commit_list self.now.groups self.now.me group }
        ensures built { OnOk result (IsOk (building_at self.now.groups group)) }
    {
        let members = self.handles.building(group)?.members;
        if !is_member(members, self.me) {
            return Err(Refusal::NotMember);
        }
        Ok(members)
    }

    /// Makes the stage of a group committed. Its stage is building, as `commit_list` checks. (GASPI: group_commit)
    pub fn committed(&mut self, group: u64)
        requires { IsOk (building_at self.old.groups group) }
        ensures { self.new ≡ with_groups self.old (with_committed self.old.groups group) }
    {
        let handle = self.handles.building(group).unwrap();
        let handle = Handle {
            stage: Stage::Committed,
            ..handle
        };
        self.handles.set(group, Some(handle));
    }
}
