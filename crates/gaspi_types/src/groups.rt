//! What a rank has of groups (`Handles`), its pending collectives with their arguments, and what ranks have contributed to the
//! rounds of a group. (GASPI: groups, collectives)

ghost use Rattle.std.specs.Prelude.{◌≡◌, ◌≤◌, slice_set, IfOk, IsOk, length};
ghost use Rattle.gaspi_types.specs.Groups.{opening_handles, handle_at, building_at};

use crate::collectives::{Coll, Numbers, Stage};
use crate::ids::{RankId, ThreadId};
use crate::lists::Sequence;
use crate::masks::all_below;
use crate::memory::NoMemory;
use crate::replies::Refusal;
use std::alloc::Global;

/// What one rank has of a group: its stage and its ranks.
#[derive(Clone, Copy, Debug, PartialEq, Eq)]
pub struct Handle {
    pub stage: Stage,
    /// Its ranks: bit r for rank r.
    pub members: u32,
}

/// The handles of a rank by group id, with how many groups it has made. Group 0 has every rank; the groups that a rank makes
/// have the numbers 1 to 7, one after another.
#[derive(Debug, PartialEq, Eq, Drop)]
pub struct Handles {
    /// The handle of each group id, or None where the rank has no such group.
    pub table: Sequence<Option<Handle>>,
    /// How many groups the rank has made, at most 7.
    pub last_id: u32,
}

impl Handles {
    /// The handles at the start in a world of `ranks` ranks: group 0 alone, committed and with every rank.
    pub fn opening(alloc: Global, ranks: u32) -> Result<Handles, NoMemory>
        requires { ranks ≤ 16 }
        ensures { IfOk result (λ handles. handles ≡ opening_handles ranks) }
    {
        let mut table = Sequence::from_vec(vec![in alloc; None; 8]?);
        *table.at_mut(0) = Some(Handle {
            stage: Stage::Committed,
            members: all_below(ranks),
        });
        Ok(Handles { table, last_id: 0 })
    }

    /// The handle of group `id`, or None where the rank has no such group.
    pub fn handle(&self, id: u64) -> Option<Handle>
        ensures { result ≡ handle_at self.now id }
    {
        match self.table.get(id as usize) {
            Some(handle) => *handle,
            None => None,
        }
    }

    /// The handle of group `id`, where its stage is building; else `NoGroup`, or `GroupStage` where it is committed.
    pub fn building(&self, id: u64) -> Result<Handle, Refusal>
        ensures { result ≡ building_at self.now id }
    {
        let handle = self.handle(id).ok_or(Refusal::NoGroup)?;
        match handle.stage {
            Stage::Building => Ok(handle),
            Stage::Committed => Err(Refusal::GroupStage {
                stage: handle.stage,
            }),
        }
    }

    /// Sets the handle of group `id`, or removes it where `handle` is None; an id outside the table changes nothing. `last_id`
    /// stays.
    pub fn set(&mut self, id: u64, handle: Option<Handle>)
        ensures { self.new ≡ record self.old { table = slice_set self.old.table id handle } }
    {
        let place = id as usize;
        if place < self.table.len() {
            *self.table.at_mut(place) = handle;
        }
    }
}

/// The arguments of a collective, values included: an allreduce has as many values as `coll` says, of its type, and any other
/// collective has none.
#[derive(Debug, PartialEq, Eq, Drop)]
pub struct Args {
    pub coll: Coll,
    pub values: Numbers,
}

impl Args {
    /// Equal arguments. No memory is taken where there are no values.
    pub fn copy(&self, alloc: Global) -> Result<Args, NoMemory>
        ensures ok { IfOk result (λ args. args ≡ self.now) }
        ensures empty { length self.now.values.items ≡ 0 → IsOk result }
    {
        Ok(Args {
            coll: self.coll,
            values: self.values.copy(alloc)?,
        })
    }
}

/// A pending collective of a rank on a group: the thread that joined, and the arguments with which it joined.
#[derive(Debug, PartialEq, Eq, Drop)]
pub struct PendingCollective {
    pub thread: ThreadId,
    pub args: Args,
}

/// What a look at a collective finds pending on the group. (GASPI: timeouts)
#[derive(Clone, Copy, Debug, PartialEq, Eq)]
pub enum Resume {
    /// No collective of the rank.
    Fresh,
    /// This very collective.
    Same,
}

/// A rank, and in which generation it has made its segment by a collective. (GASPI: segment_create)
#[derive(Clone, Copy, Debug, PartialEq, Eq)]
pub struct MemberSegment {
    pub rank: RankId,
    pub generation: u32,
}

/// What a join appends to the contributions of its rank: the arguments, and the generation of a new segment.
#[derive(Debug, PartialEq, Eq, Drop)]
pub struct Contribution {
    pub args: Args,
    /// Of the segment that a `create` makes; 0 for every other collective.
    pub generation: u32,
}

/// All contributions of one rank to a group, one for each round, and how many of these rounds the rank has completed.
#[derive(Debug, PartialEq, Eq, Drop)]
pub struct RankContributions {
    /// By rounds.
    pub contributions: Sequence<Contribution>,
    pub completed: u32,
}

/// What all ranks share of a group id: the member list, and the contributions of each rank.
#[derive(Debug, PartialEq, Eq, Drop)]
pub struct Group {
    /// The member list, bit r for rank r, or None where none is fixed.
    pub members: Option<u32>,
    /// By the numbers of the ranks.
    pub contributions: Sequence<RankContributions>,
}
