//! The world of two ranks as other code has it: its nodes, its start, looks, transfers and rank journals; and which shapes and calls
//! it is for.

ghost use Rattle.std.specs.Prelude.{◌≡◌, ◌<◌, true, IfOk};
ghost use Rattle.std.specs.List.{list_any};
ghost use Rattle.gaspi_types.specs.World.{is_caller};
ghost use Rattle.gaspi_model.specs.Step.{is_declared};
ghost use Rattle.gaspi_model.specs.declared.states.State.{State};
ghost use Rattle.two_nodes.specs.Transfers.{Transfers};
ghost use Rattle.two_nodes.specs.Worlds.{IsWorldOf, HasLookedAt, IsAtStart, HasTwoCallers, has_two_callers, is_driven};

use crate::calls::call_of;
use crate::stops::CallStop;
use crate::transfers::transfer_of;
use gaspi_types::{
    Buffer, Call, CallerId, DeclaredFootprint, GroupId, Invocation, NoMemory, PlacedEvent, RankId,
    Reply, Shape,
};
use rank_node::{GroupNode, Node, group_nodes_at_start};
use std::alloc::Global;

/// The nodes of ranks 0 and 1, and that of group 0.
#[derive(Drop)]
pub struct TwoNodes {
    /// The node of rank 0.
    pub first: Node,
    /// The node of rank 1.
    pub second: Node,
    /// The node of group 0.
    pub group: GroupNode,
    /// How many events were recorded: the place of the next one.
    pub places: u64,
}

/// Whether thread 0 of a rank is one of these callers.
fn has_first_thread(callers: &[CallerId], rank: u32) -> bool
    ensures { result ≡ list_any (is_caller rank 0) callers.now }
{
    callers
        .iter()
        .any(|c| c.rank.number() == rank && c.thread.number() == 0)
}

/// Whether a shape has two ranks, with thread 0 of each as a caller.
pub fn has_two_callers(shape: &Shape) -> bool
    ensures { result ≡ has_two_callers shape.now }
{
    shape.ranks() == 2
        && has_first_thread(shape.callers(), 0)
        && has_first_thread(shape.callers(), 1)
}

/// Whether a call may be made here: it is no collective on the groups 1 to 7, for which there are no nodes.
pub fn is_driven(call: &Call) -> bool
    ensures { result ≡ is_driven call.now }
{
    match call.row().footprint {
        DeclaredFootprint::GroupOf(id) | DeclaredFootprint::GroupAndMemory(id) => id == 0
            || id >= 8,
        _ => true,
    }
}

impl TwoNodes {
    /// The nodes of a world of two ranks in the opening state.
    pub fn new(alloc: Global, shape: &Shape) -> Result<TwoNodes, NoMemory>
        requires { shape.now.limits.ranks ≡ 2 }
        ensures start { IfOk result (λ nodes. IsAtStart shape.now nodes) }
        ensures callers { has_two_callers shape.now ≡ true → IfOk result HasTwoCallers }
    {
        group_nodes_at_start();
        let ranks = shape.limits().ranks;
        Ok(TwoNodes {
            first: Node::new(alloc, shape, RankId::of(0))?,
            second: Node::new(alloc, shape, RankId::of(1))?,
            group: GroupNode::new(alloc, GroupId::of(0), ranks)?,
            places: 0,
        })
    }

    /// Makes one look at a call of a caller, which has a section: where the call has a reply it is recorded, and where it may join
    /// it joins first. None where it is not ready; then a collective may have joined. `EventLimit` where its rank lacks room, and
    /// `NoMemory`; then nothing changes. The call is no collective on the groups 1 to 7 (`is_driven`).
    pub fn call(
        &mut self,
        alloc: Global,
        caller: CallerId,
        call: &Call,
    ) -> Result<Option<Reply>, CallStop>
        requires caller { (s : State) × IsWorldOf s self.old × (is_declared s caller.rank caller.thread ≡ true) }
        requires driven { is_driven call.now ≡ true }
        ensures looked { (s : State) → IsWorldOf s self.old → is_declared s caller.rank caller.thread ≡ true → HasLookedAt s caller call.now result self.old self.new }
        ensures callers { HasTwoCallers self.old → HasTwoCallers self.new }
    {
        let is_first = caller.rank.number() == 0;
        let invocation = Invocation::new(caller, call);
        if is_first {
            call_of(
                &mut self.first,
                &mut self.second,
                &mut self.group,
                alloc,
                &mut self.places,
                &invocation,
            )
        } else {
            call_of(
                &mut self.second,
                &mut self.first,
                &mut self.group,
                alloc,
                &mut self.places,
                &invocation,
            )
        }
    }

    /// Makes the next transfer of a rank: the front of its first movable lane. False where no transfer of the rank is enabled; then
    /// nothing changes. (GASPI: one-sided communication)
    pub fn transfer(&mut self, rank: RankId) -> bool
        requires rank { rank < 2 }
        requires world { (s : State) × IsWorldOf s self.old }
        ensures transfers { (s : State) → IsWorldOf s self.old → Transfers s rank result self.old self.new }
        ensures callers { HasTwoCallers self.old → HasTwoCallers self.new }
    {
        if rank.number() == 0 {
            transfer_of(
                &mut self.first,
                &mut self.second,
                &self.group,
                &mut self.places,
            )
        } else {
            transfer_of(
                &mut self.second,
                &mut self.first,
                &self.group,
                &mut self.places,
            )
        }
    }

    /// The rank journals of ranks 0 and 1. The rest of the nodes is dropped.
    pub fn into_journals(self) -> (Buffer<PlacedEvent>, Buffer<PlacedEvent>)
        ensures first { result.0.items ≡ self.first.posts.journal }
        ensures second { result.1.items ≡ self.second.posts.journal }
    {
        let TwoNodes { first, second, .. } = self;
        (first.into_journal(), second.into_journal())
    }
}
