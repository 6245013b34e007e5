//! A look at a call of one of two ranks: chooses by the footprint of the call which nodes are lent for it.

ghost use Rattle.std.specs.Prelude.{◌≡◌, ℕ, true};
ghost use Rattle.gaspi_model.specs.Step.{is_declared};
ghost use Rattle.gaspi_model.specs.declared.states.State.{State};
ghost use Rattle.two_nodes.specs.Worlds.{ArePartsOf, HasCalled, is_driven};

use crate::clients::{look_alone, look_between, look_on_group};
use crate::stops::CallStop;
use gaspi_types::{Footprint, Invocation, Reply};
use rank_node::{GroupNode, Node};
use std::alloc::Global;

/// Makes one look at a call of the rank of `own`: where the call has a reply it is recorded, and where it may join it joins first.
/// None where it is not ready; then a collective may have joined. `EventLimit` where its rank lacks room, and `NoMemory`; then
/// nothing changes. The call is no collective on the groups 1 to 7 (clause `driven`).
pub(crate) fn call_of(
    own: &mut Node,
    peer: &mut Node,
    group: &mut GroupNode,
    alloc: Global,
    places: &mut u64,
    invocation: &Invocation<'_>,
) -> Result<Option<Reply>, CallStop>
    requires parts { (s : State) × (other : ℕ) × ArePartsOf s invocation.now.caller.rank other own.old peer.old group.old places.old × (is_declared s invocation.now.caller.rank invocation.now.caller.thread ≡ true) }
    requires driven { is_driven invocation.now.call.now ≡ true }
    ensures { (s : State) (other : ℕ) → ArePartsOf s invocation.now.caller.rank other own.old peer.old group.old places.old → is_declared s invocation.now.caller.rank invocation.now.caller.thread ≡ true
        → HasCalled s invocation.now.caller invocation.now.call.now result other places.old places.new own.old own.new peer.old peer.new group.new }
{
    match invocation
        .row
        .footprint
        .footprint(2, invocation.caller.rank)
    {
        Footprint::Alone | Footprint::OwnMemory => look_alone(own, alloc, places, invocation),
        Footprint::PeerMemory(_) | Footprint::BothMemories(_) | Footprint::PeerPosts(_) => {
            look_between(own, peer, alloc, places, invocation)
        }
        Footprint::Group(_) | Footprint::GroupAndMemory(_) => {
            look_on_group(own, group, alloc, places, invocation)
        }
    }
}
