//! The next transfer of one of two ranks: chooses it, and by its footprint the nodes that are lent for it.
//! (GASPI: one-sided communication)

ghost use Rattle.std.specs.Prelude.{◌≡◌, ℕ, IfSome, IfNone};
ghost use Rattle.gaspi_model.specs.declared.states.State.{State};
ghost use Rattle.gaspi_types.specs.declared.entries.Entry.{Entry};
ghost use Rattle.rank_node.specs.Fronts.{front_entry, transfer_footprint, IsFront};
ghost use Rattle.rank_node.specs.declared.nodes.GroupNode.{GroupNode};
ghost use Rattle.rank_node.specs.declared.nodes.Node.{Node};
ghost use Rattle.rank_node.specs.Lending.{IsPostsOf};
ghost use Rattle.two_nodes.specs.Transfers.{HasNoTransfer, HasTransferred};
ghost use Rattle.two_nodes.specs.Worlds.{ArePartsOf};

use crate::clients::{transfer_alone, transfer_between};
use gaspi_types::{Footprint, QueueId, RankId, Transfer};
use rank_node::{GroupNode, Node, front_footprints, movable_lanes_have_fronts};

/// The front of the first movable lane of a rank; None where no lane is movable.
fn first_front(own: &Node) -> Option<Transfer>
    requires { (s : State) × (me other : ℕ) × (peer : Node) × (group : GroupNode) × (places : ℕ) × ArePartsOf s me other own.now peer group places }
    ensures front { IfSome result (IsFront own.now.posts) }
    ensures none { IfNone result ((s : State) → IsPostsOf s own.now.posts.me own.now.posts → HasNoTransfer s own.now.posts.me) }
{
    movable_lanes_have_fronts();
    let Some(lane) = own.next_lane((QueueId::of(0), RankId::of(0))) else {
        return None;
    };
    match own.front(lane.0, lane.1) {
        Some(transfer) => Some(transfer),
        None => unreachable!(),
    }
}

/// The footprint of a transfer that is the front of its lane, in a world of two ranks.
fn front_footprint(own: &Node, transfer: &Transfer) -> Footprint
    requires { IsFront own.now.posts transfer.now }
    ensures { IfSome (front_entry own.now.posts transfer.now) (λ (e : Entry). result ≡ transfer_footprint 2 transfer.now e.kind) }
{
    let kind = own.kind(transfer);
    let declaration = if transfer.put {
        kind.put_footprint(transfer.target)
    } else {
        kind.take_footprint(transfer.target)
    };
    declaration.footprint(2, transfer.origin)
}

/// Makes the next transfer of the rank of `own`: the front of its first movable lane. False where no transfer of the rank is
/// enabled; then nothing changes.
pub(crate) fn transfer_of(
    own: &mut Node,
    peer: &mut Node,
    group: &GroupNode,
    places: &mut u64,
) -> bool
    requires { (s : State) × (me other : ℕ) × ArePartsOf s me other own.old peer.old group.now places.old }
    ensures { (s : State) (me other : ℕ) → ArePartsOf s me other own.old peer.old group.now places.old → HasTransferred s result me other places.old places.new own.old own.new peer.old peer.new group.now }
{
    let Some(transfer) = first_front(own) else {
        return false;
    };
    front_footprints();
    let footprint = front_footprint(own, &transfer);
    match footprint {
        Footprint::PeerMemory(_) | Footprint::BothMemories(_) | Footprint::PeerPosts(_) => {
            transfer_between(own, peer, places, transfer);
        }
        Footprint::Alone | Footprint::OwnMemory => transfer_alone(own, places, transfer),
        Footprint::Group(_) | Footprint::GroupAndMemory(_) => unreachable!(),
    }
    true
}
