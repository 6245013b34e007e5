//! Lends nodes for one look or one transfer, and ends the loan after it. `_alone` lends the own node only, `_between` that of the
//! peer too, and `_on_group` that of group 0. The results are those of `look` and `move_front`.

ghost use Rattle.std.specs.Prelude.{◌≡◌, ◌+◌, ◌<◌, ◌^◌, true, None, Some};
ghost use Rattle.gaspi_model.specs.declared.states.State.{State};
ghost use Rattle.rank_node.specs.Fronts.{IsFront};
ghost use Rattle.two_nodes.specs.LentLooks.{AreLentTo, MayLook, HaveLooked};
ghost use Rattle.two_nodes.specs.Transfers.{AreLentToMove, MayMove, HaveMoved};

use crate::looks::look;
use crate::moves::move_front;
use crate::stops::CallStop;
use gaspi_types::{Invocation, Reply, Transfer};
use rank_node::{GroupNode, Lent, Node};
use std::alloc::Global;

/// Ends the loan of a node; nothing changes.
fn give_back(own: &mut Node)
    ensures { own.new ≡ own.old }
{
    let _ = own.room();
}

/// Ends the loan of two nodes; nothing changes.
fn give_back_two(own: &mut Node, peer: &mut Node)
    ensures own { own.new ≡ own.old }
    ensures peer { peer.new ≡ peer.old }
{
    let _ = (own.room(), peer.room());
}

/// Ends the loan of a node and of that of a group; nothing changes.
fn give_back_group(own: &mut Node, group: &mut GroupNode)
    ensures own { own.new ≡ own.old }
    ensures group { group.new ≡ group.old }
{
    let _ = (own.room(), group.meeting.members());
}

/// One look at a call that reaches its own rank only.
pub(crate) fn look_alone<'a>(
    own: &'a mut Node,
    alloc: Global,
    places: &mut u64,
    invocation: &Invocation<'_>,
) -> Result<Option<Reply>, CallStop>
    requires lent { MayLook invocation.now.caller invocation.now.call.now own.old None None }
    requires places { places.old < 2 ^ 32 }
    ensures { (s : State) → AreLentTo s invocation.now.caller invocation.now.call.now own.old None None
        → HaveLooked s invocation.now.caller invocation.now.call.now result places.old places.new own.old own.new None None None }
{
    let mut lent = Lent {
        own,
        peer: None,
        group: None,
    };
    let told = look(&mut lent, alloc, places, invocation);
    let Lent { own, .. } = lent;
    give_back(own);
    told
}

/// One look at a call that reaches the other rank.
pub(crate) fn look_between<'a>(
    own: &'a mut Node,
    peer: &'a mut Node,
    alloc: Global,
    places: &mut u64,
    invocation: &Invocation<'_>,
) -> Result<Option<Reply>, CallStop>
    requires lent { MayLook invocation.now.caller invocation.now.call.now own.old (Some peer.old) None }
    requires places { places.old < 2 ^ 32 }
    ensures { (s : State) → AreLentTo s invocation.now.caller invocation.now.call.now own.old (Some peer.old) None
        → HaveLooked s invocation.now.caller invocation.now.call.now result places.old places.new own.old own.new (Some peer.old) (Some peer.new) None }
{
    let mut lent = Lent {
        own,
        peer: Some(peer),
        group: None,
    };
    let told = look(&mut lent, alloc, places, invocation);
    let Lent { own, peer, .. } = lent;
    match peer {
        Some(peer) => give_back_two(own, peer),
        None => unreachable!(),
    }
    told
}

/// One look at a collective on group 0.
pub(crate) fn look_on_group<'a>(
    own: &'a mut Node,
    group: &'a mut GroupNode,
    alloc: Global,
    places: &mut u64,
    invocation: &Invocation<'_>,
) -> Result<Option<Reply>, CallStop>
    requires lent { MayLook invocation.now.caller invocation.now.call.now own.old None (Some group.old) }
    requires places { places.old < 2 ^ 32 }
    ensures { (s : State) → AreLentTo s invocation.now.caller invocation.now.call.now own.old None (Some group.old)
        → HaveLooked s invocation.now.caller invocation.now.call.now result places.old places.new own.old own.new None None (Some group.new) }
{
    let mut lent = Lent {
        own,
        peer: None,
        group: Some(group),
    };
    let told = look(&mut lent, alloc, places, invocation);
    let Lent { own, group, .. } = lent;
    match group {
        Some(group) => give_back_group(own, group),
        None => unreachable!(),
    }
    told
}

/// Makes a transfer that is the front of its lane and reaches its origin only. It takes no memory.
pub(crate) fn transfer_alone<'a>(own: &'a mut Node, places: &mut u64, transfer: Transfer)
    requires front { IsFront own.old.posts transfer }
    requires lent { MayMove transfer own.old None None }
    requires places { places.old < 2 ^ 32 }
    ensures { (s : State) → AreLentToMove s transfer own.old None None → HaveMoved s transfer places.old places.new own.old own.new None None None }
{
    let mut lent = Lent {
        own,
        peer: None,
        group: None,
    };
    move_front(&mut lent, places, transfer);
    let Lent { own, .. } = lent;
    give_back(own);
}

/// Makes a transfer that is the front of its lane and reaches the other rank. It takes no memory.
pub(crate) fn transfer_between<'a>(
    own: &'a mut Node,
    peer: &'a mut Node,
    places: &mut u64,
    transfer: Transfer,
)
    requires front { IsFront own.old.posts transfer }
    requires lent { MayMove transfer own.old (Some peer.old) None }
    requires places { places.old < 2 ^ 32 }
    ensures { (s : State) → AreLentToMove s transfer own.old (Some peer.old) None → HaveMoved s transfer places.old places.new own.old own.new (Some peer.old) (Some peer.new) None }
{
    let mut lent = Lent {
        own,
        peer: Some(peer),
        group: None,
    };
    move_front(&mut lent, places, transfer);
    let Lent { own, peer, .. } = lent;
    match peer {
        Some(peer) => give_back_two(own, peer),
        None => unreachable!(),
    }
}
