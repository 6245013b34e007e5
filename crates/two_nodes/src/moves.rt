//! One transfer on the nodes that are lent for it. Clauses `own`, `peer` and `group` say that the same nodes are still lent.
//! (GASPI: one-sided communication)

ghost use Rattle.std.specs.Prelude.{◌≡◌, ◌<◌, ◌^◌};
ghost use Rattle.gaspi_model.specs.declared.states.State.{State};
ghost use Rattle.rank_node.specs.Fronts.{IsFront};
ghost use Rattle.rank_node.specs.Lending.{behind, AreSame};
ghost use Rattle.two_nodes.specs.Transfers.{AreLentToMove, MayMove, HaveMoved};

use gaspi_types::Transfer;
use rank_node::{Lent, fronts_are_steps};

/// Makes a transfer that is the front of its lane, with its outcome, at the next place. It takes no memory.
pub(crate) fn move_front(lent: &mut Lent<'_>, places: &mut u64, transfer: Transfer)
    requires front { IsFront lent.old.own.now.posts transfer }
    requires lent { MayMove transfer lent.old.own.now (behind lent.old.peer) (behind lent.old.group) }
    requires places { places.old < 2 ^ 32 }
    ensures own { lent.new.own.ghost_name ≡ lent.old.own.ghost_name }
    ensures peer { AreSame lent.new.peer lent.old.peer }
    ensures group { AreSame lent.new.group lent.old.group }
    ensures moved { (s : State) → AreLentToMove s transfer lent.old.own.now (behind lent.old.peer) (behind lent.old.group)
        → HaveMoved s transfer places.old places.new lent.old.own.now lent.new.own.now (behind lent.old.peer) (behind lent.new.peer) (behind lent.new.group) }
{
    fronts_are_steps();
    if transfer.put {
        lent.put(*places, transfer);
        *places += 1;
    } else {
        lent.take(*places, transfer);
        *places += 1;
    }
}
