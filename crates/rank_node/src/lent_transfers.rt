//! Takes and puts on the nodes that are lent for them. The functions come twice: for one or two nodes, which `HeldNodes` uses too,
//! and of `Lent`, which chooses between those. `_alone` works on the memory of the origin, `_between` on that of a peer. A take or a
//! put may also fail. Clauses `own`, `peer` and `group` say that the same nodes are still lent. (GASPI: one-sided communication)

ghost use Rattle.std.specs.Prelude.{◌≡◌, Some, None, IsSome, IsOk};
ghost use Rattle.gaspi_types.specs.declared.events.Outcome.{Outcome};
ghost use Rattle.gaspi_model.specs.Sound.{IsSound};
ghost use Rattle.gaspi_model.specs.Step.{step, transfer_event};
ghost use Rattle.gaspi_model.specs.declared.states.State.{State};
ghost use Rattle.rank_node.specs.Fronts.{front_entry, front_outcome, IsFront};
ghost use Rattle.rank_node.specs.Lending.{behind, AreSame, IsStepOn, IsLeft};
ghost use Rattle.rank_node.specs.TransferSteps.{MayTake, MayPut, IsFirstPosted, IsFirstCarried, LendsForTransfer, lent_memory};
ghost use Rattle.rank_node.specs.Transfers.{take_of, put_of, event_of};

use crate::lent::Lent;
use crate::node_memory::NodeMemory;
use crate::node_posts::NodePosts;
use crate::nodes::Node;
use gaspi_types::{Outcome, Transfer};

/// Makes the step by the take of the first posted entry of a lane, from the memory of its origin, recorded at `place`. It takes no
/// memory.
pub fn take_alone(own: &mut Node, place: u64, t: Transfer)
    requires { MayTake own.old None None t }
    ensures { (s after : State) (outcome : Outcome) → IsStepOn s after (take_of t outcome) own.old None None → IsFirstPosted own.old.posts t
        → IsLeft s after (take_of t outcome) place own.old own.new None None None }
{
    own.posts.take_from(&own.memory, place, &t);
}

/// Makes the step by the take of the first posted entry of a lane, from the memory of a peer, whose node does not change; recorded
/// at `place`. It takes no memory.
pub fn take_between(own: &mut Node, peer: &mut Node, place: u64, t: Transfer)
    requires { MayTake own.old (Some peer.old) None t }
    ensures kept { peer.new ≡ peer.old }
    ensures left { (s after : State) (outcome : Outcome) → IsStepOn s after (take_of t outcome) own.old (Some peer.old) None → IsFirstPosted own.old.posts t
        → IsLeft s after (take_of t outcome) place own.old own.new (Some peer.old) (Some peer.new) None }
{
    own.posts.take_from(&peer.memory, place, &t);
}

/// Makes the step by the put of the first carried entry of a lane, into the memory of its origin, recorded at `place`. It takes no
/// memory.
pub fn put_alone(own: &mut Node, place: u64, t: Transfer)
    requires { MayPut own.old None None t }
    ensures { (s after : State) (outcome : Outcome) → IsStepOn s after (put_of t outcome) own.old None None → IsFirstCarried own.old.posts t
        → IsLeft s after (put_of t outcome) place own.old own.new None None None }
{
    let _outcome = own.posts.put_into(&mut own.memory, place, &t);
}

/// Makes the step by the put of the first carried entry of a lane, into the memory of a peer, recorded at `place` in the own rank
/// journal. It takes no memory.
pub fn put_between(own: &mut Node, peer: &mut Node, place: u64, t: Transfer)
    requires { MayPut own.old (Some peer.old) None t }
    ensures { (s after : State) (outcome : Outcome) → IsStepOn s after (put_of t outcome) own.old (Some peer.old) None → IsFirstCarried own.old.posts t
        → IsLeft s after (put_of t outcome) place own.old own.new (Some peer.old) (Some peer.new) None }
{
    let _outcome = own.posts.put_into(&mut peer.memory, place, &t);
}

/// The outcome of a transfer that is the front of its lane and works on `memory`. (GASPI: state vector)
pub fn front_outcome(posts: &NodePosts, memory: &NodeMemory, t: &Transfer) -> Outcome
    requires { IsSome (front_entry posts.now t.now) }
    ensures { front_outcome posts.now memory.now.memory t.now ≡ Some result }
{
    let kind = posts.kind(t);
    if t.put {
        memory.put_outcome(&kind)
    } else {
        memory.take_outcome(&kind)
    }
}

impl<'a> Lent<'a> {
    /// The outcome of a transfer that is the front of its lane: with this outcome it is a step of the machine, in each sound state
    /// of which the nodes are lent for it. The nodes do not change. (GASPI: state vector)
    pub fn outcome(&self, t: &Transfer) -> Outcome
        requires { IsFront self.now.own.now.posts t.now }
        ensures value { front_outcome self.now.own.now.posts (lent_memory self.now.own.now (behind self.now.peer)) t.now ≡ Some result }
        ensures machine { (s : State) → IsSound s → LendsForTransfer s t.now self.now.own.now (behind self.now.peer) (behind self.now.group)
            → (event_of t.now result ≡ transfer_event s t.now) × IsOk (step s (event_of t.now result)) }
    {
        match &self.peer {
            Some(peer) => front_outcome(&self.own.posts, &peer.memory, t),
            None => front_outcome(&self.own.posts, &self.own.memory, t),
        }
    }

    /// Makes the step by the take of the first posted entry of a lane, with its outcome, recorded at `place`. It takes no memory.
    pub fn take(&mut self, place: u64, t: Transfer)
        requires { MayTake self.old.own.now (behind self.old.peer) (behind self.old.group) t }
        ensures own { self.new.own.ghost_name ≡ self.old.own.ghost_name }
        ensures peer { AreSame self.new.peer self.old.peer }
        ensures group { AreSame self.new.group self.old.group }
        ensures group_kept { behind self.new.group ≡ behind self.old.group }
        ensures left { (s after : State) (outcome : Outcome) → IsStepOn s after (take_of t outcome) self.old.own.now (behind self.old.peer) (behind self.old.group)
            → IsFirstPosted self.old.own.now.posts t
            → IsLeft s after (take_of t outcome) place self.old.own.now self.new.own.now (behind self.old.peer) (behind self.new.peer) (behind self.new.group) }
    {
        match &mut self.peer {
            Some(peer) => take_between(self.own, peer, place, t),
            None => take_alone(self.own, place, t),
        }
    }

    /// Makes the step by the put of the first carried entry of a lane, with its outcome, recorded at `place`. It takes no memory.
    pub fn put(&mut self, place: u64, t: Transfer)
        requires { MayPut self.old.own.now (behind self.old.peer) (behind self.old.group) t }
        ensures own { self.new.own.ghost_name ≡ self.old.own.ghost_name }
        ensures peer { AreSame self.new.peer self.old.peer }
        ensures group { AreSame self.new.group self.old.group }
        ensures group_kept { behind self.new.group ≡ behind self.old.group }
        ensures left { (s after : State) (outcome : Outcome) → IsStepOn s after (put_of t outcome) self.old.own.now (behind self.old.peer) (behind self.old.group)
            → IsFirstCarried self.old.own.now.posts t
            → IsLeft s after (put_of t outcome) place self.old.own.now self.new.own.now (behind self.old.peer) (behind self.new.peer) (behind self.new.group) }
    {
        match &mut self.peer {
            Some(peer) => put_between(self.own, peer, place, t),
            None => put_alone(self.own, place, t),
        }
    }
}
