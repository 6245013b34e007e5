//! Laws of nodes: contracts of functions that do nothing. Four are on fronts of lanes, and the last is on the nodes of groups at the
//! start.

ghost use Rattle.std.specs.Prelude.{◌≡◌, ◌<◌, ℕ, true, false, Option, None, Some, IsOk, IsSome, slice_get};
ghost use Rattle.gaspi_types.specs.World.{ShapeValue};
ghost use Rattle.gaspi_types.specs.declared.entries.Entry.{Entry};
ghost use Rattle.gaspi_types.specs.declared.events.Outcome.{Outcome};
ghost use Rattle.gaspi_types.specs.declared.events.Transfer.{Transfer};
ghost use Rattle.gaspi_model.specs.Sound.{IsSound};
ghost use Rattle.gaspi_model.specs.State.{opening, opening_group};
ghost use Rattle.gaspi_model.specs.Step.{step, event_footprint, transfer_event};
ghost use Rattle.gaspi_model.specs.Transfers.{transfers};
ghost use Rattle.gaspi_model.specs.declared.states.State.{State};
ghost use Rattle.post_queue.specs.MovableLanes.{is_movable_lane};
ghost use Rattle.rank_node.specs.Fronts.{front_of, front_entry, front_outcome, transfer_footprint, IsFront};
ghost use Rattle.rank_node.specs.Lending.{IsPostsOf, IsGroupNode, IsGroupOf, IsStepOn};
ghost use Rattle.rank_node.specs.TransferSteps.{IsFirstPosted, IsFirstCarried, LendsForTransfer, lent_memory};
ghost use Rattle.rank_node.specs.Transfers.{event_of};
ghost use Rattle.rank_node.specs.Values.{PostsValue};
ghost use Rattle.rank_node.specs.declared.nodes.Node.{Node};
ghost use Rattle.rank_node.specs.declared.nodes.GroupNode.{GroupNode};

/// The front of a lane is a step of the machine, with the machine's outcome: the put of the first carried entry of the lane, or the
/// take of the first posted one. Where a lane has no front, no transfer of the lane is enabled.
pub fn fronts_are_steps()
    ensures steps { (s : State) (p : PostsValue) (t : Transfer) → IsSound s → IsPostsOf s p.me p → IsFront p t → IsOk (step s (transfer_event s t)) }
    ensures put { (p : PostsValue) (t : Transfer) → IsFront p t → t.put ≡ true → IsFirstCarried p t }
    ensures take { (p : PostsValue) (t : Transfer) → IsFront p t → t.put ≡ false → IsFirstPosted p t }
    ensures none { (s : State) (p : PostsValue) (t : Transfer) (k : ℕ) → IsPostsOf s p.me p → slice_get (transfers s.limits s.posts) k ≡ Some t → t.origin ≡ p.me
        → IsSome (front_of p t.queue t.target) }
{}

/// The footprint of a transfer that is the front of its lane follows from the kind of its entry, whatever its outcome.
pub fn front_footprints()
    ensures { (s : State) (p : PostsValue) (t : Transfer) (e : Entry) (outcome : Outcome) → IsSound s → IsPostsOf s p.me p → IsFront p t → front_entry p t ≡ Some e
        → event_footprint s.limits p.posts (event_of t outcome) ≡ transfer_footprint s.limits.ranks t e.kind }
{}

/// The outcome of a transfer that is the front of its lane follows from the nodes that are lent for it: with this outcome, and with
/// no other, it is a step of the machine. (GASPI: state vector)
pub fn front_outcomes()
    ensures machine { (s : State) (own : Node) (peer : Option Node) (group : Option GroupNode) (t : Transfer) (outcome : Outcome) → IsSound s → LendsForTransfer s t own peer group → IsFront own.posts t
        → front_outcome own.posts (lent_memory own peer) t ≡ Some outcome → (event_of t outcome ≡ transfer_event s t) × IsOk (step s (event_of t outcome)) }
    ensures alone { (s after : State) (own : Node) (peer : Option Node) (group : Option GroupNode) (t : Transfer) (outcome : Outcome) → IsFront own.posts t → IsStepOn s after (event_of t outcome) own peer group
        → front_outcome own.posts (lent_memory own peer) t ≡ Some outcome }
{}

/// A movable lane has a front, and no other lane has one. Where a rank has no movable lane, none of its transfers is enabled.
pub fn movable_lanes_have_fronts()
    ensures fronts { (s : State) (p : PostsValue) (queue target : ℕ) → IsSound s → IsPostsOf s p.me p → is_movable_lane p.posts.queues queue target ≡ true
        → IsSome (front_of p queue target) }
    ensures others { (p : PostsValue) (queue target : ℕ) → is_movable_lane p.posts.queues queue target ≡ false → front_of p queue target ≡ None }
    ensures none { (s : State) (p : PostsValue) (t : Transfer) (k : ℕ) → IsPostsOf s p.me p → ((queue target : ℕ) → is_movable_lane p.posts.queues queue target ≡ false)
        → slice_get (transfers s.limits s.posts) k ≡ Some t → ¬ (t.origin ≡ p.me) }
{}

/// A node with the opening state of a group is the node of that group in the opening state.
pub fn group_nodes_at_start()
    ensures { (w : ShapeValue) (id : ℕ) (n : GroupNode) → id < 8 → IsGroupNode (opening_group w.limits.ranks id) n → IsGroupOf (opening w) id n }
{}
