//! The nodes of ranks and of groups, on which threads make the machine's steps: each function works on the nodes that one event
//! reaches.
//!
//! A `Node` has posts, memory and rank journal of one rank, made of the stores of other crates; a `GroupNode` has one group. `Lent`
//! borrows the nodes that an event reaches, and `HeldNodes` owns them. Both answer calls and make steps. Contracts speak of every
//! sound state of which the nodes are lent: the answer is the machine's there, and a step leaves the nodes of the state after it
//! (clause `left`). That there is such a state is required (clause `lent`), and that the event is a step there (clause `step`).
//!
//! In names, `own` is the node of the event's owner `me`, and `peer` that of another rank. An event `_alone` reaches the own node
//! only, and one `_between` reaches the node of a peer too.
#![tactic(auto)]

mod collective_completions;
mod collective_joins;
mod collective_looks;
mod fronts;
mod group_opening;
mod held_nodes;
mod lane_transfers;
mod laws;
mod lent;
mod lent_calls;
mod lent_collectives;
mod lent_plain;
mod lent_transfers;
mod making;
mod memory_effects;
mod memory_transfers;
mod node_counts;
mod node_memory;
mod node_posts;
mod nodes;
mod openings;
mod plain_looks;
mod posts_effects;
mod posts_transfers;
mod recording;
mod reserved_numbers;
mod resuming;
mod rooms;

pub use held_nodes::{HeldNodes, OtherNode};
pub use laws::{
    front_footprints, front_outcomes, fronts_are_steps, group_nodes_at_start,
    movable_lanes_have_fronts,
};
pub use lent::Lent;
pub use lent_plain::{answer_alone, answer_between, called_alone, called_between};
pub use lent_transfers::{front_outcome, put_alone, put_between, take_alone, take_between};
pub use making::MadeSegment;
pub use node_memory::NodeMemory;
pub use node_posts::NodePosts;
pub use nodes::{GroupNode, Node};
pub use reserved_numbers::ReservedNumbers;
pub use rooms::Room;
pub use timeout_state::{Budget, Look};
