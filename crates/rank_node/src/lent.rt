//! The nodes that one event reaches, borrowed. `lent_calls`, `lent_collectives` and `lent_transfers` have the functions.

use crate::nodes::{GroupNode, Node};

/// The nodes that an event reaches, borrowed for its step.
#[derive(Drop)]
pub struct Lent<'a> {
    /// The node of the event's owner.
    pub own: &'a mut Node,
    /// The node of another rank; None where the event reaches none.
    pub peer: Option<&'a mut Node>,
    /// The node of a group; None where the event reaches none.
    pub group: Option<&'a mut GroupNode>,
}
