//! The memory of a rank as a node has it: its stores, what contracts see of them, and the slots of a segment. The effects of calls
//! on it are in `memory_effects`, those of transfers in `memory_transfers`.

ghost use Rattle.std.specs.Prelude.{◌≡◌};
ghost use Rattle.gaspi_model.specs.Memories.{slots_of};

use gaspi_types::{OwnSegments, Sequence};
use segment_store::{Inbox, Slots};
use std::marker::Model;

/// The memory of a rank. Contracts see it as the machine's memory, with the most messages that its inbox may have.
#[derive(Drop)]
pub struct NodeMemory {
    /// The own segments with their bytes.
    pub(crate) segments: OwnSegments,
    /// The notification slots of each segment. (GASPI: notifications)
    pub(crate) slots: Sequence<Option<Slots>>,
    /// The messages that the rank has not received.
    pub(crate) inbox: Inbox,
}

impl Model for NodeMemory {
    ghost use Rattle.rank_node.specs.Values.{MemoryValue};

    ghost Value = { MemoryValue };

    ghost use Rattle.rank_node.specs.Views.{memory_of};

    ghost view = { memory_of };
}

impl NodeMemory {
    /// The slots of a segment; none where there is no such segment.
    pub(crate) fn slots_of(&self, seg: u64) -> &[u32]
        ensures { result.now ≡ slots_of self.now.memory seg }
    {
        match self.slots.get(seg as usize) {
            Some(Some(slots)) => slots.values(),
            Some(None) | None => &[],
        }
    }
}
