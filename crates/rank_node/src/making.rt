//! Made segments: to allocate one takes memory, and comes before the record of its call; to insert it takes none. (GASPI: segments)

ghost use Rattle.std.specs.Prelude.{◌≡◌, ◌<◌, ◌^◌, IfOk};
ghost use Rattle.rank_node.specs.Making.{made_segment, with_made};

use crate::node_memory::NodeMemory;
use crate::node_posts::NodePosts;
use gaspi_types::{NoMemory, Segment};
use segment_store::{Slots, new_segment, next_generation};
use std::alloc::Global;

/// A segment with its slots that was allocated and is in no table yet.
#[derive(Debug, Drop)]
pub struct MadeSegment {
    /// The segment, all bytes zero.
    pub segment: Segment,
    /// Its slots, all zero.
    pub slots: Slots,
}

impl NodePosts {
    ghost use Rattle.std.specs.Prelude.{◌≡◌, ◌<◌, ◌^◌, IfOk, ◌≤◌};

    /// Allocates an own segment: the next generation of the id, all bytes and slots zero. The node does not change.
    /// (GASPI: segment_alloc)
    pub(crate) fn make_segment(
        &self,
        alloc: Global,
        seg: u64,
        size: u64,
    ) -> Result<MadeSegment, NoMemory>
        requires size { size < 2 ^ 32 }
        requires notes { self.now.limits.notes ≤ 1024 }
        ensures { IfOk result (λ made. made ≡ made_segment self.now.limits self.now.posts seg size) }
    {
        let generation = next_generation(&self.segments.next_generations, seg);
        Ok(MadeSegment {
            segment: new_segment(alloc, generation, size as u32)?,
            slots: Slots::new(alloc, self.limits.notes)?,
        })
    }
}

impl NodeMemory {
    /// Puts a made segment and its slots under an id. The table of segments is not changed here. It takes no memory.
    /// (GASPI: segment_alloc)
    pub(crate) fn insert_segment(&mut self, seg: u64, made: MadeSegment)
        ensures { self.new ≡ with_made self.old seg made }
    {
        let MadeSegment { segment, slots } = made;
        let place = seg as usize;
        if place < self.segments.len() {
            *self.segments.at_mut(place) = Some(segment);
        }
        if place < self.slots.len() {
            *self.slots.at_mut(place) = Some(slots);
        }
    }
}
