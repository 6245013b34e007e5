//! The two kinds of nodes: all that a rank has, and all that a group has. Their functions are in the other files.

ghost use Rattle.std.specs.Prelude.{◌≡◌};

use crate::node_memory::NodeMemory;
use crate::node_posts::NodePosts;
use collective_engine::Rounds;
use gaspi_types::{Buffer, PlacedEvent};
use group_registry::Meeting;

/// All that one rank has: its posts with its rank journal, and its memory.
#[derive(Drop)]
pub struct Node {
    /// Its posts, with its rank journal.
    pub posts: NodePosts,
    /// Its memory.
    pub memory: NodeMemory,
}

/// All that one group has in the whole world.
#[derive(Drop)]
pub struct GroupNode {
    /// The member list of the group, where one is fixed.
    pub meeting: Meeting,
    /// The contributions to the last two rounds of the group.
    pub rounds: Rounds,
}

impl Node {
    /// The rank journal. The rest of the node is dropped.
    pub fn into_journal(self) -> Buffer<PlacedEvent>
        ensures { result.items ≡ self.posts.journal }
    {
        let Node { posts, .. } = self;
        posts.into_journal()
    }
}
