//! The ranks of the machine, apart from their memories, and its groups: they are lent together, so that a memory can be lent beside.

use crate::footprints::EmptyMemory;
use gaspi_model::Posts;
use gaspi_types::{Group, Limits, Sequence};

/// The state without memories, and the used room of each rank.
#[derive(Debug, Drop)]
pub struct RankTables {
    /// The limits of the world.
    pub limits: Limits,
    /// The posts of each rank.
    pub posts: Sequence<Posts>,
    /// The used room of each rank, stored.
    pub used: Sequence<u32>,
    /// The eight groups.
    pub groups: Sequence<Group>,
    /// The memory that a look has which works on none.
    pub none: EmptyMemory,
}
