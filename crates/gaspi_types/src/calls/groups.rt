//! The calls with fields on the groups of the caller's rank, collectives aside. (GASPI: groups)

/// Adds a rank to a group of the caller's rank whose stage is building. (GASPI: group_add)
#[derive(Clone, Copy, Debug, PartialEq, Eq)]
pub struct GroupAdd {
    pub group: u64,
    pub rank: u64,
}

/// Deletes a group of the caller's rank. (GASPI: group_delete)
#[derive(Clone, Copy, Debug, PartialEq, Eq)]
pub struct GroupDelete {
    pub group: u64,
}
