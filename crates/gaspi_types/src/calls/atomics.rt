//! The calls on a memory word of a segment of any rank, `seg` at `rank`. (GASPI: atomics)

/// Adds a value to the memory word at an offset of a segment of a rank, and answers its old value. (GASPI: atomic_fetch_add)
#[derive(Clone, Copy, Debug, PartialEq, Eq)]
pub struct FetchAdd {
    pub seg: u64,
    pub offset: u64,
    pub rank: u64,
    pub value: u64,
}

/// Sets the memory word at an offset of a segment of a rank to `new` where it is the comparator, and answers its old value.
/// (GASPI: atomic_compare_swap)
#[derive(Clone, Copy, Debug, PartialEq, Eq)]
pub struct CompareSwap {
    pub seg: u64,
    pub offset: u64,
    pub rank: u64,
    pub comparator: u64,
    pub new: u64,
}
