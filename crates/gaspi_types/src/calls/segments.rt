//! The calls that make an own segment, make it known, and delete it. (GASPI: segments)

/// Makes an own segment of that size, in bytes, with all bytes and slots 0. (GASPI: segment_alloc)
#[derive(Clone, Copy, Debug, PartialEq, Eq)]
pub struct Alloc {
    pub seg: u64,
    pub size: u64,
}

/// Makes an own segment known to a rank, in its present generation and size. (GASPI: segment_register)
#[derive(Clone, Copy, Debug, PartialEq, Eq)]
pub struct Register {
    pub seg: u64,
    pub rank: u64,
}

/// Deletes an own segment with its slots. (GASPI: segment_delete)
#[derive(Clone, Copy, Debug, PartialEq, Eq)]
pub struct Delete {
    pub seg: u64,
}
