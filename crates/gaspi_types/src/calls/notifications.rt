//! The calls on notification slots of an own segment. (GASPI: notifications)

/// Waits until one of `num` slots from `begin` on is not 0, and answers the least such slot. (GASPI: notify_waitsome)
#[derive(Clone, Copy, Debug, PartialEq, Eq)]
pub struct Waitsome {
    pub seg: u64,
    pub begin: u64,
    pub num: u64,
}

/// Answers the value of a slot, and sets the slot to 0. (GASPI: notify_reset)
#[derive(Clone, Copy, Debug, PartialEq, Eq)]
pub struct Reset {
    pub seg: u64,
    pub note: u64,
}
