//! The calls of passive communication. (GASPI: passive communication)

/// Sends the bytes of a range of an own segment to a rank, as one message. (GASPI: passive_send)
#[derive(Clone, Copy, Debug, PartialEq, Eq)]
pub struct PassiveSend {
    pub seg: u64,
    pub offset: u64,
    pub rank: u64,
    pub size: u64,
}

/// Receives the first message, which may have at most `size` bytes, into an own segment from `offset` on, and answers who sent
/// it. (GASPI: passive_receive)
#[derive(Clone, Copy, Debug, PartialEq, Eq)]
pub struct PassiveReceive {
    pub seg: u64,
    pub offset: u64,
    pub size: u64,
}
