//! Messages, and inboxes of them. (GASPI: passive communication)

ghost use Rattle.std.specs.Prelude.{◌≡◌};
ghost use Rattle.gaspi_types.specs.Inboxes.{is_passive_size};

use crate::ids::RankId;
use crate::lists::{Bytes, Sequence};

/// A message: the rank that sent it, and its bytes.
#[derive(Debug, PartialEq, Eq, Drop)]
pub struct Message {
    pub sender: RankId,
    /// 1 to 4,096 bytes.
    pub bytes: Bytes,
}

/// An inbox: the messages that a rank has not received, the earliest first.
pub type Messages = Sequence<Message>;

/// Whether a message may have that many bytes, and a receive allow that many: 1 to 4,096. (own choice)
pub fn is_passive_size(size: u64) -> bool
    ensures { result ≡ is_passive_size size }
{
    (1..=4_096).contains(&size)
}
