//! What the entries of a call ask for, in a value that takes memory for a list alone. (GASPI: one-sided communication)

ghost use Rattle.std.specs.Prelude.{◌≡◌};
ghost use Rattle.segment_store.specs.PostKinds.{kinds_of};

use gaspi_types::{Kind, Sequence};

/// The kinds of the entries that a call appends, in order.
#[derive(Debug, Drop)]
pub enum EntryKinds {
    /// The call appends none.
    Nothing,
    /// One entry.
    One([Kind; 1]),
    /// A write or a read, and the notification after it.
    Two([Kind; 2]),
    /// The entries of a list, in memory of their own.
    Many(Sequence<Kind>),
}

impl EntryKinds {
    /// The kinds as a list.
    pub fn as_slice(&self) -> &[Kind]
        ensures { result.now ≡ kinds_of self.now }
    {
        match self {
            EntryKinds::Nothing => &[],
            EntryKinds::One(kinds) => kinds,
            EntryKinds::Two(kinds) => kinds,
            EntryKinds::Many(kinds) => kinds.as_slice(),
        }
    }
}
