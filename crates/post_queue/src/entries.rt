//! Posted entries, and how an entry changes its phase: a posted one becomes carried or failed, and a carried one failed. None takes
//! memory: a posted entry has a list for its bytes, an empty one for notifications. (GASPI: one-sided communication)

ghost use Rattle.std.specs.Prelude.{◌≡◌, length};
ghost use Rattle.gaspi_types.specs.declared.entries.Phase.TheVariants.{Posted, Carried, Failed};
ghost use Rattle.post_queue.specs.Payloads.{payload_size};

use crate::Draft;
use gaspi_types::{Bytes, Entry, Kind, Phase};
use std::marker::Model;

/// A posted entry, with a list for the bytes that it will carry. Contracts see the entry.
#[derive(Debug, Drop)]
pub struct PostedEntry {
    /// Its number among all entries of its origin.
    number: u32,
    /// What it asks for.
    kind: Kind,
    /// As many zeros as it will carry bytes.
    room: Bytes,
}

impl Model for PostedEntry {
    ghost use Rattle.std.specs.Prelude.{◌≡◌, length};
    ghost use Rattle.gaspi_types.specs.declared.entries.Entry.{Entry};
    ghost use Rattle.gaspi_types.specs.declared.entries.Phase.TheVariants.{Posted};
    ghost use Rattle.post_queue.specs.Payloads.{payload_size};

    ghost Value = { Entry };

    ghost view = { λ entry. record { number = entry.number; kind = entry.kind; phase = Posted } };

    ghost invariant = { λ entry. length entry.room ≡ payload_size entry.kind };
}

impl PostedEntry {
    /// The posted entry of a draft, with its number.
    pub(crate) fn new(number: u32, draft: Draft) -> PostedEntry
        ensures { result ≡ record { number = number; kind = draft; phase = Posted } }
    {
        let (kind, room) = draft.into_parts();
        PostedEntry { number, kind, room }
    }

    /// Its number among all entries of its origin.
    pub fn number(&self) -> u32
        ensures { result ≡ self.now.number }
    {
        self.number
    }

    /// What it asks for.
    pub fn kind(&self) -> &Kind
        ensures { result.now ≡ self.now.kind }
    {
        &self.kind
    }

    /// The entry as a carried one, with these bytes. It takes no memory.
    pub(crate) fn carried(self, bytes: &[u8]) -> Entry
        requires { length bytes.now ≡ payload_size self.kind }
        ensures { result ≡ record { number = self.number; kind = self.kind; phase = Carried bytes.now } }
    {
        let PostedEntry {
            number,
            kind,
            mut room,
        } = self;
        room.overwrite(0, bytes);
        Entry {
            number,
            kind,
            phase: Phase::Carried(room),
        }
    }

    /// The entry as a failed one. The list for its bytes is dropped.
    pub(crate) fn failed(self) -> Entry
        ensures { result ≡ record { number = self.number; kind = self.kind; phase = Failed } }
    {
        let PostedEntry {
            number,
            kind,
            room: _room,
        } = self;
        Entry {
            number,
            kind,
            phase: Phase::Failed,
        }
    }
}

/// Makes an entry failed, whatever its phase. For the put of a carried entry.
pub(crate) fn fail(entry: &mut Entry)
    ensures { entry.new ≡ record { number = entry.old.number; kind = entry.old.kind; phase = Failed } }
{
    entry.phase = Phase::Failed;
}
