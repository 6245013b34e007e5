//! Queues, their lanes and the entries in them; and what the kind of an entry says: the range from which it takes bytes, and
//! what its put changes. (GASPI: one-sided communication)
//!
//! `own` is said of a range or slot of the origin's segment, `target` of one of the target's.

ghost use Rattle.std.specs.Prelude.{◌≡◌};
ghost use Rattle.gaspi_types.specs.Kinds.{destination_of, source_of};
ghost use Rattle.gaspi_types.specs.Posts.{transfer_kind};

use crate::ids::RankId;
use crate::lists::{Bytes, Sequence};
use crate::segments::Extent;

/// A range of bytes of a segment, in one generation of its id.
#[derive(Clone, Copy, Debug, PartialEq, Eq)]
pub struct ByteRange {
    pub segment: u32,
    pub generation: u32,
    pub offset: u32,
    pub size: u32,
}

/// A notification slot of a segment, in one generation of its id.
#[derive(Clone, Copy, Debug, PartialEq, Eq)]
pub struct NoteSlot {
    pub segment: u32,
    pub generation: u32,
    pub note: u32,
}

/// What a post finds for one write or read: the extents of both segments, and a range in each.
#[derive(Clone, Copy, Debug, PartialEq, Eq)]
pub struct Endpoints {
    /// The extent of the own segment.
    pub mine: Extent,
    /// The extent of the target's segment, as the origin knows it.
    pub theirs: Extent,
    pub own: ByteRange,
    pub target: ByteRange,
}

/// What an entry asks for. (GASPI: one-sided communication)
#[derive(Clone, Copy, Debug, PartialEq, Eq)]
pub enum Kind {
    /// The bytes of an own range go to a range of the target.
    Write { own: ByteRange, target: ByteRange },
    /// The bytes of a range of the target go to an own range.
    Read { own: ByteRange, target: ByteRange },
    /// A slot of the target gets a value, which is not 0.
    Notify { target: NoteSlot, value: u32 },
    /// An own slot gets 1: the notification of a read.
    ReadNote { own: NoteSlot },
}

/// Which way the bytes of an entry go.
#[derive(Clone, Copy, Debug, PartialEq, Eq)]
pub enum Direction {
    /// From an own segment to the target: a write.
    Outward,
    /// From the target to an own segment: a read.
    Inward,
}

impl Endpoints {
    /// The kind of an entry with these ranges: a write where the direction is outward, a read where it is inward.
    pub fn kind(&self, direction: Direction) -> Kind
        ensures { result ≡ transfer_kind direction self.now }
    {
        match direction {
            Direction::Outward => Kind::Write {
                own: self.own,
                target: self.target,
            },
            Direction::Inward => Kind::Read {
                own: self.own,
                target: self.target,
            },
        }
    }
}

/// What the put of an entry changes.
#[derive(Clone, Copy, Debug, PartialEq, Eq)]
pub enum Destination {
    /// A range, which gets the bytes that the entry has taken.
    Range(ByteRange),
    /// A slot, which gets a value.
    Slot(NoteSlot, u32),
}

impl Kind {
    /// The range from which an entry of this kind takes its bytes: the own one of a write, the target's of a read. None for a
    /// notification and the notification of a read, which take no bytes.
    pub fn source(&self) -> Option<ByteRange>
        ensures { result ≡ source_of self.now }
    {
        match self {
            Kind::Write { own, target: _ } => Some(*own),
            Kind::Read { own: _, target } => Some(*target),
            Kind::Notify { .. } | Kind::ReadNote { .. } => None,
        }
    }

    /// What the put of an entry of this kind changes.
    pub fn destination(&self) -> Destination
        ensures { result ≡ destination_of self.now }
    {
        match self {
            Kind::Write { own: _, target } => Destination::Range(*target),
            Kind::Read { own, target: _ } => Destination::Range(*own),
            Kind::Notify { target, value } => Destination::Slot(*target, *value),
            Kind::ReadNote { own } => Destination::Slot(*own, 1),
        }
    }
}

/// The phase of an entry: how far it has come.
#[derive(Debug, PartialEq, Eq, Drop)]
pub enum Phase {
    /// It has not taken its bytes.
    Posted,
    /// It has taken its bytes, which are these; a notification has none.
    Carried(Bytes),
    /// Its transfer has failed: the target's segment of that generation was gone.
    Failed,
}

/// An entry of a lane.
#[derive(Debug, PartialEq, Eq, Drop)]
pub struct Entry {
    /// Its number among all entries of its origin, from 0.
    pub number: u32,
    pub kind: Kind,
    pub phase: Phase,
}

/// A queue of a rank. (GASPI: one-sided communication)
#[derive(Debug, PartialEq, Eq, Drop)]
pub struct Queue {
    /// How many entries were posted since the last wait or purge that was done.
    pub open_count: u32,
    /// The target of its failed entry where it is broken, else None.
    pub broken: Option<RankId>,
    /// Its lane to each rank, by the number of the rank.
    pub lanes: Sequence<Sequence<Entry>>,
}
