//! The footprint of an event: the parts that it may read or change beside the posts of its owner. A call's row or an entry's
//! kind declares it with any numbers (`DeclaredFootprint`); a `Footprint` has what of that is in the world.

ghost use Rattle.std.specs.Prelude.{◌≡◌, ◌≤◌};
ghost use Rattle.gaspi_types.specs.Footprints.{footprint_of, take_footprint, put_footprint};

use crate::entries::Kind;
use crate::ids::{GroupId, RankId};

/// A footprint as it is declared. A rank and a group are any numbers, as a caller wrote them. (own choice)
#[derive(Clone, Copy, Debug, PartialEq, Eq)]
pub enum DeclaredFootprint {
    /// No part.
    Nothing,
    /// The memory of the owner.
    OwnMemory,
    /// The memory of a rank.
    MemoryOf(u64),
    /// The memory of the owner, to read, and that of a rank.
    BothMemories(u64),
    /// The posts of a rank.
    PostsOf(u64),
    /// A group, by its number.
    GroupOf(u64),
    /// A group, and the memory of the owner.
    GroupAndMemory(u64),
}

/// The parts that an event reaches beside its owner's posts: what is declared, where it is in the world. A peer is a rank of
/// the world other than the owner; a group has a number below 8.
#[derive(Clone, Copy, Debug, PartialEq, Eq)]
pub enum Footprint {
    /// No part.
    Alone,
    /// The memory of the owner.
    OwnMemory,
    /// The memory of that peer.
    PeerMemory(RankId),
    /// The memories of the owner and of that peer.
    BothMemories(RankId),
    /// The posts of that peer.
    PeerPosts(RankId),
    /// That group.
    Group(GroupId),
    /// That group, and the memory of the owner.
    GroupAndMemory(GroupId),
}

impl DeclaredFootprint {
    /// The footprint, in a world of `ranks` ranks, of an event that `me` owns. Where a rank or a group is declared that is not
    /// there, it has no part at all; the owner is no peer.
    pub fn footprint(self, ranks: u32, me: RankId) -> Footprint
        requires { ranks ≤ 16 }
        ensures { result ≡ footprint_of ranks me self }
    {
        match self {
            DeclaredFootprint::Nothing => Footprint::Alone,
            DeclaredFootprint::OwnMemory => Footprint::OwnMemory,
            DeclaredFootprint::MemoryOf(rank) => {
                if rank == u64::from(me.number()) {
                    Footprint::OwnMemory
                } else if rank < u64::from(ranks) {
                    Footprint::PeerMemory(RankId::of(rank as u32))
                } else {
                    Footprint::Alone
                }
            }
            DeclaredFootprint::BothMemories(rank) => {
                if rank == u64::from(me.number()) {
                    Footprint::OwnMemory
                } else if rank < u64::from(ranks) {
                    Footprint::BothMemories(RankId::of(rank as u32))
                } else {
                    Footprint::Alone
                }
            }
            DeclaredFootprint::PostsOf(rank) => {
                if rank == u64::from(me.number()) {
                    Footprint::Alone
                } else if rank < u64::from(ranks) {
                    Footprint::PeerPosts(RankId::of(rank as u32))
                } else {
                    Footprint::Alone
                }
            }
            DeclaredFootprint::GroupOf(group) => {
                if group < 8 {
                    Footprint::Group(GroupId::of(group as u32))
                } else {
                    Footprint::Alone
                }
            }
            DeclaredFootprint::GroupAndMemory(group) => {
                if group < 8 {
                    Footprint::GroupAndMemory(GroupId::of(group as u32))
                } else {
                    Footprint::Alone
                }
            }
        }
    }
}

impl Kind {
    /// The footprint of the take of an entry of this kind to that target: a write takes its bytes from its own segment, a read
    /// from its target's, and a notification takes none.
    pub fn take_footprint(&self, target: RankId) -> DeclaredFootprint
        ensures { result ≡ take_footprint target self.now }
    {
        match self {
            Kind::Write { .. } => DeclaredFootprint::OwnMemory,
            Kind::Read { .. } => DeclaredFootprint::MemoryOf(u64::from(target.number())),
            Kind::Notify { .. } | Kind::ReadNote { .. } => DeclaredFootprint::Nothing,
        }
    }

    /// The footprint of the put of an entry of this kind to that target: the memory of the target, or, of a read and its
    /// notification, that of the origin.
    pub fn put_footprint(&self, target: RankId) -> DeclaredFootprint
        ensures { result ≡ put_footprint target self.now }
    {
        match self {
            Kind::Write { .. } | Kind::Notify { .. } => DeclaredFootprint::MemoryOf(u64::from(
                target.number(),
            )),
            Kind::Read { .. } | Kind::ReadNote { .. } => DeclaredFootprint::OwnMemory,
        }
    }
}
