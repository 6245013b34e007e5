//! Two ranks that send messages to one another, as an example: the smallest machine in which the shards of an event depend on its
//! owner's shard, and each shard keeps the events that its rank owns. Here a post is one event, and has no entry.

ghost use Rattle.std.specs.Prelude.{◌≡◌, ℕ, zero, List, [], ◌∷◌, slice_get, Some};
ghost use Rattle.commit_table.specs.ProjectionJournals.{cut};
ghost use Rattle.commit_table.specs.Projections.{projections_of};
ghost use Rattle.commit_table.specs.Ranks.{rank_projections, rank_event_owner};
ghost use Rattle.commit_table.specs.RankLaws.{noted_acts};
ghost use Rattle.commit_table.specs.declared.ranks.RankEvent.TheVariants.{Link, Post};

use crate::sharded::Sharded;
use std::collections::LinkedList;

/// An event of the ranks, with the number of the rank that owns it.
#[derive(Drop)]
pub enum RankEvent {
    /// The rank may post from now on.
    Link(u32),
    /// The other rank has one message more.
    Post(u32),
}

/// An event with its place in the history.
#[derive(Drop)]
pub struct PlacedRankEvent {
    /// The place.
    pub place: u64,
    /// The event.
    pub act: RankEvent,
}

/// The value of a rank's shard.
#[derive(Drop)]
pub struct RankProjection {
    /// Whether the rank may post.
    pub linked: bool,
    /// How many messages were posted to the rank.
    pub messages: u64,
    /// The place of the last post to the rank, or 0.
    pub latest: u64,
    /// The rank's own events, in order.
    pub journal: LinkedList<PlacedRankEvent>,
}

/// The start of the machine: two ranks, neither of which is linked.
#[derive(Drop)]
pub struct TwoRanks;

impl Sharded for TwoRanks {
    type Shard = RankProjection;

    type Event = RankEvent;

    ghost use Rattle.commit_table.specs.Ranks.{ranks};
    ghost use Rattle.commit_table.specs.RankLaws.{ranks_lawful};

    ghost machine = { λ start. ranks };

    ghost lawful = { λ start. ranks_lawful };
}

/// A law: after a history the shard of a rank has just the events that the rank owns, each with its place (`parts`). There are
/// histories in which a rank links and posts (`some`).
pub fn parts_are_the_history()
    ensures parts { (history : List RankEvent) (parts : List RankProjection) → projections_of rank_projections history ≡ Some parts
        → (rank : ℕ) (first : RankProjection) → slice_get rank_projections.first rank ≡ Some first
        → (part : RankProjection) × (slice_get parts rank ≡ Some part) × (noted_acts part ≡ cut rank_event_owner rank zero history) }
    ensures some { (parts : List RankProjection) × (projections_of rank_projections (Link 0 ∷ Post 0 ∷ []) ≡ Some parts) }
{}
