//! Quiet ranks: those that have posted nothing since a worker's try found nothing to transfer there. The count of a rank is that of
//! `World::posts`: how many of its recorded calls are posts or ends.

ghost use Rattle.std.specs.Prelude.{◌≡◌, ◌⊎◌, ℕ, true};
ghost use Rattle.transfer_worker.specs.QuietRanks.{IsKnown};

use commit_table::Watched;
use gaspi_world::World;

/// The most ranks of a world.
const RANKS: usize = 16;

/// For each rank the count that was read before the last try which found no transfer of it; none where there was no such try. Until
/// the rank posts again, a try would find none. Contracts see for which ranks there is a count (`IsKnown`), and so that there was such
/// a try.
#[derive(Drop)]
pub struct QuietRanks<'a> {
    /// The world, whose present counts are compared with these.
    world: &'a World,
    /// How many ranks the world has.
    ranks: u32,
    /// By rank, the count or none.
    counts: [Option<u64>; RANKS],
}

impl<'a> QuietRanks<'a> {
    /// No counts: no rank is known to be quiet.
    pub fn none(world: &'a World) -> QuietRanks<'a>
        ensures { (rank : ℕ) → ¬ IsKnown result.counts rank }
    {
        QuietRanks {
            world,
            ranks: world.shape().limits().ranks,
            counts: [None; RANKS],
        }
    }

    /// Whether a rank is quiet: the count that was added for it is its present one, which is given.
    pub fn is_quiet(&self, rank: u32, count: u64) -> bool
        ensures { result ≡ true → IsKnown self.now.counts rank }
    {
        match self.counts.get(rank as usize) {
            Some(Some(known)) => *known == count,
            _ => false,
        }
    }

    /// Adds for a rank the count that was read before a try which found no transfer of it; an earlier count of the rank goes.
    pub fn add(&mut self, rank: u32, count: u64)
        ensures { (other : ℕ) → IsKnown self.new.counts other → (other ≡ rank) ⊎ IsKnown self.old.counts other }
    {
        let place = rank as usize;
        if place < RANKS {
            self.counts[place] = Some(count);
        }
    }
}

impl Watched for QuietRanks<'_> {
    /// Whether a rank is not quiet, so that another turn is worth while.
    fn has_come(&self) -> bool {
        (0..self.ranks).any(|rank| !self.is_quiet(rank, self.world.posts().count(rank)))
    }
}
