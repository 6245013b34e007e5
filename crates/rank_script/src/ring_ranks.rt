//! A rank in the ring of `bench`: its neighbours, and the number of its first line.

ghost use Rattle.std.specs.Prelude.{◌≡◌, ◌<◌, ◌≤◌};

/// A rank in a ring, in which each sends a number to its right neighbour in each bench round. Its lines follow from this alone.
#[derive(Clone, Copy, Debug)]
pub(crate) struct RingRank {
    /// The seed of the generator.
    pub seed: u32,
    /// How many ranks there are, at most 16.
    pub ranks: u32,
    /// How many bench rounds, 1 to 5,000.
    pub rounds: u32,
    /// The number of this rank.
    pub rank: u32,
    ghost few: { ranks ≤ 16 },
    ghost some: { 1 ≤ rounds },
    ghost short: { rounds ≤ 5000 },
    ghost there: { rank < ranks },
}

impl RingRank {
    ghost use Rattle.rank_script.specs.Bench.{first_number, right_of, left_of};

    /// The right neighbour, to which the rank's numbers go.
    pub(crate) fn right(&self) -> u32
        ensures { result ≡ right_of self.now.ranks self.now.rank }
    {
        (self.rank + 1) % self.ranks
    }

    /// The left neighbour, whose numbers come to the rank.
    pub(crate) fn left(&self) -> u32
        ensures exact { result ≡ left_of self.now.ranks self.now.rank }
        ensures bound { result < 16 }
    {
        (self.rank + self.ranks - 1) % self.ranks
    }

    /// The number that the rank's first line would have in a text of this world.
    pub(crate) fn first_number(&self) -> u64
        ensures value { result ≡ first_number self.now.ranks self.now.rounds self.now.rank }
        ensures bound { result < 1000000 }
    {
        let lines = 7 * u64::from(self.rounds) + 1;
        u64::from(self.ranks) + 3 + u64::from(self.rank) * lines
    }
}
