//! The ranks of a mask as a list, one after another, which takes no memory. (GASPI: groups)

ghost use Rattle.std.specs.Prelude.{◌≡◌, ◌≤◌, length};
ghost use Rattle.gaspi_types.specs.Collectives.{members_of};

use gaspi_types::{RankId, is_member};
use std::marker::Model;

/// The ranks of a mask, by rising number. Contracts see the list of these numbers.
#[derive(Debug, Drop)]
pub struct Members {
    ranks: [RankId; 16],
    count: usize,
}

impl Model for Members {
    ghost use Rattle.std.specs.Prelude.{ℕ, ◌≤◌, List, take};

    ghost Value = { List ℕ };

    ghost view = { λ members. take members.count members.ranks };

    ghost invariant = { λ members. members.count ≤ 16 };
}

impl Members {
    /// The ranks, of which there are at most 16.
    pub fn ranks(&self) -> &[RankId]
        ensures ranks { result.now ≡ self.now }
        ensures most { length self.now ≤ 16 }
    {
        &self.ranks[..self.count]
    }
}

/// The ranks of a mask, in which bit r is for rank r, by rising number. (GASPI: groups)
pub fn members_of(mask: u32) -> Members
    ensures { result ≡ members_of mask }
{
    let mut ranks = [RankId::of(0); 16];
    let mut count = 0;
    for number in 0..16 {
        let rank = RankId::of(number);
        if is_member(mask, rank) {
            ranks[count] = rank;
            count += 1;
        }
    }
    Members { ranks, count }
}
