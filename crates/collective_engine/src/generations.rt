//! The generations in which members have made their segments, in a value that takes no memory. (GASPI: segment_create)

ghost use Rattle.std.specs.Prelude.{◌≡◌};

use gaspi_types::MemberSegment;
use std::marker::Model;

/// For each member the generation of its new segment, by rising rank. Contracts see the list.
#[derive(Debug, Drop)]
pub struct Generations {
    /// The list, and then items of no account.
    pub(crate) made: [MemberSegment; 16],
    /// How many items the list has.
    pub(crate) count: usize,
}

impl Model for Generations {
    ghost use Rattle.std.specs.Prelude.{◌≤◌, List, take};
    ghost use Rattle.gaspi_types.specs.declared.groups.MemberSegment.{MemberSegment};

    ghost Value = { List MemberSegment };

    ghost view = { λ generations. take generations.count generations.made };

    ghost invariant = { λ generations. generations.count ≤ 16 };
}

impl Generations {
    /// The list, by rising rank.
    pub fn as_slice(&self) -> &[MemberSegment]
        ensures { result.now ≡ self.now }
    {
        &self.made[..self.count]
    }
}
