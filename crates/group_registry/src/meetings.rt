//! The member list of a group id, which all ranks share. (GASPI: groups)

ghost use Rattle.std.specs.Prelude.{◌≡◌, None, Some, OnOk, OnErr, IsSome};
ghost use Rattle.gaspi_types.specs.Groups.{fix_checks};

use gaspi_types::Refusal;
use std::marker::Model;

/// The member list of a group id in the whole world, once it is fixed. Contracts see that list, or none.
#[derive(Debug, Drop)]
pub struct Meeting {
    /// The list, bit r for rank r; None where none is fixed.
    fixed: Option<u32>,
}

impl Model for Meeting {
    ghost use Rattle.std.specs.Prelude.{ℕ, Option};

    ghost Value = { Option ℕ };

    ghost view = { λ meeting. meeting.fixed };
}

impl Meeting {
    /// No list is fixed.
    pub fn new() -> Meeting
        ensures { result ≡ None }
    {
        Meeting { fixed: None }
    }

    /// Fixes a member list, bit r for rank r. A list that is fixed stays, and another one is refused: `GroupMismatch` has the list
    /// that is fixed. (GASPI: group_commit)
    pub fn fix(&mut self, mask: u32) -> Result<(), Refusal>
        ensures answer { result ≡ fix_checks self.old mask }
        ensures fixed { OnOk result (self.new ≡ Some mask) }
        ensures refused { OnErr result (self.new ≡ self.old) }
        ensures kept { IsSome self.old → self.new ≡ self.old }
    {
        match self.fixed {
            Some(kept) if kept != mask => Err(Refusal::GroupMismatch { kept }),
            _ => {
                self.fixed = Some(mask);
                Ok(())
            }
        }
    }

    /// The member list, bit r for rank r; None where none is fixed.
    pub fn members(&self) -> Option<u32>
        ensures { result ≡ self.now }
    {
        self.fixed
    }
}
