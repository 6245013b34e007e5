//! That the numbers of a journal are in the ranges of their types.

ghost use Rattle.std.specs.Prelude.{◌≡◌, true};
ghost use Rattle.gaspi_texts.specs.JournalText.{HaveOwnValues, AreInRange};

use crate::{Journal, event_is_in_range};

/// Whether the numbers of all events of a journal are in the ranges of their types, so that no other journal has its text. They
/// always are: `prove!` alone asks, so that a compiler may leave it out. Each join has to have the values of its collective.
pub fn journal_is_in_range(journal: &Journal) -> bool
    requires { HaveOwnValues journal.now }
    ensures always { result ≡ true }
    ensures ranges { AreInRange journal.now }
{
    for event in journal.as_slice() {
        event_is_in_range(event);
    }
    true
}
