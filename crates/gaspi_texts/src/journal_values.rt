//! Whether the joins of a journal have the values of their collectives.

ghost use Rattle.std.specs.Prelude.{◌↔◌, IsTrue};
ghost use Rattle.gaspi_texts.specs.JournalText.{HaveOwnValues};

use crate::{Journal, has_own_values};

/// Whether each join of a journal has the values of its collective: an allreduce as many of its type as it says, and any other
/// none.
pub fn have_own_values(journal: &Journal) -> bool
    ensures { IsTrue result ↔ HaveOwnValues journal.now }
{
    for event in journal.as_slice() {
        if !has_own_values(event) {
            return false;
        }
    }
    true
}
