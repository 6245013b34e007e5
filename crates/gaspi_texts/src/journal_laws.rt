//! A law of journals. A law is the contract of a function that does nothing, but that it may call the laws from which it
//! follows.

ghost use Rattle.std.specs.Prelude.{◌≡◌, List};
ghost use Rattle.gaspi_types.specs.declared.events.Event.{Event};
ghost use Rattle.gaspi_texts.specs.JournalText.{journal_text, AreInRange};

use crate::{events_differ_in_text, events_have_no_line_feed};

/// Journals in range with the same text are equal: no text is that of two journals.
pub fn journals_differ_in_text()
    ensures { (journal other : List Event) → AreInRange journal → AreInRange other → journal_text journal ≡ journal_text other → journal ≡ other }
{
    events_have_no_line_feed();
    events_differ_in_text();
}
