//! The text of a journal written, whole or line by line.

ghost use Rattle.std.specs.Prelude.{◌≡◌, ◌++◌, List, OnOk, OnErr};
ghost use Rattle.gaspi_types.specs.declared.events.Event.{Event};
ghost use Rattle.gaspi_texts.specs.Additions.{KeepsPrefix};
ghost use Rattle.gaspi_texts.specs.JournalText.{event_line, end_line, journal_text, HaveOwnValues, AreInRange};

use crate::journal_laws::journals_differ_in_text;
use crate::journal_ranges::journal_is_in_range;
use crate::{Journal, write_event, write_number};
use gaspi_types::{Bytes, Event, NoMemory};

/// Adds the line of an event. After `NoMemory` the text still begins with what it had; some of the line may be there.
pub fn write_event_line(text: &mut Bytes, place: u64, event: &Event) -> Result<(), NoMemory>
    ensures ok { OnOk result (text.new ≡ text.old ++ event_line place event.now) }
    ensures kept { KeepsPrefix text.old text.new }
{
    write_number(text, place)?;
    text.push(b' ')?;
    write_event(text, event)?;
    text.push(b'\n')
}

/// Adds the end line of a journal of `count` events. After `NoMemory` the text still begins with what it had; some of the line
/// may be there.
pub fn write_end_line(text: &mut Bytes, count: u64) -> Result<(), NoMemory>
    ensures ok { OnOk result (text.new ≡ text.old ++ end_line count) }
    ensures kept { KeepsPrefix text.old text.new }
{
    text.append(b"end ")?;
    write_number(text, count)?;
    text.push(b'\n')
}

/// Adds the text of a journal. After `NoMemory` the text still begins with what it had.
fn append_journal(text: &mut Bytes, journal: &Journal) -> Result<(), NoMemory>
    ensures ok { OnOk result (text.new ≡ text.old ++ journal_text journal.now) }
    ensures kept { KeepsPrefix text.old text.new }
{
    text.append(b"journal 1\n")?;
    for (place, event) in journal.as_slice().iter().enumerate() {
        write_event_line(text, place as u64, event)?;
    }
    write_end_line(text, journal.len() as u64)
}

/// Adds the text of a journal, in which each join has to have the values of its collective. After `NoMemory` nothing has
/// changed. The text is that of this journal and of no other, so `read` gives this journal.
pub fn write(text: &mut Bytes, journal: &Journal) -> Result<(), NoMemory>
    requires { HaveOwnValues journal.now }
    ensures ok { OnOk result (text.new ≡ text.old ++ journal_text journal.now) }
    ensures err { OnErr result (text.new ≡ text.old) }
    ensures ranges { AreInRange journal.now }
    ensures only { (other : List Event) → AreInRange other → journal_text other ≡ journal_text journal.now → other ≡ journal.now }
{
    journals_differ_in_text();
    prove!(journal_is_in_range(journal));
    let count = text.len();
    let written = append_journal(text, journal);
    if written.is_err() {
        text.truncate(count);
    }
    written
}
