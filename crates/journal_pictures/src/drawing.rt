//! The sequence diagram of a journal: its first lines, and then a line for each event, after the journal was checked.

ghost use Rattle.std.specs.Prelude.{◌≡◌, ◌++◌, true, codes, IfOk, OnOk};
ghost use Rattle.std.specs.List.{flat_map, range_with_len};
ghost use Rattle.gaspi_model.specs.Step.{is_legal};
ghost use Rattle.journal_pictures.specs.Answers.{IsSequenceAnswer};
ghost use Rattle.journal_pictures.specs.Diagram.{participant_line, sequence_text};

use crate::delivery_tables::{delivery_for, empty_table, pass};
use crate::diagram_lines::{write_line, write_participant};
use call_journal::{Verdict, check};
use gaspi_model::Why;
use gaspi_texts::Journal;
use gaspi_types::{Bytes, NoMemory, Shape};
use std::alloc::Global;

/// How many events a diagram may have.
const MOST_EVENTS: usize = 400;

/// What `sequence` answers.
#[derive(Debug, PartialEq, Eq, Drop)]
pub enum SequenceAnswer {
    /// The text of the diagram.
    Drawn(Bytes),
    /// The journal is legal, and has that number of events, too many for a diagram.
    Long { events: u64 },
    /// The event at that place, from 0, is the first that is no step, for that cause.
    Illegal { place: u64, why: Why },
}

/// Adds the lines that name the ranks. What the text has after `NoMemory` is not said.
fn write_participants(text: &mut Bytes, ranks: u32) -> Result<(), NoMemory>
    ensures { OnOk result (text.new ≡ text.old ++ flat_map participant_line (range_with_len 0 ranks)) }
{
    for rank in 0..ranks {
        write_participant(text, rank)?;
    }
    Ok(())
}

/// The first lines of a diagram, up to those that name the ranks.
fn diagram_head(alloc: Global, ranks: u32) -> Result<Bytes, NoMemory>
    ensures { IfOk result (λ text. text ≡ codes "sequenceDiagram\n" ++ flat_map participant_line (range_with_len 0 ranks)) }
{
    let mut text = Bytes::new(alloc);
    text.append(b"sequenceDiagram\n")?;
    write_participants(&mut text, ranks)?;
    Ok(text)
}

/// The diagram of a journal, which has to be legal.
fn draw(alloc: Global, shape: &Shape, journal: &Journal) -> Result<Bytes, NoMemory>
    requires { is_legal shape.now journal.now ≡ true }
    ensures { IfOk result (λ text. text ≡ sequence_text shape.now journal.now) }
{
    let limits = shape.limits();
    let mut text = diagram_head(alloc, limits.ranks)?;
    let mut table = empty_table(alloc)?;
    for (place, event) in journal.as_slice().iter().enumerate() {
        write_line(&mut text, place as u64, event, delivery_for(&table, event))?;
        pass(&mut table, event)?;
    }
    Ok(text)
}

/// The sequence diagram of a journal, in the text of Mermaid. First the whole journal is checked, as by `check`. A journal of
/// more than 400 events has none. (own choice)
pub fn sequence(alloc: Global, shape: &Shape, journal: &Journal) -> Result<SequenceAnswer, NoMemory>
    ensures { IfOk result (λ answer. IsSequenceAnswer shape.now journal.now answer) }
{
    match check(alloc, shape, journal)? {
        Verdict::Legal => {
            if journal.len() > MOST_EVENTS {
                return Ok(SequenceAnswer::Long {
                    events: journal.len() as u64,
                });
            }
            let text = draw(alloc, shape, journal)?;
            Ok(SequenceAnswer::Drawn(text))
        }
        Verdict::Illegal { place, why } => Ok(SequenceAnswer::Illegal { place, why }),
    }
}
