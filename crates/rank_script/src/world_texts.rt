//! World texts as a whole: a text alone, or the beginning of an input whose journal comes after it.

ghost use Rattle.std.specs.Prelude.{◌≡◌, ◌≤◌, ◌+◌, [], length, IfOk, IfSome};
ghost use Rattle.gaspi_types.specs.World.{IsShape};
ghost use Rattle.call_texts.specs.Lines.{fed_lines};
ghost use Rattle.rank_script.specs.WorldText.{world_text, checked_world, journal_offset, read_lines, Reads, ReadsInput, AreScriptsOf};
ghost use Rattle.rank_script.specs.Lines.{input_limit};
ghost use Rattle.rank_script.specs.UntilJournal.{until_text, until_from};
ghost use Rattle.rank_script.specs.Readings.{reading_of, Accords};

use crate::readings::Reading;
use crate::scripts::{ScriptFault, Scripts};
use crate::split::is_journal_line;
use call_texts::{first_line, plain_line};
use gaspi_types::Shape;
use std::alloc::Global;

/// The most bytes of a world text, and of an input that begins with one.
pub const MOST_INPUT_BYTES: usize = 268_435_456;

/// Reads a world text: the shape that it declares, and the scripts of its callers. Where a line has a fault, the error is the first
/// such line with the smallest number of its faults. The only other failure is out of memory.
pub fn read_world(alloc: Global, text: &[u8]) -> Result<(Shape, Scripts), ScriptFault>
    ensures exact { Reads result (world_text text.now) }
    ensures world { IfOk result (λ read. IsShape read.0) }
    ensures callers { IfOk result (λ read. AreScriptsOf read.0 read.1) }
{
    let (shape, scripts, _) = read_until(alloc, text, false)?;
    Ok((shape, scripts))
}

/// Reads an input: the world text at its beginning, and where its journal begins. That is the byte at which the first line begins
/// whose first word is `journal`, and that line's number, from 1; none where no line begins so, and then the whole input is the world
/// text. The errors are those of `read_world`; the whole input may not be too long.
pub fn read_input(
    alloc: Global,
    text: &[u8],
) -> Result<(Shape, Scripts, Option<(u64, u64)>), ScriptFault>
    ensures exact { ReadsInput result (checked_world text.now) (journal_offset text.now) }
    ensures world { IfOk result (λ read. IsShape read.0) }
    ensures callers { IfOk result (λ read. AreScriptsOf read.0 read.1) }
    ensures short { IfOk result (λ read. length text.now ≤ input_limit) }
    ensures within { IfOk result (λ read. IfSome read.2 (λ found. (1 ≤ found.1) × (found.1 ≤ found.0 + 1) × (found.0 ≤ length text.now))) }
{
    read_until(alloc, text, true)
}

/// Reads the lines of a text, for `read_world` and `read_input`: up to its journal where `journal` is true, and all lines otherwise.
/// The third answer is where the journal begins; none where it is not looked for, or is not there. The errors are those of
/// `read_world`.
fn read_until(
    alloc: Global,
    text: &[u8],
    journal: bool,
) -> Result<(Shape, Scripts, Option<(u64, u64)>), ScriptFault>
    ensures exact { ReadsInput result (until_text journal text.now) (until_from journal 0 1 (fed_lines text.now)) }
    ensures world { IfOk result (λ read. IsShape read.0) }
    ensures callers { IfOk result (λ read. AreScriptsOf read.0 read.1) }
    ensures short { IfOk result (λ read. length text.now ≤ input_limit) }
    ensures within { IfOk result (λ read. IfSome read.2 (λ found. (1 ≤ found.1) × (found.1 ≤ found.0 + 1) × (found.0 ≤ length text.now))) }
{
    if text.len() > MOST_INPUT_BYTES {
        return Err(ScriptFault::At { number: 1, line: 0 });
    }
    let mut reading = Reading::new(alloc);
    let mut list = Vec::new(alloc);
    let mut rest = text;
    let mut number: u64 = 1;
    while !rest.is_empty() {
        let (line, later) = first_line(rest);
        let line = plain_line(line);
        if journal && is_journal_line(line) {
            let (shape, scripts) = finish(reading, number)?;
            let place = (text.len() - rest.len()) as u64;
            return Ok((shape, scripts, Some((place, number))));
        }
        reading.read_line(alloc, &mut list, number, line)?;
        number += 1;
        rest = later;
    }
    let (shape, scripts) = finish(reading, number)?;
    Ok((shape, scripts, None))
}

/// The shape and the scripts that were read, where the lines end before the one with this number. Where no world line came, the fault
/// is S1 in the line with this number.
fn finish(reading: Reading, number: u64) -> Result<(Shape, Scripts), ScriptFault>
    requires { Accords (reading_of reading) }
    ensures exact { Reads result (read_lines (reading_of reading) number []) }
    ensures world { IfOk result (λ read. IsShape read.0) }
    ensures callers { IfOk result (λ read. AreScriptsOf read.0 read.1) }
{
    let Reading { shape, scripts } = reading;
    let Some(shape) = shape else {
        return Err(ScriptFault::At {
            number: 1,
            line: number,
        });
    };
    // Says that the shape is a world.
    let _ = shape.limits();
    Ok((shape, scripts))
}
