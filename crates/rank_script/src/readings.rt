//! A world text, read line by line: what the lines so far have said, and what one more line adds, or which fault it has. In contracts
//! a reading accords where its scripts are those of the declared callers, in order.

ghost use Rattle.std.specs.Prelude.{◌≡◌, ◌<◌, ◌+◌, map, length, true, false, None, Some, IsSome, OnOk, IfOk};
ghost use Rattle.rank_script.specs.WorldText.{WorldLine, SegmentLine, SectionLine, CallLine, is_comment, is_unknown, lacks_world, is_misplaced, is_miscounted};
ghost use Rattle.rank_script.specs.CutLines.{line_in, call_in};
ghost use Rattle.rank_script.specs.Readings.{fault_for, GivesLine};
ghost use Rattle.rank_script.specs.PlainScripts.{IsPlain, MayLook};
ghost use Rattle.rank_script.specs.declared.scripts.ScriptFault.TheVariants.{At};

use crate::arguments::{read_section, read_segment, read_shape, timeout_of, tries_of};
use crate::call_lines::CallParts;
use crate::line_fields::LineParts;
use crate::line_timeouts::LineTimeout;
use crate::lines::is_bad_line;
use crate::scripts::{ScriptFault, ScriptLine, Scripts};
use call_texts::set_words;
use gaspi_types::{Shape, ShapeFault};
use std::alloc::Global;

/// What the lines so far have said.
#[derive(Debug, Drop)]
pub(crate) struct Reading {
    /// The shape; none before the world line.
    pub(crate) shape: Option<Shape>,
    /// The scripts of the sections so far, the newest last.
    pub(crate) scripts: Scripts,
}

impl Reading {
    ghost use Rattle.rank_script.specs.WorldText.{empty_reading};
    ghost use Rattle.rank_script.specs.Readings.{reading_of, early_fault, ReadsLine, ReadsLineFields, Accords};

    /// What no line has said: no shape and no script. It takes no memory.
    pub(crate) fn new(alloc: Global) -> Reading
        ensures { reading_of result ≡ empty_reading }
    {
        Reading {
            shape: None,
            scripts: Scripts::new(alloc),
        }
    }

    /// Reads the next line, which has this number, and adds what it says; or answers its fault with the smallest number, or out of
    /// memory. After an error the reading is not used any more. `list` is for the words: it is refilled, so that its memory serves all
    /// lines.
    pub(crate) fn read_line<'a>(
        &mut self,
        alloc: Global,
        list: &mut Vec<&'a [u8]>,
        number: u64,
        line: &'a [u8],
    ) -> Result<(), ScriptFault>
        ensures exact { ReadsLine result (reading_of self.old) (reading_of self.new) number line.now }
        ensures accords { Accords (reading_of self.old) → OnOk result (Accords (reading_of self.new)) }
    {
        set_words(list, line)?;
        let words = list.as_slice();
        if is_comment(words) {
            return Ok(());
        }
        if words.is_empty() {
            return if is_bad_line(line) {
                Err(ScriptFault::At {
                    number: 2,
                    line: number,
                })
            } else {
                Ok(())
            };
        }
        let parts = LineParts::of(words);
        match self.early_fault(line, parts) {
            Some(fault) => Err(ScriptFault::At {
                number: fault,
                line: number,
            }),
            None => self.read_line_fields(alloc, number, parts),
        }
    }

    /// The smallest number of the faults that a line shows before its fields are read, 1 to 5; none where it has none of these.
    fn early_fault(&self, line: &[u8], parts: LineParts) -> Option<u32>
        ensures { result ≡ early_fault (reading_of self.now) line.now (line_in parts.entry) }
    {
        if self.shape.is_none() && !parts.is_world() {
            return Some(1);
        }
        if is_bad_line(line) {
            return Some(2);
        }
        if parts.is_unknown() {
            return Some(3);
        }
        if self.is_misplaced(parts) {
            return Some(4);
        }
        if parts.is_miscounted() {
            return Some(5);
        }
        None
    }

    /// Whether a line of this kind may not come next: fault S4.
    fn is_misplaced(&self, parts: LineParts) -> bool
        ensures { result ≡ is_misplaced (reading_of self.now) (line_in parts.entry) }
    {
        match parts {
            LineParts::World(_) => self.shape.is_some(),
            LineParts::Segment(_) => !self.scripts.is_empty(),
            LineParts::Call(_) | LineParts::Again => self.scripts.is_empty(),
            LineParts::Section(_) | LineParts::Unknown => false,
        }
    }

    /// Reads the fields of a line that has none of the faults S1 to S5, for `read_line`, and adds what they say; or answers the
    /// smallest of the faults S6 to S9, or out of memory. The functions below do so for each kind.
    fn read_line_fields(
        &mut self,
        alloc: Global,
        number: u64,
        parts: LineParts,
    ) -> Result<(), ScriptFault>
        requires known { is_unknown (line_in parts) ≡ false }
        requires world { lacks_world (reading_of self.old) (line_in parts) ≡ false }
        requires placed { is_misplaced (reading_of self.old) (line_in parts) ≡ false }
        requires count { is_miscounted (line_in parts) ≡ false }
        ensures exact { ReadsLineFields result (reading_of self.old) (reading_of self.new) number (line_in parts.entry) }
        ensures accords { Accords (reading_of self.old) → OnOk result (Accords (reading_of self.new)) }
    {
        match parts {
            LineParts::World(words) => self.read_world_line(alloc, number, words),
            LineParts::Segment(words) => self.read_segment_line(number, words),
            LineParts::Section(words) => self.read_section_line(alloc, number, words),
            LineParts::Call(call) => self.read_call_line(alloc, number, call),
            LineParts::Again | LineParts::Unknown => unreachable!(),
        }
    }

    /// Reads the six words after `world`, and sets the shape, which must be none yet.
    fn read_world_line(
        &mut self,
        alloc: Global,
        number: u64,
        words: &[&[u8]],
    ) -> Result<(), ScriptFault>
        requires count { length words.now ≡ 6 }
        requires first { self.old.shape ≡ None }
        ensures exact { ReadsLineFields result (reading_of self.old) (reading_of self.new) number (WorldLine (map (λ word. word.now) words.now)) }
        ensures accords { Accords (reading_of self.old) → OnOk result (Accords (reading_of self.new)) }
    {
        match read_shape(alloc, words) {
            None => Err(malformed(number)),
            Some(Err(fault)) => Err(fault_for(fault, number)),
            Some(Ok(shape)) => {
                self.shape = Some(shape);
                Ok(())
            }
        }
    }

    /// Reads the three words after `segment`, and adds a declared segment to the shape, which must be there.
    fn read_segment_line(&mut self, number: u64, words: &[&[u8]]) -> Result<(), ScriptFault>
        requires count { length words.now ≡ 3 }
        requires world { IsSome self.old.shape }
        ensures exact { ReadsLineFields result (reading_of self.old) (reading_of self.new) number (SegmentLine (map (λ word. word.now) words.now)) }
        ensures accords { Accords (reading_of self.old) → OnOk result (Accords (reading_of self.new)) }
    {
        let Some(shape) = &mut self.shape else {
            unreachable!()
        };
        let Some((rank, segment, size)) = read_segment(words) else {
            return Err(malformed(number));
        };
        match shape.add_segment(rank, segment, size) {
            Ok(()) => Ok(()),
            Err(fault) => Err(fault_for(fault, number)),
        }
    }

    /// Reads the three words after `rank`, adds the caller to the shape, which must be there, and opens the caller's script.
    fn read_section_line(
        &mut self,
        alloc: Global,
        number: u64,
        words: &[&[u8]],
    ) -> Result<(), ScriptFault>
        requires count { length words.now ≡ 3 }
        requires world { IsSome self.old.shape }
        ensures exact { ReadsLineFields result (reading_of self.old) (reading_of self.new) number (SectionLine (map (λ word. word.now) words.now)) }
        ensures accords { Accords (reading_of self.old) → OnOk result (Accords (reading_of self.new)) }
    {
        let Some(shape) = &mut self.shape else {
            unreachable!()
        };
        let Some((rank, thread)) = read_section(words) else {
            return Err(malformed(number));
        };
        match shape.add_caller(rank, thread) {
            Ok(()) => {}
            Err(fault) => return Err(fault_for(fault, number)),
        }
        let Some(caller) = shape.callers().last() else {
            unreachable!()
        };
        self.scripts.open(alloc, *caller)?;
        Ok(())
    }

    /// Reads the words of a call line, and appends the line to the newest script, of which there must be one.
    fn read_call_line(
        &mut self,
        alloc: Global,
        number: u64,
        call: CallParts,
    ) -> Result<(), ScriptFault>
        requires { 0 < length self.old.scripts }
        ensures exact { ReadsLineFields result (reading_of self.old) (reading_of self.new) number (CallLine (call_in call.entry)) }
        ensures accords { Accords (reading_of self.old) → OnOk result (Accords (reading_of self.new)) }
    {
        let line = read_script_line(alloc, number, call)?;
        self.scripts.add_line(line)?;
        Ok(())
    }
}

/// The script line that a call line gives, for `read_call_line`; or its fault S6 or S7, or out of memory.
fn read_script_line(alloc: Global, number: u64, parts: CallParts) -> Result<ScriptLine, ScriptFault>
    ensures exact { GivesLine result number (call_in parts.entry) }
    ensures plain { IfOk result IsPlain }
    ensures look { IfOk result MayLook }
{
    let Some(tries) = parts.read_tries() else {
        return Err(malformed(number));
    };
    let Some(call) = parts.read_call(alloc)? else {
        return Err(malformed(number));
    };
    let Some(looks) = parts.read_looks() else {
        return Err(malformed(number));
    };
    let Some(expected) = parts.read_expected(alloc)? else {
        return Err(malformed(number));
    };
    let (Some(tries), Some(timeout)) = (tries_of(tries), timeout_of(looks)) else {
        return Err(ScriptFault::At {
            number: 7,
            line: number,
        });
    };
    Ok(ScriptLine {
        number,
        call,
        timeout: LineTimeout::new(timeout),
        tries,
        expected,
    })
}

/// The fault S6, of a line with a word that is not what it must be.
fn malformed(line: u64) -> ScriptFault
    ensures { result ≡ At 6 line }
{
    ScriptFault::At { number: 6, line }
}

/// Whether these are the words of a comment: the first begins with `#`.
fn is_comment(words: &[&[u8]]) -> bool
    ensures { result ≡ is_comment (map (λ word. word.now) words.now) }
{
    matches!(words, [[b'#', ..], ..])
}

/// The fault of a line whose declaration the shape refuses: S7 to S9, or out of memory.
fn fault_for(fault: ShapeFault, line: u64) -> ScriptFault
    ensures { result ≡ fault_for fault line }
{
    match fault {
        ShapeFault::Limit => ScriptFault::At { number: 7, line },
        ShapeFault::Twice => ScriptFault::At { number: 8, line },
        ShapeFault::Threads => ScriptFault::At { number: 9, line },
        ShapeFault::NoMemory => ScriptFault::NoMemory,
    }
}
