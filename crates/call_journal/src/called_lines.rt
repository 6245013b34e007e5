//! The lines that made the calls of a run, by number. Mostly the next line makes the next call, so numbers that follow each other
//! are kept as a range.

ghost use Rattle.std.specs.Prelude.{◌≡◌, ◌++◌, ◌∷◌, [], drop, slice_get, if◌then◌else◌, OnOk, OnErr};

use gaspi_types::{NoMemory, Sequence};
use std::alloc::Global;
use std::marker::Model;

/// Numbers that follow each other: the first, and how many come after it.
#[derive(Clone, Copy, Debug)]
pub struct LineRange {
    first: u32,
    more: u32,
}

/// The lines that made the calls of a run, in the order of the calls, which contracts see as their numbers.
#[derive(Debug, Drop)]
pub struct CalledLines {
    ranges: Sequence<LineRange>,
}

impl Model for CalledLines {
    ghost use Rattle.std.specs.Prelude.{ℕ, List};
    ghost use Rattle.call_journal.specs.CalledLines.{numbers_of};

    ghost Value = { List ℕ };

    ghost view = { λ lines. numbers_of lines.ranges };
}

impl CalledLines {
    /// No lines. It takes no memory.
    pub fn new(alloc: Global) -> CalledLines
        ensures { result ≡ [] }
    {
        CalledLines {
            ranges: Sequence::new(alloc),
        }
    }

    /// How many lines there are, for a guess at room; no proof rests on it.
    pub fn count(&self) -> usize {
        let mut count: usize = 0;
        for range in self.ranges.as_slice() {
            count = count.saturating_add(range.more as usize + 1);
        }
        count
    }

    /// Adds a line. After `NoMemory` nothing has changed. A number of more than 32 bits is answered so too: the script that has the line
    /// would take 480 GB, and no text has so many lines.
    pub fn push(&mut self, line: u64) -> Result<(), NoMemory>
        ensures ok { OnOk result (self.new ≡ self.old ++ line ∷ []) }
        ensures err { OnErr result (self.new ≡ self.old) }
    {
        if self.extend_last(line) {
            return Ok(());
        }
        let Ok(first) = u32::try_from(line) else {
            return Err(NoMemory);
        };
        self.ranges.push(LineRange { first, more: 0 })
    }

    /// Adds a line to the last range, where it is the number after that range; whether it was added.
    fn extend_last(&mut self, line: u64) -> bool
        ensures { self.new ≡ (if result then self.old ++ line ∷ [] else self.old) }
    {
        let count = self.ranges.len();
        if count == 0 {
            return false;
        }
        let LineRange { first, more } = *self.ranges.at(count - 1);
        if more == u32::MAX || u64::from(first) + u64::from(more) + 1 != line {
            return false;
        }
        let more = more + 1;
        self.ranges.set(count - 1, LineRange { first, more });
        true
    }

    /// All lines, to be read.
    pub fn reader(&self) -> LineReader<'_>
        ensures { result ≡ self.now }
    {
        LineReader {
            line: 0,
            more: 0,
            ranges: self.ranges.as_slice(),
        }
    }
}

/// The lines that are still to be read, which contracts see as their numbers.
#[derive(Debug, Drop)]
pub struct LineReader<'a> {
    /// The line that was read last.
    line: u64,
    /// How many lines come after it in its range.
    more: u32,
    /// The ranges after its own.
    ranges: &'a [LineRange],
}

impl<'a> Model for LineReader<'a> {
    ghost use Rattle.std.specs.Prelude.{ℕ, List, ◌+◌, ◌++◌, ◌<◌, ◌^◌};
    ghost use Rattle.std.specs.List.{range_with_len};
    ghost use Rattle.call_journal.specs.CalledLines.{numbers_of};

    ghost Value = { List ℕ };

    ghost view = { λ reader. range_with_len (reader.line + 1) reader.more ++ numbers_of reader.ranges.now };

    ghost invariant = { λ reader. reader.line + reader.more < 2 ^ 33 };
}

impl<'a> LineReader<'a> {
    /// Reads the next line; none where none is left.
    pub fn next(&mut self) -> Option<u64>
        ensures line { result ≡ slice_get self.old 0 }
        ensures rest { self.new ≡ drop 1 self.old }
    {
        if self.more > 0 {
            self.line += 1;
            self.more -= 1;
            return Some(self.line);
        }
        if self.ranges.is_empty() {
            return None;
        }
        let LineRange { first, more } = self.ranges[0];
        self.line = u64::from(first);
        self.more = more;
        self.ranges = &self.ranges[1..];
        Some(self.line)
    }
}
