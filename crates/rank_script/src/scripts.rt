//! Scripts and their lines, how a run of a script ends, and why a world text is refused. In contracts a line is plain where its call
//! is no `end`, and looking where its timeout has one look at least: all lines in `Scripts` are both.

ghost use Rattle.std.specs.Prelude.{◌≡◌, ◌<◌, ◌≤◌, ◌++◌, ◌∷◌, [], length, ◌==◌, find, option_copied, slice_get, Some, OnOk, OnErr};
ghost use Rattle.rank_script.specs.declared.scripts.ScriptFault.TheVariants.{NoMemory};

use crate::expected::ExpectedReply;
use crate::line_timeouts::LineTimeout;
use crate::ring_ranks::RingRank;
use gaspi_types::{Call, CallerId, NoMemory, Sequence};
use std::alloc::Global;
use std::marker::Model;
use thiserror::Error;

/// A line of a script: one call, which may be made again while it times out.
#[derive(Debug, Drop)]
pub struct ScriptLine {
    /// Its number in the text, from 1.
    pub number: u64,
    /// The call, without its timeout.
    pub call: Call,
    /// How many looks each of these calls may have.
    pub timeout: LineTimeout,
    /// How often the call is made at most, 1 or more.
    pub tries: u32,
    /// The reply that the last of these calls must have; none where any will do.
    pub expected: Option<ExpectedReply>,
}

/// The lines of a script: first those of a rank in the ring of `bench`, which a cursor makes bench round by bench round, and then
/// those in memory.
#[derive(Debug, Drop)]
pub struct ScriptLines {
    /// The rank whose lines come first; none in a script that was read.
    pub(crate) ring: Option<RingRank>,
    /// The lines in memory.
    pub(crate) others: Sequence<ScriptLine>,
}

impl Model for ScriptLines {
    ghost use Rattle.std.specs.Prelude.{List, ◌++◌};
    ghost use Rattle.rank_script.specs.declared.scripts.ScriptLine.{ScriptLine};
    ghost use Rattle.rank_script.specs.RingLines.{ring_lines};

    ghost Value = { List ScriptLine };

    ghost view = { λ lines. ring_lines lines.ring ++ lines.others };
}

impl ScriptLines {
    ghost use Rattle.rank_script.specs.Bench.{bench_lines};

    /// No lines. It takes no memory.
    pub(crate) fn new(alloc: Global) -> ScriptLines
        ensures { result ≡ [] }
    {
        ScriptLines {
            ring: None,
            others: Sequence::new(alloc),
        }
    }

    /// The lines of a rank in the ring of `bench`. It takes no memory.
    pub(crate) fn of_ring(alloc: Global, ring: RingRank) -> ScriptLines
        ensures { result ≡ bench_lines ring.seed ring.ranks ring.rounds ring.rank ring.rounds }
    {
        ScriptLines {
            ring: Some(ring),
            others: Sequence::new(alloc),
        }
    }

    /// How many lines are in memory: all of a script that was read.
    pub fn count_in_memory(&self) -> usize
        ensures { result ≤ length self.now }
    {
        self.others.len()
    }

    /// Appends a line. Where memory runs out, nothing changes.
    pub(crate) fn push(&mut self, line: ScriptLine) -> Result<(), NoMemory>
        ensures ok { OnOk result (self.new ≡ self.old ++ line ∷ []) }
        ensures err { OnErr result (self.new ≡ self.old) }
    {
        self.others.push(line)
    }
}

/// The script of a caller.
#[derive(Debug, Drop)]
pub struct Script {
    /// Whose calls they are.
    pub caller: CallerId,
    /// The lines, in order.
    pub lines: ScriptLines,
}

/// How a run of a script ended.
#[derive(Clone, Copy, Debug, PartialEq, Eq)]
pub enum RunOutcome {
    /// After its last line.
    Ended,
    /// At a line whose last reply is not the expected one.
    Failed { line: u64 },
    /// By a timeout on a line that blocks.
    Stuck { line: u64 },
    /// Before a line for whose call the rank had no room.
    Limit { line: u64 },
    /// Before a line at whose call memory ran out.
    NoMemory { line: u64 },
}

/// Why a run is ended before its present call, by whoever makes the calls.
#[derive(Clone, Copy, Debug, PartialEq, Eq)]
pub enum RunStop {
    /// The rank has no room for the present call.
    Limit,
    /// Memory ran out at the present call.
    NoMemory,
}

/// Why a world text was not read.
#[derive(Debug, Drop, Error)]
pub enum ScriptFault {
    /// The line with this number, from 1, has this fault, S1 to S9. A text that is too long has S1 at line 0.
    #[error("fault S{number} line {line}")]
    At { number: u32, line: u64 },
    /// Out of memory.
    #[error("out of memory")]
    NoMemory,
}

impl From<NoMemory> for ScriptFault {
    ghost from_gives = { λ _ fault. fault ≡ NoMemory };

    /// Out of memory, as a fault.
    fn from(_error: NoMemory) -> ScriptFault {
        ScriptFault::NoMemory
    }
}

/// The scripts of a world, in the order of its callers. No line of them makes an end: a caller's end is no call of its script. The
/// call of each line may look at least once.
#[derive(Debug, Drop)]
pub struct Scripts {
    /// In the order of the callers.
    scripts: Sequence<Script>,
}

impl Model for Scripts {
    ghost use Rattle.std.specs.Prelude.{List};
    ghost use Rattle.rank_script.specs.declared.scripts.Script.{Script};
    ghost use Rattle.rank_script.specs.PlainScripts.{ArePlain, AreLooking};

    ghost Value = { List Script };

    ghost view = { λ s. s.scripts };

    ghost invariant = { λ s. ArePlain s.scripts × AreLooking s.scripts };
}

impl Scripts {
    ghost use Rattle.rank_script.specs.WorldText.{is_script_of, with_section, with_line};
    ghost use Rattle.rank_script.specs.PlainScripts.{IsPlain, MayLook, HasPlainLines, HasLookingLines, ArePlain, AreLooking};

    /// No scripts. It takes no memory.
    pub fn new(alloc: Global) -> Scripts
        ensures { result ≡ [] }
    {
        Scripts {
            scripts: Sequence::new(alloc),
        }
    }

    /// How many scripts there are. The contract says also that all lines are plain and looking.
    pub fn len(&self) -> usize
        ensures count { result ≡ length self.now }
        ensures plain { ArePlain self.now }
        ensures looks { AreLooking self.now }
    {
        self.scripts.len()
    }

    /// How many lines the scripts have in memory, for a guess at the room of what their run makes; no proof rests on it.
    pub fn line_count(&self) -> usize {
        let mut count: usize = 0;
        for script in self.scripts.as_slice() {
            count = count.saturating_add(script.lines.count_in_memory());
        }
        count
    }

    /// Whether there is no script.
    pub fn is_empty(&self) -> bool
        ensures { result ≡ (length self.now == 0) }
    {
        self.scripts.len() == 0
    }

    /// The script with this index.
    pub fn at(&self, place: usize) -> &Script
        requires { place < length self.now }
        ensures { slice_get self.now place ≡ Some result.now }
    {
        self.scripts.at(place)
    }

    /// The script of a caller; none where it has none.
    pub fn of(&self, caller: CallerId) -> Option<&Script>
        ensures { option_copied result ≡ find (is_script_of caller) self.now }
    {
        self.scripts
            .as_slice()
            .iter()
            .find(|script| script.caller == caller)
    }

    /// Appends a script without lines, for a caller. Where memory runs out, nothing changes.
    pub(crate) fn open(&mut self, alloc: Global, caller: CallerId) -> Result<(), NoMemory>
        ensures ok { OnOk result (self.new ≡ with_section self.old caller) }
        ensures err { OnErr result (self.new ≡ self.old) }
    {
        self.scripts.push(Script {
            caller,
            lines: ScriptLines::new(alloc),
        })
    }

    /// Appends a line, which is plain and looking, to the newest script. Where memory runs out, nothing changes.
    pub(crate) fn add_line(&mut self, line: ScriptLine) -> Result<(), NoMemory>
        requires some { 0 < length self.old }
        requires plain { IsPlain line }
        requires look { MayLook line }
        ensures ok { OnOk result (self.new ≡ with_line self.old (Some line)) }
        ensures err { OnErr result (self.new ≡ self.old) }
    {
        let last = self.scripts.len() - 1;
        let script = self.scripts.at_mut(last);
        script.lines.push(line)
    }

    /// Appends a script, whose lines are plain and looking. Where memory runs out, nothing changes.
    pub(crate) fn add(&mut self, script: Script) -> Result<(), NoMemory>
        requires plain { HasPlainLines script }
        requires look { HasLookingLines script }
        ensures ok { OnOk result (self.new ≡ self.old ++ script ∷ []) }
        ensures err { OnErr result (self.new ≡ self.old) }
    {
        self.scripts.push(script)
    }
}
