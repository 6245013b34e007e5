//! The lines of a script whose calls are still to be made, as a cursor walks them.

ghost use Rattle.std.specs.Prelude.{◌≡◌, ◌∷◌, [], drop, IfOk, IfSome, None};

use crate::ring_rounds::RoundLines;
use crate::scripts::{ScriptLine, ScriptLines};
use gaspi_types::NoMemory;
use std::alloc::Global;
use std::marker::Model;

/// The lines of a script from the present one on: first those of a rank in the ring of `bench`, and then those that the script has in
/// memory.
#[derive(Debug, Drop)]
pub(crate) struct Remaining<'a> {
    /// Those of a rank in the ring; none where there are none or all are done.
    rounds: Option<RoundLines>,
    /// The lines after them.
    others: &'a [ScriptLine],
}

impl<'a> Model for Remaining<'a> {
    ghost use Rattle.std.specs.Prelude.{List, ◌++◌};
    ghost use Rattle.rank_script.specs.declared.scripts.ScriptLine.{ScriptLine};
    ghost use Rattle.rank_script.specs.Cursors.{lines_or_none};

    ghost Value = { List ScriptLine };

    ghost view = { λ r. lines_or_none r.rounds ++ r.others.now };
}

impl<'a> Remaining<'a> {
    /// All lines of a script. Where there are lines of `bench`, memory for one bench round is taken here, and none later. The only
    /// failure is out of memory.
    pub(crate) fn new(alloc: Global, lines: &'a ScriptLines) -> Result<Remaining<'a>, NoMemory>
        ensures { IfOk result (λ remaining. remaining ≡ lines.now) }
    {
        let rounds = match lines.ring {
            Some(ring) => Some(RoundLines::new(alloc, ring)?),
            None => None,
        };
        Ok(Remaining {
            rounds,
            others: lines.others.as_slice(),
        })
    }

    /// The present line; none exactly where no line is left.
    pub(crate) fn first(&self) -> Option<&ScriptLine>
        ensures some { IfSome result (λ line. self.now ≡ line.now ∷ drop 1 self.now) }
        ensures none { result ≡ None → self.now ≡ [] }
    {
        match &self.rounds {
            Some(rounds) => Some(rounds.first()),
            None => self.others.first(),
        }
    }

    /// The present line where the script has it in memory, lent for as long as the script is; otherwise none.
    pub(crate) fn first_in_memory(&self) -> Option<&'a ScriptLine>
        ensures { IfSome result (λ line. self.now ≡ line.now ∷ drop 1 self.now) }
    {
        match &self.rounds {
            Some(_) => None,
            None => self.others.first(),
        }
    }

    /// Goes on to the next line; where no line is left, nothing changes. It takes no memory.
    pub(crate) fn step(&mut self)
        ensures { self.new ≡ drop 1 self.old }
    {
        match &mut self.rounds {
            Some(rounds) => {
                if !rounds.step() {
                    self.rounds = None;
                }
            }
            None => {
                if let [_, later @ ..] = self.others {
                    self.others = later;
                }
            }
        }
    }

    /// Drops all lines that are left.
    pub(crate) fn clear(&mut self)
        ensures { self.new ≡ [] }
    {
        self.rounds = None;
        self.others = &[];
    }
}
