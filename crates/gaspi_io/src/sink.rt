//! The trait of all sinks: where bytes are written to.

ghost use Rattle.std.specs.Prelude.{◌≤◌, ◌<◌, ◌≡◌, ℕ, List, Option, length, take, IfOk, OnOk, OnErr};
ghost use Rattle.gaspi_io.specs.Faults.{HasCause};
ghost use Rattle.gaspi_io.specs.Sink.{with_more};

use crate::faults::Failed;

/// Where bytes are written to. A write that is answered `Failed` has counted one fault, and no other has.
pub trait Sink {
    /// The bytes that it holds, or None where it does not tell them. It tells them always or never.
    ghost held: { Self → Option (List ℕ) };

    /// How many of its writes have failed.
    ghost faults: { Self → ℕ };

    /// Takes the first bytes of the piece, at least one where there is one, and answers how many. Where it fails it has taken
    /// none.
    fn write(&mut self, piece: &[u8]) -> Result<usize, Failed>
        ensures count { IfOk result (λ n. n ≤ length piece.now) }
        ensures some { IfOk result (λ n. 0 < length piece.now → 0 < n) }
        ensures held { IfOk result (λ n. held self.new ≡ with_more (held self.old) (take n piece.now)) }
        ensures kept { OnErr result (held self.new ≡ held self.old) }

        ensures still { OnOk result (faults self.new ≡ faults self.old) }
        ensures cause { OnErr result (HasCause (faults self.old) (faults self.new)) }
        ensures counted { faults self.old ≤ faults self.new };
}
