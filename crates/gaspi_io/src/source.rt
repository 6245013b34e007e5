//! The trait of all sources: where bytes are read from.

ghost use Rattle.std.specs.Prelude.{◌≤◌, ◌≡◌, ℕ, List, Option, length, IfOk, OnOk, OnErr};
ghost use Rattle.std.specs.Option.{ForSome};
ghost use Rattle.gaspi_io.specs.Faults.{HasCause};
ghost use Rattle.gaspi_io.specs.Source.{without, PutsPrefix, EndsOnly};

use crate::faults::Failed;

/// Where bytes are read from. A read that is answered `Failed` has counted one fault, and no other has. After a fault the next
/// read goes on where the last one that succeeded ended.
pub trait Source {
    /// The bytes that are not read yet, or None where it does not tell them. It tells them always or never.
    ghost left: { Self → Option (List ℕ) };

    /// How many of its reads have failed.
    ghost faults: { Self → ℕ };

    /// Puts the next bytes at the front of the buffer, and answers how many. Into a buffer that is not empty, 0 is the end of
    /// the bytes.
    fn read(&mut self, buf: &mut [u8]) -> Result<usize, Failed>
        ensures count { IfOk result (λ n. n ≤ length buf.old) }

        // Where it tells its bytes, these are the next of them.
        ensures given { IfOk result (λ n. ForSome (left self.old) (λ bytes. n ≤ length bytes)) }
        ensures front { IfOk result (λ n. ForSome (left self.old) (λ bytes. PutsPrefix bytes n buf.old buf.new)) }
        ensures end { IfOk result (λ n. ForSome (left self.old) (λ bytes. EndsOnly bytes n buf.old)) }
        ensures rest { IfOk result (λ n. left self.new ≡ without (left self.old) n) }
        ensures kept { OnErr result (left self.new ≡ left self.old) }

        ensures still { OnOk result (faults self.new ≡ faults self.old) }
        ensures cause { OnErr result (HasCause (faults self.old) (faults self.new)) }
        ensures counted { faults self.old ≤ faults self.new };
}
