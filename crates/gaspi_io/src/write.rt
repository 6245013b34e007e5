//! To write all of a piece, by as many writes as that takes.

ghost use Rattle.std.specs.Prelude.{◌≡◌, ◌≤◌, OnOk, OnErr};
ghost use Rattle.gaspi_io.specs.Faults.{HasCause};
ghost use Rattle.gaspi_io.specs.Sink.{with_more, AddsPrefix};

use crate::faults::Failed;
use crate::sink::Sink;

/// Writes all of a piece. Where the sink fails, it has got a prefix of the piece, which is shorter.
pub fn write_all<K: Sink>(sink: &mut K, piece: &[u8]) -> Result<(), Failed>
    ensures all { OnOk result (K.held sink.new ≡ with_more (K.held sink.old) piece.now) }
    ensures front { OnErr result (AddsPrefix piece.now (K.held sink.old) (K.held sink.new)) }
    ensures cause { OnErr result (HasCause (K.faults sink.old) (K.faults sink.new)) }
    ensures counted { K.faults sink.old ≤ K.faults sink.new }
    ensures still { OnOk result (K.faults sink.new ≡ K.faults sink.old) }
{
    let mut done = 0;
    while done < piece.len() {
        done += sink.write(&piece[done..])?;
    }
    Ok(())
}
