//! Standard input and output. No contract can say what a terminal, a pipe or a file gives or takes, so these tell no bytes.

ghost use Rattle.std.specs.Prelude.{◌≡◌, ◌≤◌, ◌+◌, ◌<◌, None, [], length, IfOk, OnErr, OnOk, IsOk};
ghost use Rattle.std.specs.Io.KnownBytes.{ReadConsumes, WriteAppends};
ghost use Rattle.gaspi_io.specs.Faults.{HasCause, one_more};

use crate::faults::Failed;
use crate::sink::Sink;
use crate::source::Source;
use std::io::{ErrorKind, Read, Write};
use std::marker::Model;

/// How often one read or write is tried where signals interrupt it, before that is a fault.
const TRIES: u32 = 64;

/// A source over a reader of the system, as standard input. It tells no bytes. Contracts see it as a `Stream`.
///
/// ```text
/// let mut source = StdSource::new(rt.reader());
/// let bytes = read_all(rt.alloc(), &mut source, 65_536)?;
/// ```
#[derive(Drop)]
pub struct StdSource<R: Read + Drop> {
    reader: R,
    faults: u64,
}

impl<R: Read + Drop> Model for StdSource<R> {
    ghost use Rattle.gaspi_io.specs.Standard.{Stream};

    ghost Value = { Stream R };

    ghost view = { λ s. record { through = s.reader; faults = s.faults } };
}

impl<R: Read + Drop> StdSource<R> {
    /// A source over a reader, as `rt.reader()` gives it.
    pub fn new(reader: R) -> StdSource<R>
        ensures { result ≡ record { through = reader; faults = 0 } }
    {
        StdSource { reader, faults: 0 }
    }
}

impl<R: Read + Drop> Source for StdSource<R> {
    ghost left = { λ _. None };

    ghost faults = { λ s. s.faults };

    /// One read of the system. A read that a signal interrupts is tried again, 64 times at most in all.
    fn read(&mut self, buf: &mut [u8]) -> Result<usize, Failed>
        ensures count { IfOk result (λ n. n ≤ length buf.old) }

        // What the reader tells, where it tells it, is passed on.
        ensures passed { ReadConsumes (R.remaining self.old.through) (R.remaining self.new.through)
            result buf.new }

        ensures ok { OnOk result (self.new.faults ≡ self.old.faults) }
        ensures err { OnErr result (self.new.faults ≡ one_more self.old.faults) }
        ensures cause { OnErr result (HasCause self.old.faults self.new.faults) }
        ensures counted { self.old.faults ≤ self.new.faults }
    {
        match read_once(&mut self.reader, buf) {
            Ok(count) => Ok(count),
            Err(failed) => {
                self.faults = self.faults.saturating_add(1);
                Err(failed)
            }
        }
    }
}

/// One read of a reader, tried again where a signal interrupts it. Whatever else fails is a fault, which is not counted here.
fn read_once<R: Read>(reader: &mut R, buf: &mut [u8]) -> Result<usize, Failed>
    ensures count { IfOk result (λ n. n ≤ length buf.old) }
    ensures passed { ReadConsumes (R.remaining reader.old) (R.remaining reader.new) result buf.new }
{
    for _ in 0..TRIES {
        match reader.read(buf) {
            Ok(count) => return Ok(count),
            Err(error) => {
                if error.kind() != ErrorKind::Interrupted {
                    return Err(Failed);
                }
            }
        }
    }
    Err(Failed)
}

/// A sink over a writer of the system, as standard output. It tells no bytes. Contracts see it as a `Stream`.
///
/// ```text
/// let mut sink = StdSink::new(io::writer(&rt));
/// write_all(&mut sink, text)?;
/// ```
///
/// Each write is one of the system, so hand it large pieces.
#[derive(Drop)]
pub struct StdSink<W: Write + Drop> {
    writer: W,
    faults: u64,
}

impl<W: Write + Drop> Model for StdSink<W> {
    ghost use Rattle.gaspi_io.specs.Standard.{Stream};

    ghost Value = { Stream W };

    ghost view = { λ s. record { through = s.writer; faults = s.faults } };
}

impl<W: Write + Drop> StdSink<W> {
    /// A sink over a writer, as `io::writer(&rt)` gives it.
    pub fn new(writer: W) -> StdSink<W>
        ensures { result ≡ record { through = writer; faults = 0 } }
    {
        StdSink { writer, faults: 0 }
    }
}

impl<W: Write + Drop> Sink for StdSink<W> {
    ghost held = { λ _. None };

    ghost faults = { λ s. s.faults };

    /// One write of the system. A write that a signal interrupts is tried again, 64 times at most in all, and one that takes
    /// nothing of a piece that is not empty is a fault. For an empty piece there is no write.
    fn write(&mut self, piece: &[u8]) -> Result<usize, Failed>
        ensures count { IfOk result (λ n. n ≤ length piece.now) }
        ensures some { IfOk result (λ n. 0 < length piece.now → 0 < n) }
        ensures empty { piece.now ≡ [] → IsOk result }

        // Where the writer tells what it holds, this was added.
        ensures passed { WriteAppends (W.contents self.old.through) (W.contents self.new.through)
            result piece.now }

        ensures ok { OnOk result (self.new.faults ≡ self.old.faults) }
        ensures err { OnErr result (self.new.faults ≡ one_more self.old.faults) }
        ensures cause { OnErr result (HasCause self.old.faults self.new.faults) }
        ensures counted { self.old.faults ≤ self.new.faults }
    {
        if piece.is_empty() {
            return Ok(0);
        }
        match write_once(&mut self.writer, piece) {
            Ok(count) => Ok(count),
            Err(failed) => {
                self.faults = self.faults.saturating_add(1);
                Err(failed)
            }
        }
    }
}

/// One write of a writer, tried again where a signal interrupts it. It fails where nothing was taken, or where anything else
/// failed; the fault is not counted here.
fn write_once<W: Write>(writer: &mut W, piece: &[u8]) -> Result<usize, Failed>
    ensures count { IfOk result (λ n. n ≤ length piece.now) }
    ensures some { IfOk result (λ n. 0 < n) }
    ensures passed { WriteAppends (W.contents writer.old) (W.contents writer.new) result piece.now }
{
    for _ in 0..TRIES {
        match writer.write(piece) {
            Ok(0) => return Err(Failed),
            Ok(count) => return Ok(count),
            Err(error) => {
                if error.kind() != ErrorKind::Interrupted {
                    return Err(Failed);
                }
            }
        }
    }
    Err(Failed)
}
