//! Streams of the system, and streams of a test that behave as those may: interrupted, torn by a fault, or slow.

use gaspi_io::{Failed, Sink, Source, StdSink, StdSource, read_all, write_all};
use std::alloc::Global;
use std::io::{self, ErrorKind, Read, Write};
use std::test::Fail;

/// The text that is read and written.
const TEXT: &[u8; 5] = b"gaspi";

/// A stream that signals interrupt `interruptions` times at first, and that fails after `bytes` bytes.
#[derive(Drop)]
struct Flaky {
    interruptions: u8,
    bytes: u8,
}

impl Flaky {
    /// Lets a byte pass, or not.
    fn pass(&mut self) -> io::Result<()> {
        if let Some(left) = self.interruptions.checked_sub(1) {
            self.interruptions = left;
            return Err(io::Error::from(ErrorKind::Interrupted));
        }
        match self.bytes.checked_sub(1) {
            Some(left) => {
                self.bytes = left;
                Ok(())
            }
            None => Err(io::Error::from(ErrorKind::BrokenPipe)),
        }
    }
}

impl Read for Flaky {
    fn read(&mut self, buf: &mut [u8]) -> io::Result<usize> {
        self.pass()?;
        if buf.is_empty() {
            return Ok(0);
        }
        buf[0] = b'g';
        Ok(1)
    }
}

impl Write for Flaky {
    fn write(&mut self, piece: &[u8]) -> io::Result<usize> {
        self.pass()?;
        Ok(piece.len().min(1))
    }

    fn flush(&mut self) -> io::Result<()> {
        Ok(())
    }
}

/// What two reads of such a stream give.
fn reads(interruptions: u8, bytes: u8) -> [Result<usize, Failed>; 2] {
    let mut source = StdSource::new(Flaky {
        interruptions,
        bytes,
    });
    let mut buf = [0; 4];
    let first = source.read(&mut buf);
    [first, source.read(&mut buf)]
}

/// What two writes to it give.
fn writes(interruptions: u8, bytes: u8) -> [Result<usize, Failed>; 2] {
    let mut sink = StdSink::new(Flaky {
        interruptions,
        bytes,
    });
    let first = sink.write(TEXT);
    [first, sink.write(TEXT)]
}

#[test]
fn interrupted_calls_are_made_again(rt: HostRuntime) {
    let passed = [Ok(1), Err(Failed)];
    assert!(rt; reads(1, 1) == passed);
    assert!(rt; writes(1, 1) == passed);
}

#[test]
fn interrupted_calls_are_made_64_times(rt: HostRuntime) {
    let passed = [Ok(1), Err(Failed)];
    let failed = [Err(Failed), Ok(1)];
    assert!(rt; reads(63, 1) == passed);
    assert!(rt; reads(64, 1) == failed);
    assert!(rt; writes(63, 1) == passed);
    assert!(rt; writes(64, 1) == failed);
}

/// A stream of the text, byte by byte, that fails once, when it is asked for the second one.
#[derive(Drop)]
struct Torn {
    passed: usize,
    failed: bool,
}

impl Torn {
    /// The byte that passes.
    fn pass(&mut self) -> io::Result<u8> {
        let next = TEXT.get(self.passed);
        if self.passed == 1 && !self.failed {
            self.failed = true;
            return Err(io::Error::from(ErrorKind::BrokenPipe));
        }
        self.passed = self.passed.saturating_add(1);
        next.copied().ok_or(io::Error::from(ErrorKind::BrokenPipe))
    }
}

impl Read for Torn {
    fn read(&mut self, buf: &mut [u8]) -> io::Result<usize> {
        let byte = self.pass()?;
        if buf.is_empty() {
            return Ok(0);
        }
        buf[0] = byte;
        Ok(1)
    }
}

/// Takes the byte that passes, and no other one.
impl Write for Torn {
    fn write(&mut self, piece: &[u8]) -> io::Result<usize> {
        let byte = self.pass()?;
        Ok(usize::from(piece.first() == Some(&byte)))
    }

    fn flush(&mut self) -> io::Result<()> {
        Ok(())
    }
}

/// A torn stream that nothing has passed.
const TORN: Torn = Torn {
    passed: 0,
    failed: false,
};

/// Reads a byte.
fn byte_of(source: &mut StdSource<Torn>) -> Result<u8, Failed> {
    let mut buf = [0; 1];
    source.read(&mut buf)?;
    Ok(buf[0])
}

/// What three reads of it give.
fn torn_reads() -> [Result<u8, Failed>; 3] {
    let mut source = StdSource::new(TORN);
    let first = byte_of(&mut source);
    let second = byte_of(&mut source);
    [first, second, byte_of(&mut source)]
}

/// What three writes to it give, the last two of what is left after the first.
fn torn_writes() -> [Result<usize, Failed>; 3] {
    let mut sink = StdSink::new(TORN);
    let first = sink.write(TEXT);
    let second = sink.write(b"aspi");
    [first, second, sink.write(b"aspi")]
}

#[test]
fn a_stream_goes_on_after_a_fault(rt: HostRuntime) {
    assert!(rt; torn_reads() == [Ok(b'g'), Err(Failed), Ok(b'a')]);
    assert!(rt; torn_writes() == [Ok(1), Err(Failed), Ok(1)]);
}

/// A writer that takes nothing when it is first asked, and a byte each time after.
#[derive(Drop)]
struct Slow {
    asked: bool,
}

impl Write for Slow {
    fn write(&mut self, piece: &[u8]) -> io::Result<usize> {
        if !self.asked {
            self.asked = true;
            return Ok(0);
        }
        Ok(piece.len().min(1))
    }

    fn flush(&mut self) -> io::Result<()> {
        Ok(())
    }
}

#[test]
fn a_writer_that_takes_nothing_is_asked_once(rt: HostRuntime) {
    assert!(rt; StdSink::new(Slow { asked: false }).write(TEXT) == Err(Failed));
}

/// What writes of the text, of nothing and of the text again into five bytes give.
fn writes_to_five_bytes() -> [Result<usize, Failed>; 3] {
    let mut place = [0; 5];
    let mut sink = StdSink::new(place.as_mut_slice());
    let first = sink.write(TEXT);
    let second = sink.write(b"");
    [first, second, sink.write(TEXT)]
}

/// Whether a slice is read whole, as a stream of the system.
fn is_read(alloc: Global, text: &[u8]) -> Result<bool, Fail> {
    let bytes = read_all(alloc, &mut StdSource::new(text), 5)?;
    Ok(bytes.as_slice() == text)
}

#[test]
fn streams_of_the_system_are_a_source_and_a_sink(rt: HostRuntime) -> Result<(), Fail> {
    assert!(rt; is_read(rt.alloc(), TEXT)?);
    write_all(&mut StdSink::new(io::writer(&rt)), TEXT)?;
    assert!(rt; writes_to_five_bytes() == [Ok(5), Ok(0), Err(Failed)]);
    Ok(())
}
