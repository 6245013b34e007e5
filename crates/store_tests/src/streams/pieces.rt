//! Sources and sinks in memory, with small pieces and with faults.

ghost use Rattle.std.specs.Prelude.{◌≡◌, IfOk, IsErrOf, IsOk};

use gaspi_io::{Failed, MemSink, MemSource, ReadStop, SureSink, SureSource, read_all, write_all};
use gaspi_types::{Bytes, NoMemory, Sequence};
use std::alloc::Global;
use std::test::Fail;

/// The text that is read and written.
const TEXT: &[u8; 5] = b"gaspi";

/// The number of a call that is never made.
const NONE: u64 = 100;

/// What came of reading the text, and how many faults there were.
#[derive(Debug, Drop, PartialEq, Eq)]
struct Reading {
    whole: bool,
    stop: Option<ReadStop>,
    faults: u64,
}

/// Reads the text by pieces of a size, or as it comes where the size is 0; the call with the number `failing` fails.
fn read(alloc: Global, piece: usize, failing: u64, most: u64) -> Result<Reading, NoMemory> {
    let mut source = MemSource::new(Bytes::copied_from(alloc, TEXT)?);
    if piece > 0 {
        source.set_piece(piece);
    }
    source.set_failing(Sequence::copied_from(alloc, &[failing])?);
    let read = read_all(alloc, &mut source, most);
    let faults = source.faults();
    Ok(match read {
        Ok(bytes) => Reading {
            whole: bytes.as_slice() == TEXT.as_slice(),
            stop: None,
            faults,
        },
        Err(stop) => Reading {
            whole: false,
            stop: Some(stop),
            faults,
        },
    })
}

/// Writes the text by pieces of a size, or as it comes where the size is 0; the call with the number `failing` fails. How many
/// of its bytes are written, or `usize::MAX` where anything else is, and how many faults there were.
fn written(alloc: Global, piece: usize, failing: u64) -> Result<(usize, u64), NoMemory> {
    let mut sink = MemSink::with_capacity(alloc, 5)?;
    if piece > 0 {
        sink.set_piece(piece);
    }
    sink.set_failing(Sequence::copied_from(alloc, &[failing])?);
    let failed = write_all(&mut sink, TEXT).is_err();
    let faults = sink.faults();
    let bytes = sink.into_bytes();
    let front = TEXT.get(..bytes.len()) == Some(bytes.as_slice());
    if !front || failed != (faults > 0) {
        return Ok((usize::MAX, faults));
    }
    Ok((bytes.len(), faults))
}

#[test]
fn pieces_of_each_size_make_the_whole(rt: HostRuntime) -> Result<(), Fail> {
    let alloc = rt.alloc();
    let whole = Reading {
        whole: true,
        stop: None,
        faults: 0,
    };
    for piece in [1, 2, 3, 5, 6] {
        assert!(rt; read(alloc, piece, NONE, 5)? == whole, "pieces of {piece}");
        assert!(rt; written(alloc, piece, NONE)? == (5, 0), "pieces of {piece}");
    }
    Ok(())
}

// Two bytes a call: three reads or writes of bytes, and a read that finds the end. Nothing is called after it.
#[test]
fn each_call_fails_in_turn(rt: HostRuntime) -> Result<(), Fail> {
    let alloc = rt.alloc();
    for call in 0..4 {
        let fault = Reading {
            whole: false,
            stop: Some(ReadStop::Fault),
            faults: 1,
        };
        assert!(rt; read(alloc, 2, call, 5)? == fault, "read {call}");
    }
    for (call, front) in [(0, (0, 1)), (1, (2, 1)), (2, (4, 1)), (3, (5, 0))] {
        assert!(rt; written(alloc, 2, call)? == front, "write {call}");
    }
    let reading = read(alloc, 2, 4, 5)?;
    assert!(rt; reading.whole && reading.faults == 0);
    Ok(())
}

/// Why the reading of `length` zeros stops, where `most` bytes are allowed; None where it does not stop.
fn stop_of(alloc: Global, length: usize, most: u64) -> Result<Option<ReadStop>, NoMemory> {
    let zeros = vec![in alloc; 0; length]?;
    let mut source = MemSource::new(Sequence::from_vec(zeros));
    Ok(read_all(alloc, &mut source, most).err())
}

#[test]
fn more_than_may_come_is_long(rt: HostRuntime) -> Result<(), Fail> {
    let alloc = rt.alloc();
    assert!(rt; stop_of(alloc, 1, 0)? == Some(ReadStop::Long));
    assert!(rt; stop_of(alloc, 3, 3)? == None);
    assert!(rt; stop_of(alloc, 4, 3)? == Some(ReadStop::Long));
    assert!(rt; stop_of(alloc, 4096, 4096)? == None);
    assert!(rt; stop_of(alloc, 4097, 4096)? == Some(ReadStop::Long));
    Ok(())
}

/// Over a source that never fails there is no fault.
fn read_surely(alloc: Global, source: &mut SureSource, most: u64) -> Result<Bytes, ReadStop>
    ensures all { IfOk result (λ bytes. bytes ≡ source.old) }
    ensures no_fault { IsErrOf result ReadStop.Fault → ⊥ }
{
    read_all(alloc, source, most)
}

/// Into a sink that never fails everything is written.
fn write_surely(sink: &mut SureSink, piece: &[u8]) -> Result<(), Failed>
    ensures { IsOk result }
{
    write_all(sink, piece)
}

/// What such a source gives of the text.
fn sure_text(alloc: Global) -> Result<Bytes, Fail> {
    let mut source = SureSource::new(Bytes::copied_from(alloc, TEXT)?);
    Ok(read_surely(alloc, &mut source, 5)?)
}

/// What such a sink holds, after two pieces.
fn sure_pieces(alloc: Global, first: &[u8], second: &[u8]) -> Result<Bytes, Fail> {
    let mut sink = SureSink::with_capacity(alloc, 8)?;
    write_surely(&mut sink, first)?;
    write_surely(&mut sink, second)?;
    Ok(sink.into_bytes())
}

#[test]
fn the_sure_ones_do_not_fail(rt: HostRuntime) -> Result<(), Fail> {
    let alloc = rt.alloc();
    assert!(rt; sure_text(alloc)?.as_slice() == TEXT.as_slice());
    assert!(rt; sure_pieces(alloc, TEXT, b"run")?.as_slice() == b"gaspirun".as_slice());
    Ok(())
}
