//! Sources that give few bytes at once, and sources and sinks that fail, under `step --brief` of the first world. A `piece` is the
//! most bytes of one read or write.

ghost use Rattle.std.specs.Prelude.{◌<◌};

use crate::running::{STEP, TOLD, TWO_RANKS, answer_to};
use gaspi_io::{MemSink, MemSource};
use gaspi_types::{Bytes, NoMemory, Sequence};
use std::alloc::Global;
use std::sync::Wait;
use std::test::Fail;
use std::thread::Threads;

/// A source of the first world, which gives at most `piece` bytes a read, and fails at the reads with these numbers, from 0. The only
/// failure is out of memory.
fn source_in_pieces(alloc: Global, piece: usize, failing: &[u64]) -> Result<MemSource, NoMemory>
    requires { 0 < piece }
{
    let failing = Sequence::copied_from(alloc, failing)?;
    let mut source = MemSource::new(Bytes::copied_from(alloc, TWO_RANKS.as_bytes())?);
    source.set_piece(piece);
    source.set_failing(failing);
    Ok(source)
}

/// A sink that takes at most `piece` bytes a write, and fails at the writes with these numbers, from 0. The only failure is out of
/// memory.
fn sink_in_pieces(alloc: Global, piece: usize, failing: &[u64]) -> Result<MemSink, NoMemory>
    requires { 0 < piece }
{
    let failing = Sequence::copied_from(alloc, failing)?;
    let mut sink = MemSink::with_capacity(alloc, 4096)?;
    sink.set_piece(piece);
    sink.set_failing(failing);
    Ok(sink)
}

/// Whether a schedule of what the source gives has this status and writes this text; and whether its answer has a journal.
fn told<R: Threads + Wait + Sync>(
    rt: &R,
    alloc: Global,
    source: &mut MemSource,
    sink: &mut MemSink,
    status: u8,
    text: &[u8],
) -> (bool, bool) {
    let answer = answer_to(rt, alloc, &STEP, source, sink);
    let is_told = answer.status == status && sink.bytes() == text;
    (is_told, !answer.journal.is_empty())
}

/// Whether all transcripts are written where input and output go in pieces of a size.
fn is_told_in_pieces<R: Threads + Wait + Sync>(
    rt: &R,
    alloc: Global,
    piece: usize,
) -> Result<bool, NoMemory>
    requires { 0 < piece }
{
    let mut source = source_in_pieces(alloc, piece, &[])?;
    let mut sink = sink_in_pieces(alloc, piece, &[])?;
    Ok(told(rt, alloc, &mut source, &mut sink, 0, TOLD.as_bytes()).0)
}

// The size of the pieces changes nothing.
#[test]
fn pieces_of_each_size_are_one_text(rt: HostRuntime) -> Result<(), Fail> {
    for piece in [1, 2, 7, 184, 185] {
        assert!(rt;
            is_told_in_pieces(&rt, rt.alloc(), piece)?,
            "pieces of {piece}"
        );
    }
    Ok(())
}

/// Whether the status is 5, nothing is written, and there is no journal, where the read with this number fails.
fn fails_at_read<R: Threads + Wait + Sync>(
    rt: &R,
    alloc: Global,
    piece: usize,
    call: u64,
) -> Result<bool, NoMemory>
    requires { 0 < piece }
{
    let mut source = source_in_pieces(alloc, piece, &[call])?;
    let mut sink = sink_in_pieces(alloc, 4096, &[])?;
    let told = told(rt, alloc, &mut source, &mut sink, 5, b"");
    Ok(matches!(told, (true, false)))
}

// The text has 184 bytes: with 50 a read, four reads give bytes, and the fifth finds the end. With one, 184 reads do.
#[test]
fn each_read_fails_in_turn(rt: HostRuntime) -> Result<(), Fail> {
    for call in 0..5 {
        assert!(rt;
            fails_at_read(&rt, rt.alloc(), 50, call)?,
            "read {call} of 50"
        );
    }
    for call in 0..185 {
        assert!(rt;
            fails_at_read(&rt, rt.alloc(), 1, call)?,
            "read {call} of 1"
        );
    }
    Ok(())
}

/// Whether the status is 6, and just the first `before` bytes are written, where the write with this number fails.
fn fails_at_write<R: Threads + Wait + Sync>(
    rt: &R,
    alloc: Global,
    piece: usize,
    call: u64,
    before: usize,
) -> Result<bool, NoMemory>
    requires { 0 < piece }
{
    let mut source = source_in_pieces(alloc, 4096, &[])?;
    let mut sink = sink_in_pieces(alloc, piece, &[call])?;
    let front = TOLD.as_bytes().get(..before).unwrap_or(b"no front");
    Ok(told(rt, alloc, &mut source, &mut sink, 6, front).0)
}

// The text has 97 bytes: with 25 a write, four writes take it, and with one, 97.
#[test]
fn each_write_fails_in_turn(rt: HostRuntime) -> Result<(), Fail> {
    for call in 0..4 {
        let before = 25 * call as usize;
        assert!(rt;
            fails_at_write(&rt, rt.alloc(), 25, call, before)?,
            "write {call} of 25"
        );
    }
    for call in 0..97 {
        let before = call as usize;
        assert!(rt;
            fails_at_write(&rt, rt.alloc(), 1, call, before)?,
            "write {call} of 1"
        );
    }
    Ok(())
}
