//! The own segments of a rank with their bytes, and its table of segments.

use gaspi_types::{NoMemory, RankId, Sequence};
use segment_store::Segments;
use std::alloc::Global;
use std::test::Fail;

/// No segment, in a world of two ranks.
fn empty(alloc: Global) -> Result<Segments, NoMemory> {
    Segments::new(alloc, 2)
}

/// Whether a segment is made, of an id with a generation left.
fn makes(alloc: Global, segments: &mut Segments, seg: u64, size: u64) -> bool {
    segments.has_next_generation(seg) && segments.alloc(alloc, seg, size).is_ok()
}

/// The same in memory that is handed in, full of ones.
fn makes_in(
    alloc: Global,
    segments: &mut Segments,
    seg: u64,
    size: usize,
) -> Result<bool, NoMemory> {
    let ones = Sequence::from_vec(vec![in alloc; 1; size]?);
    Ok(segments.has_next_generation(seg) && segments.alloc_in(seg, ones).is_ok())
}

/// Whether these are the bytes of a range, copied.
fn loads(alloc: Global, segments: &Segments, seg: u64, offset: u64, bytes: &[u8]) -> bool {
    match segments.load(alloc, seg, offset, bytes.len() as u64) {
        Ok(loaded) => loaded.as_slice() == bytes,
        Err(_) => false,
    }
}

/// Whether these are the bytes of a range, lent.
fn lends(segments: &Segments, seg: u64, offset: u64, bytes: &[u8]) -> bool {
    let size = bytes.len() as u64;
    segments.range(seg, offset, size).is_ok() && segments.bytes(seg, offset, size) == bytes
}

/// Whether an own segment is there in that generation and size, and not in generation 7.
fn has(segments: &Segments, seg: u64, generation: u32, size: u32) -> bool {
    segments.generation(seg) == Some(generation)
        && segments.size_of(seg) == Some(size)
        && segments.has_generation(seg, generation)
        && !segments.has_generation(seg, 7)
}

/// Whether an own segment is not there.
fn lacks(segments: &Segments, seg: u64) -> bool {
    segments.generation(seg).is_none()
        && segments.size_of(seg).is_none()
        && !segments.has_generation(seg, 0)
}

/// Whether bytes are stored.
fn stores(segments: &mut Segments, seg: u64, offset: u64, bytes: &[u8]) -> bool {
    segments.store(seg, offset, bytes).is_ok()
}

/// Whether bytes within a segment of four are written, and nothing where one of them is past its end, or no segment is there.
fn puts(segments: &mut Segments, seg: u64) -> bool {
    segments.put(seg, 1, &[4, 5]);
    segments.put(seg, 3, &[6, 7]);
    segments.put(40, 0, &[8]);
    lends(segments, seg, 0, &[0, 4, 5, 0])
}

/// Whether a value is added to a memory word that is `old`.
fn adds(segments: &mut Segments, seg: u64, offset: u64, value: u64, old: u64) -> bool {
    segments.fetch_add(seg, offset, value) == Ok(old)
}

/// Whether a memory word that is `old` is replaced by a new one.
fn swaps(segments: &mut Segments, seg: u64, offset: u64, old: u64, new: u64) -> bool {
    segments.compare_swap(seg, offset, old, new) == Ok(old)
}

/// Whether a segment is deleted.
fn deletes(segments: &mut Segments, seg: u64) -> bool {
    segments.delete(seg).is_ok()
}

/// Whether a segment of a rank is known in a generation and a size, once it is registered.
fn registers(segments: &mut Segments, owner: RankId, seg: u64, generation: u32, size: u32) -> bool {
    if seg >= 32 || !segments.has_rank(owner) {
        return false;
    }
    segments.register(owner, seg, generation, u64::from(size));
    segments.known(owner, seg) == Some((generation, size))
}

/// For how many ranks the table has known segments.
fn ranks(segments: &Segments) -> usize {
    segments.table().known.len()
}

/// Whether a segment is made and written, and has the bytes that were written.
fn is_written(alloc: Global, segments: &mut Segments) -> bool {
    makes(alloc, segments, 31, 16)
        && stores(segments, 31, 3, &[1, 2, 3])
        && adds(segments, 31, 8, 5, 0)
        && swaps(segments, 31, 8, 5, 0x0A09)
        && loads(alloc, segments, 31, 2, &[0, 1, 2, 3, 0, 0, 9, 10, 0])
        && lends(segments, 31, 2, &[0, 1, 2, 3, 0, 0, 9, 10, 0])
        && has(segments, 31, 0, 16)
}

/// Whether a deleted segment is gone, is made again, and is all zero.
fn is_made_again(alloc: Global, segments: &mut Segments) -> Result<bool, NoMemory> {
    let gone = deletes(segments, 31) && lacks(segments, 31);
    let made = makes_in(alloc, segments, 31, 4)?;
    Ok(gone && made && has(segments, 31, 1, 4) && lends(segments, 31, 0, &[0, 0, 0, 0]))
}

#[test]
fn calls_answer(rt: HostRuntime) -> Result<(), Fail> {
    let alloc = rt.alloc();
    let mut segments = empty(alloc)?;
    assert!(rt; is_written(alloc, &mut segments));
    assert!(rt; is_made_again(alloc, &mut segments)?);
    assert!(rt; puts(&mut segments, 31));
    assert!(rt; registers(&mut segments, RankId::of(1), 31, 2, 8));
    assert!(rt; ranks(&segments) == 2);
    Ok(())
}
