//! Tables of segments: the extents of a rank's own segments, and of those that it knows of others. What they have, what calls check
//! by them, and how they change. `own` is the table of own segments. (GASPI: segments)

ghost use Rattle.std.specs.Prelude.{◌≡◌, ◌+◌, ◌<◌, ◌^◌, OnSome, slice_set};
ghost use Rattle.gaspi_types.specs.Inboxes.{passive_checks};
ghost use Rattle.gaspi_types.specs.SegmentTables.{extent_in, known_extent, own_range_checks, alloc_checks, next_generation, with_generation, with_own, without_own, with_known};

use crate::ranges::{check_range, is_within};
use gaspi_types::{
    Extent, Extents, RankId, Refusal, SegmentTable, Sequence, is_passive_size, is_segment_size,
};

/// The extent in a table under an id; None where there is none, also for a number over 31.
pub fn extent_in(table: &Extents, segment: u64) -> Option<Extent>
    ensures extent { result ≡ extent_in table.now segment }
    ensures bound { OnSome result (segment < 32) }
{
    if segment >= 32 {
        return None;
    }
    match table.get(segment as usize) {
        Some(extent) => *extent,
        None => None,
    }
}

/// The extent that rank `me` knows of a segment of a rank: of its own the present one, of another's that of its registration; None
/// where it knows none.
pub fn known_extent(me: RankId, table: &SegmentTable, rank: u64, segment: u64) -> Option<Extent>
    ensures extent { result ≡ known_extent me table.now rank segment }
    ensures bound { OnSome result (segment < 32) }
{
    if rank == u64::from(me.number()) {
        return extent_in(&table.own, segment);
    }
    match table.known.get(rank as usize) {
        Some(known) => extent_in(known, segment),
        None => None,
    }
}

/// Checks a range of an own segment: the segment is there (`NoSegment`), the size is right (`BadSize`), and the range lies in the
/// segment (`BadRange`).
pub fn check_own_range(own: &Extents, seg: u64, offset: u64, size: u64) -> Result<(), Refusal>
    ensures { result ≡ own_range_checks own.now seg offset size }
{
    let mine = extent_in(own, seg).ok_or(Refusal::NoSegment)?;
    check_range(mine.size, offset, size)
}

/// Checks a range of an own segment for a message: the segment is there (`NoSegment`), the message may have that many bytes
/// (`BadSize`), and they lie in the segment (`BadRange`). (GASPI: passive_send, passive_receive)
pub fn check_message_range(own: &Extents, seg: u64, offset: u64, size: u64) -> Result<(), Refusal>
    ensures { result ≡ passive_checks own.now seg offset size }
{
    let mine = extent_in(own, seg).ok_or(Refusal::NoSegment)?;
    if !is_passive_size(size) {
        return Err(Refusal::BadSize);
    }
    if !is_within(offset, size, u64::from(mine.size)) {
        return Err(Refusal::BadRange { size: mine.size });
    }
    Ok(())
}

/// Checks that a segment may be made: its id is below 32 (`NoSegment`), it is not there (`SegmentThere`), and its size is right
/// (`BadSize`). (GASPI: segment_alloc)
pub fn check_alloc(own: &Extents, seg: u64, size: u64) -> Result<(), Refusal>
    ensures { result ≡ alloc_checks own.now seg size }
{
    if seg >= 32 {
        return Err(Refusal::NoSegment);
    }
    if extent_in(own, seg).is_some() {
        return Err(Refusal::SegmentThere);
    }
    if !is_segment_size(size) {
        return Err(Refusal::BadSize);
    }
    Ok(())
}

/// The generation that the next segment of an id has; 0 for a number over 31.
pub fn next_generation(generations: &Sequence<u32>, seg: u64) -> u32
    ensures { result ≡ next_generation generations.now seg }
{
    generations
        .as_slice()
        .get(seg as usize)
        .copied()
        .unwrap_or(0)
}

/// Raises the next generation of an id by one. A number over 31 changes nothing.
fn use_generation(generations: &mut Sequence<u32>, seg: u64)
    requires { next_generation generations.old seg + 1 < 2 ^ 32 }
    ensures { generations.new ≡ with_generation generations.old seg }
{
    let next = next_generation(generations, seg) + 1;
    let place = seg as usize;
    if place < generations.len() {
        *generations.at_mut(place) = next;
    }
}

/// Puts an extent under an id, or removes the one that is there. A number over 31 changes nothing.
fn set_extent(table: &mut Extents, seg: u64, extent: Option<Extent>)
    ensures { table.new ≡ slice_set table.old seg extent }
{
    let place = seg as usize;
    if place < table.len() {
        *table.at_mut(place) = extent;
    }
}

/// Adds an own segment of `size` bytes, in the next generation of its id, which is then one more. (GASPI: segment_alloc)
pub fn add_own(table: &mut SegmentTable, seg: u64, size: u32)
    requires { next_generation table.old.next_generations seg + 1 < 2 ^ 32 }
    ensures { table.new ≡ with_own table.old seg size }
{
    let generation = next_generation(&table.next_generations, seg);
    set_extent(&mut table.own, seg, Some(Extent { generation, size }));
    use_generation(&mut table.next_generations, seg);
}

/// Removes an own segment. The next generation of its id stays. (GASPI: segment_delete)
pub fn remove_own(table: &mut SegmentTable, seg: u64)
    ensures { table.new ≡ without_own table.old seg }
{
    set_extent(&mut table.own, seg, None);
}

/// Makes a segment of another rank known with this extent, in place of what was known of that id; None makes it unknown.
/// (GASPI: segment_register)
pub fn set_known(table: &mut SegmentTable, owner: RankId, seg: u64, extent: Option<Extent>)
    ensures { table.new ≡ with_known owner seg extent table.old }
{
    let place = owner.index();
    if place < table.known.len() {
        set_extent(table.known.at_mut(place), seg, extent);
    }
}
