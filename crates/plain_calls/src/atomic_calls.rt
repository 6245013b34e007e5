//! The atomics, on one memory word of a rank that the call names: the result of both, and their effects. `memory` and `segments` are
//! those of the named rank. A clause on a result speaks of all posts and memories that have these tables. (GASPI: atomics)

ghost use Rattle.std.specs.Prelude.{◌≡◌};
ghost use Rattle.gaspi_types.specs.declared.shapes.Limits.{Limits};
ghost use Rattle.gaspi_model.specs.AtomicCalls.{word_result, fetch_add_effect, compare_swap_effect};
ghost use Rattle.gaspi_model.specs.declared.states.Memory.{Memory};
ghost use Rattle.gaspi_model.specs.declared.states.Posts.{Posts};

use gaspi_model::Memory;
use gaspi_types::{CompareSwap, FetchAdd, OwnSegments, RankId, Refusal, Reply, SegmentTable};
use segment_store::{
    add_to_segment, bytes_of, check_word, is_generation, known_extent, segment_in, swap_in_segment,
    word_at,
};

/// The result of an atomic of `me`: the present value of the word, or `BadRank`, `Unregistered` where `me` knows no such segment or
/// the known generation is gone, `BadRange`, or `BadAlign`. `table` is the table of segments of `me`, and `ranks` the number of
/// ranks. (GASPI: atomic_fetch_add, atomic_compare_swap)
pub fn word_result(
    ranks: u32,
    me: RankId,
    table: &SegmentTable,
    segments: &OwnSegments,
    seg: u64,
    offset: u64,
    rank: u64,
) -> Result<Option<Reply>, Refusal>
    ensures { (limits : Limits) (posts : Posts) (memory : Memory) → limits.ranks ≡ ranks → posts.segments ≡ table.now → memory.segments ≡ segments.now → result ≡ word_result limits me posts memory seg offset rank }
{
    if rank >= u64::from(ranks) {
        return Err(Refusal::BadRank);
    }
    let theirs = known_extent(me, table, rank, seg).ok_or(Refusal::Unregistered)?;
    if !is_generation(theirs.generation, segment_in(segments, seg)) {
        return Err(Refusal::Unregistered);
    }
    check_word(theirs.size, offset)?;
    Ok(Some(Reply::Value(word_at(bytes_of(segments, seg), offset))))
}

/// Adds the value of the call to the memory word that it names. Where there is no such word nothing changes.
/// (GASPI: atomic_fetch_add)
pub fn fetch_add_effect(memory: &mut Memory, call: &FetchAdd)
    ensures { memory.new ≡ fetch_add_effect memory.old call.now }
{
    add_to_segment(&mut memory.segments, call.seg, call.offset, call.value);
}

/// Puts the new value of the call into the memory word that it names, where that is the comparator; else nothing changes.
/// (GASPI: atomic_compare_swap)
pub fn compare_swap_effect(memory: &mut Memory, call: &CompareSwap)
    ensures { memory.new ≡ compare_swap_effect memory.old call.now }
{
    swap_in_segment(
        &mut memory.segments,
        call.seg,
        call.offset,
        call.comparator,
        call.new,
    );
}
