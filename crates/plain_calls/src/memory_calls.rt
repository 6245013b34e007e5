//! The calls `store` and `load`, on bytes of the caller's own segments. The functions with `_result` give the result of their call:
//! its refusal, or its reply; `own` is the table of these segments, and a clause speaks of all posts and memories that have it.
//! `store_effect` makes the effect of a store; a load has none. (own choice)

ghost use Rattle.std.specs.Prelude.{◌≡◌, IfOk};
ghost use Rattle.gaspi_model.specs.MemoryCalls.{store_result, store_effect, load_result};
ghost use Rattle.gaspi_model.specs.declared.states.Memory.{Memory};
ghost use Rattle.gaspi_model.specs.declared.states.Posts.{Posts};
ghost use Rattle.plain_calls.specs.Memory.{Loads};

use gaspi_model::Memory;
use gaspi_types::{Extents, Load, NoMemory, OwnSegments, Refusal, Reply, Sequence, Store};
use segment_store::{bytes_of, check_own_range, range_of, store_bytes};
use std::alloc::Global;

/// The result of a `store`: done, or the refusal of `check_own_range`.
pub fn store_result(own: &Extents, call: &Store) -> Result<Option<Reply>, Refusal>
    ensures { (posts : Posts) → posts.segments.own ≡ own.now → result ≡ store_result posts call.now }
{
    check_own_range(own, call.seg, call.offset, call.bytes.len() as u64)?;
    Ok(Some(Reply::Done))
}

/// Writes the bytes of a store. All other bytes stay.
pub fn store_effect(memory: &mut Memory, call: &Store)
    ensures { memory.new ≡ store_effect memory.old call.now }
{
    store_bytes(
        &mut memory.segments,
        call.seg,
        call.offset,
        call.bytes.as_slice(),
    );
}

/// The bytes that a load reads, or the refusal of `check_own_range`.
fn loaded<'a>(own: &Extents, segments: &'a OwnSegments, call: &Load) -> Result<&'a [u8], Refusal>
    ensures { (posts : Posts) (memory : Memory) → posts.segments.own ≡ own.now → memory.segments ≡ segments.now → Loads result (load_result posts memory call.now) }
{
    check_own_range(own, call.seg, call.offset, call.size)?;
    Ok(range_of(
        bytes_of(segments, call.seg),
        call.offset as usize,
        call.size as usize,
    ))
}

/// The result of a `load`: a copy of its bytes, or the refusal of `check_own_range`, which takes no memory. `own` and `segments` are
/// the table and the bytes of the own segments.
pub fn load_result(
    alloc: Global,
    own: &Extents,
    segments: &OwnSegments,
    call: &Load,
) -> Result<Result<Option<Reply>, Refusal>, NoMemory>
    ensures { IfOk result (λ finds. (posts : Posts) (memory : Memory) → posts.segments.own ≡ own.now → memory.segments ≡ segments.now → finds ≡ load_result posts memory call.now) }
{
    match loaded(own, segments, call) {
        Ok(bytes) => Ok(Ok(Some(Reply::Bytes(Sequence::copied_from(alloc, bytes)?)))),
        Err(refusal) => Ok(Err(refusal)),
    }
}
