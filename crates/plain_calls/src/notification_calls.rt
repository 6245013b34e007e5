//! The calls `waitsome` and `reset`, on the slots of one own segment. The functions with `_result` give the result of their call:
//! its refusal, its reply, or None where it is not ready; `own` is the table of the caller's own segments, `slots` has the slots of
//! the segment that the call names, and `notes` is how many slots each segment has. A clause on a result speaks of all posts and
//! memories that have these. (GASPI: notifications)

ghost use Rattle.std.specs.Prelude.{◌≡◌};
ghost use Rattle.gaspi_types.specs.declared.shapes.Limits.{Limits};
ghost use Rattle.gaspi_model.specs.Memories.{slots_of};
ghost use Rattle.gaspi_model.specs.NotificationCalls.{waitsome_result, reset_result, reset_effect};
ghost use Rattle.gaspi_model.specs.declared.states.Memory.{Memory};
ghost use Rattle.gaspi_model.specs.declared.states.Posts.{Posts};

use crate::memories::{first_set, is_slot_range, set_slot};
use gaspi_model::Memory;
use gaspi_types::{Extents, Refusal, Reply, Reset, Waitsome};
use segment_store::extent_in;

/// The result of a `waitsome`: `NoSegment`, `BadNote`, the least set slot of its range, or not ready where none is set.
/// (GASPI: notify_waitsome)
pub fn waitsome_result(
    notes: u32,
    own: &Extents,
    slots: &[u32],
    call: &Waitsome,
) -> Result<Option<Reply>, Refusal>
    ensures { (limits : Limits) (posts : Posts) (memory : Memory) → limits.notes ≡ notes → posts.segments.own ≡ own.now → slots_of memory call.now.seg ≡ slots.now → result ≡ waitsome_result limits posts memory call.now }
{
    extent_in(own, call.seg).ok_or(Refusal::NoSegment)?;
    if !is_slot_range(call.begin, call.num, notes) {
        return Err(Refusal::BadNote);
    }
    Ok(first_set(slots, call.begin as usize, call.num as usize).map(Reply::Id))
}

/// The result of a `reset`: the value of its slot, or `NoSegment`, or `BadNote`. (GASPI: notify_reset)
pub fn reset_result(
    notes: u32,
    own: &Extents,
    slots: &[u32],
    call: &Reset,
) -> Result<Option<Reply>, Refusal>
    ensures { (limits : Limits) (posts : Posts) (memory : Memory) → limits.notes ≡ notes → posts.segments.own ≡ own.now → slots_of memory call.now.seg ≡ slots.now → result ≡ reset_result limits posts memory call.now }
{
    extent_in(own, call.seg).ok_or(Refusal::NoSegment)?;
    if call.note >= u64::from(notes) {
        return Err(Refusal::BadNote);
    }
    let value = slots.get(call.note as usize).copied().unwrap_or(0);
    Ok(Some(Reply::Value(u64::from(value))))
}

/// Sets the slot of a reset to 0. All other slots stay. (GASPI: notify_reset)
pub fn reset_effect(memory: &mut Memory, call: &Reset)
    ensures { memory.new ≡ reset_effect memory.old call.now }
{
    set_slot(memory, call.seg, call.note, 0);
}
