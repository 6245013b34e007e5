//! What a call posts, found before a queue is asked: its entries with capacity for their bytes, or its first refusal. Whether the
//! queue is broken or full is asked after all that, by `Lanes`. (GASPI: one-sided communication)

ghost use Rattle.std.specs.Prelude.{◌≡◌, ◌≤◌, true, false, length, IfOk};
ghost use Rattle.gaspi_types.specs.CallRows.{row_of, is_post};
ghost use Rattle.gaspi_types.specs.Posts.{call_kinds};
ghost use Rattle.post_queue.specs.Builds.{lane_checks, build_result, Builds, is_out_of_memory};

use crate::Entries;
use crate::build_stops::BuildStop;
use gaspi_types::{Call, CallerId, Posting, RankId, Refusal, SegmentTable, Shape};
use segment_store::call_kinds;
use std::alloc::Global;

/// Checks that the rank (`BadRank`) and the queue (`BadQueue`) to which a call posts are there.
fn check_lane(shape: &Shape, posting: Option<Posting>) -> Result<(), Refusal>
    ensures { result ≡ lane_checks shape.now.limits posting }
{
    if let Some(to) = posting {
        if to.rank >= u64::from(shape.ranks()) {
            return Err(Refusal::BadRank);
        }
        if to.queue >= u64::from(shape.queues()) {
            return Err(Refusal::BadQueue);
        }
    }
    Ok(())
}

/// The entries that a call asks for, in order, with capacity for the bytes of each; or its first refusal by the table of its
/// caller's rank `me`: a list's length, segments, sizes, ranges, its slot, its notification value. Rank and queue are not asked.
/// Each segment has `notes` slots.
///
/// A call whose row says that it takes no memory takes none: a notification. (GASPI: write, read, notify, write_list)
pub fn asked_entries(
    alloc: Global,
    notes: u32,
    me: RankId,
    table: &SegmentTable,
    call: &Call,
) -> Result<Entries, BuildStop>
    requires { is_post call.now ≡ true }
    ensures found { Builds result (call_kinds notes me table.now call.now) }
    ensures few { IfOk result (λ entries. length entries ≤ 257) }
    ensures bare { (row_of call.now).takes_memory ≡ false → is_out_of_memory result ≡ false }
{
    let kinds = call_kinds(alloc, notes, me, table, call)??;
    Ok(Entries::new(alloc, kinds.as_slice())?)
}

/// The entries of a call that posts, in order, with capacity for the bytes of each; or its first refusal: its rank, its queue, then
/// those of `asked_entries`. `table` is that of the caller's rank.
///
/// A call whose row says that it takes no memory takes none: a notification. (GASPI: write, read, notify, write_list)
pub fn build(
    alloc: Global,
    table: &SegmentTable,
    shape: &Shape,
    caller: CallerId,
    call: &Call,
) -> Result<Entries, BuildStop>
    requires { is_post call.now ≡ true }
    ensures found { Builds result (build_result shape.now.limits caller.rank table.now call.now) }
    ensures few { IfOk result (λ entries. length entries ≤ 257) }
    ensures bare { (row_of call.now).takes_memory ≡ false → is_out_of_memory result ≡ false }
{
    check_lane(shape, call.row().posting)?;
    asked_entries(alloc, shape.notes(), caller.rank, table, call)
}
