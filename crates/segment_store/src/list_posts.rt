//! The entries that the post of a list asks for, or its first refusal, by the table of segments of its caller's rank `me`. One kind
//! of check goes through all items before the next kind: length, segments, sizes, ranges. All functions that give entries take
//! memory for them. (GASPI: write_list)

ghost use Rattle.std.specs.Prelude.{◌≡◌, ◌≤◌, length, IfOk, Ok};
ghost use Rattle.gaspi_types.specs.Checks.{check_each};
ghost use Rattle.gaspi_types.specs.Posts.{has_segments, has_size, transfers_of, listed, transfers_alone, write_list_kinds, read_list_kinds, write_list_notify_kinds, read_list_notify_kinds};
ghost use Rattle.segment_store.specs.PostKinds.{kinds_of, Asks};
ghost use Rattle.segment_store.specs.ListPosts.{list_checks, transfers_then};

use crate::kinds::EntryKinds;
use crate::posts::{ends_of, known_segment, notification, own_segment, read_notification};
use crate::ranges::is_transfer_size;
use gaspi_types::{
    Direction, Item, Kind, NoMemory, RankId, ReadList, ReadListNotify, Refusal, SegmentTable,
    Sequence, WriteList, WriteListNotify, is_list_length,
};
use std::alloc::Global;

/// Checks the segments of an item: the own one is there (`NoSegment`), and that of the rank is known (`Unregistered`).
fn check_item_segments(
    me: RankId,
    table: &SegmentTable,
    rank: u64,
    item: &Item,
) -> Result<(), Refusal>
    ensures { result ≡ has_segments me table.now rank item.now }
{
    own_segment(table, item.seg)?;
    known_segment(me, table, rank, item.rseg)?;
    Ok(())
}

/// Checks the segments of all items, item by item.
fn check_segments(
    me: RankId,
    table: &SegmentTable,
    rank: u64,
    items: &[Item],
) -> Result<(), Refusal>
    ensures { result ≡ check_each (has_segments me table.now rank) items.now }
{
    for item in items {
        check_item_segments(me, table, rank, item)?;
    }
    Ok(())
}

/// Checks the sizes of all items (`BadSize`).
fn check_sizes(items: &[Item]) -> Result<(), Refusal>
    ensures { result ≡ check_each has_size items.now }
{
    for item in items {
        if !is_transfer_size(item.size) {
            return Err(Refusal::BadSize);
        }
    }
    Ok(())
}

/// Checks a list before the ranges of its items: its length (`BadCount`), their segments, then `beside`, then their sizes. `beside`
/// is what else the post has looked up, the segment of its notification, or its refusal; it is given back where the list is not
/// refused.
fn check_list<T: Copy>(
    me: RankId,
    table: &SegmentTable,
    rank: u64,
    items: &[Item],
    beside: Result<T, Refusal>,
) -> Result<T, Refusal>
    ensures checks { result ≡ list_checks me table.now rank items.now beside }
    ensures bound { IfOk result (λ known. length items.now ≤ 256) }
    ensures beside { IfOk result (λ known. beside ≡ Ok known) }
{
    if !is_list_length(items.len()) {
        return Err(Refusal::BadCount);
    }
    check_segments(me, table, rank, items)?;
    let known = beside?;
    check_sizes(items)?;
    Ok(known)
}

/// A write or a read for each item, in order, or the first refusal of an item. Memory is taken for all of them at once, and for one
/// entry more.
fn transfers_of(
    alloc: Global,
    direction: Direction,
    me: RankId,
    table: &SegmentTable,
    rank: u64,
    items: &[Item],
) -> Result<Result<Sequence<Kind>, Refusal>, NoMemory>
    requires { length items.now ≤ 256 }
    ensures kinds { IfOk result (λ asked. asked ≡ transfers_of direction me table.now rank items.now) }
    ensures count { IfOk result (λ asked. IfOk asked (λ kinds. length kinds ≡ length items.now)) }
{
    let mut kinds = Sequence::with_capacity(alloc, items.len() + 1)?;
    for item in items {
        match ends_of(me, table, rank, item) {
            Ok(ends) => kinds.push(ends.kind(direction))?,
            Err(refusal) => return Ok(Err(refusal)),
        }
    }
    Ok(Ok(kinds))
}

/// The entries of a list that passed `check_list`, and `last`, its notification, after them; or the first refusal, that of `last`
/// after those of the items.
fn transfers_then(
    alloc: Global,
    direction: Direction,
    me: RankId,
    table: &SegmentTable,
    rank: u64,
    items: &[Item],
    last: Result<Kind, Refusal>,
) -> Result<Result<EntryKinds, Refusal>, NoMemory>
    requires { length items.now ≤ 256 }
    ensures asks { IfOk result (λ asked. Asks asked (transfers_then direction me table.now rank items.now last)) }
    ensures few { IfOk result (λ asked. IfOk asked (λ kinds. length (kinds_of kinds) ≤ 257)) }
{
    let mut kinds = match transfers_of(alloc, direction, me, table, rank, items)? {
        Ok(kinds) => kinds,
        Err(refusal) => return Ok(Err(refusal)),
    };
    match last {
        Ok(kind) => kinds.push(kind)?,
        Err(refusal) => return Ok(Err(refusal)),
    }
    Ok(Ok(EntryKinds::Many(kinds)))
}

/// The entries of a list without a notification, or its first refusal.
fn list_kinds(
    alloc: Global,
    direction: Direction,
    me: RankId,
    table: &SegmentTable,
    rank: u64,
    items: &[Item],
) -> Result<Result<EntryKinds, Refusal>, NoMemory>
    ensures asks { IfOk result (λ asked. Asks asked (listed items.now (transfers_alone direction me table.now rank items.now))) }
    ensures few { IfOk result (λ asked. IfOk asked (λ kinds. length (kinds_of kinds) ≤ 257)) }
{
    match check_list(me, table, rank, items, Ok(())) {
        Ok(()) => {
            let asked = transfers_of(alloc, direction, me, table, rank, items)?;
            Ok(asked.map(EntryKinds::Many))
        }
        Err(refusal) => Ok(Err(refusal)),
    }
}

/// The writes of a `write_list`, or its first refusal. (GASPI: write_list)
pub(crate) fn write_list_kinds(
    alloc: Global,
    me: RankId,
    table: &SegmentTable,
    call: &WriteList,
) -> Result<Result<EntryKinds, Refusal>, NoMemory>
    ensures asks { IfOk result (λ asked. Asks asked (write_list_kinds me table.now call.now)) }
    ensures few { IfOk result (λ asked. IfOk asked (λ kinds. length (kinds_of kinds) ≤ 257)) }
{
    let items = call.items.as_slice();
    list_kinds(alloc, Direction::Outward, me, table, call.rank, items)
}

/// The reads of a `read_list`, or its first refusal. (GASPI: read_list)
pub(crate) fn read_list_kinds(
    alloc: Global,
    me: RankId,
    table: &SegmentTable,
    call: &ReadList,
) -> Result<Result<EntryKinds, Refusal>, NoMemory>
    ensures asks { IfOk result (λ asked. Asks asked (read_list_kinds me table.now call.now)) }
    ensures few { IfOk result (λ asked. IfOk asked (λ kinds. length (kinds_of kinds) ≤ 257)) }
{
    let items = call.items.as_slice();
    list_kinds(alloc, Direction::Inward, me, table, call.rank, items)
}

/// The writes of a `write_list_notify` and its notification, or its first refusal. (GASPI: write_list_notify)
#[tactic(auto, using(crate::proofs::ListPosts::list_noted_writes))]
pub(crate) fn write_list_notify_kinds(
    alloc: Global,
    notes: u32,
    me: RankId,
    table: &SegmentTable,
    call: &WriteListNotify,
) -> Result<Result<EntryKinds, Refusal>, NoMemory>
    ensures asks { IfOk result (λ asked. Asks asked (write_list_notify_kinds notes me table.now call.now)) }
    ensures few { IfOk result (λ asked. IfOk asked (λ kinds. length (kinds_of kinds) ≤ 257)) }
{
    let items = call.items.as_slice();
    let known = known_segment(me, table, call.rank, call.nseg);
    match check_list(me, table, call.rank, items, known) {
        Ok(theirs) => {
            let last = notification(notes, theirs, call.nseg, call.note, call.value);
            transfers_then(alloc, Direction::Outward, me, table, call.rank, items, last)
        }
        Err(refusal) => Ok(Err(refusal)),
    }
}

/// The reads of a `read_list_notify` and its notification, or its first refusal. (GASPI: read_list_notify)
pub(crate) fn read_list_notify_kinds(
    alloc: Global,
    notes: u32,
    me: RankId,
    table: &SegmentTable,
    call: &ReadListNotify,
) -> Result<Result<EntryKinds, Refusal>, NoMemory>
    ensures asks { IfOk result (λ asked. Asks asked (read_list_notify_kinds notes me table.now call.now)) }
    ensures few { IfOk result (λ asked. IfOk asked (λ kinds. length (kinds_of kinds) ≤ 257)) }
{
    let items = call.items.as_slice();
    let known = own_segment(table, call.nseg);
    match check_list(me, table, call.rank, items, known) {
        Ok(mine) => {
            let last = read_notification(notes, mine, call.nseg, call.note);
            transfers_then(alloc, Direction::Inward, me, table, call.rank, items, last)
        }
        Err(refusal) => Ok(Err(refusal)),
    }
}
