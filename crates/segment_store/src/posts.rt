//! The entries that a call asks for, or its first refusal, by the table of segments of its caller's rank `me`: of a single write,
//! read and notification, and of any call. Neither rank nor queue of the call is checked here. `notes` is how many slots each
//! segment has. (GASPI: one-sided communication)

ghost use Rattle.std.specs.Prelude.{◌≡◌, ◌<◌, ◌≤◌, ◌^◌, false, length, IfOk, IsOk};
ghost use Rattle.gaspi_types.specs.Checks.{ok_or};
ghost use Rattle.gaspi_types.specs.SegmentTables.{extent_in, known_extent};
ghost use Rattle.gaspi_types.specs.declared.replies.Refusal.TheVariants.{NoSegment, Unregistered};
ghost use Rattle.gaspi_types.specs.Posts.{slot_in, endpoints_of, write_kinds, read_kinds, notify_kinds, write_notify_kinds, read_notify_kinds, call_kinds, is_list_post};
ghost use Rattle.segment_store.specs.PostKinds.{kinds_of, Asks, notification, read_notification};

use crate::kinds::EntryKinds;
use crate::list_posts::{
    read_list_kinds, read_list_notify_kinds, write_list_kinds, write_list_notify_kinds,
};
use crate::ranges::{is_transfer_size, is_within};
use crate::segment_tables::{extent_in, known_extent};
use gaspi_types::{
    ByteRange, Call, Direction, Endpoints, Extent, Item, Kind, NoMemory, NoteSlot, Notify, RankId,
    Read, ReadNotify, Refusal, SegmentTable, Write, WriteNotify,
};
use std::alloc::Global;

/// The extent of an own segment, else `NoSegment`.
pub(crate) fn own_segment(table: &SegmentTable, segment: u64) -> Result<Extent, Refusal>
    ensures found { result ≡ ok_or (extent_in table.now.own segment) NoSegment }
    ensures bound { IfOk result (λ mine. segment < 32) }
{
    extent_in(&table.own, segment).ok_or(Refusal::NoSegment)
}

/// The extent that `me` knows of a segment of a rank, else `Unregistered`.
pub(crate) fn known_segment(
    me: RankId,
    table: &SegmentTable,
    rank: u64,
    segment: u64,
) -> Result<Extent, Refusal>
    ensures found { result ≡ ok_or (known_extent me table.now rank segment) Unregistered }
    ensures bound { IfOk result (λ theirs. segment < 32) }
{
    known_extent(me, table, rank, segment).ok_or(Refusal::Unregistered)
}

/// The two ranges of a write or a read, with the extents of their segments, or its first refusal: by its segments (`NoSegment`,
/// `Unregistered`), its size (`BadSize`), its ranges (`BadRange`, the own one first).
pub(crate) fn ends_of(
    me: RankId,
    table: &SegmentTable,
    rank: u64,
    item: &Item,
) -> Result<Endpoints, Refusal>
    ensures { result ≡ endpoints_of me table.now rank item.now }
{
    let mine = own_segment(table, item.seg)?;
    let theirs = known_segment(me, table, rank, item.rseg)?;
    if !is_transfer_size(item.size) {
        return Err(Refusal::BadSize);
    }
    if !is_within(item.offset, item.size, u64::from(mine.size)) {
        return Err(Refusal::BadRange { size: mine.size });
    }
    if !is_within(item.roffset, item.size, u64::from(theirs.size)) {
        return Err(Refusal::BadRange { size: theirs.size });
    }
    let size = item.size as u32;
    Ok(Endpoints {
        mine,
        theirs,
        own: ByteRange {
            segment: item.seg as u32,
            generation: mine.generation,
            offset: item.offset as u32,
            size,
        },
        target: ByteRange {
            segment: item.rseg as u32,
            generation: theirs.generation,
            offset: item.roffset as u32,
            size,
        },
    })
}

/// The slot with a number of a segment with this extent.
fn slot_in(extent: Extent, segment: u64, note: u64) -> NoteSlot
    requires segment { segment < 32 }
    requires note { note < 2 ^ 32 }
    ensures { result ≡ slot_in extent segment note }
{
    NoteSlot {
        segment: segment as u32,
        generation: extent.generation,
        note: note as u32,
    }
}

/// A notification of a slot of the target, which has that slot (else `BadNote`), with a value that is not 0 (else `ZeroValue`).
pub(crate) fn notification(
    notes: u32,
    theirs: Extent,
    segment: u64,
    note: u64,
    value: u32,
) -> Result<Kind, Refusal>
    requires { segment < 32 }
    ensures { result ≡ notification notes theirs segment note value }
{
    if note >= u64::from(notes) {
        return Err(Refusal::BadNote);
    }
    if value == 0 {
        return Err(Refusal::ZeroValue);
    }
    Ok(Kind::Notify {
        target: slot_in(theirs, segment, note),
        value,
    })
}

/// The notification of a read, of an own slot, which is there (else `BadNote`).
pub(crate) fn read_notification(
    notes: u32,
    mine: Extent,
    segment: u64,
    note: u64,
) -> Result<Kind, Refusal>
    requires { segment < 32 }
    ensures { result ≡ read_notification notes mine segment note }
{
    if note >= u64::from(notes) {
        return Err(Refusal::BadNote);
    }
    Ok(Kind::ReadNote {
        own: slot_in(mine, segment, note),
    })
}

/// The entry of a write, or its first refusal. (GASPI: write)
#[tactic(auto, using(crate::proofs::OneTransfer::one_transfer))]
fn write_kinds(me: RankId, table: &SegmentTable, call: &Write) -> Result<[Kind; 1], Refusal>
    ensures { result ≡ write_kinds me table.now call.now }
{
    let ends = ends_of(me, table, call.rank, &call.item())?;
    Ok([ends.kind(Direction::Outward)])
}

/// The entry of a read, or its first refusal. (GASPI: read)
#[tactic(auto, using(crate::proofs::OneTransfer::one_transfer))]
fn read_kinds(me: RankId, table: &SegmentTable, call: &Read) -> Result<[Kind; 1], Refusal>
    ensures { result ≡ read_kinds me table.now call.now }
{
    let ends = ends_of(me, table, call.rank, &call.item())?;
    Ok([ends.kind(Direction::Inward)])
}

/// The entry of a notification, or its first refusal. (GASPI: notify)
#[tactic(auto, using(crate::proofs::OneTransfer::no_item_noted))]
fn notify_kinds(
    notes: u32,
    me: RankId,
    table: &SegmentTable,
    call: &Notify,
) -> Result<[Kind; 1], Refusal>
    ensures { result ≡ notify_kinds notes me table.now call.now }
{
    let theirs = known_segment(me, table, call.rank, call.rseg)?;
    Ok([notification(notes, theirs, call.rseg, call.note, call.value)?])
}

/// The write of a `write_notify` and its notification, or its first refusal. (GASPI: write_notify)
#[tactic(auto, using(crate::proofs::OneTransfer::one_noted_write))]
fn write_notify_kinds(
    notes: u32,
    me: RankId,
    table: &SegmentTable,
    call: &WriteNotify,
) -> Result<[Kind; 2], Refusal>
    ensures { result ≡ write_notify_kinds notes me table.now call.now }
{
    let ends = ends_of(me, table, call.rank, &call.item())?;
    let notify = notification(notes, ends.theirs, call.rseg, call.note, call.value)?;
    Ok([ends.kind(Direction::Outward), notify])
}

/// The read of a `read_notify` and its notification, or its first refusal. (GASPI: read_notify)
#[tactic(auto, using(crate::proofs::OneTransfer::one_noted_read))]
fn read_notify_kinds(
    notes: u32,
    me: RankId,
    table: &SegmentTable,
    call: &ReadNotify,
) -> Result<[Kind; 2], Refusal>
    ensures { result ≡ read_notify_kinds notes me table.now call.now }
{
    let ends = ends_of(me, table, call.rank, &call.item())?;
    let note = read_notification(notes, ends.mine, call.seg, call.note)?;
    Ok([ends.kind(Direction::Inward), note])
}

/// The entries that a call asks for, or its first refusal by the table: those of its segments, sizes, ranges, its slot, its value. A
/// call that posts nothing asks for none. Only the post of a list takes memory. (GASPI: one-sided communication)
pub fn call_kinds(
    alloc: Global,
    notes: u32,
    me: RankId,
    table: &SegmentTable,
    call: &Call,
) -> Result<Result<EntryKinds, Refusal>, NoMemory>
    ensures asks { IfOk result (λ asked. Asks asked (call_kinds notes me table.now call.now)) }
    ensures few { IfOk result (λ asked. IfOk asked (λ kinds. length (kinds_of kinds) ≤ 257)) }
    ensures ample { is_list_post call.now ≡ false → IsOk result }
{
    match call {
        Call::Write(call) => Ok(write_kinds(me, table, call).map(EntryKinds::One)),
        Call::Read(call) => Ok(read_kinds(me, table, call).map(EntryKinds::One)),
        Call::Notify(call) => Ok(notify_kinds(notes, me, table, call).map(EntryKinds::One)),
        Call::WriteNotify(call) => Ok(write_notify_kinds(notes, me, table, call).map(
            EntryKinds::Two,
        )),
        Call::ReadNotify(call) => Ok(read_notify_kinds(notes, me, table, call).map(
            EntryKinds::Two,
        )),
        Call::WriteList(call) => write_list_kinds(alloc, me, table, call),
        Call::ReadList(call) => read_list_kinds(alloc, me, table, call),
        Call::WriteListNotify(call) => write_list_notify_kinds(alloc, notes, me, table, call),
        Call::ReadListNotify(call) => read_list_notify_kinds(alloc, notes, me, table, call),
        _ => Ok(Ok(EntryKinds::Nothing)),
    }
}
