//! Deliveries: what the puts of entries bring, as the calls that post the entries say. What a list has after `NoMemory` is not
//! said: no caller goes on with it.

ghost use Rattle.std.specs.Prelude.{◌≡◌, ◌++◌, ◌∷◌, [], map, OnOk};
ghost use Rattle.gaspi_types.specs.declared.entries.Direction.TheVariants.{Outward, Inward};
ghost use Rattle.journal_pictures.specs.declared.deliveries.Delivery.TheVariants.{Notification};
ghost use Rattle.journal_pictures.specs.Deliveries.{deliveries_of, item_delivery};

use gaspi_types::{Call, Direction, Item, NoMemory, Sequence};

/// What the put of an entry brings. It comes to the target of the entry where it is outward, and to the origin where it is
/// inward. Segment, offset and notification id are of the rank to which it comes.
#[derive(Clone, Copy, Debug, PartialEq, Eq)]
pub enum Delivery {
    /// `size` bytes, for a segment from an offset on.
    Bytes {
        direction: Direction,
        size: u64,
        segment: u64,
        offset: u64,
    },
    /// A value, for a notification id of a segment.
    Notification {
        direction: Direction,
        segment: u64,
        note: u64,
        value: u32,
    },
}

/// What the write or read of an item brings.
fn item_delivery(direction: Direction, item: &Item) -> Delivery
    ensures { result ≡ item_delivery direction item.now }
{
    let (segment, offset) = match direction {
        Direction::Outward => (item.rseg, item.roffset),
        Direction::Inward => (item.seg, item.offset),
    };
    Delivery::Bytes {
        direction,
        size: item.size,
        segment,
        offset,
    }
}

/// Adds what the writes or reads of items bring.
fn append_items(
    list: &mut Sequence<Delivery>,
    direction: Direction,
    items: &[Item],
) -> Result<(), NoMemory>
    ensures { OnOk result (list.new ≡ list.old ++ map (item_delivery direction) items.now) }
{
    for item in items {
        list.push(item_delivery(direction, item))?;
    }
    Ok(())
}

/// Adds what the writes or reads of items bring, and behind them a notification.
fn append_noted(
    list: &mut Sequence<Delivery>,
    direction: Direction,
    items: &[Item],
    note: Delivery,
) -> Result<(), NoMemory>
    ensures { OnOk result (list.new ≡ list.old ++ (map (item_delivery direction) items.now ++ note ∷ [])) }
{
    append_items(list, direction, items)?;
    list.push(note)
}

/// Adds what each entry of a call brings, in the order of the entries; nothing for a call that is no post.
pub(crate) fn append_deliveries(list: &mut Sequence<Delivery>, call: &Call) -> Result<(), NoMemory>
    ensures { OnOk result (list.new ≡ list.old ++ deliveries_of call.now) }
{
    match call {
        Call::Write(call) => append_items(list, Direction::Outward, &[call.item()]),
        Call::Read(call) => append_items(list, Direction::Inward, &[call.item()]),
        Call::Notify(call) => append_noted(
            list,
            Direction::Outward,
            &[],
            outward_note(call.rseg, call.note, call.value),
        ),
        Call::WriteNotify(call) => append_noted(
            list,
            Direction::Outward,
            &[call.item()],
            outward_note(call.rseg, call.note, call.value),
        ),
        Call::ReadNotify(call) => append_noted(
            list,
            Direction::Inward,
            &[call.item()],
            inward_note(call.seg, call.note),
        ),
        Call::WriteList(call) => append_items(list, Direction::Outward, call.items.as_slice()),
        Call::ReadList(call) => append_items(list, Direction::Inward, call.items.as_slice()),
        Call::WriteListNotify(call) => append_noted(
            list,
            Direction::Outward,
            call.items.as_slice(),
            outward_note(call.nseg, call.note, call.value),
        ),
        Call::ReadListNotify(call) => append_noted(
            list,
            Direction::Inward,
            call.items.as_slice(),
            inward_note(call.nseg, call.note),
        ),
        _ => Ok(()),
    }
}

/// What a notification brings to its target.
fn outward_note(segment: u64, note: u64, value: u32) -> Delivery
    ensures { result ≡ Notification Outward segment note value }
{
    Delivery::Notification {
        direction: Direction::Outward,
        segment,
        note,
        value,
    }
}

/// What the notification of a read brings to its origin.
fn inward_note(segment: u64, note: u64) -> Delivery
    ensures { result ≡ Notification Inward segment note 1 }
{
    Delivery::Notification {
        direction: Direction::Inward,
        segment,
        note,
        value: 1,
    }
}
