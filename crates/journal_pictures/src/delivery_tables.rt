//! The deliveries of all entries that a history posts, by the origin and the number of the entry, for the sequence diagram.
//! `pass` adds those of one event. A table has a list for each of 16 ranks. What it has after `NoMemory` is not said.

ghost use Rattle.std.specs.Prelude.{◌≡◌, [], replicate, length, slice_get, IfOk, OnOk};
ghost use Rattle.journal_pictures.specs.Deliveries.{table_after, entry_delivery, delivery_for};

use crate::deliveries::{Delivery, append_deliveries};
use gaspi_types::{Event, NoMemory, RankId, Reply, Sequence};
use std::alloc::Global;

/// What entries bring, by their origin and their number.
pub type DeliveryTable = Sequence<Sequence<Delivery>>;

/// The table without an entry.
pub fn empty_table(alloc: Global) -> Result<DeliveryTable, NoMemory>
    ensures { IfOk result (λ table. table ≡ replicate 16 []) }
{
    let mut table = Sequence::new(alloc);
    for _rank in 0..16u32 {
        table.push(Sequence::new(alloc))?;
    }
    Ok(table)
}

/// Adds the deliveries of the entries that an event posts: those of a post that is done. Any other event changes nothing.
pub fn pass(table: &mut DeliveryTable, event: &Event) -> Result<(), NoMemory>
    requires { length table.old ≡ 16 }
    ensures { OnOk result (table.new ≡ table_after event.now table.old) }
{
    match event {
        Event::Called(caller, call, Reply::Done) => {
            append_deliveries(table.at_mut(caller.rank.index()), call)
        }
        _ => Ok(()),
    }
}

/// What the entry of an origin with that number brings, or None where none was posted.
fn entry_delivery(table: &DeliveryTable, origin: RankId, number: u32) -> Option<Delivery>
    ensures { result ≡ entry_delivery (slice_get table.now origin) number }
{
    let row = table.get(origin.index())?;
    row.get(number as usize).copied()
}

/// What the entry of a take or a put brings. None where none such was posted, and for every other event.
pub fn delivery_for(table: &DeliveryTable, event: &Event) -> Option<Delivery>
    ensures { result ≡ delivery_for table.now event.now }
{
    match event {
        Event::Take(origin, _, _, number, _) | Event::Put(origin, _, _, number, _) => {
            entry_delivery(table, *origin, *number)
        }
        _ => None,
    }
}
