//! The open entries of each rank, for the trace. An entry is open from its post to its put, its failure, or the purge of its
//! queue.
//!
//! `pass_X` changes the open entries by an event or a call. After `NoMemory` what they are is not said. The next entry number
//! of a rank has to be small enough that no sum is too large for its type, as it is in every legal journal.

ghost use Rattle.std.specs.Prelude.{◌≡◌, ◌^◌, ◌<◌, ℕ, [], find, replicate, length, slice_get, IfOk, OnOk, Some};
ghost use Rattle.gaspi_model.specs.Step.{owner_of};
ghost use Rattle.journal_pictures.specs.OpenEntries.{after_call, entries_after, entry_of, in_queue, is_numbered, new_entries, not_in_queue, numbered, put_entry, rank_after, without_number};

use crate::deliveries::{Delivery, append_deliveries};
use gaspi_types::{Call, Event, NoMemory, Outcome, QueueId, RankId, Reply, Sequence};
use std::alloc::Global;

/// An open entry: its queue, its target, its number, and what its put will bring.
#[derive(Clone, Copy, Debug, PartialEq, Eq)]
pub struct OpenEntry {
    pub queue: QueueId,
    pub target: u64,
    pub number: u64,
    pub delivery: Delivery,
}

/// The open entries of a rank, in the order of their posts, and the number of its next entry.
#[derive(Debug, Drop)]
pub struct RankEntries {
    pub next: u64,
    pub entries: Sequence<OpenEntry>,
}

/// The open entries of each of 16 ranks.
pub type EntryTable = Sequence<RankEntries>;

/// No open entry of any rank, and next numbers of 0.
pub fn no_entries(alloc: Global) -> Result<EntryTable, NoMemory>
    ensures { IfOk result (λ ranks. ranks ≡ replicate 16 (record { next = 0; entries = [] })) }
{
    let mut ranks = Sequence::new(alloc);
    for _rank in 0..16u32 {
        ranks.push(RankEntries {
            next: 0,
            entries: Sequence::new(alloc),
        })?;
    }
    Ok(ranks)
}

/// Entries of a queue and a target with these deliveries, with numbers one after another from `next` on.
fn numbered(
    alloc: Global,
    queue: QueueId,
    target: u64,
    next: u64,
    deliveries: &[Delivery],
) -> Result<Sequence<OpenEntry>, NoMemory>
    requires { next < 2 ^ 63 }
    ensures { IfOk result (λ list. list ≡ numbered queue target next deliveries.now) }
{
    let mut list = Sequence::new(alloc);
    for (index, delivery) in deliveries.iter().enumerate() {
        list.push(OpenEntry {
            queue,
            target,
            number: next + index as u64,
            delivery: *delivery,
        })?;
    }
    Ok(list)
}

/// The entries that a call posts, from the rank's next number on; none of a call that is no post, or with a queue over 7.
pub fn new_entries(alloc: Global, next: u64, call: &Call) -> Result<Sequence<OpenEntry>, NoMemory>
    requires { next < 2 ^ 63 }
    ensures { IfOk result (λ list. list ≡ new_entries next call.now) }
{
    match call.row().posting {
        Some(to) if to.queue < 8 => {
            let queue = QueueId::of(to.queue as u32);
            let mut deliveries = Sequence::new(alloc);
            append_deliveries(&mut deliveries, call)?;
            numbered(alloc, queue, to.rank, next, deliveries.as_slice())
        }
        _ => Ok(Sequence::new(alloc)),
    }
}

/// The entries of that queue, among `entries`.
pub fn in_queue(
    alloc: Global,
    queue: u64,
    entries: &[OpenEntry],
) -> Result<Sequence<OpenEntry>, NoMemory>
    ensures { IfOk result (λ list. list ≡ in_queue queue entries.now) }
{
    let kept = entries
        .iter()
        .copied()
        .filter(|entry| u64::from(entry.queue.number()) == queue)
        .collect(alloc)?;
    Ok(Sequence::from_vec(kept))
}

/// The entries of all other queues, among `entries`.
fn not_in_queue(
    alloc: Global,
    queue: u64,
    entries: &[OpenEntry],
) -> Result<Sequence<OpenEntry>, NoMemory>
    ensures { IfOk result (λ list. list ≡ not_in_queue queue entries.now) }
{
    let kept = entries
        .iter()
        .copied()
        .filter(|entry| u64::from(entry.queue.number()) != queue)
        .collect(alloc)?;
    Ok(Sequence::from_vec(kept))
}

/// The entries without the one of that number.
fn without_number(
    alloc: Global,
    number: u64,
    entries: &[OpenEntry],
) -> Result<Sequence<OpenEntry>, NoMemory>
    ensures { IfOk result (λ list. list ≡ without_number number entries.now) }
{
    let kept = entries
        .iter()
        .copied()
        .filter(|entry| entry.number != number)
        .collect(alloc)?;
    Ok(Sequence::from_vec(kept))
}

/// Changes the open entries of a rank by a call of its own that is done: a purge ends those of its queue, and a post adds its
/// own.
fn pass_call(own: &mut RankEntries, call: &Call) -> Result<(), NoMemory>
    requires { own.old.next < 2 ^ 62 }
    ensures { OnOk result (own.new ≡ after_call call.now own.old) }
{
    let alloc = own.entries.allocator();
    match call {
        Call::Purge(call) => {
            own.entries = not_in_queue(alloc, call.queue, own.entries.as_slice())?;
        }
        _ => {
            let more = new_entries(alloc, own.next, call)?;
            own.entries.extend(more)?;
            own.next += u64::from(call.row().entries());
        }
    }
    Ok(())
}

/// Removes the entry of that number.
fn end_entry(own: &mut RankEntries, number: u32) -> Result<(), NoMemory>
    ensures { OnOk result (own.new ≡ record own.old { entries = without_number number own.old.entries }) }
{
    let alloc = own.entries.allocator();
    own.entries = without_number(alloc, u64::from(number), own.entries.as_slice())?;
    Ok(())
}

/// Changes the open entries of a rank by an event of its own.
fn pass_own(own: &mut RankEntries, event: &Event) -> Result<(), NoMemory>
    requires { own.old.next < 2 ^ 62 }
    ensures { OnOk result (own.new ≡ rank_after event.now own.old) }
{
    match event {
        Event::Called(_, call, Reply::Done) => pass_call(own, call),
        Event::Take(_, _, _, number, Outcome::Failed) | Event::Put(_, _, _, number, _) => {
            end_entry(own, *number)
        }
        _ => Ok(()),
    }
}

/// The owner of an event.
pub fn owner(event: &Event) -> RankId
    ensures { result ≡ owner_of event.now }
{
    match event {
        Event::Called(caller, _, _) | Event::Joined(caller, _, _) => caller.rank,
        Event::Take(origin, _, _, _, _) | Event::Put(origin, _, _, _, _) => *origin,
    }
}

/// Changes the open entries of the owner of an event by that event. The table has to have 16 ranks (`many`) with next numbers
/// below 2^62 (`small`).
pub fn pass_event(ranks: &mut EntryTable, event: &Event) -> Result<(), NoMemory>
    requires many { length ranks.old ≡ 16 }
    requires small { (rank : ℕ) (r : RankEntries) → slice_get ranks.old rank ≡ Some r → r.next < 2 ^ 62 }
    ensures { OnOk result (ranks.new ≡ entries_after event.now ranks.old) }
{
    pass_own(ranks.at_mut(owner(event).index()), event)
}

/// The entry with that number among `entries`, or None.
fn find_entry(entries: &[OpenEntry], number: u64) -> Option<OpenEntry>
    ensures { result ≡ find (is_numbered number) entries.now }
{
    entries.iter().copied().find(|entry| entry.number == number)
}

/// The open entry of an origin with that number; None where it is not open.
fn entry_of(ranks: &EntryTable, origin: RankId, number: u32) -> Option<OpenEntry>
    ensures { result ≡ entry_of (slice_get ranks.now origin) number }
{
    let own = ranks.get(origin.index())?;
    find_entry(own.entries.as_slice(), u64::from(number))
}

/// The open entry of a put that is applied. None for any other event, and where no such entry is open.
pub fn put_entry(ranks: &EntryTable, event: &Event) -> Option<OpenEntry>
    ensures { result ≡ put_entry ranks.now event.now }
{
    match event {
        Event::Put(origin, _, _, number, Outcome::Applied) => entry_of(ranks, *origin, *number),
        _ => None,
    }
}
