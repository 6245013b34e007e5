//! One lane as two rings of the same capacity, the depth of its queue. A ring is a list of fixed capacity, where items are appended
//! at the end and removed at the front. A function that changes an entry requires that none of the lane has failed (clause `whole`),
//! and gives the kind of that entry. (GASPI: one-sided communication)

ghost use Rattle.std.specs.Prelude.{◌≡◌, ◌+◌, ◌*◌, ◌<◌, ◌≤◌, [], ◌∷◌, ◌++◌, length, drop, slice_get, Some, count_by, option_copied, IfOk, IfSome, IsSome, IsSomeAnd};
ghost use Rattle.gaspi_types.specs.Lanes.{is_posted, is_failed, carried_count};
ghost use Rattle.gaspi_types.specs.declared.entries.Entry.{Entry};
ghost use Rattle.gaspi_types.specs.declared.entries.Phase.TheVariants.{Posted, Carried, Failed};
ghost use Rattle.circular_buffer.specs.Buffer.{buffer};
ghost use Rattle.post_queue.specs.Payloads.{payload_size};
ghost use Rattle.post_queue.specs.Nonempty.{is_nonempty};
ghost use Rattle.post_queue.specs.Places.{first_posted, first_carried, posted_position, with_phase};

use crate::Draft;
use crate::entries::{PostedEntry, fail};
use circular_buffer::HeapCircularBuffer;
use gaspi_types::{Entry, Kind, NoMemory};
use std::alloc::Global;
use std::marker::Model;

/// Appends an item to a ring that has room for it. It takes no memory.
fn append<T: Drop>(ring: &mut HeapCircularBuffer<T>, item: T)
    requires { length ring.old.items < ring.old.capacity }
    ensures { ring.new ≡ buffer (ring.old.items ++ item ∷ []) ring.old.capacity }
{
    match ring.try_push_back(item) {
        Ok(()) => {}
        Err(_item) => unreachable!(),
    }
}

/// A lane: the carried and failed entries, and then the posted ones.
#[derive(Drop)]
pub struct LaneRings {
    /// The entries that are carried, or have failed.
    carried: HeapCircularBuffer<Entry>,
    /// The entries that are posted.
    posted: HeapCircularBuffer<PostedEntry>,
}

impl Model for LaneRings {
    ghost use Rattle.post_queue.specs.LaneStates.{LaneValue, lane_of, AreRings};

    ghost Value = { LaneValue };

    ghost view = { λ lane. lane_of lane.carried lane.posted };

    ghost invariant = { λ lane. AreRings lane.carried lane.posted };
}

impl LaneRings {
    /// The empty lane. All memory of its rings is taken here; that of the entries' bytes comes with each draft.
    pub fn new(alloc: Global, depth: usize) -> Result<LaneRings, NoMemory>
        ensures { IfOk result (λ lane. lane ≡ record { depth = depth; entries = [] }) }
    {
        Ok(LaneRings {
            carried: HeapCircularBuffer::with_capacity(alloc, depth)?,
            posted: HeapCircularBuffer::with_capacity(alloc, depth)?,
        })
    }

    /// Whether the lane has an entry.
    pub fn is_nonempty(&self) -> bool
        ensures { result ≡ is_nonempty self.now.entries }
    {
        !self.carried.is_empty() || !self.posted.is_empty()
    }

    /// Appends a posted entry of a draft, with this number. Fewer are posted than the depth. It takes no memory.
    pub fn post(&mut self, number: u32, draft: Draft)
        requires { count_by is_posted self.old.entries < self.old.depth }
        ensures lane { self.new ≡ record { depth = self.old.depth; entries = self.old.entries ++ record { number = number; kind = draft; phase = Posted } ∷ [] } }
        ensures bound { length self.new.entries ≤ 2 * self.new.depth }
    {
        append(&mut self.posted, PostedEntry::new(number, draft));
    }

    /// How many entries are carried. No entry of the lane has failed.
    pub fn carried_count(&self) -> usize
        requires { count_by is_failed self.now.entries ≡ 0 }
        ensures { result ≡ carried_count self.now.entries }
    {
        let _ = &self.posted;
        self.carried.len()
    }

    /// The first posted entry; None where none is posted.
    pub fn front_posted(&self) -> Option<&PostedEntry>
        ensures { option_copied result ≡ first_posted self.now.entries }
    {
        let _ = &self.carried;
        self.posted.front()
    }

    /// The first carried entry, which is the head of the lane; None where none is carried. No entry of the lane has failed.
    pub fn front_carried(&self) -> Option<&Entry>
        requires { count_by is_failed self.now.entries ≡ 0 }
        ensures first { option_copied result ≡ first_carried self.now.entries }
        ensures head { IfSome result (λ e. slice_get self.now.entries 0 ≡ Some e.now) }
    {
        let _ = &self.posted;
        self.carried.front()
    }

    /// Makes the first posted entry carried, with its bytes, and gives its kind. It takes no memory.
    pub fn carry(&mut self, bytes: &[u8]) -> Kind
        requires whole { count_by is_failed self.old.entries ≡ 0 }
        requires room { carried_count self.old.entries < self.old.depth }
        requires fits { IsSomeAnd (first_posted self.old.entries) (λ (e : Entry). length bytes.now ≡ payload_size e.kind) }
        ensures lane { self.new ≡ record { depth = self.old.depth; entries = with_phase self.old.entries (posted_position self.old.entries) (Carried bytes.now) } }
        ensures kind { IfSome (first_posted self.old.entries) (λ (e : Entry). result ≡ e.kind) }
        ensures bound { length self.new.entries ≤ 2 * self.new.depth }
    {
        let waiting = self.posted.pop_front().unwrap();
        let kind = *waiting.kind();
        append(&mut self.carried, waiting.carried(bytes));
        kind
    }

    /// Makes the first posted entry failed, which keeps its position, and gives its kind. It takes no memory.
    pub fn fail_posted(&mut self) -> Kind
        requires whole { count_by is_failed self.old.entries ≡ 0 }
        requires room { carried_count self.old.entries < self.old.depth }
        requires there { IsSome (first_posted self.old.entries) }
        ensures lane { self.new ≡ record { depth = self.old.depth; entries = with_phase self.old.entries (posted_position self.old.entries) Failed } }
        ensures kind { IfSome (first_posted self.old.entries) (λ (e : Entry). result ≡ e.kind) }
        ensures bound { length self.new.entries ≤ 2 * self.new.depth }
    {
        let waiting = self.posted.pop_front().unwrap();
        let kind = *waiting.kind();
        append(&mut self.carried, waiting.failed());
        kind
    }

    /// Makes the first carried entry, which is the head of the lane, failed, and gives its kind. It keeps its position.
    pub fn fail_carried(&mut self) -> Kind
        requires whole { count_by is_failed self.old.entries ≡ 0 }
        requires there { IsSome (first_carried self.old.entries) }
        ensures lane { self.new ≡ record { depth = self.old.depth; entries = with_phase self.old.entries 0 Failed } }
        ensures kind { IfSome (first_carried self.old.entries) (λ (e : Entry). result ≡ e.kind) }
        ensures head { slice_get self.old.entries 0 ≡ first_carried self.old.entries }
        ensures bound { length self.new.entries ≤ 2 * self.new.depth }
    {
        let _ = &self.posted;
        let entry = self.carried.get_mut(0).unwrap();
        let kind = entry.kind;
        fail(entry);
        kind
    }

    /// Removes the first carried entry, which is the head of the lane, and gives its kind.
    pub fn remove(&mut self) -> Kind
        requires whole { count_by is_failed self.old.entries ≡ 0 }
        requires there { IsSome (first_carried self.old.entries) }
        ensures lane { self.new ≡ record { depth = self.old.depth; entries = drop 1 self.old.entries } }
        ensures kind { IfSome (first_carried self.old.entries) (λ (e : Entry). result ≡ e.kind) }
        ensures head { slice_get self.old.entries 0 ≡ first_carried self.old.entries }
        ensures bound { length self.new.entries ≤ 2 * self.new.depth }
    {
        let _ = &self.posted;
        let entry = self.carried.pop_front().unwrap();
        entry.kind
    }

    /// Drops all entries, and keeps the memory of the rings.
    pub fn clear(&mut self)
        ensures { self.new ≡ record { depth = self.old.depth; entries = [] } }
    {
        self.carried.clear();
        self.posted.clear();
    }
}
