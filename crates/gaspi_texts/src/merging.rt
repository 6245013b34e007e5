//! The journal of a world, merged of its rank journals.

ghost use Rattle.std.specs.Prelude.{◌≡◌, ◌<◌, ◌≤◌, ◌++◌, ◌∷◌, [], List, length, position, slice_get, slice_set, IfOk, Some};
ghost use Rattle.gaspi_types.specs.declared.events.Event.{Event};
ghost use Rattle.gaspi_types.specs.declared.events.PlacedEvent.{PlacedEvent};
ghost use Rattle.gaspi_texts.specs.Merges.{joined, AreCutOf, AreRisingFrom, starts_at};

use crate::{Journal, RankJournal, ReservedJournal};
use gaspi_types::{Buffer, NoMemory, PlacedEvent};
use std::alloc::Global;
use std::marker::Model;

/// For how many events at least `take_next` gives memory back at a time.
const GIVEN_BACK: usize = 4096;

/// The events of a rank journal that are not merged yet, of which contracts see the list. The next one is the last in memory,
/// so that the memory behind it can be given back.
#[derive(Drop)]
struct UnmergedEvents {
    reversed: Vec<PlacedEvent>,
}

impl Model for UnmergedEvents {
    ghost use Rattle.std.specs.Prelude.{List, reverse};
    ghost use Rattle.gaspi_types.specs.declared.events.PlacedEvent.{PlacedEvent};

    ghost Value = { List PlacedEvent };

    ghost view = { λ journal. reverse journal.reversed.items };
}

impl UnmergedEvents {
    /// All events of a rank journal. No memory is taken.
    fn all_of(journal: RankJournal) -> UnmergedEvents
        ensures { result ≡ journal.items }
    {
        let mut reversed = journal.into_sequence().into_vec();
        reversed.reverse();
        UnmergedEvents { reversed }
    }

    /// Whether the next event has that place.
    fn starts_at(&self, place: u64) -> bool
        ensures { result ≡ starts_at place self.now }
    {
        match self.reversed.last() {
            Some(next) => next.place == place,
            None => false,
        }
    }

    /// Removes the next event and gives it to the caller. Now and then memory that is no longer used is given back.
    fn take_next(&mut self) -> PlacedEvent
        requires { 0 < length self.old }
        ensures { self.old ≡ result ∷ self.new }
    {
        let next = self.reversed.take_last();
        if self.reversed.capacity() >= self.reversed.len() + GIVEN_BACK {
            self.reversed.shrink_to_fit();
        }
        next
    }
}

/// The index of the first list whose next event has that place, or None.
fn next_list(lists: &[UnmergedEvents], place: u64) -> Option<usize>
    ensures { result ≡ position (starts_at place) lists.now }
{
    lists.iter().position(|list| list.starts_at(place))
}

/// Rank journals, with memory for the journal of their world, taken when this is made. Contracts see the rank journals, how
/// many there may be, and how many events there may be in all.
#[derive(Drop)]
pub struct MergeRoom {
    lists: Buffer<UnmergedEvents>,
    journal: ReservedJournal,
}

impl Model for MergeRoom {
    ghost use Rattle.std.specs.Prelude.{◌≡◌, []};
    ghost use Rattle.gaspi_texts.specs.Merges.{Merging};

    ghost Value = { Merging };

    ghost view = { λ room. record { lists = room.lists.items; ranks = room.lists.capacity; events = room.journal.capacity } };

    ghost invariant = { λ room. room.journal.items ≡ [] };
}

impl MergeRoom {
    /// Room for `ranks` rank journals with `events` events in all, and none of them yet.
    pub fn for_events(alloc: Global, ranks: usize, events: usize) -> Result<MergeRoom, NoMemory>
        ensures { IfOk result (λ room. room ≡ record { lists = []; ranks = ranks; events = events }) }
    {
        Ok(MergeRoom {
            lists: Buffer::with_capacity(alloc, ranks)?,
            journal: ReservedJournal::with_capacity(alloc, events)?,
        })
    }

    /// Adds a rank journal, for which there has to be room. No memory is taken.
    pub fn add(&mut self, journal: RankJournal)
        requires { length self.old.lists < self.old.ranks }
        ensures { self.new ≡ record self.old { lists = self.old.lists ++ journal.items ∷ [] } }
    {
        self.lists.push(UnmergedEvents::all_of(journal));
    }

    /// The journal that has these rank journals: each event is at its place. There has to be one (`cut`), for which there is
    /// room, and the places of each rank journal rise. No memory is taken, and that of the rank journals is given back while
    /// the journal grows.
    pub fn merge(self) -> Journal
        requires rising { AreRisingFrom 0 self.lists }
        requires room { length (joined self.lists) ≤ self.events }
        requires cut { (journal : List Event) × AreCutOf self.lists journal }
        ensures { (journal : List Event) → AreCutOf self.lists journal → result ≡ journal }
    {
        let MergeRoom { lists, mut journal } = self;
        let mut lists = lists.into_sequence().into_vec();
        while let Some(list) = next_list(&lists, journal.len() as u64) {
            journal.push(lists[list].take_next().event);
        }
        journal.into_sequence()
    }
}
