//! The slots of one segment as a store: to set one, to find the least set one, and to reset one. (GASPI: notifications)

ghost use Rattle.std.specs.Prelude.{◌≡◌, ◌<◌, ◌≤◌, IfOk, OnOk, OnErr, length, replicate, slice_set};

use crate::slot_ranges::{first_set, is_slot_range};
use gaspi_types::{NoMemory, Refusal, Sequence};
use std::alloc::Global;
use std::marker::Model;

/// The slots of one segment, by their numbers: each has the value of its notification, or 0 where there is none. Contracts see the
/// list of these values.
///
/// Numbers of slots are those that a caller wrote, so any number may come.
#[derive(Debug, Drop)]
pub struct Slots {
    /// The value of each slot.
    values: Sequence<u32>,
}

impl Model for Slots {
    ghost use Rattle.std.specs.Prelude.{List, ℕ, ◌≤◌, length};

    ghost Value = { List ℕ };

    ghost view = { λ slots. slots.values };

    ghost invariant = { λ slots. length slots.values ≤ 1024 };
}

impl Slots {
    ghost use Rattle.gaspi_types.specs.Slots.{IsSlotSet};
    ghost use Rattle.segment_store.specs.Answers.{first_slot, slot_value};
    ghost use Rattle.segment_store.specs.Found.{IsLeastSlot};

    /// `notes` slots, all 0: at most 1,024, which is the most that a world may have. All their memory is taken here.
    /// (GASPI: segment_alloc)
    pub fn new(alloc: Global, notes: u32) -> Result<Slots, NoMemory>
        requires { notes ≤ 1024 }
        ensures { IfOk result (λ slots. slots ≡ replicate notes 0) }
    {
        Ok(Slots {
            values: Sequence::from_vec(vec![in alloc; 0; notes as usize]?),
        })
    }

    /// How many slots there are, at most 1,024.
    pub fn len(&self) -> usize
        ensures value { result ≡ length self.now }
        ensures bound { result ≤ 1024 }
    {
        self.values.len()
    }

    /// The values of the slots, lent.
    pub fn values(&self) -> &[u32]
        ensures { result.now ≡ self.now }
    {
        self.values.as_slice()
    }

    /// Sets a slot, which is there, to a value. All other slots stay. (GASPI: notify)
    pub fn set(&mut self, note: u64, value: u32)
        requires { note < length self.old }
        ensures slots { self.new ≡ slice_set self.old note value }
        ensures alone { IsSlotSet self.old self.new note value }
    {
        *self.values.at_mut(note as usize) = value;
    }

    /// The least set slot of the range from `begin` on, `num` slots long; None exactly where none is set. `BadNote` where the range
    /// has no slot, or does not lie within the slots. (GASPI: notify_waitsome)
    pub fn waitsome(&self, begin: u64, num: u64) -> Result<Option<u32>, Refusal>
        ensures answer { result ≡ first_slot self.now begin num }
        ensures least { IfOk result (λ found. IsLeastSlot self.now begin num found) }
    {
        if !is_slot_range(begin, num, self.values.len()) {
            return Err(Refusal::BadNote);
        }
        let slots = self.values.as_slice();
        Ok(first_set(slots, begin as usize, num as usize))
    }

    /// The value of a slot, 0 where it has no notification. `BadNote` where there is no such slot. (own choice)
    pub fn value(&self, note: u64) -> Result<u32, Refusal>
        ensures { result ≡ slot_value self.now note }
    {
        if note >= self.values.len() as u64 {
            return Err(Refusal::BadNote);
        }
        Ok(*self.values.at(note as usize))
    }

    /// Gives the value of a slot, and sets it to 0. All other slots stay. `BadNote` where there is no such slot, and then nothing
    /// changes. (GASPI: notify_reset)
    pub fn reset(&mut self, note: u64) -> Result<u32, Refusal>
        ensures answer { result ≡ slot_value self.old note }
        ensures slots { OnOk result (self.new ≡ slice_set self.old note 0) }
        ensures alone { OnOk result (IsSlotSet self.old self.new note 0) }
        ensures refused { OnErr result (self.new ≡ self.old) }
    {
        let value = self.value(note)?;
        self.set(note, 0);
        Ok(value)
    }
}
