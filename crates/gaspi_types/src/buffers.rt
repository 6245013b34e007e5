//! Lists with a fixed capacity (`Buffer`): their memory is taken when they are made, and never after. A parameter `place` is an
//! index in the list.

ghost use Rattle.std.specs.Prelude.{◌≡◌, ◌<◌, ◌≤◌, ◌↔◌, ◌++◌, ◌∷◌, [], length, take, remove, slice_get, IsTrue, IfOk, Some};

use crate::{NoMemory, Sequence};
use std::alloc::Global;
use std::marker::Model;

/// A list with a fixed capacity, which contracts see as its items and its capacity. Only `with_capacity` takes memory: an item
/// is added while there are fewer items than the capacity, and then nothing can fail. (own choice)
#[derive(Debug, Drop)]
pub struct Buffer<T> {
    held: Vec<T>,
    capacity: usize,
}

impl<T> Model for Buffer<T> {
    ghost use Rattle.std.specs.Prelude.{◌≤◌, vec_len, vec_capacity};
    ghost use Rattle.gaspi_types.specs.Buffered.{Buffered};

    ghost Value = { Buffered T };

    ghost view = { λ b. record { items = b.held.items; capacity = b.capacity } };

    ghost invariant = { λ b. (vec_len b.held ≤ b.capacity) × (b.capacity ≤ vec_capacity b.held) };
}

impl<T> Buffer<T> {
    /// The empty list with room for `capacity` items, for which it takes the memory.
    pub fn with_capacity(alloc: Global, capacity: usize) -> Result<Buffer<T>, NoMemory>
        ensures { IfOk result (λ buffer. buffer ≡ record { items = []; capacity = capacity }) }
    {
        Ok(Buffer {
            held: Vec::with_capacity(alloc, capacity)?,
            capacity,
        })
    }

    /// The items, lent.
    pub fn as_slice(&self) -> &[T]
        ensures { result.now ≡ self.now.items }
    {
        self.held.as_slice()
    }

    /// How many items there are, at most the capacity.
    pub fn len(&self) -> usize
        ensures value { result ≡ length self.now.items }
        ensures bound { result ≤ self.now.capacity }
    {
        self.held.len()
    }

    /// For how many items the list was made.
    pub fn capacity(&self) -> usize
        ensures { result ≡ self.now.capacity }
    {
        self.capacity
    }

    /// Whether there is room for one item more.
    pub fn has_capacity(&self) -> bool
        ensures { IsTrue result ↔ (length self.now.items < self.now.capacity) }
    {
        self.held.len() < self.capacity
    }

    /// Adds an item at the end. There has to be room for it, which `has_capacity` answers. The capacity stays.
    pub fn push(&mut self, item: T)
        requires { length self.old.items < self.old.capacity }
        ensures { self.new ≡ record { items = self.old.items ++ item ∷ []; capacity = self.old.capacity } }
    {
        self.held.push_reserved(item);
    }

    /// Keeps the first `count` items, or all where there are fewer. The others are dropped, and the capacity stays.
    pub fn truncate(&mut self, count: usize)
    where
        T: Drop,
        ensures { self.new ≡ record { items = take count self.old.items; capacity = self.old.capacity } }
    {
        self.held.truncate(count);
    }

    /// Removes the item at the index `place`, which has to be below the length, and gives it to the caller. The items behind it
    /// move up by one, and the capacity stays.
    pub fn remove(&mut self, place: usize) -> T
        requires { place < length self.old.items }
        ensures item { slice_get self.old.items place ≡ Some result }
        ensures rest { self.new ≡ record { items = remove self.old.items place; capacity = self.old.capacity } }
    {
        self.held.remove(place)
    }

    /// The items as a `Sequence`, at most as many as the capacity. No memory is taken.
    pub fn into_sequence(self) -> Sequence<T>
        ensures items { result ≡ self.items }
        ensures bound { length self.items ≤ self.capacity }
    {
        let Buffer { held, .. } = self;
        Sequence::from_vec(held)
    }
}
