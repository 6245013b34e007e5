//! Lists (`Sequence`, `BoxedSequence`) that contracts see as their items alone: no capacity and no pointer is in an equation about
//! them.
//!
//! A function that may take memory answers `NoMemory` where memory runs out, and then its list is as before. The others take
//! none. A parameter `place` is an index in the list.

ghost use Rattle.std.specs.Prelude.{◌≡◌, ◌+◌, ◌<◌, ◌≤◌, ◌↔◌, ◌++◌, ◌∷◌, [], length, slice_set, slice_get, take, drop, remove, IsTrue, OnOk, OnErr, IfOk, IsOk, Some};
ghost use Rattle.std.specs.Borrow.{sem};
ghost use Rattle.std.specs.Option.{option_copied};
ghost use Rattle.std.specs.Cmp.Lexicographic.{pointwise, lists_per, lists_equiv};

use crate::memory::NoMemory;
use std::alloc::Global;
use std::marker::Model;

/// A list of items, which contracts see as these items. Its memory grows as items are added.
#[derive(Debug, Drop)]
pub struct Sequence<T> {
    items: Vec<T>,
}

/// A list of bytes.
pub type Bytes = Sequence<u8>;

impl<T> Model for Sequence<T> {
    ghost use Rattle.std.specs.Prelude.{List};

    ghost Value = { List T };

    ghost view = { λ rows. rows.items.items };
}

impl<T> Sequence<T> {
    ghost use Rattle.gaspi_types.specs.Lending.{LendsItem};

    /// The empty list. It takes no memory.
    pub fn new(alloc: Global) -> Sequence<T>
        ensures { result ≡ [] }
    {
        Sequence {
            items: Vec::new(alloc),
        }
    }

    /// The empty list, with memory for `room` items.
    pub fn with_capacity(alloc: Global, room: usize) -> Result<Sequence<T>, NoMemory>
        ensures { IfOk result (λ rows. rows ≡ []) }
    {
        Ok(Sequence {
            items: Vec::with_capacity(alloc, room)?,
        })
    }

    /// The items of a vector, as a list. No memory is taken.
    pub fn from_vec(items: Vec<T>) -> Sequence<T>
        ensures { result ≡ items.items }
    {
        Sequence { items }
    }

    /// The items of the list, as a vector. No memory is taken.
    pub fn into_vec(self) -> Vec<T>
        ensures { result.items ≡ self }
    {
        let Sequence { items } = self;
        items
    }

    /// The items, lent.
    pub fn as_slice(&self) -> &[T]
        ensures { result.now ≡ self.now }
    {
        self.items.as_slice()
    }

    /// How many items there are.
    pub fn len(&self) -> usize
        ensures { result ≡ length self.now }
    {
        self.items.len()
    }

    /// Whether there is no item.
    pub fn is_empty(&self) -> bool
        ensures { IsTrue result ↔ (self.now ≡ []) }
    {
        self.items.is_empty()
    }

    /// The item at the index `place`, which has to be below the length.
    pub fn at(&self, place: usize) -> &T
        requires { place < length self.now }
        ensures { slice_get self.now place ≡ Some result.now }
    {
        &self.items[place]
    }

    /// The item at the index `place`, which has to be below the length, to be written. Every other item stays.
    pub fn at_mut(&mut self, place: usize) -> &mut T
        requires { place < length self.old }
        ensures* writes_back { sem 𝓛 (LendsItem T.row self.entry place result) }
        ensures value { slice_get self.old place ≡ Some result.now }
    {
        &mut self.items[place]
    }

    /// Adds an item at the end. After `NoMemory` the list is as before, and the item is dropped.
    pub fn push(&mut self, item: T) -> Result<(), NoMemory>
    where
        T: Drop,
        ensures ok { OnOk result (self.new ≡ self.old ++ item ∷ []) }
        ensures err { OnErr result (self.new ≡ self.old) }
    {
        self.items.push(item)?;
        Ok(())
    }

    /// The allocator from which the list takes its memory.
    pub fn allocator(&self) -> Global {
        *self.items.allocator()
    }

    /// Keeps the first `count` items, or all where there are fewer. The others are dropped.
    pub fn truncate(&mut self, count: usize)
    where
        T: Drop,
        ensures { self.new ≡ take count self.old }
    {
        self.items.truncate(count);
    }

    /// The item at the index `place`, or None where the list ends before it.
    pub fn get(&self, place: usize) -> Option<&T>
        ensures { option_copied result ≡ slice_get self.now place }
    {
        self.items.get(place)
    }

    /// Removes the item at the index `place`, which has to be below the length, and gives it to the caller. The items behind it
    /// move up by one.
    pub fn remove(&mut self, place: usize) -> T
        requires { place < length self.old }
        ensures item { slice_get self.old place ≡ Some result }
        ensures rest { self.new ≡ remove self.old place }
    {
        self.items.remove(place)
    }

    /// Moves all items of `more` to the end. After `NoMemory` the list is as before, and the items of `more` are dropped.
    pub fn extend(&mut self, more: Sequence<T>) -> Result<(), NoMemory>
    where
        T: Drop,
        ensures ok { OnOk result (self.new ≡ self.old ++ more) }
        ensures err { OnErr result (self.new ≡ self.old) }
    {
        let Sequence { mut items } = more;
        self.items.append(&mut items)?;
        Ok(())
    }
}

impl<T: Copy> Sequence<T> {
    /// A list of copies of the items. It takes no memory where there are none.
    pub fn copied_from(alloc: Global, items: &[T]) -> Result<Sequence<T>, NoMemory>
        ensures ok { IfOk result (λ rows. rows ≡ items.now) }
        ensures empty { length items.now ≡ 0 → IsOk result }
    {
        if items.is_empty() {
            return Ok(Sequence::new(alloc));
        }
        Ok(Sequence {
            items: Vec::from_slice(alloc, items)?,
        })
    }

    /// Adds copies of the items at the end. After `NoMemory` the list is as before.
    pub fn append(&mut self, items: &[T]) -> Result<(), NoMemory>
        ensures ok { OnOk result (self.new ≡ self.old ++ items.now) }
        ensures err { OnErr result (self.new ≡ self.old) }
    {
        self.items.extend_from_slice(items)?;
        Ok(())
    }

    /// Writes `item` over the item at the index `place`, which has to be below the length. Every other item stays.
    pub fn set(&mut self, place: usize, item: T)
        requires { place < length self.old }
        ensures { self.new ≡ slice_set self.old place item }
    {
        self.items[place] = item;
    }

    /// Writes copies of the items over the items from the index `place` on. There have to be as many; all other items and the
    /// length stay.
    pub fn overwrite(&mut self, place: usize, items: &[T])
        requires { place + length items.now ≤ length self.old }
        ensures { self.new ≡ take place self.old ++ items.now ++ drop (place + length items.now) self.old }
    {
        let _whole = self.items.len();
        let all = self.items.as_mut_slice();
        let end = place + items.len();
        all[place..end].copy_from_slice(items);
    }
}

impl<T: PartialEq> PartialEq for Sequence<T> {
    ghost eq = { λ a b. pointwise T.eq a b };

    ghost laws = { lists_per T.laws };

    /// Whether the items are equal, one by one.
    fn eq(&self, other: &Self) -> bool {
        self.items == other.items
    }
}

impl<T: Eq> Eq for Sequence<T> {
    ghost laws = { lists_equiv T.Eq.laws };
}

/// A list of items behind a box, for lists that are rare: where it stands it takes 16 bytes, the items elsewhere. It does not grow.
/// A list that is made empty takes no memory.
#[derive(Debug, Drop)]
pub struct BoxedSequence<T> {
    boxed: Option<Box<Sequence<T>>>,
}

impl<T> Model for BoxedSequence<T> {
    ghost use Rattle.std.specs.Prelude.{List};
    ghost use Rattle.gaspi_types.specs.BoxedLists.{boxed_items};

    ghost Value = { List T };

    ghost view = { λ list. boxed_items list.boxed };
}

impl<T> BoxedSequence<T> {
    /// The empty list. It takes no memory.
    pub fn new() -> BoxedSequence<T>
        ensures { result ≡ [] }
    {
        BoxedSequence { boxed: None }
    }

    /// The items of a list, put behind a box. It takes no memory where there are none. After `NoMemory` the items are dropped.
    pub fn from_sequence(alloc: Global, items: Sequence<T>) -> Result<BoxedSequence<T>, NoMemory>
    where
        T: Drop,
        ensures ok { IfOk result (λ list. list ≡ items) }
        ensures empty { length items ≡ 0 → IsOk result }
    {
        if items.is_empty() {
            return Ok(BoxedSequence::new());
        }
        Ok(BoxedSequence {
            boxed: Some(Box::new(alloc, items)?),
        })
    }

    /// The items, lent.
    pub fn as_slice(&self) -> &[T]
        ensures { result.now ≡ self.now }
    {
        match &self.boxed {
            Some(items) => items.as_slice(),
            None => &[],
        }
    }

    /// Keeps the first `count` items, or all where there are fewer. The others are dropped.
    pub fn truncate(&mut self, count: usize)
    where
        T: Drop,
        ensures { self.new ≡ take count self.old }
    {
        if let Some(items) = &mut self.boxed {
            items.truncate(count);
        }
    }
}

impl<T: Copy> BoxedSequence<T> {
    /// A list of copies of the items. It takes no memory where there are none.
    pub fn copied_from(alloc: Global, items: &[T]) -> Result<BoxedSequence<T>, NoMemory>
    where
        T: Drop,
        ensures ok { IfOk result (λ list. list ≡ items.now) }
        ensures empty { length items.now ≡ 0 → IsOk result }
    {
        if items.is_empty() {
            return Ok(BoxedSequence::new());
        }
        BoxedSequence::from_sequence(alloc, Sequence::copied_from(alloc, items)?)
    }

    /// Writes `item` over the item at the index `place`, which has to be below the length. Every other item stays.
    pub fn set(&mut self, place: usize, item: T)
        requires { place < length self.old }
        ensures { self.new ≡ slice_set self.old place item }
    {
        if let Some(items) = &mut self.boxed {
            items.set(place, item);
        }
    }

    /// Writes copies of the items over the items from the index `place` on. There have to be as many; all other items and the
    /// length stay.
    pub fn overwrite(&mut self, place: usize, items: &[T])
        requires { place + length items.now ≤ length self.old }
        ensures { self.new ≡ take place self.old ++ items.now ++ drop (place + length items.now) self.old }
    {
        if let Some(list) = &mut self.boxed {
            list.overwrite(place, items);
        }
    }
}

impl<T: PartialEq> PartialEq for BoxedSequence<T> {
    ghost eq = { λ a b. pointwise T.eq a b };

    ghost laws = { lists_per T.laws };

    /// Whether the items are equal, one by one.
    fn eq(&self, other: &Self) -> bool {
        self.as_slice() == other.as_slice()
    }
}

impl<T: Eq> Eq for BoxedSequence<T> {
    ghost laws = { lists_equiv T.Eq.laws };
}
