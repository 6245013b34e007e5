//! The fields of a form, read from the words in front. Each function but `new` and `is_empty` reads one field, or what belongs
//! to one, and removes its words. Where they do not spell it, it answers None; then, and after `NoMemory`, what words remain is
//! not said.

ghost use Rattle.std.specs.Prelude.{◌≡◌, ◌==◌, map, length, IfOk, OnErr, true};
ghost use Rattle.std.specs.Option.{option_map};
ghost use Rattle.call_texts.specs.Elements.{type_of};
ghost use Rattle.call_texts.specs.Fields.{first_spells, item_spelled, words_split, field_spelled};
ghost use Rattle.call_texts.specs.FieldWords.{words_in};
ghost use Rattle.call_texts.specs.declared.fields.Field.TheVariants.{Number, Value, Bytes, Items, Operation, Elements};

use crate::elements::{read_elements, read_op, read_type};
use crate::hexes::read_bytes;
use crate::numbers::{read_number, read_value};
use gaspi_types::{BoxedSequence, Bytes, Item, NoMemory, NumType, Numbers, Op, Sequence};
use std::alloc::Global;

/// The words of fields that were not read yet.
#[derive(Drop)]
pub(crate) struct FieldWords<'b, 'a> {
    words: &'b [&'a [u8]],
}

impl<'b, 'a> FieldWords<'b, 'a> {
    /// These words, of which none was read.
    pub(crate) fn new(words: &'b [&'a [u8]]) -> FieldWords<'b, 'a>
        ensures { words_in result ≡ map (λ word. word.now) words.now }
    {
        FieldWords { words }
    }

    /// Whether no word is left.
    pub(crate) fn is_empty(&self) -> bool
        ensures { result ≡ (length (words_in self.now) == 0) }
    {
        self.words.is_empty()
    }

    /// The number that the first word spells.
    pub(crate) fn number(&mut self) -> Option<u64>
        ensures { option_map (λ n. (n, words_in self.new)) result ≡ field_spelled Number (words_in self.old) }
    {
        let [word, words @ ..] = self.words else {
            return None;
        };
        self.words = words;
        read_number(word)
    }

    /// The notification value that the first word spells.
    pub(crate) fn value(&mut self) -> Option<u32>
        ensures { option_map (λ n. (n, words_in self.new)) result ≡ field_spelled Value (words_in self.old) }
    {
        let [word, words @ ..] = self.words else {
            return None;
        };
        self.words = words;
        read_value(word)
    }

    /// The bytes that the first word spells.
    pub(crate) fn bytes(&mut self, alloc: Global) -> Result<Option<Bytes>, NoMemory>
        ensures { IfOk result (λ bytes. option_map (λ b. (b, words_in self.new)) bytes ≡ field_spelled Bytes (words_in self.old)) }
    {
        let [word, words @ ..] = self.words else {
            return Ok(None);
        };
        self.words = words;
        read_bytes(alloc, word)
    }

    /// The item that the first five words spell.
    fn item(&mut self) -> Option<Item>
        ensures { option_map (λ item. (item, words_in self.new)) result ≡ item_spelled (words_in self.old) }
    {
        Some(Item {
            seg: self.number()?,
            offset: self.number()?,
            rseg: self.number()?,
            roffset: self.number()?,
            size: self.number()?,
        })
    }

    /// The items that the first words spell: how many there are, and then the five numbers of each. However large that number
    /// is, memory is taken for no more items than there are words.
    pub(crate) fn items(&mut self, alloc: Global) -> Result<Option<Sequence<Item>>, NoMemory>
        ensures { IfOk result (λ items. option_map (λ i. (i, words_in self.new)) items ≡ field_spelled Items (words_in self.old)) }
    {
        let Some(count) = self.number() else {
            return Ok(None);
        };
        let room = self.words.len() / 5;
        let mut items = Sequence::with_capacity(alloc, room.min(count as usize))?;
        for _ in 0..count {
            let Some(item) = self.item() else {
                return Ok(None);
            };
            items.push(item)?;
        }
        Ok(Some(items))
    }

    /// The operation with the first word.
    pub(crate) fn operation(&mut self) -> Option<Op>
        ensures { option_map (λ op. (op, words_in self.new)) result ≡ field_spelled Operation (words_in self.old) }
    {
        let [word, words @ ..] = self.words else {
            return None;
        };
        self.words = words;
        read_op(word)
    }

    /// The type with the first word.
    fn num_type(&mut self) -> Option<NumType>
        ensures { option_map (λ t. (t, words_in self.new)) result ≡ first_spells type_of (words_in self.old) }
    {
        let [word, words @ ..] = self.words else {
            return None;
        };
        self.words = words;
        read_type(word)
    }

    /// The first `count` words, or None where there are fewer.
    fn front(&mut self, count: u64) -> Option<&'b [&'a [u8]]>
        ensures { option_map (λ front. (map (λ word. word.now) front.now, words_in self.new)) result ≡ words_split count (words_in self.old) }
    {
        if count > self.words.len() as u64 {
            return None;
        }
        let front = &self.words[..count as usize];
        self.words = &self.words[count as usize..];
        Some(front)
    }

    /// The elements that the first words spell: their type, how many there are, and these. However large that number is, memory
    /// is taken for no more elements than there are words.
    pub(crate) fn elements(&mut self, alloc: Global) -> Result<Option<Numbers>, NoMemory>
        ensures { IfOk result (λ numbers. option_map (λ n. (n, words_in self.new)) numbers ≡ field_spelled Elements (words_in self.old)) }
    {
        let Some(num_type) = self.num_type() else {
            return Ok(None);
        };
        let Some(count) = self.number() else {
            return Ok(None);
        };
        let Some(front) = self.front(count) else {
            return Ok(None);
        };
        let Some(items) = read_elements(alloc, num_type, front)? else {
            return Ok(None);
        };
        let items = BoxedSequence::from_sequence(alloc, items)?;
        Ok(Some(Numbers::new(num_type, items)))
    }
}
