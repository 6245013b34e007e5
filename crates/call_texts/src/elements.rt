//! The words of types and operations, and the elements of an allreduce as words of a text, both ways: numbers of a type, which
//! may have a sign.

ghost use Rattle.std.specs.Prelude.{◌≡◌, ◌++◌, map, take, length, IfOk, IfSome, OnOk, OnErr};
ghost use Rattle.gaspi_types.specs.NumberTypes.{AreInType};
ghost use Rattle.call_texts.specs.Elements.{type_word, op_word, type_of, op_of, signed_of, element_of, elements_of};
ghost use Rattle.call_texts.specs.Fields.{words_of_field};
ghost use Rattle.call_texts.specs.Written.{spaced, spaced_elements};
ghost use Rattle.call_texts.specs.declared.fields.Field.TheVariants.{Elements};

use crate::numbers::read_number;
use crate::words_written::{append_numbers, append_word};
use gaspi_types::{Bytes, NoMemory, NumType, Numbers, Op, Sequence, is_in_type};
use itoa::Buffer;
use std::alloc::Global;

/// The word of a type of numbers.
pub fn type_word(num_type: NumType) -> &'static [u8]
    ensures { result.now ≡ type_word num_type }
{
    match num_type {
        NumType::Int => b"INT",
        NumType::Uint => b"UINT",
        NumType::Long => b"LONG",
        NumType::Ulong => b"ULONG",
        NumType::Float => b"FLOAT",
        NumType::Double => b"DOUBLE",
    }
}

/// The word of an operation.
pub fn op_word(op: Op) -> &'static [u8]
    ensures { result.now ≡ op_word op }
{
    match op {
        Op::Min => b"MIN",
        Op::Max => b"MAX",
        Op::Sum => b"SUM",
    }
}

/// The type of numbers with this word, or None.
#[tactic(auto, unfolding(crate::specs::Elements::type_of))]
pub fn read_type(word: &[u8]) -> Option<NumType>
    ensures { result ≡ type_of word.now }
{
    [
        NumType::Int,
        NumType::Uint,
        NumType::Long,
        NumType::Ulong,
        NumType::Float,
        NumType::Double,
    ]
    .iter()
    .copied()
    .find(|num_type| type_word(*num_type) == word)
}

/// The operation with this word, or None.
#[tactic(auto, unfolding(crate::specs::Elements::op_of))]
pub fn read_op(word: &[u8]) -> Option<Op>
    ensures { result ≡ op_of word.now }
{
    [Op::Min, Op::Max, Op::Sum]
        .iter()
        .copied()
        .find(|op| op_word(*op) == word)
}

/// The number that a word spells, with an optional `-` before it; None where it spells none.
#[tactic(auto, unfolding(crate::specs::Elements::signed_of))]
fn read_signed(word: &[u8]) -> Option<i128>
    ensures { result ≡ signed_of word.now }
{
    match word {
        [] => None,
        [b'-', digits @ ..] => {
            let number = read_number(digits)?;
            Some(-i128::from(number))
        }
        _ => {
            let number = read_number(word)?;
            Some(i128::from(number))
        }
    }
}

/// The number that a word spells, or None where it spells none in the range of the type.
#[tactic(auto, unfolding(crate::specs::Elements::element_of))]
fn read_element(num_type: NumType, word: &[u8]) -> Option<i128>
    ensures { result ≡ element_of num_type word.now }
{
    let number = read_signed(word)?;
    if is_in_type(num_type, number) {
        Some(number)
    } else {
        None
    }
}

/// The numbers of a type that words spell, or None where one of them spells none in the type's range. Leading zeros and a sign
/// before zero are allowed.
pub fn read_elements(
    alloc: Global,
    num_type: NumType,
    words: &[&[u8]],
) -> Result<Option<Sequence<i128>>, NoMemory>
    ensures value { IfOk result (λ elements. elements ≡ elements_of num_type (map (λ word. word.now) words.now)) }
    ensures range { IfOk result (λ elements. IfSome elements (λ items. AreInType num_type items)) }
{
    let mut elements = Sequence::with_capacity(alloc, words.len())?;
    for word in words {
        let Some(element) = read_element(num_type, word) else {
            return Ok(None);
        };
        elements.push(element)?;
    }
    Ok(Some(elements))
}

/// Adds numbers in decimal, each behind a space, those below zero with a sign. After `NoMemory` the text still begins with what
/// it had.
pub fn append_elements(text: &mut Bytes, elements: &[i128]) -> Result<(), NoMemory>
    ensures ok { OnOk result (text.new ≡ text.old ++ spaced_elements elements.now) }
    ensures err { OnErr result (take (length text.old) text.new ≡ text.old) }
{
    let mut buffer = Buffer::new();
    for element in elements {
        append_word(text, buffer.format(*element).as_bytes())?;
    }
    Ok(())
}

/// Adds a type, how many numbers of it there are, and these, each behind a space. After `NoMemory` the text still begins with
/// what it had.
pub(crate) fn append_typed(text: &mut Bytes, numbers: &Numbers) -> Result<(), NoMemory>
    ensures ok { OnOk result (text.new ≡ text.old ++ spaced (words_of_field Elements numbers.now)) }
    ensures err { OnErr result (take (length text.old) text.new ≡ text.old) }
{
    append_word(text, type_word(numbers.num_type()))?;
    let items = numbers.items();
    append_numbers(text, &[items.len() as u64])?;
    append_elements(text, items)
}
