//! Collectives in the texts of joins and of refusals, both ways: their kinds and what they are called with, and the values with
//! which ranks join. What reads answers None where the words do not spell it.

ghost use Rattle.std.specs.Prelude.{◌≡◌, ◌++◌, map, take, length, IfOk, OnOk, OnErr};
ghost use Rattle.gaspi_texts.specs.CollectiveText.{coll_words, one_field, allreduce_of, create_of, coll_of, args_words, values_of, args_with, args_of};
ghost use Rattle.call_texts.specs.Written.{spaced};

use call_texts::{
    append_elements, append_numbers, append_word, op_word, read_elements, read_op, read_type,
    read_value, type_word,
};
use gaspi_types::{Args, BoxedSequence, Bytes, Coll, NoMemory, NumType, Numbers};
use std::alloc::Global;

/// The number that the only word spells.
pub(crate) fn read_field(fields: &[&[u8]]) -> Option<u32>
    ensures { result ≡ one_field (map (λ word. word.now) fields.now) }
{
    let [field] = fields else {
        return None;
    };
    read_value(field)
}

/// The allreduce of an operation, a type and a number of elements.
fn read_allreduce(words: &[&[u8]]) -> Option<Coll>
    ensures { result ≡ allreduce_of (map (λ word. word.now) words.now) }
{
    let [op, num_type, count] = words else {
        return None;
    };
    let op = read_op(op)?;
    let num_type = read_type(num_type)?;
    let count = read_value(count)?;
    Some(Coll::Allreduce(op, num_type, count))
}

/// The `create` of a segment id and a size.
fn read_create(words: &[&[u8]]) -> Option<Coll>
    ensures { result ≡ create_of (map (λ word. word.now) words.now) }
{
    let [segment, size] = words else {
        return None;
    };
    let segment = read_value(segment)?;
    let size = read_value(size)?;
    Some(Coll::Create(segment, size))
}

/// The collective that words spell, values aside.
#[tactic(auto, unfolding(crate::specs::CollectiveText::coll_of))]
pub(crate) fn read_coll(fields: &[&[u8]]) -> Option<Coll>
    ensures { result ≡ coll_of (map (λ word. word.now) fields.now) }
{
    let [word, words @ ..] = fields else {
        return None;
    };
    if b"barrier".as_slice() == *word {
        return if words.is_empty() {
            Some(Coll::Barrier)
        } else {
            None
        };
    }
    if b"allreduce".as_slice() == *word {
        return read_allreduce(words);
    }
    if b"create".as_slice() == *word {
        return read_create(words);
    }
    if b"commit".as_slice() == *word {
        let mask = read_field(words)?;
        return Some(Coll::Commit(mask));
    }
    None
}

/// Adds a collective, values aside, each word behind a space. After `NoMemory` the text still begins with what it had.
pub(crate) fn append_coll(text: &mut Bytes, coll: Coll) -> Result<(), NoMemory>
    ensures ok { OnOk result (text.new ≡ text.old ++ spaced (coll_words coll)) }
    ensures err { OnErr result (take (length text.old) text.new ≡ text.old) }
{
    match coll {
        Coll::Barrier => append_word(text, b"barrier"),
        Coll::Allreduce(op, num_type, count) => {
            append_word(text, b"allreduce")?;
            append_word(text, op_word(op))?;
            append_word(text, type_word(num_type))?;
            append_numbers(text, &[u64::from(count)])
        }
        Coll::Create(segment, size) => {
            append_word(text, b"create")?;
            append_numbers(text, &[u64::from(segment), u64::from(size)])
        }
        Coll::Commit(mask) => {
            append_word(text, b"commit")?;
            append_numbers(text, &[u64::from(mask)])
        }
    }
}

/// The values of a collective that words spell: as many as an allreduce says, and for any other none.
fn read_values(alloc: Global, coll: Coll, words: &[&[u8]]) -> Result<Option<Numbers>, NoMemory>
    ensures { IfOk result (λ values. values ≡ values_of coll (map (λ word. word.now) words.now)) }
{
    let Coll::Allreduce(_, num_type, count) = coll else {
        return Ok(Some(Numbers::new(NumType::Int, BoxedSequence::new())));
    };
    if words.len() != count as usize {
        return Ok(None);
    }
    let Some(items) = read_elements(alloc, num_type, words)? else {
        return Ok(None);
    };
    let items = BoxedSequence::from_sequence(alloc, items)?;
    Ok(Some(Numbers::new(num_type, items)))
}

/// A collective, where there is one, with the values that words spell; for `read_args`.
fn read_with(alloc: Global, coll: Option<Coll>, words: &[&[u8]]) -> Result<Option<Args>, NoMemory>
    ensures { IfOk result (λ args. args ≡ args_with coll (map (λ word. word.now) words.now)) }
{
    let Some(coll) = coll else {
        return Ok(None);
    };
    let Some(values) = read_values(alloc, coll, words)? else {
        return Ok(None);
    };
    Ok(Some(Args { coll, values }))
}

/// The arguments that words spell: a collective, and its values behind the four words of an allreduce.
#[tactic(auto, unfolding(crate::specs::CollectiveText::args_of))]
pub(crate) fn read_args(alloc: Global, words: &[&[u8]]) -> Result<Option<Args>, NoMemory>
    ensures { IfOk result (λ args. args ≡ args_of (map (λ word. word.now) words.now)) }
{
    match words {
        [first, second, third, fourth, elements @ ..] => {
            let coll = read_coll(&[*first, *second, *third, *fourth]);
            read_with(alloc, coll, elements)
        }
        _ => read_with(alloc, read_coll(words), &[]),
    }
}

/// Adds a collective and its values, each word behind a space. After `NoMemory` the text still begins with what it had.
pub(crate) fn append_args(text: &mut Bytes, args: &Args) -> Result<(), NoMemory>
    ensures ok { OnOk result (text.new ≡ text.old ++ spaced (args_words args.now)) }
    ensures err { OnErr result (take (length text.old) text.new ≡ text.old) }
{
    append_coll(text, args.coll)?;
    append_elements(text, args.values.items())
}
