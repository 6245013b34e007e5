//! Words added to a text, each behind one space, but for the first word of a line or a list.

ghost use Rattle.std.specs.Prelude.{◌≡◌, ◌++◌, ◌∷◌, map, take, length, OnOk, OnErr};
ghost use Rattle.std.specs.Fmt.{decimal};
ghost use Rattle.std.specs.List.{join_with_byte};
ghost use Rattle.call_texts.specs.Hex.{hex_text};
ghost use Rattle.call_texts.specs.Fields.{words_of_field};
ghost use Rattle.call_texts.specs.Written.{spaced, spaced_numbers};
ghost use Rattle.call_texts.specs.declared.fields.Field.TheVariants.{Items};

use crate::hexes::write_bytes;
use crate::numbers::write_number;
use gaspi_types::{Bytes, Item, NoMemory};

/// Adds a space and a word. After `NoMemory` the text still begins with what it had.
pub fn append_word(text: &mut Bytes, word: &[u8]) -> Result<(), NoMemory>
    ensures ok { OnOk result (text.new ≡ text.old ++ 32 ∷ word.now) }
    ensures err { OnErr result (take (length text.old) text.new ≡ text.old) }
{
    text.push(b' ')?;
    text.append(word)
}

/// Adds numbers in decimal, each behind a space. After `NoMemory` the text still begins with what it had.
pub fn append_numbers(text: &mut Bytes, numbers: &[u64]) -> Result<(), NoMemory>
    ensures ok { OnOk result (text.new ≡ text.old ++ spaced_numbers numbers.now) }
    ensures err { OnErr result (take (length text.old) text.new ≡ text.old) }
{
    for number in numbers {
        text.push(b' ')?;
        write_number(text, *number)?;
    }
    Ok(())
}

/// Adds a space and bytes in hex. After `NoMemory` the text still begins with what it had.
pub fn append_bytes(text: &mut Bytes, bytes: &[u8]) -> Result<(), NoMemory>
    ensures ok { OnOk result (text.new ≡ text.old ++ 32 ∷ hex_text bytes.now) }
    ensures err { OnErr result (take (length text.old) text.new ≡ text.old) }
{
    text.push(b' ')?;
    write_bytes(text, bytes)
}

/// Adds how many items there are, and the numbers of each, each number behind a space; for `append_list`. After `NoMemory` the
/// text still begins with what it had.
fn append_items(text: &mut Bytes, items: &[Item]) -> Result<(), NoMemory>
    ensures ok { OnOk result (text.new ≡ text.old ++ spaced (words_of_field Items items.now)) }
    ensures err { OnErr result (take (length text.old) text.new ≡ text.old) }
{
    append_numbers(text, &[items.len() as u64])?;
    for item in items {
        append_numbers(
            text,
            &[item.seg, item.offset, item.rseg, item.roffset, item.size],
        )?;
    }
    Ok(())
}

/// Adds a first word, without a space, and numbers in decimal, each behind a space. After `NoMemory` the text still begins with
/// what it had.
pub fn append_line(text: &mut Bytes, word: &[u8], numbers: &[u64]) -> Result<(), NoMemory>
    ensures ok { OnOk result (text.new ≡ text.old ++ join_with_byte 32 (word.now ∷ map decimal numbers.now)) }
    ensures err { OnErr result (take (length text.old) text.new ≡ text.old) }
{
    text.append(word)?;
    append_numbers(text, numbers)
}

/// Adds a first word, without a space; numbers in decimal; and how many items there are, and their numbers. After `NoMemory`
/// the text still begins with what it had.
pub(crate) fn append_list(
    text: &mut Bytes,
    word: &[u8],
    numbers: &[u64],
    items: &[Item],
) -> Result<(), NoMemory>
    ensures ok { OnOk result (text.new ≡ text.old ++ join_with_byte 32 (word.now ∷ (map decimal numbers.now ++ words_of_field Items items.now))) }
    ensures err { OnErr result (take (length text.old) text.new ≡ text.old) }
{
    append_line(text, word, numbers)?;
    append_items(text, items)
}
