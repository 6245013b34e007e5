//! Bytes as words of a text, in hex, both ways.

ghost use Rattle.std.specs.Prelude.{◌≡◌, ◌++◌, ◌<◌, ◌%◌, length, IfOk, OnOk, OnErr};
ghost use Rattle.call_texts.specs.Hex.{bytes_of, hex_text};

use gaspi_types::{Bytes, NoMemory, Sequence};
use hex::FromHexError;
use std::alloc::Global;

/// The bytes that a word spells: `-` for none, or an even number of hex digits of either case, at least two; else None. Only a
/// word of even length takes memory.
#[tactic(auto, unfolding(crate::specs::Hex::bytes_of))]
pub fn read_bytes(alloc: Global, word: &[u8]) -> Result<Option<Bytes>, NoMemory>
    ensures ok { IfOk result (λ bytes. bytes ≡ bytes_of word.now) }
    ensures memory { OnErr result ((0 < length word.now) × (length word.now % 2 ≡ 0)) }
{
    if word == b"-".as_slice() {
        return Ok(Some(Sequence::new(alloc)));
    }
    if word.is_empty() {
        return Ok(None);
    }
    match hex::decode(alloc, word) {
        Ok(bytes) => Ok(Some(Sequence::from_vec(bytes))),
        Err(FromHexError::OutOfMemory) => Err(NoMemory),
        Err(_) => Ok(None),
    }
}

/// Adds bytes in the one spelling that is written: `-` for none, or lower-case hex digits. After `NoMemory` nothing has
/// changed.
#[tactic(auto, unfolding(crate::specs::Hex::hex_text))]
pub fn write_bytes(text: &mut Bytes, bytes: &[u8]) -> Result<(), NoMemory>
    ensures ok { OnOk result (text.new ≡ text.old ++ hex_text bytes.now) }
    ensures err { OnErr result (text.new ≡ text.old) }
{
    if bytes.is_empty() {
        return text.append(b"-");
    }
    let digits = hex::encode(text.allocator(), bytes)?;
    text.append(digits.as_bytes())
}
