//! Memory words: numbers of 64 bits in eight bytes, the lowest byte first; to check, read and change one in a list of bytes.
//! (GASPI: atomics)

ghost use Rattle.std.specs.Prelude.{◌≡◌, ◌+◌, ◌%◌, ◌^◌};
ghost use Rattle.gaspi_types.specs.SegmentWords.{word_checks, word_at, with_word, with_sum, with_swap};

use crate::ranges::{is_within, set_range};
use byteorder::{ByteOrder, LittleEndian};
use gaspi_types::{Bytes, Refusal};

/// Checks that a memory word lies in a segment of `whole` bytes (`BadRange`), and that its offset is divisible by 8 (`BadAlign`).
pub fn check_word(whole: u32, offset: u64) -> Result<(), Refusal>
    ensures { result ≡ word_checks whole offset }
{
    if !is_within(offset, 8, u64::from(whole)) {
        return Err(Refusal::BadRange { size: whole });
    }
    if offset % 8 != 0 {
        return Err(Refusal::BadAlign);
    }
    Ok(())
}

/// The number in the eight bytes at an offset, the lowest first; 0 where there are no such eight bytes.
pub fn word_at(bytes: &[u8], offset: u64) -> u64
    ensures { result ≡ word_at bytes.now offset }
{
    if is_within(offset, 8, bytes.len() as u64) {
        LittleEndian::read_u64(&bytes[offset as usize..])
    } else {
        0
    }
}

/// Writes a number over the eight bytes at an offset. Where there are no such eight bytes nothing changes.
fn set_word(bytes: &mut Bytes, offset: u64, value: u64)
    ensures { bytes.new ≡ with_word bytes.old offset value }
{
    let mut word = [0u8; 8];
    LittleEndian::write_u64(&mut word, value);
    set_range(bytes, offset, &word);
}

/// Adds a value to the memory word at an offset; sums wrap. Where there is no such word nothing changes. (GASPI: atomic_fetch_add)
pub fn add_to_word(bytes: &mut Bytes, offset: u64, value: u64)
    ensures { bytes.new ≡ with_sum bytes.old offset value }
{
    let old = word_at(bytes.as_slice(), offset);
    set_word(bytes, offset, old.wrapping_add(value));
}

/// Puts a new value into the memory word at an offset, where the word is the comparator; else nothing changes.
/// (GASPI: atomic_compare_swap)
pub fn swap_word(bytes: &mut Bytes, offset: u64, comparator: u64, new: u64)
    ensures { bytes.new ≡ with_swap bytes.old offset comparator new }
{
    if word_at(bytes.as_slice(), offset) == comparator {
        set_word(bytes, offset, new);
    }
}
