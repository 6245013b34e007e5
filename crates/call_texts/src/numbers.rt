//! Numbers without a sign as words of a text, both ways.

ghost use Rattle.std.specs.Prelude.{◌≡◌, ◌++◌, OnOk, OnErr};
ghost use Rattle.std.specs.Fmt.{decimal};
ghost use Rattle.call_texts.specs.Numbers.{number_of, value_of, has_leading_zero};

use gaspi_types::{Bytes, NoMemory};
use itoa::Buffer;

/// The number that a word spells: decimal digits, leading zeros allowed, at most 18,446,744,073,709,551,615; else None.
#[tactic(auto, unfolding(crate::specs::Numbers::number_of))]
pub fn read_number(word: &[u8]) -> Option<u64>
    ensures { result ≡ number_of word.now }
{
    if word.is_empty() {
        return None;
    }
    let mut number: u64 = 0;
    for byte in word {
        if !byte.is_ascii_digit() {
            return None;
        }
        number = number
            .checked_mul(10)?
            .checked_add(u64::from(*byte - b'0'))?;
    }
    Some(number)
}

/// The number of 32 bits that a word spells, as a notification value is: at most 4,294,967,295; else None. (GASPI:
/// notifications)
#[tactic(auto, unfolding(crate::specs::Numbers::number_of, crate::specs::Numbers::value_of))]
pub fn read_value(word: &[u8]) -> Option<u32>
    ensures { result ≡ value_of word.now }
{
    let number = read_number(word)?;
    u32::try_from(number).ok()
}

/// Whether a word has a zero in front of another digit, as no number in decimal has.
pub fn has_leading_zero(word: &[u8]) -> bool
    ensures { result ≡ has_leading_zero word.now }
{
    match word {
        [first, second, ..] => *first == b'0' && second.is_ascii_digit(),
        _ => false,
    }
}

/// Adds a number in decimal, without leading zeros. After `NoMemory` nothing has changed.
pub fn write_number(text: &mut Bytes, number: u64) -> Result<(), NoMemory>
    ensures ok { OnOk result (text.new ≡ text.old ++ decimal number) }
    ensures err { OnErr result (text.new ≡ text.old) }
{
    if number < 10 {
        return text.push(b'0' + number as u8);
    }
    let mut buffer = Buffer::new();
    text.append(buffer.format(number).as_bytes())
}
