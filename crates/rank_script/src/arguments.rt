//! The fields of lines, which are the words after the first: those of a world, a segment and a section line, and the timeout and the
//! tries of a call line. A `read_` function gives none where a word is not what it must be (S6). A number outside its limits (S7) is
//! another answer: `Limit`, or none of `timeout_of` and `tries_of`.

ghost use Rattle.std.specs.Prelude.{◌≡◌, map, length, true, Some, None, IfSome, if◌then◌else◌};
ghost use Rattle.gaspi_types.specs.World.{shape_of};
ghost use Rattle.rank_script.specs.PlainScripts.{has_look_in};
ghost use Rattle.rank_script.specs.WorldText.{all_numbers, number_at, limits_of, timeout_of, is_timeout_within, as_timeout, are_tries_within, is_section_line};

use crate::line_fields::is_word;
use gaspi_texts::read_number;
use gaspi_types::{Shape, ShapeFault, Timeout};
use std::alloc::Global;

/// The most looks that a timeout may have.
const MOST_LOOKS: u64 = 100_000_000;

/// The most tries that a line may have.
const MOST_TRIES: u64 = 1_000_000;

/// The shape that the six words after `world` declare. None where one of them is no number (S6); the error `Limit` where one is a
/// number outside its limits (S7).
pub(crate) fn read_shape(alloc: Global, words: &[&[u8]]) -> Option<Result<Shape, ShapeFault>>
    requires { length words.now ≡ 6 }
    ensures { let words = map (λ word. word.now) words.now in
        result ≡ (if all_numbers words then Some (shape_of (limits_of words)) else None) }
{
    let (ranks, queues, depth, notes, inbox, events) = read_limits(words)?;
    Some(Shape::new(alloc, ranks, queues, depth, notes, inbox, events))
}

/// The six numbers after `world`, for `read_shape`; none where a word is no number. Whether they are within their limits is not tested
/// here.
fn read_limits(words: &[&[u8]]) -> Option<(u64, u64, u64, u64, u64, u64)>
    requires { length words.now ≡ 6 }
    ensures { let words = map (λ word. word.now) words.now in result ≡ (if all_numbers words
        then Some (number_at words 0, number_at words 1, number_at words 2, number_at words 3, number_at words 4, number_at words 5)
        else None) }
{
    let [ranks, queues, depth, notes, inbox, events] = words else {
        unreachable!()
    };
    let ranks = read_number(ranks)?;
    let queues = read_number(queues)?;
    let depth = read_number(depth)?;
    let notes = read_number(notes)?;
    let inbox = read_number(inbox)?;
    let events = read_number(events)?;
    Some((ranks, queues, depth, notes, inbox, events))
}

/// The rank, the segment id and the size that the three words after `segment` give; none where a word is no number. Whether they are
/// within their limits is tested by `Shape::add_segment`.
pub(crate) fn read_segment(words: &[&[u8]]) -> Option<(u64, u64, u64)>
    requires { length words.now ≡ 3 }
    ensures { let words = map (λ word. word.now) words.now in
        result ≡ (if all_numbers words then Some (number_at words 0, number_at words 1, number_at words 2) else None) }
{
    let [rank, segment, size] = words else {
        unreachable!()
    };
    let rank = read_number(rank)?;
    let segment = read_number(segment)?;
    let size = read_number(size)?;
    Some((rank, segment, size))
}

/// The rank and the thread that the three words after `rank` give: a number, `thread`, a number. None where a word is not so. Whether
/// they are within their limits is tested by `Shape::add_caller`.
pub(crate) fn read_section(words: &[&[u8]]) -> Option<(u64, u64)>
    requires { length words.now ≡ 3 }
    ensures { let words = map (λ word. word.now) words.now in
        result ≡ (if is_section_line words then Some (number_at words 0, number_at words 2) else None) }
{
    let [rank, word, thread] = words else {
        unreachable!()
    };
    let rank = read_number(rank)?;
    if !is_word(word, b"thread") {
        return None;
    }
    let thread = read_number(thread)?;
    Some((rank, thread))
}

/// How many looks a timeout allows: 1 for `test`, an inner none for `block`, which is without end, or the number that the word is. The
/// outer none where the word is no timeout. Whether the number is within its limits is tested by `timeout_of`.
pub(crate) fn read_looks(word: &[u8]) -> Option<Option<u64>>
    ensures { result ≡ timeout_of word.now }
{
    if is_word(word, b"test") {
        return Some(Some(1));
    }
    if is_word(word, b"block") {
        return Some(None);
    }
    let looks = read_number(word)?;
    Some(Some(looks))
}

/// The timeout of that many looks; without end where `looks` is none. None where their number is outside its limits (S7). A timeout
/// that is given has one look at least.
pub(crate) fn timeout_of(looks: Option<u64>) -> Option<Timeout>
    ensures timeout { result ≡ (if is_timeout_within looks then Some (as_timeout looks) else None) }
    ensures look { IfSome result (λ timeout. has_look_in timeout ≡ true) }
{
    match looks {
        None => Some(Timeout::Block),
        Some(looks) if 1 <= looks && looks <= MOST_LOOKS => Some(Timeout::Looks(looks as u32)),
        Some(_) => None,
    }
}

/// That many tries; none where their number is outside its limits (S7).
pub(crate) fn tries_of(tries: u64) -> Option<u32>
    ensures { result ≡ (if are_tries_within tries then Some tries else None) }
{
    if 1 <= tries && tries <= MOST_TRIES {
        Some(tries as u32)
    } else {
        None
    }
}
