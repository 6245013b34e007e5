//! Where a journal begins in an input: at the first line whose first word is `journal`.

ghost use Rattle.std.specs.Prelude.{◌≡◌, ◌==◌, ◌≤◌, ◌+◌, length, not, find, IfSome};
ghost use Rattle.std.specs.List.{slice_split};
ghost use Rattle.std.specs.Option.{option_map};
ghost use Rattle.call_texts.specs.Words.{is_blank};
ghost use Rattle.rank_script.specs.WorldText.{is_journal_line, journal_offset};

use crate::line_fields::is_word;
use call_texts::{first_line, plain_line};

/// The byte at which the journal of an input begins, and the number of its first line, from 1; none exactly where there is no journal.
/// It takes no memory.
pub fn split_input(text: &[u8]) -> Option<(u64, u64)>
    ensures place { result ≡ journal_offset text.now }
    ensures within { IfSome result (λ found. (1 ≤ found.1) × (found.1 ≤ found.0 + 1) × (found.0 ≤ length text.now)) }
{
    let mut rest = text;
    let mut number: u64 = 1;
    while !rest.is_empty() {
        let (line, later) = first_line(rest);
        if is_journal_line(plain_line(line)) {
            return Some(((text.len() - rest.len()) as u64, number));
        }
        number += 1;
        rest = later;
    }
    None
}

/// Whether the first word of a line is `journal`.
pub(crate) fn is_journal_line(line: &[u8]) -> bool
    ensures { result ≡ is_journal_line line.now }
{
    match first_word(line) {
        Some(word) => is_word(word, b"journal"),
        None => false,
    }
}

/// The first word of a line; none where the line has no word.
fn first_word(line: &[u8]) -> Option<&[u8]>
    ensures { option_map (λ word. word.now) result ≡ find (λ word. not (length word == 0)) (slice_split is_blank line.now) }
{
    line.split(|byte| *byte == b' ' || *byte == b'\t')
        .find(|word| !word.is_empty())
}
