//! Lines of a world text by their kinds: the first word says the kind, and nothing of the other words is read here. `is_word` compares
//! words for all files that read lines.

ghost use Rattle.std.specs.Prelude.{◌≡◌, map};
ghost use Rattle.std.specs.Option.{option_copied};
ghost use Rattle.std.specs.Str.{bytes_eq};
ghost use Rattle.call_texts.specs.CallText.{call_word_of};
ghost use Rattle.rank_script.specs.WorldText.{line_fields, again_line, call_line, is_world_line, is_unknown, is_miscounted};
ghost use Rattle.rank_script.specs.CutLines.{line_in};

use crate::call_lines::{CallParts, before_and_after_equals};
use gaspi_texts::CallWord;

/// A line by its kind, with its words after the first.
#[derive(Clone, Copy)]
pub(crate) enum LineParts<'b, 'a> {
    /// The world line, with its limits.
    World(&'b [&'a [u8]]),
    /// The line of a declared segment.
    Segment(&'b [&'a [u8]]),
    /// The first line of a section, which names its caller.
    Section(&'b [&'a [u8]]),
    /// A call line of the newest section.
    Call(CallParts<'b, 'a>),
    /// `again` with at most one word after it, so without a call.
    Again,
    /// None of these: there is no word, or the first word, or the call's word after `again`, is one of no kind.
    Unknown,
}

impl<'b, 'a> LineParts<'b, 'a> {
    /// The line that has these words.
    pub(crate) fn of(words: &'b [&'a [u8]]) -> LineParts<'b, 'a>
        ensures { line_in result ≡ line_fields (map (λ word. word.now) words.now) }
    {
        let Some((first, later)) = words.split_first() else {
            return LineParts::Unknown;
        };
        if is_word(first, b"world") {
            return LineParts::World(later);
        }
        if is_word(first, b"segment") {
            return LineParts::Segment(later);
        }
        if is_word(first, b"rank") {
            return LineParts::Section(later);
        }
        if is_word(first, b"again") {
            return LineParts::of_again(later);
        }
        LineParts::of_call(None, first, later)
    }

    /// The line that has these words after `again`.
    fn of_again(words: &'b [&'a [u8]]) -> LineParts<'b, 'a>
        ensures { line_in result ≡ again_line (map (λ word. word.now) words.now) }
    {
        match words {
            [tries, word, later @ ..] => LineParts::of_call(Some(tries), word, later),
            _ => LineParts::Again,
        }
    }

    /// The call line of this call's word, with the words after it, and with the word after `again` as its tries, where there is one.
    /// `Unknown` where `word` is that of no call.
    fn of_call(tries: Option<&'a [u8]>, word: &[u8], words: &'b [&'a [u8]]) -> LineParts<'b, 'a>
        ensures { line_in result ≡ call_line (option_copied tries.entry) (call_word_of word.now) (map (λ word. word.now) words.now) }
    {
        let Some(word) = CallWord::of(word) else {
            return LineParts::Unknown;
        };
        let (given, expected) = before_and_after_equals(words);
        LineParts::Call(CallParts {
            tries,
            word,
            given,
            expected,
        })
    }

    /// Whether it is a world line.
    pub(crate) fn is_world(self) -> bool
        ensures { result ≡ is_world_line (line_in self.entry) }
    {
        matches!(self, LineParts::World(_))
    }

    /// Whether it is of no kind (S3).
    pub(crate) fn is_unknown(self) -> bool
        ensures { result ≡ is_unknown (line_in self.entry) }
    {
        matches!(self, LineParts::Unknown)
    }

    /// Whether it has too few or too many words for its kind (S5).
    pub(crate) fn is_miscounted(self) -> bool
        ensures { result ≡ is_miscounted (line_in self.entry) }
    {
        match self {
            LineParts::World(words) => words.len() != 6,
            LineParts::Segment(words) => words.len() != 3,
            LineParts::Section(words) => words.len() != 3,
            LineParts::Call(call) => call.is_miscounted(),
            LineParts::Again => true,
            LineParts::Unknown => false,
        }
    }
}

/// Whether a word has exactly this spelling.
pub(crate) fn is_word(word: &[u8], spelling: &[u8]) -> bool
    ensures { result ≡ bytes_eq spelling.now word.now }
{
    spelling == word
}
