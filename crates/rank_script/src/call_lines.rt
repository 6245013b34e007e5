//! Call lines: their words by what they are for, and what these give: the tries, the call, the timeout and the expected reply. `again`
//! and a number may come before a call, and `=` and a reply after it.

ghost use Rattle.std.specs.Prelude.{◌≡◌, ◌≢◌, map, IfOk, IfSome};
ghost use Rattle.std.specs.List.{position};
ghost use Rattle.std.specs.Option.{option_map};
ghost use Rattle.gaspi_types.specs.declared.calls.Call.TheVariants.{End};
ghost use Rattle.rank_script.specs.WorldText.{is_equals_word, before_equals, after_equals, last_word, is_miscounted_call, line_tries, line_arguments, line_call, line_timeout, line_expected};
ghost use Rattle.rank_script.specs.CutLines.{call_in};

use crate::arguments::read_looks;
use crate::expected::ExpectedReply;
use call_texts::{read_arguments, words_spell_no_end};
use gaspi_texts::{CallWord, read_number, read_reply_words};
use gaspi_types::{Call, NoMemory};
use std::alloc::Global;

/// The words of a call line, by what they are for.
#[derive(Clone, Copy)]
pub(crate) struct CallParts<'b, 'a> {
    /// The word after `again`; none without `again`.
    pub(crate) tries: Option<&'a [u8]>,
    /// The call's word.
    pub(crate) word: CallWord,
    /// The call's fields, and its timeout where it takes one: the words up to the first `=`.
    pub(crate) given: &'b [&'a [u8]],
    /// The words after the first `=`; none where there is no `=`.
    pub(crate) expected: Option<&'b [&'a [u8]]>,
}

impl<'b, 'a> CallParts<'b, 'a> {
    /// Whether there are too few or too many fields, with the timeout, or no word after `=` (S5). Where the count of a list is no
    /// number, the fields are not counted.
    pub(crate) fn is_miscounted(self) -> bool
        ensures { result ≡ is_miscounted_call (call_in self.entry) }
    {
        self.word.has_count(self.given) == Some(false)
            || self.expected.is_some_and(|reply| reply.is_empty())
    }

    /// How often the call is made at most: once without `again`. None where the word after `again` is no number (S6).
    pub(crate) fn read_tries(self) -> Option<u64>
        ensures { result ≡ line_tries (call_in self.entry) }
    {
        match self.tries {
            Some(word) => read_number(word),
            None => Some(1),
        }
    }

    /// The call's fields alone: the words given, less the last of a call that takes a timeout.
    fn arguments(self) -> &'b [&'a [u8]]
        ensures { map (λ word. word.now) result.now ≡ line_arguments (call_in self.entry) }
    {
        if !self.word.takes_timeout() {
            return self.given;
        }
        &self.given[..self.given.len().saturating_sub(1)]
    }

    /// The call, without its timeout, and never an `end`. None where its fields spell no call (S6). The only failure is out of memory.
    pub(crate) fn read_call(self, alloc: Global) -> Result<Option<Call>, NoMemory>
        ensures exact { IfOk result (λ call. call ≡ line_call (call_in self.entry)) }
        ensures plain { IfOk result (λ call. IfSome call (λ made. made ≢ End)) }
    {
        words_spell_no_end();
        read_arguments(alloc, self.word, self.arguments())
    }

    /// How many looks the line allows: one where its call takes no timeout, an inner none for looks without end. The outer none where
    /// the last word is no timeout (S6).
    pub(crate) fn read_looks(self) -> Option<Option<u64>>
        ensures { result ≡ line_timeout (call_in self.entry) }
    {
        if self.word.takes_timeout() {
            read_looks(last_word(self.given))
        } else {
            Some(Some(1))
        }
    }

    /// The reply that the line expects, or an inner none where it expects none. The outer none where the words after `=` are no reply
    /// (S6). The only failure is out of memory.
    pub(crate) fn read_expected(
        self,
        alloc: Global,
    ) -> Result<Option<Option<ExpectedReply>>, NoMemory>
        ensures { IfOk result (λ expected. expected ≡ line_expected (call_in self.entry)) }
    {
        let Some(reply) = self.expected else {
            return Ok(Some(None));
        };
        match read_reply_words(alloc, reply)? {
            Some(reply) => Ok(Some(Some(ExpectedReply::new(alloc, reply)?))),
            None => Ok(None),
        }
    }
}

/// The last of the words; one without bytes where there is none.
fn last_word<'a>(words: &[&'a [u8]]) -> &'a [u8]
    ensures { result.now ≡ last_word (map (λ word. word.now) words.now) }
{
    match words.split_last() {
        Some((last, _)) => last,
        None => &[],
    }
}

/// The words before the first `=`, and those after it; none where there is no `=`.
pub(crate) fn before_and_after_equals<'b, 'a>(
    words: &'b [&'a [u8]],
) -> (&'b [&'a [u8]], Option<&'b [&'a [u8]]>)
    ensures before { map (λ word. word.now) result.0.now ≡ before_equals (map (λ word. word.now) words.now) }
    ensures after { option_map (λ reply. map (λ word. word.now) reply.now) result.1 ≡ after_equals (map (λ word. word.now) words.now) }
{
    match equals_in(words) {
        Some(place) => (&words[..place], Some(&words[place + 1..])),
        None => (words, None),
    }
}

/// The index of the first word that is `=`.
fn equals_in(words: &[&[u8]]) -> Option<usize>
    ensures { result ≡ position (λ word. is_equals_word word.now) words.now }
{
    words.iter().position(|word| is_equals(word))
}

/// Whether a word is `=`.
fn is_equals(word: &[u8]) -> bool
    ensures { result ≡ is_equals_word word.now }
{
    matches!(word, [b'='])
}
