//! Texts of replies, both ways: one form is written, and others are read too.

ghost use Rattle.std.specs.Prelude.{◌≡◌, ◌++◌, ◌∷◌, map, take, length, OnOk, OnErr, IfOk, codes, true};
ghost use Rattle.std.specs.Fmt.{decimal};
ghost use Rattle.std.specs.List.{join_with_byte};
ghost use Rattle.gaspi_types.specs.Replies.{refusal_number};
ghost use Rattle.gaspi_texts.specs.RefusalText.{field_words};
ghost use Rattle.gaspi_texts.specs.ReplyText.{words_of_reply, reply_text, reply_of, takes_memory, is_reply_numeric};
ghost use Rattle.call_texts.specs.Words.{words_of};
ghost use Rattle.call_texts.specs.Written.{spaced};

use crate::collective_texts::append_coll;
use crate::reply_reading::reply_with;
use crate::reply_words::{ReplyWord, stage_word};
use call_texts::{
    append_bytes, append_elements, append_line, append_numbers, append_word, type_word, words,
};
use gaspi_types::{Bytes, NoMemory, Refusal, RefusalFields, Reply};
use std::alloc::Global;

/// Whether a reply's words are its own and numbers in decimal alone.
pub(crate) fn is_reply_numeric(reply: &Reply) -> bool
    ensures { result ≡ is_reply_numeric reply.now }
{
    !matches!(reply, Reply::Bytes(_) | Reply::List(_) | Reply::Refused(_))
}

/// Adds the fields of a refusal, each behind a space. After `NoMemory` the text still begins with what it had.
fn append_fields(text: &mut Bytes, refusal: Refusal) -> Result<(), NoMemory>
    ensures ok { OnOk result (text.new ≡ text.old ++ spaced (field_words refusal)) }
    ensures err { OnErr result (take (length text.old) text.new ≡ text.old) }
{
    match refusal.parts().1 {
        RefusalFields::Nothing => Ok(()),
        RefusalFields::OneNumber(n) => append_numbers(text, &[u64::from(n)]),
        RefusalFields::TwoNumbers(m, n) => append_numbers(text, &[u64::from(m), u64::from(n)]),
        RefusalFields::OneStage(stage) => append_word(text, stage_word(stage)),
        RefusalFields::OneCollective(kept) => append_coll(text, kept),
    }
}

/// Adds the text of a reply. After `NoMemory` the text still begins with what it had.
#[tactic(auto, unfolding(crate::specs::ReplyText::words_of_reply))]
fn append_reply(text: &mut Bytes, reply: &Reply) -> Result<(), NoMemory>
    ensures ok { OnOk result (text.new ≡ text.old ++ reply_text reply.now) }
    ensures err { OnErr result (take (length text.old) text.new ≡ text.old) }
{
    match reply {
        Reply::Done => text.append(b"done"),
        Reply::Value(n) => append_line(text, b"value", &[*n]),
        Reply::Id(n) => append_line(text, b"id", &[u64::from(*n)]),
        Reply::Bytes(bytes) => {
            text.append(b"bytes")?;
            append_bytes(text, bytes.as_slice())
        }
        Reply::Mask(mask) => append_line(text, b"mask", &[u64::from(*mask)]),
        Reply::List(numbers) => {
            text.append(b"list")?;
            append_word(text, type_word(numbers.num_type()))?;
            append_elements(text, numbers.items())
        }
        Reply::Timeout => text.append(b"timeout"),
        Reply::Refused(refusal) => {
            append_line(text, b"refused", &[u64::from(refusal.number())])?;
            append_fields(text, *refusal)
        }
    }
}

/// Adds the text of a reply, in the one form that is written. After `NoMemory` nothing has changed.
pub fn write_reply(text: &mut Bytes, reply: &Reply) -> Result<(), NoMemory>
    ensures ok { OnOk result (text.new ≡ text.old ++ reply_text reply.now) }
    ensures err { OnErr result (text.new ≡ text.old) }
{
    let start = text.len();
    let written = append_reply(text, reply);
    if written.is_err() {
        text.truncate(start);
    }
    written
}

/// The reply that words spell, or None where they spell none. Numbers may have leading zeros, bytes digits of either case, and
/// zero a sign. Only bytes and lists take memory.
#[tactic(auto, unfolding(crate::specs::ReplyText::reply_of))]
pub fn read_reply_words(alloc: Global, words: &[&[u8]]) -> Result<Option<Reply>, NoMemory>
    ensures ok { IfOk result (λ reply. reply ≡ reply_of (map (λ word. word.now) words.now)) }
    ensures memory { OnErr result (takes_memory (map (λ word. word.now) words.now) ≡ true) }
{
    let [word, arguments @ ..] = words else {
        return Ok(None);
    };
    let Some(kind) = ReplyWord::of(word) else {
        return Ok(None);
    };
    reply_with(alloc, kind, arguments)
}

/// The reply that the words of a text spell, or None; spaces and tabs separate words.
pub fn read_reply(alloc: Global, text: &[u8]) -> Result<Option<Reply>, NoMemory>
    ensures { IfOk result (λ reply. reply ≡ reply_of (words_of text.now)) }
{
    let words = words(alloc, text)?;
    read_reply_words(alloc, words.as_slice())
}
