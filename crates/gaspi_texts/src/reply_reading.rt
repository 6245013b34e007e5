//! Replies read from the words behind a reply's word. None is answered where these do not spell its fields.
//!
//! `read_X_reply` reads the fields of the reply X, and `read_refusal` and the functions before it those of a refusal.

ghost use Rattle.std.specs.Prelude.{◌≡◌, map, IfOk, OnErr, true};
ghost use Rattle.std.specs.Option.{option_map};
ghost use Rattle.gaspi_types.specs.declared.replies.Reply.TheVariants.{Id, Mask};
ghost use Rattle.gaspi_texts.specs.CollectiveText.{one_field};
ghost use Rattle.gaspi_texts.specs.RefusalText.{no_field, two_fields, stage_field, refusal_of};
ghost use Rattle.gaspi_texts.specs.ReplyText.{plain_reply, value_reply, bytes_reply, list_reply, refused_reply, reply_with, holds_items};

use crate::collective_texts::{read_coll, read_field};
use crate::reply_words::{ReplyWord, read_stage};
use call_texts::{read_bytes, read_elements, read_number, read_type, read_value};
use gaspi_types::{BoxedSequence, NoMemory, Numbers, Refusal, Reply, Stage};
use std::alloc::Global;

/// This refusal, which has no field; None where there is a word.
fn read_bare(refusal: Refusal, fields: &[&[u8]]) -> Option<Refusal>
    ensures { result ≡ option_map (λ nothing. refusal) (no_field (map (λ word. word.now) fields.now)) }
{
    if fields.is_empty() {
        Some(refusal)
    } else {
        None
    }
}

/// The two numbers that the only two words spell.
fn read_two_fields(fields: &[&[u8]]) -> Option<(u32, u32)>
    ensures { result ≡ two_fields (map (λ word. word.now) fields.now) }
{
    let [first, second] = fields else {
        return None;
    };
    let first = read_value(first)?;
    let second = read_value(second)?;
    Some((first, second))
}

/// The stage with the only word.
fn read_stage_field(fields: &[&[u8]]) -> Option<Stage>
    ensures { result ≡ stage_field (map (λ word. word.now) fields.now) }
{
    let [field] = fields else {
        return None;
    };
    read_stage(field)
}

/// The refusal with this number, and with the fields that these words spell; None also where no refusal has this number.
#[tactic(auto, unfolding(crate::specs::RefusalText::refusal_of))]
fn read_refusal(number: u64, fields: &[&[u8]]) -> Option<Refusal>
    ensures { result ≡ refusal_of number (map (λ word. word.now) fields.now) }
{
    match number {
        1 => read_bare(Refusal::BadRank, fields),
        2 => read_bare(Refusal::NoSegment, fields),
        3 => read_bare(Refusal::SegmentThere, fields),
        4 => read_bare(Refusal::Unregistered, fields),
        5 => read_field(fields).map(|size| Refusal::BadRange { size }),
        6 => read_bare(Refusal::BadSize, fields),
        7 => read_bare(Refusal::BadQueue, fields),
        8 => read_two_fields(fields).map(|(count, need)| Refusal::QueueFull { count, need }),
        9 => read_field(fields).map(|rank| Refusal::QueueBroken { rank }),
        10 => read_bare(Refusal::BadNote, fields),
        11 => read_bare(Refusal::ZeroValue, fields),
        12 => read_bare(Refusal::BadAlign, fields),
        13 => read_field(fields).map(|waiting| Refusal::PassiveSize { waiting }),
        14 => read_bare(Refusal::NoGroup, fields),
        15 => read_stage_field(fields).map(|stage| Refusal::GroupStage { stage }),
        16 => read_bare(Refusal::NotMember, fields),
        17 => read_field(fields).map(|kept| Refusal::GroupMismatch { kept }),
        18 => read_field(fields).map(|thread| Refusal::ActiveCollective { thread }),
        19 => read_coll(fields).map(|kept| Refusal::ResumeOther { kept }),
        20 => read_coll(fields).map(|kept| Refusal::CollectiveMismatch { kept }),
        21 => read_bare(Refusal::BadCount, fields),
        22 => read_bare(Refusal::FloatType, fields),
        23 => read_field(fields).map(|queue| Refusal::SegmentBusy { queue }),
        24 => read_bare(Refusal::GroupsFull, fields),
        25 => read_bare(Refusal::CallerEnded, fields),
        _ => None,
    }
}

/// This reply, which has no field; None where there is a word.
fn read_plain(reply: Reply, words: &[&[u8]]) -> Option<Reply>
    ensures { result ≡ plain_reply reply (map (λ word. word.now) words.now) }
{
    if words.is_empty() { Some(reply) } else { None }
}

/// A reply with a number below 2^64.
fn read_value_reply(words: &[&[u8]]) -> Option<Reply>
    ensures { result ≡ value_reply (map (λ word. word.now) words.now) }
{
    let [word] = words else {
        return None;
    };
    let number = read_number(word)?;
    Some(Reply::Value(number))
}

/// A reply with bytes in hex.
fn read_bytes_reply(alloc: Global, words: &[&[u8]]) -> Result<Option<Reply>, NoMemory>
    ensures { IfOk result (λ reply. reply ≡ bytes_reply (map (λ word. word.now) words.now)) }
{
    let [word] = words else {
        return Ok(None);
    };
    let Some(bytes) = read_bytes(alloc, word)? else {
        return Ok(None);
    };
    Ok(Some(Reply::Bytes(bytes)))
}

/// A reply with a type and numbers of it.
fn read_list_reply(alloc: Global, words: &[&[u8]]) -> Result<Option<Reply>, NoMemory>
    ensures { IfOk result (λ reply. reply ≡ list_reply (map (λ word. word.now) words.now)) }
{
    let [word, elements @ ..] = words else {
        return Ok(None);
    };
    let Some(num_type) = read_type(word) else {
        return Ok(None);
    };
    let Some(items) = read_elements(alloc, num_type, elements)? else {
        return Ok(None);
    };
    let items = BoxedSequence::from_sequence(alloc, items)?;
    Ok(Some(Reply::List(Numbers::new(num_type, items))))
}

/// A refusal: its number and its fields.
fn read_refused_reply(words: &[&[u8]]) -> Option<Reply>
    ensures { result ≡ refused_reply (map (λ word. word.now) words.now) }
{
    let [word, fields @ ..] = words else {
        return None;
    };
    let number = read_number(word)?;
    let refusal = read_refusal(number, fields)?;
    Some(Reply::Refused(refusal))
}

/// A reply with the number of something.
fn read_id_reply(words: &[&[u8]]) -> Option<Reply>
    ensures { result ≡ option_map Id (one_field (map (λ word. word.now) words.now)) }
{
    let number = read_field(words)?;
    Some(Reply::Id(number))
}

/// A reply with a mask of ranks.
fn read_mask_reply(words: &[&[u8]]) -> Option<Reply>
    ensures { result ≡ option_map Mask (one_field (map (λ word. word.now) words.now)) }
{
    let mask = read_field(words)?;
    Some(Reply::Mask(mask))
}

/// The reply of a reply's word, with the fields that `words` spell. Only bytes and lists take memory.
pub(crate) fn reply_with(
    alloc: Global,
    kind: ReplyWord,
    words: &[&[u8]],
) -> Result<Option<Reply>, NoMemory>
    ensures ok { IfOk result (λ reply. reply ≡ reply_with kind (map (λ word. word.now) words.now)) }
    ensures memory { OnErr result (holds_items kind ≡ true) }
{
    match kind {
        ReplyWord::Done => Ok(read_plain(Reply::Done, words)),
        ReplyWord::Value => Ok(read_value_reply(words)),
        ReplyWord::Id => Ok(read_id_reply(words)),
        ReplyWord::Bytes => read_bytes_reply(alloc, words),
        ReplyWord::Mask => Ok(read_mask_reply(words)),
        ReplyWord::List => read_list_reply(alloc, words),
        ReplyWord::Timeout => Ok(read_plain(Reply::Timeout, words)),
        ReplyWord::Refused => Ok(read_refused_reply(words)),
    }
}
