//! Calls read from a call's word and the words behind it, from words alone, or from a text. None is answered where they spell
//! no call.

ghost use Rattle.std.specs.Prelude.{◌≡◌, map, IfOk, OnErr, true};
ghost use Rattle.std.specs.Option.{option_map};
ghost use Rattle.call_texts.specs.CallText.{call_taken, holds_list, call_by, call_of, recorded_call_of, takes_memory, call_of_text};
ghost use Rattle.call_texts.specs.FieldWords.{words_in};

use crate::blanks::words;
use crate::call_fields::{
    read_alloc_call, read_allreduce_call, read_barrier_call, read_commit_call,
    read_compare_swap_call, read_create_call, read_delete_call, read_fetch_add_call,
    read_group_add_call, read_group_delete_call, read_load_call, read_notify_call,
    read_passive_receive_call, read_passive_send_call, read_purge_call, read_qsize_call,
    read_read_call, read_read_list_call, read_read_list_notify_call, read_read_notify_call,
    read_register_call, read_reset_call, read_store_call, read_wait_call, read_waitsome_call,
    read_write_call, read_write_list_call, read_write_list_notify_call, read_write_notify_call,
};
use crate::call_words::CallWord;
use crate::field_words::FieldWords;
use gaspi_types::{Call, NoMemory};
use std::alloc::Global;

/// The call with this word, and with the fields that the words in front spell, which are removed; None where these do not spell
/// its fields. Only bytes, items and elements take memory.
fn read_call_from(
    alloc: Global,
    word: CallWord,
    fields: &mut FieldWords,
) -> Result<Option<Call>, NoMemory>
    ensures ok { IfOk result (λ call. option_map (λ c. (c, words_in fields.new)) call ≡ call_taken word (words_in fields.old)) }
    ensures memory { OnErr result (holds_list word ≡ true) }
{
    match word {
        CallWord::Alloc => Ok(read_alloc_call(fields)),
        CallWord::Register => Ok(read_register_call(fields)),
        CallWord::Delete => Ok(read_delete_call(fields)),
        CallWord::Store => read_store_call(alloc, fields),
        CallWord::Load => Ok(read_load_call(fields)),
        CallWord::Write => Ok(read_write_call(fields)),
        CallWord::Read => Ok(read_read_call(fields)),
        CallWord::Notify => Ok(read_notify_call(fields)),
        CallWord::WriteNotify => Ok(read_write_notify_call(fields)),
        CallWord::ReadNotify => Ok(read_read_notify_call(fields)),
        CallWord::WriteList => read_write_list_call(alloc, fields),
        CallWord::WriteListNotify => read_write_list_notify_call(alloc, fields),
        CallWord::ReadList => read_read_list_call(alloc, fields),
        CallWord::ReadListNotify => read_read_list_notify_call(alloc, fields),
        CallWord::Wait => Ok(read_wait_call(fields)),
        CallWord::Purge => Ok(read_purge_call(fields)),
        CallWord::Qsize => Ok(read_qsize_call(fields)),
        CallWord::Waitsome => Ok(read_waitsome_call(fields)),
        CallWord::Reset => Ok(read_reset_call(fields)),
        CallWord::PassiveSend => Ok(read_passive_send_call(fields)),
        CallWord::PassiveReceive => Ok(read_passive_receive_call(fields)),
        CallWord::FetchAdd => Ok(read_fetch_add_call(fields)),
        CallWord::CompareSwap => Ok(read_compare_swap_call(fields)),
        CallWord::GroupCreate => Ok(Some(Call::GroupCreate)),
        CallWord::GroupAdd => Ok(read_group_add_call(fields)),
        CallWord::GroupDelete => Ok(read_group_delete_call(fields)),
        CallWord::Commit => Ok(read_commit_call(fields)),
        CallWord::Barrier => Ok(read_barrier_call(fields)),
        CallWord::Allreduce => read_allreduce_call(alloc, fields),
        CallWord::Create => Ok(read_create_call(fields)),
        CallWord::State => Ok(Some(Call::State)),
    }
}

/// The call with this word, whose fields these words spell, exactly; None where they do not, or where a word is left. A timeout
/// is no field. Only bytes, items and elements take memory.
pub fn read_arguments(
    alloc: Global,
    word: CallWord,
    arguments: &[&[u8]],
) -> Result<Option<Call>, NoMemory>
    ensures ok { IfOk result (λ call. call ≡ call_by word (map (λ word. word.now) arguments.now)) }
    ensures memory { OnErr result (holds_list word ≡ true) }
{
    let mut fields = FieldWords::new(arguments);
    let Some(call) = read_call_from(alloc, word, &mut fields)? else {
        return Ok(None);
    };
    if fields.is_empty() {
        Ok(Some(call))
    } else {
        Ok(None)
    }
}

/// The call that words spell, a call's word and exactly its fields, without a timeout; else None. Only bytes, items and
/// elements take memory.
#[tactic(auto, unfolding(crate::specs::CallText::call_of))]
pub fn read_call_words(alloc: Global, words: &[&[u8]]) -> Result<Option<Call>, NoMemory>
    ensures ok { IfOk result (λ call. call ≡ call_of (map (λ word. word.now) words.now)) }
    ensures memory { OnErr result (takes_memory (map (λ word. word.now) words.now) ≡ true) }
{
    let [word, arguments @ ..] = words else {
        return Ok(None);
    };
    match CallWord::of(word) {
        Some(word) => read_arguments(alloc, word, arguments),
        None => Ok(None),
    }
}

/// The same, where `end` also spells a call: the end of a caller, which no script has, but a journal.
#[tactic(auto, unfolding(crate::specs::CallText::recorded_call_of))]
pub fn read_recorded_call(alloc: Global, words: &[&[u8]]) -> Result<Option<Call>, NoMemory>
    ensures { IfOk result (λ call. call ≡ recorded_call_of (map (λ word. word.now) words.now)) }
{
    if let [word] = words {
        if *word == b"end".as_slice() {
            return Ok(Some(Call::End));
        }
    }
    read_call_words(alloc, words)
}

/// The call that the words of a text spell, the end of a caller included; else None.
pub fn read_call(alloc: Global, text: &[u8]) -> Result<Option<Call>, NoMemory>
    ensures { IfOk result (λ call. call ≡ call_of_text text.now) }
{
    let words = words(alloc, text)?;
    read_recorded_call(alloc, words.as_slice())
}
