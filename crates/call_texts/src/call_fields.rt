//! The calls with fields, each made of the fields of its form, for `call_reading.rt`.
//!
//! `read_X_call` reads the fields of the call X from the words in front, in the order of its form, and removes these words. It
//! answers None where a word does not spell its field; then, and after `NoMemory`, what words remain is not said. Only the
//! calls with bytes, items or elements take memory.
#![tactic(auto, unfolding(crate::specs::CallText::call_taken))]

ghost use Rattle.std.specs.Prelude.{◌≡◌, IfOk};
ghost use Rattle.std.specs.Option.{option_map};
ghost use Rattle.call_texts.specs.CallText.{call_taken};
ghost use Rattle.call_texts.specs.FieldWords.{words_in};
ghost use Rattle.call_texts.specs.declared.call_words.CallWord.TheVariants as call_words;

use crate::field_words::FieldWords;
use gaspi_types::{
    Alloc, Allreduce, Barrier, Call, Commit, CompareSwap, Create, Delete, FetchAdd, GroupAdd,
    GroupDelete, Load, NoMemory, Notify, PassiveReceive, PassiveSend, Purge, Qsize, Read, ReadList,
    ReadListNotify, ReadNotify, Register, Reset, Store, Wait, Waitsome, Write, WriteList,
    WriteListNotify, WriteNotify,
};
use std::alloc::Global;

/// Reads a call `alloc` from the words in front.
pub(crate) fn read_alloc_call(fields: &mut FieldWords) -> Option<Call>
    ensures { option_map (λ call. (call, words_in fields.new)) result ≡ call_taken call_words.Alloc (words_in fields.old) }
{
    Some(Call::Alloc(Alloc {
        seg: fields.number()?,
        size: fields.number()?,
    }))
}

/// Reads a call `register` from the words in front.
pub(crate) fn read_register_call(fields: &mut FieldWords) -> Option<Call>
    ensures { option_map (λ call. (call, words_in fields.new)) result ≡ call_taken call_words.Register (words_in fields.old) }
{
    Some(Call::Register(Register {
        seg: fields.number()?,
        rank: fields.number()?,
    }))
}

/// Reads a call `delete` from the words in front.
pub(crate) fn read_delete_call(fields: &mut FieldWords) -> Option<Call>
    ensures { option_map (λ call. (call, words_in fields.new)) result ≡ call_taken call_words.Delete (words_in fields.old) }
{
    Some(Call::Delete(Delete {
        seg: fields.number()?,
    }))
}

/// Reads a call `store` from the words in front, and takes memory for its bytes.
pub(crate) fn read_store_call(
    alloc: Global,
    fields: &mut FieldWords,
) -> Result<Option<Call>, NoMemory>
    ensures { IfOk result (λ call. option_map (λ c. (c, words_in fields.new)) call ≡ call_taken call_words.Store (words_in fields.old)) }
{
    let Some(seg) = fields.number() else {
        return Ok(None);
    };
    let Some(offset) = fields.number() else {
        return Ok(None);
    };
    let Some(bytes) = fields.bytes(alloc)? else {
        return Ok(None);
    };
    Ok(Some(Call::Store(Store { seg, offset, bytes })))
}

/// Reads a call `load` from the words in front.
pub(crate) fn read_load_call(fields: &mut FieldWords) -> Option<Call>
    ensures { option_map (λ call. (call, words_in fields.new)) result ≡ call_taken call_words.Load (words_in fields.old) }
{
    Some(Call::Load(Load {
        seg: fields.number()?,
        offset: fields.number()?,
        size: fields.number()?,
    }))
}

/// Reads a call `write` from the words in front.
pub(crate) fn read_write_call(fields: &mut FieldWords) -> Option<Call>
    ensures { option_map (λ call. (call, words_in fields.new)) result ≡ call_taken call_words.Write (words_in fields.old) }
{
    Some(Call::Write(Write {
        seg: fields.number()?,
        offset: fields.number()?,
        rank: fields.number()?,
        rseg: fields.number()?,
        roffset: fields.number()?,
        size: fields.number()?,
        queue: fields.number()?,
    }))
}

/// Reads a call `read` from the words in front.
pub(crate) fn read_read_call(fields: &mut FieldWords) -> Option<Call>
    ensures { option_map (λ call. (call, words_in fields.new)) result ≡ call_taken call_words.Read (words_in fields.old) }
{
    Some(Call::Read(Read {
        seg: fields.number()?,
        offset: fields.number()?,
        rank: fields.number()?,
        rseg: fields.number()?,
        roffset: fields.number()?,
        size: fields.number()?,
        queue: fields.number()?,
    }))
}

/// Reads a call `notify` from the words in front.
pub(crate) fn read_notify_call(fields: &mut FieldWords) -> Option<Call>
    ensures { option_map (λ call. (call, words_in fields.new)) result ≡ call_taken call_words.Notify (words_in fields.old) }
{
    Some(Call::Notify(Notify {
        rseg: fields.number()?,
        rank: fields.number()?,
        note: fields.number()?,
        value: fields.value()?,
        queue: fields.number()?,
    }))
}

/// Reads a call `write_notify` from the words in front.
pub(crate) fn read_write_notify_call(fields: &mut FieldWords) -> Option<Call>
    ensures { option_map (λ call. (call, words_in fields.new)) result ≡ call_taken call_words.WriteNotify (words_in fields.old) }
{
    Some(Call::WriteNotify(WriteNotify {
        seg: fields.number()?,
        offset: fields.number()?,
        rank: fields.number()?,
        rseg: fields.number()?,
        roffset: fields.number()?,
        size: fields.number()?,
        note: fields.number()?,
        value: fields.value()?,
        queue: fields.number()?,
    }))
}

/// Reads a call `read_notify` from the words in front.
pub(crate) fn read_read_notify_call(fields: &mut FieldWords) -> Option<Call>
    ensures { option_map (λ call. (call, words_in fields.new)) result ≡ call_taken call_words.ReadNotify (words_in fields.old) }
{
    Some(Call::ReadNotify(ReadNotify {
        seg: fields.number()?,
        offset: fields.number()?,
        rank: fields.number()?,
        rseg: fields.number()?,
        roffset: fields.number()?,
        size: fields.number()?,
        note: fields.number()?,
        queue: fields.number()?,
    }))
}

/// Reads a call `write_list` from the words in front, and takes memory for its items.
pub(crate) fn read_write_list_call(
    alloc: Global,
    fields: &mut FieldWords,
) -> Result<Option<Call>, NoMemory>
    ensures { IfOk result (λ call. option_map (λ c. (c, words_in fields.new)) call ≡ call_taken call_words.WriteList (words_in fields.old)) }
{
    let Some(rank) = fields.number() else {
        return Ok(None);
    };
    let Some(queue) = fields.number() else {
        return Ok(None);
    };
    let Some(items) = fields.items(alloc)? else {
        return Ok(None);
    };
    Ok(Some(Call::WriteList(WriteList { rank, queue, items })))
}

/// Reads a call `write_list_notify` from the words in front, and takes memory for its items.
pub(crate) fn read_write_list_notify_call(
    alloc: Global,
    fields: &mut FieldWords,
) -> Result<Option<Call>, NoMemory>
    ensures { IfOk result (λ call. option_map (λ c. (c, words_in fields.new)) call ≡ call_taken call_words.WriteListNotify (words_in fields.old)) }
{
    let Some(rank) = fields.number() else {
        return Ok(None);
    };
    let Some(queue) = fields.number() else {
        return Ok(None);
    };
    let Some(nseg) = fields.number() else {
        return Ok(None);
    };
    let Some(note) = fields.number() else {
        return Ok(None);
    };
    let Some(value) = fields.value() else {
        return Ok(None);
    };
    let Some(items) = fields.items(alloc)? else {
        return Ok(None);
    };
    Ok(Some(Call::WriteListNotify(WriteListNotify {
        rank,
        queue,
        nseg,
        note,
        value,
        items,
    })))
}

/// Reads a call `read_list` from the words in front, and takes memory for its items.
pub(crate) fn read_read_list_call(
    alloc: Global,
    fields: &mut FieldWords,
) -> Result<Option<Call>, NoMemory>
    ensures { IfOk result (λ call. option_map (λ c. (c, words_in fields.new)) call ≡ call_taken call_words.ReadList (words_in fields.old)) }
{
    let Some(rank) = fields.number() else {
        return Ok(None);
    };
    let Some(queue) = fields.number() else {
        return Ok(None);
    };
    let Some(items) = fields.items(alloc)? else {
        return Ok(None);
    };
    Ok(Some(Call::ReadList(ReadList { rank, queue, items })))
}

/// Reads a call `read_list_notify` from the words in front, and takes memory for its items.
pub(crate) fn read_read_list_notify_call(
    alloc: Global,
    fields: &mut FieldWords,
) -> Result<Option<Call>, NoMemory>
    ensures { IfOk result (λ call. option_map (λ c. (c, words_in fields.new)) call ≡ call_taken call_words.ReadListNotify (words_in fields.old)) }
{
    let Some(rank) = fields.number() else {
        return Ok(None);
    };
    let Some(queue) = fields.number() else {
        return Ok(None);
    };
    let Some(nseg) = fields.number() else {
        return Ok(None);
    };
    let Some(note) = fields.number() else {
        return Ok(None);
    };
    let Some(items) = fields.items(alloc)? else {
        return Ok(None);
    };
    Ok(Some(Call::ReadListNotify(ReadListNotify {
        rank,
        queue,
        nseg,
        note,
        items,
    })))
}

/// Reads a call `wait` from the words in front.
pub(crate) fn read_wait_call(fields: &mut FieldWords) -> Option<Call>
    ensures { option_map (λ call. (call, words_in fields.new)) result ≡ call_taken call_words.Wait (words_in fields.old) }
{
    Some(Call::Wait(Wait {
        queue: fields.number()?,
    }))
}

/// Reads a call `purge` from the words in front.
pub(crate) fn read_purge_call(fields: &mut FieldWords) -> Option<Call>
    ensures { option_map (λ call. (call, words_in fields.new)) result ≡ call_taken call_words.Purge (words_in fields.old) }
{
    Some(Call::Purge(Purge {
        queue: fields.number()?,
    }))
}

/// Reads a call `qsize` from the words in front.
pub(crate) fn read_qsize_call(fields: &mut FieldWords) -> Option<Call>
    ensures { option_map (λ call. (call, words_in fields.new)) result ≡ call_taken call_words.Qsize (words_in fields.old) }
{
    Some(Call::Qsize(Qsize {
        queue: fields.number()?,
    }))
}

/// Reads a call `waitsome` from the words in front.
pub(crate) fn read_waitsome_call(fields: &mut FieldWords) -> Option<Call>
    ensures { option_map (λ call. (call, words_in fields.new)) result ≡ call_taken call_words.Waitsome (words_in fields.old) }
{
    Some(Call::Waitsome(Waitsome {
        seg: fields.number()?,
        begin: fields.number()?,
        num: fields.number()?,
    }))
}

/// Reads a call `reset` from the words in front.
pub(crate) fn read_reset_call(fields: &mut FieldWords) -> Option<Call>
    ensures { option_map (λ call. (call, words_in fields.new)) result ≡ call_taken call_words.Reset (words_in fields.old) }
{
    Some(Call::Reset(Reset {
        seg: fields.number()?,
        note: fields.number()?,
    }))
}

/// Reads a call `passive_send` from the words in front.
pub(crate) fn read_passive_send_call(fields: &mut FieldWords) -> Option<Call>
    ensures { option_map (λ call. (call, words_in fields.new)) result ≡ call_taken call_words.PassiveSend (words_in fields.old) }
{
    Some(Call::PassiveSend(PassiveSend {
        seg: fields.number()?,
        offset: fields.number()?,
        rank: fields.number()?,
        size: fields.number()?,
    }))
}

/// Reads a call `passive_receive` from the words in front.
pub(crate) fn read_passive_receive_call(fields: &mut FieldWords) -> Option<Call>
    ensures { option_map (λ call. (call, words_in fields.new)) result ≡ call_taken call_words.PassiveReceive (words_in fields.old) }
{
    Some(Call::PassiveReceive(PassiveReceive {
        seg: fields.number()?,
        offset: fields.number()?,
        size: fields.number()?,
    }))
}

/// Reads a call `fetch_add` from the words in front.
pub(crate) fn read_fetch_add_call(fields: &mut FieldWords) -> Option<Call>
    ensures { option_map (λ call. (call, words_in fields.new)) result ≡ call_taken call_words.FetchAdd (words_in fields.old) }
{
    Some(Call::FetchAdd(FetchAdd {
        seg: fields.number()?,
        offset: fields.number()?,
        rank: fields.number()?,
        value: fields.number()?,
    }))
}

/// Reads a call `compare_swap` from the words in front.
pub(crate) fn read_compare_swap_call(fields: &mut FieldWords) -> Option<Call>
    ensures { option_map (λ call. (call, words_in fields.new)) result ≡ call_taken call_words.CompareSwap (words_in fields.old) }
{
    Some(Call::CompareSwap(CompareSwap {
        seg: fields.number()?,
        offset: fields.number()?,
        rank: fields.number()?,
        comparator: fields.number()?,
        new: fields.number()?,
    }))
}

/// Reads a call `group_add` from the words in front.
pub(crate) fn read_group_add_call(fields: &mut FieldWords) -> Option<Call>
    ensures { option_map (λ call. (call, words_in fields.new)) result ≡ call_taken call_words.GroupAdd (words_in fields.old) }
{
    Some(Call::GroupAdd(GroupAdd {
        group: fields.number()?,
        rank: fields.number()?,
    }))
}

/// Reads a call `group_delete` from the words in front.
pub(crate) fn read_group_delete_call(fields: &mut FieldWords) -> Option<Call>
    ensures { option_map (λ call. (call, words_in fields.new)) result ≡ call_taken call_words.GroupDelete (words_in fields.old) }
{
    Some(Call::GroupDelete(GroupDelete {
        group: fields.number()?,
    }))
}

/// Reads a call `commit` from the words in front.
pub(crate) fn read_commit_call(fields: &mut FieldWords) -> Option<Call>
    ensures { option_map (λ call. (call, words_in fields.new)) result ≡ call_taken call_words.Commit (words_in fields.old) }
{
    Some(Call::Commit(Commit {
        group: fields.number()?,
    }))
}

/// Reads a call `barrier` from the words in front.
pub(crate) fn read_barrier_call(fields: &mut FieldWords) -> Option<Call>
    ensures { option_map (λ call. (call, words_in fields.new)) result ≡ call_taken call_words.Barrier (words_in fields.old) }
{
    Some(Call::Barrier(Barrier {
        group: fields.number()?,
    }))
}

/// Reads a call `allreduce` from the words in front, and takes memory for its elements.
pub(crate) fn read_allreduce_call(
    alloc: Global,
    fields: &mut FieldWords,
) -> Result<Option<Call>, NoMemory>
    ensures { IfOk result (λ call. option_map (λ c. (c, words_in fields.new)) call ≡ call_taken call_words.Allreduce (words_in fields.old)) }
{
    let Some(group) = fields.number() else {
        return Ok(None);
    };
    let Some(op) = fields.operation() else {
        return Ok(None);
    };
    let Some(values) = fields.elements(alloc)? else {
        return Ok(None);
    };
    Ok(Some(Call::Allreduce(Allreduce { group, op, values })))
}

/// Reads a call `create` from the words in front.
pub(crate) fn read_create_call(fields: &mut FieldWords) -> Option<Call>
    ensures { option_map (λ call. (call, words_in fields.new)) result ≡ call_taken call_words.Create (words_in fields.old) }
{
    Some(Call::Create(Create {
        seg: fields.number()?,
        size: fields.number()?,
        group: fields.number()?,
    }))
}
