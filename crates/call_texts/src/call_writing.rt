//! Texts of calls, in the one form that is written.

ghost use Rattle.std.specs.Prelude.{◌≡◌, ◌++◌, take, length, OnOk, OnErr};
ghost use Rattle.call_texts.specs.CallText.{call_text, is_call_numeric};
ghost use Rattle.gaspi_types.specs.declared.calls.Call.TheVariants as calls;

use crate::call_words::CallWord;
use crate::elements::{append_typed, op_word};
use crate::words_written::{append_bytes, append_line, append_list, append_word};
use gaspi_types::{Allreduce, Bytes, Call, NoMemory};

/// Whether each word of a call, behind its own, is a number in decimal: not those of bytes, an operation and elements.
pub fn is_call_numeric(call: &Call) -> bool
    ensures { result ≡ is_call_numeric call.now }
{
    !matches!(call, Call::Store(_) | Call::Allreduce(_))
}

/// Adds the text of an allreduce, for `append_call`. After `NoMemory` the text still begins with what it had.
fn append_allreduce(text: &mut Bytes, call: &Allreduce) -> Result<(), NoMemory>
    ensures ok { OnOk result (text.new ≡ text.old ++ call_text (calls.Allreduce call.now)) }
    ensures err { OnErr result (take (length text.old) text.new ≡ text.old) }
{
    append_line(text, CallWord::Allreduce.spelling(), &[call.group])?;
    append_word(text, op_word(call.op))?;
    append_typed(text, &call.values)
}

/// Adds the text of a call. After `NoMemory` the text still begins with what it had.
fn append_call(text: &mut Bytes, call: &Call) -> Result<(), NoMemory>
    ensures ok { OnOk result (text.new ≡ text.old ++ call_text call.now) }
    ensures err { OnErr result (take (length text.old) text.new ≡ text.old) }
{
    match call {
        Call::Alloc(call) => append_line(text, CallWord::Alloc.spelling(), &[call.seg, call.size]),
        Call::Register(call) => append_line(
            text,
            CallWord::Register.spelling(),
            &[call.seg, call.rank],
        ),
        Call::Delete(call) => append_line(text, CallWord::Delete.spelling(), &[call.seg]),
        Call::Store(call) => {
            append_line(text, CallWord::Store.spelling(), &[call.seg, call.offset])?;
            append_bytes(text, call.bytes.as_slice())
        }
        Call::Load(call) => append_line(
            text,
            CallWord::Load.spelling(),
            &[call.seg, call.offset, call.size],
        ),
        Call::Write(call) => append_line(
            text,
            CallWord::Write.spelling(),
            &[
                call.seg,
                call.offset,
                call.rank,
                call.rseg,
                call.roffset,
                call.size,
                call.queue,
            ],
        ),
        Call::Read(call) => append_line(
            text,
            CallWord::Read.spelling(),
            &[
                call.seg,
                call.offset,
                call.rank,
                call.rseg,
                call.roffset,
                call.size,
                call.queue,
            ],
        ),
        Call::Notify(call) => append_line(
            text,
            CallWord::Notify.spelling(),
            &[
                call.rseg,
                call.rank,
                call.note,
                u64::from(call.value),
                call.queue,
            ],
        ),
        Call::WriteNotify(call) => append_line(
            text,
            CallWord::WriteNotify.spelling(),
            &[
                call.seg,
                call.offset,
                call.rank,
                call.rseg,
                call.roffset,
                call.size,
                call.note,
                u64::from(call.value),
                call.queue,
            ],
        ),
        Call::ReadNotify(call) => append_line(
            text,
            CallWord::ReadNotify.spelling(),
            &[
                call.seg,
                call.offset,
                call.rank,
                call.rseg,
                call.roffset,
                call.size,
                call.note,
                call.queue,
            ],
        ),
        Call::WriteList(call) => append_list(
            text,
            CallWord::WriteList.spelling(),
            &[call.rank, call.queue],
            call.items.as_slice(),
        ),
        Call::WriteListNotify(call) => append_list(
            text,
            CallWord::WriteListNotify.spelling(),
            &[
                call.rank,
                call.queue,
                call.nseg,
                call.note,
                u64::from(call.value),
            ],
            call.items.as_slice(),
        ),
        Call::ReadList(call) => append_list(
            text,
            CallWord::ReadList.spelling(),
            &[call.rank, call.queue],
            call.items.as_slice(),
        ),
        Call::ReadListNotify(call) => append_list(
            text,
            CallWord::ReadListNotify.spelling(),
            &[call.rank, call.queue, call.nseg, call.note],
            call.items.as_slice(),
        ),
        Call::Wait(call) => append_line(text, CallWord::Wait.spelling(), &[call.queue]),
        Call::Purge(call) => append_line(text, CallWord::Purge.spelling(), &[call.queue]),
        Call::Qsize(call) => append_line(text, CallWord::Qsize.spelling(), &[call.queue]),
        Call::Waitsome(call) => append_line(
            text,
            CallWord::Waitsome.spelling(),
            &[call.seg, call.begin, call.num],
        ),
        Call::Reset(call) => append_line(text, CallWord::Reset.spelling(), &[call.seg, call.note]),
        Call::PassiveSend(call) => append_line(
            text,
            CallWord::PassiveSend.spelling(),
            &[call.seg, call.offset, call.rank, call.size],
        ),
        Call::PassiveReceive(call) => append_line(
            text,
            CallWord::PassiveReceive.spelling(),
            &[call.seg, call.offset, call.size],
        ),
        Call::FetchAdd(call) => append_line(
            text,
            CallWord::FetchAdd.spelling(),
            &[call.seg, call.offset, call.rank, call.value],
        ),
        Call::CompareSwap(call) => append_line(
            text,
            CallWord::CompareSwap.spelling(),
            &[call.seg, call.offset, call.rank, call.comparator, call.new],
        ),
        Call::GroupCreate => text.append(CallWord::GroupCreate.spelling()),
        Call::GroupAdd(call) => append_line(
            text,
            CallWord::GroupAdd.spelling(),
            &[call.group, call.rank],
        ),
        Call::GroupDelete(call) => append_line(
            text,
            CallWord::GroupDelete.spelling(),
            &[call.group],
        ),
        Call::Commit(call) => append_line(text, CallWord::Commit.spelling(), &[call.group]),
        Call::Barrier(call) => append_line(text, CallWord::Barrier.spelling(), &[call.group]),
        Call::Allreduce(call) => append_allreduce(text, call),
        Call::Create(call) => append_line(
            text,
            CallWord::Create.spelling(),
            &[call.seg, call.size, call.group],
        ),
        Call::State => text.append(CallWord::State.spelling()),
        Call::End => text.append(b"end"),
    }
}

/// Adds the text of a call, in the one form that is written. After `NoMemory` nothing has changed.
pub fn write_call(text: &mut Bytes, call: &Call) -> Result<(), NoMemory>
    ensures ok { OnOk result (text.new ≡ text.old ++ call_text call.now) }
    ensures err { OnErr result (text.new ≡ text.old) }
{
    let start = text.len();
    let written = append_call(text, call);
    if written.is_err() {
        text.truncate(start);
    }
    written
}
