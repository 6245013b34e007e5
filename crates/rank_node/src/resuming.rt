//! Whether a call resumes the pending collective of its rank. The arguments of the call are compared without being made, since that
//! takes memory. *Kept* are the arguments of the pending collective; *plain* is a collective without values: any but an allreduce.
//! (GASPI: timeouts)

ghost use Rattle.std.specs.Prelude.{◌≡◌, ℕ, Ok};
ghost use Rattle.std.specs.Option.{option_copied};
ghost use Rattle.gaspi_types.specs.Collectives.{resume, has_same_args, same_args};
ghost use Rattle.gaspi_types.specs.declared.calls.Call.TheVariants as calls;
ghost use Rattle.gaspi_model.specs.CollectiveCalls.{element_checks, plain_args, args_of};

use gaspi_model::{same_coll, same_numbers};
use gaspi_types::{
    Allreduce, Args, Call, Coll, NumType, PendingCollective, Refusal, Resume, ThreadId,
};

/// Whether a collective without values has the arguments that are kept.
fn is_plain_same(coll: Coll, kept: &Args) -> bool
    ensures { result ≡ same_args (plain_args coll) kept.now }
{
    same_coll(coll, kept.coll)
        && matches!(kept.values.num_type(), NumType::Int)
        && kept.values.items().is_empty()
}

/// Whether an allreduce has the arguments that are kept.
fn is_reduce_same(call: &Allreduce, kept: &Args) -> bool
    requires { element_checks (calls.Allreduce call.now) ≡ Ok tt }
    ensures { (members : ℕ) → result ≡ has_same_args (args_of members (calls.Allreduce call.now)) kept.now }
{
    let count = call.values.items().len() as u32;
    let coll = Coll::Allreduce(call.op, call.values.num_type(), count);
    same_coll(coll, kept.coll) && same_numbers(&call.values, &kept.values)
}

/// Whether a call on a group with these members has the arguments that are kept.
fn asks_same(members: u32, call: &Call, kept: &Args) -> bool
    requires { element_checks call.now ≡ Ok tt }
    ensures { result ≡ has_same_args (args_of members call.now) kept.now }
{
    match call {
        Call::Commit(_) => is_plain_same(Coll::Commit(members), kept),
        Call::Barrier(_) => is_plain_same(Coll::Barrier, kept),
        Call::Allreduce(call) => is_reduce_same(call, kept),
        Call::Create(call) => {
            if call.seg > u64::from(u32::MAX) || call.size > u64::from(u32::MAX) {
                return false;
            }
            is_plain_same(Coll::Create(call.seg as u32, call.size as u32), kept)
        }
        _ => false,
    }
}

/// Whether a collective of a thread is fresh or the same, by what is pending on its group, as `gaspi_model::resume` says; else
/// `ActiveCollective` where one is pending for another thread, `ResumeOther` where another one is pending for this thread. The
/// elements of the call were checked. It takes no memory. (GASPI: timeouts)
pub(crate) fn resumes(
    pending: Option<&PendingCollective>,
    thread: ThreadId,
    members: u32,
    call: &Call,
) -> Result<Resume, Refusal>
    requires { element_checks call.now ≡ Ok tt }
    ensures { result ≡ resume (option_copied pending.entry) thread (args_of members call.now) }
{
    let Some(kept) = pending else {
        return Ok(Resume::Fresh);
    };
    if kept.thread.number() != thread.number() {
        return Err(Refusal::ActiveCollective {
            thread: kept.thread.number(),
        });
    }
    if asks_same(members, call, &kept.args) {
        return Ok(Resume::Same);
    }
    Err(Refusal::ResumeOther {
        kept: kept.args.coll,
    })
}
