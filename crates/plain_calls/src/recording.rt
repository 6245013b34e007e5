//! Records calls that are no collectives, with the evaluation of their look: the effect, one event more, and the used room that the
//! event adds (its charge) and gives back (its release).

ghost use Rattle.std.specs.Prelude.{◌≡◌, ◌+◌, ◌<◌, ◌≤◌, ◌^◌, length, IfOk, OnOk, OnErr, IsOk, false, true};
ghost use Rattle.gaspi_types.specs.Replies.{is_idle};
ghost use Rattle.gaspi_types.specs.World.{are_limits};
ghost use Rattle.gaspi_model.specs.State.{owed, thread_at};
ghost use Rattle.gaspi_model.specs.Calls.{memory_after, charge, recorded_reply};
ghost use Rattle.gaspi_model.specs.Sound.{IsSoundPosts};
ghost use Rattle.gaspi_model.specs.Step.{called, Steps, is_there};
ghost use Rattle.gaspi_model.specs.Transfers.{PostsAndMemory};
ghost use Rattle.segment_store.specs.PostKinds.{kinds_of};
ghost use Rattle.plain_calls.specs.Looks.{IsEvaluation, posts_after_evaluation, recorded_of};
ghost use Rattle.plain_calls.specs.Memory.{keeps_memory};
ghost use Rattle.plain_calls.specs.NumberBounds.{CallIsBounded, released};

use crate::calls::call_effect;
use crate::looks::Evaluation;
use crate::queue_calls::{owed_at, purged_queue};
use crate::threads::{is_running, thread_at};
use gaspi_model::{Memory, Posts, ThreadState};
use gaspi_types::{Call, Invocation, Limits, NoMemory, Ready, Reply};
use std::alloc::Global;

/// The used room that the event of a call adds: 0 for the end of an active caller, 1 and 2 for each entry for a post that is done,
/// and else 1. `state` is that of the caller, `ready` the answer of the look.
pub fn charge(state: ThreadState, invocation: &Invocation<'_>, ready: &Ready) -> u32
    ensures value { result ≡ charge state invocation.now.call.now (recorded_reply ready.now) }
    ensures bound { result ≤ 515 }
{
    if invocation.row.ends && is_running(state) {
        return 0;
    }
    if matches!(ready, Ready::Reply(Reply::Done)) {
        1 + 2 * invocation.row.entries()
    } else {
        1
    }
}

/// The used room that a call gives back as its evaluation is recorded: for a purge that is done what is owed for its queue's
/// entries, and else 0.
fn released(posts: &Posts, call: &Call, evaluation: &Evaluation) -> u32
    requires { released posts.now call.now (recorded_reply evaluation.now.ready) < 2 ^ 32 }
    ensures { result ≡ released posts.now call.now (recorded_reply evaluation.now.ready) }
{
    if evaluation.is_refused_or_timeout() {
        return 0;
    }
    match purged_queue(call) {
        Some(queue) => owed_at(&posts.queues, queue),
        None => 0,
    }
}

/// Makes the effect of a call with its evaluation, and counts one event more. A refusal or a timeout changes the count alone. Where
/// memory runs out neither posts nor memory change. The message of the evaluation is taken out; its answer stays.
fn record_evaluation(
    alloc: Global,
    limits: &Limits,
    invocation: &Invocation<'_>,
    posts: &mut Posts,
    memory: &mut Memory,
    evaluation: &mut Evaluation,
) -> Result<(), NoMemory>
    requires room { is_idle (recorded_reply evaluation.old.ready) ≡ false → CallIsBounded posts.old invocation.now.call.now (length (kinds_of evaluation.old.kinds)) }
    requires events { posts.old.events + 1 < 2 ^ 32 }
    ensures ready { evaluation.new.ready ≡ evaluation.old.ready }
    ensures posts { OnOk result (posts.new ≡ posts_after_evaluation posts.old invocation.now.caller.thread invocation.now.call.now evaluation.old) }
    ensures memory { OnOk result (memory.new ≡ memory_after limits.now posts.old evaluation.old.message memory.old invocation.now.call.now (recorded_reply evaluation.old.ready)) }
    ensures posts_kept { OnErr result (posts.new ≡ posts.old) }
    ensures memory_kept { OnErr result (memory.new ≡ memory.old) }
    ensures ample { keeps_memory invocation.now.call.now ≡ false → IsOk result }
{
    let events = posts.events + 1;
    if !evaluation.is_refused_or_timeout() {
        let message = evaluation.message.take();
        call_effect(
            alloc,
            limits,
            invocation,
            posts,
            memory,
            evaluation.kinds.as_slice(),
            message,
        )?;
    }
    posts.events = events;
    Ok(())
}

/// Makes the step by a call with its evaluation, and gives the used room of the caller's rank after it. That is the evaluation of this
/// very call on these very posts and this memory, and the rank has room for the event; so nothing is checked again. `used` is the
/// rank's used room with the charge of the event added. A post, an alloc and a send take memory; where it runs out neither posts nor
/// memory change. The message of the evaluation is taken out; its answer stays.
pub fn record(
    alloc: Global,
    limits: &Limits,
    invocation: &Invocation<'_>,
    posts: &mut Posts,
    memory: &mut Memory,
    used: u32,
    evaluation: &mut Evaluation,
) -> Result<u32, NoMemory>
    requires limits { are_limits limits.now ≡ true }
    requires sound { IsSoundPosts limits.now posts.old }
    requires used { used ≡ posts.old.events + owed posts.old + charge (thread_at posts.old invocation.now.caller.thread) invocation.now.call.now (recorded_reply evaluation.old.ready) }
    requires there { is_there (thread_at posts.old invocation.now.caller.thread) ≡ true }
    requires evaluation { IsEvaluation evaluation.old limits.now invocation.now.caller.rank posts.old memory.old invocation.now.caller.thread invocation.now.call.now }
    requires room { posts.old.events + owed posts.old + charge (thread_at posts.old invocation.now.caller.thread) invocation.now.call.now (recorded_reply evaluation.old.ready) ≤ limits.now.events }
    ensures ready { evaluation.new.ready ≡ evaluation.old.ready }
    ensures step { Steps {S = PostsAndMemory} (recorded_of result) (record { posts = posts.old; memory = memory.old }) (record { posts = posts.new; memory = memory.new }) (called limits.now invocation.now.caller.rank posts.old evaluation.old.message memory.old invocation.now.caller.thread invocation.now.call.now (recorded_reply evaluation.old.ready)) }
    ensures used { IfOk result (λ used. used ≡ posts.new.events + owed posts.new) }
    ensures ample { keeps_memory invocation.now.call.now ≡ false → IsOk result }
{
    let freed = released(posts, invocation.call, evaluation);
    record_evaluation(alloc, limits, invocation, posts, memory, evaluation)?;
    Ok(used - freed)
}
