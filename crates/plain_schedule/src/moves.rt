//! The iterations of a schedule: the look at the present call of an active caller, the caller's end, or a transfer. `index` is that of
//! an active caller, `limit` how many looks a call that blocks may have. The only failure is out of memory, and after it the schedule
//! is not used any more.

ghost use Rattle.std.specs.Prelude.{◌≡◌, ℕ, ◌+◌, ◌<◌, ◌≤◌, ◌++◌, ◌∷◌, [], OnOk, IsOk, Ok, Some, true, false, length, slice_get};
ghost use Rattle.gaspi_types.specs.declared.replies.Ready.{Ready};
ghost use Rattle.gaspi_types.specs.declared.replies.Ready.TheVariants.{Join, NotReady};
ghost use Rattle.gaspi_types.specs.declared.events.Event.TheVariants.{Called};
ghost use Rattle.gaspi_model.specs.CollectiveCalls.{is_joining, join_event};
ghost use Rattle.gaspi_model.specs.Calls.{recorded_reply};
ghost use Rattle.gaspi_model.specs.Step.{step, answer_in, is_active, lacks_room_in, transfer_event};
ghost use Rattle.gaspi_model.specs.Transfers.{transfers};
ghost use Rattle.plain_schedule.specs.Generator.{picked};
ghost use Rattle.plain_schedule.specs.Schedule.{made, looks_of, recorded, looked, join_args, joined, joined_iteration, lacks_room, active_iteration, end_iteration, caller_iteration, candidate_iteration, candidates, iterate, AreActive, IsCallerAt, MayBeRecorded};
ghost use Rattle.plain_machine.specs.Looking.{IsEvaluationIn};
ghost use Rattle.rank_script.specs.Runs.{advanced};
ghost use Rattle.rank_script.specs.declared.scripts.ScriptLine.{ScriptLine};
ghost use Rattle.plain_schedule.specs.declared.schedule_states.ActiveCaller.{ActiveCaller};

use crate::schedule_states::{ActiveCaller, EndedCaller, ScheduleState};
use gaspi_model::{StepFault, soundness};
use gaspi_types::{Args, Call, Event, Invocation, NoMemory, Ready, Reply, Timeout, Transfer};
use plain_calls::Evaluation;
use rank_script::{RunOutcome, RunStop, drawn};
use std::alloc::Global;

/// The candidate that the drawn number `x` picks, of these numbers of active callers and of transfers, which are not both 0.
fn picked(x: u32, active: usize, transfers: usize) -> usize
    requires { 0 < active + transfers }
    ensures { result ≡ picked x (active + transfers) }
{
    let draw = (x / 65536) as usize;
    match active.checked_add(transfers) {
        Some(count) => draw % count,
        // There are more candidates than a draw can be.
        None => draw,
    }
}

/// How many looks a call with this timeout may have.
fn looks_of(limit: u32, timeout: Timeout) -> u32
    ensures { result ≡ looks_of limit timeout }
{
    match timeout {
        Timeout::Looks(n) => n,
        Timeout::Block => limit,
    }
}

/// Makes an event, and appends it to the journal. Where it is no step, nothing changes.
fn make(schedule: &mut ScheduleState, alloc: Global, event: Event) -> Result<(), NoMemory>
    ensures { OnOk result (schedule.new ≡ made schedule.old event) }
{
    match schedule.state.step(alloc, &event) {
        Ok(()) => {
            schedule.journal.push(event)?;
            Ok(())
        }
        Err(StepFault::Illegal(_)) => Ok(()),
        Err(StepFault::NoMemory) => Err(NoMemory),
    }
}

/// Moves the run of an active caller on after its present call, by the reply that the look found, or else by `timeout`. The next call
/// has had no look.
fn bring_on(active: &mut ActiveCaller<'_>, ready: &Ready)
    ensures { active.new ≡ record { caller = active.old.caller; cursor = advanced active.old.cursor (recorded_reply ready.now); looks = 0 } }
{
    match ready {
        Ready::Reply(reply) => active.cursor.advance(reply),
        Ready::Join(_) | Ready::NotReady => active.cursor.advance(&Reply::Timeout),
    }
    active.looks = 0;
}

/// Records the present call of an active caller as `look` found it, with the reply or else with `timeout`, and moves its run on.
/// `look` did not find that it may join.
fn record_call(
    schedule: &mut ScheduleState,
    alloc: Global,
    index: usize,
    invocation: &Invocation<'_>,
    look: &mut Evaluation,
) -> Result<(), NoMemory>
    requires index { index < length schedule.old.active }
    requires caller { IsCallerAt schedule.old index invocation.now.caller }
    requires active { is_active schedule.old.state invocation.now.caller.rank invocation.now.caller.thread ≡ true }
    requires look { IsEvaluationIn look.old schedule.old.state invocation.now.caller invocation.now.call.now }
    requires unjoined { is_joining look.old.ready ≡ false }
    requires steps { IsOk (step schedule.old.state (Called invocation.now.caller invocation.now.call.now (recorded_reply look.old.ready))) }
    ensures { (w : ActiveCaller) → slice_get schedule.old.active index ≡ Some w → OnOk result (schedule.new ≡ recorded schedule.old index w invocation.now.call.now (recorded_reply look.old.ready)) }
{
    let call = invocation.call.copy(alloc)?;
    bring_on(schedule.active.at_mut(index), &look.ready);
    schedule.state.record(alloc, invocation, look)?;
    let event = Event::Called(invocation.caller, call, look.take_reply());
    schedule.journal.push(event)?;
    Ok(())
}

/// Makes the end of an active caller whose run ended with this outcome. It is then among those that have ended.
fn end_caller(
    schedule: &mut ScheduleState,
    alloc: Global,
    index: usize,
    outcome: RunOutcome,
) -> Result<(), NoMemory>
    requires { index < length schedule.old.active }
    ensures { (w : ActiveCaller) → slice_get schedule.old.active index ≡ Some w → OnOk result (schedule.new ≡ end_iteration schedule.old index w outcome) }
{
    let end = Event::Called(schedule.active.at(index).caller, Call::End, Reply::Done);
    let caller = schedule.active.at(index).caller;
    drop(schedule.active.remove(index));
    schedule.ended.push(EndedCaller { caller, outcome })?;
    make(schedule, alloc, end)
}

/// Counts a look at which the present call of an active caller was not ready, so that a later iteration looks again. Where it was the
/// last look that the call may have, the call is recorded with `timeout`.
fn look_again(
    schedule: &mut ScheduleState,
    alloc: Global,
    limit: u32,
    index: usize,
    invocation: &Invocation<'_>,
    timeout: Timeout,
    look: &mut Evaluation,
) -> Result<(), NoMemory>
    requires index { index < length schedule.old.active }
    requires caller { IsCallerAt schedule.old index invocation.now.caller }
    requires active { is_active schedule.old.state invocation.now.caller.rank invocation.now.caller.thread ≡ true }
    requires look { IsEvaluationIn look.old schedule.old.state invocation.now.caller invocation.now.call.now }
    requires not_ready { look.old.ready ≡ NotReady }
    requires steps { IsOk (step schedule.old.state (Called invocation.now.caller invocation.now.call.now (recorded_reply look.old.ready))) }
    ensures { (w : ActiveCaller) (line : ScriptLine) → slice_get schedule.old.active index ≡ Some w → line.call ≡ invocation.now.call.now → line.timeout ≡ timeout
        → OnOk result (schedule.new ≡ looked limit schedule.old index w line) }
{
    let looks = schedule.active.at(index).looks;
    let most = looks_of(limit, timeout);
    if u64::from(most) <= u64::from(looks) + 1 {
        return record_call(schedule, alloc, index, invocation, look);
    }
    schedule.active.at_mut(index).looks = looks + 1;
    Ok(())
}

/// The arguments of the join, where a look found that the call may join; otherwise none.
fn join_args(look: &mut Evaluation) -> Option<Args>
    ensures { result ≡ join_args look.old.ready }
{
    match std::mem::replace(&mut look.ready, Ready::NotReady) {
        Ready::Join(args) => Some(args),
        Ready::Reply(_) | Ready::NotReady => None,
    }
}

/// Makes the join of the present call of an active caller, where a look found that the call may join. The active callers stay as they
/// were. (GASPI: collectives)
fn join_group(
    schedule: &mut ScheduleState,
    alloc: Global,
    invocation: &Invocation<'_>,
    args: Args,
) -> Result<(), NoMemory>
    requires active { is_active schedule.old.state invocation.now.caller.rank invocation.now.caller.thread ≡ true }
    requires joins { answer_in schedule.old.state invocation.now.caller.rank invocation.now.caller.thread invocation.now.call.now ≡ Some (Join args) }
    requires steps { IsOk (step schedule.old.state (join_event invocation.now.caller invocation.now.call.now args)) }
    ensures joined { (w : ActiveCaller) (line : ScriptLine) → w.caller ≡ invocation.now.caller → line.call ≡ invocation.now.call.now → OnOk result (schedule.new ≡ joined schedule.old w line args) }
    ensures stepped { OnOk result (step schedule.old.state (join_event invocation.now.caller invocation.now.call.now args) ≡ Ok schedule.new.state) }
    ensures active { OnOk result (is_active schedule.new.state invocation.now.caller.rank invocation.now.caller.thread ≡ true) }
    ensures callers { schedule.new.active ≡ schedule.old.active }
{
    soundness();
    let event = schedule.state.join(alloc, invocation, args)?;
    schedule.journal.push(event)?;
    Ok(())
}

/// Looks at the present call of an active caller after its join, in the same iteration: the call is recorded, or counted as a look at
/// which it was not ready. It does not join once more.
fn look_joined(
    schedule: &mut ScheduleState,
    alloc: Global,
    limit: u32,
    index: usize,
    invocation: &Invocation<'_>,
    timeout: Timeout,
    look: &mut Evaluation,
) -> Result<(), NoMemory>
    requires index { index < length schedule.old.active }
    requires caller { IsCallerAt schedule.old index invocation.now.caller }
    requires active { is_active schedule.old.state invocation.now.caller.rank invocation.now.caller.thread ≡ true }
    requires recordable { MayBeRecorded schedule.old.state invocation.now.caller invocation.now.call.now }
    ensures { (w : ActiveCaller) (line : ScriptLine) → slice_get schedule.old.active index ≡ Some w → line.call ≡ invocation.now.call.now → line.timeout ≡ timeout
        → OnOk result (schedule.new ≡ joined_iteration limit schedule.old index w line) }
{
    schedule.state.look(alloc, invocation, look)?;
    match look.ready {
        Ready::Reply(_) => record_call(schedule, alloc, index, invocation, look),
        Ready::Join(_) => Ok(()),
        Ready::NotReady => look_again(schedule, alloc, limit, index, invocation, timeout, look),
    }
}

/// Whether the rank of an active caller has less room than its present call needs.
fn lacks_room(schedule: &ScheduleState, invocation: &Invocation<'_>) -> bool
    requires active { is_active schedule.now.state invocation.now.caller.rank invocation.now.caller.thread ≡ true }
    ensures room { result ≡ lacks_room_in schedule.now.state invocation.now.caller invocation.now.call.now }
    ensures full { (w : ActiveCaller) (line : ScriptLine) → w.caller ≡ invocation.now.caller → line.call ≡ invocation.now.call.now → result ≡ lacks_room schedule.now.state w.caller line }
{
    schedule.state.lacks_room(invocation)
}

/// The iteration of an active caller that has a present call, which is made into an invocation here.
#[inline(always)]
fn go_on(
    schedule: &mut ScheduleState,
    alloc: Global,
    limit: u32,
    index: usize,
    call: &Call,
    timeout: Timeout,
    look: &mut Evaluation,
) -> Result<(), NoMemory>
    requires index { index < length schedule.old.active }
    requires active { AreActive schedule.old }
    ensures { (w : ActiveCaller) (line : ScriptLine) → slice_get schedule.old.active index ≡ Some w → line.call ≡ call.now → line.timeout ≡ timeout
        → OnOk result (schedule.new ≡ active_iteration limit schedule.old index w line) }
{
    let caller = schedule.active.at(index).caller;
    let invocation = Invocation::new(caller, call);
    go_on_with(schedule, alloc, limit, index, &invocation, timeout, look)
}

/// Goes on after a look at the present call of an active caller, whose rank has the room that the call needs: a reply is recorded; a
/// collective that may join joins, and is looked at again; a call that is not ready is counted.
fn follow_look(
    schedule: &mut ScheduleState,
    alloc: Global,
    limit: u32,
    index: usize,
    invocation: &Invocation<'_>,
    timeout: Timeout,
    look: &mut Evaluation,
) -> Result<(), NoMemory>
    requires index { index < length schedule.old.active }
    requires caller { IsCallerAt schedule.old index invocation.now.caller }
    requires active { is_active schedule.old.state invocation.now.caller.rank invocation.now.caller.thread ≡ true }
    requires room { lacks_room_in schedule.old.state invocation.now.caller invocation.now.call.now ≡ false }
    requires look { IsEvaluationIn look.old schedule.old.state invocation.now.caller invocation.now.call.now }
    requires answer { answer_in schedule.old.state invocation.now.caller.rank invocation.now.caller.thread invocation.now.call.now ≡ Some look.old.ready }
    ensures { (w : ActiveCaller) (line : ScriptLine) → slice_get schedule.old.active index ≡ Some w → line.call ≡ invocation.now.call.now → line.timeout ≡ timeout
        → OnOk result (schedule.new ≡ active_iteration limit schedule.old index w line) }
{
    // Says that the state is sound.
    schedule.state.limits();
    match look.ready {
        Ready::NotReady => look_again(schedule, alloc, limit, index, invocation, timeout, look),
        Ready::Reply(_) => record_call(schedule, alloc, index, invocation, look),
        Ready::Join(_) => match join_args(look) {
            Some(args) => {
                join_group(schedule, alloc, invocation, args)?;
                look_joined(schedule, alloc, limit, index, invocation, timeout, look)
            }
            None => Ok(()),
        },
    }
}

/// The iteration of an active caller that has a present call. Where its rank lacks room, its run ends before the call. Otherwise it
/// looks, and goes on with what the look found.
fn go_on_with(
    schedule: &mut ScheduleState,
    alloc: Global,
    limit: u32,
    index: usize,
    invocation: &Invocation<'_>,
    timeout: Timeout,
    look: &mut Evaluation,
) -> Result<(), NoMemory>
    requires index { index < length schedule.old.active }
    requires caller { IsCallerAt schedule.old index invocation.now.caller }
    requires active { is_active schedule.old.state invocation.now.caller.rank invocation.now.caller.thread ≡ true }
    ensures { (w : ActiveCaller) (line : ScriptLine) → slice_get schedule.old.active index ≡ Some w → line.call ≡ invocation.now.call.now → line.timeout ≡ timeout
        → OnOk result (schedule.new ≡ active_iteration limit schedule.old index w line) }
{
    if lacks_room(schedule, invocation) {
        let active = schedule.active.at_mut(index);
        active.cursor.stop(RunStop::Limit);
        active.looks = 0;
        return Ok(());
    }
    schedule.state.look(alloc, invocation, look)?;
    follow_look(schedule, alloc, limit, index, invocation, timeout, look)
}

/// The iteration of an active caller: its end, where its run is over, and otherwise that of its present call.
fn caller_iteration(
    schedule: &mut ScheduleState,
    alloc: Global,
    limit: u32,
    index: usize,
    look: &mut Evaluation,
) -> Result<(), NoMemory>
    requires index { index < length schedule.old.active }
    requires active { AreActive schedule.old }
    ensures { (w : ActiveCaller) → slice_get schedule.old.active index ≡ Some w → OnOk result (schedule.new ≡ caller_iteration limit schedule.old index w) }
{
    let cursor = &schedule.active.at(index).cursor;
    if let Some((call, timeout)) = cursor.present_in_memory() {
        return go_on(schedule, alloc, limit, index, call, timeout, look);
    }
    if let Some(outcome) = cursor.outcome() {
        return end_caller(schedule, alloc, index, outcome);
    }
    match cursor.present() {
        Some((call, timeout)) => {
            let call = call.copy(alloc)?;
            go_on(schedule, alloc, limit, index, &call, timeout, look)
        }
        None => Ok(()),
    }
}

/// The iteration of a transfer, which is made with the outcome that the machine finds. Where it is no step, nothing changes.
fn transfer_iteration(
    schedule: &mut ScheduleState,
    alloc: Global,
    transfer: &Transfer,
) -> Result<(), NoMemory>
    ensures { OnOk result (schedule.new ≡ made schedule.old (transfer_event schedule.old.state transfer.now)) }
{
    match schedule.state.make(alloc, transfer) {
        Ok(event) => {
            schedule.journal.push(event)?;
            Ok(())
        }
        Err(StepFault::Illegal(_)) => Ok(()),
        Err(StepFault::NoMemory) => Err(NoMemory),
    }
}

/// The iteration of the candidate with this index: the active callers come first, then the transfers that may come next.
fn candidate_iteration(
    schedule: &mut ScheduleState,
    alloc: Global,
    limit: u32,
    candidate: usize,
    look: &mut Evaluation,
) -> Result<(), NoMemory>
    requires active { AreActive schedule.old }
    ensures { OnOk result (schedule.new ≡ candidate_iteration limit schedule.old candidate) }
{
    let active = schedule.active.len();
    if candidate < active {
        return caller_iteration(schedule, alloc, limit, candidate, look);
    }
    match schedule.state.transfer_at(candidate - active) {
        Some(transfer) => transfer_iteration(schedule, alloc, &transfer),
        None => Ok(()),
    }
}

/// One iteration: a draw picks a candidate. False where there is no candidate, and then nothing has changed.
pub fn iterate(
    schedule: &mut ScheduleState,
    alloc: Global,
    limit: u32,
    look: &mut Evaluation,
) -> Result<bool, NoMemory>
    requires { AreActive schedule.old }
    ensures over { result ≡ Ok false → (candidates schedule.old ≡ 0) × (schedule.new ≡ schedule.old) }
    ensures iterated { result ≡ Ok true → (0 < candidates schedule.old) × (schedule.new ≡ iterate limit schedule.old) }
{
    let active = schedule.active.len();
    let transfers = schedule.state.transfer_count();
    if active == 0 && transfers == 0 {
        return Ok(false);
    }
    schedule.x = drawn(schedule.x);
    let candidate = picked(schedule.x, active, transfers);
    candidate_iteration(schedule, alloc, limit, candidate, look)?;
    Ok(true)
}
