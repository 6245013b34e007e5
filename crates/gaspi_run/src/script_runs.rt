//! A run of a script in a world on threads, call by call, and the end of its caller: for `ScriptBody`.

ghost use Rattle.std.specs.Prelude.{◌≡◌, ◌≢◌, Err, false};
ghost use Rattle.gaspi_types.specs.CallRows.{row_of};
ghost use Rattle.gaspi_types.specs.World.{IsShape};
ghost use Rattle.gaspi_types.specs.declared.calls.Call.TheVariants.{End};
ghost use Rattle.gaspi_types.specs.declared.calls.Timeout.TheVariants.{Looks};
ghost use Rattle.gaspi_types.specs.declared.replies.Reply.TheVariants.{Done};
ghost use Rattle.gaspi_types.specs.declared.shapes.CallerId.{CallerId};
ghost use Rattle.timeout_state.specs.Looks.{looks_of, HasLook};
ghost use Rattle.commit_table.specs.Calls.{HoldsNone};
ghost use Rattle.gaspi_world.specs.Callers.{IsPassOf};
ghost use Rattle.gaspi_world.specs.Calling.{MayCall, CallsBy, IsCalled};
ghost use Rattle.gaspi_world.specs.declared.calling.Stop.TheVariants.{NoMemory};
ghost use Rattle.gaspi_run.specs.Bodies.{IsRunnable, IsFresh};
ghost use Rattle.rank_script.specs.Runs.{RunEnded, at_first_line};
ghost use Rattle.gaspi_run.specs.Runs.{moved};
ghost use Rattle.gaspi_run.specs.SoFar.{HasNoEnd, HasRunTo};

use crate::bodies::ScriptBody;
use crate::looks::bounded;
use gaspi_model::{enabled, replies};
use gaspi_types::{Call, Reply, Timeout};
use gaspi_world::{Pass, Rank, Stop, World, waits_on};
use rank_script::{Cursor, RunOutcome, RunStop, runs};
use std::alloc::Global;
use std::sync::Wait;

/// Makes one call by the pass of its caller.
fn make<R: Wait>(
    rt: &R,
    alloc: Global,
    world: &World,
    pass: &mut Pass,
    call: &Call,
    timeout: Timeout,
) -> Result<Reply, Stop>
    requires pass { MayCall world.now pass.old }
    requires timeout { HasLook (looks_of timeout) }
    ensures ample { (row_of call.now).takes_memory ≡ false → result ≢ Err NoMemory }
    ensures calls { CallsBy world.now call.now timeout pass.old result pass.new }
{
    Rank { world, pass }.call(rt, alloc, call, timeout)
}

/// Moves a cursor on after its present call: by the reply, or to the end of the run where the call was stopped.
fn move_on(cursor: &mut Cursor, made: Result<Reply, Stop>)
    ensures { cursor.new ≡ moved cursor.old made }
{
    match made {
        Ok(reply) => cursor.advance(&reply),
        Err(Stop::EventLimit) => cursor.stop(RunStop::Limit),
        Err(Stop::NoMemory) => cursor.stop(RunStop::NoMemory),
    }
}

/// Makes the calls of the script of a body, from its first line until its run is over, and gives how the run ended. The body's outcome
/// is not set, and the caller's end is not made.
pub(crate) fn run_lines<R: Wait>(
    rt: &R,
    alloc: Global,
    world: &World,
    pass: &mut Pass,
    body: &mut ScriptBody<'_>,
) -> RunOutcome
    requires world { IsShape world.now.start.shape }
    requires script { IsRunnable body.old.script.now body.old.limit }
    requires pass { IsFresh body.old.script.now world.now pass.old }
    requires start { body.old.cursor ≡ at_first_line body.old.script.now.lines }
    ensures script { body.new.script ≡ body.old.script }
    ensures limit { body.new.limit ≡ body.old.limit }
    ensures table { pass.new.table ≡ pass.old.table }
    ensures free { HoldsNone pass.new.known }
    ensures run { HasRunTo world.now.start.shape body.old.script.now.caller body.old.script.now.lines body.old.limit (RunEnded result) pass.old.known pass.new.known }
{
    enabled();
    runs();
    waits_on();
    while let Some((call, timeout)) = body.cursor.present() {
        let made = make(rt, alloc, world, pass, call, bounded(timeout, body.limit));
        move_on(&mut body.cursor, made);
    }
    body.cursor.outcome().unwrap()
}

/// Makes the end of a caller. Where the caller has made none before, it is recorded, and its reply is `done`.
pub(crate) fn end<R: Wait>(rt: &R, alloc: Global, world: &World, pass: &mut Pass)
    requires pass { MayCall world.now pass.old }
    ensures table { pass.new.table ≡ pass.old.table }
    ensures free { HoldsNone pass.new.known }
    ensures ends { (c : CallerId) → IsPassOf world.now.start.shape c pass.old.known → HasNoEnd c pass.old.known.mine
        → IsCalled world.now.start.shape c End (Looks 1) Done pass.old.known pass.new.known }
{
    replies();
    world.shape().limits();
    let _ = make(rt, alloc, world, pass, &Call::End, Timeout::Looks(1));
}
