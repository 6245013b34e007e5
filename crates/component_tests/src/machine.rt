//! Calls of the machine in memory that no command makes: of its transfers, its ranks, and looks at calls.

use crate::one_rank::{caller, notified, shape};
use gaspi_types::{Barrier, Call, CallerId, Event, NoMemory, RankId, Ready, Reply, Reset};
use plain_machine::Machine;
use std::alloc::Global;
use std::test::Fail;

/// The machine of the world of one rank, at its start.
fn start(alloc: Global) -> Result<Machine, Fail> {
    let shape = shape(alloc)?;
    Ok(Machine::start(alloc, &shape)?)
}

/// Whether an event is a step, which is then made.
fn steps(alloc: Global, machine: &mut Machine, event: &Event) -> bool {
    machine.step(alloc, event).is_ok()
}

/// Whether the one transfer that may come next is the take of the first entry.
fn lists_a_take(alloc: Global, machine: &Machine) -> Result<bool, NoMemory> {
    let transfers = machine.transfers(alloc)?;
    let takes = transfers.as_slice().iter().all(|t| t.number == 0 && !t.put);
    Ok(takes && transfers.len() == 1)
}

/// Makes a notification. Whether its take is then the next transfer, and none was before.
fn brings_a_take(alloc: Global, machine: &mut Machine) -> bool {
    let before = lists_a_take(alloc, machine);
    let stepped = steps(alloc, machine, &notified(caller()));
    let after = lists_a_take(alloc, machine);
    stepped && matches!((before, after), (Ok(false), Ok(true)))
}

/// Whether there is one rank.
fn has_one_rank(machine: &Machine) -> bool {
    machine.has_rank(RankId::of(0)) && !machine.has_rank(RankId::of(1))
}

/// Whether transfers and ranks are right on the machine at its start.
fn lists_transfers(alloc: Global) -> Result<bool, Fail> {
    let mut machine = start(alloc)?;
    Ok(brings_a_take(alloc, &mut machine) && has_one_rank(&machine))
}

#[test]
fn transfers_are_listed(rt: HostRuntime) -> Result<(), Fail> {
    assert!(rt; lists_transfers(rt.alloc())?);
    Ok(())
}

/// Whether a look at a call finds the value 0, and its caller is declared.
fn answers_nothing(
    alloc: Global,
    machine: &Machine,
    caller: CallerId,
    call: &Call,
) -> Result<bool, NoMemory> {
    if !machine.is_declared(caller) {
        return Ok(false);
    }
    let ready = machine.answer(alloc, caller, call)?;
    Ok(matches!(ready, Ready::Reply(Reply::Value(0))))
}

/// Whether a look finds that a call may join, and its caller is declared.
fn joins(
    alloc: Global,
    machine: &Machine,
    caller: CallerId,
    call: &Call,
) -> Result<bool, NoMemory> {
    if !machine.is_declared(caller) {
        return Ok(false);
    }
    let ready = machine.answer(alloc, caller, call)?;
    Ok(matches!(ready, Ready::Join(_)))
}

/// Whether a reset is answered, and may not join.
fn answers_a_reset(alloc: Global, machine: &Machine) -> bool {
    let reset = Call::Reset(Reset { seg: 0, note: 3 });
    let answered = answers_nothing(alloc, machine, caller(), &reset);
    let joined = joins(alloc, machine, caller(), &reset);
    matches!((answered, joined), (Ok(true), Ok(false)))
}

/// Whether a barrier may join.
fn joins_a_barrier(alloc: Global, machine: &Machine) -> bool {
    let barrier = Call::Barrier(Barrier { group: 0 });
    matches!(joins(alloc, machine, caller(), &barrier), Ok(true))
}

/// Whether a reset and a barrier are looked at rightly on the machine at its start.
fn answers_calls(alloc: Global) -> Result<bool, Fail> {
    let machine = start(alloc)?;
    Ok(answers_a_reset(alloc, &machine) && joins_a_barrier(alloc, &machine))
}

#[test]
fn calls_are_answered(rt: HostRuntime) -> Result<(), Fail> {
    assert!(rt; answers_calls(rt.alloc())?);
    Ok(())
}
