//! The bench numbers of a journal.

ghost use Rattle.std.specs.Prelude.{◌≡◌, ◌+◌, ◌%◌, ◌^◌, ◌<◌, ◌≤◌, IfOk, IfErr, [], ◌∷◌, count_by};
ghost use Rattle.call_journal.specs.Numbers.{AreNumbers, IsIllegal, is_call, is_found_reset, is_set_value, is_transfer, words_until};

use gaspi_model::StepFault;
use gaspi_texts::Journal;
use gaspi_types::{Call, Event, NoMemory, RankId, Reply, Shape};
use plain_machine::Machine;
use std::alloc::Global;

/// The bench numbers of a journal.
#[derive(Clone, Copy, Debug, PartialEq, Eq)]
pub struct Numbers4 {
    /// Recorded calls, ends included.
    pub calls: u64,
    /// Takes and puts. (GASPI: one-sided communication)
    pub transfers: u64,
    /// Resets that found their notification set. (GASPI: notify_reset)
    pub notifications: u64,
    /// The memory words at offset 8 of segment 0 of all ranks after the journal, added modulo 2^64. A rank without one adds
    /// nothing.
    pub sum: u64,
}

impl Numbers4 {
    /// Counts an event; `sum` stays. No count may be so high that it wraps.
    fn count(&mut self, event: &Event)
        requires calls { self.old.calls + 1 < 2 ^ 64 }
        requires transfers { self.old.transfers + 1 < 2 ^ 64 }
        requires notifications { self.old.notifications + 1 < 2 ^ 64 }
        ensures calls { self.new.calls ≡ self.old.calls + count_by is_call (event.now ∷ []) }
        ensures transfers { self.new.transfers ≡ self.old.transfers + count_by is_transfer (event.now ∷ []) }
        ensures notifications { self.new.notifications ≡ self.old.notifications + count_by is_found_reset (event.now ∷ []) }
    {
        match event {
            Event::Called(..) => self.calls += 1,
            Event::Joined(..) => {}
            Event::Take(..) | Event::Put(..) => self.transfers += 1,
        }
        if is_found_reset(event) {
            self.notifications += 1;
        }
    }
}

/// Whether a reply is a number other than 0.
fn is_set_value(reply: &Reply) -> bool
    ensures { result ≡ is_set_value reply.now }
{
    match reply {
        Reply::Value(value) => *value != 0,
        _ => false,
    }
}

/// Whether an event is a reset that found its notification set. (GASPI: notify_reset)
fn is_found_reset(event: &Event) -> bool
    ensures { result ≡ is_found_reset event.now }
{
    match event {
        Event::Called(_, Call::Reset(_), reply) => is_set_value(reply),
        _ => false,
    }
}

/// The memory words at offset 8 of segment 0 of the first `ranks` ranks, added modulo 2^64. A rank without one adds nothing.
fn sum_of_words(machine: &Machine, ranks: u32) -> u64
    requires { ranks ≤ 16 }
    ensures { result ≡ words_until machine.now ranks % 2 ^ 64 }
{
    let mut sum: u64 = 0;
    for rank in 0..ranks {
        let word = machine.word(RankId::of(rank), 0, 8).unwrap_or(0);
        sum = sum.wrapping_add(word);
    }
    sum
}

/// The bench numbers of a journal, of which each event is made on a machine in memory. The error is the cause of the first
/// event that is no step, or `NoMemory`.
pub fn bench_numbers(alloc: Global, shape: &Shape, journal: &Journal) -> Result<Numbers4, StepFault>
    ensures numbers { IfOk result (λ n. AreNumbers shape.now journal.now n) }
    ensures illegal { IfErr result (λ fault. IsIllegal shape.now journal.now fault) }
{
    let mut machine = match Machine::start(alloc, shape) {
        Ok(machine) => machine,
        Err(NoMemory) => return Err(StepFault::NoMemory),
    };
    let mut numbers = Numbers4 {
        calls: 0,
        transfers: 0,
        notifications: 0,
        sum: 0,
    };
    for event in journal.as_slice() {
        machine.step(alloc, event)?;
        numbers.count(event);
    }
    numbers.sum = sum_of_words(&machine, shape.limits().ranks);
    Ok(numbers)
}
