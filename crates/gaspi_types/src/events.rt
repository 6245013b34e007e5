//! Events, an event with its place, and transfers without an outcome, which are no events.

ghost use Rattle.std.specs.Prelude.{◌≡◌, IfOk, IsOk, true};
ghost use Rattle.gaspi_types.specs.Copies.{is_listless_event};

use crate::calls::Call;
use crate::groups::Args;
use crate::ids::{GroupId, QueueId, RankId};
use crate::memory::NoMemory;
use crate::replies::Reply;
use crate::shapes::CallerId;
use std::alloc::Global;

/// The outcome of a transfer. (GASPI: state vector)
#[derive(Clone, Copy, Debug, PartialEq, Eq)]
pub enum Outcome {
    /// It has done what it is for.
    Applied,
    /// It has failed: the target's segment of that generation was gone.
    Failed,
}

/// One event of the machine.
#[derive(Debug, PartialEq, Eq, Drop)]
pub enum Event {
    /// A caller's call, with its reply.
    Called(CallerId, Call, Reply),
    /// The join of a caller's collective on a group, with its arguments. (GASPI: collectives)
    Joined(CallerId, GroupId, Args),
    /// The take of an entry: its origin, queue, target and number, and the outcome.
    Take(RankId, QueueId, RankId, u32, Outcome),
    /// The put of an entry, by the same fields.
    Put(RankId, QueueId, RankId, u32, Outcome),
}

/// An event with its place in the history.
#[derive(Debug, Drop)]
pub struct PlacedEvent {
    pub place: u64,
    pub event: Event,
}

/// A transfer, without its outcome: the put of an entry where `put`, else its take. `number` is the entry's number.
#[derive(Clone, Copy, Debug, PartialEq, Eq)]
pub struct Transfer {
    pub origin: RankId,
    pub queue: QueueId,
    pub target: RankId,
    pub number: u32,
    pub put: bool,
}

impl Event {
    /// An equal event. No memory is taken where no list in the event has an item.
    pub fn copy(&self, alloc: Global) -> Result<Event, NoMemory>
        ensures ok { IfOk result (λ event. event ≡ self.now) }
        ensures listless { is_listless_event self.now ≡ true → IsOk result }
    {
        match self {
            Event::Called(caller, call, reply) => Ok(Event::Called(
                *caller,
                call.copy(alloc)?,
                reply.copy(alloc)?,
            )),
            Event::Joined(caller, group, args) => {
                Ok(Event::Joined(*caller, *group, args.copy(alloc)?))
            }
            Event::Take(origin, queue, target, number, outcome) => {
                Ok(Event::Take(*origin, *queue, *target, *number, *outcome))
            }
            Event::Put(origin, queue, target, number, outcome) => {
                Ok(Event::Put(*origin, *queue, *target, *number, *outcome))
            }
        }
    }
}
