//! A world of one rank with a segment of 16 bytes and one caller, which notifies its own rank; for several files of tests.

use gaspi_types::{
    Call, CallerId, Event, Notify, Outcome, QueueId, RankId, Reply, Shape, ThreadId,
};
use std::alloc::Global;
use std::test::Fail;

/// The shape of this world.
pub fn shape(alloc: Global) -> Result<Shape, Fail> {
    let mut shape = Shape::new(alloc, 1, 1, 4, 8, 4, 1000)?;
    shape.add_segment(0, 0, 16)?;
    shape.add_caller(0, 0)?;
    Ok(shape)
}

/// The only caller of this world.
pub fn caller() -> CallerId {
    CallerId {
        rank: RankId::of(0),
        thread: ThreadId::of(0),
    }
}

/// The event of a notification of the rank to itself, for slot 3.
pub fn notified(caller: CallerId) -> Event {
    let notify = Notify {
        rseg: 0,
        rank: 0,
        note: 3,
        value: 7,
        queue: 0,
    };
    Event::Called(caller, Call::Notify(notify), Reply::Done)
}

/// The event of the take of that notification, as if a rank had posted it to itself.
pub fn taken(rank: RankId) -> Event {
    Event::Take(rank, QueueId::of(0), rank, 0, Outcome::Applied)
}
