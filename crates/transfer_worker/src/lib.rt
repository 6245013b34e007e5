//! A worker of a world: it makes the transfers of all ranks in turns, until the world is settled. (GASPI: one-sided communication)
//!
//! A `Worker` acts by the pass of a worker, beside the callers of its world and other workers. A turn tries the ranks in their order,
//! up to the first that moved, and says what came of that; `drain` makes turns until all callers have ended and all that was posted
//! has arrived, but for what waits in broken queues.
#![tactic(auto)]

mod laws;
mod quiet;
mod tries;
mod turns;
mod workers;

pub use laws::still_ranks;
pub use turns::Turn;
pub use workers::Worker;
