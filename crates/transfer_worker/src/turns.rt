//! What a full turn comes to, try by try.

ghost use Rattle.std.specs.Prelude.{◌≡◌};
ghost use Rattle.transfer_worker.specs.Turns.{with_try};

use gaspi_world::Moving;

/// What a full turn came to.
#[derive(Clone, Copy, Debug, PartialEq, Eq)]
pub enum Turn {
    /// One transfer was made.
    Moved,
    /// None was made, and at a try a shard was missed.
    Busy,
    /// No rank had a transfer that might come next, and a caller has not ended.
    Idle,
    /// The world is settled: all callers have ended, and all that was posted has arrived, but for what waits in broken queues.
    Drained,
}

/// What a full turn comes to with the try of one rank more, which came to `moving`. `so_far` is what the tries before came to,
/// `Drained` before the first.
pub fn with_try(so_far: Turn, moving: Moving) -> Turn
    ensures { result ≡ with_try so_far moving }
{
    match (so_far, moving) {
        (_, Moving::Moved) => Turn::Moved,
        (_, Moving::Busy) => Turn::Busy,
        (Turn::Drained, Moving::Empty) => Turn::Idle,
        (so_far, _) => so_far,
    }
}
