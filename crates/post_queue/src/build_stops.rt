//! Why the entries of a call are not built.

ghost use Rattle.std.specs.Prelude.{◌≡◌};
ghost use Rattle.post_queue.specs.declared.build_stops.BuildStop.TheVariants.{Refused, NoMemory};

use gaspi_types::{NoMemory, Refusal};

/// Why the entries of a call are not built: a refusal, or out of memory.
#[derive(Clone, Copy, Debug, PartialEq, Eq)]
pub enum BuildStop {
    /// The call is refused, with that.
    Refused(Refusal),
    /// Out of memory. Nothing was posted.
    NoMemory,
}

impl From<Refusal> for BuildStop {
    ghost from_gives = { λ refusal stop. stop ≡ Refused refusal };

    fn from(refusal: Refusal) -> BuildStop {
        BuildStop::Refused(refusal)
    }
}

impl From<NoMemory> for BuildStop {
    ghost from_gives = { λ _ stop. stop ≡ NoMemory };

    fn from(_error: NoMemory) -> BuildStop {
        BuildStop::NoMemory
    }
}
