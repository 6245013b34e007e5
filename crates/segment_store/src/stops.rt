//! Why a call on a store that takes memory changed nothing.

ghost use Rattle.std.specs.Prelude.{◌≡◌};
ghost use Rattle.segment_store.specs.declared.stops.PartStop.TheVariants.{Refused, NoMemory};

use gaspi_types::{NoMemory, Refusal};

/// Why a call on a store changed nothing: a refusal, or out of memory.
#[derive(Clone, Copy, Debug, PartialEq, Eq)]
pub enum PartStop {
    /// The call is refused; this says why.
    Refused(Refusal),
    /// Out of memory, where the call is not refused.
    NoMemory,
}

impl From<Refusal> for PartStop {
    ghost from_gives = { λ refusal stop. stop ≡ Refused refusal };

    fn from(refusal: Refusal) -> PartStop {
        PartStop::Refused(refusal)
    }
}

impl From<NoMemory> for PartStop {
    ghost from_gives = { λ _ stop. stop ≡ NoMemory };

    fn from(_error: NoMemory) -> PartStop {
        PartStop::NoMemory
    }
}
