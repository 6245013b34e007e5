//! A law of still ranks, of which no transfer may come next and whose threads have all ended: the contract of a function that does
//! nothing.

ghost use Rattle.std.specs.Prelude.{◌≡◌, ◌<◌, ℕ, List, Ok};
ghost use Rattle.gaspi_types.specs.declared.events.Event.{Event};
ghost use Rattle.gaspi_model.specs.Settled.{IsSettled};
ghost use Rattle.gaspi_model.specs.Sound.{IsSound};
ghost use Rattle.gaspi_model.specs.Step.{after};
ghost use Rattle.gaspi_model.specs.declared.states.State.{State};
ghost use Rattle.transfer_worker.specs.StillRanks.{IsStill};

/// A still rank stays still, whatever events come (`stays`). Where every rank is still, the state is settled (`settled`). So a worker
/// that looks at one rank after another may conclude that its world is settled.
pub fn still_ranks()
    ensures stays { (s t : State) (events : List Event) (rank : ℕ) → after s events ≡ Ok t → IsStill s rank → IsStill t rank }
    ensures settled { (s : State) → IsSound s → ((rank : ℕ) → rank < s.limits.ranks → IsStill s rank) → IsSettled s }
{}
