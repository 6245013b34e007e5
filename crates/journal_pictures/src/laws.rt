//! The law of the arrows of a trace. A law is the contract of a function that does nothing.

ghost use Rattle.std.specs.Prelude.{◌≡◌, List, true};
ghost use Rattle.gaspi_types.specs.World.{ShapeValue, IsShape};
ghost use Rattle.gaspi_types.specs.declared.events.Event.{Event};
ghost use Rattle.gaspi_model.specs.Step.{is_legal};
ghost use Rattle.journal_pictures.specs.Arrows.{JoinsArrows};

/// Each arrow in the trace of a legal journal joins a put with a call that gets the notification: the put has set the slot that
/// the call names or reads, in the generation in which the segment is there; no put has set it since, and no reset has read it.
/// Each `waitsome` that names a slot, and each `reset` that reads another value than 0, has an arrow. (GASPI: notifications)
pub fn arrows_join()
    ensures { (w : ShapeValue) (history : List Event) → IsShape w → is_legal w history ≡ true → JoinsArrows w history }
{}
