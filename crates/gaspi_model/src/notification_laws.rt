//! Laws of whole histories by which nothing counts twice: a notification value is handed out once, and a rank contributes once.
//! A law is the contract of a function that does nothing.

ghost use Rattle.std.specs.Prelude.{◌≡◌, ℕ, List, true};
ghost use Rattle.gaspi_types.specs.World.{ShapeValue, IsShape};
ghost use Rattle.gaspi_types.specs.declared.events.Event.{Event};
ghost use Rattle.gaspi_model.specs.Step.{is_legal};
ghost use Rattle.gaspi_model.specs.ContributionCounts.{ContributesOnce};
ghost use Rattle.gaspi_model.specs.Notifications.{HandsOutOnce};

/// No notification value is handed out twice. Where a reset answers another value than 0, the last put before it that has set
/// this slot, in this generation of its segment, has set it to that value; and different resets have different puts. (GASPI:
/// notifications)
pub fn notification_values()
    ensures { (w : ShapeValue) (history : List Event) → IsShape w → is_legal w history ≡ true → HandsOutOnce w history }
{}

/// A rank has joined a group once for each collective that it has completed there, and once more where one is pending. So a
/// collective that times out and is resumed contributes once. (GASPI: collectives, timeouts)
pub fn contribution_counts()
    ensures { (w : ShapeValue) (history : List Event) → IsShape w → is_legal w history ≡ true → ContributesOnce w history }
{}
