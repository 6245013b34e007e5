//! Laws of the histories of a world, and of the timeouts in them: the contracts of functions that do nothing.

ghost use Rattle.std.specs.Prelude.{◌≡◌, ◌↔◌, ℕ, Bool, List, [], ◌∷◌, ◌++◌, Some, true};
ghost use Rattle.gaspi_types.specs.World.{ShapeValue};
ghost use Rattle.gaspi_types.specs.declared.calls.Call.{Call};
ghost use Rattle.gaspi_types.specs.declared.calls.Timeout as timeouts;
ghost use Rattle.gaspi_types.specs.declared.events.Event.{Event};
ghost use Rattle.gaspi_types.specs.declared.replies.Reply.{Reply};
ghost use Rattle.gaspi_types.specs.declared.replies.Reply.TheVariants.{Timeout};
ghost use Rattle.gaspi_types.specs.declared.shapes.CallerId.{CallerId};
ghost use Rattle.gaspi_model.specs.Step.{is_legal, recorded_calls};
ghost use Rattle.timeout_state.specs.Looks.{looks_of};
ghost use Rattle.commit_table.specs.declared.views.PassView.{PassView};
ghost use Rattle.gaspi_world.specs.Calling.{IsCalled, IsStopped};
ghost use Rattle.gaspi_world.specs.Waits.{Waited, HaveWaited};
ghost use Rattle.gaspi_world.specs.declared.starts.Start.{Start};
ghost use Rattle.gaspi_world.specs.WorldMachine.{world_machine};

/// A history may be committed in a world exactly where it is a legal history of the machine from the world's start.
pub fn world_histories()
    ensures { (w : ShapeValue) (history : List Event) → (world_machine w).Legal history ↔ (is_legal w history ≡ true) }
{}

/// Where each timeout of a caller came only after all its looks, so it is in each longer history that has no other calls of that
/// caller.
pub fn waits_last()
    ensures { (w : ShapeValue) (c : CallerId) (history later : List Event) (looks ns : List ℕ) → Waited w c history looks ns → recorded_calls c.rank c.thread (history ++ later) ≡ recorded_calls c.rank c.thread history → Waited w c (history ++ later) looks ns }
{}

/// How `HaveWaited` goes on, which says that each timeout of a caller came only after all its looks, and has the number of looks for
/// each of its recorded calls. It holds for a pass that has done nothing (`fresh`), with one number more after a recorded call
/// (`called`), and with the same numbers after a stop (`stopped`). (GASPI: timeouts)
pub fn waits_on()
    ensures fresh { (w : ShapeValue) (c : CallerId) (v : PassView Start Event) → v.mine ≡ [] → HaveWaited w c [] v }
    ensures called { (w : ShapeValue) (c : CallerId) (call : Call) (timeout : timeouts.Timeout) (reply : Reply) (v n : PassView Start Event) (ns : List ℕ) (k : ℕ) → HaveWaited w c ns v
        → IsCalled w c call timeout reply v n → (reply ≡ Timeout → looks_of timeout ≡ Some k) → HaveWaited w c (ns ++ k ∷ []) n }
    ensures stopped { (w : ShapeValue) (c : CallerId) (call : Call) (timeout : timeouts.Timeout) (full : Bool) (v n : PassView Start Event) (ns : List ℕ) → HaveWaited w c ns v → IsStopped w c call timeout full v n → HaveWaited w c ns n }
{}
