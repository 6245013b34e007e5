//! Which writes a notification covers: the command `why`.

ghost use Rattle.std.specs.Prelude.{◌≡◌, ◌*◌, ◌≤◌, true, length, IfOk};
ghost use Rattle.call_journal.specs.Explanations.{IsExplanation};
ghost use Rattle.gaspi_model.specs.Step.{is_legal};
ghost use Rattle.gaspi_types.specs.World.{ShapeValue, IsShape};

use crate::answers::Explanation;
use crate::lane_writes::{arrived, lane_writes, put_at};
use crate::verdicts::{Verdict, check};
use gaspi_model::history_lengths;
use gaspi_texts::Journal;
use gaspi_types::{NoMemory, Shape};
use std::alloc::Global;

/// The explanation of a place, where the journal is legal, which the caller has checked. The journal has to be as short as a
/// legal one.
fn explained(alloc: Global, journal: &Journal, place: u64) -> Result<Explanation, NoMemory>
    requires { length journal.now ≤ 16 * 65536 }
    ensures { IfOk result (λ answer. (w : ShapeValue) → IsShape w → is_legal w journal.now ≡ true → IsExplanation w journal.now place answer) }
{
    let Some(at) = put_at(journal, place) else {
        return Ok(Explanation::NoNotification);
    };
    let found = lane_writes(alloc, journal, place as usize, &at)?;
    if !found.notified {
        return Ok(Explanation::NoNotification);
    }
    let writes = arrived(alloc, &found.writes, at.number)?;
    Ok(Explanation::Writes(writes))
}

/// Which writes are covered by the notification that is put at a place of a journal: those of its lane that were posted before
/// it, and not purged since. First the whole journal is checked, as by `check`. A place where no notification is put has no
/// such writes: it may be behind the end, or have a take, a put that failed, or the put of a write, of a read or of the
/// notification of a read. (GASPI: notification order, queue_purge)
pub fn why(
    alloc: Global,
    shape: &Shape,
    journal: &Journal,
    place: u64,
) -> Result<Explanation, NoMemory>
    ensures { IfOk result (λ answer. IsExplanation shape.now journal.now place answer) }
{
    history_lengths();
    shape.limits();
    match check(alloc, shape, journal)? {
        Verdict::Legal => explained(alloc, journal, place),
        Verdict::Illegal { place, why } => Ok(Explanation::Illegal { place, why }),
    }
}
