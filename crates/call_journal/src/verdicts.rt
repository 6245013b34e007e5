//! Whether a journal is legal: the command `check`.

ghost use Rattle.std.specs.Prelude.{◌≡◌, IfOk};
ghost use Rattle.gaspi_model.specs.ContributionCounts.{ContributesOnce};
ghost use Rattle.gaspi_model.specs.Notifications.{HandsOutOnce};
ghost use Rattle.call_journal.specs.Verdicts.{IsVerdict};
ghost use Rattle.call_journal.specs.declared.verdicts.Verdict.TheVariants.{Legal};

use gaspi_model::{StepFault, Why, contribution_counts, notification_values};
use gaspi_texts::Journal;
use gaspi_types::{NoMemory, Shape};
use plain_machine::Machine;
use std::alloc::Global;

/// The verdict on a journal.
#[derive(Clone, Copy, Debug, PartialEq, Eq)]
pub enum Verdict {
    /// The journal is legal: each of its events is a step.
    Legal,
    /// The event at that place, from 0, is the first that is no step, for that cause.
    Illegal { place: u64, why: Why },
}

/// The verdict on a journal, of which each event is made on a machine in memory, from the opening state on.
fn replay(alloc: Global, shape: &Shape, journal: &Journal) -> Result<Verdict, NoMemory>
    ensures { IfOk result (λ verdict. IsVerdict shape.now journal.now verdict) }
{
    let mut machine = Machine::start(alloc, shape)?;
    for (place, event) in journal.as_slice().iter().enumerate() {
        match machine.step(alloc, event) {
            Ok(()) => {}
            Err(StepFault::Illegal(why)) => {
                let place = place as u64;
                return Ok(Verdict::Illegal { place, why });
            }
            Err(StepFault::NoMemory) => return Err(NoMemory),
        }
    }
    Ok(Verdict::Legal)
}

/// The verdict on a journal. In a legal one no notification value is handed out twice, and no contribution counts twice.
/// (GASPI: notifications, collectives)
pub fn check(alloc: Global, shape: &Shape, journal: &Journal) -> Result<Verdict, NoMemory>
    ensures verdict { IfOk result (λ verdict. IsVerdict shape.now journal.now verdict) }
    ensures handed { IfOk result (λ verdict. verdict ≡ Legal → HandsOutOnce shape.now journal.now) }
    ensures contributed { IfOk result (λ verdict. verdict ≡ Legal → ContributesOnce shape.now journal.now) }
{
    contribution_counts();
    notification_values();
    shape.limits();
    replay(alloc, shape, journal)
}
