//! What a look at a collective finds pending. (GASPI: timeouts)

ghost use Rattle.std.specs.Prelude.{◌≡◌};
ghost use Rattle.std.specs.Option.{option_copied};
ghost use Rattle.gaspi_types.specs.Collectives.{resume};

use crate::comparisons::same_args;
use gaspi_types::{Args, PendingCollective, Refusal, Resume, ThreadId};

/// Whether a collective is new (`Fresh`), since none of the rank is pending on the group, or the one that is pending (`Same`).
/// Else it is refused: `ActiveCollective` where another thread joined `pending`, or `ResumeOther` where the two differ in kind,
/// arguments or values. `args` is None for a `create` whose id or size has over 32 bits: none such can be pending. (GASPI:
/// timeouts)
pub fn resume(
    pending: Option<&PendingCollective>,
    thread: ThreadId,
    args: Option<&Args>,
) -> Result<Resume, Refusal>
    ensures { result ≡ resume (option_copied pending.entry) thread (option_copied args.entry) }
{
    let Some(pending) = pending else {
        return Ok(Resume::Fresh);
    };
    if pending.thread.number() != thread.number() {
        return Err(Refusal::ActiveCollective {
            thread: pending.thread.number(),
        });
    }
    match args {
        Some(args) if same_args(args, &pending.args) => Ok(Resume::Same),
        _ => Err(Refusal::ResumeOther {
            kept: pending.args.coll,
        }),
    }
}
