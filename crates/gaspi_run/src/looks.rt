//! How many looks the calls of a script may have.

ghost use Rattle.std.specs.Prelude.{◌≡◌};
ghost use Rattle.gaspi_run.specs.Looks.{bounded};

use gaspi_types::Timeout;

/// A timeout with an end: the line's own, or `limit` looks where the line blocks.
pub(crate) fn bounded(timeout: Timeout, limit: u32) -> Timeout
    ensures { result ≡ bounded limit timeout }
{
    match timeout {
        Timeout::Looks(looks) => Timeout::Looks(looks),
        Timeout::Block => Timeout::Looks(limit),
    }
}
