//! What follows from the kind and the phase of an entry: whether it is awaited, which own segment it uses, and how many events are
//! owed for it. (GASPI: one-sided communication, segments)

ghost use Rattle.std.specs.Prelude.{◌≡◌};
ghost use Rattle.post_queue.specs.Kinds.{one_if, is_awaited, used_segment, events_owed};

use gaspi_types::Kind;

/// The phase of an entry, without its bytes.
#[derive(Clone, Copy, Debug, PartialEq, Eq)]
pub enum PhaseKind {
    /// It is posted.
    Posted,
    /// It has taken its bytes.
    Carried,
    /// It has failed.
    Failed,
}

/// 1 for an awaited entry, else 0.
pub fn awaited_count(kind: &Kind, progress: PhaseKind) -> u32
    ensures { result ≡ one_if (is_awaited kind.now progress) }
{
    match kind {
        Kind::Read { .. } | Kind::ReadNote { .. } => 1,
        Kind::Write { .. } | Kind::Notify { .. } => match progress {
            PhaseKind::Posted => 1,
            PhaseKind::Carried => 0,
            PhaseKind::Failed => 0,
        },
    }
}

/// The own segment that an entry uses: it has still to read from it or to write to it.
pub fn used_segment(kind: &Kind, progress: PhaseKind) -> Option<u32>
    ensures { result ≡ used_segment kind.now progress }
{
    match kind {
        Kind::Write { own, target: _ } => match progress {
            PhaseKind::Posted => Some(own.segment),
            PhaseKind::Carried | PhaseKind::Failed => None,
        },
        Kind::Read { own, target: _ } => match progress {
            PhaseKind::Posted | PhaseKind::Carried => Some(own.segment),
            PhaseKind::Failed => None,
        },
        Kind::Notify { .. } => None,
        Kind::ReadNote { own } => match progress {
            PhaseKind::Posted | PhaseKind::Carried => Some(own.segment),
            PhaseKind::Failed => None,
        },
    }
}

/// How many events are owed for an entry in this phase.
pub fn events_owed(progress: PhaseKind) -> u32
    ensures { result ≡ events_owed progress }
{
    match progress {
        PhaseKind::Posted => 2,
        PhaseKind::Carried => 1,
        PhaseKind::Failed => 0,
    }
}
