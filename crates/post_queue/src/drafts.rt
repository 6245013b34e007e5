//! Drafts: entries before their post, with capacity for their bytes. A draft takes the memory of its entry, so that neither the post
//! nor the take of it takes any. (GASPI: one-sided communication)

ghost use Rattle.std.specs.Prelude.{◌≡◌, length, IfOk, IsOk};
ghost use Rattle.post_queue.specs.Payloads.{payload_size};

use gaspi_types::{Bytes, Kind, NoMemory, Sequence};
use std::alloc::Global;
use std::marker::Model;

/// How many bytes an entry of this kind carries.
pub fn carried_size(kind: &Kind) -> u32
    ensures { result ≡ payload_size kind.now }
{
    match kind {
        Kind::Write { own, target: _ } => own.size,
        Kind::Read { own, target: _ } => own.size,
        Kind::Notify { .. } | Kind::ReadNote { .. } => 0,
    }
}

/// An entry before its post: its kind, with capacity for the bytes that it will carry. Contracts see the kind alone.
#[derive(Debug, Drop)]
pub struct Draft {
    /// What the entry asks for.
    kind: Kind,
    /// As many zeros as the entry will carry bytes.
    room: Bytes,
}

impl Model for Draft {
    ghost use Rattle.std.specs.Prelude.{◌≡◌, length};
    ghost use Rattle.gaspi_types.specs.declared.entries.Kind.{Kind};
    ghost use Rattle.post_queue.specs.Payloads.{payload_size};

    ghost Value = { Kind };

    ghost view = { λ draft. draft.kind };

    ghost invariant = { λ draft. length draft.room ≡ payload_size draft.kind };
}

impl Draft {
    /// The draft of an entry of this kind. Its memory is taken here; a kind that carries no bytes takes none.
    pub fn new(alloc: Global, kind: Kind) -> Result<Draft, NoMemory>
        ensures kind { IfOk result (λ draft. draft ≡ kind) }
        ensures bare { payload_size kind ≡ 0 → IsOk result }
    {
        let size = carried_size(&kind) as usize;
        if size == 0 {
            return Ok(Draft {
                kind,
                room: Sequence::new(alloc),
            });
        }
        Ok(Draft {
            kind,
            room: Sequence::from_vec(vec![in alloc; 0; size]?),
        })
    }

    /// What the entry asks for.
    pub fn kind(&self) -> &Kind
        ensures { result.now ≡ self.now }
    {
        &self.kind
    }

    /// Its kind, and its list for the bytes, which is as long as they are.
    pub fn into_parts(self) -> (Kind, Bytes)
        ensures kind { result.0 ≡ self }
        ensures room { length result.1 ≡ payload_size self }
    {
        let Draft { kind, room } = self;
        (kind, room)
    }
}
