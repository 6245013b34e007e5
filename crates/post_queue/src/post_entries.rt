//! The entries of one post as drafts, in the order in which they are appended. (GASPI: one-sided communication)

ghost use Rattle.std.specs.Prelude.{◌≡◌, ◌≤◌, length, drop, slice_get, sum_by, IfOk, IsOk};
ghost use Rattle.post_queue.specs.Payloads.{payload_size};

use crate::drafts::Draft;
use gaspi_types::{Kind, NoMemory};
use std::alloc::Global;
use std::collections::VecDeque;
use std::marker::Model;

/// A draft of each kind, in order. It takes no memory where there is no kind.
fn drafts_of(alloc: Global, kinds: &[Kind]) -> Result<VecDeque<Draft>, NoMemory>
    ensures drafts { IfOk result (λ drafts. drafts.items ≡ kinds.now) }
    ensures empty { length kinds.now ≡ 0 → IsOk result }
{
    let mut drafts = VecDeque::with_capacity(alloc, kinds.len())?;
    for kind in kinds {
        drafts.push_back(Draft::new(alloc, *kind)?)?;
    }
    Ok(drafts)
}

/// The entries that are posted together, as drafts. Contracts see the list of their kinds, in order.
///
/// One entry takes no memory but that for its bytes, so a notification takes none.
#[derive(Debug, Drop)]
pub struct Entries {
    /// The first draft, which is outside the list so that a single one needs no list; None once it was taken out.
    first: Option<Draft>,
    /// The drafts after it.
    more: VecDeque<Draft>,
}

impl Model for Entries {
    ghost use Rattle.std.specs.Prelude.{◌<◌, ◌+◌, ◌^◌, ◌++◌, List, length, option_to_list};
    ghost use Rattle.gaspi_types.specs.declared.entries.Kind.{Kind};

    ghost Value = { List Kind };

    ghost view = { λ entries. option_to_list entries.first ++ entries.more.items };

    ghost invariant = { λ entries. length entries.more.items + 1 < 2 ^ 64 };
}

impl Entries {
    /// Drafts of these kinds. All their memory is taken here.
    pub fn new(alloc: Global, kinds: &[Kind]) -> Result<Entries, NoMemory>
        ensures kinds { IfOk result (λ entries. entries ≡ kinds.now) }
        ensures bare { length kinds.now ≤ 1 → sum_by payload_size kinds.now ≡ 0 → IsOk result }
    {
        let Some((first, more)) = kinds.split_first() else {
            return Ok(Entries {
                first: None,
                more: VecDeque::new(alloc),
            });
        };
        let first = Draft::new(alloc, *first)?;
        Ok(Entries {
            first: Some(first),
            more: drafts_of(alloc, more)?,
        })
    }

    /// How many drafts there are.
    pub fn len(&self) -> usize
        ensures { result ≡ length self.now }
    {
        let first = if self.first.is_some() { 1 } else { 0 };
        first + self.more.len()
    }

    /// Takes the first draft out of the list and gives it; None where there is none.
    pub fn take_first(&mut self) -> Option<Draft>
        ensures first { result ≡ slice_get self.old 0 }
        ensures rest { self.new ≡ drop 1 self.old }
    {
        match self.first.take() {
            Some(draft) => Some(draft),
            None => self.more.pop_front(),
        }
    }
}
