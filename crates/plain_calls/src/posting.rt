//! The effect of a post on the posts of its origin: entries at the end of a lane, the open count, and the number of the next entry.
//! The post was accepted at its look, so nothing is checked here. (GASPI: one-sided communication)

ghost use Rattle.std.specs.Prelude.{◌≡◌, ◌+◌, ◌<◌, ◌^◌, length, slice_get, Some, Ok, OnOk, OnErr};
ghost use Rattle.gaspi_model.specs.Posting.{with_post};
ghost use Rattle.gaspi_types.specs.Queues.{with_entries};
ghost use Rattle.gaspi_types.specs.declared.entries.Queue.{Queue};
ghost use Rattle.plain_calls.specs.NumberBounds.{IsBounded};

use crate::lanes::posted_entries;
use gaspi_model::Posts;
use gaspi_types::{Entry, Kind, NoMemory, Queue, Sequence};
use std::alloc::Global;

/// Appends entries to the lane to `target`, and adds their number to the queue's open count. Where memory runs out nothing changes.
#[tactic(auto, using(crate::proofs::PostedEntries::posts_lemmas))]
fn append_entries(q: &mut Queue, target: u64, entries: Sequence<Entry>) -> Result<(), NoMemory>
    requires { q.old.open_count + length entries < 2 ^ 32 }
    ensures ok { OnOk result (q.new ≡ with_entries target entries q.old) }
    ensures err { OnErr result (q.new ≡ q.old) }
{
    let count = entries.len() as u32;
    let place = target as usize;
    if place < q.lanes.len() {
        q.lanes.at_mut(place).extend(entries)?;
    }
    q.open_count += count;
    Ok(())
}

/// Appends entries of `kinds`, with the next numbers of their origin, to the lane of `queue` and `target`, and raises the open count
/// of the queue by their number. The count of events stays. Where memory runs out nothing changes.
#[tactic(auto, using(crate::proofs::PostedEntries::posts_lemmas))]
pub fn post(
    alloc: Global,
    posts: &mut Posts,
    queue: u64,
    target: u64,
    kinds: &[Kind],
) -> Result<(), NoMemory>
    requires { IsBounded posts.old (length kinds.now) queue }
    ensures ok { OnOk result (posts.new ≡ with_post posts.old queue target (Ok kinds.now)) }
    ensures err { OnErr result (posts.new ≡ posts.old) }
{
    let entries = posted_entries(alloc, posts.next, kinds)?;
    let place = queue as usize;
    if place < posts.queues.len() {
        append_entries(posts.queues.at_mut(place), target, entries)?;
    }
    posts.next += kinds.len() as u32;
    Ok(())
}
