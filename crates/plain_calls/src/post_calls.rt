//! The calls that post: their result at a look, with the kinds of the entries that they append. `posting` has the effect.
//! (GASPI: one-sided communication)

ghost use Rattle.std.specs.Prelude.{◌≡◌, ◌≤◌, length, false, IfOk, IsOk};
ghost use Rattle.gaspi_types.specs.Posts.{is_list_post};
ghost use Rattle.gaspi_model.specs.Calls.{requested_kinds};
ghost use Rattle.gaspi_model.specs.PostCalls.{post_result, post_request_result};
ghost use Rattle.plain_calls.specs.Looks.{Grants, Accepts};

use gaspi_model::Posts;
use gaspi_types::{Call, Kind, Limits, NoMemory, Posting, Queue, RankId, Refusal};
use segment_store::{EntryKinds, call_kinds};
use std::alloc::Global;

/// Checks that a queue is not broken (`QueueBroken`), and that its open count with the entries of the call is not over the depth
/// (`QueueFull`).
fn check_depth(limits: &Limits, q: &Queue, kinds: &[Kind]) -> Result<(), Refusal>
    requires { length kinds.now ≤ 257 }
    ensures { Grants result (post_result limits.now q.now kinds.now) }
{
    if let Some(rank) = q.broken {
        return Err(Refusal::QueueBroken {
            rank: rank.number(),
        });
    }
    let count = q.open_count;
    let need = kinds.len() as u32;
    if u64::from(count) + u64::from(need) > u64::from(limits.depth) {
        return Err(Refusal::QueueFull { count, need });
    }
    Ok(())
}

/// The kinds of the entries that a call appends, or its refusal: `BadRank`, `BadQueue`, those of `call_kinds`, those of
/// `check_depth`, in this order. `to` is what the row of the call says of its post. Only the post of a list takes memory.
pub fn posting_result(
    alloc: Global,
    limits: &Limits,
    me: RankId,
    posts: &Posts,
    to: Posting,
    call: &Call,
) -> Result<Result<EntryKinds, Refusal>, NoMemory>
    ensures finds { IfOk result (λ finds. Accepts finds (requested_kinds limits.now me posts.now call.now) (post_request_result limits.now posts.now to.rank to.queue (requested_kinds limits.now me posts.now call.now))) }
    ensures ample { is_list_post call.now ≡ false → IsOk result }
{
    if to.rank >= u64::from(limits.ranks) {
        return Ok(Err(Refusal::BadRank));
    }
    let Some(q) = posts.queues.get(to.queue as usize) else {
        return Ok(Err(Refusal::BadQueue));
    };
    match call_kinds(alloc, limits.notes, me, &posts.segments, call)? {
        Ok(kinds) => match check_depth(limits, q, kinds.as_slice()) {
            Ok(()) => Ok(Ok(kinds)),
            Err(refusal) => Ok(Err(refusal)),
        },
        Err(refusal) => Ok(Err(refusal)),
    }
}
