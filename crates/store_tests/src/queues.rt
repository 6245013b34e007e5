//! The queues of one origin: posts, takes, puts, failures, waits and purges, without the bytes of segments.

use gaspi_types::{ByteRange, Kind, NoMemory, NoteSlot, Phase, QueueId, RankId, Refusal};
use post_queue::{Entries, Lanes, carried_size};
use std::alloc::Global;
use std::test::Fail;

/// A write of three bytes of an own segment.
fn write_of(segment: u32) -> Kind {
    let range = ByteRange {
        segment,
        generation: 0,
        offset: 8,
        size: 3,
    };
    Kind::Write {
        own: range,
        target: range,
    }
}

/// A notification.
fn notify() -> Kind {
    Kind::Notify {
        target: NoteSlot {
            segment: 1,
            generation: 0,
            note: 2,
        },
        value: 7,
    }
}

/// The empty queues of a rank: two, with an open count of four at most, in a world of two ranks.
fn empty(alloc: Global) -> Result<Lanes, NoMemory> {
    Lanes::new(alloc, 2, 2, 4)
}

/// The answer of `post`: None where the lane or the numbers for it are not there.
type Posted = Result<Option<Result<(), Refusal>>, NoMemory>;

/// Posts a write and its notification, where the world has the target and few were posted.
fn post(alloc: Global, lanes: &mut Lanes, queue: u64, target: RankId, segment: u32) -> Posted {
    let entries = Entries::new(alloc, &[write_of(segment), notify()])?;
    if target.number() >= lanes.ranks() || lanes.next_number() > 1000 || entries.len() > 2 {
        return Ok(None);
    }
    Ok(Some(lanes.post(queue, target, entries)))
}

/// The first posted entry of a lane takes these bytes. False where there is none, or its capacity is another.
fn carry(lanes: &mut Lanes, queue: u64, target: RankId, bytes: &[u8]) -> bool {
    let Some(entry) = lanes.front_posted(queue, target) else {
        return false;
    };
    if carried_size(entry.kind()) as usize != bytes.len() {
        return false;
    }
    lanes.mark_carried(queue, target, bytes);
    true
}

/// The first carried entry of a lane goes. False where there is none.
fn put(lanes: &mut Lanes, queue: u64, target: RankId) -> bool {
    let there = lanes.front_carried(queue, target).is_some();
    if there {
        lanes.remove(queue, target);
    }
    there
}

/// The first carried entry of a lane fails. False where there is none.
fn fail_put(lanes: &mut Lanes, queue: u64, target: RankId) -> bool {
    let there = lanes.front_carried(queue, target).is_some();
    if there {
        lanes.fail_carried(queue, target);
    }
    there
}

/// The first posted entry of a lane fails. False where there is none.
fn fail_take(lanes: &mut Lanes, queue: u64, target: RankId) -> bool {
    let there = lanes.front_posted(queue, target).is_some();
    if there {
        lanes.fail_posted(queue, target);
    }
    there
}

/// A wait for a queue is done. False where it is not ready.
fn wait(lanes: &mut Lanes, queue: u64) -> bool {
    let ready = matches!(lanes.wait_ready(queue), Ok(true));
    if ready {
        lanes.close_wait(queue);
    }
    ready
}

/// Whether the first carried entry of a lane is that write, with these bytes.
fn is_write(lanes: &Lanes, queue: u64, target: RankId, segment: u32, bytes: &[u8]) -> bool {
    match lanes.front_carried(queue, target) {
        Some(entry) => match &entry.phase {
            Phase::Carried(carried) => {
                entry.kind == write_of(segment) && carried.as_slice() == bytes
            }
            _ => false,
        },
        None => false,
    }
}

/// Whether that many entries were posted in all, and that many events are owed.
fn counts(lanes: &Lanes, posted: u32, owed: u64) -> bool {
    lanes.next_number() == posted && lanes.owed() == owed
}

/// Whether a queue has that open count.
fn is_open(lanes: &Lanes, queue: u64, entries: u32) -> bool {
    lanes.open_count(queue) == Ok(entries)
}

/// Whether that is the least queue with an entry that uses a segment.
fn is_used(lanes: &Lanes, segment: u64, queue: Option<u32>) -> bool {
    lanes.uses(segment) == queue
}

/// Whether a wait for a queue is ready, or its refusal.
fn waiting(lanes: &Lanes, queue: u64) -> Result<bool, Refusal> {
    lanes.wait_ready(queue)
}

/// The number of the first posted entry of a lane.
fn posted(lanes: &Lanes, queue: u64, target: RankId) -> Option<u32> {
    lanes
        .front_posted(queue, target)
        .map(|entry| entry.number())
}

/// Whether that is the least target of a queue with a nonempty lane.
fn is_nonempty(lanes: &Lanes, queue: u64, target: Option<RankId>) -> bool {
    lanes.nonempty_lane(queue) == target
}

/// Whether that is the next movable lane after a lane, by the numbers of its queue and its target.
fn is_next(lanes: &Lanes, queue: QueueId, target: RankId, next: Option<(u32, u32)>) -> bool {
    match lanes.next_lane((queue, target)) {
        Some((queue, target)) => next == Some((queue.number(), target.number())),
        None => next.is_none(),
    }
}

/// The answer to a post of `entries` entries to a queue, which is not made.
fn checked(lanes: &Lanes, queue: u64, entries: u32) -> Result<(), Refusal> {
    lanes.check_post(queue, entries)
}

/// The answer of a purge of a queue.
fn purge(lanes: &mut Lanes, queue: u64) -> Result<(), Refusal> {
    lanes.purge(queue)
}

/// Whether a write and its notification of queue 1 are posted, and are the first of their lane alone.
fn are_posted(lanes: &Lanes, target: RankId) -> bool {
    counts(lanes, 2, 4)
        && is_open(lanes, 1, 2)
        && is_open(lanes, 0, 0)
        && is_used(lanes, 5, Some(1))
        && matches!(waiting(lanes, 1), Ok(false))
        && posted(lanes, 1, target) == Some(0)
        && is_nonempty(lanes, 1, Some(target))
}

/// Whether no other lane has a posted entry.
fn are_alone(lanes: &Lanes, target: RankId) -> bool {
    posted(lanes, 0, target).is_none()
        && posted(lanes, 1, RankId::of(0)).is_none()
        && is_nonempty(lanes, 0, None)
        && is_nonempty(lanes, 2, None)
}

/// Makes both takes. Whether they are applied, and no wait waits for these entries then.
fn are_carried(lanes: &mut Lanes, target: RankId) -> bool {
    carry(lanes, 1, target, &[1, 2, 3])
        && is_used(lanes, 5, None)
        && carry(lanes, 1, target, &[])
        && counts(lanes, 2, 2)
        && wait(lanes, 1)
        && is_open(lanes, 1, 0)
}

/// Makes both puts. Whether the write is first, and no entry is left.
fn are_put(lanes: &mut Lanes, target: RankId) -> bool {
    is_write(lanes, 1, target, 5, &[1, 2, 3])
        && put(lanes, 1, target)
        && is_nonempty(lanes, 1, Some(target))
        && put(lanes, 1, target)
        && is_nonempty(lanes, 1, None)
        && !put(lanes, 1, target)
        && counts(lanes, 2, 0)
}

#[test]
fn a_write_and_its_notification_are_carried_and_put(rt: HostRuntime) -> Result<(), Fail> {
    let alloc = rt.alloc();
    let target = RankId::of(1);
    let mut lanes = empty(alloc)?;
    assert!(rt; matches!(post(alloc, &mut lanes, 1, target, 5)?, Some(Ok(()))));
    assert!(rt; are_posted(&lanes, target));
    assert!(rt; are_alone(&lanes, target));
    assert!(rt; are_carried(&mut lanes, target));
    assert!(rt; are_put(&mut lanes, target));
    Ok(())
}

/// Whether two posts fill queue 0, and one goes to queue 1.
fn are_filled(
    alloc: Global,
    lanes: &mut Lanes,
    near: RankId,
    far: RankId,
) -> Result<bool, NoMemory> {
    let first = matches!(post(alloc, lanes, 0, near, 3)?, Some(Ok(())));
    let second = matches!(post(alloc, lanes, 0, far, 4)?, Some(Ok(())));
    let other = matches!(post(alloc, lanes, 1, far, 4)?, Some(Ok(())));
    let over = post(alloc, lanes, 0, near, 3)?;
    let is_full = matches!(over, Some(Err(Refusal::QueueFull { count: 4, need: 2 })));
    Ok(first && second && other && is_full)
}

/// Whether queue 0 is full for one entry more, and queue 1 is not; and which lanes are nonempty.
fn are_checked(lanes: &Lanes, near: RankId, far: RankId) -> bool {
    matches!(
        checked(lanes, 0, 1),
        Err(Refusal::QueueFull { count: 4, need: 1 })
    ) && checked(lanes, 1, 2).is_ok()
        && matches!(checked(lanes, 2, 1), Err(Refusal::BadQueue))
        && is_nonempty(lanes, 0, Some(near))
        && is_nonempty(lanes, 1, Some(far))
}

/// Whether the movable lanes come one after another: both of queue 0, then the one of queue 1, then the first again.
fn are_in_order(lanes: &Lanes, near: RankId, far: RankId) -> bool {
    is_next(lanes, QueueId::of(0), near, Some((0, 1)))
        && is_next(lanes, QueueId::of(0), far, Some((1, 1)))
        && is_next(lanes, QueueId::of(1), near, Some((1, 1)))
        && is_next(lanes, QueueId::of(1), far, Some((0, 0)))
        && is_next(lanes, QueueId::of(7), near, Some((0, 0)))
}

/// Whether a queue is broken with rank 1.
fn is_broken(lanes: &Lanes, queue: u64) -> bool {
    matches!(waiting(lanes, queue), Err(Refusal::QueueBroken { rank: 1 }))
}

/// Lets a put of queue 0 fail. Whether the queue is then broken, and takes no post.
fn is_failed(
    alloc: Global,
    lanes: &mut Lanes,
    near: RankId,
    far: RankId,
) -> Result<bool, NoMemory> {
    let failed = carry(lanes, 0, far, &[1, 2, 3]) && fail_put(lanes, 0, far);
    let late = post(alloc, lanes, 0, near, 3)?;
    let refused = matches!(late, Some(Err(Refusal::QueueBroken { rank: 1 })))
        && matches!(checked(lanes, 0, 0), Err(Refusal::QueueBroken { rank: 1 }));
    Ok(failed && refused && is_broken(lanes, 0))
}

/// Whether the entries that did not fail stay.
fn are_kept(lanes: &Lanes) -> bool {
    is_used(lanes, 3, Some(0)) && is_used(lanes, 4, Some(1)) && counts(lanes, 6, 10)
}

/// Whether queue 0 is as it was made, once it is purged.
fn is_purged(lanes: &mut Lanes) -> bool {
    purge(lanes, 0).is_ok()
        && matches!(purge(lanes, 2), Err(Refusal::BadQueue))
        && matches!(waiting(lanes, 0), Ok(true))
        && is_open(lanes, 0, 0)
        && is_used(lanes, 3, None)
        && is_nonempty(lanes, 0, None)
}

#[test]
fn failures_break_their_queue_alone(rt: HostRuntime) -> Result<(), Fail> {
    let alloc = rt.alloc();
    let (near, far) = (RankId::of(0), RankId::of(1));
    let mut lanes = empty(alloc)?;
    assert!(rt; are_filled(alloc, &mut lanes, near, far)?);
    assert!(rt; are_checked(&lanes, near, far));
    assert!(rt; are_in_order(&lanes, near, far));
    assert!(rt; is_failed(alloc, &mut lanes, near, far)?);
    assert!(rt; is_next(&lanes, QueueId::of(1), far, Some((1, 1))));
    assert!(rt; are_kept(&lanes));
    assert!(rt; is_purged(&mut lanes));
    assert!(rt; fail_take(&mut lanes, 1, far));
    assert!(rt; is_broken(&lanes, 1) && counts(&lanes, 6, 2));
    assert!(rt; is_next(&lanes, QueueId::of(0), near, None));
    Ok(())
}
