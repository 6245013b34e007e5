//! The writes of one lane, that of the put `at`, as the events of a journal show them: each is posted, put, or purged. For
//! `why`.
//!
//! `at` is the put of an entry: its lane is the one that is followed. What a list has after `NoMemory` is not said.

ghost use Rattle.std.specs.Prelude.{◌≡◌, ℕ, ◌+◌, ◌*◌, ◌^◌, ◌<◌, ◌≤◌, ◌||◌, ◌++◌, [], true, length, if◌then◌else◌, IfOk, OnOk, Some};
ghost use Rattle.gaspi_model.specs.Order.{is_purge_of};
ghost use Rattle.gaspi_model.specs.Step.{is_legal};
ghost use Rattle.gaspi_types.specs.CallRows.{entries_of};
ghost use Rattle.gaspi_types.specs.World.{ShapeValue, IsShape};
ghost use Rattle.call_journal.specs.LaneWrites.{writes_in, posts_notification, post_of, goes_to, entries_in, writes_to, is_notification_of, put_in, put_of, put_at, with_put, new_writes, writes_after, arrived, arrived_one};
ghost use Rattle.call_journal.specs.Tracked.{IsTracked, Rise};

use crate::answers::CoveredWrite;
use gaspi_texts::Journal;
use gaspi_types::{Call, Event, NoMemory, Outcome, Posting, QueueId, RankId, Reply, Sequence};
use std::alloc::Global;

/// A put: the lane and the number of its entry.
#[derive(Clone, Copy, Debug, PartialEq, Eq)]
pub struct EntryPut {
    pub origin: RankId,
    pub queue: QueueId,
    pub target: RankId,
    pub number: u32,
}

/// What a post that is done has posted: how many entries to which lane, how many of them are writes, which come first, and
/// whether the last is a notification.
#[derive(Clone, Copy, Debug, PartialEq, Eq)]
pub struct Post {
    pub posting: Posting,
    pub writes: u32,
    pub notified: bool,
}

/// A write of the lane: the place of the call that posted it, its number, and the place of its put, or None where it is not
/// put.
#[derive(Clone, Copy, Debug, PartialEq, Eq)]
pub struct LaneWrite {
    pub post: u64,
    pub number: u32,
    pub put: Option<u64>,
}

/// How many writes a call posts when it is done; they come first.
fn writes_in(call: &Call) -> u32
    ensures value { result ≡ writes_in call.now }
    ensures few { result ≤ entries_of call.now }
{
    let entries = call.row().entries();
    match call {
        Call::Write(_) | Call::WriteList(_) => entries,
        Call::WriteNotify(_) | Call::WriteListNotify(_) => entries.saturating_sub(1),
        _ => 0,
    }
}

/// Whether the last entry that a call posts is a notification.
fn posts_notification(call: &Call) -> bool
    ensures { result ≡ posts_notification call.now }
{
    matches!(
        call,
        Call::Notify(_) | Call::WriteNotify(_) | Call::WriteListNotify(_)
    )
}

/// What an event has posted; None where it is no post of a caller of that origin that is done.
fn post_of(event: &Event, origin: RankId) -> Option<Post>
    ensures { result ≡ post_of origin event.now }
{
    match event {
        Event::Called(caller, call, Reply::Done) if caller.rank.number() == origin.number() => {
            let posting = call.row().posting?;
            Some(Post {
                posting,
                writes: writes_in(call),
                notified: posts_notification(call),
            })
        }
        _ => None,
    }
}

/// Whether a post of the lane's origin is to the lane.
fn goes_to(at: &EntryPut, post: &Post) -> bool
    ensures { result ≡ goes_to at.now post.now }
{
    post.posting.rank == u64::from(at.target.number())
        && post.posting.queue == u64::from(at.queue.number())
}

/// How many entries were posted; 0 where there is no post.
fn entries_in(post: Option<Post>) -> u32
    ensures { result ≡ entries_in post }
{
    match post {
        Some(post) => post.posting.entries,
        None => 0,
    }
}

/// How many writes were posted to the lane.
fn writes_to(at: &EntryPut, post: Option<Post>) -> u32
    ensures { result ≡ writes_to at.now post }
{
    match post {
        Some(post) if goes_to(at, &post) => post.writes,
        _ => 0,
    }
}

/// Whether the post has posted the entry of `at` itself, as its notification. `next` is the number of the first entry of the
/// post.
fn is_notification_of(at: &EntryPut, next: u32, post: Option<Post>) -> bool
    ensures { result ≡ is_notification_of at.now next post }
{
    match post {
        Some(post) if goes_to(at, &post) && post.notified => {
            let number = at.number;
            u64::from(next) + u64::from(post.posting.entries) == u64::from(number) + 1
        }
        _ => false,
    }
}

/// The put of an event, or None where the event is no put that is applied.
fn put_of(event: &Event) -> Option<EntryPut>
    ensures { result ≡ put_of event.now }
{
    match event {
        Event::Put(origin, queue, target, number, Outcome::Applied) => Some(EntryPut {
            origin: *origin,
            queue: *queue,
            target: *target,
            number: *number,
        }),
        _ => None,
    }
}

/// The put at a place of a journal, or None where no put that is applied is there.
pub fn put_at(journal: &Journal, place: u64) -> Option<EntryPut>
    ensures { result ≡ put_at journal.now place }
{
    match journal.get(place as usize) {
        Some(event) => put_of(event),
        None => None,
    }
}

/// The number of the entry that an event puts, or None where the event is no put of the lane that is applied.
fn put_in(at: &EntryPut, event: &Event) -> Option<u32>
    ensures { result ≡ put_in at.now event.now }
{
    match event {
        Event::Put(origin, queue, target, number, Outcome::Applied)
            if origin.number() == at.origin.number()
                && queue.number() == at.queue.number()
                && target.number() == at.target.number() => { Some(*number) }
        _ => None,
    }
}

/// Whether an event is a purge of the lane's queue that is done.
fn is_purge(at: &EntryPut, event: &Event) -> bool
    ensures { result ≡ is_purge_of at.now.origin at.now.queue event.now }
{
    match event {
        Event::Called(caller, Call::Purge(call), Reply::Done) => {
            caller.rank.number() == at.origin.number() && call.queue == u64::from(at.queue.number())
        }
        _ => false,
    }
}

/// Sets the place of the put of the write with a number, where there is such a write. The numbers of the writes have to rise,
/// since they are searched.
fn mark(writes: &mut Vec<LaneWrite>, number: u32, place: u64)
    requires { (next : ℕ) × Rise 0 writes.old.items next }
    ensures { writes.new.items ≡ with_put (Some number) place writes.old.items }
{
    if let Ok(found) = writes.binary_search_by_key(&number, |write| write.number) {
        writes[found].put = Some(place);
    }
}

/// Changes the writes of the lane by the event at a place, but for those that it posts: a purge removes all, and a put sets the
/// place of its write's put.
fn keep(writes: &mut Vec<LaneWrite>, at: &EntryPut, place: u64, event: &Event)
    requires { (next : ℕ) × Rise 0 writes.old.items next }
    ensures { writes.new.items ≡ (if is_purge_of at.now.origin at.now.queue event.now then [] else with_put (put_in at.now event.now) place writes.old.items) }
{
    if is_purge(at, event) {
        writes.clear();
        return;
    }
    if let Some(number) = put_in(at, event) {
        mark(writes, number, place);
    }
}

/// Adds the `count` writes of a post at a place, with numbers one after another from `first` on.
fn add(writes: &mut Vec<LaneWrite>, place: u64, first: u32, count: u32) -> Result<(), NoMemory>
    requires { first + count < 2 ^ 32 }
    ensures { OnOk result (writes.new.items ≡ writes.old.items ++ new_writes place first count) }
{
    for number in first..first + count {
        writes.push(LaneWrite {
            post: place,
            number,
            put: None,
        })?;
    }
    Ok(())
}

/// What the events of a journal before some place show of the lane.
#[derive(Debug, Drop)]
pub struct LaneWrites {
    /// The number of the next entry of its origin.
    pub next: u32,
    /// Whether the entry of `at` itself was posted, as a notification.
    pub notified: bool,
    /// The writes that were posted since the last purge of its queue, by rising number.
    pub writes: Vec<LaneWrite>,
}

impl LaneWrites {
    /// Changes the three fields by the event at a place. The next number has to be small (`few`), and the numbers of the writes
    /// rise (`rise`).
    fn track(&mut self, at: &EntryPut, place: u64, event: &Event) -> Result<(), NoMemory>
        requires few { self.old.next ≤ 2 ^ 30 }
        requires rise { Rise 0 self.old.writes.items self.old.next }
        ensures next { OnOk result (self.new.next ≡ self.old.next + entries_in (post_of at.now.origin event.now)) }
        ensures notified { OnOk result (self.new.notified ≡ (self.old.notified || is_notification_of at.now self.old.next (post_of at.now.origin event.now))) }
        ensures writes { OnOk result (self.new.writes.items ≡ writes_after at.now place event.now self.old.next self.old.writes.items) }
    {
        let post = post_of(event, at.origin);
        keep(&mut self.writes, at, place, event);
        add(&mut self.writes, place, self.next, writes_to(at, post))?;
        self.notified |= is_notification_of(at, self.next, post);
        self.next += entries_in(post);
        Ok(())
    }
}

/// What the events before a place of a journal show of the lane. The journal has to be as short as a legal one, so that no
/// number is too large.
pub fn lane_writes(
    alloc: Global,
    journal: &Journal,
    place: usize,
    at: &EntryPut,
) -> Result<LaneWrites, NoMemory>
    requires there { place ≤ length journal.now }
    requires short { length journal.now ≤ 16 * 65536 }
    ensures rise { IfOk result (λ found. Rise 0 found.writes.items found.next) }
    ensures tracked { IfOk result (λ found. (w : ShapeValue) → IsShape w → is_legal w journal.now ≡ true → IsTracked w journal.now place at.now found.next found.notified found.writes.items) }
{
    let mut found = LaneWrites {
        next: 0,
        notified: false,
        writes: Vec::new(alloc),
    };
    let earlier = &journal.as_slice()[..place];
    for (before, event) in earlier.iter().enumerate() {
        found.track(at, before as u64, event)?;
    }
    Ok(found)
}

/// Those of the writes that are put and have a number below `number`, as covered writes.
pub fn arrived(
    alloc: Global,
    writes: &[LaneWrite],
    number: u32,
) -> Result<Sequence<CoveredWrite>, NoMemory>
    ensures { IfOk result (λ list. list ≡ arrived number writes.now) }
{
    let mut list = Sequence::new(alloc);
    for write in writes {
        match write.put {
            Some(put) if write.number < number => list.push(CoveredWrite {
                post: write.post,
                number: write.number,
                put,
            })?,
            _ => {}
        }
    }
    Ok(list)
}
