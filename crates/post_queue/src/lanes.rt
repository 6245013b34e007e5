//! The queues of one origin: what other crates see of this one. The functions find the queue, call its own function, and keep the
//! set of movable queues. (GASPI: one-sided communication)

ghost use Rattle.std.specs.Prelude.{◌≡◌, ◌≢◌, ℕ, ◌+◌, ◌<◌, ◌≤◌, ◌^◌, true, false, length, map, replicate, slice_get, sum_by, position, None, Some, Ok, option_copied, IfOk, IfSome, IfNone, OnOk, OnErr, IsSome, IsSomeAnd};
ghost use Rattle.std.specs.List.{list_any};
ghost use Rattle.gaspi_types.specs.Lanes.{has_user};
ghost use Rattle.gaspi_types.specs.Masks.{is_member};
ghost use Rattle.gaspi_types.specs.Queues.{queue_owed, user_of};
ghost use Rattle.gaspi_types.specs.declared.entries.Entry.{Entry};
ghost use Rattle.post_queue.specs.Payloads.{payload_size};
ghost use Rattle.post_queue.specs.LeastFrom.{AnswersLeast};
ghost use Rattle.post_queue.specs.MovableLanes.{is_movable, is_movable_lane, is_movable_queue, IsNextLane};
ghost use Rattle.post_queue.specs.QueueStates.{QueueState, state_of};
ghost use Rattle.post_queue.specs.Steps.{carried_in, put_done_in, posted_failed_in, head_failed_in, closed_queue, purged_queue};
ghost use Rattle.post_queue.specs.LanesStates.{empty_queue, empty_queues, front_posted_of, front_carried_of, head_of, nonempty_of, post_checks, wait_checks, purge_checks, open_count_of, with_queue, with_posted};

use crate::Entries;
use crate::entries::PostedEntry;
use crate::queue_rings::QueueRings;
use crate::target_sets::{member_from, set_number};
use gaspi_types::{Entry, NoMemory, QueueId, RankId, Refusal, Sequence};
use std::alloc::Global;
use std::marker::Model;

/// `queues` empty queues, each with a lane to each rank.
fn empty_queues(
    alloc: Global,
    queues: u32,
    ranks: u32,
    depth: u32,
) -> Result<Sequence<QueueRings>, NoMemory>
    requires ranks { ranks ≤ 16 }
    requires depth { depth ≤ 256 }
    ensures { IfOk result (λ rings. rings ≡ replicate queues (state_of depth (empty_queue ranks))) }
{
    let mut rings = Sequence::with_capacity(alloc, queues as usize)?;
    for _queue in 0..queues {
        rings.push(QueueRings::new(alloc, ranks as usize, depth)?)?;
    }
    Ok(rings)
}

/// The index of the first queue with an entry that uses an own segment; None where no queue has one.
fn user_place(queues: &[QueueRings], segment: u64) -> Option<usize>
    requires { segment < 32 }
    ensures place { result ≡ position (λ (q : QueueState). list_any (has_user segment) q.queue.lanes) queues.now }
    ensures bound { IfSome result (λ place. place < length queues.now) }
{
    queues.iter().position(|q| q.has_user(segment))
}

/// The set of movable queues, after the queue at an index was changed.
fn movable_after(movable: u32, queues: &Sequence<QueueRings>, place: usize) -> u32
    requires place { place < length queues.now }
    requires few { length queues.now ≤ 8 }
    ensures here { IfSome (slice_get queues.now place) (λ (q : QueueState). is_member result place ≡ is_movable q.queue) }
    ensures others { (other : ℕ) → other < 32 → other ≢ place → is_member result other ≡ is_member movable other }
{
    let member = queues.at(place).is_movable();
    set_number(movable, place as u32, member)
}

/// The queues of one origin. Contracts see the machine's queues, with their depth, the number of ranks to which each has a lane, and
/// the number of the next entry.
///
/// Numbers of queues and segments are those that a caller wrote, so any number may come. A target is a rank of the world. The takes
/// of a lane come in the order of its entries, and so do its puts.
#[derive(Drop)]
pub struct Lanes {
    /// The most that the open count of a queue may be.
    depth: u32,
    /// To how many ranks each queue has a lane.
    ranks: u32,
    /// The number of the next entry.
    next: u32,
    /// The queues, by their numbers.
    queues: Sequence<QueueRings>,
    /// The set of movable queues: those that are not broken and have an entry.
    movable: u32,
}

impl Model for Lanes {
    ghost use Rattle.std.specs.Prelude.{map};
    ghost use Rattle.post_queue.specs.LanesStates.{LanesState, queue_in};
    ghost use Rattle.post_queue.specs.MovableLanes.{AreMarked};

    ghost Value = { LanesState };

    ghost view = { λ s. record { depth = s.depth; ranks = s.ranks; next = s.next; queues = map queue_in s.queues } };

    ghost invariant = { λ s. AreMarked s.depth s.ranks s.queues s.movable };
}

impl Lanes {
    /// `queues` empty queues of this depth, each with a lane to each rank. All memory of their rings is taken here; that of the
    /// entries' bytes comes with each draft. (GASPI: queue_create)
    pub fn new(alloc: Global, queues: u32, ranks: u32, depth: u32) -> Result<Lanes, NoMemory>
        requires queues { queues ≤ 8 }
        requires ranks { ranks ≤ 16 }
        requires depth { depth ≤ 256 }
        ensures { IfOk result (λ s. s ≡ empty_queues queues ranks depth) }
    {
        Ok(Lanes {
            depth,
            ranks,
            next: 0,
            queues: empty_queues(alloc, queues, ranks, depth)?,
            movable: 0,
        })
    }

    /// To how many ranks each queue has a lane.
    pub fn ranks(&self) -> u32
        ensures { result ≡ self.now.ranks }
    {
        self.ranks
    }

    /// The number of the next entry.
    pub fn next_number(&self) -> u32
        ensures { result ≡ self.now.next }
    {
        self.next
    }

    /// Checks that `need` entries may be posted to a queue: there is such a queue (`BadQueue`), it is not broken (`QueueBroken`),
    /// and its open count stays within the depth (`QueueFull`). (GASPI: write, read, notify)
    pub fn check_post(&self, queue: u64, need: u32) -> Result<(), Refusal>
        ensures { result ≡ post_checks self.now queue need }
    {
        let rings = self.queues.get(queue as usize).ok_or(Refusal::BadQueue)?;
        rings.check_depth(need)
    }

    /// Posts entries to the end of a lane, with the next numbers. Where `check_post` refuses them, nothing changes. It takes no
    /// memory. (GASPI: write, read, notify)
    pub fn post(&mut self, queue: u64, target: RankId, entries: Entries) -> Result<(), Refusal>
        requires target { target < self.old.ranks }
        requires numbers { self.old.next + length entries < 2 ^ 32 }
        ensures answer { result ≡ post_checks self.old queue (length entries) }
        ensures ok { OnOk result (self.new ≡ with_posted self.old queue target entries) }
        ensures err { OnErr result (self.new ≡ self.old) }
    {
        let need = entries.len() as u32;
        self.check_post(queue, need)?;
        let place = queue as usize;
        self.queues.at_mut(place).post(target, self.next, entries);
        self.movable = movable_after(self.movable, &self.queues, place);
        self.next += need;
        Ok(())
    }

    /// The first posted entry of a lane, where its take may come, with number and kind. None exactly where there is no such queue or
    /// lane, the queue is broken, no entry of the lane is posted, or as many are carried as the depth says.
    pub fn front_posted(&self, queue: u64, target: RankId) -> Option<&PostedEntry>
        ensures { option_copied result ≡ front_posted_of self.now queue target }
    {
        let rings = self.queues.get(queue as usize)?;
        rings.front_posted(target)
    }

    /// The first carried entry of a lane, where its put may come: it is the head of the lane. None exactly where there is no such
    /// queue or lane, the queue is broken, or no entry of the lane is carried.
    pub fn front_carried(&self, queue: u64, target: RankId) -> Option<&Entry>
        ensures answer { option_copied result ≡ front_carried_of self.now queue target }
        ensures head { IfSome result (λ e. head_of self.now queue target ≡ Some e.now) }
    {
        let rings = self.queues.get(queue as usize)?;
        rings.front_carried(target)
    }

    /// The least target to which a queue has a nonempty lane. None exactly where there is no such queue, or it has no entry. No lane
    /// is walked over. (GASPI: one-sided communication)
    pub fn nonempty_lane(&self, queue: u64) -> Option<RankId>
        ensures { result ≡ nonempty_of self.now queue }
    {
        let rings = self.queues.get(queue as usize)?;
        rings.nonempty_lane()
    }

    /// The least target from `from` on to which a queue has a movable lane; None where there is none.
    fn lane_from(&self, queue: QueueId, from: u32) -> Option<RankId>
        requires { from < 32 }
        ensures { AnswersLeast (is_movable_lane self.now.queues queue) from result }
    {
        let rings = self.queues.get(queue.index())?;
        rings.movable_lane_from(from)
    }

    /// The least movable queue from `from` on; None where there is none.
    fn queue_from(&self, from: u32) -> Option<QueueId>
        requires { from < 32 }
        ensures { AnswersLeast (is_movable_queue self.now.queues) from result }
    {
        let _ = &self.queues;
        let queue = member_from(self.movable, from)?;
        Some(QueueId::of(queue))
    }

    /// The next movable lane after the lane `after`, in cyclic order by queue and target. Calls that go on from the lane of the last
    /// answer reach every movable lane. None exactly where no lane is movable; then one word is read. No lane and no queue is walked
    /// over. (own choice)
    pub fn next_lane(&self, after: (QueueId, RankId)) -> Option<(QueueId, RankId)>
        ensures none { IfNone result ((queue target : ℕ) → is_movable_lane self.now.queues queue target ≡ false) }
        ensures next { IfSome result (IsNextLane self.now.queues after) }
    {
        let first = self.queue_from(0)?;
        let (queue, target) = after;
        if let Some(later) = self.lane_from(queue, target.number() + 1) {
            return Some((queue, later));
        }
        let next = self.queue_from(queue.number() + 1).unwrap_or(first);
        let head = self.lane_from(next, 0)?;
        Some((next, head))
    }

    /// Makes the entry of `front_posted` carried, with its bytes. It keeps its position. It takes no memory.
    pub fn mark_carried(&mut self, queue: u64, target: RankId, bytes: &[u8])
        requires { IsSomeAnd (front_posted_of self.old queue target) (λ (e : Entry). length bytes.now ≡ payload_size e.kind) }
        ensures { self.new ≡ with_queue self.old queue (carried_in target bytes.now) }
    {
        let place = queue as usize;
        self.queues.at_mut(place).mark_carried(target, bytes);
        self.movable = movable_after(self.movable, &self.queues, place);
    }

    /// Removes the entry of `front_carried`. The open count of its queue stays.
    pub fn remove(&mut self, queue: u64, target: RankId)
        requires { IsSome (front_carried_of self.old queue target) }
        ensures { self.new ≡ with_queue self.old queue (put_done_in target) }
    {
        let place = queue as usize;
        self.queues.at_mut(place).remove(target);
        self.movable = movable_after(self.movable, &self.queues, place);
    }

    /// Makes the entry of `front_posted` failed, which keeps its position, and breaks the queue with its target. The state vector is
    /// not changed here. (GASPI: state vector)
    pub fn fail_posted(&mut self, queue: u64, target: RankId)
        requires { IsSome (front_posted_of self.old queue target) }
        ensures { self.new ≡ with_queue self.old queue (posted_failed_in target) }
    {
        let place = queue as usize;
        self.queues.at_mut(place).fail_posted(target);
        self.movable = movable_after(self.movable, &self.queues, place);
    }

    /// Makes the entry of `front_carried` failed, which keeps its position, and breaks the queue with its target. The state vector
    /// is not changed here. (GASPI: state vector)
    pub fn fail_carried(&mut self, queue: u64, target: RankId)
        requires { IsSome (front_carried_of self.old queue target) }
        ensures { self.new ≡ with_queue self.old queue (head_failed_in target) }
    {
        let place = queue as usize;
        self.queues.at_mut(place).fail_carried(target);
        self.movable = movable_after(self.movable, &self.queues, place);
    }

    /// The least queue with an entry that uses an own segment; None where no queue has one, and for a number over 31.
    /// (GASPI: segments)
    pub fn uses(&self, segment: u64) -> Option<u32>
        ensures user { segment < 32 → result ≡ user_of self.now.queues segment }
        ensures none { 32 ≤ segment → result ≡ None }
    {
        if segment >= 32 {
            return None;
        }
        user_place(self.queues.as_slice(), segment).map(|place| place as u32)
    }

    /// Whether no entry of a queue is awaited: `BadQueue` where there is no such queue, `QueueBroken` where it is broken.
    /// (GASPI: wait)
    pub fn wait_ready(&self, queue: u64) -> Result<bool, Refusal>
        ensures { result ≡ wait_checks self.now.queues queue }
    {
        let rings = self.queues.get(queue as usize).ok_or(Refusal::BadQueue)?;
        rings.wait_ready()
    }

    /// Makes the open count of a queue 0. No entry of the queue is awaited. (GASPI: wait)
    pub fn close_wait(&mut self, queue: u64)
        requires { wait_checks self.old.queues queue ≡ Ok true }
        ensures { self.new ≡ with_queue self.old queue closed_queue }
    {
        let place = queue as usize;
        self.queues.at_mut(place).close_wait();
        self.movable = movable_after(self.movable, &self.queues, place);
    }

    /// Drops every entry of a queue, and makes its open count 0 and the queue unbroken. `BadQueue` where there is no such queue.
    /// (GASPI: queue_purge)
    pub fn purge(&mut self, queue: u64) -> Result<(), Refusal>
        ensures answer { result ≡ purge_checks self.old.queues queue }
        ensures ok { OnOk result (self.new ≡ with_queue self.old queue purged_queue) }
        ensures err { OnErr result (self.new ≡ self.old) }
    {
        let place = queue as usize;
        if place >= self.queues.len() {
            return Err(Refusal::BadQueue);
        }
        self.queues.at_mut(place).purge();
        self.movable = movable_after(self.movable, &self.queues, place);
        Ok(())
    }

    /// The open count of a queue. `BadQueue` where there is no such queue. (GASPI: queue_size)
    pub fn open_count(&self, queue: u64) -> Result<u32, Refusal>
        ensures { result ≡ open_count_of self.now.queues queue }
    {
        let rings = self.queues.get(queue as usize).ok_or(Refusal::BadQueue)?;
        Ok(rings.open_count())
    }

    /// How many events are owed for all entries: two for each posted one, and one for each carried one. (own choice)
    pub fn owed(&self) -> u64
        ensures { result ≡ sum_by queue_owed self.now.queues }
    {
        let mut owed = 0;
        for rings in self.queues.as_slice() {
            owed += u64::from(rings.owed());
        }
        owed
    }
}
