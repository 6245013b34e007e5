//! One queue: its open count, its broken mark, and for each target a lane in two rings, which are lists of fixed capacity; with
//! counts and marks, so that no function walks over its entries. `Lanes` has the queues, and its functions are those of one queue
//! here. (GASPI: one-sided communication)

ghost use Rattle.std.specs.Prelude.{◌≡◌, ◌+◌, ◌<◌, ◌≤◌, ◌^◌, true, [], ◌∷◌, length, map, replicate, slice_get, sum_by, None, Some, Ok, option_copied, IfOk, IfSome, IsSome, IsSomeAnd};
ghost use Rattle.std.specs.List.{list_any};
ghost use Rattle.gaspi_types.specs.Lanes.{has_user, posted_entries};
ghost use Rattle.gaspi_types.specs.Queues.{queue_owed, with_entries};
ghost use Rattle.gaspi_types.specs.declared.entries.Entry.{Entry};
ghost use Rattle.post_queue.specs.Payloads.{payload_size};
ghost use Rattle.post_queue.specs.LeastFrom.{AnswersLeast};
ghost use Rattle.post_queue.specs.MovableLanes.{is_movable, is_movable_to};
ghost use Rattle.post_queue.specs.Nonempty.{nonempty_in};
ghost use Rattle.post_queue.specs.QueueStates.{state_of, cleared_prefix};
ghost use Rattle.post_queue.specs.Steps.{front_posted_in, front_carried_in, head_in, carried_in, put_done_in, posted_failed_in, head_failed_in, closed_queue, purged_queue, depth_checks, wait_in};

use crate::entries::PostedEntry;
use crate::kinds::PhaseKind;
use crate::lane_rings::LaneRings;
use crate::queue_counts::QueueCounts;
use crate::target_sets::{first_member, member_from, set_member};
use crate::{Draft, Entries};
use gaspi_types::{Entry, NoMemory, RankId, Refusal, Sequence};
use std::alloc::Global;
use std::marker::Model;

/// `ranks` empty lanes, each with capacity for the depth.
fn empty_lanes(alloc: Global, ranks: usize, depth: u32) -> Result<Sequence<LaneRings>, NoMemory>
    ensures { IfOk result (λ lanes. lanes ≡ replicate ranks (record { depth = depth; entries = [] })) }
{
    let mut lanes = Sequence::with_capacity(alloc, ranks)?;
    for _rank in 0..ranks {
        lanes.push(LaneRings::new(alloc, depth as usize)?)?;
    }
    Ok(lanes)
}

/// Drops all entries of these lanes, and keeps the memory of their rings.
fn clear_lanes(lanes: &mut Sequence<LaneRings>)
    ensures { lanes.new ≡ cleared_prefix (length lanes.old) lanes.old }
{
    for target in 0..lanes.len() {
        lanes.at_mut(target).clear();
    }
}

/// A queue with counts over its entries. Contracts see the machine's queue, and its depth.
#[derive(Drop)]
pub struct QueueRings {
    /// The most that its open count may be.
    depth: u32,
    /// How many entries were posted to it since its last `wait` or `purge` that was done.
    open_count: u32,
    /// The target of its failed entry, if it has one.
    broken: Option<RankId>,
    /// For each target its lane.
    lanes: Sequence<LaneRings>,
    /// The counts over its entries: awaited, owed, users of each segment.
    tally: QueueCounts,
    /// The set of the targets whose lanes have an entry.
    nonempty: u32,
}

impl Model for QueueRings {
    ghost use Rattle.post_queue.specs.QueueStates.{QueueState, queue_of, state_of, IsMarked};

    ghost Value = { QueueState };

    ghost view = { λ q. state_of q.depth (queue_of q.open_count q.broken q.lanes) };

    ghost invariant = { λ q. IsMarked q.depth q.open_count q.broken q.lanes q.tally q.nonempty };
}

impl QueueRings {
    /// The empty queue. All memory of its rings is taken here; that of the entries' bytes comes with each draft.
    pub fn new(alloc: Global, ranks: usize, depth: u32) -> Result<QueueRings, NoMemory>
        requires ranks { ranks ≤ 16 }
        requires depth { depth ≤ 256 }
        ensures { IfOk result (λ q. q ≡ state_of depth (record { open_count = 0; broken = None; lanes = replicate ranks [] })) }
    {
        Ok(QueueRings {
            depth,
            open_count: 0,
            broken: None,
            lanes: empty_lanes(alloc, ranks, depth)?,
            tally: QueueCounts::new(),
            nonempty: 0,
        })
    }

    /// Checks that `need` entries may be posted: the queue is not broken (`QueueBroken`), and its open count stays within the depth
    /// (`QueueFull`).
    pub fn check_depth(&self, need: u32) -> Result<(), Refusal>
        ensures { result ≡ depth_checks self.now.depth need self.now.queue }
    {
        if let Some(rank) = self.broken {
            return Err(Refusal::QueueBroken {
                rank: rank.number(),
            });
        }
        let _ = &self.lanes;
        if need > self.depth - self.open_count {
            return Err(Refusal::QueueFull {
                count: self.open_count,
                need,
            });
        }
        Ok(())
    }

    /// Posts one entry of a draft, with this number. The open count is below the depth. It takes no memory.
    fn post_one(&mut self, target: RankId, number: u32, draft: Draft)
        requires target { target < length self.old.queue.lanes }
        requires room { self.old.queue.open_count < self.old.depth }
        ensures { self.new ≡ state_of self.old.depth (with_entries target (posted_entries number (draft ∷ [])) self.old.queue) }
    {
        let kind = *draft.kind();
        self.tally.add(&kind, PhaseKind::Posted);
        self.lanes.at_mut(target.index()).post(number, draft);
        self.nonempty = set_member(self.nonempty, target, true);
        self.open_count += 1;
    }

    /// Posts entries, with numbers from `first` on. The open count stays within the depth, as `check_depth` asks. It takes no
    /// memory.
    pub fn post(&mut self, target: RankId, first: u32, entries: Entries)
        requires target { target < length self.old.queue.lanes }
        requires room { self.old.queue.open_count + length entries ≤ self.old.depth }
        requires numbers { first + length entries < 2 ^ 32 }
        ensures { self.new ≡ state_of self.old.depth (with_entries target (posted_entries first entries) self.old.queue) }
    {
        let mut entries = entries;
        let mut number = first;
        while let Some(draft) = entries.take_first() {
            self.post_one(target, number, draft);
            number += 1;
        }
    }

    /// The first posted entry of the lane to a target, where its take may come: the queue is not broken, and fewer entries of the
    /// lane are carried than the depth.
    pub fn front_posted(&self, target: RankId) -> Option<&PostedEntry>
        ensures { option_copied result ≡ front_posted_in self.now.depth target self.now.queue }
    {
        if self.broken.is_some() {
            return None;
        }
        let lane = self.lanes.get(target.index())?;
        if lane.carried_count() >= self.depth as usize {
            return None;
        }
        lane.front_posted()
    }

    /// The first carried entry of the lane to a target, where its put may come: the queue is not broken. It is the head of the lane.
    pub fn front_carried(&self, target: RankId) -> Option<&Entry>
        ensures answer { option_copied result ≡ front_carried_in target self.now.queue }
        ensures head { IfSome result (λ e. head_in target self.now.queue ≡ Some e.now) }
    {
        if self.broken.is_some() {
            return None;
        }
        let lane = self.lanes.get(target.index())?;
        lane.front_carried()
    }

    /// Makes the entry of `front_posted` carried, with its bytes. It keeps its position. It takes no memory.
    pub fn mark_carried(&mut self, target: RankId, bytes: &[u8])
        requires { IsSomeAnd (front_posted_in self.old.depth target self.old.queue) (λ (e : Entry). length bytes.now ≡ payload_size e.kind) }
        ensures { self.new ≡ state_of self.old.depth (carried_in target bytes.now self.old.queue) }
    {
        let kind = self.lanes.at_mut(target.index()).carry(bytes);
        self.tally.add(&kind, PhaseKind::Carried);
        self.tally.subtract(&kind, PhaseKind::Posted);
    }

    /// Makes the entry of `front_posted` failed, which keeps its position, and breaks the queue.
    pub fn fail_posted(&mut self, target: RankId)
        requires { IsSome (front_posted_in self.old.depth target self.old.queue) }
        ensures { self.new ≡ state_of self.old.depth (posted_failed_in target self.old.queue) }
    {
        let kind = self.lanes.at_mut(target.index()).fail_posted();
        self.tally.add(&kind, PhaseKind::Failed);
        self.tally.subtract(&kind, PhaseKind::Posted);
        self.broken = Some(target);
    }

    /// Makes the entry of `front_carried` failed, which keeps its position, and breaks the queue.
    pub fn fail_carried(&mut self, target: RankId)
        requires { IsSome (front_carried_in target self.old.queue) }
        ensures { self.new ≡ state_of self.old.depth (head_failed_in target self.old.queue) }
    {
        let kind = self.lanes.at_mut(target.index()).fail_carried();
        self.tally.add(&kind, PhaseKind::Failed);
        self.tally.subtract(&kind, PhaseKind::Carried);
        self.broken = Some(target);
    }

    /// Removes the entry of `front_carried`. The open count stays.
    pub fn remove(&mut self, target: RankId)
        requires { IsSome (front_carried_in target self.old.queue) }
        ensures { self.new ≡ state_of self.old.depth (put_done_in target self.old.queue) }
    {
        let place = target.index();
        let kind = self.lanes.at_mut(place).remove();
        let member = self.lanes.at(place).is_nonempty();
        self.nonempty = set_member(self.nonempty, target, member);
        self.tally.subtract(&kind, PhaseKind::Carried);
    }

    /// The least target whose lane has an entry; None where no lane has one. No lane is walked over.
    pub fn nonempty_lane(&self) -> Option<RankId>
        ensures { result ≡ nonempty_in self.now.queue }
    {
        let _ = &self.lanes;
        first_member(self.nonempty)
    }

    /// Whether the queue is not broken and has a nonempty lane. No lane is walked over.
    pub fn is_movable(&self) -> bool
        ensures { result ≡ is_movable self.now.queue }
    {
        self.broken.is_none() && self.nonempty_lane().is_some()
    }

    /// The least target from `from` on whose lane is movable; None where none is. No lane is walked over.
    pub fn movable_lane_from(&self, from: u32) -> Option<RankId>
        requires { from < 32 }
        ensures { AnswersLeast (is_movable_to (Some self.now.queue)) from result }
    {
        let _ = &self.lanes;
        if self.broken.is_some() {
            return None;
        }
        let target = member_from(self.nonempty, from)?;
        Some(RankId::of(target))
    }

    /// Whether an entry uses an own segment.
    pub fn has_user(&self, segment: u64) -> bool
        requires { segment < 32 }
        ensures { result ≡ list_any (has_user segment) self.now.queue.lanes }
    {
        let _ = &self.lanes;
        self.tally.users[segment as usize] != 0
    }

    /// How many events are owed for its entries.
    pub fn owed(&self) -> u32
        ensures value { result ≡ queue_owed self.now.queue }
        ensures bound { result ≤ 16384 }
    {
        let _ = &self.lanes;
        self.tally.owed
    }

    /// The open count.
    pub fn open_count(&self) -> u32
        ensures { result ≡ self.now.queue.open_count }
    {
        self.open_count
    }

    /// Whether no entry is awaited; `QueueBroken` where the queue is broken.
    pub fn wait_ready(&self) -> Result<bool, Refusal>
        ensures { result ≡ wait_in self.now.queue }
    {
        if let Some(rank) = self.broken {
            return Err(Refusal::QueueBroken {
                rank: rank.number(),
            });
        }
        let _ = &self.lanes;
        Ok(self.tally.awaited == 0)
    }

    /// Makes the open count 0. No entry is awaited.
    pub fn close_wait(&mut self)
        requires { wait_in self.old.queue ≡ Ok true }
        ensures { self.new ≡ state_of self.old.depth (closed_queue self.old.queue) }
    {
        let _ = &self.lanes;
        self.open_count = 0;
    }

    /// Drops all entries, and makes the open count 0 and the queue unbroken. The memory of its rings is kept.
    pub fn purge(&mut self)
        ensures { self.new ≡ state_of self.old.depth (purged_queue self.old.queue) }
    {
        clear_lanes(&mut self.lanes);
        self.open_count = 0;
        self.broken = None;
        self.tally = QueueCounts::new();
        self.nonempty = 0;
    }
}
