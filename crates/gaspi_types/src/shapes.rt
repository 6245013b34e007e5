//! The shape of a world: its limits, its declared segments and its callers, declared one after another. The private functions
//! search what is declared.

ghost use Rattle.std.specs.Prelude.{◌≡◌, ◌+◌, ◌<◌, ◌≤◌, IsTrue, IfOk, IfErr, OnOk, OnErr, MatchResult, Ok, Err, IsOk, [], true};
ghost use Rattle.std.specs.Prelude.{count_by, ◌==◌};
ghost use Rattle.std.specs.List.{list_any};
ghost use Rattle.gaspi_types.specs.Ranges.{is_between};
ghost use Rattle.gaspi_types.specs.World.{is_segment, is_caller};
ghost use Rattle.gaspi_types.specs.declared.shapes.ShapeFault.TheVariants.{NoMemory};

use crate::ids::{RankId, SegId, ThreadId};
use crate::lists::Sequence;
use crate::memory::NoMemory;
use crate::segments::is_segment_size;
use std::alloc::Global;
use std::marker::Model;
use thiserror::Error;

/// The limits of a world.
#[derive(Clone, Copy, Debug, PartialEq, Eq)]
pub struct Limits {
    /// RANKS: how many ranks there are, 1 to 16.
    pub ranks: u32,
    /// QUEUES: how many queues a rank has, 1 to 8.
    pub queues: u32,
    /// DEPTH: the highest open count of a queue, 1 to 256. No lane has more carried entries.
    pub depth: u32,
    /// NOTES: how many notification slots a segment has, 1 to 1,024.
    pub notes: u32,
    /// INBOX: how many messages an inbox may have, 1 to 64.
    pub inbox: u32,
    /// EVENTS: how many events a rank may record, 1 to 65,536.
    pub events: u32,
}

/// A caller: a thread of a rank that makes calls.
#[derive(Clone, Copy, Debug, PartialEq, Eq)]
pub struct CallerId {
    pub rank: RankId,
    pub thread: ThreadId,
}

/// A declared segment: it is there from the start, and known to every rank. (GASPI: segments)
#[derive(Clone, Copy, Debug, PartialEq, Eq)]
pub struct DeclaredSegment {
    pub rank: RankId,
    pub segment: SegId,
    /// Its size in bytes, 1 to 1,048,576.
    pub size: u32,
}

/// Why a shape, or a declaration for it, is refused.
#[derive(Debug, Drop, Error)]
pub enum ShapeFault {
    /// A number is outside its limits, or is the number of no rank.
    #[error("a number is outside its limits")]
    Limit,
    /// The segment or the caller is declared already.
    #[error("declared twice")]
    Twice,
    /// The rank would have more callers than it may record events.
    #[error("more threads than events")]
    Threads,
    /// Out of memory.
    #[error("out of memory")]
    NoMemory,
}

impl From<NoMemory> for ShapeFault {
    ghost from_gives = { λ _ fault. fault ≡ NoMemory };

    /// For the operator `?`, where memory runs out.
    fn from(_error: NoMemory) -> ShapeFault {
        ShapeFault::NoMemory
    }
}

/// Whether `n` is from `low` to `high`.
fn is_between(low: u64, high: u64, n: u64) -> bool
    ensures { result ≡ is_between low high n }
{
    low <= n && n <= high
}

/// The limits of a world, its declared segments and its callers. Each is within the limits, and none is declared twice.
#[derive(Debug, Drop)]
pub struct Shape {
    limits: Limits,
    segments: Sequence<DeclaredSegment>,
    callers: Sequence<CallerId>,
}

impl Model for Shape {
    ghost use Rattle.gaspi_types.specs.World.{ShapeValue, IsShape};

    ghost Value = { ShapeValue };

    ghost view = { λ s. record { limits = s.limits; segments = s.segments; callers = s.callers } };

    ghost invariant = { λ s. IsShape (record { limits = s.limits; segments = s.segments; callers = s.callers }) };
}

impl Shape {
    ghost use Rattle.gaspi_types.specs.World.{are_limits, IsShape, shape_of, segment_added, caller_added, Declares};

    /// The shape of these limits, with nothing declared; `Limit` where one is outside its range. It takes no memory.
    pub fn new(
        alloc: Global,
        ranks: u64,
        queues: u64,
        depth: u64,
        notes: u64,
        inbox: u64,
        events: u64,
    ) -> Result<Shape, ShapeFault>
        ensures { result ≡ shape_of (record { ranks = ranks; queues = queues; depth = depth; notes = notes; inbox = inbox; events = events }) }
    {
        let within = is_between(1, 16, ranks)
            && is_between(1, 8, queues)
            && is_between(1, 256, depth)
            && is_between(1, 1024, notes)
            && is_between(1, 64, inbox)
            && is_between(1, 65536, events);
        if !within {
            return Err(ShapeFault::Limit);
        }
        Ok(Shape {
            limits: Limits {
                ranks: ranks as u32,
                queues: queues as u32,
                depth: depth as u32,
                notes: notes as u32,
                inbox: inbox as u32,
                events: events as u32,
            },
            segments: Sequence::new(alloc),
            callers: Sequence::new(alloc),
        })
    }

    /// The limits. Its contract also says what holds of every shape (`world`).
    pub fn limits(&self) -> Limits
        ensures value { result ≡ self.now.limits }
        ensures within { are_limits result ≡ true }
        ensures world { IsShape self.now }
    {
        self.limits
    }

    /// How many ranks there are, 1 to 16.
    pub fn ranks(&self) -> u32
        ensures { result ≡ self.now.limits.ranks }
    {
        self.limits.ranks
    }

    /// How many queues a rank has, 1 to 8.
    pub fn queues(&self) -> u32
        ensures { result ≡ self.now.limits.queues }
    {
        self.limits.queues
    }

    /// The highest open count of a queue, 1 to 256.
    pub fn depth(&self) -> u32
        ensures { result ≡ self.now.limits.depth }
    {
        self.limits.depth
    }

    /// How many notification slots a segment has, 1 to 1,024.
    pub fn notes(&self) -> u32
        ensures { result ≡ self.now.limits.notes }
    {
        self.limits.notes
    }

    /// How many messages an inbox may have, 1 to 64.
    pub fn inbox(&self) -> u32
        ensures { result ≡ self.now.limits.inbox }
    {
        self.limits.inbox
    }

    /// How many events a rank may record, 1 to 65,536.
    pub fn events(&self) -> u32
        ensures { result ≡ self.now.limits.events }
    {
        self.limits.events
    }

    /// The declared segments, in the order in which they were declared.
    pub fn segments(&self) -> &[DeclaredSegment]
        ensures { result.now ≡ self.now.segments }
    {
        self.segments.as_slice()
    }

    /// The callers, in the order in which they were declared.
    pub fn callers(&self) -> &[CallerId]
        ensures { result.now ≡ self.now.callers }
    {
        self.callers.as_slice()
    }

    /// An equal shape. No memory is taken where nothing is declared.
    pub fn copy(&self, alloc: Global) -> Result<Shape, NoMemory>
        ensures ok { IfOk result (λ shape. shape ≡ self.now) }
        ensures listless { self.now.segments ≡ [] → self.now.callers ≡ [] → IsOk result }
    {
        Ok(Shape {
            limits: self.limits,
            segments: Sequence::copied_from(alloc, self.segments.as_slice())?,
            callers: Sequence::copied_from(alloc, self.callers.as_slice())?,
        })
    }

    /// Declares a segment of a rank below RANKS, with an id from 0 to 31 and a size of 1 to 1,048,576 bytes. `Limit` where one
    /// of them is outside its limits, else `Twice` where the rank has declared the id, else `NoMemory` where memory runs out.
    /// In each of these cases nothing has changed. (GASPI: segments)
    pub fn add_segment(&mut self, rank: u64, seg: u64, size: u64) -> Result<(), ShapeFault>
        ensures { Declares result self.old self.new (segment_added self.old rank seg size) }
    {
        if rank >= u64::from(self.limits.ranks) || seg >= 32 {
            return Err(ShapeFault::Limit);
        }
        if !is_segment_size(size) {
            return Err(ShapeFault::Limit);
        }
        if has_segment(self.segments.as_slice(), rank, seg) {
            return Err(ShapeFault::Twice);
        }
        let declared = DeclaredSegment {
            rank: RankId::of(rank as u32),
            segment: SegId::of(seg as u32),
            size: size as u32,
        };
        self.segments.push(declared)?;
        Ok(())
    }

    /// Declares a caller: a thread from 0 to 3 of a rank below RANKS. `Limit` where one of them is outside its limits, else
    /// `Twice` where the caller is declared, else `Threads` where its rank would have more callers than EVENTS, since each of
    /// them records its end, else `NoMemory` where memory runs out. In each of these cases nothing has changed.
    pub fn add_caller(&mut self, rank: u64, thread: u64) -> Result<(), ShapeFault>
        ensures { Declares result self.old self.new (caller_added self.old rank thread) }
    {
        if rank >= u64::from(self.limits.ranks) || thread >= 4 {
            return Err(ShapeFault::Limit);
        }
        if has_caller(self.callers.as_slice(), rank, thread) {
            return Err(ShapeFault::Twice);
        }
        if threads_of(self.callers.as_slice(), rank) >= self.limits.events as usize {
            return Err(ShapeFault::Threads);
        }
        let caller = CallerId {
            rank: RankId::of(rank as u32),
            thread: ThreadId::of(thread as u32),
        };
        self.callers.push(caller)?;
        Ok(())
    }
}

/// Whether segment `seg` of a rank is among those that are declared.
fn has_segment(segments: &[DeclaredSegment], rank: u64, seg: u64) -> bool
    ensures { result ≡ list_any (is_segment rank seg) segments.now }
{
    segments.iter().any(|d| u64::from(d.rank.number()) == rank
        && u64::from(d.segment.number()) == seg)
}

/// Whether a thread of a rank is among the callers.
fn has_caller(callers: &[CallerId], rank: u64, thread: u64) -> bool
    ensures { result ≡ list_any (is_caller rank thread) callers.now }
{
    callers.iter().any(|c| u64::from(c.rank.number()) == rank
        && u64::from(c.thread.number()) == thread)
}

/// How many of the callers are of a rank.
fn threads_of(callers: &[CallerId], rank: u64) -> usize
    ensures { result ≡ count_by (λ c. c.rank == rank) callers.now }
{
    callers
        .iter()
        .filter(|c| u64::from(c.rank.number()) == rank)
        .count()
}
