//! Ranks, threads, segments, queues, notification slots and groups by their numbers.
//!
//! A contract sees each id as its number, which is below the limit of its kind. Each kind has `of`, for a number that the
//! caller knows to be below that limit; `new`, for any number, which is None where the number is not below its limit; and its
//! number, in two types. Every `new` takes the shape, also where the limit is the same in every shape.

ghost use Rattle.std.specs.Prelude.{◌≡◌, ◌<◌, SomeIff};

use crate::shapes::Shape;
use std::marker::Model;

/// The number of a rank, from 0. It is below 16.
#[derive(Clone, Copy, Debug, PartialEq, Eq)]
pub struct RankId {
    number: u8,
}

impl Model for RankId {
    ghost use Rattle.std.specs.Prelude.{ℕ, ◌<◌};

    ghost Value = { ℕ };

    ghost view = { λ id. id.number };

    ghost invariant = { λ id. id.number < 16 };

    ghost inverse = { λ n. record { number = n } };
}

impl RankId {
    /// The id with this number, which has to be below 16.
    pub fn of(number: u32) -> RankId
        requires { number < 16 }
        ensures { result ≡ number }
    {
        RankId {
            number: number as u8,
        }
    }

    /// The rank with this number, or None where it is not below the number of ranks.
    pub fn new(n: u64, shape: &Shape) -> Option<RankId>
        ensures { SomeIff result (n < shape.now.limits.ranks) n }
    {
        if n < u64::from(shape.limits().ranks) {
            Some(RankId { number: n as u8 })
        } else {
            None
        }
    }

    /// The number of this id.
    pub fn number(self) -> u32
        ensures value { result ≡ self }
        ensures bound { result < 16 }
    {
        u32::from(self.number)
    }

    /// The number of this id, to index a list.
    pub fn index(self) -> usize
        ensures value { result ≡ self }
        ensures bound { result < 16 }
    {
        usize::from(self.number)
    }
}

/// The number of a thread of a rank, from 0. It is below 4.
#[derive(Clone, Copy, Debug, PartialEq, Eq)]
pub struct ThreadId {
    number: u8,
}

impl Model for ThreadId {
    ghost use Rattle.std.specs.Prelude.{ℕ, ◌<◌};

    ghost Value = { ℕ };

    ghost view = { λ id. id.number };

    ghost invariant = { λ id. id.number < 4 };

    ghost inverse = { λ n. record { number = n } };
}

impl ThreadId {
    /// The id with this number, which has to be below 4.
    pub fn of(number: u32) -> ThreadId
        requires { number < 4 }
        ensures { result ≡ number }
    {
        ThreadId {
            number: number as u8,
        }
    }

    /// The thread with this number, or None where it is not below 4.
    pub fn new(n: u64, shape: &Shape) -> Option<ThreadId>
        ensures { SomeIff result (n < 4) n }
    {
        let _ = shape;
        if n < 4 {
            Some(ThreadId { number: n as u8 })
        } else {
            None
        }
    }

    /// The number of this id.
    pub fn number(self) -> u32
        ensures value { result ≡ self }
        ensures bound { result < 4 }
    {
        u32::from(self.number)
    }

    /// The number of this id, to index a list.
    pub fn index(self) -> usize
        ensures value { result ≡ self }
        ensures bound { result < 4 }
    {
        usize::from(self.number)
    }
}

/// The segment id: the number of a segment in its rank, from 0. It is below 32. (GASPI: segments)
#[derive(Clone, Copy, Debug, PartialEq, Eq)]
pub struct SegId {
    number: u8,
}

impl Model for SegId {
    ghost use Rattle.std.specs.Prelude.{ℕ, ◌<◌};

    ghost Value = { ℕ };

    ghost view = { λ id. id.number };

    ghost invariant = { λ id. id.number < 32 };

    ghost inverse = { λ n. record { number = n } };
}

impl SegId {
    /// The id with this number, which has to be below 32.
    pub fn of(number: u32) -> SegId
        requires { number < 32 }
        ensures { result ≡ number }
    {
        SegId {
            number: number as u8,
        }
    }

    /// The segment id with this number, or None where it is not below 32.
    pub fn new(n: u64, shape: &Shape) -> Option<SegId>
        ensures { SomeIff result (n < 32) n }
    {
        let _ = shape;
        if n < 32 {
            Some(SegId { number: n as u8 })
        } else {
            None
        }
    }

    /// The number of this id.
    pub fn number(self) -> u32
        ensures value { result ≡ self }
        ensures bound { result < 32 }
    {
        u32::from(self.number)
    }

    /// The number of this id, to index a list.
    pub fn index(self) -> usize
        ensures value { result ≡ self }
        ensures bound { result < 32 }
    {
        usize::from(self.number)
    }
}

/// The number of a queue of a rank, from 0. It is below 8. (GASPI: one-sided communication)
#[derive(Clone, Copy, Debug, PartialEq, Eq)]
pub struct QueueId {
    number: u8,
}

impl Model for QueueId {
    ghost use Rattle.std.specs.Prelude.{ℕ, ◌<◌};

    ghost Value = { ℕ };

    ghost view = { λ id. id.number };

    ghost invariant = { λ id. id.number < 8 };

    ghost inverse = { λ n. record { number = n } };
}

impl QueueId {
    /// The id with this number, which has to be below 8.
    pub fn of(number: u32) -> QueueId
        requires { number < 8 }
        ensures { result ≡ number }
    {
        QueueId {
            number: number as u8,
        }
    }

    /// The queue with this number, or None where it is not below the number of queues.
    pub fn new(n: u64, shape: &Shape) -> Option<QueueId>
        ensures { SomeIff result (n < shape.now.limits.queues) n }
    {
        if n < u64::from(shape.limits().queues) {
            Some(QueueId { number: n as u8 })
        } else {
            None
        }
    }

    /// The number of this id.
    pub fn number(self) -> u32
        ensures value { result ≡ self }
        ensures bound { result < 8 }
    {
        u32::from(self.number)
    }

    /// The number of this id, to index a list.
    pub fn index(self) -> usize
        ensures value { result ≡ self }
        ensures bound { result < 8 }
    {
        usize::from(self.number)
    }
}

/// The notification id: the number of a slot of a segment, from 0. It is below 1,024. (GASPI: notifications)
#[derive(Clone, Copy, Debug, PartialEq, Eq)]
pub struct NoteId {
    number: u16,
}

impl Model for NoteId {
    ghost use Rattle.std.specs.Prelude.{ℕ, ◌<◌};

    ghost Value = { ℕ };

    ghost view = { λ id. id.number };

    ghost invariant = { λ id. id.number < 1024 };

    ghost inverse = { λ n. record { number = n } };
}

impl NoteId {
    /// The id with this number, which has to be below 1,024.
    pub fn of(number: u32) -> NoteId
        requires { number < 1024 }
        ensures { result ≡ number }
    {
        NoteId {
            number: number as u16,
        }
    }

    /// The slot with this number, or None where it is not below the number of slots of a segment.
    pub fn new(n: u64, shape: &Shape) -> Option<NoteId>
        ensures { SomeIff result (n < shape.now.limits.notes) n }
    {
        if n < u64::from(shape.limits().notes) {
            Some(NoteId { number: n as u16 })
        } else {
            None
        }
    }

    /// The number of this id.
    pub fn number(self) -> u32
        ensures value { result ≡ self }
        ensures bound { result < 1024 }
    {
        u32::from(self.number)
    }

    /// The number of this id, to index a list.
    pub fn index(self) -> usize
        ensures value { result ≡ self }
        ensures bound { result < 1024 }
    {
        usize::from(self.number)
    }
}

/// The number of a group, from 0, which is the group of all ranks. It is below 8. (GASPI: groups)
#[derive(Clone, Copy, Debug, PartialEq, Eq)]
pub struct GroupId {
    number: u8,
}

impl Model for GroupId {
    ghost use Rattle.std.specs.Prelude.{ℕ, ◌<◌};

    ghost Value = { ℕ };

    ghost view = { λ id. id.number };

    ghost invariant = { λ id. id.number < 8 };

    ghost inverse = { λ n. record { number = n } };
}

impl GroupId {
    /// The id with this number, which has to be below 8.
    pub fn of(number: u32) -> GroupId
        requires { number < 8 }
        ensures { result ≡ number }
    {
        GroupId {
            number: number as u8,
        }
    }

    /// The group id with this number, or None where it is not below 8.
    pub fn new(n: u64, shape: &Shape) -> Option<GroupId>
        ensures { SomeIff result (n < 8) n }
    {
        let _ = shape;
        if n < 8 {
            Some(GroupId { number: n as u8 })
        } else {
            None
        }
    }

    /// The number of this id.
    pub fn number(self) -> u32
        ensures value { result ≡ self }
        ensures bound { result < 8 }
    {
        u32::from(self.number)
    }

    /// The number of this id, to index a list.
    pub fn index(self) -> usize
        ensures value { result ≡ self }
        ensures bound { result < 8 }
    {
        usize::from(self.number)
    }
}
