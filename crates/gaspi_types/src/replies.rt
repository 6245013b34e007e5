//! Replies, the refusals among them, and the answer of a look.

ghost use Rattle.std.specs.Prelude.{◌≡◌, IfOk, IsOk, true};
ghost use Rattle.gaspi_types.specs.Copies.{is_listless_reply};
ghost use Rattle.gaspi_types.specs.Refusals.{refusal_parts};
ghost use Rattle.gaspi_types.specs.Replies.{refusal_number};

use crate::collectives::{Coll, Numbers, Stage};
use crate::groups::Args;
use crate::lists::{Bytes, Sequence};
use crate::memory::NoMemory;
use std::alloc::Global;

/// Why a call is refused. Each refusal has a number, which texts write. Its fields are any numbers of 32 bits, since a text may
/// claim any.
#[derive(Clone, Copy, Debug, PartialEq, Eq)]
pub enum Refusal {
    /// 1: the rank is not below the number of ranks.
    BadRank,
    /// 2: the caller's own segment is not there, or the id to be made is over 31.
    NoSegment,
    /// 3: the id to be made is there.
    SegmentThere,
    /// 4: the target's segment is not known to the caller; for an atomic also where the known generation is gone.
    Unregistered,
    /// 5: the range is not within the segment, which has `size` bytes.
    BadRange { size: u32 },
    /// 6: the length is 0, or over its limit.
    BadSize,
    /// 7: the queue is not below the number of queues.
    BadQueue,
    /// 8: the open count `count` and the `need` entries of the post come to more than DEPTH.
    QueueFull { count: u32, need: u32 },
    /// 9: the queue is broken, with that target.
    QueueBroken { rank: u32 },
    /// 10: the slot, or the range of slots, is not within the notification slots.
    BadNote,
    /// 11: the notification value is 0.
    ZeroValue,
    /// 12: the offset is not divisible by 8.
    BadAlign,
    /// 13: the first message has `waiting` bytes, which are more than the receive allows.
    PassiveSize { waiting: u32 },
    /// 14: the rank has no such group.
    NoGroup,
    /// 15: the group is at that stage, at which the call is not allowed.
    GroupStage { stage: Stage },
    /// 16: the caller's rank is not in the group that is to be committed.
    NotMember,
    /// 17: the group id has another member list, `kept`: bit r for rank r.
    GroupMismatch { kept: u32 },
    /// 18: a collective of the rank is pending on the group, in that thread.
    ActiveCollective { thread: u32 },
    /// 19: `kept` is pending for the caller on the group, and the call is another collective, or has other arguments.
    ResumeOther { kept: Coll },
    /// 20: a member has contributed another collective to the round: `kept`.
    CollectiveMismatch { kept: Coll },
    /// 21: a list's length or a number of elements is outside its limits.
    BadCount,
    /// 22: the type is Float or Double.
    FloatType,
    /// 23: an entry of the rank still uses the segment; `queue` is the least queue that has such an entry.
    SegmentBusy { queue: u32 },
    /// 24: the rank has made seven groups.
    GroupsFull,
    /// 25: the caller's end is recorded.
    CallerEnded,
}

/// The fields of a refusal.
#[derive(Clone, Copy, Debug, PartialEq, Eq)]
pub enum RefusalFields {
    Nothing,
    OneNumber(u32),
    TwoNumbers(u32, u32),
    OneStage(Stage),
    OneCollective(Coll),
}

impl Refusal {
    /// The number of this refusal in texts, and its fields.
    pub fn parts(&self) -> (u32, RefusalFields)
        ensures { result ≡ refusal_parts self.now }
    {
        match self {
            Refusal::BadRank => (1, RefusalFields::Nothing),
            Refusal::NoSegment => (2, RefusalFields::Nothing),
            Refusal::SegmentThere => (3, RefusalFields::Nothing),
            Refusal::Unregistered => (4, RefusalFields::Nothing),
            Refusal::BadRange { size } => (5, RefusalFields::OneNumber(*size)),
            Refusal::BadSize => (6, RefusalFields::Nothing),
            Refusal::BadQueue => (7, RefusalFields::Nothing),
            Refusal::QueueFull { count, need } => (8, RefusalFields::TwoNumbers(*count, *need)),
            Refusal::QueueBroken { rank } => (9, RefusalFields::OneNumber(*rank)),
            Refusal::BadNote => (10, RefusalFields::Nothing),
            Refusal::ZeroValue => (11, RefusalFields::Nothing),
            Refusal::BadAlign => (12, RefusalFields::Nothing),
            Refusal::PassiveSize { waiting } => (13, RefusalFields::OneNumber(*waiting)),
            Refusal::NoGroup => (14, RefusalFields::Nothing),
            Refusal::GroupStage { stage } => (15, RefusalFields::OneStage(*stage)),
            Refusal::NotMember => (16, RefusalFields::Nothing),
            Refusal::GroupMismatch { kept } => (17, RefusalFields::OneNumber(*kept)),
            Refusal::ActiveCollective { thread } => (18, RefusalFields::OneNumber(*thread)),
            Refusal::ResumeOther { kept } => (19, RefusalFields::OneCollective(*kept)),
            Refusal::CollectiveMismatch { kept } => (20, RefusalFields::OneCollective(*kept)),
            Refusal::BadCount => (21, RefusalFields::Nothing),
            Refusal::FloatType => (22, RefusalFields::Nothing),
            Refusal::SegmentBusy { queue } => (23, RefusalFields::OneNumber(*queue)),
            Refusal::GroupsFull => (24, RefusalFields::Nothing),
            Refusal::CallerEnded => (25, RefusalFields::Nothing),
        }
    }

    /// The number of this refusal in texts.
    pub fn number(&self) -> u32
        ensures { result ≡ refusal_number self.now }
    {
        self.parts().0
    }
}

/// The reply of a call.
#[derive(Debug, PartialEq, Eq, Drop)]
pub enum Reply {
    /// The call has done what it is for, and answers nothing else.
    Done,
    /// A number: the old value of a slot or a memory word, or an open count. (GASPI: notify_reset, atomic_fetch_add,
    /// atomic_compare_swap)
    Value(u64),
    /// A number that names something: a slot, the sender of a message, or a new group. (GASPI: notify_waitsome)
    Id(u32),
    /// The bytes of a range.
    Bytes(Bytes),
    /// A set of ranks: bit r for rank r. (GASPI: state vector)
    Mask(u32),
    /// The reduction of the values of all members. (GASPI: allreduce)
    List(Numbers),
    /// The call was not ready at its last look. (GASPI: timeouts)
    Timeout,
    /// The call is refused, and has changed nothing but the count of its rank's events.
    Refused(Refusal),
}

/// The answer of a look at a call.
#[derive(Debug, PartialEq, Eq, Drop)]
pub enum Ready {
    /// The call is refused or ready, with this reply.
    Reply(Reply),
    /// It is a collective that may join its group, with these arguments. (GASPI: collectives)
    Join(Args),
    /// It is neither refused nor ready, and may not join.
    NotReady,
}

impl Reply {
    /// An equal reply. No memory is taken where no list in the reply has an item.
    pub fn copy(&self, alloc: Global) -> Result<Reply, NoMemory>
        ensures ok { IfOk result (λ reply. reply ≡ self.now) }
        ensures listless { is_listless_reply self.now ≡ true → IsOk result }
    {
        match self {
            Reply::Done => Ok(Reply::Done),
            Reply::Value(n) => Ok(Reply::Value(*n)),
            Reply::Id(n) => Ok(Reply::Id(*n)),
            Reply::Bytes(bytes) => Ok(Reply::Bytes(Sequence::copied_from(
                alloc,
                bytes.as_slice(),
            )?)),
            Reply::Mask(mask) => Ok(Reply::Mask(*mask)),
            Reply::List(numbers) => Ok(Reply::List(numbers.copy(alloc)?)),
            Reply::Timeout => Ok(Reply::Timeout),
            Reply::Refused(refusal) => Ok(Reply::Refused(*refusal)),
        }
    }
}
