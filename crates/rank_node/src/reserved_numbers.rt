//! Reserved memory for the numbers of an allreduce: lists that are taken before the call is recorded, and how they are filled
//! without more memory. (GASPI: allreduce)

ghost use Rattle.std.specs.Prelude.{◌≡◌, ◌≤◌, length, false, IfOk, IsOk};
ghost use Rattle.gaspi_types.specs.CallRows.{row_of};
ghost use Rattle.rank_node.specs.Numbers.{capacities_for, ReplyFits};

use gaspi_types::{Args, BoxedSequence, Call, NoMemory, Numbers, Reply, Sequence};
use std::alloc::Global;
use std::marker::Model;

/// Three lists for the numbers of an allreduce, each to be used once. Contracts see the length of each, which is 0 once it was used.
#[derive(Debug, Drop)]
pub struct ReservedNumbers {
    /// For the values of the collective as it becomes pending.
    pub(crate) values: BoxedSequence<i128>,
    /// For the numbers of the reply in its event.
    pub(crate) event: BoxedSequence<i128>,
    /// For the numbers of the reply to the caller.
    pub(crate) caller: BoxedSequence<i128>,
}

impl Model for ReservedNumbers {
    ghost use Rattle.rank_node.specs.Capacities.{NumberCapacities};

    ghost Value = { NumberCapacities };

    ghost use Rattle.rank_node.specs.CapacityViews.{capacities_of};

    ghost view = { capacities_of };
}

/// A list of `count` zeros.
pub(crate) fn blank(alloc: Global, count: usize) -> Result<BoxedSequence<i128>, NoMemory>
    ensures { IfOk result (λ numbers. length numbers ≡ count) }
{
    let zeros = Sequence::from_vec(vec![in alloc; 0; count]?);
    BoxedSequence::from_sequence(alloc, zeros)
}

/// Gives a list away and leaves the empty one. It takes no memory.
pub(crate) fn take_numbers(numbers: &mut BoxedSequence<i128>) -> BoxedSequence<i128>
    ensures { result ≡ numbers.old }
{
    std::mem::replace(numbers, BoxedSequence::new())
}

/// Equal numbers in `list`, which is long enough. It takes no memory.
fn copied(numbers: &Numbers, mut list: BoxedSequence<i128>) -> Numbers
    requires { length numbers.now.items ≤ length list }
    ensures { result ≡ numbers.now }
{
    let items = numbers.items();
    list.truncate(items.len());
    list.overwrite(0, items);
    Numbers::new(numbers.num_type(), list)
}

/// Equal arguments, with their values in `list`, which is long enough. It takes no memory.
pub(crate) fn copied_args(args: &Args, list: BoxedSequence<i128>) -> Args
    requires { length args.now.values.items ≤ length list }
    ensures { result ≡ args.now }
{
    Args {
        coll: args.coll,
        values: copied(&args.values, list),
    }
}

/// An equal reply, its numbers in `list`, which is long enough and is empty after that. The reply has no bytes. It takes no memory.
fn reply_in(reply: &Reply, list: &mut BoxedSequence<i128>) -> Reply
    requires { ReplyFits reply.now (length list.old) }
    ensures { result ≡ reply.now }
{
    match reply {
        Reply::List(numbers) => Reply::List(copied(numbers, take_numbers(list))),
        Reply::Refused(refusal) => Reply::Refused(*refusal),
        Reply::Value(n) => Reply::Value(*n),
        Reply::Id(n) => Reply::Id(*n),
        Reply::Mask(n) => Reply::Mask(*n),
        Reply::Timeout => Reply::Timeout,
        Reply::Done => Reply::Done,
        Reply::Bytes(_) => unreachable!(),
    }
}

impl ReservedNumbers {
    /// Three empty lists. It takes no memory.
    pub(crate) fn nothing() -> ReservedNumbers
        ensures values { result.values ≡ 0 }
        ensures event { result.event ≡ 0 }
        ensures caller { result.caller ≡ 0 }
    {
        ReservedNumbers {
            values: BoxedSequence::new(),
            event: BoxedSequence::new(),
            caller: BoxedSequence::new(),
        }
    }

    /// Three lists of `count` numbers.
    fn with_capacity(alloc: Global, count: usize) -> Result<ReservedNumbers, NoMemory>
        ensures values { IfOk result (λ rooms. rooms.values ≡ count) }
        ensures event { IfOk result (λ rooms. rooms.event ≡ count) }
        ensures caller { IfOk result (λ rooms. rooms.caller ≡ count) }
    {
        Ok(ReservedNumbers {
            values: blank(alloc, count)?,
            event: blank(alloc, count)?,
            caller: blank(alloc, count)?,
        })
    }

    /// The lists that a call needs: of an allreduce each has as many numbers as the call has elements, of any other call none. A
    /// call whose row says that it takes no memory takes none.
    pub fn for_call(alloc: Global, call: &Call) -> Result<ReservedNumbers, NoMemory>
        ensures capacities { IfOk result (λ rooms. rooms ≡ capacities_for call.now) }
        ensures ample { (row_of call.now).takes_memory ≡ false → IsOk result }
    {
        match call {
            Call::Allreduce(call) => ReservedNumbers::with_capacity(
                alloc,
                call.values.items().len(),
            ),
            _ => Ok(ReservedNumbers::nothing()),
        }
    }

    /// An equal reply for the caller, beside that in the event. It works once, for it uses the caller's list. The reply has no bytes
    /// and fits that list. It takes no memory.
    pub fn again(&mut self, reply: &Reply) -> Reply
        requires { ReplyFits reply.now self.old.caller }
        ensures reply { result ≡ reply.now }
        ensures values { self.new.values ≡ self.old.values }
        ensures event { self.new.event ≡ self.old.event }
    {
        reply_in(reply, &mut self.caller)
    }
}
