//! That the numbers, bytes and lists in a value are in the ranges of their types, which is so of every value, but that a join
//! has to have the values of its collective. Each function only reads the value, and its contract says so.

ghost use Rattle.std.specs.Prelude.{◌^◌, ◌<◌};
ghost use Rattle.std.specs.List.{AllByRecursion};
ghost use Rattle.gaspi_types.specs.Replies.{coll_fields, refusal_fields};
ghost use Rattle.gaspi_types.specs.Collectives.{HaveOwnValues};
ghost use Rattle.gaspi_texts.specs.CollectiveText.{AreArgsInRange};
ghost use Rattle.gaspi_texts.specs.EventText.{HasOwnValues, IsInEventRange};
ghost use Rattle.gaspi_texts.specs.ReplyText.{IsInRange};

use call_texts::{bytes_are_in_range, call_is_in_range};
use gaspi_types::{Args, Coll, Event, Refusal, Reply};

/// The numbers of a collective are below 2^32.
fn coll_is_in_range(_coll: Coll)
    ensures { AllByRecursion (λ n. n < 2 ^ 32) (coll_fields _coll) }
{}

/// The numbers of arguments are in the ranges of their types, where the values are those of the collective.
fn args_are_in_range(args: &Args)
    requires { HaveOwnValues args.now }
    ensures { AreArgsInRange args.now }
{
    coll_is_in_range(args.coll);
    let _read = args.values.items();
}

/// The numbers of a refusal are below 2^32.
fn refusal_is_in_range(refusal: Refusal)
    ensures { AllByRecursion (λ n. n < 2 ^ 32) (refusal_fields refusal) }
{
    match refusal {
        Refusal::ResumeOther { kept } | Refusal::CollectiveMismatch { kept } => {
            coll_is_in_range(kept);
        }
        _ => {}
    }
}

/// The numbers of a reply are in the ranges of their types; so, by `replies_read_back`, its text reads back as that reply.
pub fn reply_is_in_range(reply: &Reply)
    ensures { IsInRange reply.now }
{
    match reply {
        Reply::Done | Reply::Timeout => {}
        Reply::Value(n) => {
            let _read = *n;
        }
        Reply::Id(n) | Reply::Mask(n) => {
            let _read = *n;
        }
        Reply::Bytes(bytes) => bytes_are_in_range(bytes.as_slice()),
        Reply::List(numbers) => {
            let _read = numbers.items();
        }
        Reply::Refused(refusal) => refusal_is_in_range(*refusal),
    }
}

/// The numbers of an event are in the ranges of their types, so its text reads back as that event. A join has to have the
/// values of its collective.
pub fn event_is_in_range(event: &Event)
    requires { HasOwnValues event.now }
    ensures { IsInEventRange event.now }
{
    match event {
        Event::Called(caller, call, reply) => {
            let _read = (caller.rank.number(), caller.thread.number());
            call_is_in_range(call);
            reply_is_in_range(reply);
        }
        Event::Joined(caller, group, args) => {
            let _read = (caller.rank.number(), caller.thread.number(), group.number());
            args_are_in_range(args);
        }
        Event::Take(origin, queue, target, number, _)
        | Event::Put(origin, queue, target, number, _) => {
            let _read = (origin.number(), queue.number(), target.number(), *number);
        }
    }
}
