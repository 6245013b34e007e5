//! From a result to an answer, from an answer to the reply that is recorded, and whether that is a refusal or a timeout (*idle* in
//! contracts).

ghost use Rattle.std.specs.Prelude.{◌≡◌};
ghost use Rattle.gaspi_types.specs.Replies.{is_idle};
ghost use Rattle.gaspi_model.specs.Calls.{answer_of_result, recorded_reply};

use gaspi_types::{Ready, Refusal, Reply};

/// The answer that a result comes to: a refusal is a reply, and None is that the call is not ready.
pub fn answer_of_result(finds: Result<Option<Reply>, Refusal>) -> Ready
    ensures { result ≡ answer_of_result finds }
{
    match finds {
        Ok(None) => Ready::NotReady,
        Ok(Some(reply)) => Ready::Reply(reply),
        Err(refusal) => Ready::Reply(Reply::Refused(refusal)),
    }
}

/// The one reply with which a call may be recorded: that of its answer, else a timeout, where it is not ready or may join.
/// (GASPI: timeouts)
pub fn recorded_reply(ready: Ready) -> Reply
    ensures { result ≡ recorded_reply ready }
{
    match ready {
        Ready::Reply(reply) => reply,
        Ready::Join(_) | Ready::NotReady => Reply::Timeout,
    }
}

/// Takes out of an answer the reply with which its call is recorded, as `recorded_reply` has it. What is left there is of no call.
pub fn take_recorded_reply(ready: &mut Ready) -> Reply
    ensures { result ≡ recorded_reply ready.old }
{
    match ready {
        Ready::Reply(reply) => std::mem::replace(reply, Reply::Timeout),
        Ready::Join(_) | Ready::NotReady => Reply::Timeout,
    }
}

/// Whether a reply is a refusal or a timeout.
pub fn is_refused_or_timeout(reply: &Reply) -> bool
    ensures { result ≡ is_idle reply.now }
{
    matches!(reply, Reply::Timeout | Reply::Refused(_))
}

/// Whether a call with this answer is recorded with a refusal or a timeout.
pub fn is_idle_ready(ready: &Ready) -> bool
    ensures { result ≡ is_idle (recorded_reply ready.now) }
{
    match ready {
        Ready::Reply(reply) => is_refused_or_timeout(reply),
        Ready::Join(_) | Ready::NotReady => true,
    }
}
