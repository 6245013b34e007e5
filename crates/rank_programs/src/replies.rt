//! Replies, read as the value that a call answers. Every other reply, and a call that was not made, is the error `Unexpected`. `call`
//! is the name of the procedure, for that error; `answer` is what `Rank::call` gave. (own choice)

ghost use Rattle.std.specs.Prelude.{◌≡◌, ◌↔◌, IsOk, IfErr, Ok, Err};
ghost use Rattle.gaspi_types.specs.declared.replies.Reply.TheVariants as replies;
ghost use Rattle.gaspi_world.specs.declared.calling.Stop.TheVariants.{NoMemory};

use gaspi_types::{Bytes, Numbers, Reply};
use gaspi_world::Stop;
use thiserror::Error;

/// A call that gave another reply than its procedure answers, or that was not made.
#[derive(Debug, Drop, Error)]
#[error("{call}: {answer:?}")]
pub struct Unexpected {
    /// The name of the procedure.
    pub call: &'static str,
    /// The other reply, or why the call was not made.
    pub answer: Result<Reply, Stop>,
}

/// Nothing, where the reply is `done`.
pub fn done(call: &'static str, answer: Result<Reply, Stop>) -> Result<(), Unexpected>
    ensures done { IsOk result ↔ (answer ≡ Ok replies.Done) }
    ensures other { IfErr result (λ e. e.answer ≡ answer) }
{
    match answer {
        Ok(Reply::Done) => Ok(()),
        answer => Err(Unexpected { call, answer }),
    }
}

/// The value that the call answered: of a slot, of a memory word, or an open count.
pub fn value(call: &'static str, answer: Result<Reply, Stop>) -> Result<u64, Unexpected>
    ensures value { (n : _) → (result ≡ Ok n) ↔ (answer ≡ Ok (replies.Value n)) }
    ensures other { IfErr result (λ e. e.answer ≡ answer) }
{
    match answer {
        Ok(Reply::Value(n)) => Ok(n),
        answer => Err(Unexpected { call, answer }),
    }
}

/// The id that the call answered: of a slot, of a group, or of the rank that sent a message.
pub fn id(call: &'static str, answer: Result<Reply, Stop>) -> Result<u64, Unexpected>
    ensures id { (n : _) → (result ≡ Ok n) ↔ (answer ≡ Ok (replies.Id n)) }
    ensures other { IfErr result (λ e. e.answer ≡ answer) }
{
    match answer {
        Ok(Reply::Id(n)) => Ok(u64::from(n)),
        answer => Err(Unexpected { call, answer }),
    }
}

/// The bytes that the call answered.
pub fn bytes(call: &'static str, answer: Result<Reply, Stop>) -> Result<Bytes, Unexpected>
    ensures bytes { (bytes : _) → (result ≡ Ok bytes) ↔ (answer ≡ Ok (replies.Bytes bytes)) }
    ensures other { IfErr result (λ e. e.answer ≡ answer) }
{
    match answer {
        Ok(Reply::Bytes(bytes)) => Ok(bytes),
        answer => Err(Unexpected { call, answer }),
    }
}

/// The ranks that the call answered: bit r for rank r.
pub fn mask(call: &'static str, answer: Result<Reply, Stop>) -> Result<u32, Unexpected>
    ensures mask { (mask : _) → (result ≡ Ok mask) ↔ (answer ≡ Ok (replies.Mask mask)) }
    ensures other { IfErr result (λ e. e.answer ≡ answer) }
{
    match answer {
        Ok(Reply::Mask(mask)) => Ok(mask),
        answer => Err(Unexpected { call, answer }),
    }
}

/// The list of numbers that the call answered.
pub fn numbers(call: &'static str, answer: Result<Reply, Stop>) -> Result<Numbers, Unexpected>
    ensures numbers { (numbers : _) → (result ≡ Ok numbers) ↔ (answer ≡ Ok (replies.List numbers)) }
    ensures other { IfErr result (λ e. e.answer ≡ answer) }
{
    match answer {
        Ok(Reply::List(numbers)) => Ok(numbers),
        answer => Err(Unexpected { call, answer }),
    }
}

/// The error of a procedure for whose list there was no memory: its call was not made.
pub(crate) fn out_of_memory(call: &'static str) -> Unexpected
    ensures { result.answer ≡ Err NoMemory }
{
    Unexpected {
        call,
        answer: Err(Stop::NoMemory),
    }
}
