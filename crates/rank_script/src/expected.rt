//! The reply that a script line expects.

ghost use Rattle.std.specs.Prelude.{◌≡◌, ℕ, List, length, IfOk};
ghost use Rattle.gaspi_types.specs.declared.replies.Reply.TheVariants.{Bytes};

use gaspi_types::{NoMemory, Reply};
use std::alloc::Global;
use std::marker::Model;

/// The reply that the last call of a line must have. Few lines have one, so it is in memory of its own.
#[derive(Debug, Drop)]
pub struct ExpectedReply {
    /// The reply, in memory of its own.
    reply: Box<Reply>,
}

impl Model for ExpectedReply {
    ghost use Rattle.gaspi_types.specs.declared.replies.Reply.{Reply};

    ghost Value = { Reply };

    ghost view = { λ expected. expected.reply.value };
}

impl ExpectedReply {
    /// The expectation of a reply. The only failure is out of memory.
    pub(crate) fn new(alloc: Global, reply: Reply) -> Result<ExpectedReply, NoMemory>
        ensures { IfOk result (λ expected. expected ≡ reply) }
    {
        let reply = Box::new(alloc, reply)?;
        Ok(ExpectedReply { reply })
    }

    /// The reply that is expected.
    pub fn reply(&self) -> &Reply
        ensures { result.now ≡ self.now }
    {
        &self.reply
    }

    /// Replaces the bytes that are expected, of which there are eight, by others. It takes no memory.
    pub(crate) fn renew_bytes(&mut self, bytes: &[u8; 8])
        requires { (old : List ℕ) × (self.old ≡ Bytes old) × (length old ≡ 8) }
        ensures { self.new ≡ Bytes bytes.now }
    {
        if let Reply::Bytes(held) = &mut *self.reply {
            held.overwrite(0, bytes);
        }
    }
}
