//! The evaluation of a call: all that its look found. A record uses it as it is, and nothing is looked for again.

ghost use Rattle.std.specs.Prelude.{◌≡◌, None};
ghost use Rattle.segment_store.specs.declared.kinds.EntryKinds.TheVariants as kinds;
ghost use Rattle.gaspi_types.specs.Replies.{is_idle};
ghost use Rattle.gaspi_model.specs.Calls.{recorded_reply};
ghost use Rattle.gaspi_model.specs.CollectiveCalls.{is_reply_of};

use crate::replies::{is_idle_ready, take_recorded_reply};
use gaspi_model::same_reply;
use gaspi_types::{Message, Ready, Reply};
use segment_store::EntryKinds;

/// What a look at a call found.
#[derive(Debug, Drop)]
pub struct Evaluation {
    /// The answer.
    pub ready: Ready,
    /// What the entries ask for that the call appends: only where the call is a post that was accepted; else nothing.
    pub kinds: EntryKinds,
    /// The message that the call puts into an inbox: only where the call is a send that is done.
    pub message: Option<Message>,
}

impl Evaluation {
    /// An evaluation of no call, for a look to write over.
    pub fn of_no_call() -> Evaluation {
        Evaluation {
            ready: Ready::NotReady,
            kinds: EntryKinds::Nothing,
            message: None,
        }
    }

    /// Writes over the evaluation: this answer, no entry and no message.
    #[inline(always)]
    pub fn set_plain(&mut self, ready: Ready)
        ensures { self.new ≡ record { ready = ready; kinds = kinds.Nothing; message = None } }
    {
        self.ready = ready;
        self.clear_kinds();
        self.clear_message();
    }

    /// Removes the entries, where there are any: few calls have some, and to write that there are none takes longer.
    #[inline(always)]
    fn clear_kinds(&mut self)
        ensures { self.new ≡ record self.old { kinds = kinds.Nothing } }
    {
        if !matches!(self.kinds, EntryKinds::Nothing) {
            self.kinds = EntryKinds::Nothing;
        }
    }

    /// Removes the message, where there is one.
    #[inline(always)]
    pub(crate) fn clear_message(&mut self)
        ensures { self.new ≡ record self.old { message = None } }
    {
        if self.message.is_some() {
            self.message = None;
        }
    }

    /// Takes out the reply with which the call is recorded, as `recorded_reply` has it. The answer that is left is of no call.
    pub fn take_reply(&mut self) -> Reply
        ensures { result ≡ recorded_reply self.old.ready }
    {
        take_recorded_reply(&mut self.ready)
    }

    /// Whether the call is recorded with a refusal or a timeout. A call that is not ready or that may join counts as a timeout.
    pub fn is_refused_or_timeout(&self) -> bool
        ensures { result ≡ is_idle (recorded_reply self.now.ready) }
    {
        is_idle_ready(&self.ready)
    }

    /// Whether the call may be recorded with a reply: with that of its answer, or with a timeout where it is not ready. Where it may
    /// join it is recorded with none, for it joins first. (GASPI: timeouts, collectives)
    pub fn may_be_recorded_with(&self, reply: &Reply) -> bool
        ensures { result ≡ is_reply_of self.now.ready reply.now }
    {
        match &self.ready {
            Ready::Reply(ready) => same_reply(reply, ready),
            Ready::Join(_) => false,
            Ready::NotReady => matches!(reply, Reply::Timeout),
        }
    }
}
