//! A caller as a program has it, and its calls by what they are to answer. The `call_` functions serve the procedures: `name` is that
//! of the procedure. Their error has this name, and what the call gave instead.

ghost use Rattle.gaspi_types.specs.declared.replies.Reply.TheVariants as replies;
ghost use Rattle.gaspi_types.specs.declared.shapes.CallerId.{CallerId};
ghost use Rattle.timeout_state.specs.Looks.{looks_of, HasLook};
ghost use Rattle.std.specs.Prelude.{◌≡◌, ◌<◌};
ghost use Rattle.gaspi_world.specs.Callers.{IsPassOf};
ghost use Rattle.rank_programs.specs.Answers.{done, Answers};
ghost use Rattle.rank_programs.specs.Callers.{IsCaller, StaysCaller};

use crate::replies;
use crate::replies::Unexpected;
use gaspi_types::{Bytes, Call, CallerId, Numbers, Timeout};
use gaspi_world::Rank;
use std::alloc::Global;
use std::sync::Wait;

/// A caller in its world, with what its calls are made with: its procedures are methods. (own choice)
#[derive(Drop)]
pub struct Caller<'a, R> {
    /// How its thread waits.
    pub rt: &'a R,
    /// Where its calls take memory.
    pub alloc: Global,
    /// The caller itself: its world, and its pass.
    pub rank: Rank<'a>,
}

impl<'a, R: Wait> Caller<'a, R> {
    /// The rank and the thread of this caller.
    pub fn id(&self) -> CallerId
        requires { IsCaller self.now }
        ensures { IsPassOf self.now.rank.world.now.start.shape result self.now.rank.pass.now.known }
    {
        self.rank.world.caller_of(self.rank.pass)
    }

    /// The number of this caller's rank. (GASPI: proc_rank)
    pub fn proc_rank(&self) -> u64
        requires { IsCaller self.now }
        ensures rank { (c : CallerId) → IsPassOf self.now.rank.world.now.start.shape c self.now.rank.pass.now.known → result ≡ c.rank }
        ensures bound { result < 16 }
    {
        u64::from(self.rank.world.caller_of(self.rank.pass).rank.number())
    }

    /// How many ranks the world has. (GASPI: proc_num)
    pub fn proc_num(&self) -> u64
        ensures { result ≡ self.now.rank.world.now.start.shape.limits.ranks }
    {
        u64::from(self.rank.world.shape().ranks())
    }

    /// Makes a call that answers `done`, and nothing else.
    pub(crate) fn call_done(
        &mut self,
        name: &'static str,
        call: Call,
        timeout: Timeout,
    ) -> Result<(), Unexpected>
        requires caller { IsCaller self.old }
        requires timeout { HasLook (looks_of timeout) }
        ensures stays { StaysCaller self.old self.new }
        ensures answers { Answers done call timeout self.old result self.new }
    {
        let answer = self.rank.call(self.rt, self.alloc, &call, timeout);
        replies::done(name, answer)
    }

    /// Makes a call that answers a value.
    pub(crate) fn call_value(
        &mut self,
        name: &'static str,
        call: Call,
        timeout: Timeout,
    ) -> Result<u64, Unexpected>
        requires caller { IsCaller self.old }
        requires timeout { HasLook (looks_of timeout) }
        ensures stays { StaysCaller self.old self.new }
        ensures answers { Answers replies.Value call timeout self.old result self.new }
    {
        let answer = self.rank.call(self.rt, self.alloc, &call, timeout);
        replies::value(name, answer)
    }

    /// Makes a call that answers an id.
    pub(crate) fn call_id(
        &mut self,
        name: &'static str,
        call: Call,
        timeout: Timeout,
    ) -> Result<u64, Unexpected>
        requires caller { IsCaller self.old }
        requires timeout { HasLook (looks_of timeout) }
        ensures stays { StaysCaller self.old self.new }
        ensures answers { Answers replies.Id call timeout self.old result self.new }
    {
        let answer = self.rank.call(self.rt, self.alloc, &call, timeout);
        replies::id(name, answer)
    }

    /// Makes a call that answers bytes.
    pub(crate) fn call_bytes(
        &mut self,
        name: &'static str,
        call: Call,
        timeout: Timeout,
    ) -> Result<Bytes, Unexpected>
        requires caller { IsCaller self.old }
        requires timeout { HasLook (looks_of timeout) }
        ensures stays { StaysCaller self.old self.new }
        ensures answers { Answers replies.Bytes call timeout self.old result self.new }
    {
        let answer = self.rank.call(self.rt, self.alloc, &call, timeout);
        replies::bytes(name, answer)
    }

    /// Makes a call that answers a mask of ranks.
    pub(crate) fn call_mask(
        &mut self,
        name: &'static str,
        call: Call,
        timeout: Timeout,
    ) -> Result<u32, Unexpected>
        requires caller { IsCaller self.old }
        requires timeout { HasLook (looks_of timeout) }
        ensures stays { StaysCaller self.old self.new }
        ensures answers { Answers replies.Mask call timeout self.old result self.new }
    {
        let answer = self.rank.call(self.rt, self.alloc, &call, timeout);
        replies::mask(name, answer)
    }

    /// Makes a call that answers a list of numbers.
    pub(crate) fn call_numbers(
        &mut self,
        name: &'static str,
        call: Call,
        timeout: Timeout,
    ) -> Result<Numbers, Unexpected>
        requires caller { IsCaller self.old }
        requires timeout { HasLook (looks_of timeout) }
        ensures stays { StaysCaller self.old self.new }
        ensures answers { Answers replies.List call timeout self.old result self.new }
    {
        let answer = self.rank.call(self.rt, self.alloc, &call, timeout);
        replies::numbers(name, answer)
    }
}
