//! The machine: its opening state, its steps, and questions on its state. Each function of the crate that others call is here; the
//! work is done in the other files, on the fields of `Machine`.

ghost use Rattle.std.specs.Prelude.{◌≡◌, ◌≢◌, ℕ, ◌+◌, ◌<◌, ◌↔◌, IfOk, IsOk, IsTrue, Some, Err, true, false, not, length, slice_get, OnOk};
ghost use Rattle.gaspi_types.specs.CallRows.{need_of};
ghost use Rattle.gaspi_model.specs.CollectiveCalls.{is_joining, join_event};
ghost use Rattle.gaspi_model.specs.Sound.{IsSound};
ghost use Rattle.gaspi_model.specs.State.{opening};
ghost use Rattle.gaspi_model.specs.Step.{step, Steps, answer_in, is_declared, is_active, is_pending, lacks_room_in, used_room, transfer_event};
ghost use Rattle.gaspi_model.specs.Transfers.{transfers};
ghost use Rattle.gaspi_types.specs.Replies.{is_idle};
ghost use Rattle.gaspi_types.specs.declared.events.Event.TheVariants.{Called};
ghost use Rattle.gaspi_types.specs.declared.replies.Ready.{Ready};
ghost use Rattle.gaspi_types.specs.declared.replies.Ready.TheVariants.{Join};
ghost use Rattle.gaspi_model.specs.Calls.{recorded_reply};
ghost use Rattle.plain_calls.specs.Looks.{made_of, recorded_of};
ghost use Rattle.plain_calls.specs.Memory.{is_send, looks_with_memory, keeps_memory, takes_memory};
ghost use Rattle.plain_machine.specs.Looking.{IsEvaluationIn};
ghost use Rattle.plain_machine.specs.Words.{word_in};

use crate::footprints::EmptyMemory;
use crate::listing::transfers;
use crate::looking::{
    event_charge, has_section, is_pending_in, join_found, look_in, record_with_lanes,
};
use crate::nonempty_lanes::LaneId;
use crate::opening::{all_groups, all_memories, all_posts, all_used};
use crate::rank_counts::{
    TransferCounts, forget_count, forget_moved, forget_owner, opening_counts, transfer_at,
    transfer_count,
};
use crate::ranks::RankTables;
use crate::steps::{make, step};
use gaspi_model::{Memory, StepFault, soundness};
use gaspi_types::{
    Args, Call, CallerId, Event, Invocation, Limits, NoMemory, RankId, Ready, Reply, Sequence,
    Shape, Transfer,
};
use plain_calls::{Evaluation, bytes_of, is_running, thread_at};
use segment_store::{is_within, word_at};
use std::alloc::Global;
use std::marker::Model;

/// A list of enabled transfers.
pub type Transfers = Sequence<Transfer>;

/// The machine. Contracts see it as its state, which is sound.
#[derive(Debug, Drop)]
pub struct Machine {
    /// Limits, posts, used room and groups.
    ranks: RankTables,
    /// The memory of each rank.
    memories: Sequence<Memory>,
    /// The nonempty lanes, by origin, queue and target.
    standing: Vec<LaneId>,
    /// The transfer counts, where they were stored since they last changed.
    counts: TransferCounts,
}

impl Model for Machine {
    ghost use Rattle.gaspi_model.specs.declared.states.State.{State};

    ghost Value = { State };

    ghost use Rattle.plain_machine.specs.Machine.{IsMachine, state_in};
    ghost use Rattle.plain_machine.specs.RankCounts.{AreCounts};

    ghost view = { λ m. state_in m.ranks m.memories };

    ghost invariant = { λ m. IsMachine (state_in m.ranks m.memories) m.ranks.used m.standing.items × AreCounts m.ranks.limits m.ranks.posts m.counts };
}

impl Machine {
    /// The machine in the opening state of a shape: its segments and callers, all else zero or empty. (GASPI: segments)
    pub fn start(alloc: Global, shape: &Shape) -> Result<Machine, NoMemory>
        ensures { IfOk result (λ machine. machine ≡ opening shape.now) }
    {
        soundness();
        let limits = shape.limits();
        Ok(Machine {
            ranks: RankTables {
                limits,
                posts: all_posts(alloc, shape)?,
                used: all_used(alloc, shape)?,
                groups: all_groups(alloc, shape)?,
                none: EmptyMemory::new(alloc),
            },
            memories: all_memories(alloc, shape)?,
            standing: Vec::new(alloc),
            counts: opening_counts(alloc, limits.ranks)?,
        })
    }

    /// Makes the step by an event. Where the event is no step, its cause is given and nothing changes; where memory runs out,
    /// nothing changes. Only loads, posts, sends, allreduces, allocs, joins and takes may take memory.
    pub fn step(&mut self, alloc: Global, event: &Event) -> Result<(), StepFault>
        ensures step { Steps result self.old self.new (step self.old event.now) }
        ensures ample { takes_memory event.now ≡ false → result ≢ Err StepFault.NoMemory }
    {
        soundness();
        forget_owner(&mut self.counts, event);
        step(
            &mut self.ranks,
            &mut self.memories,
            &mut self.standing,
            alloc,
            event,
        )
    }

    /// Writes the evaluation of a call by a caller that has a section over `look`: a refusal or a reply, that it may join, or that it is
    /// not ready; and what the record needs beside. Only a load, the post of a list, an allreduce (clause `ample`) and a send that is
    /// done (clause `idle`) take memory; where it runs out, what `look` says is of no call.
    pub fn look(
        &self,
        alloc: Global,
        invocation: &Invocation<'_>,
        look: &mut Evaluation,
    ) -> Result<(), NoMemory>
        requires { is_declared self.now invocation.now.caller.rank invocation.now.caller.thread ≡ true }
        ensures look { OnOk result (IsEvaluationIn look.new self.now invocation.now.caller invocation.now.call.now) }
        ensures answer { OnOk result (answer_in self.now invocation.now.caller.rank invocation.now.caller.thread invocation.now.call.now ≡ Some look.new.ready) }
        ensures ample { looks_with_memory invocation.now.call.now ≡ false → IsOk result }
        ensures idle { (ready : Ready) → is_send invocation.now.call.now ≡ true → answer_in self.now invocation.now.caller.rank invocation.now.caller.thread invocation.now.call.now ≡ Some ready → is_idle (recorded_reply ready) ≡ true → IsOk result }
    {
        look_in(&self.ranks, &self.memories, alloc, invocation, look)
    }

    /// Makes the step by a call with its evaluation, which keeps the reply (`take_reply`), and nothing else of use. The evaluation is of
    /// this very call in this very state, and is no join; the event is a step, since its rank has room for it. So nothing is checked
    /// again. Only a post, an alloc and a send take memory; where it runs out nothing changes.
    pub fn record(
        &mut self,
        alloc: Global,
        invocation: &Invocation<'_>,
        look: &mut Evaluation,
    ) -> Result<(), NoMemory>
        requires declared { is_declared self.old invocation.now.caller.rank invocation.now.caller.thread ≡ true }
        requires look { IsEvaluationIn look.old self.old invocation.now.caller invocation.now.call.now }
        requires unjoined { is_joining look.old.ready ≡ false }
        requires steps { IsOk (step self.old (Called invocation.now.caller invocation.now.call.now (recorded_reply look.old.ready))) }
        ensures reply { recorded_reply look.new.ready ≡ recorded_reply look.old.ready }
        ensures step { Steps (recorded_of result) self.old self.new (step self.old (Called invocation.now.caller invocation.now.call.now (recorded_reply look.old.ready))) }
        ensures ample { keeps_memory invocation.now.call.now ≡ false → IsOk result }
    {
        soundness();
        forget_moved(&mut self.counts, invocation.caller.rank, invocation.call);
        let charge = event_charge(&self.ranks, invocation, &look.ready);
        record_with_lanes(
            &mut self.ranks,
            &mut self.memories,
            &mut self.standing,
            alloc,
            invocation,
            look,
            charge,
        )
    }

    /// Makes the step by the join of a collective, and gives the event. The look at this call in this very state has found that it
    /// may join with `args`, and the event is a step. The collective is pending for its caller then. Where memory runs out nothing
    /// changes. (GASPI: collectives)
    pub fn join(
        &mut self,
        alloc: Global,
        invocation: &Invocation<'_>,
        args: Args,
    ) -> Result<Event, NoMemory>
        requires declared { is_declared self.old invocation.now.caller.rank invocation.now.caller.thread ≡ true }
        requires joins { answer_in self.old invocation.now.caller.rank invocation.now.caller.thread invocation.now.call.now ≡ Some (Join args) }
        requires steps { IsOk (step self.old (join_event invocation.now.caller invocation.now.call.now args)) }
        ensures event { IfOk result (λ event. event ≡ join_event invocation.now.caller invocation.now.call.now args) }
        ensures step { Steps (recorded_of result) self.old self.new (step self.old (join_event invocation.now.caller invocation.now.call.now args)) }
    {
        soundness();
        join_found(&mut self.ranks, &mut self.memories, alloc, invocation, args)
    }

    /// As `look`, for a caller that has a section, but with the answer alone; it takes memory as `look` does (clauses `ample` and
    /// `idle`). For tests.
    pub fn answer(&self, alloc: Global, caller: CallerId, call: &Call) -> Result<Ready, NoMemory>
        requires { is_declared self.now caller.rank caller.thread ≡ true }
        ensures answer { IfOk result (λ ready. answer_in self.now caller.rank caller.thread call.now ≡ Some ready) }
        ensures ample { looks_with_memory call.now ≡ false → IsOk result }
        ensures idle { (ready : Ready) → is_send call.now ≡ true → answer_in self.now caller.rank caller.thread call.now ≡ Some ready → is_idle (recorded_reply ready) ≡ true → IsOk result }
    {
        let invocation = Invocation::new(caller, call);
        let mut look = Evaluation::of_no_call();
        self.look(alloc, &invocation, &mut look)?;
        Ok(std::mem::replace(&mut look.ready, Ready::NotReady))
    }

    /// The enabled transfers, by origin, queue, target and number. For tests: `transfer_at` gives each without a list.
    pub fn transfers(&self, alloc: Global) -> Result<Transfers, NoMemory>
        ensures { IfOk result (λ found. found ≡ transfers self.now.limits self.now.posts) }
    {
        transfers(alloc, &self.ranks.limits, &self.ranks.posts, &self.standing)
    }

    /// How many transfers are enabled. Those of a rank are counted where they may have changed since the last count, and the count
    /// is stored; the state does not change. It takes no memory.
    pub fn transfer_count(&mut self) -> usize
        ensures count { result ≡ length (transfers self.old.limits self.old.posts) }
        ensures same { self.new ≡ self.old }
    {
        transfer_count(
            &self.ranks.limits,
            &self.ranks.posts,
            &self.standing,
            &mut self.counts,
        )
    }

    /// The enabled transfer at an index of their list, by origin, queue, target and number; None where the index is past its end.
    /// Here `place` is that index, and no place of an event. It takes no memory.
    pub fn transfer_at(&self, place: usize) -> Option<Transfer>
        ensures { result ≡ slice_get (transfers self.now.limits self.now.posts) place }
    {
        transfer_at(
            &self.ranks.limits,
            &self.ranks.posts,
            &self.standing,
            &self.counts,
            place,
        )
    }

    /// Makes the step by an enabled transfer, with the machine's outcome, and gives the event. Another transfer is no step: its
    /// cause is given and nothing changes. Only a take takes memory; where it runs out nothing changes.
    pub fn make(&mut self, alloc: Global, transfer: &Transfer) -> Result<Event, StepFault>
        ensures event { IfOk result (λ event. event ≡ transfer_event self.old transfer.now) }
        ensures step { Steps (made_of result) self.old self.new (step self.old (transfer_event self.old transfer.now)) }
        ensures ample { transfer.now.put ≡ true → result ≢ Err StepFault.NoMemory }
    {
        soundness();
        forget_count(&mut self.counts, transfer.origin);
        make(
            &mut self.ranks,
            &mut self.memories,
            &mut self.standing,
            alloc,
            transfer,
        )
    }

    /// The room of a rank: how many events it may record beside those that it owes. The rank is in the world.
    pub fn room(&self, rank: RankId) -> u64
        requires { rank < length self.now.posts }
        ensures { result + used_room self.now rank ≡ self.now.limits.events }
    {
        u64::from(self.ranks.limits.events) - u64::from(*self.ranks.used.at(rank.index()))
    }

    /// Whether a rank is in the world. For tests.
    pub fn has_rank(&self, rank: RankId) -> bool
        ensures { IsTrue result ↔ (rank < length self.now.posts) }
    {
        rank.index() < self.ranks.posts.len()
    }

    /// As `need`, for a call that has its row.
    fn needed(&self, invocation: &Invocation<'_>) -> u64
        requires { is_declared self.now invocation.now.caller.rank invocation.now.caller.thread ≡ true }
        ensures { result ≡ need_of invocation.now.call.now (is_pending self.now invocation.now.caller.rank invocation.now.caller.thread invocation.now.call.now) (not (is_active self.now invocation.now.caller.rank invocation.now.caller.thread)) }
    {
        let pending = is_pending_in(&self.ranks, invocation);
        let row = &invocation.row;
        row.need(pending, !self.is_active(invocation.caller))
    }

    /// The room that a call of a caller, who has a section, must find at its look. A collective that is not pending for its caller
    /// needs an event more, for its join.
    pub fn need(&self, caller: CallerId, call: &Call) -> u64
        requires { is_declared self.now caller.rank caller.thread ≡ true }
        ensures { result ≡ need_of call.now (is_pending self.now caller.rank caller.thread call.now) (not (is_active self.now caller.rank caller.thread)) }
    {
        self.needed(&Invocation::new(caller, call))
    }

    /// Whether a caller's rank has less room than its call needs. The caller has a section. (own choice)
    pub fn lacks_room(&self, invocation: &Invocation<'_>) -> bool
        requires { is_declared self.now invocation.now.caller.rank invocation.now.caller.thread ≡ true }
        ensures { result ≡ lacks_room_in self.now invocation.now.caller invocation.now.call.now }
    {
        self.room(invocation.caller.rank) < self.needed(invocation)
    }

    /// The number in the eight bytes at an offset of a segment of a rank, the lowest first; None where there are no such eight
    /// bytes. The offset need not be divisible by 8. (GASPI: segments)
    pub fn word(&self, rank: RankId, seg: u64, offset: u64) -> Option<u64>
        ensures { result ≡ word_in self.now rank seg offset }
    {
        let memory = self.memories.get(rank.index())?;
        let bytes = bytes_of(memory, seg);
        if is_within(offset, 8, bytes.len() as u64) {
            Some(word_at(bytes, offset))
        } else {
            None
        }
    }

    /// The limits of the world. A second clause says that the state is sound. (own choice)
    pub fn limits(&self) -> Limits
        ensures value { result ≡ self.now.limits }
        ensures sound { IsSound self.now }
    {
        self.ranks.limits
    }

    /// Whether a caller has a section.
    pub fn is_declared(&self, caller: CallerId) -> bool
        ensures { result ≡ is_declared self.now caller.rank caller.thread }
    {
        has_section(&self.ranks, &caller)
    }

    /// Whether a caller is active: it has a section and has not ended.
    pub fn is_active(&self, caller: CallerId) -> bool
        ensures { result ≡ is_active self.now caller.rank caller.thread }
    {
        match self.ranks.posts.get(caller.rank.index()) {
            Some(posts) => is_running(thread_at(posts, caller.thread)),
            None => false,
        }
    }
}
