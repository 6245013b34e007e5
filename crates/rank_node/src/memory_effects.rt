//! Effects on the memory that a call works on, of calls that were done. A call was done where its reply is neither a refusal nor a
//! timeout. None takes memory: a new segment and a message were reserved before. `affect` chooses among the functions of single
//! changes by the call.

ghost use Rattle.std.specs.Prelude.{◌≡◌, ◌<◌, Ok, IsOk, IsSome, IfSome, slice_set};
ghost use Rattle.gaspi_types.specs.Inboxes.{first_within, deposited};
ghost use Rattle.gaspi_model.specs.AtomicCalls.{fetch_add_effect, compare_swap_effect};
ghost use Rattle.gaspi_model.specs.Calls.{memory_effect};
ghost use Rattle.gaspi_model.specs.Memories.{slots_of, with_slots};
ghost use Rattle.gaspi_model.specs.MemoryCalls.{store_effect};
ghost use Rattle.gaspi_model.specs.PassiveCalls.{send_effect, receive_effect};
ghost use Rattle.gaspi_model.specs.SegmentCalls.{delete_effect};

use crate::making::MadeSegment;
use crate::node_memory::NodeMemory;
use gaspi_types::{Call, CompareSwap, Delete, FetchAdd, Message, PassiveReceive, Store};
use segment_store::{add_to_segment, store_bytes, swap_in_segment};

impl NodeMemory {
    ghost use Rattle.rank_node.specs.Effects.{with_memory, MayDeposit, MayDepositIf, MayAffectMemory, IsMadeByCall};
    ghost use Rattle.rank_node.specs.Making.{with_made};
    ghost use Rattle.rank_node.specs.Values.{PostsValue};

    /// Removes a segment with its bytes and slots. Where there is no such segment nothing changes. (GASPI: segment_delete)
    fn remove_segment(&mut self, call: &Delete)
        ensures { self.new ≡ with_memory self.old (delete_effect self.old.memory call.now) }
    {
        let place = call.seg as usize;
        if place < self.segments.len() {
            *self.segments.at_mut(place) = None;
        }
        if place < self.slots.len() {
            *self.slots.at_mut(place) = None;
        }
    }

    /// Writes the bytes of a store. All other bytes stay. (own choice)
    fn store(&mut self, call: &Store)
        ensures { self.new ≡ with_memory self.old (store_effect self.old.memory call.now) }
    {
        store_bytes(
            &mut self.segments,
            call.seg,
            call.offset,
            call.bytes.as_slice(),
        );
    }

    /// Sets a slot of a segment to a value. Where there is no such slot nothing changes. (GASPI: notify, notify_reset)
    pub(crate) fn set_slot(&mut self, seg: u64, note: u64, value: u32)
        ensures { self.new ≡ with_memory self.old (with_slots self.old.memory seg (slice_set (slots_of self.old.memory seg) note value)) }
    {
        let place = seg as usize;
        if place < self.slots.len() {
            if let Some(slots) = self.slots.at_mut(place) {
                if note < slots.len() as u64 {
                    slots.set(note, value);
                }
            }
        }
    }

    /// Appends a message to the inbox, which has room for it. (GASPI: passive_send)
    fn deposit(&mut self, message: Message)
        requires { MayDeposit self.old message }
        ensures { self.new ≡ with_memory self.old (record self.old.memory { inbox = deposited self.old.memory.inbox message }) }
    {
        let Message { sender, bytes } = message;
        match self.inbox.deposit(sender, bytes) {
            Ok(()) => {}
            Err(_message) => unreachable!(),
        }
    }

    /// Removes the first message of the inbox, and stores its bytes from the offset of the receive on. The message is not too long;
    /// where there is none, nothing changes. (GASPI: passive_receive)
    fn receive(&mut self, call: &PassiveReceive)
        requires { IsOk (first_within call.now.size self.old.memory.inbox) }
        ensures { self.new ≡ with_memory self.old (receive_effect self.old.memory call.now) }
    {
        match self.inbox.receive(call.size) {
            Ok(Some(message)) => store_bytes(
                &mut self.segments,
                call.seg,
                call.offset,
                message.bytes.as_slice(),
            ),
            Ok(None) => {}
            Err(_refusal) => unreachable!(),
        }
    }

    /// Adds the value of the call to the memory word that it names. Where there is no such word nothing changes.
    /// (GASPI: atomic_fetch_add)
    fn fetch_add(&mut self, call: &FetchAdd)
        ensures { self.new ≡ with_memory self.old (fetch_add_effect self.old.memory call.now) }
    {
        add_to_segment(&mut self.segments, call.seg, call.offset, call.value);
    }

    /// Puts the new value of the call into the memory word that it names, where that is the comparator; else nothing changes.
    /// (GASPI: atomic_compare_swap)
    fn compare_swap(&mut self, call: &CompareSwap)
        ensures { self.new ≡ with_memory self.old (compare_swap_effect self.old.memory call.now) }
    {
        swap_in_segment(
            &mut self.segments,
            call.seg,
            call.offset,
            call.comparator,
            call.new,
        );
    }

    /// Puts the made segment of an alloc under its id. It is there, and `made` is None after that. (GASPI: segment_alloc)
    fn insert_made(&mut self, seg: u64, made: &mut Option<MadeSegment>)
        requires { IsSome made.old }
        ensures { IfSome made.old (λ made. self.new ≡ with_made self.old seg made) }
    {
        match made.take() {
            Some(made) => self.insert_segment(seg, made),
            None => unreachable!(),
        }
    }

    /// Appends the reserved message of a send to the inbox; `message` is None after that. Where it was None before, nothing changes.
    /// (GASPI: passive_send)
    fn deposit_message(&mut self, message: &mut Option<Message>)
        requires { MayDepositIf self.old message.old }
        ensures { self.new ≡ with_memory self.old (send_effect message.old self.old.memory) }
    {
        if let Some(message) = message.take() {
            self.deposit(message);
        }
    }

    /// Makes the effect of a call that was done on the memory that it works on. An alloc uses `made`, and a send `message`; they are
    /// None after that. The calls that change no memory change nothing here. It takes no memory.
    pub(crate) fn affect(
        &mut self,
        call: &Call,
        made: &mut Option<MadeSegment>,
        message: &mut Option<Message>,
    )
        requires { MayAffectMemory self.old call.now made.old message.old }
        ensures { (p : PostsValue) → IsMadeByCall p call.now made.old → self.new ≡ with_memory self.old (memory_effect p.limits p.posts message.old self.old.memory call.now) }
    {
        match call {
            Call::Alloc(call) => self.insert_made(call.seg, made),
            Call::PassiveSend(_) => self.deposit_message(message),
            Call::Delete(call) => self.remove_segment(call),
            Call::Store(call) => self.store(call),
            Call::Reset(call) => self.set_slot(call.seg, call.note, 0),
            Call::PassiveReceive(call) => self.receive(call),
            Call::FetchAdd(call) => self.fetch_add(call),
            Call::CompareSwap(call) => self.compare_swap(call),
            _ => {}
        }
    }
}
