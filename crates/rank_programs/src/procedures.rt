//! The GASPI procedures of a caller: each makes one call, and gives the value that the call answers, or `Unexpected`.
//! (GASPI: the interface)
//!
//! The parameters come in GASPI's order. A procedure without a timeout looks once. One that is given a list copies it: `Unexpected`
//! has `Stop::NoMemory` where there is no memory for that, and then no call was made. `store` and `load` are the program's own writes
//! and reads.

ghost use Rattle.std.specs.Prelude.{length};
ghost use Rattle.gaspi_types.specs.NumberTypes.{AreInType};
ghost use Rattle.gaspi_types.specs.declared.calls.Call.TheVariants as calls;
ghost use Rattle.gaspi_types.specs.declared.calls.Timeout.TheVariants.{Looks};
ghost use Rattle.gaspi_types.specs.declared.replies.Reply.TheVariants as replies;
ghost use Rattle.timeout_state.specs.Looks.{looks_of, HasLook};
ghost use Rattle.rank_programs.specs.Answers.{done, Answers, AnswersOrRunsOut};
ghost use Rattle.rank_programs.specs.Callers.{IsCaller, StaysCaller};

use crate::callers::Caller;
use crate::replies::{Unexpected, out_of_memory};
use gaspi_types::{
    Alloc, Allreduce, Barrier, BoxedSequence, Bytes, Call, Commit, CompareSwap, Create, Delete,
    FetchAdd, GroupAdd, GroupDelete, Item, Load, Notify, NumType, Numbers, Op, PassiveReceive,
    PassiveSend, Purge, Qsize, Read, ReadList, ReadListNotify, ReadNotify, Register, Reset,
    Sequence, Store, Timeout, Wait as WaitQueue, Waitsome, Write, WriteList, WriteListNotify,
    WriteNotify,
};
use std::sync::Wait;

impl<'a, R: Wait> Caller<'a, R> {
    /// Makes an own segment, all zero. (GASPI: segment_alloc)
    pub fn segment_alloc(&mut self, seg: u64, size: u64) -> Result<(), Unexpected>
        requires { IsCaller self.old }
        ensures stays { StaysCaller self.old self.new }
        ensures answers { Answers done (calls.Alloc (record { seg = seg; size = size })) (Looks 1) self.old result self.new }
    {
        let args = Alloc { seg, size };
        self.call_done("gaspi_segment_alloc", Call::Alloc(args), Timeout::Looks(1))
    }

    /// Makes an own segment known to a rank. (GASPI: segment_register)
    pub fn segment_register(&mut self, seg: u64, rank: u64) -> Result<(), Unexpected>
        requires { IsCaller self.old }
        ensures stays { StaysCaller self.old self.new }
        ensures answers { Answers done (calls.Register (record { seg = seg; rank = rank })) (Looks 1) self.old result self.new }
    {
        let args = Register { seg, rank };
        self.call_done(
            "gaspi_segment_register",
            Call::Register(args),
            Timeout::Looks(1),
        )
    }

    /// Makes an own segment, and makes the new segments of all members of a group known to the rank: a collective.
    /// (GASPI: segment_create)
    pub fn segment_create(
        &mut self,
        seg: u64,
        size: u64,
        group: u64,
        timeout: Timeout,
    ) -> Result<(), Unexpected>
        requires caller { IsCaller self.old }
        requires timeout { HasLook (looks_of timeout) }
        ensures stays { StaysCaller self.old self.new }
        ensures answers { Answers done (calls.Create (record { seg = seg; size = size; group = group })) timeout self.old result self.new }
    {
        let args = Create { seg, size, group };
        self.call_done("gaspi_segment_create", Call::Create(args), timeout)
    }

    /// Deletes an own segment. (GASPI: segment_delete)
    pub fn segment_delete(&mut self, seg: u64) -> Result<(), Unexpected>
        requires { IsCaller self.old }
        ensures stays { StaysCaller self.old self.new }
        ensures answers { Answers done (calls.Delete (record { seg = seg })) (Looks 1) self.old result self.new }
    {
        let args = Delete { seg };
        self.call_done(
            "gaspi_segment_delete",
            Call::Delete(args),
            Timeout::Looks(1),
        )
    }

    /// Stores bytes into an own segment. (own choice)
    pub fn store(&mut self, seg: u64, offset: u64, bytes: &[u8]) -> Result<(), Unexpected>
        requires { IsCaller self.old }
        ensures stays { StaysCaller self.old self.new }
        ensures answers { AnswersOrRunsOut done (calls.Store (record { seg = seg; offset = offset; bytes = bytes.now })) (Looks 1) (length bytes.now) self.old result self.new }
    {
        let Ok(bytes) = Sequence::copied_from(self.alloc, bytes) else {
            return Err(out_of_memory("gaspi_store"));
        };
        let args = Store { seg, offset, bytes };
        self.call_done("gaspi_store", Call::Store(args), Timeout::Looks(1))
    }

    /// The bytes of a range of an own segment. (own choice)
    pub fn load(&mut self, seg: u64, offset: u64, size: u64) -> Result<Bytes, Unexpected>
        requires { IsCaller self.old }
        ensures stays { StaysCaller self.old self.new }
        ensures answers { Answers replies.Bytes (calls.Load (record { seg = seg; offset = offset; size = size })) (Looks 1) self.old result self.new }
    {
        let args = Load { seg, offset, size };
        self.call_bytes("gaspi_load", Call::Load(args), Timeout::Looks(1))
    }

    /// Posts a write to a segment of a rank. (GASPI: write)
    pub fn write(
        &mut self,
        seg: u64,
        offset: u64,
        rank: u64,
        rseg: u64,
        roffset: u64,
        size: u64,
        queue: u64,
    ) -> Result<(), Unexpected>
        requires { IsCaller self.old }
        ensures stays { StaysCaller self.old self.new }
        ensures answers { Answers done (calls.Write (record { seg = seg; offset = offset; rank = rank; rseg = rseg; roffset = roffset; size = size; queue = queue })) (Looks 1) self.old result self.new }
    {
        let args = Write {
            seg,
            offset,
            rank,
            rseg,
            roffset,
            size,
            queue,
        };
        self.call_done("gaspi_write", Call::Write(args), Timeout::Looks(1))
    }

    /// Posts a read from a segment of a rank. (GASPI: read)
    pub fn read(
        &mut self,
        seg: u64,
        offset: u64,
        rank: u64,
        rseg: u64,
        roffset: u64,
        size: u64,
        queue: u64,
    ) -> Result<(), Unexpected>
        requires { IsCaller self.old }
        ensures stays { StaysCaller self.old self.new }
        ensures answers { Answers done (calls.Read (record { seg = seg; offset = offset; rank = rank; rseg = rseg; roffset = roffset; size = size; queue = queue })) (Looks 1) self.old result self.new }
    {
        let args = Read {
            seg,
            offset,
            rank,
            rseg,
            roffset,
            size,
            queue,
        };
        self.call_done("gaspi_read", Call::Read(args), Timeout::Looks(1))
    }

    /// Posts a notification for a slot of a rank. (GASPI: notify)
    pub fn notify(
        &mut self,
        rseg: u64,
        rank: u64,
        note: u64,
        value: u32,
        queue: u64,
    ) -> Result<(), Unexpected>
        requires { IsCaller self.old }
        ensures stays { StaysCaller self.old self.new }
        ensures answers { Answers done (calls.Notify (record { rseg = rseg; rank = rank; note = note; value = value; queue = queue })) (Looks 1) self.old result self.new }
    {
        let args = Notify {
            rseg,
            rank,
            note,
            value,
            queue,
        };
        self.call_done("gaspi_notify", Call::Notify(args), Timeout::Looks(1))
    }

    /// Posts a write, and after it a notification. (GASPI: write_notify)
    pub fn write_notify(&mut self, args: WriteNotify) -> Result<(), Unexpected>
        requires { IsCaller self.old }
        ensures stays { StaysCaller self.old self.new }
        ensures answers { Answers done (calls.WriteNotify args) (Looks 1) self.old result self.new }
    {
        self.call_done(
            "gaspi_write_notify",
            Call::WriteNotify(args),
            Timeout::Looks(1),
        )
    }

    /// Posts a read, and after it its notification, which sets an own slot. (GASPI: read_notify)
    pub fn read_notify(&mut self, args: ReadNotify) -> Result<(), Unexpected>
        requires { IsCaller self.old }
        ensures stays { StaysCaller self.old self.new }
        ensures answers { Answers done (calls.ReadNotify args) (Looks 1) self.old result self.new }
    {
        self.call_done(
            "gaspi_read_notify",
            Call::ReadNotify(args),
            Timeout::Looks(1),
        )
    }

    /// Posts a write for each item. (GASPI: write_list)
    pub fn write_list(&mut self, items: &[Item], rank: u64, queue: u64) -> Result<(), Unexpected>
        requires { IsCaller self.old }
        ensures stays { StaysCaller self.old self.new }
        ensures answers { AnswersOrRunsOut done (calls.WriteList (record { rank = rank; queue = queue; items = items.now })) (Looks 1) (length items.now) self.old result self.new }
    {
        let Ok(items) = Sequence::copied_from(self.alloc, items) else {
            return Err(out_of_memory("gaspi_write_list"));
        };
        let args = WriteList { rank, queue, items };
        self.call_done("gaspi_write_list", Call::WriteList(args), Timeout::Looks(1))
    }

    /// Posts a write for each item, and after them a notification. (GASPI: write_list_notify)
    pub fn write_list_notify(
        &mut self,
        items: &[Item],
        rank: u64,
        nseg: u64,
        note: u64,
        value: u32,
        queue: u64,
    ) -> Result<(), Unexpected>
        requires { IsCaller self.old }
        ensures stays { StaysCaller self.old self.new }
        ensures answers { AnswersOrRunsOut done (calls.WriteListNotify (record { rank = rank; queue = queue; nseg = nseg; note = note; value = value; items = items.now })) (Looks 1) (length items.now) self.old result self.new }
    {
        let Ok(items) = Sequence::copied_from(self.alloc, items) else {
            return Err(out_of_memory("gaspi_write_list_notify"));
        };
        let args = WriteListNotify {
            rank,
            queue,
            nseg,
            note,
            value,
            items,
        };
        self.call_done(
            "gaspi_write_list_notify",
            Call::WriteListNotify(args),
            Timeout::Looks(1),
        )
    }

    /// Posts a read for each item. (GASPI: read_list)
    pub fn read_list(&mut self, items: &[Item], rank: u64, queue: u64) -> Result<(), Unexpected>
        requires { IsCaller self.old }
        ensures stays { StaysCaller self.old self.new }
        ensures answers { AnswersOrRunsOut done (calls.ReadList (record { rank = rank; queue = queue; items = items.now })) (Looks 1) (length items.now) self.old result self.new }
    {
        let Ok(items) = Sequence::copied_from(self.alloc, items) else {
            return Err(out_of_memory("gaspi_read_list"));
        };
        let args = ReadList { rank, queue, items };
        self.call_done("gaspi_read_list", Call::ReadList(args), Timeout::Looks(1))
    }

    /// Posts a read for each item, and after them their notification, which sets an own slot. (GASPI: read_list_notify)
    pub fn read_list_notify(
        &mut self,
        items: &[Item],
        rank: u64,
        nseg: u64,
        note: u64,
        queue: u64,
    ) -> Result<(), Unexpected>
        requires { IsCaller self.old }
        ensures stays { StaysCaller self.old self.new }
        ensures answers { AnswersOrRunsOut done (calls.ReadListNotify (record { rank = rank; queue = queue; nseg = nseg; note = note; items = items.now })) (Looks 1) (length items.now) self.old result self.new }
    {
        let Ok(items) = Sequence::copied_from(self.alloc, items) else {
            return Err(out_of_memory("gaspi_read_list_notify"));
        };
        let args = ReadListNotify {
            rank,
            queue,
            nseg,
            note,
            items,
        };
        self.call_done(
            "gaspi_read_list_notify",
            Call::ReadListNotify(args),
            Timeout::Looks(1),
        )
    }

    /// Waits until no entry of a queue is awaited, and sets the queue's open count to 0. (GASPI: wait)
    pub fn wait(&mut self, queue: u64, timeout: Timeout) -> Result<(), Unexpected>
        requires caller { IsCaller self.old }
        requires timeout { HasLook (looks_of timeout) }
        ensures stays { StaysCaller self.old self.new }
        ensures answers { Answers done (calls.Wait (record { queue = queue })) timeout self.old result self.new }
    {
        let args = WaitQueue { queue };
        self.call_done("gaspi_wait", Call::Wait(args), timeout)
    }

    /// Removes all entries of a queue, sets its open count to 0, and ends its broken mark. (GASPI: queue_purge)
    pub fn queue_purge(&mut self, queue: u64) -> Result<(), Unexpected>
        requires { IsCaller self.old }
        ensures stays { StaysCaller self.old self.new }
        ensures answers { Answers done (calls.Purge (record { queue = queue })) (Looks 1) self.old result self.new }
    {
        let args = Purge { queue };
        self.call_done("gaspi_queue_purge", Call::Purge(args), Timeout::Looks(1))
    }

    /// The open count of a queue. (GASPI: queue_size)
    pub fn queue_size(&mut self, queue: u64) -> Result<u64, Unexpected>
        requires { IsCaller self.old }
        ensures stays { StaysCaller self.old self.new }
        ensures answers { Answers replies.Value (calls.Qsize (record { queue = queue })) (Looks 1) self.old result self.new }
    {
        let args = Qsize { queue };
        self.call_value("gaspi_queue_size", Call::Qsize(args), Timeout::Looks(1))
    }

    /// Waits until a slot of a range is set, and gives the least such id. (GASPI: notify_waitsome)
    pub fn notify_waitsome(
        &mut self,
        seg: u64,
        begin: u64,
        num: u64,
        timeout: Timeout,
    ) -> Result<u64, Unexpected>
        requires caller { IsCaller self.old }
        requires timeout { HasLook (looks_of timeout) }
        ensures stays { StaysCaller self.old self.new }
        ensures answers { Answers replies.Id (calls.Waitsome (record { seg = seg; begin = begin; num = num })) timeout self.old result self.new }
    {
        let args = Waitsome { seg, begin, num };
        self.call_id("gaspi_notify_waitsome", Call::Waitsome(args), timeout)
    }

    /// Sets a slot to 0, and gives its value before. (GASPI: notify_reset)
    pub fn notify_reset(&mut self, seg: u64, note: u64) -> Result<u64, Unexpected>
        requires { IsCaller self.old }
        ensures stays { StaysCaller self.old self.new }
        ensures answers { Answers replies.Value (calls.Reset (record { seg = seg; note = note })) (Looks 1) self.old result self.new }
    {
        let args = Reset { seg, note };
        self.call_value("gaspi_notify_reset", Call::Reset(args), Timeout::Looks(1))
    }

    /// Sends a message to a rank; waits while that rank's inbox is full. (GASPI: passive_send)
    pub fn passive_send(
        &mut self,
        seg: u64,
        offset: u64,
        rank: u64,
        size: u64,
        timeout: Timeout,
    ) -> Result<(), Unexpected>
        requires caller { IsCaller self.old }
        requires timeout { HasLook (looks_of timeout) }
        ensures stays { StaysCaller self.old self.new }
        ensures answers { Answers done (calls.PassiveSend (record { seg = seg; offset = offset; rank = rank; size = size })) timeout self.old result self.new }
    {
        let args = PassiveSend {
            seg,
            offset,
            rank,
            size,
        };
        self.call_done("gaspi_passive_send", Call::PassiveSend(args), timeout)
    }

    /// Receives the first message of the rank's inbox into an own segment, and gives its sender; waits while the inbox is empty.
    /// (GASPI: passive_receive)
    pub fn passive_receive(
        &mut self,
        seg: u64,
        offset: u64,
        size: u64,
        timeout: Timeout,
    ) -> Result<u64, Unexpected>
        requires caller { IsCaller self.old }
        requires timeout { HasLook (looks_of timeout) }
        ensures stays { StaysCaller self.old self.new }
        ensures answers { Answers replies.Id (calls.PassiveReceive (record { seg = seg; offset = offset; size = size })) timeout self.old result self.new }
    {
        let args = PassiveReceive { seg, offset, size };
        self.call_id("gaspi_passive_receive", Call::PassiveReceive(args), timeout)
    }

    /// Adds to a memory word of a rank, and gives its value before. (GASPI: atomic_fetch_add)
    pub fn atomic_fetch_add(
        &mut self,
        seg: u64,
        offset: u64,
        rank: u64,
        value: u64,
    ) -> Result<u64, Unexpected>
        requires { IsCaller self.old }
        ensures stays { StaysCaller self.old self.new }
        ensures answers { Answers replies.Value (calls.FetchAdd (record { seg = seg; offset = offset; rank = rank; value = value })) (Looks 1) self.old result self.new }
    {
        let args = FetchAdd {
            seg,
            offset,
            rank,
            value,
        };
        self.call_value(
            "gaspi_atomic_fetch_add",
            Call::FetchAdd(args),
            Timeout::Looks(1),
        )
    }

    /// Replaces a memory word of a rank where its value is the comparator, and gives its value before. (GASPI: atomic_compare_swap)
    pub fn atomic_compare_swap(
        &mut self,
        seg: u64,
        offset: u64,
        rank: u64,
        comparator: u64,
        new: u64,
    ) -> Result<u64, Unexpected>
        requires { IsCaller self.old }
        ensures stays { StaysCaller self.old self.new }
        ensures answers { Answers replies.Value (calls.CompareSwap (record { seg = seg; offset = offset; rank = rank; comparator = comparator; new = new })) (Looks 1) self.old result self.new }
    {
        let args = CompareSwap {
            seg,
            offset,
            rank,
            comparator,
            new,
        };
        self.call_value(
            "gaspi_atomic_compare_swap",
            Call::CompareSwap(args),
            Timeout::Looks(1),
        )
    }

    /// Makes a group of the rank, building and without ranks, and gives its id. (GASPI: group_create)
    pub fn group_create(&mut self) -> Result<u64, Unexpected>
        requires { IsCaller self.old }
        ensures stays { StaysCaller self.old self.new }
        ensures answers { Answers replies.Id calls.GroupCreate (Looks 1) self.old result self.new }
    {
        self.call_id("gaspi_group_create", Call::GroupCreate, Timeout::Looks(1))
    }

    /// Adds a rank to a group that is building. (GASPI: group_add)
    pub fn group_add(&mut self, group: u64, rank: u64) -> Result<(), Unexpected>
        requires { IsCaller self.old }
        ensures stays { StaysCaller self.old self.new }
        ensures answers { Answers done (calls.GroupAdd (record { group = group; rank = rank })) (Looks 1) self.old result self.new }
    {
        let args = GroupAdd { group, rank };
        self.call_done("gaspi_group_add", Call::GroupAdd(args), Timeout::Looks(1))
    }

    /// Deletes a group. (GASPI: group_delete)
    pub fn group_delete(&mut self, group: u64) -> Result<(), Unexpected>
        requires { IsCaller self.old }
        ensures stays { StaysCaller self.old self.new }
        ensures answers { Answers done (calls.GroupDelete (record { group = group })) (Looks 1) self.old result self.new }
    {
        let args = GroupDelete { group };
        self.call_done(
            "gaspi_group_delete",
            Call::GroupDelete(args),
            Timeout::Looks(1),
        )
    }

    /// The group commit of a group: a collective. (GASPI: group_commit)
    pub fn group_commit(&mut self, group: u64, timeout: Timeout) -> Result<(), Unexpected>
        requires caller { IsCaller self.old }
        requires timeout { HasLook (looks_of timeout) }
        ensures stays { StaysCaller self.old self.new }
        ensures answers { Answers done (calls.Commit (record { group = group })) timeout self.old result self.new }
    {
        let args = Commit { group };
        self.call_done("gaspi_group_commit", Call::Commit(args), timeout)
    }

    /// Waits until all members of a group have come to this barrier: a collective. (GASPI: barrier)
    pub fn barrier(&mut self, group: u64, timeout: Timeout) -> Result<(), Unexpected>
        requires caller { IsCaller self.old }
        requires timeout { HasLook (looks_of timeout) }
        ensures stays { StaysCaller self.old self.new }
        ensures answers { Answers done (calls.Barrier (record { group = group })) timeout self.old result self.new }
    {
        let args = Barrier { group };
        self.call_done("gaspi_barrier", Call::Barrier(args), timeout)
    }

    /// Reduces the values of all members of a group, and gives the reduction: a collective. The values are in the range of their type.
    /// (GASPI: allreduce)
    pub fn allreduce(
        &mut self,
        numbers: &[i128],
        op: Op,
        num_type: NumType,
        group: u64,
        timeout: Timeout,
    ) -> Result<Numbers, Unexpected>
        requires caller { IsCaller self.old }
        requires timeout { HasLook (looks_of timeout) }
        requires range { AreInType num_type numbers.now }
        ensures stays { StaysCaller self.old self.new }
        ensures answers { AnswersOrRunsOut replies.List (calls.Allreduce (record { group = group; op = op; values = record { num_type = num_type; items = numbers.now } })) timeout (length numbers.now) self.old result self.new }
    {
        let Ok(items) = BoxedSequence::copied_from(self.alloc, numbers) else {
            return Err(out_of_memory("gaspi_allreduce"));
        };
        let values = Numbers::new(num_type, items);
        let args = Allreduce { group, op, values };
        self.call_numbers("gaspi_allreduce", Call::Allreduce(args), timeout)
    }

    /// The ranks that are corrupt for the caller's rank: bit r for rank r. (GASPI: state_vec_get)
    pub fn state_vec_get(&mut self) -> Result<u32, Unexpected>
        requires { IsCaller self.old }
        ensures stays { StaysCaller self.old self.new }
        ensures answers { Answers replies.Mask calls.State (Looks 1) self.old result self.new }
    {
        self.call_mask("gaspi_state_vec_get", Call::State, Timeout::Looks(1))
    }
}
