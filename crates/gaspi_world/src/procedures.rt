//! The GASPI procedures of a caller: each makes the call of its name by `Rank::call`, and answers as that does. `rt` is how a thread
//! waits, `alloc` where memory comes from, `args` the fields of the call. A procedure without a timeout looks once. `gaspi_store` and
//! `gaspi_load` are the program's own writes and reads. (GASPI: the interface)

ghost use Rattle.std.specs.Prelude.{◌≡◌};
ghost use Rattle.gaspi_types.specs.declared.calls.Call.TheVariants as calls;
ghost use Rattle.gaspi_types.specs.declared.calls.Timeout.TheVariants.{Looks};
ghost use Rattle.timeout_state.specs.Looks.{looks_of, HasLook};
ghost use Rattle.gaspi_world.specs.Calling.{MayCall, CallsBy};

use crate::calling::Stop;
use crate::ranks::Rank;
use gaspi_types::{
    Alloc, Allreduce, Barrier, Call, Commit, CompareSwap, Create, Delete, FetchAdd, GroupAdd,
    GroupDelete, Load, Notify, PassiveReceive, PassiveSend, Purge, Qsize, Read, ReadList,
    ReadListNotify, ReadNotify, Register, Reply, Reset, Store, Timeout, Wait as WaitQueue,
    Waitsome, Write, WriteList, WriteListNotify, WriteNotify,
};
use std::alloc::Global;
use std::sync::Wait;

impl<'a> Rank<'a> {
    /// Makes an own segment, all zero. (GASPI: segment_alloc)
    pub fn gaspi_segment_alloc<R: Wait>(
        &mut self,
        rt: &R,
        alloc: Global,
        args: Alloc,
    ) -> Result<Reply, Stop>
        requires pass { MayCall self.old.world.now self.old.pass.now }
        ensures same { (self.new.world.now ≡ self.old.world.now) × (self.new.pass.ghost_name ≡ self.old.pass.ghost_name) }
        ensures on { MayCall self.old.world.now self.new.pass.now }
        ensures calls { CallsBy self.old.world.now (calls.Alloc args) (Looks 1) self.old.pass.now result self.new.pass.now }
    {
        self.call(rt, alloc, &Call::Alloc(args), Timeout::Looks(1))
    }

    /// Makes an own segment known to a rank. (GASPI: segment_register)
    pub fn gaspi_segment_register<R: Wait>(
        &mut self,
        rt: &R,
        alloc: Global,
        args: Register,
    ) -> Result<Reply, Stop>
        requires pass { MayCall self.old.world.now self.old.pass.now }
        ensures same { (self.new.world.now ≡ self.old.world.now) × (self.new.pass.ghost_name ≡ self.old.pass.ghost_name) }
        ensures on { MayCall self.old.world.now self.new.pass.now }
        ensures calls { CallsBy self.old.world.now (calls.Register args) (Looks 1) self.old.pass.now result self.new.pass.now }
    {
        self.call(rt, alloc, &Call::Register(args), Timeout::Looks(1))
    }

    /// Makes an own segment, and makes the new segments of all members of a group known to the rank: a collective.
    /// (GASPI: segment_create)
    pub fn gaspi_segment_create<R: Wait>(
        &mut self,
        rt: &R,
        alloc: Global,
        args: Create,
        timeout: Timeout,
    ) -> Result<Reply, Stop>
        requires pass { MayCall self.old.world.now self.old.pass.now }
        requires timeout { HasLook (looks_of timeout) }
        ensures same { (self.new.world.now ≡ self.old.world.now) × (self.new.pass.ghost_name ≡ self.old.pass.ghost_name) }
        ensures on { MayCall self.old.world.now self.new.pass.now }
        ensures calls { CallsBy self.old.world.now (calls.Create args) timeout self.old.pass.now result self.new.pass.now }
    {
        self.call(rt, alloc, &Call::Create(args), timeout)
    }

    /// Deletes an own segment. (GASPI: segment_delete)
    pub fn gaspi_segment_delete<R: Wait>(
        &mut self,
        rt: &R,
        alloc: Global,
        args: Delete,
    ) -> Result<Reply, Stop>
        requires pass { MayCall self.old.world.now self.old.pass.now }
        ensures same { (self.new.world.now ≡ self.old.world.now) × (self.new.pass.ghost_name ≡ self.old.pass.ghost_name) }
        ensures on { MayCall self.old.world.now self.new.pass.now }
        ensures calls { CallsBy self.old.world.now (calls.Delete args) (Looks 1) self.old.pass.now result self.new.pass.now }
    {
        self.call(rt, alloc, &Call::Delete(args), Timeout::Looks(1))
    }

    /// Stores bytes into an own segment. (own choice)
    pub fn gaspi_store<R: Wait>(
        &mut self,
        rt: &R,
        alloc: Global,
        args: Store,
    ) -> Result<Reply, Stop>
        requires pass { MayCall self.old.world.now self.old.pass.now }
        ensures same { (self.new.world.now ≡ self.old.world.now) × (self.new.pass.ghost_name ≡ self.old.pass.ghost_name) }
        ensures on { MayCall self.old.world.now self.new.pass.now }
        ensures calls { CallsBy self.old.world.now (calls.Store args) (Looks 1) self.old.pass.now result self.new.pass.now }
    {
        self.call(rt, alloc, &Call::Store(args), Timeout::Looks(1))
    }

    /// Answers bytes of an own segment. (own choice)
    pub fn gaspi_load<R: Wait>(&mut self, rt: &R, alloc: Global, args: Load) -> Result<Reply, Stop>
        requires pass { MayCall self.old.world.now self.old.pass.now }
        ensures same { (self.new.world.now ≡ self.old.world.now) × (self.new.pass.ghost_name ≡ self.old.pass.ghost_name) }
        ensures on { MayCall self.old.world.now self.new.pass.now }
        ensures calls { CallsBy self.old.world.now (calls.Load args) (Looks 1) self.old.pass.now result self.new.pass.now }
    {
        self.call(rt, alloc, &Call::Load(args), Timeout::Looks(1))
    }

    /// Posts a write to a segment of a rank. (GASPI: write)
    pub fn gaspi_write<R: Wait>(
        &mut self,
        rt: &R,
        alloc: Global,
        args: Write,
    ) -> Result<Reply, Stop>
        requires pass { MayCall self.old.world.now self.old.pass.now }
        ensures same { (self.new.world.now ≡ self.old.world.now) × (self.new.pass.ghost_name ≡ self.old.pass.ghost_name) }
        ensures on { MayCall self.old.world.now self.new.pass.now }
        ensures calls { CallsBy self.old.world.now (calls.Write args) (Looks 1) self.old.pass.now result self.new.pass.now }
    {
        self.call(rt, alloc, &Call::Write(args), Timeout::Looks(1))
    }

    /// Posts a read from a segment of a rank. (GASPI: read)
    pub fn gaspi_read<R: Wait>(&mut self, rt: &R, alloc: Global, args: Read) -> Result<Reply, Stop>
        requires pass { MayCall self.old.world.now self.old.pass.now }
        ensures same { (self.new.world.now ≡ self.old.world.now) × (self.new.pass.ghost_name ≡ self.old.pass.ghost_name) }
        ensures on { MayCall self.old.world.now self.new.pass.now }
        ensures calls { CallsBy self.old.world.now (calls.Read args) (Looks 1) self.old.pass.now result self.new.pass.now }
    {
        self.call(rt, alloc, &Call::Read(args), Timeout::Looks(1))
    }

    /// Posts a notification for a slot of a rank. (GASPI: notify)
    pub fn gaspi_notify<R: Wait>(
        &mut self,
        rt: &R,
        alloc: Global,
        args: Notify,
    ) -> Result<Reply, Stop>
        requires pass { MayCall self.old.world.now self.old.pass.now }
        ensures same { (self.new.world.now ≡ self.old.world.now) × (self.new.pass.ghost_name ≡ self.old.pass.ghost_name) }
        ensures on { MayCall self.old.world.now self.new.pass.now }
        ensures calls { CallsBy self.old.world.now (calls.Notify args) (Looks 1) self.old.pass.now result self.new.pass.now }
    {
        self.call(rt, alloc, &Call::Notify(args), Timeout::Looks(1))
    }

    /// Posts a write, and after it a notification. (GASPI: write_notify)
    pub fn gaspi_write_notify<R: Wait>(
        &mut self,
        rt: &R,
        alloc: Global,
        args: WriteNotify,
    ) -> Result<Reply, Stop>
        requires pass { MayCall self.old.world.now self.old.pass.now }
        ensures same { (self.new.world.now ≡ self.old.world.now) × (self.new.pass.ghost_name ≡ self.old.pass.ghost_name) }
        ensures on { MayCall self.old.world.now self.new.pass.now }
        ensures calls { CallsBy self.old.world.now (calls.WriteNotify args) (Looks 1) self.old.pass.now result self.new.pass.now }
    {
        self.call(rt, alloc, &Call::WriteNotify(args), Timeout::Looks(1))
    }

    /// Posts a read, and after it its notification, which sets an own slot. (GASPI: read_notify)
    pub fn gaspi_read_notify<R: Wait>(
        &mut self,
        rt: &R,
        alloc: Global,
        args: ReadNotify,
    ) -> Result<Reply, Stop>
        requires pass { MayCall self.old.world.now self.old.pass.now }
        ensures same { (self.new.world.now ≡ self.old.world.now) × (self.new.pass.ghost_name ≡ self.old.pass.ghost_name) }
        ensures on { MayCall self.old.world.now self.new.pass.now }
        ensures calls { CallsBy self.old.world.now (calls.ReadNotify args) (Looks 1) self.old.pass.now result self.new.pass.now }
    {
        self.call(rt, alloc, &Call::ReadNotify(args), Timeout::Looks(1))
    }

    /// Posts a write for each item. (GASPI: write_list)
    pub fn gaspi_write_list<R: Wait>(
        &mut self,
        rt: &R,
        alloc: Global,
        args: WriteList,
    ) -> Result<Reply, Stop>
        requires pass { MayCall self.old.world.now self.old.pass.now }
        ensures same { (self.new.world.now ≡ self.old.world.now) × (self.new.pass.ghost_name ≡ self.old.pass.ghost_name) }
        ensures on { MayCall self.old.world.now self.new.pass.now }
        ensures calls { CallsBy self.old.world.now (calls.WriteList args) (Looks 1) self.old.pass.now result self.new.pass.now }
    {
        self.call(rt, alloc, &Call::WriteList(args), Timeout::Looks(1))
    }

    /// Posts a write for each item, and after them a notification. (GASPI: write_list_notify)
    pub fn gaspi_write_list_notify<R: Wait>(
        &mut self,
        rt: &R,
        alloc: Global,
        args: WriteListNotify,
    ) -> Result<Reply, Stop>
        requires pass { MayCall self.old.world.now self.old.pass.now }
        ensures same { (self.new.world.now ≡ self.old.world.now) × (self.new.pass.ghost_name ≡ self.old.pass.ghost_name) }
        ensures on { MayCall self.old.world.now self.new.pass.now }
        ensures calls { CallsBy self.old.world.now (calls.WriteListNotify args) (Looks 1) self.old.pass.now result self.new.pass.now }
    {
        self.call(rt, alloc, &Call::WriteListNotify(args), Timeout::Looks(1))
    }

    /// Posts a read for each item. (GASPI: read_list)
    pub fn gaspi_read_list<R: Wait>(
        &mut self,
        rt: &R,
        alloc: Global,
        args: ReadList,
    ) -> Result<Reply, Stop>
        requires pass { MayCall self.old.world.now self.old.pass.now }
        ensures same { (self.new.world.now ≡ self.old.world.now) × (self.new.pass.ghost_name ≡ self.old.pass.ghost_name) }
        ensures on { MayCall self.old.world.now self.new.pass.now }
        ensures calls { CallsBy self.old.world.now (calls.ReadList args) (Looks 1) self.old.pass.now result self.new.pass.now }
    {
        self.call(rt, alloc, &Call::ReadList(args), Timeout::Looks(1))
    }

    /// Posts a read for each item, and after them their notification, which sets an own slot. (GASPI: read_list_notify)
    pub fn gaspi_read_list_notify<R: Wait>(
        &mut self,
        rt: &R,
        alloc: Global,
        args: ReadListNotify,
    ) -> Result<Reply, Stop>
        requires pass { MayCall self.old.world.now self.old.pass.now }
        ensures same { (self.new.world.now ≡ self.old.world.now) × (self.new.pass.ghost_name ≡ self.old.pass.ghost_name) }
        ensures on { MayCall self.old.world.now self.new.pass.now }
        ensures calls { CallsBy self.old.world.now (calls.ReadListNotify args) (Looks 1) self.old.pass.now result self.new.pass.now }
    {
        self.call(rt, alloc, &Call::ReadListNotify(args), Timeout::Looks(1))
    }

    /// Waits until no entry of a queue is awaited, and sets the queue's open count to 0. (GASPI: wait)
    pub fn gaspi_wait<R: Wait>(
        &mut self,
        rt: &R,
        alloc: Global,
        args: WaitQueue,
        timeout: Timeout,
    ) -> Result<Reply, Stop>
        requires pass { MayCall self.old.world.now self.old.pass.now }
        requires timeout { HasLook (looks_of timeout) }
        ensures same { (self.new.world.now ≡ self.old.world.now) × (self.new.pass.ghost_name ≡ self.old.pass.ghost_name) }
        ensures on { MayCall self.old.world.now self.new.pass.now }
        ensures calls { CallsBy self.old.world.now (calls.Wait args) timeout self.old.pass.now result self.new.pass.now }
    {
        self.call(rt, alloc, &Call::Wait(args), timeout)
    }

    /// Removes all entries of a queue, sets its open count to 0, and ends its broken mark. (GASPI: queue_purge)
    pub fn gaspi_queue_purge<R: Wait>(
        &mut self,
        rt: &R,
        alloc: Global,
        args: Purge,
    ) -> Result<Reply, Stop>
        requires pass { MayCall self.old.world.now self.old.pass.now }
        ensures same { (self.new.world.now ≡ self.old.world.now) × (self.new.pass.ghost_name ≡ self.old.pass.ghost_name) }
        ensures on { MayCall self.old.world.now self.new.pass.now }
        ensures calls { CallsBy self.old.world.now (calls.Purge args) (Looks 1) self.old.pass.now result self.new.pass.now }
    {
        self.call(rt, alloc, &Call::Purge(args), Timeout::Looks(1))
    }

    /// Answers the open count of a queue. (GASPI: queue_size)
    pub fn gaspi_queue_size<R: Wait>(
        &mut self,
        rt: &R,
        alloc: Global,
        args: Qsize,
    ) -> Result<Reply, Stop>
        requires pass { MayCall self.old.world.now self.old.pass.now }
        ensures same { (self.new.world.now ≡ self.old.world.now) × (self.new.pass.ghost_name ≡ self.old.pass.ghost_name) }
        ensures on { MayCall self.old.world.now self.new.pass.now }
        ensures calls { CallsBy self.old.world.now (calls.Qsize args) (Looks 1) self.old.pass.now result self.new.pass.now }
    {
        self.call(rt, alloc, &Call::Qsize(args), Timeout::Looks(1))
    }

    /// Waits until a slot of a range is set, and answers the least such id. (GASPI: notify_waitsome)
    pub fn gaspi_notify_waitsome<R: Wait>(
        &mut self,
        rt: &R,
        alloc: Global,
        args: Waitsome,
        timeout: Timeout,
    ) -> Result<Reply, Stop>
        requires pass { MayCall self.old.world.now self.old.pass.now }
        requires timeout { HasLook (looks_of timeout) }
        ensures same { (self.new.world.now ≡ self.old.world.now) × (self.new.pass.ghost_name ≡ self.old.pass.ghost_name) }
        ensures on { MayCall self.old.world.now self.new.pass.now }
        ensures calls { CallsBy self.old.world.now (calls.Waitsome args) timeout self.old.pass.now result self.new.pass.now }
    {
        self.call(rt, alloc, &Call::Waitsome(args), timeout)
    }

    /// Sets a slot to 0, and answers its value before. (GASPI: notify_reset)
    pub fn gaspi_notify_reset<R: Wait>(
        &mut self,
        rt: &R,
        alloc: Global,
        args: Reset,
    ) -> Result<Reply, Stop>
        requires pass { MayCall self.old.world.now self.old.pass.now }
        ensures same { (self.new.world.now ≡ self.old.world.now) × (self.new.pass.ghost_name ≡ self.old.pass.ghost_name) }
        ensures on { MayCall self.old.world.now self.new.pass.now }
        ensures calls { CallsBy self.old.world.now (calls.Reset args) (Looks 1) self.old.pass.now result self.new.pass.now }
    {
        self.call(rt, alloc, &Call::Reset(args), Timeout::Looks(1))
    }

    /// Sends a message to a rank; waits while that rank's inbox is full. (GASPI: passive_send)
    pub fn gaspi_passive_send<R: Wait>(
        &mut self,
        rt: &R,
        alloc: Global,
        args: PassiveSend,
        timeout: Timeout,
    ) -> Result<Reply, Stop>
        requires pass { MayCall self.old.world.now self.old.pass.now }
        requires timeout { HasLook (looks_of timeout) }
        ensures same { (self.new.world.now ≡ self.old.world.now) × (self.new.pass.ghost_name ≡ self.old.pass.ghost_name) }
        ensures on { MayCall self.old.world.now self.new.pass.now }
        ensures calls { CallsBy self.old.world.now (calls.PassiveSend args) timeout self.old.pass.now result self.new.pass.now }
    {
        self.call(rt, alloc, &Call::PassiveSend(args), timeout)
    }

    /// Receives the first message of the rank's inbox into an own segment, and answers its sender; waits while the inbox is empty.
    /// (GASPI: passive_receive)
    pub fn gaspi_passive_receive<R: Wait>(
        &mut self,
        rt: &R,
        alloc: Global,
        args: PassiveReceive,
        timeout: Timeout,
    ) -> Result<Reply, Stop>
        requires pass { MayCall self.old.world.now self.old.pass.now }
        requires timeout { HasLook (looks_of timeout) }
        ensures same { (self.new.world.now ≡ self.old.world.now) × (self.new.pass.ghost_name ≡ self.old.pass.ghost_name) }
        ensures on { MayCall self.old.world.now self.new.pass.now }
        ensures calls { CallsBy self.old.world.now (calls.PassiveReceive args) timeout self.old.pass.now result self.new.pass.now }
    {
        self.call(rt, alloc, &Call::PassiveReceive(args), timeout)
    }

    /// Adds to a memory word of a rank, and answers its value before. (GASPI: atomic_fetch_add)
    pub fn gaspi_atomic_fetch_add<R: Wait>(
        &mut self,
        rt: &R,
        alloc: Global,
        args: FetchAdd,
    ) -> Result<Reply, Stop>
        requires pass { MayCall self.old.world.now self.old.pass.now }
        ensures same { (self.new.world.now ≡ self.old.world.now) × (self.new.pass.ghost_name ≡ self.old.pass.ghost_name) }
        ensures on { MayCall self.old.world.now self.new.pass.now }
        ensures calls { CallsBy self.old.world.now (calls.FetchAdd args) (Looks 1) self.old.pass.now result self.new.pass.now }
    {
        self.call(rt, alloc, &Call::FetchAdd(args), Timeout::Looks(1))
    }

    /// Replaces a memory word of a rank where its value is the comparator, and answers its value before. (GASPI: atomic_compare_swap)
    pub fn gaspi_atomic_compare_swap<R: Wait>(
        &mut self,
        rt: &R,
        alloc: Global,
        args: CompareSwap,
    ) -> Result<Reply, Stop>
        requires pass { MayCall self.old.world.now self.old.pass.now }
        ensures same { (self.new.world.now ≡ self.old.world.now) × (self.new.pass.ghost_name ≡ self.old.pass.ghost_name) }
        ensures on { MayCall self.old.world.now self.new.pass.now }
        ensures calls { CallsBy self.old.world.now (calls.CompareSwap args) (Looks 1) self.old.pass.now result self.new.pass.now }
    {
        self.call(rt, alloc, &Call::CompareSwap(args), Timeout::Looks(1))
    }

    /// Makes a group of the rank, building and without ranks, and answers its id. (GASPI: group_create)
    pub fn gaspi_group_create<R: Wait>(&mut self, rt: &R, alloc: Global) -> Result<Reply, Stop>
        requires pass { MayCall self.old.world.now self.old.pass.now }
        ensures same { (self.new.world.now ≡ self.old.world.now) × (self.new.pass.ghost_name ≡ self.old.pass.ghost_name) }
        ensures on { MayCall self.old.world.now self.new.pass.now }
        ensures calls { CallsBy self.old.world.now calls.GroupCreate (Looks 1) self.old.pass.now result self.new.pass.now }
    {
        self.call(rt, alloc, &Call::GroupCreate, Timeout::Looks(1))
    }

    /// Adds a rank to a group that is building. (GASPI: group_add)
    pub fn gaspi_group_add<R: Wait>(
        &mut self,
        rt: &R,
        alloc: Global,
        args: GroupAdd,
    ) -> Result<Reply, Stop>
        requires pass { MayCall self.old.world.now self.old.pass.now }
        ensures same { (self.new.world.now ≡ self.old.world.now) × (self.new.pass.ghost_name ≡ self.old.pass.ghost_name) }
        ensures on { MayCall self.old.world.now self.new.pass.now }
        ensures calls { CallsBy self.old.world.now (calls.GroupAdd args) (Looks 1) self.old.pass.now result self.new.pass.now }
    {
        self.call(rt, alloc, &Call::GroupAdd(args), Timeout::Looks(1))
    }

    /// Deletes a group. (GASPI: group_delete)
    pub fn gaspi_group_delete<R: Wait>(
        &mut self,
        rt: &R,
        alloc: Global,
        args: GroupDelete,
    ) -> Result<Reply, Stop>
        requires pass { MayCall self.old.world.now self.old.pass.now }
        ensures same { (self.new.world.now ≡ self.old.world.now) × (self.new.pass.ghost_name ≡ self.old.pass.ghost_name) }
        ensures on { MayCall self.old.world.now self.new.pass.now }
        ensures calls { CallsBy self.old.world.now (calls.GroupDelete args) (Looks 1) self.old.pass.now result self.new.pass.now }
    {
        self.call(rt, alloc, &Call::GroupDelete(args), Timeout::Looks(1))
    }

    /// The group commit of a group: a collective. (GASPI: group_commit)
    pub fn gaspi_group_commit<R: Wait>(
        &mut self,
        rt: &R,
        alloc: Global,
        args: Commit,
        timeout: Timeout,
    ) -> Result<Reply, Stop>
        requires pass { MayCall self.old.world.now self.old.pass.now }
        requires timeout { HasLook (looks_of timeout) }
        ensures same { (self.new.world.now ≡ self.old.world.now) × (self.new.pass.ghost_name ≡ self.old.pass.ghost_name) }
        ensures on { MayCall self.old.world.now self.new.pass.now }
        ensures calls { CallsBy self.old.world.now (calls.Commit args) timeout self.old.pass.now result self.new.pass.now }
    {
        self.call(rt, alloc, &Call::Commit(args), timeout)
    }

    /// Waits until all members of a group have come to this barrier: a collective. (GASPI: barrier)
    pub fn gaspi_barrier<R: Wait>(
        &mut self,
        rt: &R,
        alloc: Global,
        args: Barrier,
        timeout: Timeout,
    ) -> Result<Reply, Stop>
        requires pass { MayCall self.old.world.now self.old.pass.now }
        requires timeout { HasLook (looks_of timeout) }
        ensures same { (self.new.world.now ≡ self.old.world.now) × (self.new.pass.ghost_name ≡ self.old.pass.ghost_name) }
        ensures on { MayCall self.old.world.now self.new.pass.now }
        ensures calls { CallsBy self.old.world.now (calls.Barrier args) timeout self.old.pass.now result self.new.pass.now }
    {
        self.call(rt, alloc, &Call::Barrier(args), timeout)
    }

    /// Reduces the values of all members of a group, and answers the reduction: a collective. (GASPI: allreduce)
    pub fn gaspi_allreduce<R: Wait>(
        &mut self,
        rt: &R,
        alloc: Global,
        args: Allreduce,
        timeout: Timeout,
    ) -> Result<Reply, Stop>
        requires pass { MayCall self.old.world.now self.old.pass.now }
        requires timeout { HasLook (looks_of timeout) }
        ensures same { (self.new.world.now ≡ self.old.world.now) × (self.new.pass.ghost_name ≡ self.old.pass.ghost_name) }
        ensures on { MayCall self.old.world.now self.new.pass.now }
        ensures calls { CallsBy self.old.world.now (calls.Allreduce args) timeout self.old.pass.now result self.new.pass.now }
    {
        self.call(rt, alloc, &Call::Allreduce(args), timeout)
    }

    /// Answers which ranks are corrupt for the caller's rank. (GASPI: state_vec_get)
    pub fn gaspi_state_vec_get<R: Wait>(&mut self, rt: &R, alloc: Global) -> Result<Reply, Stop>
        requires pass { MayCall self.old.world.now self.old.pass.now }
        ensures same { (self.new.world.now ≡ self.old.world.now) × (self.new.pass.ghost_name ≡ self.old.pass.ghost_name) }
        ensures on { MayCall self.old.world.now self.new.pass.now }
        ensures calls { CallsBy self.old.world.now calls.State (Looks 1) self.old.pass.now result self.new.pass.now }
    {
        self.call(rt, alloc, &Call::State, Timeout::Looks(1))
    }
}
