//! Laws of the machine. A law is a theorem on definitions, as the contract of a function that does nothing; comments between
//! the clauses say them in words.

ghost use Rattle.std.specs.Prelude.{◌==◌, nat_eq, ◌≡◌, ◌≢◌, ℕ, ◌+◌, ◌*◌, ◌%◌, ◌^◌, ◌<◌, ◌≤◌, ◌∷◌, ◌++◌, [], List, Ok, Some, IsOk, true, false, length, slice_get, if◌then◌else◌};
ghost use Rattle.byteorder.specs.Endian.{little_bytes};
ghost use Rattle.gaspi_types.specs.CallRows.{need_of, row_of};
ghost use Rattle.gaspi_types.specs.declared.call_rows.Posting.{Posting};
ghost use Rattle.gaspi_types.specs.Groups.{handle_of_all};
ghost use Rattle.gaspi_types.specs.declared.collectives.Stage.TheVariants.{Committed};
ghost use Rattle.gaspi_types.specs.declared.groups.Handle.{Handle};
ghost use Rattle.gaspi_types.specs.Replies.{is_idle, same_reply};
ghost use Rattle.std.specs.List.{list_any, count_by};
ghost use Rattle.gaspi_types.specs.World.{ShapeValue, IsShape, is_caller};
ghost use Rattle.gaspi_types.specs.declared.calls.Call.{Call};
ghost use Rattle.gaspi_types.specs.declared.calls.Call.TheVariants.{Alloc, Register, Delete, Store, Load, Write, Read, Notify, WriteNotify, ReadNotify, WriteList, WriteListNotify, ReadList, ReadListNotify, Wait, Purge, Qsize, Waitsome, Reset, PassiveSend, PassiveReceive, FetchAdd, CompareSwap, GroupCreate, GroupAdd, GroupDelete, End};
ghost use Rattle.gaspi_types.specs.declared.calls.Call.TheVariants as calls;
ghost use Rattle.gaspi_types.specs.SegmentBytes.{range_of};
ghost use Rattle.gaspi_types.specs.SegmentWords.{word_at};
ghost use Rattle.gaspi_types.specs.Slots.{first_set};
ghost use Rattle.gaspi_types.specs.declared.calls.segments.Alloc as alloc;
ghost use Rattle.gaspi_types.specs.declared.calls.segments.Register as register;
ghost use Rattle.gaspi_types.specs.declared.calls.segments.Delete as delete;
ghost use Rattle.gaspi_types.specs.declared.calls.memory.Store as store;
ghost use Rattle.gaspi_types.specs.declared.calls.memory.Load as load;
ghost use Rattle.gaspi_types.specs.declared.calls.queues.Wait as wait;
ghost use Rattle.gaspi_types.specs.declared.calls.queues.Purge as purge;
ghost use Rattle.gaspi_types.specs.declared.calls.queues.Qsize as qsize;
ghost use Rattle.gaspi_types.specs.declared.calls.notifications.Waitsome as waitsome;
ghost use Rattle.gaspi_types.specs.declared.calls.notifications.Reset as reset;
ghost use Rattle.gaspi_types.specs.declared.calls.posts.Write as write;
ghost use Rattle.gaspi_types.specs.declared.calls.posts.Read as read;
ghost use Rattle.gaspi_types.specs.declared.calls.posts.Notify as notify;
ghost use Rattle.gaspi_types.specs.declared.calls.posts.WriteNotify as write_notify;
ghost use Rattle.gaspi_types.specs.declared.calls.posts.ReadNotify as read_notify;
ghost use Rattle.gaspi_types.specs.declared.calls.posts.WriteList as write_list;
ghost use Rattle.gaspi_types.specs.declared.calls.posts.WriteListNotify as write_list_notify;
ghost use Rattle.gaspi_types.specs.declared.calls.posts.ReadList as read_list;
ghost use Rattle.gaspi_types.specs.declared.calls.posts.ReadListNotify as read_list_notify;
ghost use Rattle.gaspi_types.specs.declared.calls.passive.PassiveSend as send;
ghost use Rattle.gaspi_types.specs.declared.calls.passive.PassiveReceive as receive;
ghost use Rattle.gaspi_types.specs.declared.calls.atomics.FetchAdd as fetch_add;
ghost use Rattle.gaspi_types.specs.declared.calls.atomics.CompareSwap as compare_swap;
ghost use Rattle.gaspi_types.specs.declared.calls.groups.GroupAdd as group_add;
ghost use Rattle.gaspi_types.specs.declared.calls.groups.GroupDelete as group_delete;
ghost use Rattle.gaspi_types.specs.declared.events.Event.{Event};
ghost use Rattle.gaspi_types.specs.declared.events.Event.TheVariants.{Called, Joined, Take, Put};
ghost use Rattle.gaspi_types.specs.declared.groups.Args.{Args};
ghost use Rattle.gaspi_types.specs.declared.calls.collectives.Allreduce as allreduce;
ghost use Rattle.gaspi_types.specs.declared.calls.collectives.Barrier as barrier;
ghost use Rattle.gaspi_types.specs.declared.calls.collectives.Commit as commit;
ghost use Rattle.gaspi_types.specs.declared.calls.collectives.Create as create;
ghost use Rattle.gaspi_types.specs.declared.groups.Contribution.{Contribution};
ghost use Rattle.gaspi_types.specs.declared.groups.Group.{Group};
ghost use Rattle.gaspi_types.specs.Collectives.{no_values, contribution_in, contributions_of, round_of, round_segments};
ghost use Rattle.gaspi_types.specs.NumberTypes.{TypedNumbers};
ghost use Rattle.gaspi_types.specs.Tables.{item_at};
ghost use Rattle.gaspi_model.specs.Contributions.{IsOneOf, pending_count};
ghost use Rattle.gaspi_model.specs.Rounds.{AreMadeKnown, Grows, HaveAllContributed, IsCommitDone, IsCompletionDone, IsCreateJoined, IsReduction, IsJoinDone, MayJoinRound, IsPendingAs, IsReplyFor, IsPendingUnready, completions_on, joins_on};
ghost use Rattle.gaspi_types.specs.declared.events.Outcome.TheVariants.{Applied, Failed};
ghost use Rattle.gaspi_types.specs.declared.events.Outcome.{Outcome};
ghost use Rattle.gaspi_types.specs.declared.events.Transfer.{Transfer};
ghost use Rattle.gaspi_types.specs.declared.replies.Ready.{Ready};
ghost use Rattle.gaspi_types.specs.declared.replies.Reply.{Reply};
ghost use Rattle.gaspi_types.specs.declared.replies.Reply.TheVariants as replies;
ghost use Rattle.gaspi_types.specs.declared.shapes.CallerId.{CallerId};
ghost use Rattle.gaspi_model.specs.Calls.{recorded_reply};
ghost use Rattle.gaspi_model.specs.Changes.{IsOnlyCounted, IsAnswered, IsRead, AreSlotsRead, IsReset, IsWaitDone, IsPurgeDone, IsSizeAnswered, IsStateAnswered, IsAllocDone, IsDeleteDone, IsPutDone, IsFailureDone, IsTakeDone, IsRegisterDone, IsWritten, IsPostDone, IsSendDone, IsReceiveDone, IsGroupMade, IsGroupAdded, IsGroupDeleted, IsEnded, is_corrupt, may_take_fail, may_put_fail};
ghost use Rattle.gaspi_types.specs.Lanes.{is_write, is_read};
ghost use Rattle.gaspi_model.specs.Messages.{IsEarliest, inbox_of, sent_in, received_in};
ghost use Rattle.gaspi_model.specs.Order.{AreInLane, IsNotificationInLane, IsReadNoteInLane, IsReadInLane, IsWriteInLane, is_purge_of};
ghost use Rattle.gaspi_model.specs.RankGroups.{handle_of, is_drop_of};
ghost use Rattle.gaspi_model.specs.Shards.{AgreeOn, HaveSameResult, AgreeOnShard, is_wide, is_create, group_shards, create_shards, send_shards, is_group_call, is_shard, same_shard, event_shards, numbers_of};
ghost use Rattle.gaspi_model.specs.declared.states.Shard.{Shard};
ghost use Rattle.gaspi_model.specs.declared.states.Shard.TheVariants as shards;
ghost use Rattle.gaspi_model.specs.Settled.{AreLanesEmpty, IsSettled};
ghost use Rattle.gaspi_model.specs.State.{opening};
ghost use Rattle.gaspi_model.specs.Step.{step, owner_of, after, reached, recorded_calls, is_legal, ends_caller, answer_in, is_active, is_pending, used_room, transfer_event};
ghost use Rattle.gaspi_model.specs.CollectiveCalls.{element_checks, is_joining, joining_call, with_made_known};
ghost use Rattle.gaspi_types.specs.declared.collectives.Coll.TheVariants.{Create};
ghost use Rattle.gaspi_types.specs.declared.collectives.Coll.TheVariants as colls;
ghost use Rattle.gaspi_types.specs.declared.replies.Ready.TheVariants.{Join};
ghost use Rattle.gaspi_types.specs.declared.replies.Ready.TheVariants as ready;
ghost use Rattle.gaspi_model.specs.Sound.{IsSound, events_left};
ghost use Rattle.gaspi_model.specs.Transfers.{transfers, is_earlier};
ghost use Rattle.gaspi_model.specs.declared.states.Posts.{Posts};
ghost use Rattle.gaspi_model.specs.declared.states.Memory.{Memory};
ghost use Rattle.gaspi_model.specs.declared.states.State.{State};

/// The opening state is sound and every step keeps a state sound, so every state of a legal history is. `IsSound` says what
/// holds of a sound state; so does the comment below, in words.
pub fn soundness()
    ensures opens { (w : ShapeValue) → IsShape w → IsSound (opening w) }
    // In a sound state every table has an item for each queue, rank, thread, segment id and slot. What a rank has recorded and
    // owes is at most EVENTS. Its next entry number is at most 256 times its events, and the next generation of a segment id at
    // most one more than its events.
    // The numbers of a lane rise and are below its origin's next number; a lane has at most DEPTH carried entries. The entries
    // of a queue from its least posted one on are at most its open count, which is at most DEPTH. A queue is broken exactly
    // while it has a failed entry, and then has just one.
    // The extents in a rank's table of segments are those in its memory. The own segment of a posted write, and of a posted or
    // carried read or notification of a read, is there in its generation, and the ranges of entries lie within their segments.
    // Group 0 of a rank is committed and has every rank; its other groups have the first numbers from 1 on, up to 7, and ranks
    // of the world alone. An inbox has at most INBOX messages, each from a rank of the world and of 1 to 4,096 bytes.
    // A rank has contributed to one round of a group more than it has completed where a collective of it is pending there,
    // which is its last contribution, and else to as many. A pending collective may be looked at again: its rank has the group,
    // in the stage that the collective needs. The contributions to one round agree in all but values and generation, and are
    // of members.
    ensures steps { (s t : State) (e : Event) → IsSound s → step s e ≡ Ok t → IsSound t }
    ensures histories { (w : ShapeValue) (history : List Event) (s : State) → IsShape w → reached w history ≡ Ok s → IsSound s }
    ensures limits { (s t : State) (e : Event) → step s e ≡ Ok t → t.limits ≡ s.limits }
    // A memory has an item for each segment id.
    ensures segments { (s : State) (rank : ℕ) (memory : Memory) → IsSound s → slice_get s.memories rank ≡ Some memory → length memory.segments ≡ 32 }
    ensures slots { (s : State) (rank : ℕ) (memory : Memory) → IsSound s → slice_get s.memories rank ≡ Some memory → length memory.slots ≡ 32 }
    // Each event leaves one event less that may be recorded.
    ensures counts { (s t : State) (e : Event) → IsSound s → step s e ≡ Ok t → events_left t + 1 ≡ events_left s }
    // A caller is active until its end.
    ensures active { (s t : State) (e : Event) (rank thread : ℕ) → step s e ≡ Ok t → ends_caller rank thread e ≡ false
        → is_active t rank thread ≡ is_active s rank thread }
{}

/// What may come next is a step: each transfer that is listed, with the machine's outcome; and of each active caller the call
/// with its reply, or a collective's join. (GASPI: collectives, timeouts)
pub fn enabled()
    ensures transfer { (s : State) (t : Transfer) (k : ℕ) → IsSound s → slice_get (transfers s.limits s.posts) k ≡ Some t
        → IsOk (step s (transfer_event s t)) }
    // So is a call with the reply that it has, or with a timeout where it is not ready, where its rank has room for what it
    // needs.
    ensures call { (s : State) (rank thread : ℕ) (call : Call) (ready : Ready) → IsSound s → is_active s rank thread ≡ true
        → used_room s rank + need_of call (is_pending s rank thread call) false ≤ s.limits.events → answer_in s rank thread call ≡ Some ready → is_joining ready ≡ false
        → IsOk (step s (Called (record { rank = rank; thread = thread }) call (recorded_reply ready))) }
    // So is the join of a collective that may join, with the same room.
    ensures join { (s : State) (rank thread id : ℕ) (call : Call) (args : Args) → IsSound s → is_active s rank thread ≡ true
        → used_room s rank + need_of call (is_pending s rank thread call) false ≤ s.limits.events → (row_of call).group ≡ Some id
        → answer_in s rank thread call ≡ Some (Join args) → IsOk (step s (Joined (record { rank = rank; thread = thread }) id args)) }
    // It joins with its own arguments, once: then it is pending for its caller, its rank has used room for one event more, and
    // a look finds that it is ready or not ready, but not that it may join.
    ensures itself { (s : State) (rank thread id : ℕ) (call : Call) (args : Args) → (row_of call).group ≡ Some id
        → answer_in s rank thread call ≡ Some (Join args) → joining_call id args ≡ call }
    ensures joined { (s t : State) (c : CallerId) (call : Call) (id : ℕ) (args : Args) → IsSound s → (row_of call).group ≡ Some id → step s (Joined c id args) ≡ Ok t
        → (is_pending t c.rank c.thread call ≡ true) × (used_room t c.rank ≡ used_room s c.rank + 1) }
    ensures pending { (s : State) (rank thread : ℕ) (call : Call) (ready : Ready) → is_pending s rank thread call ≡ true → answer_in s rank thread call ≡ Some ready
        → is_joining ready ≡ false }
    // A collective needs room for two events before it has joined, and for one after.
    ensures needs { (call : Call) (id : ℕ) → (row_of call).group ≡ Some id → (need_of call false false ≡ 2) × (need_of call true false ≡ 1) }
{}

/// What each event changes, and that nothing else has changed but the count of its owner's events. A put that is applied
/// changes exactly the range or the one slot that its entry has, of the target or, for a read and its notification, of the
/// origin, and the entry goes. (GASPI: one-sided communication, notifications, state vector, segments, atomics, passive
/// communication, groups, timeouts)
pub fn changes()
    ensures put { (s t : State) (origin queue target number : ℕ) → IsSound s → step s (Put origin queue target number Applied) ≡ Ok t
        → IsPutDone s t origin queue target number }
    // A put of a write or a notification that fails leaves its entry failed in its position, its queue broken and its target
    // corrupt. No transfer comes from a broken queue.
    ensures failed { (s t : State) (origin queue target number : ℕ) → IsSound s → step s (Put origin queue target number Failed) ≡ Ok t
        → IsFailureDone s t origin queue target number may_put_fail }
    // A take that is applied carries the bytes that the source of its entry has now.
    ensures taken { (s t : State) (origin queue target number : ℕ) → IsSound s → step s (Take origin queue target number Applied) ≡ Ok t
        → IsTakeDone s t origin queue target number }
    // The take of a read that fails leaves what such a put leaves.
    ensures take_failed { (s t : State) (origin queue target number : ℕ) → IsSound s → step s (Take origin queue target number Failed) ≡ Ok t
        → IsFailureDone s t origin queue target number may_take_fail }
    // A registered segment is known, in its present generation and size, to the rank that the call names.
    ensures registered { (s t : State) (c : CallerId) (call : register.Register) → IsSound s → step s (Called c (Register call) replies.Done) ≡ Ok t
        → IsRegisterDone s t c.rank call.seg call.rank }
    // A refusal or a timeout changes nothing.
    ensures idle { (s t : State) (c : CallerId) (call : Call) (reply : Reply) → is_idle reply ≡ true → step s (Called c call reply) ≡ Ok t
        → IsOnlyCounted s t c.rank }
    // A segment that is made is new, all zero, in the next generation of its id.
    ensures made { (s t : State) (c : CallerId) (call : alloc.Alloc) → IsSound s → step s (Called c (Alloc call) replies.Done) ≡ Ok t
        → IsAllocDone s t c.rank call.seg call.size }
    // A segment that is deleted was used by no entry of its rank.
    ensures gone { (s t : State) (c : CallerId) (call : delete.Delete) → IsSound s → step s (Called c (Delete call) replies.Done) ≡ Ok t
        → IsDeleteDone s t c.rank call.seg }
    // A wait that is done makes the open count of its queue 0; the queue had no awaited entry.
    ensures waited { (s t : State) (c : CallerId) (call : wait.Wait) → IsSound s → step s (Called c (Wait call) replies.Done) ≡ Ok t
        → IsWaitDone s t c.rank call.queue }
    // A purge that is done leaves its queue without an entry, with an open count of 0, and unbroken.
    ensures purged { (s t : State) (c : CallerId) (call : purge.Purge) → IsSound s → step s (Called c (Purge call) replies.Done) ≡ Ok t
        → IsPurgeDone s t c.rank call.queue }
    // The size of a queue is its open count.
    ensures queue_size { (s t : State) (c : CallerId) (call : qsize.Qsize) (value : ℕ) → IsSound s → step s (Called c (Qsize call) (replies.Value value)) ≡ Ok t
        → IsSizeAnswered s t c.rank call.queue value }
    // The state vector has bit r exactly where rank r is corrupt for the caller's rank.
    ensures state { (s t : State) (c : CallerId) (mask : ℕ) → IsSound s → step s (Called c calls.State (replies.Mask mask)) ≡ Ok t
        → IsStateAnswered s t c.rank mask }
    // A load answers the bytes of its range.
    ensures load { (s t : State) (c : CallerId) (call : load.Load) (bytes : List ℕ) → IsSound s → step s (Called c (Load call) (replies.Bytes bytes)) ≡ Ok t
        → IsRead s t c.rank call.seg (λ x. bytes ≡ range_of x.bytes call.offset call.size) }
    // A `waitsome` answers the least slot of its range that is set.
    ensures waitsome { (s t : State) (c : CallerId) (call : waitsome.Waitsome) (note : ℕ) → IsSound s → step s (Called c (Waitsome call) (replies.Id note)) ≡ Ok t
        → AreSlotsRead s t c.rank call.seg (λ slots. first_set slots call.begin call.num ≡ Some note) }
    // A reset answers the value of its slot, which is then 0.
    ensures reset { (s t : State) (c : CallerId) (call : reset.Reset) (value : ℕ) → IsSound s → step s (Called c (Reset call) (replies.Value value)) ≡ Ok t
        → IsReset s t c.rank call.seg call.note value }
    // A store changes exactly its range.
    ensures store { (s t : State) (c : CallerId) (call : store.Store) → IsSound s → step s (Called c (Store call) replies.Done) ≡ Ok t
        → IsWritten s t c.rank c.rank call.seg call.offset call.bytes }
    // An atomic answers the old memory word and changes exactly that word, a `compare_swap` only where it answers the
    // comparator.
    ensures fetch_add { (s t : State) (c : CallerId) (call : fetch_add.FetchAdd) (old : ℕ) → IsSound s → step s (Called c (FetchAdd call) (replies.Value old)) ≡ Ok t
        → IsWritten s t c.rank call.rank call.seg call.offset (little_bytes 8 ((old + call.value) % 2 ^ 64)) }
    ensures fetched { (s t : State) (c : CallerId) (call : fetch_add.FetchAdd) (old : ℕ) → IsSound s → step s (Called c (FetchAdd call) (replies.Value old)) ≡ Ok t
        → IsAnswered s call.rank call.seg (λ x. word_at x.bytes call.offset ≡ old) }
    ensures compared { (s t : State) (c : CallerId) (call : compare_swap.CompareSwap) (old : ℕ) → IsSound s → step s (Called c (CompareSwap call) (replies.Value old)) ≡ Ok t
        → IsAnswered s call.rank call.seg (λ x. word_at x.bytes call.offset ≡ old) }
    ensures swapped { (s t : State) (c : CallerId) (call : compare_swap.CompareSwap) → IsSound s → step s (Called c (CompareSwap call) (replies.Value call.comparator)) ≡ Ok t
        → IsWritten s t c.rank call.rank call.seg call.offset (little_bytes 8 call.new) }
    ensures kept { (s t : State) (c : CallerId) (call : compare_swap.CompareSwap) (old : ℕ) → old ≢ call.comparator → step s (Called c (CompareSwap call) (replies.Value old)) ≡ Ok t
        → IsOnlyCounted s t c.rank }
    // A post that is done appends exactly the entries that it asks for, as many as its row says, to the lane of its queue and
    // its rank: posted, with numbers one after another from its rank's next number on. The queue is not broken, and had room
    // for them.
    ensures posted { (s t : State) (c : CallerId) (call : Call) (to : Posting) → IsSound s → (row_of call).posting ≡ Some to → step s (Called c call replies.Done) ≡ Ok t
        → IsPostDone s t c.rank call to.queue to.rank }
    // A send puts one message, of the caller's rank and with the bytes of its range, at the end of the inbox of the rank that
    // it names, which may be its own.
    ensures sent { (s t : State) (c : CallerId) (call : send.PassiveSend) → IsSound s → step s (Called c (PassiveSend call) replies.Done) ≡ Ok t
        → IsSendDone s t c.rank call.rank call.seg call.offset call.size }
    // A receive removes the first message of its rank's inbox, writes its bytes, and no more, into its range, and answers who
    // sent it.
    ensures received { (s t : State) (c : CallerId) (call : receive.PassiveReceive) (sender : ℕ) → IsSound s → step s (Called c (PassiveReceive call) (replies.Id sender)) ≡ Ok t
        → IsReceiveDone s t c.rank call.seg call.offset call.size sender }
    // A group that is made has the next number of its rank; it is building, with no rank.
    ensures group_made { (s t : State) (c : CallerId) (id : ℕ) → IsSound s → step s (Called c GroupCreate (replies.Id id)) ≡ Ok t
        → IsGroupMade s t c.rank id }
    // One rank is added to a group whose stage is building.
    ensures group_added { (s t : State) (c : CallerId) (call : group_add.GroupAdd) → IsSound s → step s (Called c (GroupAdd call) replies.Done) ≡ Ok t
        → IsGroupAdded s t c.rank call.group call.rank }
    // A group that is deleted, and is not group 0, is gone.
    ensures group_dropped { (s t : State) (c : CallerId) (call : group_delete.GroupDelete) → IsSound s → step s (Called c (GroupDelete call) replies.Done) ≡ Ok t
        → IsGroupDeleted s t c.rank call.group }
    // A join appends one contribution to its rank's round, and is pending.
    ensures joined { (s t : State) (c : CallerId) (id : ℕ) (args : Args) → IsSound s → is_create args.coll ≡ false → step s (Joined c id args) ≡ Ok t → IsJoinDone s t c id args }
    // The join of a `create` also makes its segment, as an alloc does, and contributes its generation.
    ensures create_joined { (s t : State) (c : CallerId) (id : ℕ) (args : Args) (segment size : ℕ) → IsSound s → args.coll ≡ Create segment size → step s (Joined c id args) ≡ Ok t
        → IsCreateJoined s t c id args segment size }
    // A collective that is done was pending for its caller with its arguments, every member has contributed to its round, and
    // it is pending no more. A group commit marks its group committed.
    ensures committed { (s t : State) (c : CallerId) (call : commit.Commit) → IsSound s → step s (Called c (calls.Commit call) replies.Done) ≡ Ok t
        → IsCommitDone s t c call.group }
    ensures barrier { (s t : State) (c : CallerId) (call : barrier.Barrier) → IsSound s → step s (Called c (calls.Barrier call) replies.Done) ≡ Ok t
        → IsCompletionDone s t c call.group (calls.Barrier call) (λ g posts. posts) }
    // A `create` makes the segments of all members known, in its size and in the generations that they contributed.
    ensures created { (s t : State) (c : CallerId) (call : create.Create) → IsSound s → step s (Called c (calls.Create call) replies.Done) ≡ Ok t
        → IsCompletionDone s t c call.group (calls.Create call) (λ g posts. with_made_known call.seg call.size (round_segments g c.rank) posts) }
    ensures known { (s t : State) (c : CallerId) (call : create.Create) → IsSound s → step s (Called c (calls.Create call) replies.Done) ≡ Ok t
        → AreMadeKnown s t c call.group call.seg call.size }
    // An allreduce answers the reduction of what the members have contributed.
    ensures reduced { (s t : State) (c : CallerId) (call : allreduce.Allreduce) (answer : TypedNumbers) → IsSound s
        → step s (Called c (calls.Allreduce call) (replies.List answer)) ≡ Ok t → IsCompletionDone s t c call.group (calls.Allreduce call) (λ g posts. posts) }
    ensures reduction { (s t : State) (c : CallerId) (call : allreduce.Allreduce) (answer : TypedNumbers) → IsSound s
        → step s (Called c (calls.Allreduce call) (replies.List answer)) ≡ Ok t → IsReduction s c call answer }
    // An end ends its caller.
    ensures ended { (s t : State) (c : CallerId) → step s (Called c End replies.Done) ≡ Ok t → IsEnded s t c }
{}

/// A rank that is once corrupt in the state vector of a rank stays so. (GASPI: state vector)
pub fn corruption()
    ensures { (w : ShapeValue) (earlier later : List Event) (s t : State) (rank target : ℕ) → reached w earlier ≡ Ok s → reached w (earlier ++ later) ≡ Ok t
        → is_corrupt s rank target ≡ true → is_corrupt t rank target ≡ true }
{}

/// A notification is put after the earlier writes of its lane since the queue's last purge, and the notification of a read
/// after the earlier reads. The entries of a post are in their lane from the post on: those of a list are as many as its items,
/// with numbers one after another, and its notification has the next one. (GASPI: notification order, queue_purge)
pub fn notification_order()
    ensures write { (w : ShapeValue) (history : List Event) (c : CallerId) (call : write.Write) (s : State) (posts : Posts)
        → IsShape w → reached w history ≡ Ok s → slice_get s.posts c.rank ≡ Some posts
        → is_legal w (history ++ Called c (Write call) replies.Done ∷ []) ≡ true
        → IsWriteInLane w (history ++ Called c (Write call) replies.Done ∷ []) c.rank call.queue call.rank posts.next }
    ensures read { (w : ShapeValue) (history : List Event) (c : CallerId) (call : read.Read) (s : State) (posts : Posts)
        → IsShape w → reached w history ≡ Ok s → slice_get s.posts c.rank ≡ Some posts
        → is_legal w (history ++ Called c (Read call) replies.Done ∷ []) ≡ true
        → IsReadInLane w (history ++ Called c (Read call) replies.Done ∷ []) c.rank call.queue call.rank posts.next }
    ensures notify { (w : ShapeValue) (history : List Event) (c : CallerId) (call : notify.Notify) (s : State) (posts : Posts)
        → IsShape w → reached w history ≡ Ok s → slice_get s.posts c.rank ≡ Some posts
        → is_legal w (history ++ Called c (Notify call) replies.Done ∷ []) ≡ true
        → IsNotificationInLane w (history ++ Called c (Notify call) replies.Done ∷ []) c.rank call.queue call.rank posts.next }
    ensures write_notify { (w : ShapeValue) (history : List Event) (c : CallerId) (call : write_notify.WriteNotify) (s : State) (posts : Posts)
        → IsShape w → reached w history ≡ Ok s → slice_get s.posts c.rank ≡ Some posts
        → is_legal w (history ++ Called c (WriteNotify call) replies.Done ∷ []) ≡ true
        → IsWriteInLane w (history ++ Called c (WriteNotify call) replies.Done ∷ []) c.rank call.queue call.rank posts.next
        × IsNotificationInLane w (history ++ Called c (WriteNotify call) replies.Done ∷ []) c.rank call.queue call.rank (posts.next + 1) }
    ensures read_notify { (w : ShapeValue) (history : List Event) (c : CallerId) (call : read_notify.ReadNotify) (s : State) (posts : Posts)
        → IsShape w → reached w history ≡ Ok s → slice_get s.posts c.rank ≡ Some posts
        → is_legal w (history ++ Called c (ReadNotify call) replies.Done ∷ []) ≡ true
        → IsReadInLane w (history ++ Called c (ReadNotify call) replies.Done ∷ []) c.rank call.queue call.rank posts.next
        × IsReadNoteInLane w (history ++ Called c (ReadNotify call) replies.Done ∷ []) c.rank call.queue call.rank (posts.next + 1) }
    ensures write_list { (w : ShapeValue) (history : List Event) (c : CallerId) (call : write_list.WriteList) (s : State) (posts : Posts)
        → IsShape w → reached w history ≡ Ok s → slice_get s.posts c.rank ≡ Some posts
        → is_legal w (history ++ Called c (WriteList call) replies.Done ∷ []) ≡ true
        → AreInLane is_write w (history ++ Called c (WriteList call) replies.Done ∷ []) c.rank call.queue call.rank posts.next (length call.items) }
    ensures read_list { (w : ShapeValue) (history : List Event) (c : CallerId) (call : read_list.ReadList) (s : State) (posts : Posts)
        → IsShape w → reached w history ≡ Ok s → slice_get s.posts c.rank ≡ Some posts
        → is_legal w (history ++ Called c (ReadList call) replies.Done ∷ []) ≡ true
        → AreInLane is_read w (history ++ Called c (ReadList call) replies.Done ∷ []) c.rank call.queue call.rank posts.next (length call.items) }
    ensures write_list_notify { (w : ShapeValue) (history : List Event) (c : CallerId) (call : write_list_notify.WriteListNotify) (s : State) (posts : Posts)
        → IsShape w → reached w history ≡ Ok s → slice_get s.posts c.rank ≡ Some posts
        → is_legal w (history ++ Called c (WriteListNotify call) replies.Done ∷ []) ≡ true
        → AreInLane is_write w (history ++ Called c (WriteListNotify call) replies.Done ∷ []) c.rank call.queue call.rank posts.next (length call.items)
        × IsNotificationInLane w (history ++ Called c (WriteListNotify call) replies.Done ∷ []) c.rank call.queue call.rank (posts.next + length call.items) }
    ensures read_list_notify { (w : ShapeValue) (history : List Event) (c : CallerId) (call : read_list_notify.ReadListNotify) (s : State) (posts : Posts)
        → IsShape w → reached w history ≡ Ok s → slice_get s.posts c.rank ≡ Some posts
        → is_legal w (history ++ Called c (ReadListNotify call) replies.Done ∷ []) ≡ true
        → AreInLane is_read w (history ++ Called c (ReadListNotify call) replies.Done ∷ []) c.rank call.queue call.rank posts.next (length call.items)
        × IsReadNoteInLane w (history ++ Called c (ReadListNotify call) replies.Done ∷ []) c.rank call.queue call.rank (posts.next + length call.items) }
    // In a legal history a write is in a lane after some events, and later a notification of that lane with a greater number is
    // put. Where no purge of that queue by a caller of that origin was done in between, the write was put in between. So it is
    // with reads and their notifications.
    ensures order { (w : ShapeValue) (earlier later rest : List Event) (origin queue target m n : ℕ)
        → is_legal w (earlier ++ later ++ Put origin queue target n Applied ∷ rest) ≡ true
        → IsWriteInLane w earlier origin queue target m → IsNotificationInLane w (earlier ++ later) origin queue target n → m < n
        → list_any (is_purge_of origin queue) later ≡ false
        → (place : ℕ) × (slice_get later place ≡ Some (Put origin queue target m Applied)) }
    ensures read_order { (w : ShapeValue) (earlier later rest : List Event) (origin queue target m n : ℕ)
        → is_legal w (earlier ++ later ++ Put origin queue target n Applied ∷ rest) ≡ true
        → IsReadInLane w earlier origin queue target m → IsReadNoteInLane w (earlier ++ later) origin queue target n → m < n
        → list_any (is_purge_of origin queue) later ≡ false
        → (place : ℕ) × (slice_get later place ≡ Some (Put origin queue target m Applied)) }
{}

/// Messages come in order, none is lost and none comes twice: what a rank is sent is what it has received, followed by its
/// inbox. It is sent the messages of the sends to it that are done, with the bytes of their ranges at the send, and receives
/// the first message of its inbox at each receive that is done, in any of its threads. (GASPI: passive communication)
pub fn messages()
    ensures order { (w : ShapeValue) (history : List Event) (s : State) (rank : ℕ) → IsShape w → reached w history ≡ Ok s
        → sent_in (opening w) history rank ≡ received_in (opening w) history rank ++ inbox_of s rank }
    // An inbox never has more than INBOX messages.
    ensures few { (w : ShapeValue) (history : List Event) (s : State) (rank : ℕ) → IsShape w → reached w history ≡ Ok s → length (inbox_of s rank) ≤ w.limits.inbox }
    // A receive answers who sent the first message of the inbox: the earliest of those that the rank was sent and has not
    // received.
    ensures received { (w : ShapeValue) (history : List Event) (s : State) (c : CallerId) (call : receive.PassiveReceive) (sender : ℕ) → IsShape w → reached w history ≡ Ok s
        → is_legal w (history ++ Called c (PassiveReceive call) (replies.Id sender) ∷ []) ≡ true
        → IsEarliest w history s c.rank sender }
{}

/// Of two groups that a rank makes in a legal history, in any of its threads, the later one has the greater number. So no
/// number is given twice, also after a group is deleted. (GASPI: groups)
pub fn groups()
    ensures rising { (w : ShapeValue) (earlier later rest : List Event) (c d : CallerId) (m n : ℕ) → c.rank ≡ d.rank
        → is_legal w (earlier ++ Called c GroupCreate (replies.Id m) ∷ later ++ Called d GroupCreate (replies.Id n) ∷ rest) ≡ true → m < n }
    // A committed group of a rank stays as it is, with the same members, by every event but a `group_delete` of it by that rank
    // that is done.
    ensures kept { (s t : State) (e : Event) (rank id : ℕ) (h : Handle) → IsSound s → step s e ≡ Ok t → handle_of s rank id ≡ Some h → h.stage ≡ Committed
        → is_drop_of rank id e ≡ false → handle_of t rank id ≡ Some h }
    // Group 0 of each rank is there in each state of a legal history: committed, and with every rank.
    ensures all { (w : ShapeValue) (history : List Event) (s : State) (rank : ℕ) → IsShape w → reached w history ≡ Ok s → rank < w.limits.ranks
        → handle_of s rank 0 ≡ Some (handle_of_all w.limits.ranks) }
{}

/// A legal history has at most EVENTS events for each rank, so at most 16 * 65,536. So no addition to a word that counts them
/// wraps, and what a commit finds there is the place of its event.
pub fn history_lengths()
    ensures limits { (w : ShapeValue) (history : List Event) → IsShape w → is_legal w history ≡ true → length history ≤ w.limits.ranks * w.limits.events }
    ensures most { (w : ShapeValue) (history : List Event) → IsShape w → is_legal w history ≡ true → length history ≤ 16 * 65536 }
{}

/// Each prefix of a legal history is legal.
pub fn prefixes()
    ensures { (w : ShapeValue) (earlier later : List Event) → is_legal w (earlier ++ later) ≡ true → is_legal w earlier ≡ true }
{}

/// An event reads and changes its parts alone: the posts of its owner, and what is in its footprint. Every other part stays.
/// Whether it is a step, the cause where it is none, and the new parts depend on the limits and on its parts alone. A `Shard`
/// here is a part of the state.
pub fn locality()
    ensures frame { (s t : State) (e : Event) (shard : Shard) → step s e ≡ Ok t → is_shard (event_shards s e) shard ≡ false → AgreeOnShard t s shard }
    ensures determined { (s s' : State) (e : Event) → AgreeOn (is_shard (event_shards s e)) s s' → HaveSameResult s s' (step s e) (step s' e) }
    // Its owner's posts are among its parts. Which parts it has depends on the limits, on its owner's posts, and on the event
    // without its reply.
    ensures owner { (s : State) (e : Event) → is_shard (event_shards s e) (shards.Posts (owner_of e)) ≡ true }
    ensures footprint { (s s' : State) (e : Event) → s.limits ≡ s'.limits → AgreeOnShard s s' (shards.Posts (owner_of e)) → event_shards s e ≡ event_shards s' e }
    ensures reply { (s : State) (c : CallerId) (call : Call) (reply reply' : Reply) → event_shards s (Called c call reply) ≡ event_shards s (Called c call reply') }
    // It has at most one part beside its owner's posts, but for a send and a `create`, which have two.
    ensures few { (s : State) (e : Event) → is_wide e ≡ false → length (event_shards s e) ≤ 2 }
    // A post, a wait, a purge, the size of a queue, the state vector and the calls on groups have their owner's posts alone.
    ensures posting { (s : State) (c : CallerId) (call : Call) (reply : Reply) (to : Posting) → (row_of call).posting ≡ Some to
        → event_shards s (Called c call reply) ≡ shards.Posts c.rank ∷ [] }
    ensures waiting { (s : State) (c : CallerId) (call : wait.Wait) (reply : Reply) → event_shards s (Called c (Wait call) reply) ≡ shards.Posts c.rank ∷ [] }
    ensures purging { (s : State) (c : CallerId) (call : purge.Purge) (reply : Reply) → event_shards s (Called c (Purge call) reply) ≡ shards.Posts c.rank ∷ [] }
    ensures sizing { (s : State) (c : CallerId) (call : qsize.Qsize) (reply : Reply) → event_shards s (Called c (Qsize call) reply) ≡ shards.Posts c.rank ∷ [] }
    ensures state { (s : State) (c : CallerId) (reply : Reply) → event_shards s (Called c calls.State reply) ≡ shards.Posts c.rank ∷ [] }
    // A send has the memory of its own rank and that of the rank that it names, and a receive that of its own rank.
    ensures sending { (s : State) (posts : Posts) (c : CallerId) (call : send.PassiveSend) (reply : Reply) → slice_get s.posts c.rank ≡ Some posts
        → event_shards s (Called c (PassiveSend call) reply) ≡ shards.Posts c.rank ∷ send_shards s.limits.ranks c.rank call.rank }
    ensures receiving { (s : State) (posts : Posts) (c : CallerId) (call : receive.PassiveReceive) (reply : Reply) → slice_get s.posts c.rank ≡ Some posts
        → event_shards s (Called c (PassiveReceive call) reply) ≡ shards.Posts c.rank ∷ shards.Memory c.rank ∷ [] }
    ensures grouping { (s : State) (c : CallerId) (call : Call) (reply : Reply) → is_group_call call ≡ true → event_shards s (Called c call reply) ≡ shards.Posts c.rank ∷ [] }
    // A collective and its join have the group, and a `create` also the memory of its own rank.
    ensures meeting { (s : State) (posts : Posts) (c : CallerId) (call : Call) (id : ℕ) (reply : Reply) → slice_get s.posts c.rank ≡ Some posts → (row_of call).group ≡ Some id
        → is_wide (Called c call reply) ≡ false → event_shards s (Called c call reply) ≡ shards.Posts c.rank ∷ group_shards id }
    ensures creating { (s : State) (posts : Posts) (c : CallerId) (call : create.Create) (reply : Reply) → slice_get s.posts c.rank ≡ Some posts
        → event_shards s (Called c (calls.Create call) reply) ≡ shards.Posts c.rank ∷ create_shards c.rank call.group }
    ensures joining { (s : State) (posts : Posts) (c : CallerId) (id : ℕ) (args : Args) → slice_get s.posts c.rank ≡ Some posts
        → event_shards s (Joined c id args) ≡ shards.Posts c.rank ∷ (if is_create args.coll then create_shards c.rank id else group_shards id) }
    // No part is there twice.
    ensures once { (s : State) (e : Event) (shard : Shard) → count_by (λ x. same_shard x shard) (event_shards s e) ≤ 1 }
{}

/// The same of coarser shards: `number` gives each part a number, and all parts of one number are one shard. So it may be of a
/// rank's posts and memory together, or of the whole state. The numbers of an event's parts are listed once each.
pub fn coarser_locality()
    ensures frame { (number : Shard → ℕ) (s t : State) (e : Event) (shard : Shard) → step s e ≡ Ok t → list_any (nat_eq (number shard)) (numbers_of number s e) ≡ false
        → AgreeOnShard t s shard }
    ensures determined { (number : Shard → ℕ) (s s' : State) (e : Event) → AgreeOn (λ shard. list_any (nat_eq (number shard)) (numbers_of number s e)) s s'
        → HaveSameResult s s' (step s e) (step s' e) }
    ensures owner { (number : Shard → ℕ) (s : State) (e : Event) → list_any (nat_eq (number (shards.Posts (owner_of e)))) (numbers_of number s e) ≡ true }
    ensures once { (number : Shard → ℕ) (s : State) (e : Event) (n : ℕ) → count_by (λ m. m == n) (numbers_of number s e) ≤ 1 }
{}

/// Where no transfer may come next, every lane of an unbroken queue is empty. A settled state stays settled, whatever legally
/// comes after it.
pub fn settling()
    ensures empties { (s : State) → IsSound s → transfers s.limits s.posts ≡ [] → AreLanesEmpty s }
    ensures stays { (s t : State) (events : List Event) → IsSettled s → after s events ≡ Ok t → IsSettled t }
{}

/// The transfers that may come next are listed exactly: a take or a put that is a step is in the list, and, as `enabled` says,
/// what is in the list is a step. They are listed by origin, queue, target and number, so none twice.
pub fn listing()
    ensures take { (s t : State) (origin queue target number : ℕ) (outcome : Outcome) → step s (Take origin queue target number outcome) ≡ Ok t
        → (k : ℕ) × (slice_get (transfers s.limits s.posts) k ≡ Some (record { origin = origin; queue = queue; target = target; number = number; put = false })) }
    ensures put { (s t : State) (origin queue target number : ℕ) (outcome : Outcome) → step s (Put origin queue target number outcome) ≡ Ok t
        → (k : ℕ) × (slice_get (transfers s.limits s.posts) k ≡ Some (record { origin = origin; queue = queue; target = target; number = number; put = true })) }
    ensures order { (s : State) (j k : ℕ) (a b : Transfer) → IsSound s → j < k → slice_get (transfers s.limits s.posts) j ≡ Some a → slice_get (transfers s.limits s.posts) k ≡ Some b
        → is_earlier a b ≡ true }
{}

/// A caller that is active after a history is declared, and has not recorded its end.
pub fn endings()
    ensures { (w : ShapeValue) (history : List Event) (s : State) (rank thread : ℕ) → reached w history ≡ Ok s → is_active s rank thread ≡ true
        → (list_any (is_caller rank thread) w.callers ≡ true)
        × ((k : ℕ) (reply : Reply) → slice_get (recorded_calls rank thread history) k ≡ Some (End, reply) → ⊥) }
{}

/// A call is recorded with the reply that a look at it finds then, or with a timeout where it is not ready, and a join where a
/// look finds that it may join. (GASPI: timeouts)
pub fn replies()
    ensures recorded { (s t : State) (c : CallerId) (call : Call) (reply : Reply) → step s (Called c call reply) ≡ Ok t
        → (found : Ready) × (answer_in s c.rank c.thread call ≡ Some found) × (is_joining found ≡ false) × (reply ≡ recorded_reply found) }
    // A join has the arguments with which a look finds that its collective may join.
    ensures joined { (s t : State) (c : CallerId) (id : ℕ) (args : Args) → step s (Joined c id args) ≡ Ok t
        → answer_in s c.rank c.thread (joining_call id args) ≡ Some (Join args) }
    // Replies that compare as the same are equal, and each compares as the same as itself.
    ensures same { (a b : Reply) → same_reply a b ≡ true → a ≡ b }
    ensures itself { (a : Reply) → same_reply a a ≡ true }
{}

/// A rank has joined a group once for each collective that it has completed there, and once more where one is pending. It has
/// contributed to as many rounds as it has joined, and completed as many as it has completed collectives: no contribution
/// counts twice. (GASPI: collectives, allreduce, barrier)
pub fn collectives()
    ensures counted { (w : ShapeValue) (history : List Event) (s : State) (rank id : ℕ) (posts : Posts) → IsShape w → reached w history ≡ Ok s → slice_get s.posts rank ≡ Some posts → id < 8
        → joins_on rank id history ≡ completions_on rank id history + pending_count (item_at posts.pending id) }
    ensures rounds { (w : ShapeValue) (history : List Event) (s : State) (rank id : ℕ) (g : Group) → IsShape w → reached w history ≡ Ok s → slice_get s.groups id ≡ Some g
        → (round_of g rank ≡ completions_on rank id history) × (length (contributions_of g rank).contributions ≡ joins_on rank id history) }
    // The contributions to one round agree in all but values and generation, and stay.
    ensures agree { (w : ShapeValue) (history : List Event) (s : State) (id round rank other : ℕ) (g : Group) (c d : Contribution) → IsShape w → reached w history ≡ Ok s
        → slice_get s.groups id ≡ Some g → contribution_in g round rank ≡ Some c → contribution_in g round other ≡ Some d → c.args.coll ≡ d.args.coll }
    ensures grows { (s t : State) (e : Event) (id : ℕ) (g : Group) → IsSound s → step s e ≡ Ok t → slice_get s.groups id ≡ Some g
        → (g' : Group) × (slice_get t.groups id ≡ Some g') × Grows g g' }
    // Two members that complete the same round of an allreduce get the same list, which is, as `changes` says, the reduction of
    // what the members have contributed to that round.
    ensures same { (s t u v : State) (between : List Event) (c d : CallerId) (a b : allreduce.Allreduce) (x y : TypedNumbers) (g k : Group) → IsSound s
        → step s (Called c (calls.Allreduce a) (replies.List x)) ≡ Ok t → after t between ≡ Ok u → step u (Called d (calls.Allreduce b) (replies.List y)) ≡ Ok v
        → a.group ≡ b.group → slice_get s.groups a.group ≡ Some g → slice_get u.groups b.group ≡ Some k → round_of g c.rank ≡ round_of k d.rank → x ≡ y }
    // A collective that is pending for its active caller, with its arguments, is ready where every member has contributed to
    // its round: an allreduce with numbers, any other with done.
    ensures ready { (s : State) (c : CallerId) (id : ℕ) (call : Call) (p : IsPendingAs s c id call) → IsSound s → is_active s c.rank c.thread ≡ true
        → HaveAllContributed s.limits.ranks p.group c.rank → (reply : Reply) × (answer_in s c.rank c.thread call ≡ Some (ready.Reply reply)) × IsReplyFor call reply }
    // It is not ready where a member has not contributed. One that is not ready, or times out, is so pending.
    ensures waits { (s : State) (c : CallerId) (id : ℕ) (call : Call) → IsSound s → is_active s c.rank c.thread ≡ true → IsPendingUnready s c id call
        → answer_in s c.rank c.thread call ≡ Some ready.NotReady }
    ensures not_ready { (s : State) (c : CallerId) (id : ℕ) (call : Call) → IsSound s → (row_of call).group ≡ Some id → answer_in s c.rank c.thread call ≡ Some ready.NotReady
        → IsPendingUnready s c id call }
    // A barrier, and an allreduce of elements that may be reduced, may join where their rank has committed the group, none is
    // pending there, and the contributions to the round are of that collective.
    ensures barrier_joins { (s : State) (c : CallerId) (id : ℕ) → IsSound s → is_active s c.rank c.thread ≡ true → MayJoinRound s c id colls.Barrier
        → answer_in s c.rank c.thread (calls.Barrier (record { group = id })) ≡ Some (Join (record { coll = colls.Barrier; values = no_values })) }
    ensures allreduce_joins { (s : State) (c : CallerId) (call : allreduce.Allreduce) → IsSound s → is_active s c.rank c.thread ≡ true → element_checks (calls.Allreduce call) ≡ Ok tt
        → MayJoinRound s c call.group (colls.Allreduce call.op call.values.num_type (length call.values.items))
        → answer_in s c.rank c.thread (calls.Allreduce call) ≡ Some (Join (record { coll = colls.Allreduce call.op call.values.num_type (length call.values.items); values = call.values })) }
    // A collective that is done has the reply that its kind has.
    ensures answers { (s t : State) (c : CallerId) (id : ℕ) (call : Call) (reply : Reply) → IsSound s → (row_of call).group ≡ Some id → is_idle reply ≡ false
        → step s (Called c call reply) ≡ Ok t → IsReplyFor call reply }
    ensures timed_out { (s t : State) (c : CallerId) (id : ℕ) (call : Call) → IsSound s → (row_of call).group ≡ Some id → step s (Called c call replies.Timeout) ≡ Ok t
        → IsPendingUnready s c id call }
    // Each member has joined a barrier that is done: it has joined the group more often than the caller of the barrier had
    // completed collectives there before.
    ensures barrier { (w : ShapeValue) (history : List Event) (s t : State) (c : CallerId) (call : barrier.Barrier) (g : Group) (rank : ℕ) → IsShape w → reached w history ≡ Ok s
        → step s (Called c (calls.Barrier call) replies.Done) ≡ Ok t → slice_get s.groups call.group ≡ Some g → rank < s.limits.ranks → IsOneOf g.members rank
        → completions_on c.rank call.group history < joins_on rank call.group history }
{}
