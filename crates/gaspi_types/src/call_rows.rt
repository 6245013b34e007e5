//! The row of each call: what every call has, so that code for all calls need not tell one from another. `Call::row` has the
//! table; the private functions of `CallRow` make the rows in it.

ghost use Rattle.std.specs.Prelude.{◌≡◌, ◌≤◌, OnSome, Some, None, true, false};
ghost use Rattle.gaspi_types.specs.CallRows.{row_of, row_with_footprint, row_posting, row_joining, list_entries, entries_in, need_in, need_of};
ghost use Rattle.gaspi_types.specs.declared.footprints.DeclaredFootprint.TheVariants.{Nothing};

use crate::calls::{Call, is_list_length};
use crate::footprints::DeclaredFootprint;

/// The entries that a post appends: how many, and to the lane of which rank and queue. Rank and queue are any numbers, as the
/// call has them. (GASPI: one-sided communication)
#[derive(Clone, Copy, Debug, PartialEq, Eq)]
pub struct Posting {
    pub entries: u32,
    pub rank: u64,
    pub queue: u64,
}

/// The row of a call: what every call has.
#[derive(Clone, Copy, Debug, PartialEq, Eq)]
pub struct CallRow {
    /// Its footprint: the parts that it may read or change beside the posts of its caller's rank. (own choice)
    pub footprint: DeclaredFootprint,
    /// The entries that it appends, or None where it is no post. (GASPI: one-sided communication)
    pub posting: Option<Posting>,
    /// The number of the group that it joins, or None where it is no collective. (GASPI: collectives)
    pub group: Option<u64>,
    /// Whether it takes a timeout. (GASPI: timeouts)
    pub times_out: bool,
    /// Whether it may take memory. (own choice)
    pub takes_memory: bool,
    /// Whether it is the end. (own choice)
    pub ends: bool,
}

impl CallRow {
    /// The row of a call with this footprint that is no post, no collective and no end, and takes neither a timeout nor memory.
    fn with_footprint(declaration: DeclaredFootprint) -> CallRow
        ensures { result ≡ row_with_footprint declaration }
    {
        CallRow {
            footprint: declaration,
            posting: None,
            group: None,
            times_out: false,
            takes_memory: false,
            ends: false,
        }
    }

    /// The row of a post of `entries` entries to the lane of a rank and a queue, which takes no memory. Its footprint has no
    /// part.
    fn posting(entries: u32, rank: u64, queue: u64) -> CallRow
        ensures { result ≡ row_posting entries rank queue }
    {
        CallRow {
            posting: Some(Posting {
                entries,
                rank,
                queue,
            }),
            ..CallRow::with_footprint(DeclaredFootprint::Nothing)
        }
    }

    /// The row of a collective of a group, with this footprint. A collective takes a timeout.
    fn collective(group: u64, declaration: DeclaredFootprint) -> CallRow
        ensures { result ≡ row_joining group declaration }
    {
        CallRow {
            group: Some(group),
            ..CallRow::with_footprint(declaration).with_timeout()
        }
    }

    /// The same row, of a call that may take memory.
    fn with_memory(self) -> CallRow
        ensures { result ≡ record self { takes_memory = true } }
    {
        CallRow {
            takes_memory: true,
            ..self
        }
    }

    /// The same row, of a call that takes a timeout.
    fn with_timeout(self) -> CallRow
        ensures { result ≡ record self { times_out = true } }
    {
        CallRow {
            times_out: true,
            ..self
        }
    }

    /// How many entries the call appends; 0 where it is no post.
    pub fn entries(&self) -> u32
        ensures { result ≡ entries_in self.now.posting }
    {
        match self.posting {
            Some(posting) => posting.entries,
            None => 0,
        }
    }

    /// The need of a call of this row: how many events its caller's rank must have room for. It is 0 for the end of a caller
    /// that has not ended; 2 for a collective where none is pending for its caller on that group, which joins first; for a post
    /// 1, and 2 more for each entry; and 1 for every other call, also for a list post whose length is outside its limits. (own
    /// choice)
    pub fn need(&self, pending: bool, ended: bool) -> u64
        ensures { result ≡ need_in self.now pending ended }
    {
        if self.ends && !ended {
            return 0;
        }
        if self.group.is_some() && !pending {
            return 2;
        }
        1 + 2 * u64::from(self.entries())
    }
}

/// How many entries a list post asks for: one for each of its items, and `more` for a notification. Where its length is outside
/// its limits it asks for none.
fn list_entries(length: usize, more: u32) -> u32
    requires { more ≤ 1 }
    ensures value { result ≡ list_entries length more }
    ensures bound { result ≤ 257 }
{
    if is_list_length(length) {
        length as u32 + more
    } else {
        0
    }
}

impl Call {
    /// The row of this call.
    #[inline(always)]
    pub fn row(&self) -> CallRow
        ensures row { result ≡ row_of self.now }
        ensures bound { entries_in result.posting ≤ 257 }
    {
        match self {
            Call::Alloc(_) => CallRow::with_footprint(DeclaredFootprint::OwnMemory).with_memory(),
            Call::Register(call) => CallRow::with_footprint(DeclaredFootprint::PostsOf(call.rank)),
            Call::Delete(_) => CallRow::with_footprint(DeclaredFootprint::OwnMemory),
            Call::Store(_) => CallRow::with_footprint(DeclaredFootprint::OwnMemory).with_memory(),
            Call::Load(_) => CallRow::with_footprint(DeclaredFootprint::OwnMemory).with_memory(),
            Call::Write(call) => CallRow::posting(1, call.rank, call.queue).with_memory(),
            Call::Read(call) => CallRow::posting(1, call.rank, call.queue).with_memory(),
            Call::Notify(call) => CallRow::posting(1, call.rank, call.queue),
            Call::WriteNotify(call) => CallRow::posting(2, call.rank, call.queue).with_memory(),
            Call::ReadNotify(call) => CallRow::posting(2, call.rank, call.queue).with_memory(),
            Call::WriteList(call) => {
                let entries = list_entries(call.items.len(), 0);
                CallRow::posting(entries, call.rank, call.queue).with_memory()
            }
            Call::WriteListNotify(call) => {
                let entries = list_entries(call.items.len(), 1);
                CallRow::posting(entries, call.rank, call.queue).with_memory()
            }
            Call::ReadList(call) => {
                let entries = list_entries(call.items.len(), 0);
                CallRow::posting(entries, call.rank, call.queue).with_memory()
            }
            Call::ReadListNotify(call) => {
                let entries = list_entries(call.items.len(), 1);
                CallRow::posting(entries, call.rank, call.queue).with_memory()
            }
            Call::Wait(_) => CallRow::with_footprint(DeclaredFootprint::Nothing).with_timeout(),
            Call::Purge(_) => CallRow::with_footprint(DeclaredFootprint::Nothing),
            Call::Qsize(_) => CallRow::with_footprint(DeclaredFootprint::Nothing),
            Call::Waitsome(_) => CallRow::with_footprint(
                DeclaredFootprint::OwnMemory,
            ).with_timeout(),
            Call::Reset(_) => CallRow::with_footprint(DeclaredFootprint::OwnMemory),
            Call::PassiveSend(call) => CallRow::with_footprint(DeclaredFootprint::BothMemories(
                call.rank,
            )).with_memory()
                .with_timeout(),
            Call::PassiveReceive(_) => CallRow::with_footprint(
                DeclaredFootprint::OwnMemory,
            ).with_timeout(),
            Call::FetchAdd(call) => CallRow::with_footprint(DeclaredFootprint::MemoryOf(call.rank)),
            Call::CompareSwap(call) => CallRow::with_footprint(DeclaredFootprint::MemoryOf(
                call.rank,
            )),
            Call::GroupCreate => CallRow::with_footprint(DeclaredFootprint::Nothing),
            Call::GroupAdd(_) => CallRow::with_footprint(DeclaredFootprint::Nothing),
            Call::GroupDelete(_) => CallRow::with_footprint(DeclaredFootprint::Nothing),
            Call::Commit(call) => CallRow::collective(
                call.group,
                DeclaredFootprint::GroupOf(call.group),
            ),
            Call::Barrier(call) => CallRow::collective(
                call.group,
                DeclaredFootprint::GroupOf(call.group),
            ),
            Call::Allreduce(call) => {
                CallRow::collective(
                    call.group,
                    DeclaredFootprint::GroupOf(call.group),
                ).with_memory()
            }
            Call::Create(call) => {
                CallRow::collective(
                    call.group,
                    DeclaredFootprint::GroupAndMemory(call.group),
                ).with_memory()
            }
            Call::State => CallRow::with_footprint(DeclaredFootprint::Nothing),
            Call::End => CallRow {
                ends: true,
                ..CallRow::with_footprint(DeclaredFootprint::Nothing)
            },
        }
    }
}

/// The need of a call: how many events its caller's rank must have room for, as `CallRow::need` says. `pending` is whether the
/// call is a collective that is pending for its caller, `ended` whether its caller has ended. (own choice)
pub fn need(call: &Call, pending: bool, ended: bool) -> u64
    ensures { result ≡ need_of call.now pending ended }
{
    call.row().need(pending, ended)
}
