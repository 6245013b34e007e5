//! The pending collectives of one rank as a store: at most one on each group. (GASPI: timeouts)

ghost use Rattle.std.specs.Prelude.{◌≡◌, None, Some, IfOk, option_copied, replicate, slice_set};
ghost use Rattle.gaspi_types.specs.Collectives.{resume};
ghost use Rattle.gaspi_types.specs.Tables.{item_at};

use gaspi_types::{Args, GroupId, NoMemory, Refusal, Resume, Sequence, ThreadId};
use std::alloc::Global;
use std::marker::Model;

/// The pending collectives of one rank: those that have joined and are not completed, at most one on each group. Contracts see the
/// list of them by group id, 0 to 7.
#[derive(Debug, Drop)]
pub struct Pending {
    /// For each group its pending collective, if there is one.
    table: Sequence<Option<gaspi_types::PendingCollective>>,
}

impl Model for Pending {
    ghost use Rattle.std.specs.Prelude.{◌≡◌, List, Option, length};
    ghost use Rattle.gaspi_types.specs.declared.groups.PendingCollective.{PendingCollective as Kept};

    ghost Value = { List (Option Kept) };

    ghost view = { λ pending. pending.table };

    ghost invariant = { λ pending. length pending.table ≡ 8 };
}

impl Pending {
    ghost use Rattle.timeout_state.specs.Pendings.{IsOfThread};

    /// None is pending on any group. All memory is taken here.
    pub fn new(alloc: Global) -> Result<Pending, NoMemory>
        ensures { IfOk result (λ pending. pending ≡ replicate 8 None) }
    {
        let mut table = Sequence::with_capacity(alloc, 8)?;
        for _group in 0..8u32 {
            table.push(None)?;
        }
        Ok(Pending { table })
    }

    /// The collective that is pending on a group, lent, with its thread and its arguments; None exactly where none is.
    /// (GASPI: timeouts)
    pub fn on(&self, group: GroupId) -> Option<&gaspi_types::PendingCollective>
        ensures { option_copied result ≡ item_at self.now group }
    {
        self.table.at(group.index()).as_ref()
    }

    /// As `on`, for any number; None for a number over 7. (GASPI: timeouts)
    pub fn named(&self, group: u64) -> Option<&gaspi_types::PendingCollective>
        ensures { option_copied result ≡ item_at self.now group }
    {
        match self.table.get(group as usize) {
            Some(Some(pending)) => Some(pending),
            Some(None) | None => None,
        }
    }

    /// Whether a collective of a thread is fresh or the same on a group: `Fresh` where none is pending there, `Same` where this very
    /// one is. Else `ActiveCollective` where that of another thread is pending, or `ResumeOther` where the pending one has other
    /// arguments. Nothing changes. (GASPI: timeouts)
    pub fn state(&self, group: GroupId, thread: ThreadId, args: &Args) -> Result<Resume, Refusal>
        ensures { result ≡ resume (item_at self.now group) thread (Some args.now) }
    {
        let pending = self.on(group);
        gaspi_model::resume(pending, thread, Some(args))
    }

    /// Makes a collective of a thread pending on a group, on which none is. It takes no memory. (GASPI: collectives)
    pub fn put_in(&mut self, group: GroupId, thread: ThreadId, args: Args)
        requires { item_at self.old group ≡ None }
        ensures { self.new ≡ slice_set self.old group (Some (record { thread = thread; args = args })) }
    {
        *self.table.at_mut(group.index()) = Some(gaspi_types::PendingCollective { thread, args });
    }

    /// Removes the collective that is pending on a group, which is this thread's, and gives its arguments. None is pending there
    /// then. It takes no memory. (GASPI: collectives)
    pub fn take_out(&mut self, group: GroupId, thread: ThreadId) -> Args
        requires { IsOfThread (item_at self.old group) thread }
        ensures taken { item_at self.old group ≡ Some (record { thread = thread; args = result }) }
        ensures others { self.new ≡ slice_set self.old group None }
    {
        let _ = thread;
        let pending = self.table.at_mut(group.index()).take();
        pending.unwrap().args
    }
}
