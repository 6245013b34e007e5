//! The types by which `atomic_table` keeps this table: its key, its rule, and short names for the shared table, the owned table and a
//! seat.
use crate::sharded::Sharded;
use crate::views::SeatView;
use atomic_table::{Seat, Shared, Table, TableRule};
use std::alloc::Global;
use std::marker::PhantomData;

/// What the rule of a table depends on: the machine's start, and how many passes there are.
#[derive(Drop)]
pub struct TableKey<M> {
    /// The start of the machine.
    pub start: M,
    /// How many passes there are.
    pub passes: u32,
}

/// The rule of `specs/Rule.antt`, for the machines of `M`. No value of it is made.
pub struct CommitRule<M> {
    machine: PhantomData<M>,
}

impl<M: Sharded> TableRule<Option<M::Shard>, SeatView<M, M::Event>, TableKey<M>> for CommitRule<M> {
    ghost use Rattle.std.specs.Prelude.{zero};
    ghost use Rattle.commit_table.specs.Views.{splitting_seat};
    ghost use Rattle.commit_table.specs.Rule.{Rule};

    ghost holds = { λ key. Rule (M.machine key.start) key.start key.passes };

    ghost first = { λ key. splitting_seat key.start 0 key.passes };
}

/// The table as threads share it by `&`. In this crate it is the parameter `board`.
pub type SharedTable<M> = Shared<
    Option<<M as Sharded>::Shard>,
    SeatView<M, <M as Sharded>::Event>,
    TableKey<M>,
    CommitRule<M>,
>;

/// The table as `CommitTable` owns it, with the shared table inside.
pub type OwnedTable<M> = Table<
    Option<<M as Sharded>::Shard>,
    SeatView<M, <M as Sharded>::Event>,
    TableKey<M>,
    CommitRule<M>,
    Global,
>;

/// A seat at such a table: of a pass, of a note, or the one that `close` makes.
pub type TableSeat<M> = Seat<Option<<M as Sharded>::Shard>, SeatView<M, <M as Sharded>::Event>>;
