//! Worlds: the start of a world with its passes, and what a world answers of itself and of its passes. `has_number` and `are_all`
//! compare the numbers of passes for `World::whole`.

ghost use Rattle.std.specs.Prelude.{◌≡◌, ℕ, ◌+◌, ◌<◌, ◌≤◌, IfOk, IsTrue, ◌↔◌, Some, [], length, slice_get};
ghost use Rattle.commit_table.specs.Views.{new_pass};
ghost use Rattle.gaspi_types.specs.World.{IsShape};
ghost use Rattle.gaspi_types.specs.declared.events.Event.{Event};
ghost use Rattle.gaspi_types.specs.declared.shapes.CallerId.{CallerId};
ghost use Rattle.gaspi_world.specs.Callers.{IsPassOf};
ghost use Rattle.gaspi_world.specs.Passes.{has_number, are_all, AreAll};
ghost use Rattle.gaspi_world.specs.declared.starts.Start.{Start};

use crate::callers::all_numbered;
use crate::shards::opening_shards;
use crate::starts::Start;
use commit_table::{Changes, CommitTable};
use gaspi_types::{CallerId, NoMemory, Sequence, Shape};
use std::alloc::Global;
use std::marker::Model;

/// The right of one caller or of one worker to act in a world, with what was seen and done by it.
pub type Pass = commit_table::Pass<Start>;

/// Passes of a world, in any order.
pub type Passes = Vec<Pass>;

/// A world of ranks, which threads share by `&`. (GASPI: ranks)
#[derive(Drop)]
pub struct World {
    /// The shards, the journal word, and the start of the world.
    table: CommitTable<Start>,
    /// How many passes were made: one for each caller and each worker.
    passes: u32,
    /// The declared callers by their numbers.
    callers: Sequence<Option<CallerId>>,
}

impl Model for World {
    ghost use Rattle.std.specs.Prelude.{◌≡◌};
    ghost use Rattle.commit_table.specs.Calls.{TableValue};
    ghost use Rattle.gaspi_world.specs.declared.starts.Start.{Start};

    ghost Value = { TableValue Start };

    ghost view = { λ world. world.table };

    ghost use Rattle.gaspi_world.specs.Callers.{all_numbered};

    ghost invariant = { λ world. (world.passes ≡ world.table.passes) × (world.callers ≡ all_numbered world.table.start.shape.callers) };
}

/// A world that was made, with all its passes: one for each caller by its rank and thread, and then one for each worker.
#[derive(Drop)]
pub struct Started {
    /// The world.
    pub world: World,
    /// All its passes, by their numbers: those of callers, by rank and thread, and then those of workers.
    pub passes: Passes,
}

/// Whether one of these passes has the number, which is its party.
fn has_number(passes: &[Pass], number: u32) -> bool
    ensures { result ≡ has_number passes.now number }
{
    passes
        .iter()
        .any(|pass| CommitTable::number(pass) == number)
}

/// Whether each number below `count` is that of one of these passes.
fn are_all(count: u32, passes: &[Pass]) -> bool
    ensures { result ≡ are_all count passes.now }
{
    (0..count).all(|number| has_number(passes, number))
}

impl World {
    /// A world of a shape in its opening state, and its passes: one for each caller by rank and thread, then one for each of `workers`
    /// workers. All memory for rank journals, groups and counts is taken here. The only failure is out of memory.
    pub fn start(alloc: Global, shape: &Shape, workers: u32) -> Result<Started, NoMemory>
        requires { workers ≤ 4 }
        ensures world { IsShape shape.now }
        ensures start { IfOk result (λ started. started.world.start.shape ≡ shape.now) }
        ensures all { IfOk result (λ started. started.world.passes ≡ length shape.now.callers + workers) }
        ensures count { IfOk result (λ started. length started.passes.items ≡ length shape.now.callers + workers) }
        ensures passes { IfOk result (λ started. (k : ℕ) → k < length shape.now.callers + workers
            → slice_get started.passes.items k ≡ Some (record { table = started.world.table; known = new_pass started.world.start (Some k) [] })) }
        ensures callers { IfOk result (λ started. (k : ℕ) → k < length shape.now.callers → (c : CallerId) × IsPassOf {S = Start} {E = Event} shape.now c (new_pass started.world.start (Some k) [])) }
    {
        shape.limits();
        let shards = opening_shards(alloc, shape)?;
        let count = shape.callers().len() as u32 + workers;
        let callers = all_numbered(alloc, shape.callers())?;
        let start = Start::of(alloc, shape)?;
        let (table, passes) = CommitTable::new(alloc, start, shards, count)?;
        let world = World {
            table,
            passes: count,
            callers,
        };
        Ok(Started { world, passes })
    }

    /// Whether all passes of the world are among these, where these are passes of this world. It takes no memory.
    pub fn whole(&self, passes: &Passes) -> bool
        ensures { IsTrue result ↔ AreAll self.now.passes passes.now.items }
    {
        are_all(self.passes, passes.as_slice())
    }

    /// The commit table of the world.
    pub(crate) fn table(&self) -> &CommitTable<Start>
        ensures { result.now ≡ self.now }
    {
        &self.table
    }

    /// The commit table of a world that is ended, for `close`. The list of callers is dropped.
    pub(crate) fn into_table(self) -> CommitTable<Start>
        ensures { result ≡ self }
    {
        let World { table, .. } = self;
        table
    }

    /// The caller whose pass this is. The pass must be one of a caller, not of a worker. It takes no memory.
    pub fn caller_of(&self, pass: &Pass) -> CallerId
        requires { (c : CallerId) × IsPassOf self.now.start.shape c pass.now.known }
        ensures is { IsPassOf self.now.start.shape result pass.now.known }
        ensures only { (c : CallerId) → IsPassOf self.now.start.shape c pass.now.known → result ≡ c }
    {
        self.shape().limits();
        (*self.callers.at(CommitTable::number(pass) as usize)).unwrap()
    }

    /// The counts, by rank, of its recorded calls that are posts or ends: workers watch them, since such calls give them work. They
    /// are a hint, which no clause speaks of.
    pub fn posts(&self) -> &Changes {
        &self.table.start().posts
    }

    /// The shape that the world was started with.
    pub fn shape(&self) -> &Shape
        ensures { result.now ≡ self.now.start.shape }
    {
        &self.table.start().shape
    }
}
