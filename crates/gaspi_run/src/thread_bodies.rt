//! The bodies of a world's threads: each runs the script of a caller, or makes transfers.

ghost use Rattle.std.specs.Prelude.{◌≡◌, ℕ};
ghost use Rattle.commit_table.specs.Calls.{IsOf, HoldsNone};
ghost use Rattle.gaspi_world.specs.Callers.{IsWorkers};
ghost use Rattle.transfer_worker.specs.Order.{Drains};
ghost use Rattle.transfer_worker.specs.Turns.{IsExtended, IsDrained};

use crate::ScriptBody;
use gaspi_world::{Body, Pass, World};
use std::alloc::Global;
use std::sync::Wait;
use transfer_worker::Worker;

/// What a thread of a world does with its pass.
#[derive(Drop)]
pub(crate) enum ThreadBody<'a> {
    /// It runs the script of the caller whose pass it has.
    Caller(ScriptBody<'a>),
    /// It makes transfers until the world is settled. Its first turn has this number.
    Worker { turns: u64 },
}

/// Makes transfers by the pass of a worker until the world is settled, from the turn of this number on.
fn drain<R: Wait>(rt: &R, world: &World, pass: &mut Pass, turns: u64)
    requires pass { IsOf world.now pass.old }
    requires free { HoldsNone pass.old.known }
    requires worker { IsWorkers world.now.start.shape pass.old.known }
    ensures table { pass.new.table ≡ pass.old.table }
    ensures free { HoldsNone pass.new.known }
    ensures goes_on { IsExtended pass.old.known pass.new.known }
    ensures drained { IsDrained world.now.start.shape pass.new.known.seen }
    ensures turned { (next : ℕ) × Drains world.now.start.shape turns pass.old.known next pass.new.known }
{
    Worker { world, pass, turns }.drain(rt);
}

impl<'a> Body for ThreadBody<'a> {
    ghost use Rattle.gaspi_run.specs.ThreadBodies.{BodyNeeds, BodyDid};

    ghost needs = { BodyNeeds };

    ghost did = { BodyDid };

    /// Runs the script, or makes the transfers.
    fn run<R: Wait>(&mut self, rt: &R, alloc: Global, world: &World, pass: &mut Pass) {
        match self {
            ThreadBody::Caller(body) => body.run(rt, alloc, world, pass),
            ThreadBody::Worker { turns } => drain(rt, world, pass, *turns),
        }
    }
}
