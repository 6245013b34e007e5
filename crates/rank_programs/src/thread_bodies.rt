//! The bodies of a world's threads: each runs the program for a caller, or makes transfers.

ghost use Rattle.std.specs.Prelude.{◌≡◌};
ghost use Rattle.commit_table.specs.Calls.{IsOf, HoldsNone};
ghost use Rattle.gaspi_world.specs.Calling.{MayCall};
ghost use Rattle.gaspi_world.specs.Callers.{IsWorkers};
ghost use Rattle.transfer_worker.specs.Turns.{IsExtended, IsDrained};

use crate::callers::Caller;
use crate::programs::Program;
use gaspi_types::{Call, Timeout};
use gaspi_world::{Body, Pass, Rank, World};
use std::alloc::Global;
use std::sync::Wait;
use transfer_worker::Worker;

/// What a thread of a world does with its pass.
#[derive(Drop)]
pub(crate) enum ThreadBody<'a, P, T> {
    /// It runs the program for the caller whose pass it has. The outcome is none before that.
    Caller { program: &'a P, outcome: Option<T> },
    /// It makes transfers until the world is settled. Its first turn has this number.
    Worker { first_turn: u64 },
}

/// Runs the program for the caller of a pass, then makes the caller's end, and gives the program's outcome. The pass must be a
/// caller's, and hold no shard.
fn run_caller<'a, R: Wait, P: Program>(
    rt: &'a R,
    alloc: Global,
    world: &'a World,
    pass: &'a mut Pass,
    program: &P,
) -> P::Outcome
    requires { MayCall world.now pass.old }
    ensures { MayCall world.now pass.new }
{
    let rank = Rank { world, pass };
    let mut caller = Caller { rt, alloc, rank };
    let outcome = program.run(&mut caller);
    drop(caller.rank.call(rt, alloc, &Call::End, Timeout::Looks(1)));
    outcome
}

/// Makes transfers by the pass of a worker until the world is settled, from the turn of this number on.
fn drain<R: Wait>(rt: &R, world: &World, pass: &mut Pass, first_turn: u64)
    requires pass { IsOf world.now pass.old }
    requires free { HoldsNone pass.old.known }
    requires worker { IsWorkers world.now.start.shape pass.old.known }
    ensures table { pass.new.table ≡ pass.old.table }
    ensures free { HoldsNone pass.new.known }
    ensures goes_on { IsExtended pass.old.known pass.new.known }
    ensures drained { IsDrained world.now.start.shape pass.new.known.seen }
{
    Worker {
        world,
        pass,
        turns: first_turn,
    }
    .drain(rt);
}

impl<'a, P: Program> Body for ThreadBody<'a, P, P::Outcome> {
    ghost use Rattle.rank_programs.specs.ThreadBodies.{BodyNeeds, BodyDid};

    ghost needs = { BodyNeeds };

    ghost did = { BodyDid };

    /// Runs the program, or makes the transfers.
    fn run<R: Wait>(&mut self, rt: &R, alloc: Global, world: &World, pass: &mut Pass) {
        match self {
            ThreadBody::Caller { program, outcome } => {
                *outcome = Some(run_caller(rt, alloc, world, pass, *program));
            }
            ThreadBody::Worker { first_turn } => drain(rt, world, pass, *first_turn),
        }
    }
}
