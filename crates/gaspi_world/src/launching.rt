//! Bodies, the tasks that they make with their passes, and the launch of a world's threads. (own choice)

ghost use Rattle.std.specs.Prelude.{◌≡◌, ℕ, ◌<◌, length, slice_index_or};
ghost use Rattle.std.specs.List.{All};

use crate::starts::Start;
use crate::worlds::{Pass, World};
use gaspi_types::Event;
use std::alloc::Global;
use std::sync::Wait;
use std::thread;
use std::thread::Threads;

/// What a thread of a world does with its pass.
pub trait Body {
    ghost use Rattle.commit_table.specs.Calls.{TableValue, PassValue};
    ghost use Rattle.gaspi_types.specs.declared.events.Event.{Event};
    ghost use Rattle.gaspi_world.specs.declared.starts.Start.{Start};

    /// What must hold of the body, the world and the pass before `run`.
    ghost needs: { Self → TableValue Start → PassValue Start Event → Type 0 };

    /// What `run` did: body and pass before it, body and pass after it.
    ghost did: { Self → PassValue Start Event → Self → PassValue Start Event → Type 0 };

    /// Does it, once. It may wait by `rt`; `did` holds if it returns. No failure is answered: what came of it is in the body.
    fn run<R: Wait>(&mut self, rt: &R, alloc: Global, world: &World, pass: &mut Pass)
        requires { needs self.old world.now pass.old }
        ensures { did self.old pass.old self.new pass.new };
}

/// A body with its pass, for one thread.
#[derive(Drop)]
pub struct Task<B> {
    /// What the thread does.
    pub body: B,
    /// The pass by which it acts.
    pub pass: Pass,
}

/// Runs every body once, each on a thread of its own; `launch` hands it the tasks in reverse order. Where no thread can be had, the
/// tasks at the back of the list run before those in front of them.
fn launch_from_the_back<R: Threads + Wait + Sync, B: Body + Send>(
    rt: &R,
    alloc: Global,
    world: &World,
    tasks: &mut [Task<B>],
)
    requires { All (λ t. B.needs t.body world.now t.pass) tasks.old }
    ensures count { length tasks.new ≡ length tasks.old }
    ensures did { (i : ℕ) (d : Task B) → i < length tasks.old → B.did (slice_index_or tasks.old i d).body (slice_index_or tasks.old i d).pass (slice_index_or tasks.new i d).body (slice_index_or tasks.new i d).pass }
{
    if tasks.is_empty() {
        return;
    }
    thread::for_each_mut(
        rt,
        tasks,
        tasks.len(),
        &|_, task: &mut Task<B>|
            requires { B.needs task.now.body world.now task.now.pass }
            ensures { B.did task.entry.now.body task.entry.now.pass task.exit.now.body task.exit.now.pass }
        { task.body.run(rt, alloc, world, &mut task.pass) },
    );
}

/// Runs every body once, each on a thread of its own; the list keeps its order. Where no thread can be had, the bodies run one after
/// another in the order of the list: so the tasks of callers must come before those of workers.
pub fn launch<R: Threads + Wait + Sync, B: Body + Send>(
    rt: &R,
    alloc: Global,
    world: &World,
    tasks: &mut [Task<B>],
)
    requires { All (λ t. B.needs t.body world.now t.pass) tasks.old }
    ensures count { length tasks.new ≡ length tasks.old }
    ensures did { (i : ℕ) (d : Task B) → i < length tasks.old → B.did (slice_index_or tasks.old i d).body (slice_index_or tasks.old i d).pass (slice_index_or tasks.new i d).body (slice_index_or tasks.new i d).pass }
{
    tasks.reverse();
    launch_from_the_back(rt, alloc, world, tasks);
    tasks.reverse();
}
