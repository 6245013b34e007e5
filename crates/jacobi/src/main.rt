//! Jacobi's method on a line of cells, by four ranks on threads that write their border cells into each other's halo cells: a program
//! to copy. (own choice)
//!
//! Each new cell is the half of the sum of its two neighbours, rounded towards 0. Beyond the left end of the line is 0, beyond the
//! right end `END`. Written are the number of iterations, the residual, the cells of each rank, and whether the journal is legal. The
//! residual is by how much a cell of any rank has changed at most in the last iteration.
//!
//! Segment 0 of a rank has ten cells of eight bytes: a halo cell, the eight cells of the rank, and another halo cell. What is written
//! into a halo cell is notified under the number of that cell. An error is that of a call, or of this method; then nothing more is
//! written.
#![tactic(auto)]

ghost use Rattle.rank_programs.specs.Callers.{IsCaller, StaysCaller};

use anyhow::{Result, bail, ensure};
use byteorder::{ByteOrder, LittleEndian};
use call_journal::{Verdict, check};
use gaspi_types::{NumType, Op, Shape, Timeout, WriteNotify};
use rank_programs::{Caller, Program, RunFault, run_program};
use std::alloc::Global;
use std::sync::Wait;

/// The last rank of the line.
const LAST: u64 = 3;

/// The value beyond the right end.
const END: i64 = 1_048_576;

/// The left halo cell of a rank. The border cells are 1 and 8.
const LEFT_HALO: u32 = 0;

/// The right halo cell of a rank.
const RIGHT_HALO: u32 = 9;

/// The residual at which the method ends.
const SMALL: i128 = 4_096;

/// The most iterations.
const MOST: u32 = 1_000;

/// How many looks a call that waits may have.
const LOOKS: Timeout = Timeout::Looks(1_000_000);

/// What a rank came to: the number of iterations, the residual, and the rank's cells.
type Solved = (u32, i128, [i64; 8]);

/// Writes a border cell into a halo cell of a neighbour, and notifies it. Where there is no neighbour `to`, nothing is done.
fn send<R: Wait>(caller: &mut Caller<'_, R>, to: Option<u64>, cell: u32, halo: u32) -> Result<()>
    requires { IsCaller caller.old }
    ensures { StaysCaller caller.old caller.new }
{
    let Some(rank) = to else {
        return Ok(());
    };
    caller.write_notify(WriteNotify {
        seg: 0,
        offset: 8 * u64::from(cell),
        rank,
        rseg: 0,
        roffset: 8 * u64::from(halo),
        size: 8,
        note: u64::from(halo),
        value: 1,
        queue: 0,
    })?;
    Ok(())
}

/// Waits until a neighbour has written into a halo cell, and resets its slot. Where there is no neighbour `from`, nothing is done.
fn receive<R: Wait>(caller: &mut Caller<'_, R>, from: Option<u64>, halo: u32) -> Result<()>
    requires { IsCaller caller.old }
    ensures { StaysCaller caller.old caller.new }
{
    if from.is_none() {
        return Ok(());
    }
    let note = caller.notify_waitsome(0, u64::from(halo), 1, LOOKS)?;
    caller.notify_reset(0, note)?;
    Ok(())
}

/// Sends the border cells to the neighbours, and gives the cells of the segment once the neighbours have written into the halo cells.
fn exchange<R: Wait>(caller: &mut Caller<'_, R>) -> Result<[i64; 10]>
    requires { IsCaller caller.old }
    ensures { StaysCaller caller.old caller.new }
{
    let own = caller.proc_rank();
    let left = own.checked_sub(1);
    let right = (own < LAST).then_some(own + 1);
    send(caller, left, 1, RIGHT_HALO)?;
    send(caller, right, 8, LEFT_HALO)?;
    receive(caller, left, LEFT_HALO)?;
    receive(caller, right, RIGHT_HALO)?;
    let bytes = caller.load(0, 0, 80)?;
    ensure!(bytes.len() == 80, "wrong cells");
    let mut cells = [0; 10];
    LittleEndian::read_i64_into(bytes.as_slice(), &mut cells);
    Ok(cells)
}

/// The eight new cells that follow from the ten old ones, and by how much a cell has changed at most.
fn new_cells(old: &[i64; 10]) -> ([i64; 8], i64) {
    let mut new = [0; 8];
    let mut most = 0;
    for place in 0..8 {
        new[place] = old[place].midpoint(old[place + 2]);
        let change = new[place].saturating_sub(old[place + 1]);
        most = most.max(change.saturating_abs());
    }
    (new, most)
}

/// Stores the new cells, and gives the residual of all ranks. `change` is that of this rank.
fn settle<R: Wait>(caller: &mut Caller<'_, R>, cells: &[i64; 8], change: i64) -> Result<i128>
    requires { IsCaller caller.old }
    ensures { StaysCaller caller.old caller.new }
{
    // What was sent has been read then, so the border cells may be written again.
    caller.wait(0, LOOKS)?;
    let mut bytes = [0; 64];
    LittleEndian::write_i64_into(cells, &mut bytes);
    caller.store(0, 8, &bytes)?;
    // All ranks have loaded their halo cells then, so these may be written again.
    let most = caller.allreduce(&[i128::from(change)], Op::Max, NumType::Long, 0, LOOKS)?;
    match most.items() {
        [residual] => Ok(*residual),
        _ => bail!("wrong residual"),
    }
}

/// Makes iterations until the residual is small. An error where there are too many.
fn solve<R: Wait>(caller: &mut Caller<'_, R>) -> Result<Solved>
    requires { IsCaller caller.old }
    ensures { StaysCaller caller.old caller.new }
{
    for iterations in 1..=MOST {
        let old = exchange(caller)?;
        let (cells, change) = new_cells(&old);
        let residual = settle(caller, &cells, change)?;
        if residual <= SMALL {
            return Ok((iterations, residual, cells));
        }
    }
    bail!("too many iterations")
}

/// Stores the value beyond the right end into the right halo cell, where the rank is the last.
fn begin<R: Wait>(caller: &mut Caller<'_, R>) -> Result<()>
    requires { IsCaller caller.old }
    ensures { StaysCaller caller.old caller.new }
{
    if caller.proc_rank() == LAST {
        caller.store(0, 8 * u64::from(RIGHT_HALO), &END.to_le_bytes())?;
    }
    Ok(())
}

/// What each rank does: it begins, and solves.
struct Jacobi;

impl Program for Jacobi {
    type Outcome = Result<Solved>;

    /// Begins, and solves, for one rank.
    fn run<R: Wait>(&self, caller: &mut Caller<'_, R>) -> Result<Solved> {
        begin(caller)?;
        solve(caller)
    }
}

/// Four ranks with a segment and a caller each. A rank records some 20 events in an iteration.
fn line(alloc: Global) -> Result<Shape> {
    let mut shape = Shape::new(alloc, 4, 1, 4, 10, 1, 21_000)?;
    for rank in 0..4 {
        shape.add_segment(rank, 0, 80)?;
        shape.add_caller(rank, 0)?;
    }
    Ok(shape)
}

/// Runs the method, writes what the ranks came to, and checks the journal.
fn main(rt: HostRuntime) -> Result<()> {
    let alloc = rt.alloc();
    let shape = line(alloc)?;
    let ran = run_program(&rt, alloc, &shape, &Jacobi, 1)?;
    for (rank, outcome) in ran.outcomes.into_iter().enumerate() {
        let (iterations, residual, cells) = outcome?;
        println!(rt; "rank {rank} iterations {iterations} residual {residual}")?;
        println!(rt; "cells {cells:?}")?;
    }
    let verdict = check(alloc, &shape, &ran.journal).map_err(RunFault::from)?;
    ensure!(verdict == Verdict::Legal, "the journal is not legal");
    println!(rt; "legal {}", ran.journal.len())?;
    Ok(())
}
