//! A script that is stopped where memory runs out, and where a journal begins behind a world text.

use crate::one_rank::caller;
use gaspi_types::NoMemory;
use rank_script::{
    Cursor, RunOutcome, RunStop, ScriptFault, Scripts, read_input, read_world, split_input,
};
use std::alloc::Global;
use std::test::Fail;

/// A world text with one script of two lines.
const ONE_RANK: &[u8] =
    b"world 1 1 1 1 1 9\nrank 0 thread 0\nagain 2 reset 0 3 = value 7\nwait 0 block\n";

/// The scripts of a text.
fn scripts_of(alloc: Global, text: &[u8]) -> Result<Scripts, ScriptFault> {
    let (_shape, scripts) = read_world(alloc, text)?;
    Ok(scripts)
}

/// The outcome of the script of the first caller where memory runs out at its first line, and which line that is.
fn stopped(alloc: Global, scripts: &Scripts) -> Result<Option<(u64, RunOutcome)>, NoMemory> {
    let Some(script) = scripts.of(caller()) else {
        return Ok(None);
    };
    let mut run = Cursor::new(alloc, script)?;
    let line = run.line();
    if run.present().is_none() {
        return Ok(None);
    }
    run.stop(RunStop::NoMemory);
    Ok(run.outcome().map(|outcome| (line, outcome)))
}

// How else a run goes on and ends is in `tests/expectations.table` and `tests/worlds.table`.
#[test]
fn a_run_is_stopped_without_memory(rt: HostRuntime) -> Result<(), Fail> {
    let scripts = scripts_of(rt.alloc(), ONE_RANK)?;
    assert!(rt;
        matches!(
            stopped(rt.alloc(), &scripts)?,
            Some((3, RunOutcome::NoMemory { line: 3 }))
        )
    );
    Ok(())
}

/// Where the journal of an input begins: the byte, and the line.
fn place_of(alloc: Global, input: &[u8]) -> Result<Option<(u64, u64)>, ScriptFault> {
    let (_shape, _scripts, place) = read_input(alloc, input)?;
    Ok(place)
}

// Where a journal begins, and where none does, is in `tests/no_journals.table`.
#[test]
fn a_journal_begins_behind_the_world(rt: HostRuntime) -> Result<(), Fail> {
    assert!(rt; matches!(split_input(b"world\njournal 1\nend 0\n"), Some((6, 2))));
    let input: &[u8] = b"world 2 1 4 8 4 1000\r\nrank 1 thread 0\njournal 1\nworld\n";
    assert!(rt; matches!(place_of(rt.alloc(), input)?, Some((38, 3))));
    Ok(())
}
