//! The texts of faults, which no command writes.

use gaspi_texts::JournalFault;
use gaspi_types::ShapeFault;
use rank_script::ScriptFault;
use std::alloc::Global;
use std::fmt::Display;
use std::test::Fail;

/// Whether a fault has that text.
fn has_text<F: Display + Drop>(alloc: Global, fault: F, text: &str) -> bool {
    match format!(in alloc; "{fault}") {
        Ok(written) => written.as_str() == text,
        Err(_) => false,
    }
}

#[test]
fn faults_of_shapes_have_texts(rt: HostRuntime) -> Result<(), Fail> {
    let alloc = rt.alloc();
    assert!(rt; has_text(alloc, ShapeFault::Limit, "a number is outside its limits"));
    assert!(rt; has_text(alloc, ShapeFault::Twice, "declared twice"));
    assert!(rt; has_text(alloc, ShapeFault::Threads, "more threads than events"));
    assert!(rt; has_text(alloc, ShapeFault::NoMemory, "out of memory"));
    Ok(())
}

#[test]
fn faults_of_texts_have_texts(rt: HostRuntime) -> Result<(), Fail> {
    let alloc = rt.alloc();
    let line = ScriptFault::At {
        number: 5,
        line: 12,
    };
    assert!(rt; has_text(alloc, line, "fault S5 line 12"));
    assert!(rt; has_text(alloc, ScriptFault::NoMemory, "out of memory"));
    let line = JournalFault::At { line: 7 };
    assert!(rt; has_text(alloc, line, "not a journal 7"));
    assert!(rt; has_text(alloc, JournalFault::NoMemory, "out of memory"));
    Ok(())
}
