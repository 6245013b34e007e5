//! Runs of the program, and the worlds that are run, for `pieces` and `streams`.

use gaspi_io::{Sink, Source, SureSource};
use gaspi_run::{Answer, gaspirun};
use gaspi_types::{Bytes, NoMemory};
use std::alloc::Global;
use std::sync::Wait;
use std::thread::Threads;

/// The words for a schedule whose transcripts are written.
pub const STEP: [&str; 2] = ["step", "--brief"];

/// The same on threads. In a run that ends well no call that blocks has as many looks as this limit.
pub const RUN: [&str; 4] = ["run", "--brief", "--limit", "100000000"];

/// Two ranks: the one writes two bytes into the other's segment with a notification, for which the other waits.
pub const TWO_RANKS: &str = "world 2 1 4 8 4 1000\nsegment 0 0 16\nsegment 1 0 16\n\
rank 0 thread 0\nstore 0 0 0102\nwrite_notify 0 0 1 0 4 2 3 7 0\nwait 0 block\n\
rank 1 thread 0\nwaitsome 0 0 8 block\nreset 0 3\nload 0 4 2\n";

/// What their callers get: the transcripts.
pub const TOLD: &str = "0.0 5 done\n0.0 6 done\n0.0 7 done\n0.0 ended\n\
1.0 9 id 3\n1.0 10 value 7\n1.0 11 bytes 0102\n1.0 ended\n";

/// Two threads of a rank reset the slot of one notification, of which the one tells the other.
pub const TWO_RESETS: &str = "world 2 1 4 8 4 1000\nsegment 0 0 16\nsegment 1 0 16\n\
rank 0 thread 0\nnotify 0 1 3 7 0\n\
rank 1 thread 0\nwaitsome 0 3 1 block\nnotify 0 1 4 1 0\nreset 0 3\n\
rank 1 thread 1\nwaitsome 0 4 1 block\nreset 0 3\n";

/// What the program answers. It promises nothing, so that the proof of a test does not have in it all that is said of a run.
pub fn answer_to<R: Threads + Wait + Sync, S: Source, K: Sink>(
    rt: &R,
    alloc: Global,
    words: &[&str],
    source: &mut S,
    sink: &mut K,
) -> Answer {
    gaspirun(rt, alloc, words, source, sink)
}

/// A source with the bytes of a text, which never fails. The only failure is out of memory.
pub fn source_of(alloc: Global, text: &str) -> Result<SureSource, NoMemory> {
    Ok(SureSource::new(Bytes::copied_from(alloc, text.as_bytes())?))
}
