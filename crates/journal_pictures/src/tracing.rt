//! The trace of a journal, written after the journal was checked. The functions before `write_legal` add to a block; what it
//! has after `NoMemory` is not said.

ghost use Rattle.std.specs.Prelude.{◌≡◌, ◌⊎◌, ◌++◌, ◌-◌, ◌<◌, ◌^◌, ℕ, true, codes, length, map, slice_get, IfOk, IsErrOf, OnErr, OnOk, Some};
ghost use Rattle.std.specs.List.{flat_map, range_with_len};
ghost use Rattle.gaspi_model.specs.Step.{is_legal};
ghost use Rattle.serde_json.specs.Written.{compact_text};
ghost use Rattle.journal_pictures.specs.Answers.{IsCutTrace, IsTraceAnswer};
ghost use Rattle.gaspi_io.specs.Faults.{HasCause};
ghost use Rattle.gaspi_io.specs.Sink.{with_more, AddsPrefix};
ghost use Rattle.gaspi_io.specs.declared.blocks.WriteStop.TheVariants as stops;
ghost use Rattle.journal_pictures.specs.JsonLines.{lines};
ghost use Rattle.journal_pictures.specs.OpenEntries.{entries_after, put_entry, slots_after};
ghost use Rattle.journal_pictures.specs.Trace.{caller_name, event_objects, names, queue_names, rank_name, trace_text};

use crate::open_entries::{EntryTable, RankEntries, no_entries, pass_event, put_entry};
use crate::set_slots::{SetSlot, pass_slots};
use crate::trace_lines::{append_rank, write_caller, write_objects, write_queue, write_rank};
use call_journal::{Verdict, check};
use gaspi_io::{BLOCK_BYTES, Sink, WriteStop, write_block, write_full_block};
use gaspi_model::{Why, history_lengths};
use gaspi_texts::Journal;
use gaspi_types::{Bytes, CallerId, Event, NoMemory, Sequence, Shape};
use std::alloc::Global;

/// What `write_trace` answers.
#[derive(Clone, Copy, Debug, PartialEq, Eq)]
pub enum TraceAnswer {
    /// The whole trace is written.
    Traced,
    /// The event at that place, from 0, is the first that is no step, for that cause. Nothing is written.
    Refuted { place: u64, why: Why },
}

/// Adds the lines that name the ranks but the first.
fn write_ranks(text: &mut Bytes, ranks: u32) -> Result<(), NoMemory>
    ensures { OnOk result (text.new ≡ text.old ++ lines (map rank_name (range_with_len 1 (ranks - 1)))) }
{
    let more = ranks.saturating_sub(1);
    for before in 0..more {
        write_rank(text, before + 1)?;
    }
    Ok(())
}

/// Adds the lines that name the tracks of the callers.
fn write_callers(text: &mut Bytes, callers: &[CallerId]) -> Result<(), NoMemory>
    ensures { OnOk result (text.new ≡ text.old ++ lines (map caller_name callers.now)) }
{
    for caller in callers {
        write_caller(text, caller)?;
    }
    Ok(())
}

/// Adds the lines that name the tracks of the queues of a rank.
fn write_rank_queues(text: &mut Bytes, rank: u32, queues: u32) -> Result<(), NoMemory>
    ensures { OnOk result (text.new ≡ text.old ++ lines (queue_names queues rank)) }
{
    for queue in 0..queues {
        write_queue(text, rank, queue)?;
    }
    Ok(())
}

/// Adds the lines that name the tracks of all queues.
fn write_queues(text: &mut Bytes, ranks: u32, queues: u32) -> Result<(), NoMemory>
    ensures { OnOk result (text.new ≡ text.old ++ lines (flat_map (queue_names queues) (range_with_len 0 ranks))) }
{
    for rank in 0..ranks {
        write_rank_queues(text, rank, queues)?;
    }
    Ok(())
}

/// The first lines of a trace, with the names of ranks and tracks, in memory for one block.
fn trace_head(alloc: Global, shape: &Shape) -> Result<Bytes, NoMemory>
    ensures { IfOk result (λ text. text ≡ codes "[\n" ++ compact_text (rank_name 0) ++ lines (names shape.now)) }
{
    let limits = shape.limits();
    let mut text = Bytes::with_capacity(alloc, BLOCK_BYTES)?;
    text.append(b"[\n")?;
    append_rank(&mut text, 0)?;
    write_ranks(&mut text, limits.ranks)?;
    write_callers(&mut text, shape.callers())?;
    write_queues(&mut text, limits.ranks, limits.queues)?;
    Ok(text)
}

/// Adds all lines of the event at a place, and changes the open entries and the set slots by it. The table has to have 16 ranks
/// (`many`) with next numbers below 2^62 (`small`).
fn add_event(
    text: &mut Bytes,
    ranks: &mut EntryTable,
    slots: &mut Sequence<SetSlot>,
    place: u64,
    event: &Event,
) -> Result<(), NoMemory>
    requires many { length ranks.old ≡ 16 }
    requires small { (rank : ℕ) (r : RankEntries) → slice_get ranks.old rank ≡ Some r → r.next < 2 ^ 62 }
    ensures text { OnOk result (text.new ≡ text.old ++ lines (event_objects ranks.old slots.old place event.now)) }
    ensures ranks { OnOk result (ranks.new ≡ entries_after event.now ranks.old) }
    ensures slots { OnOk result (slots.new ≡ slots_after (put_entry ranks.old event.now) place event.now slots.old) }
{
    let put = put_entry(ranks, event);
    write_objects(text, ranks, slots.as_slice(), place, event, put)?;
    pass_slots(slots, place, event, put_entry(ranks, event))?;
    pass_event(ranks, event)
}

/// Writes the trace of a journal, which has to be legal, block by block. Where it stops, a prefix of the trace is written.
fn write_legal<K: Sink>(
    alloc: Global,
    shape: &Shape,
    journal: &Journal,
    sink: &mut K,
) -> Result<(), WriteStop>
    requires { is_legal shape.now journal.now ≡ true }
    ensures all { OnOk result (K.held sink.new ≡ with_more (K.held sink.old) (trace_text shape.now journal.now)) }
    ensures still { OnOk result (K.faults sink.new ≡ K.faults sink.old) }
    ensures front { OnErr result (AddsPrefix (trace_text shape.now journal.now) (K.held sink.old) (K.held sink.new)) }
    ensures cause { IsErrOf result stops.Fault → HasCause (K.faults sink.old) (K.faults sink.new) }
    ensures lacks { IsErrOf result stops.NoMemory → K.faults sink.new ≡ K.faults sink.old }
{
    history_lengths();
    shape.limits();
    let mut ranks = no_entries(alloc)?;
    let mut block = trace_head(alloc, shape)?;
    let mut slots = Sequence::new(alloc);
    for (place, event) in journal.as_slice().iter().enumerate() {
        add_event(&mut block, &mut ranks, &mut slots, place as u64, event)?;
        write_full_block(sink, &mut block)?;
    }
    block.append(b"\n]\n")?;
    write_block(sink, &mut block)?;
    Ok(())
}

/// Writes the trace of a journal, in the JSON of the Chrome trace event format, block by block. First the whole journal is
/// checked, as by `check`. Where the sink has a fault or memory runs out, nothing or a prefix of the trace is written. (own
/// choice)
pub fn write_trace<K: Sink>(
    alloc: Global,
    shape: &Shape,
    journal: &Journal,
    sink: &mut K,
) -> Result<TraceAnswer, WriteStop>
    ensures answer { IfOk result (λ answer. IsTraceAnswer shape.now journal.now (K.held sink.old) (K.held sink.new) answer) }
    ensures still { OnOk result (K.faults sink.new ≡ K.faults sink.old) }
    ensures front { OnErr result ((K.held sink.new ≡ K.held sink.old) ⊎ IsCutTrace shape.now journal.now (K.held sink.old) (K.held sink.new)) }
    ensures cut { IsErrOf result stops.Fault → IsCutTrace shape.now journal.now (K.held sink.old) (K.held sink.new) }
    ensures cause { IsErrOf result stops.Fault → HasCause (K.faults sink.old) (K.faults sink.new) }
    ensures lacks { IsErrOf result stops.NoMemory → K.faults sink.new ≡ K.faults sink.old }
{
    match check(alloc, shape, journal)? {
        Verdict::Legal => {
            write_legal(alloc, shape, journal, sink)?;
            Ok(TraceAnswer::Traced)
        }
        Verdict::Illegal { place, why } => Ok(TraceAnswer::Refuted { place, why }),
    }
}
