//! Events read from words. None is answered where the words do not spell what is read.
//!
//! `read_called`, `read_joined`, `read_take` and `read_put` read what follows the word of their event (`arguments`), and the
//! functions before them the words in it. Only a call, its reply and the values of a join may take memory.

ghost use Rattle.std.specs.Prelude.{◌≡◌, ◌<◌, ◌==◌, map, length, position, IfOk, IfSome};
ghost use Rattle.std.specs.Option.{option_map};
ghost use Rattle.std.specs.Str.{bytes_eq};
ghost use Rattle.gaspi_texts.specs.EventText.{arrow, outcome_word};
ghost use Rattle.gaspi_texts.specs.EventReading.{exact_value, number_below, outcome_of, caller_of, called_with, called_of, joined_of, moved_of, taken, put, event_of, are_exact, is_written_so};

use crate::collective_texts::read_args;
use crate::reply_texts::{is_reply_numeric, read_reply_words};
use call_texts::{has_leading_zero, is_call_numeric, read_recorded_call, read_value};
use gaspi_types::{CallerId, Event, GroupId, NoMemory, Outcome, QueueId, RankId, ThreadId};
use std::alloc::Global;

/// The fields of a transfer: those of its entry, and the outcome.
#[derive(Clone, Copy)]
pub(crate) struct Moved {
    origin: RankId,
    queue: QueueId,
    target: RankId,
    number: u32,
    outcome: Outcome,
}

/// The number of 32 bits that a word without a leading zero spells.
fn read_exact_value(word: &[u8]) -> Option<u32>
    ensures { result ≡ exact_value word.now }
{
    if has_leading_zero(word) {
        None
    } else {
        read_value(word)
    }
}

/// The rank that a word spells.
fn read_rank(word: &[u8]) -> Option<RankId>
    ensures { result ≡ number_below 16 word.now }
{
    let number = read_exact_value(word)?;
    if number < 16 {
        Some(RankId::of(number))
    } else {
        None
    }
}

/// The thread that a word spells.
fn read_thread(word: &[u8]) -> Option<ThreadId>
    ensures { result ≡ number_below 4 word.now }
{
    let number = read_exact_value(word)?;
    if number < 4 {
        Some(ThreadId::of(number))
    } else {
        None
    }
}

/// The queue that a word spells.
fn read_queue(word: &[u8]) -> Option<QueueId>
    ensures { result ≡ number_below 8 word.now }
{
    let number = read_exact_value(word)?;
    if number < 8 {
        Some(QueueId::of(number))
    } else {
        None
    }
}

/// The group that a word spells.
fn read_group(word: &[u8]) -> Option<GroupId>
    ensures { result ≡ number_below 8 word.now }
{
    let number = read_exact_value(word)?;
    if number < 8 {
        Some(GroupId::of(number))
    } else {
        None
    }
}

/// The word of an outcome, for both ways.
pub(crate) fn outcome_word(outcome: Outcome) -> &'static [u8]
    ensures { result.now ≡ outcome_word outcome }
{
    match outcome {
        Outcome::Applied => b"ok",
        Outcome::Failed => b"failed",
    }
}

/// The outcome with this word.
#[tactic(auto, unfolding(crate::specs::EventReading::outcome_of))]
fn read_outcome(word: &[u8]) -> Option<Outcome>
    ensures { result ≡ outcome_of word.now }
{
    [Outcome::Applied, Outcome::Failed]
        .iter()
        .copied()
        .find(|outcome| outcome_word(*outcome) == word)
}

/// The index of the first dot of a word, or None.
fn place_of_dot(word: &[u8]) -> Option<usize>
    ensures value { result ≡ position (λ byte. byte == 46) word.now }
    ensures bound { IfSome result (λ place. place < length word.now) }
{
    word.iter().position(|byte| *byte == b'.')
}

/// Whether a word is the arrow.
fn is_arrow(word: &[u8]) -> bool
    ensures { result ≡ bytes_eq arrow word.now }
{
    match word {
        [first, second] => *first == b'-' && *second == b'>',
        _ => false,
    }
}

/// The index of the first arrow among words, or None.
fn place_of_arrow(words: &[&[u8]]) -> Option<usize>
    ensures value { result ≡ position (λ word. bytes_eq arrow word) (map (λ word. word.now) words.now) }
    ensures bound { IfSome result (λ place. place < length words.now) }
{
    words.iter().position(|word| is_arrow(word))
}

/// The caller that a word spells: its rank, and its thread behind the first dot.
#[tactic(auto, unfolding(crate::specs::EventReading::caller_of))]
fn read_caller(word: &[u8]) -> Option<CallerId>
    ensures { result ≡ caller_of word.now }
{
    let dot = place_of_dot(word)?;
    let rank = read_rank(&word[..dot])?;
    let thread = read_thread(&word[dot + 1..])?;
    Some(CallerId { rank, thread })
}

/// A caller's call with its reply, each from its words.
fn read_call_and_reply(
    alloc: Global,
    caller: CallerId,
    call: &[&[u8]],
    reply: &[&[u8]],
) -> Result<Option<Event>, NoMemory>
    ensures { IfOk result (λ event. event ≡ called_with caller (map (λ word. word.now) call.now) (map (λ word. word.now) reply.now)) }
{
    let Some(call) = read_recorded_call(alloc, call)? else {
        return Ok(None);
    };
    let Some(reply) = read_reply_words(alloc, reply)? else {
        return Ok(None);
    };
    Ok(Some(Event::Called(caller, call, reply)))
}

/// The event of a caller, its call, and its reply behind the first arrow.
#[tactic(auto, unfolding(crate::specs::EventReading::called_of))]
fn read_called(alloc: Global, arguments: &[&[u8]]) -> Result<Option<Event>, NoMemory>
    ensures { IfOk result (λ event. event ≡ called_of (map (λ word. word.now) arguments.now)) }
{
    let [word, words @ ..] = arguments else {
        return Ok(None);
    };
    let Some(caller) = read_caller(word) else {
        return Ok(None);
    };
    let Some(place) = place_of_arrow(words) else {
        return Ok(None);
    };
    read_call_and_reply(alloc, caller, &words[..place], &words[place + 1..])
}

/// The join of a caller, a group, and the arguments.
#[tactic(auto, unfolding(crate::specs::EventReading::joined_of))]
fn read_joined(alloc: Global, arguments: &[&[u8]]) -> Result<Option<Event>, NoMemory>
    ensures { IfOk result (λ event. event ≡ joined_of (map (λ word. word.now) arguments.now)) }
{
    let [caller, group, words @ ..] = arguments else {
        return Ok(None);
    };
    let Some(caller) = read_caller(caller) else {
        return Ok(None);
    };
    let Some(group) = read_group(group) else {
        return Ok(None);
    };
    let Some(args) = read_args(alloc, words)? else {
        return Ok(None);
    };
    Ok(Some(Event::Joined(caller, group, args)))
}

/// The fields of a transfer: origin, queue, target and number of its entry, and the outcome.
#[tactic(auto, unfolding(crate::specs::EventReading::moved_of))]
fn read_moved(arguments: &[&[u8]]) -> Option<Moved>
    ensures { result ≡ moved_of (map (λ word. word.now) arguments.now) }
{
    let [origin, queue, target, number, outcome] = arguments else {
        return None;
    };
    let origin = read_rank(origin)?;
    let queue = read_queue(queue)?;
    let target = read_rank(target)?;
    let number = read_exact_value(number)?;
    let outcome = read_outcome(outcome)?;
    Some(Moved {
        origin,
        queue,
        target,
        number,
        outcome,
    })
}

/// The take with these fields.
fn read_take(arguments: &[&[u8]]) -> Option<Event>
    ensures { result ≡ option_map taken (moved_of (map (λ word. word.now) arguments.now)) }
{
    let moved = read_moved(arguments)?;
    Some(Event::Take(
        moved.origin,
        moved.queue,
        moved.target,
        moved.number,
        moved.outcome,
    ))
}

/// The put with these fields.
fn read_put(arguments: &[&[u8]]) -> Option<Event>
    ensures { result ≡ option_map put (moved_of (map (λ word. word.now) arguments.now)) }
{
    let moved = read_moved(arguments)?;
    Some(Event::Put(
        moved.origin,
        moved.queue,
        moved.target,
        moved.number,
        moved.outcome,
    ))
}

/// The event that words spell: its word, and what follows that.
#[tactic(auto, unfolding(crate::specs::EventReading::event_of))]
pub(crate) fn read_event_words(alloc: Global, words: &[&[u8]]) -> Result<Option<Event>, NoMemory>
    ensures { IfOk result (λ event. event ≡ event_of (map (λ word. word.now) words.now)) }
{
    let [word, arguments @ ..] = words else {
        return Ok(None);
    };
    if b"called".as_slice() == *word {
        return read_called(alloc, arguments);
    }
    if b"joined".as_slice() == *word {
        return read_joined(alloc, arguments);
    }
    if b"take".as_slice() == *word {
        return Ok(read_take(arguments));
    }
    if b"put".as_slice() == *word {
        return Ok(read_put(arguments));
    }
    Ok(None)
}

/// Whether no word has a leading zero.
fn are_exact(words: &[&[u8]]) -> bool
    ensures { result ≡ are_exact (map (λ word. word.now) words.now) }
{
    words.iter().all(|word| !has_leading_zero(word))
}

/// Whether the words that spell an event are known to be those that are written of it, without writing them.
pub(crate) fn is_written_so(event: &Event, words: &[&[u8]]) -> bool
    ensures { result ≡ is_written_so event.now (map (λ word. word.now) words.now) }
{
    match event {
        Event::Called(_, call, reply) => {
            is_call_numeric(call) && is_reply_numeric(reply) && are_exact(words)
        }
        Event::Joined(..) => false,
        Event::Take(..) | Event::Put(..) => true,
    }
}
