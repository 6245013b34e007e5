//! Laws of the texts of replies and events. A law is the contract of a function that does nothing, but that it may call the
//! laws from which it follows.

ghost use Rattle.std.specs.Prelude.{◌≡◌, ◌==◌, ℕ, List, Some, true, false};
ghost use Rattle.std.specs.List.{All};
ghost use Rattle.gaspi_types.specs.declared.events.Event.{Event};
ghost use Rattle.gaspi_types.specs.declared.replies.Reply.{Reply};
ghost use Rattle.call_texts.specs.Words.{words_of, pieces_of};
ghost use Rattle.gaspi_texts.specs.CallLaws.{CallLaws};
ghost use Rattle.gaspi_texts.specs.EventReading.{event_of, is_written_so};
ghost use Rattle.gaspi_texts.specs.EventText.{event_text, IsInEventRange};
ghost use Rattle.gaspi_texts.specs.ReplyText.{reply_text, reply_of, IsInRange};

use call_texts::{
    bytes_read_back, calls_read_back, elements_read_back, numbers_read_back, pieces_are_the_text,
    read_words_are_counted, read_words_are_in_range, read_words_are_written, words_read_back,
    written_words_are_plain,
};

/// The laws of the texts of calls, from which those of replies and events follow.
fn call_laws()
    ensures { CallLaws }
{
    words_read_back();
    pieces_are_the_text();
    numbers_read_back();
    bytes_read_back();
    elements_read_back();
    calls_read_back();
    read_words_are_counted();
    read_words_are_in_range();
    read_words_are_written();
    written_words_are_plain();
}

/// Replies in range with the same text are equal.
pub fn replies_differ_in_text()
    ensures { (first second : Reply) → IsInRange first → IsInRange second
        → reply_text first ≡ reply_text second → first ≡ second }
{
    replies_read_back();
}

/// A reply in the one form that is written reads back as that reply.
pub fn replies_read_back()
    ensures { (reply : Reply) → IsInRange reply → reply_of (words_of (reply_text reply)) ≡ Some reply }
{
    call_laws();
}

/// The numbers of a reply that words spell are in the ranges of their types.
pub fn read_replies_are_in_range()
    ensures { (words : List (List ℕ)) (reply : Reply) → reply_of words ≡ Some reply → IsInRange reply }
{
    call_laws();
}

/// The text of an event in range, cut at its spaces, reads back as that event.
pub(crate) fn events_read_back()
    ensures { (event : Event) → IsInEventRange event → event_of (pieces_of (event_text event)) ≡ Some event }
{
    call_laws();
}

/// A text has the pieces of an event known to be written so where it is the text of that event.
pub(crate) fn read_events_are_written()
    ensures { (text : List ℕ) (event : Event) → event_of (pieces_of text) ≡ Some event → is_written_so event (pieces_of text) ≡ true
        → text ≡ event_text event }
{
    call_laws();
}

/// The numbers of an event that words spell are in the ranges of their types.
pub(crate) fn read_events_are_in_range()
    ensures { (words : List (List ℕ)) (event : Event) → event_of words ≡ Some event → IsInEventRange event }
{
    call_laws();
}

/// Events in range with the same text are equal.
pub fn events_differ_in_text()
    ensures { (first second : Event) → IsInEventRange first → IsInEventRange second
        → event_text first ≡ event_text second → first ≡ second }
{
    events_read_back();
}

/// No text of an event has a line feed.
pub fn events_have_no_line_feed()
    ensures { (event : Event) → IsInEventRange event → All (λ byte. (byte == 10) ≡ false) (event_text event) }
{
    call_laws();
}
