//! The texts of replies, events and journals, both ways, with those of the calls in them; and the merge of rank journals.
//!
//! A `Journal` is the history of a world as a list of events. A `RankJournal` has the events of one rank with their places, and
//! `MergeRoom` makes one journal of the rank journals of all ranks.
#![tactic(auto)]

mod collective_texts;
mod event_reading;
mod event_texts;
mod journal_laws;
mod journal_lines;
mod journal_ranges;
mod journal_reading;
mod journal_values;
mod journal_writing;
mod merging;
mod own_values;
mod ranges;
mod reply_reading;
mod reply_texts;
mod reply_words;
mod text_laws;

pub use call_texts::{
    CallWord, bytes_read_back, calls_read_back, numbers_read_back, read_bytes, read_call,
    read_call_words, read_number, read_value, words, words_read_back, write_bytes, write_call,
    write_number,
};
pub use event_texts::{ReadingBuffers, read_event, read_event_with, write_event};
use gaspi_types::{Buffer, Event, PlacedEvent, Sequence};
pub use journal_laws::journals_differ_in_text;
pub use journal_ranges::journal_is_in_range;
pub use journal_reading::{JournalFault, read};
pub use journal_values::have_own_values;
pub use journal_writing::{write, write_end_line, write_event_line};
pub use merging::MergeRoom;
pub use own_values::has_own_values;
pub use ranges::{event_is_in_range, reply_is_in_range};
pub use reply_texts::{read_reply, read_reply_words, write_reply};
pub use text_laws::{
    events_differ_in_text, events_have_no_line_feed, read_replies_are_in_range,
    replies_differ_in_text, replies_read_back,
};

/// The events of a world in the order in which they happened: the place of an event is its index, from 0.
pub type Journal = Sequence<Event>;

/// A journal with a fixed capacity: it takes its memory when it is made, and to add an event within its capacity cannot fail.
/// `into_sequence` makes a journal of it and takes no memory. It is the journal of a whole world, since the place of an event
/// is its index.
pub type ReservedJournal = Buffer<Event>;

/// The rank journal: the events that a rank owns, each with its place, in rising order of places. `MergeRoom` makes a journal
/// of the rank journals of all ranks.
pub type RankJournal = Buffer<PlacedEvent>;
