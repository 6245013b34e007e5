//! The memory of one rank: its segments, their slots, and its inbox; and what the calls that post ask of the table of segments.
//!
//! Contracts see `Segments` as the table of segments (own and known, by generation and size) and the own segments with their bytes,
//! which agree with it; `Slots` as the list of the slots' values; an `Inbox` as the most messages that it may have and the list of
//! its messages. A call answers by the checks of `gaspi_types` that the machine uses. Where it is refused, or memory runs out,
//! nothing changes.
//!
//! Both machines use `Slots`, `Inbox` or the functions on ranges, words and tables. Neither uses `Segments`, which is the whole
//! store of a rank's segments for other code. (GASPI: segments, atomics, notifications, passive communication)
#![tactic(auto)]

mod inbox;
mod kinds;
mod laws;
mod list_posts;
mod posts;
mod ranges;
mod segment_tables;
mod segments;
mod slot_ranges;
mod slots;
mod stops;
mod stored;
mod tables;
mod words;

pub use inbox::Inbox;
pub use kinds::EntryKinds;
pub use laws::{extents, writes};
pub use posts::call_kinds;
pub use ranges::{check_range, is_transfer_size, is_within, range_of, set_range};
pub use segment_tables::{
    add_own, check_alloc, check_message_range, check_own_range, extent_in, known_extent,
    next_generation, remove_own, set_known,
};
pub use segments::Segments;
pub use slots::Slots;
pub use stops::PartStop;
pub use stored::{
    add_to_segment, bytes_of, is_generation, new_segment, segment_in, store_bytes, swap_in_segment,
};
pub use words::{add_to_word, check_word, swap_word, word_at};
