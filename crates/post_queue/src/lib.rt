//! The queues of one origin, with a lane for each queue and target; and the entries that a call posts.
//!
//! A lane is kept in two rings, which take their memory when the queues are made: one of posted entries, one of carried and failed
//! ones. A ring is a list of fixed capacity, where items are appended at the end and removed at the front. The bytes of an entry
//! have their own memory, which its draft takes: `build` finds what a call posts, or its first refusal, and takes all memory that
//! the post needs.
//!
//! Contracts see `Lanes` as the machine's queues, a lane as one list of entries (first the carried ones, then the posted ones), a
//! `Draft` as its kind, and `Entries` as a list of kinds. The depth of a queue is the most that its open count may be.
//! (GASPI: one-sided communication)
#![tactic(auto)]

mod build_stops;
mod drafts;
mod entries;
mod kinds;
mod lane_rings;
mod lanes;
mod laws;
mod list_builds;
mod post_entries;
mod queue_counts;
mod queue_rings;
mod target_sets;

pub use build_stops::BuildStop;
pub use drafts::{Draft, carried_size};
pub use entries::PostedEntry;
pub use lanes::Lanes;
pub use laws::{nonempty_lane_is_the_least, puts, takes};
pub use list_builds::{asked_entries, build};
pub use post_entries::Entries;
