//! Results and effects of calls, on the machine's own values: the posts of the caller's rank, the memory that the call works on, the
//! posts of a peer, a group. `plain_machine` is put together from them. `rank_node`, which has stores in place of these values, uses
//! the functions that take single tables.
//!
//! The files are named after the kinds of calls, but for `calls`, which chooses, `recording` and `collective_steps`, which make
//! steps, and `lanes`, `memories`, `threads`, `looks`, `replies`, `posting`, `contributions` and `openings`, which serve the
//! others. A clause with `IsBounded` or 2^32 requires that the numbers which a function raises still fit their types; in a sound
//! state they do.
#![tactic(auto)]

mod atomic_calls;
mod calls;
mod collective_calls;
mod collective_steps;
mod contributions;
mod group_calls;
mod lanes;
mod looks;
mod memories;
mod memory_calls;
mod notification_calls;
mod openings;
mod passive_calls;
mod post_calls;
mod posting;
mod queue_calls;
mod recording;
mod replies;
mod segment_calls;
mod threads;

pub use atomic_calls::word_result;
pub use calls::{look, register_at_peer, registration};
pub use collective_calls::{
    Joining, args_of, called_on, check_fixed, collective_look, collective_ready, may_join,
};
pub use collective_steps::{complete, join};
pub use group_calls::{group_add_result, group_create_result, group_delete_result, pending_on};
pub use lanes::{is_carried, is_posted, is_read, is_write, may_put, may_take, position_of};
pub use looks::Evaluation;
pub use memories::{bytes_of, new_slots, segment_at, set_slot};
pub use memory_calls::{load_result, store_result};
pub use notification_calls::{reset_result, waitsome_result};
pub use openings::opening_segments;
pub use passive_calls::{message_of, receive_result, send_result};
pub use queue_calls::{purged_queue, state_result};
pub use recording::{charge, record};
pub use replies::{answer_of_result, is_refused_or_timeout, recorded_reply};
pub use segment_calls::{Registration, alloc_result, register_result, registration_of};
pub use threads::{is_running, is_there, thread_at};
