//! A world of ranks as threads: each rank and each group has a lock of its own, and all threads commit to one history.
//! (GASPI: ranks)
//!
//! A `World` is made with a `Pass` for each caller and each worker. What is committed through the passes of a world is one legal
//! history of the machine from its start (`world_histories`), which exists in proofs alone until the world is closed. `launch`
//! runs a `Body` for each pass on a thread of its own, and `World::close` gives the journal with what each pass saw and did.
//!
//! A `Numbering` gives each part of the state, a rank's posts, its memory or a group, the number of a shard. Whatever the numbering, the
//! machine in shards is lawful (`specs/ShardLaws`): so a commit table may be made of it.
#![tactic(auto)]

mod attempts;
mod callers;
mod calling;
mod closing;
mod committing;
mod holding;
mod launching;
mod laws;
mod moving;
mod procedures;
mod ranks;
mod shard_laws;
mod shards;
mod starts;
mod transfers;
mod worlds;

pub use attempts::Halt;
pub use calling::Stop;
pub use closing::{Tally, Unclosed};
pub use launching::{Body, Task, launch};
pub use laws::{waits_last, waits_on, world_histories};
pub use moving::Moving;
pub use ranks::{Note, Rank};
pub use shard_laws::{journal_lengths, shard_histories, shard_numbers};
pub use shards::WorldShard;
pub use starts::Start;
pub use worlds::{Pass, Passes, Started, World};
