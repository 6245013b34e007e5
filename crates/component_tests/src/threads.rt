//! Ranks on threads, without scripts, and the commit table below them: worlds with bodies of their own, each procedure once,
//! and passes that raise counters. `two_senders` is also the example of how a program embeds ranks. Workers and scripts are
//! tested by the tables of whole runs in `tests/`.

mod counters;
mod launches;
mod procedures;
mod races;
mod two_senders;
mod worlds;
