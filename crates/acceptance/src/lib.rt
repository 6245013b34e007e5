//! Tests alone: whole runs of the program that no text of `tests/` can show, and the texts of single calls, replies and events.
#![tactic(auto)]

#[cfg(test)]
mod pieces;
#[cfg(test)]
mod running;
#[cfg(test)]
mod streams;
#[cfg(test)]
mod texts;
