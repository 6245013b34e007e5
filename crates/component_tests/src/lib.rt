//! Tests alone, of the crates below the commands: mostly of public calls that no command makes, each with enough memory, and of
//! the texts of faults. Stores and streams have theirs in `store_tests`. What the commands call is tested by the tables of whole
//! runs in `tests/`, with every byte compared.
//!
//! A crate with a test is proved twice, so these crates have theirs here. Calls and values are made by small functions without
//! clauses, so that the proof of a test need not carry them. A function that owns much has few returns, since each of them
//! drops it all.
//!
//! Helpers answer true where what their name says is so; a name as `takes` or `fills` says that the helper also does it.
#![tactic(auto)]

#[cfg(test)]
mod driven_nodes;
#[cfg(test)]
mod explanations;
#[cfg(test)]
mod faults;
#[cfg(test)]
mod journals;
#[cfg(test)]
mod machine;
#[cfg(test)]
mod nodes;
#[cfg(test)]
mod one_rank;
#[cfg(test)]
mod scripts;
#[cfg(test)]
mod threads;
