//! The words of the command line of `gaspirun`: what they ask for, as `clap` reads them, and laws of that.
#![tactic(auto)]

mod arguments;
mod laws;
mod words;

pub use laws::{
    help_and_version_are_refused, numbers_are_read, other_first_words_are_refused,
    other_forms_that_are_accepted, words_that_are_accepted, words_that_are_refused,
    words_without_a_fault_are_accepted,
};
pub use words::{Command, read_words};
