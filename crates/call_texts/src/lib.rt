//! Texts: their lines, words, numbers and bytes; and the texts of calls, both ways. What is written has one form, and what is
//! read may have others.
#![tactic(auto)]

mod blanks;
mod call_fields;
mod call_reading;
mod call_words;
mod call_writing;
mod elements;
mod field_words;
mod fields;
mod form_counts;
mod hexes;
mod lines;
mod numbers;
mod ranges;
mod text_laws;
mod words_written;

pub use blanks::{set_pieces, set_words, words};
pub use call_reading::{read_arguments, read_call, read_call_words, read_recorded_call};
pub use call_words::CallWord;
pub use call_writing::{is_call_numeric, write_call};
pub use elements::{append_elements, op_word, read_elements, read_op, read_type, type_word};
pub use hexes::{read_bytes, write_bytes};
pub use lines::{first_line, plain_line};
pub use numbers::{has_leading_zero, read_number, read_value, write_number};
pub use ranges::{bytes_are_in_range, call_is_in_range};
pub use text_laws::{
    bytes_read_back, calls_read_back, elements_read_back, numbers_read_back, pieces_are_the_text,
    read_words_are_counted, read_words_are_in_range, read_words_are_written,
    timeouts_are_those_of_rows, words_read_back, words_spell_no_end, written_words_are_plain,
};
pub use words_written::{append_bytes, append_line, append_numbers, append_word};
