//! The lines of a text: where the first one ends, and a line without its end.

ghost use Rattle.std.specs.Prelude.{◌≡◌, ◌<◌, ◌∷◌, ◌++◌, length};
ghost use Rattle.call_texts.specs.Lines.{fed_lines, plain_line, without_last};

use memchr::memchr;

/// The first line of a text that is not empty, with its line feed, which the last line may lack; and the text behind it.
pub fn first_line(text: &[u8]) -> (&[u8], &[u8])
    requires { 0 < length text.now }
    ensures lines { fed_lines text.now ≡ result.0.now ∷ fed_lines result.1.now }
    ensures whole { result.0.now ++ result.1.now ≡ text.now }
    ensures shorter { length result.1.now < length text.now }
{
    match memchr(b'\n', text) {
        Some(end) => text.split_at(end + 1),
        None => (text, &[]),
    }
}

/// A line without its line feed, and without one carriage return before that. A line without a line feed keeps its carriage
/// return.
pub fn plain_line(line: &[u8]) -> &[u8]
    ensures { result.now ≡ plain_line line.now }
{
    let Some((last, front)) = line.split_last() else {
        return line;
    };
    if *last == b'\n' {
        without_return(front)
    } else {
        line
    }
}

/// A line without the carriage return at its end, where it has one.
fn without_return(line: &[u8]) -> &[u8]
    ensures { result.now ≡ without_last 13 line.now }
{
    let Some((last, front)) = line.split_last() else {
        return line;
    };
    if *last == b'\r' { front } else { line }
}
