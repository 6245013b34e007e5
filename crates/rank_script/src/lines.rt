//! Which bytes a line of a world text may have, and how many.

ghost use Rattle.std.specs.Prelude.{◌≡◌, not};
ghost use Rattle.std.specs.List.{list_any};
ghost use Rattle.rank_script.specs.Lines.{is_line_byte, is_bad_line};

/// The most bytes of a line.
const MOST_BYTES_OF_A_LINE: usize = 140_000;

/// Whether a line may have this byte: a printing one of ASCII, a space or a tab.
fn is_line_byte(byte: u8) -> bool
    ensures { result ≡ is_line_byte byte }
{
    (b' '..=b'~').contains(&byte) || byte == b'\t'
}

/// Whether a line has a byte that no line may have, or too many bytes: fault S2.
pub(crate) fn is_bad_line(line: &[u8]) -> bool
    ensures { result ≡ is_bad_line line.now }
{
    has_other_byte(line) || line.len() > MOST_BYTES_OF_A_LINE
}

/// Whether a line has a byte that no line may have. Few lines have, so all bytes are tested, without a branch for each.
fn has_other_byte(line: &[u8]) -> bool
    ensures { result ≡ list_any (λ byte. not (is_line_byte byte)) line.now }
{
    line.iter()
        .fold(false, |found, byte| found | !is_line_byte(*byte))
}
