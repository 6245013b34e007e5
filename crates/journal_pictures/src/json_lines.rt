//! Lines of JSON, put together from pieces. What the text has after `NoMemory` is not said.

ghost use Rattle.std.specs.Prelude.{◌≡◌, ◌++◌, OnOk};
ghost use Rattle.journal_pictures.specs.JsonLines.{piece_text, pieces_text};

use gaspi_texts::write_number;
use gaspi_types::{Bytes, NoMemory};

/// A piece of a line: bytes that are in it as they are, or a number in decimal.
#[derive(Clone, Copy, Debug)]
pub enum Piece<'a> {
    Fixed(&'a [u8]),
    Number(u64),
}

/// Adds a piece.
fn append_piece(text: &mut Bytes, piece: Piece<'_>) -> Result<(), NoMemory>
    ensures { OnOk result (text.new ≡ text.old ++ piece_text piece.entry) }
{
    match piece {
        Piece::Fixed(bytes) => text.append(bytes),
        Piece::Number(number) => write_number(text, number),
    }
}

/// Adds pieces, one behind the other.
pub(crate) fn append_pieces(text: &mut Bytes, pieces: &[Piece<'_>]) -> Result<(), NoMemory>
    ensures { OnOk result (text.new ≡ text.old ++ pieces_text pieces.now) }
{
    for piece in pieces {
        append_piece(text, *piece)?;
    }
    Ok(())
}
