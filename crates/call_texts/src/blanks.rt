//! The words of a text, which blanks separate: spaces and tabs. A piece is what is between two blanks; it may be empty, and is
//! a word where it is not. A text with one space between each two words is cut faster at its spaces alone.

ghost use Rattle.std.specs.Prelude.{◌≡◌, ◌<◌, ◌++◌, ◌==◌, ◌∷◌, [], length, map, position, IfOk, IfSome, MatchOption, OnOk};
ghost use Rattle.call_texts.specs.Words.{is_blank, words_of, words_in_piece, pieces_of};

use gaspi_types::NoMemory;
use std::alloc::Global;

/// Whether a byte is a blank: a space or a tab.
fn is_blank(byte: u8) -> bool
    ensures { result ≡ is_blank byte }
{
    byte == b' ' || byte == b'\t'
}

/// The index of the first blank, or None where there is no blank.
fn blank_in(text: &[u8]) -> Option<usize>
    ensures place { result ≡ position is_blank text.now }
    ensures bound { IfSome result (λ place. place < length text.now) }
{
    // Most bytes are over the space, so that the first comparison decides.
    text.iter()
        .position(|byte| *byte <= b' ' && is_blank(*byte))
}

/// The piece before the first blank of a text, and the text behind that blank; None where there is no blank.
fn first_piece(text: &[u8]) -> Option<(&[u8], &[u8])>
    ensures words { MatchOption result (words_of text.now ≡ words_in_piece text.now)
        (λ parts. words_of text.now ≡ words_in_piece parts.0.now ++ words_of parts.1.now) }
    ensures shorter { IfSome result (λ parts. length parts.1.now < length text.now) }
{
    let end = blank_in(text)?;
    Some((&text[..end], &text[end + 1..]))
}

/// Adds a piece to the words, unless it is empty. After `NoMemory` what the list holds is not said.
fn push_piece<'a>(list: &mut Vec<&'a [u8]>, piece: &'a [u8]) -> Result<(), NoMemory>
    ensures { OnOk result (map (λ word. word.now) list.new.items ≡ map (λ word. word.now) list.old.items ++ words_in_piece piece.now) }
{
    if !piece.is_empty() {
        list.push(piece)?;
    }
    Ok(())
}

/// Puts the words of a text into a list, in their order and in place of what it held: the longest runs of bytes other than
/// spaces and tabs. After `NoMemory` what the list holds is not said.
pub fn set_words<'a>(list: &mut Vec<&'a [u8]>, text: &'a [u8]) -> Result<(), NoMemory>
    ensures { OnOk result (map (λ word. word.now) list.new.items ≡ words_of text.now) }
{
    list.clear();
    let mut rest = text;
    while let Some((piece, later)) = first_piece(rest) {
        push_piece(list, piece)?;
        rest = later;
    }
    push_piece(list, rest)
}

/// The words of a text, in their order: the longest runs of bytes other than spaces and tabs.
pub fn words(alloc: Global, text: &[u8]) -> Result<Vec<&[u8]>, NoMemory>
    ensures { IfOk result (λ words. map (λ word. word.now) words.items ≡ words_of text.now) }
{
    let mut list = Vec::new(alloc);
    set_words(&mut list, text)?;
    Ok(list)
}

/// The index of the first space, or None where there is no space.
fn space_in(text: &[u8]) -> Option<usize>
    ensures place { result ≡ position (λ byte. byte == 32) text.now }
    ensures bound { IfSome result (λ place. place < length text.now) }
{
    text.iter().position(|byte| *byte == b' ')
}

/// The piece before the first space of a text, and the text behind that space; None where there is no space.
fn first_spaced(text: &[u8]) -> Option<(&[u8], &[u8])>
    ensures pieces { MatchOption result (pieces_of text.now ≡ text.now ∷ [])
        (λ parts. pieces_of text.now ≡ parts.0.now ∷ pieces_of parts.1.now) }
    ensures shorter { IfSome result (λ parts. length parts.1.now < length text.now) }
{
    let end = space_in(text)?;
    Some((&text[..end], &text[end + 1..]))
}

/// Puts what is between the spaces of a text into a list, in its order and in place of what that held. After `NoMemory` what
/// the list holds is not said.
pub fn set_pieces<'a>(list: &mut Vec<&'a [u8]>, text: &'a [u8]) -> Result<(), NoMemory>
    ensures { OnOk result (map (λ word. word.now) list.new.items ≡ pieces_of text.now) }
{
    list.clear();
    let mut rest = text;
    while let Some((piece, later)) = first_spaced(rest) {
        list.push(piece)?;
        rest = later;
    }
    list.push(rest)?;
    Ok(())
}
