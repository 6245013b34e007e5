//! How many words the fields of a form have, where some of these words say how many items or elements follow.

ghost use Rattle.std.specs.Prelude.{◌≡◌, ◌+◌, ◌==◌, map, length, nat_le, drop, Some, None, if◌then◌else◌};
ghost use Rattle.std.specs.Option.{option_map};
ghost use Rattle.call_texts.specs.Fields.{field_words, form_words};

use crate::fields::Field;
use crate::numbers::read_number;

/// How many of the words in front belong to a field. None where the number of its items or elements does not have the form of a
/// number.
fn word_count(field: Field, words: &[&[u8]]) -> Option<u128>
    ensures { result ≡ field_words field (map (λ word. word.now) words.now) }
{
    match (field, words) {
        (Field::Items, [word, ..]) => {
            let items = read_number(word)?;
            Some(1 + 5 * u128::from(items))
        }
        (Field::Elements, [_, word, ..]) => {
            let elements = read_number(word)?;
            Some(2 + u128::from(elements))
        }
        (Field::Elements, _) => Some(2),
        _ => Some(1),
    }
}

/// The words behind the first `count`, or None where there are fewer.
fn words_behind<'b, 'a>(words: &'b [&'a [u8]], count: u128) -> Option<&'b [&'a [u8]]>
    ensures { option_map (λ rest. rest.now) result ≡ (if nat_le count (length words.now) then Some (drop count words.now) else None) }
{
    if count > words.len() as u128 {
        return None;
    }
    Some(&words[count as usize..])
}

/// Whether the words are those of a form and `more` others behind them. None where the number of items or elements does not
/// have the form of a number.
pub(crate) fn are_counted(form: &[Field], words: &[&[u8]], more: usize) -> Option<bool>
    ensures { result ≡ option_map (λ count. length words.now == count + more) (form_words form.now (map (λ word. word.now) words.now)) }
{
    let [field, later @ ..] = form else {
        return Some(words.len() == more);
    };
    let count = word_count(*field, words)?;
    match words_behind(words, count) {
        Some(rest) => are_counted(later, rest, more),
        None => Some(false),
    }
}
