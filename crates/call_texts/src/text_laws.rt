//! Laws of texts: what is written reads back, and what is read is counted and in range. A law is the contract of a function
//! that does nothing.

ghost use Rattle.std.specs.Prelude.{◌≡◌, ◌≢◌, ◌^◌, ◌<◌, ℕ, ℤ, List, length, map, Some, true, false};
ghost use Rattle.std.specs.Fmt.{decimal, signed_decimal};
ghost use Rattle.std.specs.List.{AllByRecursion, join_with_byte};
ghost use Rattle.hex.specs.Hex.{IsBytes};
ghost use Rattle.call_texts.specs.CallText.{call_by, call_of, recorded_call_of, call_of_text, call_with, form_of, arguments_of, has_timeout, words_of_call, call_text, is_call_numeric, IsWritable};
ghost use Rattle.call_texts.specs.Elements.{type_word, op_word, type_of, op_of, elements_of};
ghost use Rattle.call_texts.specs.Fields.{Fields};
ghost use Rattle.call_texts.specs.declared.call_words.CallWord.{CallWord};
ghost use Rattle.gaspi_types.specs.CallRows.{row_of};
ghost use Rattle.gaspi_types.specs.NumberTypes.{AreInType};
ghost use Rattle.gaspi_types.specs.declared.collectives.NumType.{NumType};
ghost use Rattle.gaspi_types.specs.declared.collectives.Op.{Op};
ghost use Rattle.gaspi_types.specs.declared.calls.Call.{Call};
ghost use Rattle.gaspi_types.specs.declared.calls.Call.TheVariants.{End};
ghost use Rattle.call_texts.specs.Hex.{bytes_of, hex_text};
ghost use Rattle.call_texts.specs.Numbers.{is_numeral, number_of, value_of, has_leading_zero};
ghost use Rattle.call_texts.specs.Words.{words_of, pieces_of, IsWord, IsPlainWord};

/// A text of words with one space between each two has these words.
pub fn words_read_back()
    ensures { (words : List (List ℕ)) → AllByRecursion IsWord words → words_of (join_with_byte 32 words) ≡ words }
{}

/// A text is its pieces, with one space between each two, and words with one space between each two are the pieces of their
/// text.
pub fn pieces_are_the_text()
    ensures joined { (text : List ℕ) → join_with_byte 32 (pieces_of text) ≡ text }
    ensures words { (words : List (List ℕ)) → 0 < length words → AllByRecursion IsWord words → pieces_of (join_with_byte 32 words) ≡ words }
{}

/// A number in decimal reads back as that number.
pub fn numbers_read_back()
    ensures number { (n : ℕ) → n < 2 ^ 64 → number_of (decimal n) ≡ Some n }
    ensures value { (n : ℕ) → n < 2 ^ 32 → value_of (decimal n) ≡ Some n }
{}

/// Bytes in hex read back as those bytes.
pub fn bytes_read_back()
    ensures { (bytes : List ℕ) → IsBytes bytes → bytes_of (hex_text bytes) ≡ Some bytes }
{}

/// A type, an operation, and numbers of a type in decimal read back as these.
pub fn elements_read_back()
    ensures num_type { (t : NumType) → type_of (type_word t) ≡ Some t }
    ensures op { (op : Op) → op_of (op_word op) ≡ Some op }
    ensures elements { (t : NumType) (items : List ℤ) → AreInType t items → elements_of t (map signed_decimal items) ≡ Some items }
{}

/// A call in the one form that is written reads back as that call, and so do its words.
pub fn calls_read_back()
    ensures text { (call : Call) → IsWritable call → call_of_text (call_text call) ≡ Some call }
    ensures words { (call : Call) → IsWritable call → recorded_call_of (words_of_call call) ≡ Some call }
{}

/// No call's word with its fields spells the end of a caller.
pub fn words_spell_no_end()
    ensures arguments { (word : CallWord) (words : List (List ℕ)) (call : Call) → call_by word words ≡ Some call → call ≢ End }
    ensures words { (words : List (List ℕ)) (call : Call) → call_of words ≡ Some call → call ≢ End }
{}

/// The words that spell the fields of a call are as many as its form has, so none of them is miscounted; and the words that
/// spell elements are as many as these.
pub fn read_words_are_counted()
    ensures elements { (t : NumType) (words : List (List ℕ)) (items : List ℤ) → elements_of t words ≡ Some items → length items ≡ length words }
    ensures call { (word : CallWord) (words : List (List ℕ)) (call : Call) → call_by word words ≡ Some call → arguments_of word words ≡ Some (length words) }
{}

/// A call's word takes a timeout where the row of its call says so. (GASPI: timeouts)
pub fn timeouts_are_those_of_rows()
    ensures { (word : CallWord) (fields : Fields (form_of word)) → (row_of (call_with word fields)).times_out ≡ has_timeout word }
{}

/// What words spell is in the range of its type.
pub fn read_words_are_in_range()
    ensures number { (word : List ℕ) (n : ℕ) → number_of word ≡ Some n → n < 2 ^ 64 }
    ensures value { (word : List ℕ) (n : ℕ) → value_of word ≡ Some n → n < 2 ^ 32 }
    ensures bytes { (word bytes : List ℕ) → bytes_of word ≡ Some bytes → IsBytes bytes }
    ensures elements { (t : NumType) (words : List (List ℕ)) (items : List ℤ) → elements_of t words ≡ Some items → AreInType t items }
    ensures call { (words : List (List ℕ)) (call : Call) → recorded_call_of words ≡ Some call → IsWritable call }
{}

/// What is written are plain words, of digits, letters, `_` and `-`; a number is of digits.
pub fn written_words_are_plain()
    ensures number { (n : ℕ) → n < 2 ^ 64 → is_numeral (decimal n) ≡ true }
    ensures bytes { (bytes : List ℕ) → IsBytes bytes → IsPlainWord (hex_text bytes) }
    ensures elements { (t : NumType) (items : List ℤ) → AreInType t items → AllByRecursion IsPlainWord (map signed_decimal items) }
    ensures call { (call : Call) → IsWritable call → AllByRecursion IsPlainWord (words_of_call call) }
{}

/// A number has no leading zero; and words without one that spell a number, or a call of numbers alone, are those that are
/// written of it.
pub fn read_words_are_written()
    ensures leads { (n : ℕ) → n < 2 ^ 64 → has_leading_zero (decimal n) ≡ false }
    ensures number { (word : List ℕ) (n : ℕ) → number_of word ≡ Some n → has_leading_zero word ≡ false → decimal n ≡ word }
    ensures value { (word : List ℕ) (n : ℕ) → value_of word ≡ Some n → has_leading_zero word ≡ false → decimal n ≡ word }
    ensures call { (words : List (List ℕ)) (call : Call) → recorded_call_of words ≡ Some call → is_call_numeric call ≡ true
        → AllByRecursion (λ word. has_leading_zero word ≡ false) words → words_of_call call ≡ words }
{}
