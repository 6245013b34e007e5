//! The words with which the texts of calls begin: their spelling, the form of the fields behind each, and how many words
//! follow.

ghost use Rattle.std.specs.Prelude.{◌≡◌, ◌==◌, map, length, find};
ghost use Rattle.std.specs.Option.{option_map};
ghost use Rattle.std.specs.Str.{bytes_eq};
ghost use Rattle.call_texts.specs.CallText.{spelling_of, form_of, words_of_length, call_word_of, given_count, has_timeout, takes_items};

use crate::fields::Field::{self, Bytes, Elements, Items, Number, Operation, Value};
use crate::form_counts::are_counted;

/// The word with which a call's text begins.
#[derive(Clone, Copy, Debug, PartialEq, Eq)]
pub enum CallWord {
    Alloc,
    Register,
    Delete,
    Store,
    Load,
    Write,
    Read,
    Notify,
    WriteNotify,
    ReadNotify,
    WriteList,
    WriteListNotify,
    ReadList,
    ReadListNotify,
    Wait,
    Purge,
    Qsize,
    Waitsome,
    Reset,
    PassiveSend,
    PassiveReceive,
    FetchAdd,
    CompareSwap,
    GroupCreate,
    GroupAdd,
    GroupDelete,
    Commit,
    Barrier,
    Allreduce,
    Create,
    State,
}

/// How a call's word is spelled, and its form: the kinds of the fields that follow, a timeout aside.
#[derive(Clone, Copy)]
struct WordRow {
    spelling: &'static [u8],
    form: &'static [Field],
}

impl WordRow {
    /// A spelling with its form.
    fn new(spelling: &'static [u8], form: &'static [Field]) -> WordRow
        ensures spelling { result.spelling.now ≡ spelling.now }
        ensures form { result.form.now ≡ form.now }
    {
        WordRow { spelling, form }
    }
}

/// The first of `words` with this spelling, or None.
fn first_spelled(words: &[CallWord], spelling: &[u8]) -> Option<CallWord>
    ensures { result ≡ find (λ call. bytes_eq (spelling_of call) spelling.now) words.now }
{
    words
        .iter()
        .copied()
        .find(|call| call.spelling() == spelling)
}

impl CallWord {
    /// The spelling of this word and its form.
    fn row(self) -> WordRow
        ensures spelling { result.spelling.now ≡ spelling_of self }
        ensures form { result.form.now ≡ form_of self }
    {
        match self {
            CallWord::Alloc => WordRow::new(b"alloc", &[Number; 2]),
            CallWord::Register => WordRow::new(b"register", &[Number; 2]),
            CallWord::Delete => WordRow::new(b"delete", &[Number]),
            CallWord::Store => WordRow::new(b"store", &[Number, Number, Bytes]),
            CallWord::Load => WordRow::new(b"load", &[Number; 3]),
            CallWord::Write => WordRow::new(b"write", &[Number; 7]),
            CallWord::Read => WordRow::new(b"read", &[Number; 7]),
            CallWord::Notify => WordRow::new(b"notify", &[Number, Number, Number, Value, Number]),
            CallWord::WriteNotify => WordRow::new(
                b"write_notify",
                &[
                    Number, Number, Number, Number, Number, Number, Number, Value, Number,
                ],
            ),
            CallWord::ReadNotify => WordRow::new(b"read_notify", &[Number; 8]),
            CallWord::WriteList => WordRow::new(b"write_list", &[Number, Number, Items]),
            CallWord::WriteListNotify => WordRow::new(
                b"write_list_notify",
                &[Number, Number, Number, Number, Value, Items],
            ),
            CallWord::ReadList => WordRow::new(b"read_list", &[Number, Number, Items]),
            CallWord::ReadListNotify => WordRow::new(
                b"read_list_notify",
                &[Number, Number, Number, Number, Items],
            ),
            CallWord::Wait => WordRow::new(b"wait", &[Number]),
            CallWord::Purge => WordRow::new(b"purge", &[Number]),
            CallWord::Qsize => WordRow::new(b"qsize", &[Number]),
            CallWord::Waitsome => WordRow::new(b"waitsome", &[Number; 3]),
            CallWord::Reset => WordRow::new(b"reset", &[Number; 2]),
            CallWord::PassiveSend => WordRow::new(b"passive_send", &[Number; 4]),
            CallWord::PassiveReceive => WordRow::new(b"passive_receive", &[Number; 3]),
            CallWord::FetchAdd => WordRow::new(b"fetch_add", &[Number; 4]),
            CallWord::CompareSwap => WordRow::new(b"compare_swap", &[Number; 5]),
            CallWord::GroupCreate => WordRow::new(b"group_create", &[]),
            CallWord::GroupAdd => WordRow::new(b"group_add", &[Number; 2]),
            CallWord::GroupDelete => WordRow::new(b"group_delete", &[Number]),
            CallWord::Commit => WordRow::new(b"commit", &[Number]),
            CallWord::Barrier => WordRow::new(b"barrier", &[Number]),
            CallWord::Allreduce => WordRow::new(b"allreduce", &[Number, Operation, Elements]),
            CallWord::Create => WordRow::new(b"create", &[Number; 3]),
            CallWord::State => WordRow::new(b"state", &[]),
        }
    }

    /// The spelling of this word.
    pub fn spelling(self) -> &'static [u8]
        ensures { result.now ≡ spelling_of self }
    {
        self.row().spelling
    }

    /// The words whose spelling has `count` bytes.
    #[tactic(auto, unfolding(crate::specs::CallText::words_of_length))]
    fn of_length(count: usize) -> &'static [CallWord]
        ensures { result.now ≡ words_of_length count }
    {
        match count {
            4 => &[CallWord::Load, CallWord::Read, CallWord::Wait],
            5 => &[
                CallWord::Alloc,
                CallWord::Store,
                CallWord::Write,
                CallWord::Purge,
                CallWord::Qsize,
                CallWord::Reset,
                CallWord::State,
            ],
            6 => &[
                CallWord::Delete,
                CallWord::Notify,
                CallWord::Commit,
                CallWord::Create,
            ],
            7 => &[CallWord::Barrier],
            8 => &[CallWord::Register, CallWord::Waitsome],
            9 => &[
                CallWord::ReadList,
                CallWord::FetchAdd,
                CallWord::GroupAdd,
                CallWord::Allreduce,
            ],
            10 => &[CallWord::WriteList],
            11 => &[CallWord::ReadNotify],
            12 => &[
                CallWord::WriteNotify,
                CallWord::PassiveSend,
                CallWord::CompareSwap,
                CallWord::GroupCreate,
                CallWord::GroupDelete,
            ],
            15 => &[CallWord::PassiveReceive],
            16 => &[CallWord::ReadListNotify],
            17 => &[CallWord::WriteListNotify],
            _ => &[],
        }
    }

    /// The call's word with this spelling, or None.
    pub fn of(word: &[u8]) -> Option<CallWord>
        ensures { result ≡ call_word_of word.now }
    {
        first_spelled(CallWord::of_length(word.len()), word)
    }

    /// Whether its form has items or elements.
    fn takes_items(self) -> bool
        ensures { result ≡ takes_items self }
    {
        matches!(
            self,
            CallWord::WriteList
                | CallWord::WriteListNotify
                | CallWord::ReadList
                | CallWord::ReadListNotify
                | CallWord::Allreduce
        )
    }

    /// Whether `words` are as many as follow this word: those of its fields, and one for a timeout where its call takes one.
    /// None where the number of items or elements does not have the form of a number.
    #[tactic(auto, using(crate::proofs::FormCounts::plain_count))]
    pub fn has_count(self, words: &[&[u8]]) -> Option<bool>
        ensures { result ≡ option_map (λ count. length words.now == count) (given_count self (map (λ word. word.now) words.now)) }
    {
        let timeouts = if self.takes_timeout() { 1 } else { 0 };
        let form = self.row().form;
        if self.takes_items() {
            return are_counted(form, words, timeouts);
        }
        Some(words.len() == form.len() + timeouts)
    }

    /// Whether its call takes a timeout. (GASPI: timeouts)
    pub fn takes_timeout(self) -> bool
        ensures { result ≡ has_timeout self }
    {
        matches!(
            self,
            CallWord::Wait
                | CallWord::Waitsome
                | CallWord::PassiveSend
                | CallWord::PassiveReceive
                | CallWord::Commit
                | CallWord::Barrier
                | CallWord::Allreduce
                | CallWord::Create
        )
    }
}
