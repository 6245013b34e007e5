//! The words with which replies begin, and those of the stages in them, both ways.

ghost use Rattle.std.specs.Prelude.{◌≡◌};
ghost use Rattle.gaspi_texts.specs.CollectiveText.{stage_word, stage_of};
ghost use Rattle.gaspi_texts.specs.ReplyText.{reply_spelling, reply_word_of};

use gaspi_types::Stage;

/// The word with which a reply's text begins.
#[derive(Clone, Copy, Debug, PartialEq, Eq)]
pub(crate) enum ReplyWord {
    Done,
    Value,
    Id,
    Bytes,
    Mask,
    List,
    Timeout,
    Refused,
}

impl ReplyWord {
    /// The spelling of this word.
    pub(crate) fn spelling(self) -> &'static [u8]
        ensures { result.now ≡ reply_spelling self }
    {
        match self {
            ReplyWord::Done => b"done",
            ReplyWord::Value => b"value",
            ReplyWord::Id => b"id",
            ReplyWord::Bytes => b"bytes",
            ReplyWord::Mask => b"mask",
            ReplyWord::List => b"list",
            ReplyWord::Timeout => b"timeout",
            ReplyWord::Refused => b"refused",
        }
    }

    /// The reply's word with this spelling, or None.
    #[tactic(auto, unfolding(crate::specs::ReplyText::reply_word_of))]
    pub(crate) fn of(word: &[u8]) -> Option<ReplyWord>
        ensures { result ≡ reply_word_of word.now }
    {
        [
            ReplyWord::Done,
            ReplyWord::Value,
            ReplyWord::Id,
            ReplyWord::Bytes,
            ReplyWord::Mask,
            ReplyWord::List,
            ReplyWord::Timeout,
            ReplyWord::Refused,
        ]
        .iter()
        .copied()
        .find(|reply| reply.spelling() == word)
    }
}

/// The word of a stage.
pub(crate) fn stage_word(stage: Stage) -> &'static [u8]
    ensures { result.now ≡ stage_word stage }
{
    match stage {
        Stage::Building => b"building",
        Stage::Committed => b"committed",
    }
}

/// The stage with this word, or None.
#[tactic(auto, unfolding(crate::specs::CollectiveText::stage_of))]
pub(crate) fn read_stage(word: &[u8]) -> Option<Stage>
    ensures { result ≡ stage_of word.now }
{
    [Stage::Building, Stage::Committed]
        .iter()
        .copied()
        .find(|stage| stage_word(*stage) == word)
}
