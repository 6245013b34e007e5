//! Laws of the words of the program, by example. A law is the contract of a function that does nothing.

ghost use Rattle.std.specs.Prelude.{◌≡◌, [], ◌∷◌, Some, None, codes};
ghost use Rattle.journal_view.specs.Words.{picture_of};

use crate::words::Picture;

/// These words are accepted.
#[tactic(auto, unfolding(crate::specs::Words::picture_of, clap::proofs::OnLiterals::clap_on_literals))]
pub fn words_that_are_accepted()
    ensures sequence { picture_of (codes "--sequence" ∷ []) ≡ Some Picture.Sequence }
    ensures trace { picture_of (codes "--trace" ∷ []) ≡ Some Picture.Trace }
    ensures dashes { picture_of (codes "--sequence" ∷ codes "--" ∷ []) ≡ Some Picture.Sequence }
{}

/// These words are refused: no flag, both of them, an unknown one, a flag given twice or with a value, a word that is no flag,
/// and help and version.
#[tactic(auto, unfolding(crate::specs::Words::picture_of, clap::proofs::OnLiterals::clap_on_literals))]
pub fn words_that_are_refused()
    ensures nothing { picture_of [] ≡ None }
    ensures empty_word { picture_of ([] ∷ []) ≡ None }
    ensures dashes { picture_of (codes "--" ∷ []) ≡ None }
    ensures word { picture_of (codes "sequence" ∷ []) ≡ None }
    ensures both { picture_of (codes "--sequence" ∷ codes "--trace" ∷ []) ≡ None }
    ensures both_turned { picture_of (codes "--trace" ∷ codes "--sequence" ∷ []) ≡ None }
    ensures other_flag { picture_of (codes "--picture" ∷ []) ≡ None }
    ensures longer_flag { picture_of (codes "--sequences" ∷ []) ≡ None }
    ensures twice { picture_of (codes "--sequence" ∷ codes "--sequence" ∷ []) ≡ None }
    ensures trace_twice { picture_of (codes "--trace" ∷ codes "--trace" ∷ []) ≡ None }
    ensures with_value { picture_of (codes "--sequence=true" ∷ []) ≡ None }
    ensures word_behind { picture_of (codes "--sequence" ∷ codes "x" ∷ []) ≡ None }
    ensures help { picture_of (codes "--help" ∷ []) ≡ None }
    ensures short_help { picture_of (codes "-h" ∷ []) ≡ None }
    ensures version { picture_of (codes "--version" ∷ []) ≡ None }
    ensures short_version { picture_of (codes "-V" ∷ []) ≡ None }
{}
