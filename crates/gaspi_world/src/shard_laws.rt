//! Laws of the machine in shards, for any numbering of the parts, and of rank journals: the contracts of functions that do nothing.

ghost use Rattle.std.specs.Prelude.{◌≡◌, ℕ, ◌<◌, ◌++◌, ◌∷◌, [], List, eqb, true, false, length, Ok, Some, slice_get};
ghost use Rattle.std.specs.List.{list_any};
ghost use Rattle.gaspi_types.specs.World.{ShapeValue, IsShape};
ghost use Rattle.gaspi_types.specs.declared.events.Event.{Event};
ghost use Rattle.gaspi_model.specs.Shards.{numbers_of};
ghost use Rattle.gaspi_model.specs.Step.{is_legal, owner_of, reached};
ghost use Rattle.gaspi_model.specs.declared.states.Posts.{Posts};
ghost use Rattle.gaspi_model.specs.declared.states.Shard.TheVariants as parts;
ghost use Rattle.gaspi_model.specs.declared.states.State.{State};
ghost use Rattle.gaspi_world.specs.Grains.{Numbers};
ghost use Rattle.gaspi_world.specs.Numbering.{Numbering, by_ranks};
ghost use Rattle.gaspi_world.specs.RankJournals.{journal_of};
ghost use Rattle.gaspi_world.specs.ShardMachine.{state_after, SameAt, AgreeAt};

/// An event changes no shard but its own (`frame`). Whether it may follow a history, and what it makes of a shard, depends on its
/// shards alone (`follows`, `determined`). Its owner's shard is one of them (`owned`), and which they are depends on that one alone
/// (`same`).
pub fn shard_histories()
    ensures frame { (n : Numbering) (w : ShapeValue) (h : List Event) (e : Event) (i : ℕ) → is_legal w (h ++ e ∷ []) ≡ true → list_any (eqb i) (numbers_of n.number (state_after w h) e) ≡ false → AgreeAt n w i h (h ++ e ∷ []) }
    ensures follows { (n : Numbering) (w : ShapeValue) (h k : List Event) (e : Event) → is_legal w (h ++ e ∷ []) ≡ true → is_legal w k ≡ true
        → ((i : ℕ) → list_any (eqb i) (numbers_of n.number (state_after w h) e) ≡ true → AgreeAt n w i h k) → is_legal w (k ++ e ∷ []) ≡ true }
    ensures determined { (n : Numbering) (w : ShapeValue) (h k : List Event) (e : Event) (i : ℕ) → is_legal w (h ++ e ∷ []) ≡ true → is_legal w k ≡ true
        → ((j : ℕ) → list_any (eqb j) (numbers_of n.number (state_after w h) e) ≡ true → AgreeAt n w j h k) → SameAt n w i (state_after w h) (state_after w k) → SameAt n w i (state_after w (h ++ e ∷ [])) (state_after w (k ++ e ∷ [])) }
    ensures owned { (n : Numbering) (w : ShapeValue) (h : List Event) (e : Event) → list_any (eqb (n.number (parts.Posts (owner_of e)))) (numbers_of n.number (state_after w h) e) ≡ true }
    ensures same { (n : Numbering) (w : ShapeValue) (h k : List Event) (e : Event) → is_legal w h ≡ true → is_legal w k ≡ true → AgreeAt n w (n.number (parts.Posts (owner_of e))) h k
        → numbers_of n.number (state_after w h) e ≡ numbers_of n.number (state_after w k) e }
{}

/// Where a numbering gives each part a number below its count of shards, the shards of each event are below that count too (`within`).
/// The numbering by ranks is such a numbering (`ranks`).
pub fn shard_numbers()
    ensures within { (w : ShapeValue) (n : Numbering) (h : List Event) (e : Event) (i : ℕ) → Numbers w.limits.ranks n → is_legal w h ≡ true → owner_of e < w.limits.ranks
        → list_any (eqb i) (numbers_of n.number (state_after w h) e) ≡ true → i < n.shards }
    ensures ranks { (w : ShapeValue) → Numbers w.limits.ranks (by_ranks w) }
{}

/// After a legal history the rank journal of a rank has as many events as the state counts for that rank.
pub fn journal_lengths()
    ensures { (w : ShapeValue) (h : List Event) (s : State) (rank : ℕ) (posts : Posts) → IsShape w → reached w h ≡ Ok s → slice_get s.posts rank ≡ Some posts → length (journal_of rank h) ≡ posts.events }
{}
