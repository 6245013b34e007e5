//! Laws of the bench numbers: what they are where every script of the world of `bench` ran to its end. A law is the contract of
//! a function that does nothing.

ghost use Rattle.std.specs.Prelude.{◌≡◌, ℕ, ◌+◌, ◌-◌, ◌*◌, ◌<◌, List, Some, count_by};
ghost use Rattle.gaspi_types.specs.declared.events.Event.{Event};
ghost use Rattle.rank_script.specs.Bench.{bench_draw, left_of};
ghost use Rattle.call_journal.specs.Numbers.{is_call, is_found_reset, is_transfer, words_until};
ghost use Rattle.plain_machine.specs.Words.{word_in};
ghost use Rattle.call_journal.specs.Laws.{RanToTheEnd, draws_until};

/// The recorded calls: seven of each rank in each bench round, and its end.
pub fn bench_calls()
    ensures { (seed ranks rounds : ℕ) (journal : List Event) → RanToTheEnd seed ranks rounds journal → count_by is_call journal ≡ ranks * (7 * rounds + 1) }
{}

/// The resets that found a notification: one of each rank in each bench round.
pub fn bench_notifications()
    ensures { (seed ranks rounds : ℕ) (journal : List Event) → RanToTheEnd seed ranks rounds journal → count_by is_found_reset journal ≡ ranks * rounds }
{}

/// The transfers: each rank posts a write and a notification in each bench round, and each of these is taken and put.
pub fn bench_transfers()
    ensures { (seed ranks rounds : ℕ) (journal : List Event) → RanToTheEnd seed ranks rounds journal → count_by is_transfer journal ≡ 4 * ranks * rounds }
{}

/// The memory words at offset 8 of segment 0: that of each rank is the number that its left neighbour sent in the last bench
/// round, so their sum is that of all numbers of the last bench round.
pub fn bench_words()
    ensures each { (seed ranks rounds : ℕ) (journal : List Event) (ran : RanToTheEnd seed ranks rounds journal) (rank : ℕ) → rank < ranks
        → word_in ran.state rank 0 8 ≡ Some (bench_draw seed ranks (rounds - 1) (left_of ranks rank)) }
    ensures sum { (seed ranks rounds : ℕ) (journal : List Event) (ran : RanToTheEnd seed ranks rounds journal)
        → words_until ran.state ranks ≡ draws_until seed ranks (rounds - 1) ranks }
{}
