//! Two counters that threads raise: the smallest machine for a table, for tests and as an example. Functions named `_held` ask that
//! the pass holds the counters, whose values they are given; the others take the counters first. All give them back.
ghost use Rattle.std.specs.Prelude.{◌≡◌, ◌≢◌, ℕ, ◌<◌, List, Some, None, MatchOption};
ghost use Rattle.commit_table.specs.declared.counters.CounterEvent.{CounterEvent};
ghost use Rattle.commit_table.specs.declared.counters.CounterEvent.TheVariants.{Raise, Carry};
ghost use Rattle.commit_table.specs.Views.{held_at};
ghost use Rattle.commit_table.specs.Counters.{most, counters};
ghost use Rattle.commit_table.specs.Calls.{IsOf, HoldsNone};
ghost use Rattle.commit_table.specs.Attempts.{IsCommittedOnce};
ghost use Rattle.commit_table.specs.Outcomes.{IsOutcome, RaisedBoth};

use crate::pass::Pass;
use crate::sharded::Sharded;
use crate::table::CommitTable;

/// The greatest value of a counter.
const MOST: u64 = 1_000_000;

/// An event of the counters.
#[derive(Drop)]
pub enum CounterEvent {
    /// The party of the first number raises the counter of the second number by 1.
    Raise(u32, u32),
    /// 1 goes from the first counter to the second. No party is named, so any pass may commit it.
    Carry,
}

/// The start of the machine: two counters, which are 0.
#[derive(Drop)]
pub struct Counters;

impl Sharded for Counters {
    type Shard = u64;

    type Event = CounterEvent;

    ghost use Rattle.commit_table.specs.Counters.{counters};
    ghost use Rattle.commit_table.specs.CounterLaws.{counters_lawful};

    ghost machine = { λ start. counters };

    ghost lawful = { λ start. counters_lawful };
}

/// Raises a counter that the pass holds by 1, after a look, and gives it back. `value` is the value of the counter, and below
/// 1,000,000. The place of the event is answered.
pub fn raise_held(
    table: &CommitTable<Counters>,
    pass: &mut Pass<Counters>,
    counter: u32,
    value: u64,
) -> u64
    requires pass { IsOf table.now pass.old }
    requires counter { counter < 2 }
    requires held { (g : List CounterEvent) × (held_at pass.old.known.held counter ≡ Some g) × counters.Stands counter value g }
    requires room { value < most }
    ensures table { pass.new.table ≡ pass.old.table }
    ensures told { (p : ℕ) × (pass.old.known.party ≡ Some p) × IsCommittedOnce counters pass.old.known (Raise p counter) result pass.new.known }
    ensures given { held_at pass.new.known.held counter ≡ None }
    ensures others { (i : ℕ) → i ≢ counter → held_at pass.new.known.held i ≡ held_at pass.old.known.held i }
{
    let _ = table.look(pass);
    let deal = CounterEvent::Raise(CommitTable::number(pass), counter);
    let place = table.commit(pass, &deal);
    table.give_back(pass, counter, value + 1);
    place
}

/// What an attempt to raise a counter, or to carry, came to. No counter is held after it.
#[derive(Drop)]
pub enum CounterAnswer {
    /// The event was committed at this place.
    Done(u64),
    /// A counter of the attempt was missed, since another pass held it: of a raise the one to be raised, of a carry either. No look
    /// was made, and what was taken before was given back as it was.
    Busy,
    /// No such event may follow what was seen: of a raise the counter is at 1,000,000, of a carry the first is at 0 or the second at
    /// 1,000,000. Nothing was done but a look, while the counters were held.
    Stuck,
}

/// Takes a counter, raises it by 1 where it is below 1,000,000, and gives it back.
pub fn raise(
    table: &CommitTable<Counters>,
    pass: &mut Pass<Counters>,
    counter: u32,
) -> CounterAnswer
    requires pass { IsOf table.now pass.old }
    requires counter { counter < 2 }
    requires free { HoldsNone pass.old.known }
    ensures table { pass.new.table ≡ pass.old.table }
    ensures free { HoldsNone pass.new.known }
    ensures told { IsOutcome (λ i. i ≡ counter) (λ e. (p : ℕ) × (e ≡ Raise p counter) × (pass.old.known.party ≡ Some p)) pass.old.known result pass.new.known }
{
    let Some(value) = table.try_take(pass, counter) else {
        return CounterAnswer::Busy;
    };
    if value < MOST {
        return CounterAnswer::Done(raise_held(table, pass, counter, value));
    }
    table.look(pass);
    table.give_back(pass, counter, value);
    CounterAnswer::Stuck
}

/// Raises both counters by 1, which the pass holds, and gives them back. `first` and `second` are their values, both below 1,000,000.
/// One look serves both events, since the first commit leaves the other counter as it is held. The place of the second event is
/// answered.
pub fn raise_both_held(
    table: &CommitTable<Counters>,
    pass: &mut Pass<Counters>,
    first: u64,
    second: u64,
) -> u64
    requires pass { IsOf table.now pass.old }
    requires first { (g : List CounterEvent) × (held_at pass.old.known.held 0 ≡ Some g) × counters.Stands 0 first g }
    requires second { (g : List CounterEvent) × (held_at pass.old.known.held 1 ≡ Some g) × counters.Stands 1 second g }
    requires room { (first < most) × (second < most) }
    requires others { (i : ℕ) → 1 < i → held_at pass.old.known.held i ≡ None }
    ensures table { pass.new.table ≡ pass.old.table }
    ensures told { (p : ℕ) × (pass.old.known.party ≡ Some p) × RaisedBoth pass.old.known p result pass.new.known }
    ensures free { HoldsNone pass.new.known }
{
    table.look(pass);
    let party = CommitTable::number(pass);
    let _ = table.commit(pass, &CounterEvent::Raise(party, 0));
    table.give_back(pass, 0, first + 1);
    let place = table.commit(pass, &CounterEvent::Raise(party, 1));
    table.give_back(pass, 1, second + 1);
    place
}

/// Carries 1 from the first counter, which is above 0, to the second, which is below 1,000,000, after a look, and gives both back: for
/// `carry`. `first` and `second` are their values. The place of the event is answered.
fn carry_held(
    table: &CommitTable<Counters>,
    pass: &mut Pass<Counters>,
    first: u64,
    second: u64,
) -> u64
    requires pass { IsOf table.now pass.old }
    requires first { (g : List CounterEvent) × (held_at pass.old.known.held 0 ≡ Some g) × counters.Stands 0 first g }
    requires second { (g : List CounterEvent) × (held_at pass.old.known.held 1 ≡ Some g) × counters.Stands 1 second g }
    requires room { (0 < first) × (second < most) }
    requires others { (i : ℕ) → 1 < i → held_at pass.old.known.held i ≡ None }
    ensures table { pass.new.table ≡ pass.old.table }
    ensures free { HoldsNone pass.new.known }
    ensures told { IsCommittedOnce counters pass.old.known Carry result pass.new.known }
{
    table.look(pass);
    let place = table.commit(pass, &CounterEvent::Carry);
    table.give_back(pass, 1, second + 1);
    table.give_back(pass, 0, first - 1);
    place
}

/// Takes both counters, carries 1 from the first to the second where that is possible, and gives them back.
pub fn carry(table: &CommitTable<Counters>, pass: &mut Pass<Counters>) -> CounterAnswer
    requires pass { IsOf table.now pass.old }
    requires free { HoldsNone pass.old.known }
    ensures table { pass.new.table ≡ pass.old.table }
    ensures free { HoldsNone pass.new.known }
    ensures told { IsOutcome (λ i. i < 2) (λ e. e ≡ Carry) pass.old.known result pass.new.known }
{
    let Some(first) = table.try_take(pass, 0) else {
        return CounterAnswer::Busy;
    };
    let Some(second) = table.try_take(pass, 1) else {
        table.give_back(pass, 0, first);
        return CounterAnswer::Busy;
    };
    if first > 0 && second < MOST {
        return CounterAnswer::Done(carry_held(table, pass, first, second));
    }
    table.look(pass);
    table.give_back(pass, 1, second);
    table.give_back(pass, 0, first);
    CounterAnswer::Stuck
}
