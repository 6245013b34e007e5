//! Passes that raise two counters over one commit table, on one thread: shards taken and missed, looks, and notes.

use commit_table::{
    CommitTable, CounterAnswer, CounterTable, carry, close_counters, raise, raise_both_held,
    raise_held, start_counters,
};
use std::alloc::Global;
use std::test::Fail;

#[test]
fn two_counters(rt: HostRuntime) -> Result<(), Fail> {
    let alloc: Global = rt.alloc();
    let CounterTable {
        table,
        mut first,
        mut second,
    } = start_counters(alloc)?;
    let Some(value) = table.try_take(&mut first, 0) else {
        panic!(rt; "the first counter was held")
    };
    let outcome = raise(&table, &mut second, 1);
    assert!(rt; matches!(outcome, CounterAnswer::Done(0)));
    assert!(rt; value == 0);
    let place = raise_held(&table, &mut first, 0, value);
    assert!(rt; place == 1);
    let ended = close_counters(alloc, table, first, second)?;
    assert!(rt; ended.tally.events() == 2 && ended.shards.as_slice() == [1, 1].as_slice());
    Ok(())
}

#[test]
fn a_miss_gives_back_what_was_taken(rt: HostRuntime) -> Result<(), Fail> {
    let alloc: Global = rt.alloc();
    let CounterTable {
        table,
        mut first,
        mut second,
    } = start_counters(alloc)?;
    let outcome = carry(&table, &mut first);
    assert!(rt; matches!(outcome, CounterAnswer::Stuck));
    let Some(value) = table.try_take(&mut second, 1) else {
        panic!(rt; "the second counter was held")
    };
    let outcome = carry(&table, &mut first);
    assert!(rt; matches!(outcome, CounterAnswer::Busy));
    let misses = (
        CommitTable::misses(&first, 0),
        CommitTable::misses(&first, 1),
    );
    assert!(rt; misses == (0, 1));
    table.give_back(&mut second, 1, value);
    let outcome = raise(&table, &mut second, 0);
    assert!(rt; matches!(outcome, CounterAnswer::Done(0)));
    let outcome = carry(&table, &mut first);
    assert!(rt; matches!(outcome, CounterAnswer::Done(1)));
    let ended = close_counters(alloc, table, first, second)?;
    assert!(rt; ended.tally.events() == 2 && ended.shards.as_slice() == [0, 1].as_slice());
    Ok(())
}

#[test]
fn one_look_serves_two_events(rt: HostRuntime) -> Result<(), Fail> {
    let alloc: Global = rt.alloc();
    let CounterTable {
        table,
        mut first,
        second,
    } = start_counters(alloc)?;
    let Some(one) = table.try_take(&mut first, 0) else {
        panic!(rt; "the first counter was held")
    };
    let Some(two) = table.try_take(&mut first, 1) else {
        panic!(rt; "the second counter was held")
    };
    assert!(rt; one == 0 && two == 0);
    let place = raise_both_held(&table, &mut first, one, two);
    let ended = close_counters(alloc, table, first, second)?;
    assert!(rt; place == 1 && ended.tally.events() == 2);
    assert!(rt; ended.shards.as_slice() == [1, 1].as_slice());
    Ok(())
}

#[test]
fn a_note_tells_what_was_seen(rt: HostRuntime) -> Result<(), Fail> {
    let alloc: Global = rt.alloc();
    let CounterTable {
        table,
        mut first,
        mut second,
    } = start_counters(alloc)?;
    let outcome = raise(&table, &mut first, 0);
    assert!(rt; matches!(outcome, CounterAnswer::Done(0)));
    let note = table.note(&mut first);
    table.learn(&mut second, note);
    let number = CommitTable::number(&second);
    let seen = table.look(&mut second);
    assert!(rt; seen == 1 && number == 1);
    let _ = table.start();
    let ended = close_counters(alloc, table, first, second)?;
    assert!(rt; ended.tally.events() == 1);
    Ok(())
}
