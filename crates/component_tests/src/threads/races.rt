//! Two threads that raise counters of one commit table, each its own or both the same.

use commit_table::raised_by_two;
use std::test::Fail;

#[test]
fn two_threads_raise_counters_of_their_own(rt: HostRuntime) -> Result<(), Fail> {
    let ended = raised_by_two(&rt, rt.alloc(), 0, 1, 10_000)?;
    assert!(rt; ended.tally.events() == 20_000);
    assert!(rt; ended.shards.as_slice() == [10_000, 10_000].as_slice());
    Ok(())
}

#[test]
fn two_threads_raise_one_counter(rt: HostRuntime) -> Result<(), Fail> {
    let ended = raised_by_two(&rt, rt.alloc(), 1, 1, 10_000)?;
    assert!(rt; ended.tally.events() == 20_000);
    assert!(rt; ended.shards.as_slice() == [0, 20_000].as_slice());
    Ok(())
}
