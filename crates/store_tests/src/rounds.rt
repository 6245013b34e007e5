//! The rounds of one group: a sum over two members, and a group commit with a segment made.

use collective_engine::{Rounds, check_count, check_type};
use gaspi_types::{
    Args, BoxedSequence, Coll, MemberSegment, NoMemory, NumType, Numbers, Op, RankId,
};
use std::alloc::Global;
use std::test::Fail;

/// A group that no rank has joined.
fn opening(alloc: Global, members: Option<u32>) -> Result<Rounds, NoMemory> {
    Rounds::new(alloc, members)
}

/// Whether a rank joins its round with a sum of one number.
fn adds(alloc: Global, rounds: &mut Rounds, rank: RankId, number: i32) -> Result<bool, NoMemory> {
    let items = BoxedSequence::copied_from(alloc, &[i128::from(number)])?;
    let args = Args {
        coll: Coll::Allreduce(Op::Sum, NumType::Int, 1),
        values: Numbers::new(NumType::Int, items),
    };
    let is_allowed = check_count(1).is_ok() && check_type(NumType::Int).is_ok();
    let may = rounds.may_join(rank, args.coll);
    Ok(is_allowed && may && rounds.join(rank, &args, 0).is_ok())
}

/// Whether a rank joins its round with the commit of a list, which fits.
fn commits(rounds: &mut Rounds, rank: RankId, mask: u32) -> bool {
    let args = Args {
        coll: Coll::Commit(mask),
        values: Numbers::new(NumType::Int, BoxedSequence::new()),
    };
    let fits = rounds.may_join(rank, args.coll) && rounds.fits(rank, &args).is_ok();
    fits && rounds.join(rank, &args, 0).is_ok()
}

/// Whether a rank joins its round with a segment that it made in a generation.
fn creates(rounds: &mut Rounds, rank: RankId, generation: u32) -> bool {
    let args = Args {
        coll: Coll::Create(0, 8),
        values: Numbers::new(NumType::Int, BoxedSequence::new()),
    };
    rounds.may_join(rank, args.coll) && rounds.join(rank, &args, generation).is_ok()
}

/// Whether every member has joined the round of a rank.
fn is_full(rounds: &Rounds, rank: RankId) -> bool {
    rounds.full(rank)
}

/// Whether a rank leaves its round, which is full.
fn leaves(rounds: &mut Rounds, rank: RankId) -> bool {
    let may = rounds.is_member(rank) && rounds.full(rank);
    if may {
        rounds.leave(rank);
    }
    may
}

/// Whether the reduction of the round of a rank is that one number.
fn comes_to(alloc: Global, rounds: &Rounds, rank: RankId, number: i128) -> Result<bool, NoMemory> {
    let room = BoxedSequence::copied_from(alloc, &[0])?;
    let is_full = rounds.is_member(rank) && rounds.full(rank);
    if !is_full || rounds.elements(rank) != Some(1) {
        return Ok(false);
    }
    let total = rounds.result(rank, room);
    Ok(total.num_type() == NumType::Int && total.items() == [number].as_slice())
}

/// Whether the round of a rank has one member's segment, of that rank and generation.
fn has_made(rounds: &Rounds, rank: RankId, generation: u32) -> bool {
    let made = [MemberSegment { rank, generation }];
    rounds.is_member(rank) && rounds.generations(rank).as_slice() == made.as_slice()
}

/// Whether both ranks join the first round, which is full then and not before.
fn both_join(
    alloc: Global,
    rounds: &mut Rounds,
    fast: RankId,
    slow: RankId,
) -> Result<bool, NoMemory> {
    let first = adds(alloc, rounds, fast, 2_147_483_647)? && !is_full(rounds, fast);
    let second = adds(alloc, rounds, slow, 2)?;
    Ok(first && second && is_full(rounds, fast))
}

/// Whether a rank joins the next round, once it has left its first.
fn goes_on(alloc: Global, rounds: &mut Rounds, rank: RankId) -> Result<bool, NoMemory> {
    let left = leaves(rounds, rank);
    Ok(left && adds(alloc, rounds, rank, 2)?)
}

#[test]
fn slow_rank_gets_its_own_round(rt: HostRuntime) -> Result<(), Fail> {
    let alloc = rt.alloc();
    let (fast, slow) = (RankId::of(0), RankId::of(3));
    let mut rounds = opening(alloc, Some(0b1001))?;
    assert!(rt; both_join(alloc, &mut rounds, fast, slow)?);
    assert!(rt; goes_on(alloc, &mut rounds, fast)?);
    assert!(rt; comes_to(alloc, &rounds, slow, -2_147_483_647)?);
    Ok(())
}

#[test]
fn first_commit_fixes_the_members(rt: HostRuntime) -> Result<(), Fail> {
    let alloc = rt.alloc();
    let rank = RankId::of(2);
    let mut rounds = opening(alloc, None)?;
    assert!(rt; commits(&mut rounds, rank, 0b100));
    assert!(rt; leaves(&mut rounds, rank));
    assert!(rt; creates(&mut rounds, rank, 7));
    assert!(rt; has_made(&rounds, rank, 7));
    Ok(())
}
