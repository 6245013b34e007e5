//! Sets of targets, and of queues, as one number: bit r is 1 where rank r, or queue r, is in the set. The code marks nonempty lanes
//! and movable queues by them. (own choice)

ghost use Rattle.std.specs.Prelude.{◌≡◌, ◌≢◌, ℕ, ◌<◌, ◌≤◌, true, false, IfSome, IfNone};
ghost use Rattle.gaspi_types.specs.Masks.{is_member};
ghost use Rattle.post_queue.specs.LeastFrom.{AnswersLeast};

use gaspi_types::RankId;

/// The set with a number in it, or not in it, as `member` says. For every other number it is as before.
pub fn set_number(mask: u32, number: u32, member: bool) -> u32
    requires { number < 32 }
    ensures here { is_member result number ≡ member }
    ensures others { (other : ℕ) → other < 32 → other ≢ number → is_member result other ≡ is_member mask other }
{
    let bit = 1 << number;
    if member { mask | bit } else { mask & !bit }
}

/// The set with a target in it, or not in it, as `member` says. For every other target it is as before.
pub fn set_member(mask: u32, target: RankId, member: bool) -> u32
    ensures here { is_member result target ≡ member }
    ensures others { (other : ℕ) → other < 32 → other ≢ target → is_member result other ≡ is_member mask other }
{
    set_number(mask, target.number(), member)
}

/// The least target of a set of targets below 16. None exactly for the empty set.
pub fn first_member(mask: u32) -> Option<RankId>
    requires { (other : ℕ) → 16 ≤ other → other < 32 → is_member mask other ≡ false }
    ensures bound { IfSome result (λ target. target < 16) }
    ensures member { IfSome result (λ target. is_member mask target ≡ true) }
    ensures least { IfSome result (λ target. (other : ℕ) → other < target → is_member mask other ≡ false) }
    ensures none { IfNone result ((target : ℕ) → is_member mask target ≡ false) }
{
    if mask == 0 {
        return None;
    }
    Some(RankId::of(mask.trailing_zeros()))
}

/// The least number of a set from `from` on. None exactly where there is none.
pub fn member_from(mask: u32, from: u32) -> Option<u32>
    requires { from < 32 }
    ensures least { AnswersLeast (is_member mask) from result }
    ensures bound { IfSome result (λ number. number < 32) }
{
    let rest = mask >> from;
    if rest == 0 {
        return None;
    }
    Some(from + rest.trailing_zeros())
}
