//! Sets of ranks as one number, a mask: bit r for rank r.

ghost use Rattle.std.specs.Prelude.{◌≡◌, ◌≤◌, ◌<◌, ◌^◌, length};
ghost use Rattle.gaspi_types.specs.Masks.{mask_of, is_member, with_member, all_below};

use crate::ids::RankId;

/// The set of the ranks that are marked: bit r is the mark of rank r, of at most 32 marks. (GASPI: state vector)
pub fn mask_of(marks: &[bool]) -> u32
    requires { length marks.now ≤ 32 }
    ensures mask { result ≡ mask_of marks.now }
    ensures bound { result < 2 ^ length marks.now }
{
    match marks {
        [] => 0,
        [mark, others @ ..] => u32::from(*mark) + 2 * mask_of(others),
    }
}

/// Whether a rank is in a set. (GASPI: groups)
pub fn is_member(mask: u32, rank: RankId) -> bool
    ensures { result ≡ is_member mask rank }
{
    (mask >> rank.number()) & 1 == 1
}

/// The set with a rank added; the same set where the rank is in it. (GASPI: groups)
pub fn with_member(mask: u32, rank: RankId) -> u32
    ensures { result ≡ with_member mask rank }
{
    mask | (1 << rank.number())
}

/// The set of the ranks below a number, which is at most 16. (GASPI: groups)
pub fn all_below(ranks: u32) -> u32
    requires { ranks ≤ 16 }
    ensures { result ≡ all_below ranks }
{
    (1 << ranks) - 1
}
