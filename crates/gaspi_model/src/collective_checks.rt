//! The checks of collectives that do not read the pending collective; `pendings.rt` has the one that does. (GASPI: collectives,
//! allreduce)

ghost use Rattle.std.specs.Prelude.{◌≡◌, Option, Some, OnOk};
ghost use Rattle.gaspi_types.specs.Collectives.{count_checks, type_checks, fits};
ghost use Rattle.gaspi_types.specs.declared.collectives.Coll.{Coll};
ghost use Rattle.gaspi_types.specs.declared.groups.Contribution.{Contribution};
ghost use Rattle.gaspi_model.specs.RoundRules.{coll_in};

use crate::comparisons::same_coll;
use gaspi_types::{Coll, NumType, Refusal};

/// An allreduce has 1 to 255 elements, else `BadCount`. (GASPI: allreduce)
pub fn check_count(count: u64) -> Result<(), Refusal>
    ensures { result ≡ count_checks count }
{
    if 1 <= count && count <= 255 {
        Ok(())
    } else {
        Err(Refusal::BadCount)
    }
}

/// An allreduce is of whole numbers, else `FloatType`. (GASPI: allreduce)
pub fn check_type(num_type: NumType) -> Result<(), Refusal>
    ensures { result ≡ type_checks num_type }
{
    match num_type {
        NumType::Int | NumType::Uint | NumType::Long | NumType::Ulong => Ok(()),
        NumType::Float | NumType::Double => Err(Refusal::FloatType),
    }
}

/// A collective fits a round where it is, values aside, what the members have contributed to it, else `CollectiveMismatch` with
/// `first`. `first` is the contribution of the first member, in the order of ranks, that has contributed, or None where none
/// has. (GASPI: collectives)
pub fn check_fits(first: Option<Coll>, coll: Coll) -> Result<(), Refusal>
    ensures answer { (given : Option Contribution) → coll_in given ≡ first → result ≡ fits given coll }
    ensures equal { OnOk result ((kept : Coll) → first ≡ Some kept → kept ≡ coll) }
{
    match first {
        Some(kept) if !same_coll(kept, coll) => Err(Refusal::CollectiveMismatch { kept }),
        _ => Ok(()),
    }
}
