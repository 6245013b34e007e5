//! Whether a join has its own values: those of its collective, and no others. (GASPI: allreduce)

ghost use Rattle.std.specs.Prelude.{◌≡◌, ◌↔◌, ◌==◌, IsTrue, length};
ghost use Rattle.gaspi_types.specs.Collectives.{AreValuesOf};
ghost use Rattle.gaspi_types.specs.declared.collectives.NumType.{NumType};
ghost use Rattle.gaspi_texts.specs.EventText.{HasOwnValues};

use gaspi_types::{Coll, Event, NumType, Numbers};

/// Whether numbers are of a type, and `count` in all.
fn have_type_and_count(values: &Numbers, num_type: NumType, count: u32) -> bool
    ensures { IsTrue result ↔ ((values.now.num_type ≡ num_type) × (length values.now.items ≡ count)) }
{
    values.num_type() == num_type && values.items().len() == count as usize
}

/// Whether values are those of a collective: as many of its type as an allreduce says, and for any other none.
fn are_values_of(coll: Coll, values: &Numbers) -> bool
    ensures { IsTrue result ↔ AreValuesOf coll values.now }
{
    match coll {
        Coll::Allreduce(_, num_type, count) => have_type_and_count(values, num_type, count),
        Coll::Barrier => have_type_and_count(values, NumType::Int, 0),
        Coll::Create(_, _) => have_type_and_count(values, NumType::Int, 0),
        Coll::Commit(_) => have_type_and_count(values, NumType::Int, 0),
    }
}

/// Whether an event, if it is a join, has the values of its collective. Then its numbers are in the ranges of their types.
pub fn has_own_values(event: &Event) -> bool
    ensures { IsTrue result ↔ HasOwnValues event.now }
{
    match event {
        Event::Joined(_, _, args) => are_values_of(args.coll, &args.values),
        Event::Called(_, _, _) => true,
        Event::Take(_, _, _, _, _) => true,
        Event::Put(_, _, _, _, _) => true,
    }
}
