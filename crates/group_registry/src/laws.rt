//! A law of group ids: the contract of a function that does nothing. (GASPI: groups)

ghost use Rattle.std.specs.Prelude.{◌≡◌, ◌<◌, ◌≤◌, ℕ, List, Ok};
ghost use Rattle.gaspi_types.specs.Groups.{next_group, with_group};
ghost use Rattle.gaspi_types.specs.declared.groups.Handles.{Handles};
ghost use Rattle.group_registry.specs.Changes.{Change, changed_by};

/// Group ids rise: whatever a rank does after it has made a group, each id that a later group gets is above that group's. So no id
/// is given again, not even that of a deleted group. How many groups a rank has made never falls.
pub fn no_id_is_given_again()
    ensures above { (groups : Handles) (changes : List Change) (earlier later : ℕ) → next_group groups ≡ Ok earlier
        → next_group (changed_by (with_group groups) changes) ≡ Ok later → earlier < later }
    ensures rising { (groups : Handles) (changes : List Change) → groups.last_id ≤ (changed_by groups changes).last_id }
{}
