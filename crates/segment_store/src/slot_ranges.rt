//! Ranges of slots within the slots of a segment, for `waitsome`. (GASPI: notifications)

ghost use Rattle.std.specs.Prelude.{◌≡◌, ◌+◌, ◌<◌, ◌≤◌, length, position, IfSome};
ghost use Rattle.gaspi_types.specs.Slots.{is_set, is_slot_range, first_set};

/// Whether a range of slots has a slot and lies within `notes` slots.
pub fn is_slot_range(begin: u64, num: u64, notes: usize) -> bool
    ensures { result ≡ is_slot_range begin num notes }
{
    let notes = notes as u64;
    1 <= num && num <= notes && begin <= notes - num
}

/// The index of the first slot that is set; None where none is.
fn first_set_place(slots: &[u32]) -> Option<usize>
    ensures place { result ≡ position is_set slots.now }
    ensures bound { IfSome result (λ place. place < length slots.now) }
{
    slots.iter().position(|value| *value != 0)
}

/// The least set slot of a range; None where none is set. Only the slots of the range are looked at.
pub fn first_set(slots: &[u32], begin: usize, num: usize) -> Option<u32>
    requires within { begin + num ≤ length slots.now }
    requires notes { length slots.now ≤ 1024 }
    ensures { result ≡ first_set slots.now begin num }
{
    let range = &slots[begin..begin + num];
    first_set_place(range).map(|place| (begin + place) as u32)
}
