//! Laws of lanes: contracts of functions that do nothing. First in, first out is one of the machine's choices: the front entries of
//! this crate have enabled transfers there, and are found by their numbers. The last law is on nonempty lanes.
//! (GASPI: one-sided communication, notification order)

ghost use Rattle.std.specs.Prelude.{◌≡◌, ℕ, ◌<◌, true, None, Some, IsSome, List, slice_get, drop, remove};
ghost use Rattle.gaspi_types.specs.Lanes.{carried_count, is_carried, may_take, may_put, position_of};
ghost use Rattle.gaspi_types.specs.declared.entries.Entry.{Entry};
ghost use Rattle.post_queue.specs.LanesStates.{LanesState, head_of, nonempty_of};
ghost use Rattle.post_queue.specs.Places.{posted_position, first_posted};
ghost use Rattle.post_queue.specs.Rising.{IsRising};

/// The first posted entry of a lane may be taken while fewer entries are carried than the depth; and it is found by its number,
/// where the numbers of the lane rise.
pub fn takes()
    ensures permitted { (depth : ℕ) (lane : List Entry) (e : Entry) → first_posted lane ≡ Some e → carried_count lane < depth → may_take depth lane e ≡ true }
    ensures found { (lane : List Entry) (e : Entry) → IsRising lane → first_posted lane ≡ Some e → position_of lane e.number ≡ Some (posted_position lane) }
{}

/// A carried entry that is the head of its lane may be put, where the numbers of the lane rise; it is found by its number at the
/// head, which is what a put removes.
pub fn puts()
    ensures permitted { (lane : List Entry) (e : Entry) → IsRising lane → slice_get lane 0 ≡ Some e → is_carried e ≡ true → may_put lane e ≡ true }
    ensures found { (lane : List Entry) (e : Entry) → IsRising lane → slice_get lane 0 ≡ Some e → position_of lane e.number ≡ Some 0 }
    ensures removed { (lane : List Entry) → drop 1 lane ≡ remove lane 0 }
{}

/// The lane to the target that `nonempty_lane` answers has a head, and no lane to a lesser target has one. Where it answers None, no
/// lane of the queue has one.
pub fn nonempty_lane_is_the_least()
    ensures there { (s : LanesState) (queue target : ℕ) → nonempty_of s queue ≡ Some target → IsSome (head_of s queue target) }
    ensures least { (s : LanesState) (queue target other : ℕ) → nonempty_of s queue ≡ Some target → other < target → head_of s queue other ≡ None }
    ensures none { (s : LanesState) (queue target : ℕ) → nonempty_of s queue ≡ None → head_of s queue target ≡ None }
{}
