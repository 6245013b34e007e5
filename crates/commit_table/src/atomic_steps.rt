//! A type for each atomic step, which says in proofs what the step makes of what its seats know (`specs/Steps`, `specs/Views`). No
//! value of them is made.
ghost use Rattle.std.specs.Prelude.{ℕ, List, [], ◌∷◌, ◌+◌, ◌++◌, Some};
ghost use Rattle.commit_table.specs.Steps.{takes, returns_slot, fetches_slot, frees_word, looks, commits, opens_closer, looks_last};
ghost use Rattle.commit_table.specs.Views.{at_rest, noted, with_note, with_pass, tally_of, joined_seat};

use crate::sharded::Sharded;
use crate::views::SeatView;
use atomic_table::{Join, Play, Split};
use std::marker::{Brand, PhantomData};

/// Which event a commit adds: `told` is the list of that one. The call picks it, since the addition itself does not show it.
pub trait CommittedEvent<E> {
    ghost told: { List E };
}

impl<E> CommittedEvent<E> for Brand {
    ghost told = { [] };
}

/// A take of a shard, or a miss.
pub struct TakeWord;

impl<M: Sharded> Play<Option<M::Shard>, SeatView<M, M::Event>> for TakeWord {
    ghost then = { takes M.machine };
}

/// The slot of a held shard goes home.
pub struct ReturnSlot;

impl<M: Sharded> Play<Option<M::Shard>, SeatView<M, M::Event>> for ReturnSlot {
    ghost then = { returns_slot M.machine };
}

/// The slot of a held shard goes out with the seat.
pub struct FetchSlot;

impl<M: Sharded> Play<Option<M::Shard>, SeatView<M, M::Event>> for FetchSlot {
    ghost then = { fetches_slot M.machine };
}

/// A give-back of a shard, after its value is in the slot.
pub struct FreeWord;

impl<M: Sharded> Play<Option<M::Shard>, SeatView<M, M::Event>> for FreeWord {
    ghost then = { frees_word M.machine };
}

/// How many passes there are. The call picks it, since a step cannot read the key of the table.
pub trait PassCount {
    ghost passes: { ℕ };
}

impl PassCount for Brand {
    ghost passes = { 0 };
}

/// A look, of a table with the count of passes of `N`.
pub struct Look<N> {
    count: PhantomData<N>,
}

impl<M: Sharded, N: PassCount> Play<Option<M::Shard>, SeatView<M, M::Event>> for Look<N> {
    ghost then = { looks M.machine N.passes };
}

/// The commit of the event of `J`.
pub struct Commit<J> {
    event: PhantomData<J>,
}

impl<M: Sharded, J: CommittedEvent<M::Event>> Play<Option<M::Shard>, SeatView<M, M::Event>>
    for Commit<J> {
    ghost then = { commits M.machine J.told };
}

/// A new seat is made for `close`.
pub struct OpenCloser;

impl<M: Sharded> Play<Option<M::Shard>, SeatView<M, M::Event>> for OpenCloser {
    ghost then = { opens_closer M.machine };
}

/// The last look, of the closing seat.
pub struct LastLook;

impl<M: Sharded> Play<Option<M::Shard>, SeatView<M, M::Event>> for LastLook {
    ghost then = { looks_last M.machine };
}

/// The seat of the next pass is made from the first seat.
pub struct SplitPass;

impl<S, E> Split<SeatView<S, E>> for SplitPass {
    ghost left = { λ v. record v { first_party = v.first_party + 1 } };

    ghost right = { λ v. at_rest (record (noted v.known) { party = Some v.first_party }) };
}

/// The seat of a note is made from that of a pass.
pub struct SplitNote;

impl<S, E> Split<SeatView<S, E>> for SplitNote {
    ghost left = { λ v. v };

    ghost right = { λ v. at_rest (noted v.known) };
}

/// The seat of the tally is made from the closing seat.
pub struct SplitTally;

impl<S, E> Split<SeatView<S, E>> for SplitTally {
    ghost left = { λ v. v };

    ghost right = { tally_of };
}

/// A pass's seat takes in that of a note.
pub struct JoinNote;

impl<S, E> Join<SeatView<S, E>> for JoinNote {
    ghost both = { λ v w. with_note v.known w.known.seen };

    ghost spent = { joined_seat };
}

/// The closing seat takes in that of a pass.
pub struct JoinPass;

impl<S, E> Join<SeatView<S, E>> for JoinPass {
    ghost both = { λ v w. with_pass v w.known };

    ghost spent = { joined_seat };
}
