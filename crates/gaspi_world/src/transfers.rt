//! The transfers of a rank of a world, by a worker's pass: one, or up to eight of one lane while the rank's shard is held. Each has a
//! commit of its own. `own` is the shard of the origin, and `mine` its value; `other` is the shard that a transfer has beside it, and
//! `theirs` its value.

ghost use Rattle.std.specs.Prelude.{◌≡◌, ℕ, ◌<◌, ◌≤◌, IfSome, IfNone, None, Some, false};
ghost use Rattle.gaspi_types.specs.World.{IsShape};
ghost use Rattle.gaspi_types.specs.declared.entries.Entry.{Entry};
ghost use Rattle.gaspi_model.specs.Sound.{IsSound};
ghost use Rattle.gaspi_model.specs.declared.states.State.{State};
ghost use Rattle.commit_table.specs.Calls.{IsOf, HoldsNone};
ghost use Rattle.post_queue.specs.MovableLanes.{is_movable_lane};
ghost use Rattle.rank_node.specs.Fronts.{IsFront, front_entry, transfer_footprint};
ghost use Rattle.rank_node.specs.Lending.{IsPostsOf};
ghost use Rattle.rank_node.specs.Transfers.{event_of};
ghost use Rattle.gaspi_world.specs.RankShards.{rank_other};
ghost use Rattle.gaspi_world.specs.Callers.{IsWorkers};
ghost use Rattle.gaspi_world.specs.HeldShards.{Holds};
ghost use Rattle.gaspi_world.specs.Transfers.{Transfers, MovesOn, HasMoved, HasMovedOne, Tries, IsMovedBehind, IsFrontHeld};

use crate::holding::{
    HeldShards, both_held, footprint_shard, give_back, into_rank, leave_other, one_held, open_other,
};
use crate::moving::Moving;
use crate::shards::WorldShard;
use crate::starts::Start;
use crate::worlds::{Pass, World};
use commit_table::CommitTable;
use gaspi_types::{Event, Outcome, QueueId, RankId, Transfer};
use rank_node::{Node, front_footprints, fronts_are_steps, movable_lanes_have_fronts};

/// The front transfer of the next movable lane of a rank; none where no lane is movable. The search begins at a lane that changes with
/// the rank's room, so that over many calls no lane always comes last; no clause says so.
fn next_front(node: &Node) -> Option<Transfer>
    requires { (s : State) × IsSound s × IsPostsOf s node.now.posts.me node.now.posts }
    ensures front { IfSome result (IsFront node.now.posts) }
    ensures none { IfNone result ((queue target : ℕ) → is_movable_lane node.now.posts.posts.queues queue target ≡ false) }
{
    movable_lanes_have_fronts();
    let room = node.room();
    let after = (
        QueueId::of((room / 16 % 8) as u32),
        RankId::of((room % 16) as u32),
    );
    let (queue, target) = node.next_lane(after)?;
    node.front(queue, target)
}

/// The number of the shard that a front transfer has beside its origin's; none where it has that alone. `ranks` is how many ranks
/// there are.
fn front_shard(node: &Node, ranks: u32, t: &Transfer) -> Option<u32>
    requires front { IsFront node.now.posts t.now }
    requires ranks { ranks ≤ 16 }
    ensures { (e : Entry) → front_entry node.now.posts t.now ≡ Some e → result ≡ rank_other ranks (transfer_footprint ranks t.now e.kind) }
{
    let kind = node.kind(t);
    let declaration = if t.put {
        kind.put_footprint(t.target)
    } else {
        kind.take_footprint(t.target)
    };
    footprint_shard(ranks, declaration.footprint(ranks, t.origin))
}

/// The event of a transfer with its outcome.
fn event_of(t: &Transfer, outcome: Outcome) -> Event
    ensures { result ≡ event_of t.now outcome }
{
    if t.put {
        Event::Put(t.origin, t.queue, t.target, t.number, outcome)
    } else {
        Event::Take(t.origin, t.queue, t.target, t.number, outcome)
    }
}

/// What a try to take the shards of a rank's next transfer came to. Only after `Ready` is a shard held.
#[derive(Drop)]
enum Tried {
    /// The origin's shard was missed, or the other shard of a transfer that may come next.
    Busy,
    /// No transfer of the rank may come next; true where all threads of the rank have ended.
    Still(bool),
    /// This transfer may come next, and its shards are held.
    Ready(Transfer, HeldShards),
}

/// Takes the shards of the next transfer of a rank. It looks once, after the last of them was taken or missed; where the origin's
/// shard itself was missed, no look is made. The origin's node alone says which transfer is next, so that shard is taken first.
fn try_front(table: &CommitTable<Start>, pass: &mut Pass, origin: RankId) -> Tried
    requires world { IsShape table.now.start.shape }
    requires pass { IsOf table.now pass.old }
    requires free { HoldsNone pass.old.known }
    requires rank { origin < table.now.start.shape.limits.ranks }
    ensures table { pass.new.table ≡ pass.old.table }
    ensures tries { Tries table.now.start.shape origin pass.old.known result pass.new.known }
{
    fronts_are_steps();
    front_footprints();
    movable_lanes_have_fronts();
    let own = origin.number();
    let Some(mine) = table.try_take(pass, own) else {
        return Tried::Busy;
    };
    let node = into_rank(mine);
    let Some(t) = next_front(&node) else {
        let ended = node.all_ended();
        table.look(pass);
        table.give_back(pass, own, WorldShard::Rank(node));
        return Tried::Still(ended);
    };
    let Some(other) = front_shard(&node, table.start().shape.ranks(), &t) else {
        table.look(pass);
        return Tried::Ready(t, one_held(own, WorldShard::Rank(node)));
    };
    let Some(theirs) = table.try_take(pass, other) else {
        table.look(pass);
        table.give_back(pass, own, WorldShard::Rank(node));
        return Tried::Busy;
    };
    table.look(pass);
    Tried::Ready(t, both_held(own, WorldShard::Rank(node), other, theirs))
}

/// Commits a front transfer whose shards are held, and records it in their nodes. The shards stay held.
fn commit_front(table: &CommitTable<Start>, pass: &mut Pass, held: &mut HeldShards, t: Transfer)
    requires world { IsShape table.now.start.shape }
    requires pass { IsOf table.now pass.old }
    requires held { Holds table.now.start.shape held.old pass.old.known }
    requires front { IsFrontHeld table.now.start.shape t held.old }
    ensures table { pass.new.table ≡ pass.old.table }
    ensures held { Holds table.now.start.shape held.new pass.new.known }
    ensures shards { (held.new.own ≡ held.old.own) × (held.new.other ≡ held.old.other) }
    ensures moved { IsMovedBehind table.now.start.shape t.origin pass.old.known pass.new.known }
{
    fronts_are_steps();
    front_footprints();
    let outcome = held.nodes.outcome(&t);
    let place = table.commit(pass, &event_of(&t, outcome));
    if t.put {
        held.nodes.put(place, t);
    } else {
        held.nodes.take(place, t);
    }
}

/// Makes the next transfer of a rank, for `World::transfer`, and counts the change for threads that watch. Nothing is committed where
/// no transfer may come next, or a shard was missed.
fn transfer_once(table: &CommitTable<Start>, pass: &mut Pass, origin: RankId) -> Moving
    requires world { IsShape table.now.start.shape }
    requires pass { IsOf table.now pass.old }
    requires free { HoldsNone pass.old.known }
    requires rank { origin < table.now.start.shape.limits.ranks }
    ensures table { pass.new.table ≡ pass.old.table }
    ensures free { HoldsNone pass.new.known }
    ensures moves { Transfers table.now.start.shape origin pass.old.known result pass.new.known }
{
    match try_front(table, pass, origin) {
        Tried::Busy => Moving::Busy,
        Tried::Still(true) => Moving::Ended,
        Tried::Still(false) => Moving::Empty,
        Tried::Ready(t, mut held) => {
            commit_front(table, pass, &mut held, t);
            let other = held.other;
            give_back(table, pass, held);
            table.start().count_transfer(origin.number(), other);
            Moving::Moved
        }
    }
}

/// The most transfers that are made while a rank's shard is held once.
const MOST_AT_ONCE: u32 = 8;

/// Makes the front transfer of a lane of the rank whose shard is held, for `go_on`. False where the lane has none, or its other shard
/// was missed: then nothing was committed. After it the rank's shard alone is held.
fn follow(
    table: &CommitTable<Start>,
    pass: &mut Pass,
    held: &mut HeldShards,
    queue: QueueId,
    target: RankId,
) -> bool
    requires world { IsShape table.now.start.shape }
    requires pass { IsOf table.now pass.old }
    requires held { Holds table.now.start.shape held.old pass.old.known }
    requires alone { held.old.other ≡ None }
    ensures table { pass.new.table ≡ pass.old.table }
    ensures held { Holds table.now.start.shape held.new pass.new.known }
    ensures own { held.new.own ≡ held.old.own }
    ensures alone { held.new.other ≡ None }
    ensures moved { HasMoved table.now.start.shape held.old.own pass.old.known pass.new.known }
{
    let Some(t) = held.nodes.own.front(queue, target) else {
        return false;
    };
    let ranks = table.start().shape.ranks();
    let other = front_shard(&held.nodes.own, ranks, &t);
    if !open_other(table, pass, held, other) {
        return false;
    }
    move_front(table, pass, held, t);
    true
}

/// Commits and records a front transfer whose shards are held, and gives back the other shard, where it has one. The rank's shard
/// stays held.
fn move_front(table: &CommitTable<Start>, pass: &mut Pass, held: &mut HeldShards, t: Transfer)
    requires world { IsShape table.now.start.shape }
    requires pass { IsOf table.now pass.old }
    requires held { Holds table.now.start.shape held.old pass.old.known }
    requires front { IsFrontHeld table.now.start.shape t held.old }
    ensures table { pass.new.table ≡ pass.old.table }
    ensures held { Holds table.now.start.shape held.new pass.new.known }
    ensures own { held.new.own ≡ held.old.own }
    ensures alone { held.new.other ≡ None }
    ensures moved { HasMovedOne table.now.start.shape held.old.own pass.old.known pass.new.known }
{
    commit_front(table, pass, held, t);
    leave_other(table, pass, held);
}

/// Makes up to seven more transfers of a lane of the rank whose shard is held, until `follow` makes none. The rank's shard stays held.
fn go_on(
    table: &CommitTable<Start>,
    pass: &mut Pass,
    held: &mut HeldShards,
    queue: QueueId,
    target: RankId,
)
    requires world { IsShape table.now.start.shape }
    requires pass { IsOf table.now pass.old }
    requires held { Holds table.now.start.shape held.old pass.old.known }
    requires alone { held.old.other ≡ None }
    ensures table { pass.new.table ≡ pass.old.table }
    ensures held { Holds table.now.start.shape held.new pass.new.known }
    ensures own { held.new.own ≡ held.old.own }
    ensures alone { held.new.other ≡ None }
    ensures moved { HasMoved table.now.start.shape held.old.own pass.old.known pass.new.known }
{
    for _ in 1..MOST_AT_ONCE {
        if !follow(table, pass, held, queue, target) {
            return;
        }
    }
}

/// Makes the next transfer of a rank, and up to seven that follow in its lane, for `World::transfer_lane`, and counts the change for
/// threads that watch. Nothing is committed where no transfer may come next, or a shard was missed.
fn move_lane(table: &CommitTable<Start>, pass: &mut Pass, origin: RankId) -> Moving
    requires world { IsShape table.now.start.shape }
    requires pass { IsOf table.now pass.old }
    requires free { HoldsNone pass.old.known }
    requires rank { origin < table.now.start.shape.limits.ranks }
    ensures table { pass.new.table ≡ pass.old.table }
    ensures free { HoldsNone pass.new.known }
    ensures moves { MovesOn table.now.start.shape origin pass.old.known result pass.new.known }
{
    match try_front(table, pass, origin) {
        Tried::Busy => Moving::Busy,
        Tried::Still(true) => Moving::Ended,
        Tried::Still(false) => Moving::Empty,
        Tried::Ready(t, mut held) => {
            let (queue, target) = (t.queue, t.target);
            move_front(table, pass, &mut held, t);
            go_on(table, pass, &mut held, queue, target);
            give_back(table, pass, held);
            table
                .start()
                .count_transfer(origin.number(), Some(target.number()));
            Moving::Moved
        }
    }
}

impl World {
    /// Makes one transfer of a rank, the front of its next movable lane, where there is one and its shards are not missed. The pass
    /// must be a worker's, and hold no shard. It takes no memory. (GASPI: one-sided communication)
    pub fn transfer(&self, pass: &mut Pass, origin: RankId) -> Moving
        requires pass { IsOf self.now pass.old }
        requires free { HoldsNone pass.old.known }
        requires worker { IsWorkers self.now.start.shape pass.old.known }
        requires rank { origin < self.now.start.shape.limits.ranks }
        ensures table { pass.new.table ≡ pass.old.table }
        ensures free { HoldsNone pass.new.known }
        ensures moves { Transfers self.now.start.shape origin pass.old.known result pass.new.known }
    {
        self.shape().limits();
        transfer_once(self.table(), pass, origin)
    }

    /// Makes transfers of a rank while its shard is held once: the front of its next movable lane, where there is one and its shards
    /// are not missed, and those that follow it in that lane, up to eight. The pass must be a worker's, and hold no shard. It takes no
    /// memory. (GASPI: one-sided communication)
    pub fn transfer_lane(&self, pass: &mut Pass, origin: RankId) -> Moving
        requires pass { IsOf self.now pass.old }
        requires free { HoldsNone pass.old.known }
        requires worker { IsWorkers self.now.start.shape pass.old.known }
        requires rank { origin < self.now.start.shape.limits.ranks }
        ensures table { pass.new.table ≡ pass.old.table }
        ensures free { HoldsNone pass.new.known }
        ensures moves { MovesOn self.now.start.shape origin pass.old.known result pass.new.known }
    {
        self.shape().limits();
        move_lane(self.table(), pass, origin)
    }
}
