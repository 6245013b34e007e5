//! The shards of an event: which they are, their take with a look, and their give-back. `own` is the shard of the owner's rank, and
//! `mine` its value; `other` is the shard that the event has beside it, of another rank or of a group, and `theirs` its value. `into_`
//! and `from_` functions change a shard value into a node and back.

ghost use Rattle.std.specs.Prelude.{◌≡◌, ℕ, ◌<◌, ◌≤◌, ◌+◌, ◌⊎◌, ◌∷◌, [], None, Some, true, false, IfSome, IfNone, IsSomeAnd};
ghost use Rattle.gaspi_types.specs.World.{IsShape};
ghost use Rattle.commit_table.specs.Attempts.{IsLookedOnly, IsMissed};
ghost use Rattle.commit_table.specs.Calls.{IsOf, HoldsNone};
ghost use Rattle.gaspi_world.specs.ShardProjections.{TookBoth};
ghost use Rattle.gaspi_world.specs.RankShards.{IsEither, rank_other};
ghost use Rattle.gaspi_world.specs.HeldShards.{Holds, values_of, other_value, IsOther, IsOtherShard, left_by};
ghost use Rattle.gaspi_world.specs.Transfers.{HasMoved};
ghost use Rattle.gaspi_world.specs.Shards.{IsRankShard};
ghost use Rattle.gaspi_world.specs.WorldMachine.{world_machine};
ghost use Rattle.gaspi_world.specs.declared.shards.WorldShard.TheVariants as shards;

use crate::shards::WorldShard;
use crate::starts::Start;
use crate::worlds::Pass;
use commit_table::CommitTable;
use gaspi_types::Footprint;
use rank_node::{HeldNodes, Node, OtherNode};
use std::boxed::Box;

/// The shards that a pass holds for an event, by their numbers, with their nodes. There is another node exactly where there is another
/// shard.
#[derive(Drop)]
pub struct HeldShards {
    /// The shard of the owner's rank.
    pub own: u32,
    /// The shard that the event has beside it, where it has one.
    pub other: Option<u32>,
    /// The nodes that were taken out of these shards.
    pub nodes: HeldNodes,
}

/// The number of the shard that an event has beside its owner's, by its footprint: that of a peer, or of a group, whose numbers come
/// after those of all `ranks` ranks. None where the footprint has the owner's parts alone.
pub fn footprint_shard(ranks: u32, footprint: Footprint) -> Option<u32>
    requires { ranks ≤ 16 }
    ensures { result ≡ rank_other ranks footprint }
{
    match footprint {
        Footprint::Alone | Footprint::OwnMemory => None,
        Footprint::PeerMemory(rank) | Footprint::BothMemories(rank) | Footprint::PeerPosts(rank) =>
            { Some(rank.number()) }
        Footprint::Group(id) | Footprint::GroupAndMemory(id) => Some(ranks + id.number()),
    }
}

/// The node of a shard value, which must be a rank's.
pub fn into_rank(shard: WorldShard) -> Box<Node>
    requires { IsRankShard shard }
    ensures { shards.Rank result ≡ shard }
{
    match shard {
        WorldShard::Rank(node) => node,
        WorldShard::Group(_) => unreachable!(),
    }
}

/// The other node of an event, from its shard value.
fn into_other(shard: WorldShard) -> OtherNode
    ensures value { (i : ℕ) → other_value (Some i) result ≡ (i, shard) ∷ [] }
    ensures fits { (i : ℕ) → IsOther (Some i) result }
{
    match shard {
        WorldShard::Rank(node) => OtherNode::Rank(node),
        WorldShard::Group(node) => OtherNode::Group(node),
    }
}

/// The held shards of an event that has two, from their numbers and values. `mine` must be a rank's.
pub fn both_held(own: u32, mine: WorldShard, other: u32, theirs: WorldShard) -> HeldShards
    requires { IsRankShard mine }
    ensures values { values_of result ≡ (own, mine) ∷ (other, theirs) ∷ [] }
    ensures fits { IsOther result.other result.nodes.other }
    ensures own { result.own ≡ own }
    ensures other { result.other ≡ Some other }
{
    HeldShards {
        own,
        other: Some(other),
        nodes: HeldNodes {
            own: into_rank(mine),
            other: into_other(theirs),
        },
    }
}

/// The held shards of an event that has its owner's alone, from its number and value, which must be a rank's.
pub fn one_held(own: u32, mine: WorldShard) -> HeldShards
    requires { IsRankShard mine }
    ensures values { values_of result ≡ (own, mine) ∷ [] }
    ensures fits { IsOther result.other result.nodes.other }
    ensures own { result.own ≡ own }
    ensures other { result.other ≡ None }
{
    HeldShards {
        own,
        other: None,
        nodes: HeldNodes {
            own: into_rank(mine),
            other: OtherNode::Nothing,
        },
    }
}

/// The shard value of the other node, to be given back; none where there is no other node.
fn from_other(other: OtherNode) -> Option<WorldShard>
    ensures { (i : ℕ) → IsOther (Some i) other → IsSomeAnd result (λ shard. other_value (Some i) other ≡ (i, shard) ∷ []) }
{
    match other {
        OtherNode::Nothing => None,
        OtherNode::Rank(node) => Some(WorldShard::Rank(node)),
        OtherNode::Group(node) => Some(WorldShard::Group(node)),
    }
}

/// Takes two shards, that with the lower number first, and gives their values in this order. No look is made. None where one was
/// missed: then neither is held.
fn take_both(
    table: &CommitTable<Start>,
    pass: &mut Pass,
    low: u32,
    high: u32,
) -> Option<(WorldShard, WorldShard)>
    requires pass { IsOf table.now pass.old }
    requires free { HoldsNone pass.old.known }
    requires order { low < high }
    requires there { high < table.now.start.shape.limits.ranks + 8 }
    ensures table { pass.new.table ≡ pass.old.table }
    ensures start { pass.new.known.start ≡ pass.old.known.start }
    ensures both { IfSome result (λ r. TookBoth (world_machine table.now.start.shape) pass.old.known low high r.0 r.1 pass.new.known) }
    ensures missed { IfNone result (IsMissed (world_machine table.now.start.shape) pass.old.known (λ i. (i ≡ low) ⊎ (i ≡ high)) pass.new.known) }
    ensures free { IfNone result (HoldsNone pass.new.known) }
{
    let Some(first) = table.try_take(pass, low) else {
        return None;
    };
    let Some(second) = table.try_take(pass, high) else {
        table.give_back(pass, low, first);
        return None;
    };
    Some((first, second))
}

/// Takes two shards in rising order, `own` of a rank and `other` of any part, and looks. None where one was missed: then neither is
/// held, and no look was made.
fn open_both(
    table: &CommitTable<Start>,
    pass: &mut Pass,
    own: u32,
    other: u32,
) -> Option<HeldShards>
    requires world { IsShape table.now.start.shape }
    requires pass { IsOf table.now pass.old }
    requires free { HoldsNone pass.old.known }
    requires own { own < table.now.start.shape.limits.ranks }
    requires there { other < table.now.start.shape.limits.ranks + 8 }
    requires apart { other ≡ own → ⊥ }
    ensures table { pass.new.table ≡ pass.old.table }
    ensures held { IfSome result (λ held. Holds table.now.start.shape held pass.new.known) }
    ensures shards { IfSome result (λ held. (held.own ≡ own) × (held.other ≡ Some other)) }
    ensures looked { IfSome result (λ held. IsLookedOnly (world_machine table.now.start.shape) pass.old.known pass.new.known) }
    ensures missed { IfNone result (IsMissed (world_machine table.now.start.shape) pass.old.known (IsEither own (Some other)) pass.new.known) }
    ensures free { IfNone result (HoldsNone pass.new.known) }
{
    if own < other {
        let Some((mine, value)) = take_both(table, pass, own, other) else {
            return None;
        };
        table.look(pass);
        return Some(both_held(own, mine, other, value));
    }
    let Some((value, mine)) = take_both(table, pass, other, own) else {
        return None;
    };
    table.look(pass);
    Some(both_held(own, mine, other, value))
}

/// Takes the shard of a rank, and looks. None where it was missed: then no look was made.
fn open_own(table: &CommitTable<Start>, pass: &mut Pass, own: u32) -> Option<HeldShards>
    requires world { IsShape table.now.start.shape }
    requires pass { IsOf table.now pass.old }
    requires free { HoldsNone pass.old.known }
    requires own { own < table.now.start.shape.limits.ranks }
    ensures table { pass.new.table ≡ pass.old.table }
    ensures held { IfSome result (λ held. Holds table.now.start.shape held pass.new.known) }
    ensures shards { IfSome result (λ held. (held.own ≡ own) × (held.other ≡ None)) }
    ensures looked { IfSome result (λ held. IsLookedOnly (world_machine table.now.start.shape) pass.old.known pass.new.known) }
    ensures missed { IfNone result (IsMissed (world_machine table.now.start.shape) pass.old.known (IsEither own None) pass.new.known) }
    ensures free { IfNone result (HoldsNone pass.new.known) }
{
    let Some(mine) = table.try_take(pass, own) else {
        return None;
    };
    table.look(pass);
    Some(one_held(own, mine))
}

/// Takes the shards of an event in rising order, and looks. None where one was missed: then none is held, and no look was made.
pub fn take_and_look(
    table: &CommitTable<Start>,
    pass: &mut Pass,
    own: u32,
    other: Option<u32>,
) -> Option<HeldShards>
    requires world { IsShape table.now.start.shape }
    requires pass { IsOf table.now pass.old }
    requires free { HoldsNone pass.old.known }
    requires own { own < table.now.start.shape.limits.ranks }
    requires other { IsOtherShard table.now.start.shape own other }
    ensures table { pass.new.table ≡ pass.old.table }
    ensures held { IfSome result (λ held. Holds table.now.start.shape held pass.new.known) }
    ensures shards { IfSome result (λ held. (held.own ≡ own) × (held.other ≡ other)) }
    ensures looked { IfSome result (λ held. IsLookedOnly (world_machine table.now.start.shape) pass.old.known pass.new.known) }
    ensures missed { IfNone result (IsMissed (world_machine table.now.start.shape) pass.old.known (IsEither own other) pass.new.known) }
    ensures free { IfNone result (HoldsNone pass.new.known) }
{
    match other {
        Some(other) => open_both(table, pass, own, other),
        None => open_own(table, pass, own),
    }
}

/// Takes a second shard beside that of a rank, which is held, and looks. False where it was missed: then no look was made. The first
/// one stays held.
fn take_other(
    table: &CommitTable<Start>,
    pass: &mut Pass,
    held: &mut HeldShards,
    other: u32,
) -> bool
    requires pass { IsOf table.now pass.old }
    requires held { Holds table.now.start.shape held.old pass.old.known }
    requires alone { held.old.other ≡ None }
    requires other { IsOtherShard table.now.start.shape held.old.own (Some other) }
    ensures table { pass.new.table ≡ pass.old.table }
    ensures held { Holds table.now.start.shape held.new pass.new.known }
    ensures own { (held.new.own ≡ held.old.own) × (held.new.nodes.own ≡ held.old.nodes.own) }
    ensures opened { result ≡ true → held.new.other ≡ Some other }
    ensures missed { result ≡ false → held.new.other ≡ None }
    ensures moved { HasMoved table.now.start.shape held.old.own pass.old.known pass.new.known }
{
    let Some(theirs) = table.try_take(pass, other) else {
        return false;
    };
    table.look(pass);
    held.other = Some(other);
    held.nodes.other = into_other(theirs);
    true
}

/// Takes the second shard of an event beside that of a rank, which is held, and looks. Where the event has no second shard, it does
/// nothing. False only where the second one was missed. The first one stays held.
pub fn open_other(
    table: &CommitTable<Start>,
    pass: &mut Pass,
    held: &mut HeldShards,
    other: Option<u32>,
) -> bool
    requires pass { IsOf table.now pass.old }
    requires held { Holds table.now.start.shape held.old pass.old.known }
    requires alone { held.old.other ≡ None }
    requires other { IsOtherShard table.now.start.shape held.old.own other }
    ensures table { pass.new.table ≡ pass.old.table }
    ensures held { Holds table.now.start.shape held.new pass.new.known }
    ensures own { (held.new.own ≡ held.old.own) × (held.new.nodes.own ≡ held.old.nodes.own) }
    ensures opened { result ≡ true → held.new.other ≡ other }
    ensures missed { result ≡ false → held.new.other ≡ None }
    ensures moved { HasMoved table.now.start.shape held.old.own pass.old.known pass.new.known }
{
    match other {
        Some(other) => take_other(table, pass, held, other),
        None => true,
    }
}

/// Gives back the other shard, which has this number, for `leave_other`. That of the rank stays held.
fn give_other(table: &CommitTable<Start>, pass: &mut Pass, held: &mut HeldShards, other: u32)
    requires pass { IsOf table.now pass.old }
    requires held { Holds table.now.start.shape held.old pass.old.known }
    requires other { held.old.other ≡ Some other }
    ensures table { pass.new.table ≡ pass.old.table }
    ensures held { Holds table.now.start.shape held.new pass.new.known }
    ensures own { held.new.own ≡ held.old.own }
    ensures alone { held.new.other ≡ None }
    ensures moved { HasMoved table.now.start.shape held.old.own pass.old.known pass.new.known }
{
    let node = std::mem::replace(&mut held.nodes.other, OtherNode::Nothing);
    held.other = None;
    let Some(value) = from_other(node) else {
        unreachable!()
    };
    table.give_back(pass, other, value);
}

/// Gives back the other shard, where one is held. That of the rank stays held.
pub fn leave_other(table: &CommitTable<Start>, pass: &mut Pass, held: &mut HeldShards)
    requires pass { IsOf table.now pass.old }
    requires held { Holds table.now.start.shape held.old pass.old.known }
    ensures table { pass.new.table ≡ pass.old.table }
    ensures held { Holds table.now.start.shape held.new pass.new.known }
    ensures own { held.new.own ≡ held.old.own }
    ensures alone { held.new.other ≡ None }
    ensures moved { HasMoved table.now.start.shape held.old.own pass.old.known pass.new.known }
{
    if let Some(other) = held.other {
        give_other(table, pass, held, other);
    }
}

/// Gives back both shards of an event that has two, for `give_back`.
fn leave_both(table: &CommitTable<Start>, pass: &mut Pass, own: u32, other: u32, nodes: HeldNodes)
    requires pass { IsOf table.now pass.old }
    requires held { Holds table.now.start.shape (record { own = own; other = Some other; nodes = nodes }) pass.old.known }
    ensures left { pass.new ≡ record pass.old { known = left_by own (Some other) pass.old.known } }
    ensures free { HoldsNone pass.new.known }
{
    let HeldNodes {
        own: mine,
        other: node,
    } = nodes;
    let Some(value) = from_other(node) else {
        unreachable!()
    };
    table.give_back(pass, other, value);
    table.give_back(pass, own, WorldShard::Rank(mine));
}

/// Gives back the shard of an event that has one, for `give_back`.
fn leave_own(table: &CommitTable<Start>, pass: &mut Pass, own: u32, nodes: HeldNodes)
    requires pass { IsOf table.now pass.old }
    requires held { Holds table.now.start.shape (record { own = own; other = None; nodes = nodes }) pass.old.known }
    ensures left { pass.new ≡ record pass.old { known = left_by own None pass.old.known } }
    ensures free { HoldsNone pass.new.known }
{
    let HeldNodes { own: mine, .. } = nodes;
    table.give_back(pass, own, WorldShard::Rank(mine));
}

/// Gives back all shards that are held for an event, with their nodes.
pub fn give_back(table: &CommitTable<Start>, pass: &mut Pass, held: HeldShards)
    requires pass { IsOf table.now pass.old }
    requires held { Holds table.now.start.shape held pass.old.known }
    ensures left { pass.new ≡ record pass.old { known = left_by held.own held.other pass.old.known } }
    ensures free { HoldsNone pass.new.known }
{
    let HeldShards { own, other, nodes } = held;
    match other {
        Some(other) => leave_both(table, pass, own, other, nodes),
        None => leave_own(table, pass, own, nodes),
    }
}
