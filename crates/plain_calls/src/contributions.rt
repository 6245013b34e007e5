//! The contributions to the rounds of a group, in the machine's own value `Group`: what they say of a round, and what a join, a
//! completion and a create change by them. `me` is the rank whose round is meant: the first that the rank has not completed. The
//! functions walk over members, never over rounds. (GASPI: collectives)

ghost use Rattle.std.specs.Prelude.{◌≡◌, ℕ, ◌+◌, ◌<◌, ◌^◌, ◌++◌, ◌∷◌, [], length, true, is_some, IfOk, OnOk, OnErr};
ghost use Rattle.std.specs.Option.{option_copied};
ghost use Rattle.gaspi_types.specs.Collectives.{contributions_of, contribution_in, members_in, round_of, is_full, is_round_full, first_contribution, round_checks, values_in, generation_in, reduced_onto, reduction_of, combined, round_reduction, made_by, round_segments, with_joined, with_completed, fixed_by};
ghost use Rattle.gaspi_types.specs.NumberTypes.{AreInType};
ghost use Rattle.gaspi_types.specs.declared.collectives.NumType.{NumType};
ghost use Rattle.gaspi_model.specs.CollectiveCalls.{with_made_known};
ghost use Rattle.gaspi_model.specs.RoundRules.{coll_in};
ghost use Rattle.plain_calls.specs.Rounds.{AreAlike};

use gaspi_model::{Members, Posts, check_fits, members_of, reduce};
use gaspi_types::{
    BoxedSequence, Coll, Contribution, Extent, Group, NoMemory, NumType, Numbers, Op,
    RankContributions, RankId, Refusal,
};
use segment_store::set_known;
use std::alloc::Global;

/// The contribution of a rank to a round; None where the rank has not contributed.
fn contribution_in(group: &Group, round: u32, rank: RankId) -> Option<&Contribution>
    ensures { option_copied result ≡ contribution_in group.now round rank }
{
    match group.contributions.get(rank.index()) {
        Some(own) => own.contributions.get(round as usize),
        None => None,
    }
}

/// The number of a rank's round: the first that the rank has not completed; 0 for a rank that the group does not list.
fn round_of(group: &Group, rank: RankId) -> u32
    ensures { result ≡ round_of group.now rank }
{
    match group.contributions.get(rank.index()) {
        Some(own) => own.completed,
        None => 0,
    }
}

/// The members of a group; none where the member list is not fixed.
fn members_in(group: &Group) -> Members
    ensures { result ≡ members_in group.now }
{
    members_of(group.members.unwrap_or(0))
}

/// Whether each of these ranks has contributed to a round.
fn is_full(group: &Group, round: u32, members: &[RankId]) -> bool
    ensures { result ≡ is_full (contribution_in group.now round) members.now }
{
    members
        .iter()
        .all(|member| contribution_in(group, round, *member).is_some())
}

/// Whether the round of `me` is full: every member has contributed to it. (GASPI: collectives)
pub fn is_round_full(group: &Group, me: RankId) -> bool
    ensures { result ≡ is_round_full group.now me }
{
    is_full(group, round_of(group, me), members_in(group).ranks())
}

/// The collective that the first contribution to a round has, in the order of these ranks; None where none has contributed.
fn first_coll(group: &Group, round: u32, members: &[RankId]) -> Option<Coll>
    ensures { result ≡ coll_in (first_contribution (contribution_in group.now round) members.now) }
{
    match members {
        [] => None,
        [member, others @ ..] => match contribution_in(group, round, *member) {
            Some(given) => Some(given.args.coll),
            None => first_coll(group, round, others),
        },
    }
}

/// Checks a collective against the contributions to the round of `me`: it is theirs, values aside; else `CollectiveMismatch`.
/// (GASPI: collectives)
pub fn check_round(group: &Group, me: RankId, coll: Coll) -> Result<(), Refusal>
    ensures { result ≡ round_checks group.now me coll }
{
    let first = first_coll(group, round_of(group, me), members_in(group).ranks());
    check_fits(first, coll)
}

/// The values of a rank's contribution to a round; none where the rank has not contributed. Where all contributions are alike
/// (`AreAlike`: the same type and count), each value is one of that type.
fn values_in(group: &Group, round: u32, rank: RankId) -> &[i128]
    ensures values { result.now ≡ values_in (contribution_in group.now round rank) }
    ensures range { (num_type : NumType) (count : ℕ) → AreAlike (contribution_in group.now round) num_type count → AreInType num_type result.now }
{
    match contribution_in(group, round, rank) {
        Some(given) => given.args.values.items(),
        None => &[],
    }
}

/// Reduces the values of a rank's contribution onto `total`, item by item. The rank has contributed, and its values are as many and
/// of the same type.
fn reduce_contribution(
    total: &mut BoxedSequence<i128>,
    op: Op,
    num_type: NumType,
    group: &Group,
    round: u32,
    rank: RankId,
)
    requires given { is_some (contribution_in group.now round rank) ≡ true }
    requires alike { AreAlike (contribution_in group.now round) num_type (length total.old) }
    requires range { AreInType num_type total.old }
    ensures reduced { total.new ≡ combined op num_type total.old (values_in (contribution_in group.now round rank)) }
    ensures range { AreInType num_type total.new }
    ensures lengths { length total.new ≡ length total.old }
{
    reduce(op, num_type, total, values_in(group, round, rank));
}

/// Reduces the contributions of these ranks onto `total`, one after another, in their order. Each of them has contributed as many
/// values, of the same type.
fn reduce_onto(
    total: &mut BoxedSequence<i128>,
    op: Op,
    num_type: NumType,
    group: &Group,
    round: u32,
    members: &[RankId],
)
    requires full { is_full (contribution_in group.now round) members.now ≡ true }
    requires alike { AreAlike (contribution_in group.now round) num_type (length total.old) }
    requires range { AreInType num_type total.old }
    ensures reduced { total.new ≡ reduced_onto (contribution_in group.now round) op num_type total.old members.now }
    ensures range { AreInType num_type total.new }
    ensures lengths { length total.new ≡ length total.old }
{
    match members {
        [] => {}
        [member, others @ ..] => {
            reduce_contribution(total, op, num_type, group, round, *member);
            reduce_onto(total, op, num_type, group, round, others);
        }
    }
}

/// The reduction of the values of these ranks in a round, in their order; no values where there is no rank. Each of them has
/// contributed, and all contributions have as many values, of the same type.
fn reduction_of(
    alloc: Global,
    op: Op,
    num_type: NumType,
    group: &Group,
    round: u32,
    members: &[RankId],
) -> Result<Numbers, NoMemory>
    requires full { is_full (contribution_in group.now round) members.now ≡ true }
    requires alike { (count : ℕ) × AreAlike (contribution_in group.now round) num_type count }
    ensures { IfOk result (λ numbers. numbers ≡ reduction_of (contribution_in group.now round) op num_type members.now) }
{
    match members {
        [] => Ok(Numbers::new(num_type, BoxedSequence::new())),
        [first, others @ ..] => {
            let mut total = BoxedSequence::copied_from(alloc, values_in(group, round, *first))?;
            reduce_onto(&mut total, op, num_type, group, round, others);
            Ok(Numbers::new(num_type, total))
        }
    }
}

/// The reduction of the values of all members in the round of `me`, which is full, in the order of the ranks. All contributions to
/// it have as many values, of the same type. (GASPI: allreduce)
pub fn round_reduction(
    alloc: Global,
    group: &Group,
    me: RankId,
    op: Op,
    num_type: NumType,
) -> Result<Numbers, NoMemory>
    requires full { is_round_full group.now me ≡ true }
    requires alike { (count : ℕ) × AreAlike (contribution_in group.now (round_of group.now me)) num_type count }
    ensures { IfOk result (λ numbers. numbers ≡ round_reduction group.now me op num_type) }
{
    let round = round_of(group, me);
    let members = members_in(group);
    reduction_of(alloc, op, num_type, group, round, members.ranks())
}

/// The generation of the new segment in a rank's contribution to a round; 0 where the rank has not contributed.
fn generation_in(group: &Group, round: u32, rank: RankId) -> u32
    ensures { result ≡ generation_in (contribution_in group.now round rank) }
{
    match contribution_in(group, round, rank) {
        Some(given) => given.generation,
        None => 0,
    }
}

/// Makes segment `seg` of each of these ranks known in `posts`, in the generation that the rank contributed to the round.
fn make_known(posts: &mut Posts, group: &Group, round: u32, members: &[RankId], seg: u64, size: u32)
    ensures { posts.new ≡ with_made_known seg size (made_by (contribution_in group.now round) members.now) posts.old }
{
    match members {
        [] => {}
        [member, others @ ..] => {
            let generation = generation_in(group, round, *member);
            let extent = Some(Extent { generation, size });
            set_known(&mut posts.segments, *member, seg, extent);
            make_known(posts, group, round, others, seg, size);
        }
    }
}

/// Makes segment `seg` of every member known in `posts`, those of `me`, in the generations of their contributions to the round of
/// `me`. (GASPI: segment_create)
pub fn register_round(posts: &mut Posts, group: &Group, me: RankId, seg: u64, size: u32)
    ensures { posts.new ≡ with_made_known seg size (round_segments group.now me) posts.old }
{
    let members = members_in(group);
    make_known(
        posts,
        group,
        round_of(group, me),
        members.ranks(),
        seg,
        size,
    );
}

/// The member list of a group after a join: the one that is fixed, or else the list of a `commit`; None after another collective.
fn fixed_by(members: Option<u32>, coll: Coll) -> Option<u32>
    ensures { result ≡ fixed_by members coll }
{
    match members {
        Some(mask) => Some(mask),
        None => match coll {
            Coll::Commit(mask) => Some(mask),
            _ => None,
        },
    }
}

/// Appends a contribution to those of a rank. Where memory runs out nothing changes.
fn push_contribution(
    own: &mut RankContributions,
    contribution: Contribution,
) -> Result<(), NoMemory>
    ensures ok { OnOk result (own.new ≡ record own.old { contributions = own.old.contributions ++ contribution ∷ [] }) }
    ensures err { OnErr result (own.new ≡ own.old) }
{
    own.contributions.push(contribution)
}

/// Appends a contribution of `me` to the group, and fixes its member list by the first `commit`. What is pending is not set here.
/// Where memory runs out nothing changes. (GASPI: collectives)
#[tactic(auto, using(crate::proofs::PostedEntries::posts_lemmas))]
pub fn join_round(group: &mut Group, me: RankId, contribution: Contribution) -> Result<(), NoMemory>
    ensures ok { OnOk result (group.new ≡ with_joined group.old me contribution) }
    ensures err { OnErr result (group.new ≡ group.old) }
{
    let members = fixed_by(group.members, contribution.args.coll);
    let place = me.index();
    if place < group.contributions.len() {
        push_contribution(group.contributions.at_mut(place), contribution)?;
    }
    group.members = members;
    Ok(())
}

/// Counts one round more that `me` has completed. The contributions stay. (GASPI: collectives)
pub fn complete_round(group: &mut Group, me: RankId)
    requires { round_of group.old me + 1 < 2 ^ 32 }
    ensures { group.new ≡ with_completed group.old me }
{
    let place = me.index();
    if place < group.contributions.len() {
        group.contributions.at_mut(place).completed += 1;
    }
}
