//! The rounds of one group: what other crates see of this one. A function requires of its rank what the counts in the buffers say
//! (`may_join`, `full`), for a group that the buffers represent. (GASPI: collectives)

ghost use Rattle.std.specs.Prelude.{◌≡◌, ℕ, ◌<◌, ◌≤◌, true, Some, length, IfOk, OnOk, OnErr};
ghost use Rattle.gaspi_types.specs.Collectives.{contribution_in, round_of, fixed_by, is_round_full, round_checks, round_reduction, round_segments, with_joined, with_completed};
ghost use Rattle.gaspi_types.specs.declared.collectives.Coll.TheVariants.{Allreduce};
ghost use Rattle.gaspi_types.specs.declared.collectives.NumType.{NumType};
ghost use Rattle.gaspi_types.specs.declared.collectives.Op.{Op};
ghost use Rattle.gaspi_types.specs.declared.groups.Group.{Group};
ghost use Rattle.gaspi_model.specs.RoundRules.{coll_in};
ghost use Rattle.collective_engine.specs.RoundBuffers.{ranks_of};

use crate::buffers::{Buffers, contribute, counts, leave, opening};
use crate::generations::Generations;
use crate::reading::{check, generations, is_full, own_coll};
use crate::reductions::reduction_of;
use gaspi_model::{Members, members_of};
use gaspi_types::{Args, BoxedSequence, Coll, NoMemory, Numbers, RankId, Refusal, is_member};
use std::alloc::Global;
use std::marker::Model;

/// The rounds of one group: its member list, once that is fixed, and the contributions of ranks. Contracts speak of each group of
/// the machine that the buffers represent; what functions require is said by the counts in the buffers.
#[derive(Debug, Drop)]
pub struct Rounds {
    /// The member list, bit r for rank r; None where it is not fixed.
    members: Option<u32>,
    /// The members by rising rank; none where they are not fixed.
    ranks: Members,
    /// The contributions to the last two rounds.
    buffers: Buffers,
}

impl Model for Rounds {
    ghost use Rattle.collective_engine.specs.RoundBuffers.{RoundBuffers};

    ghost Value = { RoundBuffers };

    ghost use Rattle.collective_engine.specs.Rounds.{round_buffers, IsRounds};

    ghost view = { round_buffers };

    ghost invariant = { IsRounds };
}

/// The ranks of a member list; none where there is no list.
fn ranks_of(members: Option<u32>) -> Members
    ensures { result ≡ ranks_of members }
{
    members_of(members.unwrap_or(0))
}

/// Fixes the member list by the first `commit`. Any other collective changes nothing.
fn fix(members: &mut Option<u32>, ranks: &mut Members, coll: Coll)
    requires { ranks.old ≡ ranks_of members.old }
    ensures members { members.new ≡ fixed_by members.old coll }
    ensures ranks { ranks.new ≡ ranks_of members.new }
{
    if let (None, Coll::Commit(mask)) = (*members, coll) {
        *members = Some(mask);
        *ranks = members_of(mask);
    }
}

impl Rounds {
    ghost use Rattle.collective_engine.specs.KeptContributions.{HasItsValues, elements_of, TakesFold};
    ghost use Rattle.collective_engine.specs.RoundBuffers.{is_in, may_join, own_contribution, is_full_for, Represents, IsOpening};

    /// The rounds of a group with no contribution. The member list of group 0 is given, bit r for rank r; that of another group is
    /// None, and its first `commit` fixes it. All memory is taken here. (GASPI: groups)
    pub fn new(alloc: Global, members: Option<u32>) -> Result<Rounds, NoMemory>
        ensures { IfOk result (λ rounds. (g : Group) → IsOpening g members → Represents g rounds) }
    {
        Ok(Rounds {
            members,
            ranks: ranks_of(members),
            buffers: opening(alloc)?,
        })
    }

    /// Checks a collective of a rank against the contributions to the rank's round: it is theirs, values aside; else
    /// `CollectiveMismatch`. `may_join` holds of the rank. Nothing changes. (GASPI: collectives)
    pub fn fits(&self, rank: RankId, args: &Args) -> Result<(), Refusal>
        requires { may_join self.now rank args.now.coll ≡ true }
        ensures { (g : Group) → Represents g self.now → result ≡ round_checks g rank args.now.coll }
    {
        check(&self.buffers, self.ranks.ranks(), rank.index(), args.coll)
    }

    /// Appends a contribution of a rank to its round; the first `commit` fixes the member list. `generation` is that of the new
    /// segment, 0 where there is none. `CollectiveMismatch` as `fits` says, and then nothing changes. `may_join` holds of the rank,
    /// and the arguments have as many values as their collective says. It takes no memory. (GASPI: collectives)
    pub fn join(&mut self, rank: RankId, args: &Args, generation: u32) -> Result<(), Refusal>
        requires rank { may_join self.old rank args.now.coll ≡ true }
        requires values { HasItsValues args.now }
        ensures answer { (g : Group) → Represents g self.old → result ≡ round_checks g rank args.now.coll }
        ensures joined { OnOk result ((g : Group) → Represents g self.old → rank < length g.contributions
            → Represents (with_joined g rank (record { args = args.now; generation = generation })) self.new) }
        ensures refused { OnErr result (self.new ≡ self.old) }
    {
        let place = rank.index();
        check(&self.buffers, self.ranks.ranks(), place, args.coll)?;
        fix(&mut self.members, &mut self.ranks, args.coll);
        contribute(&mut self.buffers, rank, args, generation);
        Ok(())
    }

    /// Whether a rank is a member; false for every rank where the members are not fixed.
    pub fn is_member(&self, rank: RankId) -> bool
        ensures { result ≡ is_in self.now.members rank }
    {
        match self.members {
            Some(mask) => is_member(mask, rank),
            None => false,
        }
    }

    /// Whether a rank may contribute to its round with a collective, as far as the counts say: it is a member, or is in the list of
    /// the `commit` that fixes the members; and it has completed each round to which it has contributed, fewer than 4,294,967,295.
    /// Whether its collective fits is asked by `fits`.
    pub fn may_join(&self, rank: RankId, coll: Coll) -> bool
        ensures { result ≡ may_join self.now rank coll }
    {
        let (joined, completed) = counts(&self.buffers, rank);
        let is_one = match (self.members, coll) {
            (Some(mask), _) | (None, Coll::Commit(mask)) => is_member(mask, rank),
            _ => false,
        };
        is_one && joined == completed && joined < 4_294_967_295
    }

    /// Whether the round of a rank is full. (GASPI: collectives)
    pub fn full(&self, rank: RankId) -> bool
        ensures value { result ≡ is_full_for self.now rank }
        ensures group { (g : Group) → Represents g self.now → result ≡ is_round_full g rank }
        ensures own { (g : Group) → Represents g self.now → contribution_in g (round_of g rank) rank ≡ own_contribution self.now rank }
    {
        let round = self.buffers.completed[rank.index()];
        is_full(&self.buffers, round, self.ranks.ranks())
    }

    /// How many values the round of a rank comes to, where the rank has contributed an allreduce; else None.
    pub fn elements(&self, rank: RankId) -> Option<u32>
        ensures { result ≡ elements_of (coll_in (own_contribution self.now rank)) }
    {
        match own_coll(&self.buffers, rank) {
            Some(Coll::Allreduce(_op, _num_type, count)) => Some(count),
            _ => None,
        }
    }

    /// The reduction of the values of all members in the round of a rank, in the order of the ranks. The rank is a member, the round
    /// is full, and it is an allreduce. The values are put into `reserved`, which is long enough, as `elements` tells. It takes no
    /// memory. (GASPI: allreduce)
    pub fn result(&self, rank: RankId, reserved: BoxedSequence<i128>) -> Numbers
        requires member { is_in self.now.members rank ≡ true }
        requires full { is_full_for self.now rank ≡ true }
        requires reserved { TakesFold (elements_of (coll_in (own_contribution self.now rank))) (length reserved) }
        ensures fits { length result.items ≤ length reserved }
        ensures numbers { (g : Group) (op : Op) (t : NumType) (n : ℕ) → Represents g self.now
            → coll_in (contribution_in g (round_of g rank) rank) ≡ Some (Allreduce op t n) → result ≡ round_reduction g rank op t }
    {
        let round = self.buffers.completed[rank.index()];
        match own_coll(&self.buffers, rank) {
            Some(Coll::Allreduce(op, num_type, count)) => {
                let members = self.ranks.ranks();
                reduction_of(&self.buffers, round, op, num_type, count, reserved, members)
            }
            _ => unreachable!(),
        }
    }

    /// The generations of the new segments of all members in the round of a rank, which is a member. It takes no memory.
    /// (GASPI: segment_create)
    pub fn generations(&self, rank: RankId) -> Generations
        requires { is_in self.now.members rank ≡ true }
        ensures { (g : Group) → Represents g self.now → result ≡ round_segments g rank }
    {
        let round = self.buffers.completed[rank.index()];
        generations(&self.buffers, round, self.ranks.ranks())
    }

    /// Completes the round of a rank, which is a member; the round is full. One completed round more is counted for the rank; the
    /// contributions stay. (GASPI: collectives)
    pub fn leave(&mut self, rank: RankId)
        requires member { is_in self.old.members rank ≡ true }
        requires full { is_full_for self.old rank ≡ true }
        ensures { (g : Group) → Represents g self.old → Represents (with_completed g rank) self.new }
    {
        leave(&mut self.buffers, rank.index());
    }
}
