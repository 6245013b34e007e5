//! One contribution as a buffer stores it: its memory is taken once, and a later contribution is written over it.
//! (GASPI: collectives)

ghost use Rattle.std.specs.Prelude.{◌≡◌, ◌≤◌, length, IfOk};
ghost use Rattle.gaspi_types.specs.NumberTypes.{AreInType};

use gaspi_types::{Args, Coll, NoMemory, NumType, Sequence};
use std::alloc::Global;
use std::marker::Model;

/// A stored contribution of up to 255 values. Contracts see the contribution.
#[derive(Debug, Drop)]
pub(crate) struct KeptContribution {
    /// The collective, values aside.
    coll: Coll,
    /// The type of the values.
    num_type: NumType,
    /// 255 numbers, of which the first `count` are the values of the contribution.
    numbers: Sequence<i128>,
    /// How many values there are.
    count: usize,
    /// The generation of a new segment, or 0.
    generation: u32,
}

impl Model for KeptContribution {
    ghost use Rattle.gaspi_types.specs.declared.groups.Contribution.{Contribution};

    ghost Value = { Contribution };

    ghost use Rattle.collective_engine.specs.KeptContributions.{kept_in, IsKeptContribution};

    ghost view = { kept_in };

    ghost invariant = { IsKeptContribution };
}

impl KeptContribution {
    /// A stored contribution of no account, for a rank that has not contributed. All its memory is taken here.
    pub(crate) fn empty(alloc: Global) -> Result<KeptContribution, NoMemory> {
        Ok(KeptContribution {
            coll: Coll::Barrier,
            num_type: NumType::Int,
            numbers: Sequence::from_vec(vec![in alloc; 0; 255]?),
            count: 0,
            generation: 0,
        })
    }

    /// Stores a contribution over the one that was there. It takes no memory.
    pub(crate) fn put(&mut self, args: &Args, generation: u32)
        requires { length args.now.values.items ≤ 255 }
        ensures { self.new ≡ record { args = args.now; generation = generation } }
    {
        let items = args.values.items();
        self.coll = args.coll;
        self.num_type = args.values.num_type();
        self.numbers.overwrite(0, items);
        self.count = items.len();
        self.generation = generation;
    }

    /// The collective of the contribution, values aside.
    pub(crate) fn coll(&self) -> Coll
        ensures { result ≡ self.now.args.coll }
    {
        self.coll
    }

    /// The values of the contribution.
    pub(crate) fn values(&self) -> &[i128]
        ensures items { result.now ≡ self.now.args.values.items }
        ensures range { AreInType self.now.args.values.num_type self.now.args.values.items }
    {
        &self.numbers.as_slice()[..self.count]
    }

    /// The generation of the new segment in the contribution; 0 where there is none.
    pub(crate) fn generation(&self) -> u32
        ensures { result ≡ self.now.generation }
    {
        self.generation
    }
}
