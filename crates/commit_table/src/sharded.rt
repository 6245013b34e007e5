//! The machine whose events a table's threads commit.
ghost use Rattle.commit_table.specs.Machine.{Machine, Laws};

/// A machine whose state lies in shards. A value of the type is the start of one such machine.
pub trait Sharded: Drop {
    /// The value of a shard.
    type Shard: Drop;

    /// An event, by which the machine makes a step.
    type Event;

    /// The machine with this start.
    ghost machine: { Self → Machine Self.Shard Self.Event };

    /// It has the laws that a commit table asks.
    ghost lawful: { (start : Self) → Laws (machine start) };
}
