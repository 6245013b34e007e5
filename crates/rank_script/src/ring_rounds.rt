//! The lines of a rank in the ring of `bench`. Only the seven of one bench round are in memory at a time: `renew` functions overwrite
//! them with those of the next, and take no memory. `sent` is the number that the rank sends in a bench round, `received` the one that
//! comes to it.

ghost use Rattle.std.specs.Prelude.{◌≡◌, ◌+◌, ◌<◌, ◌≤◌, ◌∷◌, List, ℕ, [], length, drop, slice_get, IfOk, Some, true, false};
ghost use Rattle.byteorder.specs.Endian.{little_bytes};
ghost use Rattle.rank_script.specs.Bench.{bench_lines, once_line};
ghost use Rattle.rank_script.specs.PlainScripts.{has_look_in};
ghost use Rattle.rank_script.specs.Rounds.{round_with, store_with, load_with, lines_in};

use crate::expected::ExpectedReply;
use crate::generator::after_draws;
use crate::line_timeouts::LineTimeout;
use crate::ring_ranks::RingRank;
use crate::scripts::ScriptLine;
use byteorder::{ByteOrder, LittleEndian};
use gaspi_types::{
    Barrier, Bytes, Call, Load, NoMemory, Reply, Reset, Sequence, Store, Timeout, Wait, Waitsome,
    WriteNotify,
};
use std::alloc::Global;
use std::marker::Model;

/// The line with this number, whose call is made once. The timeout has one look at least.
fn once_line(
    number: u64,
    call: Call,
    timeout: Timeout,
    expected: Option<ExpectedReply>,
) -> ScriptLine
    requires { has_look_in timeout ≡ true }
    ensures { result ≡ once_line number call timeout expected }
{
    ScriptLine {
        number,
        call,
        timeout: LineTimeout::new(timeout),
        tries: 1,
        expected,
    }
}

/// The eight bytes of a number, the lowest first.
fn number_bytes(number: u32) -> [u8; 8]
    ensures { result ≡ little_bytes 8 number }
{
    let mut bytes = [0u8; 8];
    LittleEndian::write_u64(&mut bytes, u64::from(number));
    bytes
}

/// Makes the `store` line of one bench round that of another, with this line number, which stores `sent`.
fn renew_store(line: &mut ScriptLine, number: u64, sent: u32)
    requires { (n : ℕ) × (bytes : List ℕ) × (line.old ≡ store_with n bytes) × (length bytes ≡ 8) }
    ensures { line.new ≡ store_with number (little_bytes 8 sent) }
{
    line.number = number;
    if let Call::Store(store) = &mut line.call {
        store.bytes.overwrite(0, &number_bytes(sent));
    }
}

/// Makes the `load` line of one bench round that of another, with this line number, which expects `received`.
fn renew_load(line: &mut ScriptLine, number: u64, received: u32)
    requires { (n : ℕ) × (bytes : List ℕ) × (line.old ≡ load_with n bytes) × (length bytes ≡ 8) }
    ensures { line.new ≡ load_with number (little_bytes 8 received) }
{
    line.number = number;
    if let Some(expected) = &mut line.expected {
        expected.renew_bytes(&number_bytes(received));
    }
}

/// The seven lines of a bench round, in their order.
#[derive(Debug)]
struct Round {
    /// The number that the rank sends is stored.
    store: ScriptLine,
    /// A write of it to the right neighbour is posted, with a notification.
    post: ScriptLine,
    /// The queue is waited for.
    wait: ScriptLine,
    /// The notification of the left neighbour is waited for.
    waitsome: ScriptLine,
    /// Its slot is reset.
    reset: ScriptLine,
    /// The number that came is loaded and compared.
    load: ScriptLine,
    /// A barrier of all ranks.
    barrier: ScriptLine,
}

impl Round {
    /// The lines of a bench round in which a rank sends `sent` to its right neighbour and gets `received`. `number` is that of the
    /// first line. The only failure is out of memory.
    fn new(
        alloc: Global,
        number: u64,
        right: u32,
        sent: u32,
        received: u32,
    ) -> Result<Round, NoMemory>
        requires { number < 1000000 }
        ensures { IfOk result (λ round. round ≡ round_with number right (little_bytes 8 sent) (little_bytes 8 received)) }
    {
        let bytes: Bytes = Sequence::copied_from(alloc, &number_bytes(received))?;
        let bytes = Some(ExpectedReply::new(alloc, Reply::Bytes(bytes))?);
        let slot = Some(ExpectedReply::new(alloc, Reply::Id(0))?);
        let value = Some(ExpectedReply::new(alloc, Reply::Value(1))?);
        let store = Call::Store(Store {
            seg: 0,
            offset: 0,
            bytes: Sequence::copied_from(alloc, &number_bytes(sent))?,
        });
        let post = Call::WriteNotify(WriteNotify {
            seg: 0,
            offset: 0,
            rank: u64::from(right),
            rseg: 0,
            roffset: 8,
            size: 8,
            note: 0,
            value: 1,
            queue: 0,
        });
        let wait = Call::Wait(Wait { queue: 0 });
        let waitsome = Call::Waitsome(Waitsome {
            seg: 0,
            begin: 0,
            num: 1,
        });
        let reset = Call::Reset(Reset { seg: 0, note: 0 });
        let load = Call::Load(Load {
            seg: 0,
            offset: 8,
            size: 8,
        });
        let barrier = Call::Barrier(Barrier { group: 0 });
        Ok(Round {
            store: once_line(number, store, Timeout::Looks(1), None),
            post: once_line(number + 1, post, Timeout::Looks(1), None),
            wait: once_line(number + 2, wait, Timeout::Block, None),
            waitsome: once_line(number + 3, waitsome, Timeout::Block, slot),
            reset: once_line(number + 4, reset, Timeout::Looks(1), value),
            load: once_line(number + 5, load, Timeout::Looks(1), bytes),
            barrier: once_line(number + 6, barrier, Timeout::Block, None),
        })
    }

    /// The line with this index in the bench round.
    fn at(&self, place: u32) -> &ScriptLine
        requires { place < 7 }
        ensures { slice_get (lines_in self.now) place ≡ Some result.now }
    {
        match place {
            0 => &self.store,
            1 => &self.post,
            2 => &self.wait,
            3 => &self.waitsome,
            4 => &self.reset,
            5 => &self.load,
            _ => &self.barrier,
        }
    }

    /// Overwrites the lines with those of another bench round, whose first line has this number. It takes no memory.
    fn renew(&mut self, number: u64, sent: u32, received: u32)
        requires number { number < 1000000 }
        requires round { (n right : ℕ) × (s r : List ℕ) × (self.old ≡ round_with n right s r) × (length s ≡ 8) × (length r ≡ 8) }
        ensures { (n right : ℕ) (s r : List ℕ) → self.old ≡ round_with n right s r → self.new ≡ round_with number right (little_bytes 8 sent) (little_bytes 8 received) }
    {
        renew_store(&mut self.store, number, sent);
        self.post.number = number + 1;
        self.wait.number = number + 2;
        self.waitsome.number = number + 3;
        self.reset.number = number + 4;
        renew_load(&mut self.load, number + 5, received);
        self.barrier.number = number + 6;
    }
}

/// Drops a line. `Round` calls it for each of its seven lines, so that its proof has seven calls and no more.
fn drop_line(_line: ScriptLine) {}

impl Drop for Round {
    /// Drops the seven lines.
    fn drop(self) {
        let Round {
            store,
            post,
            wait,
            waitsome,
            reset,
            load,
            barrier,
        } = self;
        drop_line(store);
        drop_line(post);
        drop_line(wait);
        drop_line(waitsome);
        drop_line(reset);
        drop_line(load);
        drop_line(barrier);
    }
}

/// The lines of a rank in the ring from the present one on, of which there is one at least. Those of the present bench round are in
/// memory.
#[derive(Debug, Drop)]
pub(crate) struct RoundLines {
    /// The rank, with its ring.
    ring: RingRank,
    /// The present bench round, from 0.
    round: u32,
    /// How many bench rounds come after it.
    later: u32,
    /// The index of the present line in its bench round.
    place: u32,
    /// The number that the rank sends in the present bench round.
    sent: u32,
    /// The number that comes to the rank in it.
    received: u32,
    /// The lines of the present bench round.
    lines: Round,
}

impl Model for RoundLines {
    ghost use Rattle.std.specs.Prelude.{List};
    ghost use Rattle.rank_script.specs.declared.scripts.ScriptLine.{ScriptLine};

    ghost Value = { List ScriptLine };

    ghost use Rattle.rank_script.specs.RoundLines.{lines_left, IsAtRound};

    ghost view = { lines_left };

    ghost invariant = { IsAtRound };
}

impl RoundLines {
    /// All lines of a rank in the ring. Memory for one bench round is taken here, and none later. The only failure is out of memory.
    pub(crate) fn new(alloc: Global, ring: RingRank) -> Result<RoundLines, NoMemory>
        ensures { IfOk result (λ lines. lines ≡ bench_lines ring.seed ring.ranks ring.rounds ring.rank ring.rounds) }
    {
        let sent = after_draws(ring.seed, ring.rank + 1);
        let received = after_draws(ring.seed, ring.left() + 1);
        Ok(RoundLines {
            ring,
            round: 0,
            later: ring.rounds - 1,
            place: 0,
            sent,
            received,
            lines: Round::new(alloc, ring.first_number(), ring.right(), sent, received)?,
        })
    }

    /// The present line.
    pub(crate) fn first(&self) -> &ScriptLine
        ensures { self.now ≡ result.now ∷ drop 1 self.now }
    {
        self.lines.at(self.place)
    }

    /// Goes on to the next line; after the last of a bench round the lines are overwritten with those of the next. False where no line
    /// comes after the present one: then nothing changes. It takes no memory.
    pub(crate) fn step(&mut self) -> bool
        ensures some { 1 ≤ length self.old }
        ensures more { result ≡ true → self.new ≡ drop 1 self.old }
        ensures over { result ≡ false → drop 1 self.old ≡ [] }
    {
        if self.place < 6 {
            self.place += 1;
            return true;
        }
        if self.later == 0 {
            return false;
        }
        self.place = 0;
        self.round += 1;
        self.later -= 1;
        self.sent = after_draws(self.sent, self.ring.ranks);
        self.received = after_draws(self.received, self.ring.ranks);
        let number = self.ring.first_number() + 7 * u64::from(self.round);
        self.lines.renew(number, self.sent, self.received);
        true
    }
}
