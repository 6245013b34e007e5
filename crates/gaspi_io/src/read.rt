//! To read all that a source has left. `read_piece` makes one of its reads.

ghost use Rattle.std.specs.Prelude.{◌≡◌, ◌≤◌, ◌<◌, ◌+◌, ◌-◌, Some, Ok, true, false, [], length, IfOk, OnOk, IsErrOf};
ghost use Rattle.std.specs.Option.{ForSome};
ghost use Rattle.gaspi_io.specs.declared.read.ReadStop.TheVariants as stops;
ghost use Rattle.gaspi_io.specs.Faults.{HasCause};
ghost use Rattle.gaspi_io.specs.Source.{AddsPiece, TakesAtMost, without};

use crate::faults::Failed;
use crate::source::Source;
use gaspi_types::{Bytes, NoMemory};
use std::alloc::Global;

/// Why a source was not read to its end. What was read is lost.
#[derive(Clone, Copy, Debug, PartialEq, Eq)]
pub enum ReadStop {
    /// The source failed.
    Fault,
    /// There were more bytes than allowed.
    Long,
    /// Memory ran out for the bytes.
    NoMemory,
}

impl From<Failed> for ReadStop {
    ghost from_gives = { λ _ stop. stop ≡ stops.Fault };

    /// For the operator `?`, where the source failed.
    fn from(_failed: Failed) -> ReadStop {
        ReadStop::Fault
    }
}

impl From<NoMemory> for ReadStop {
    ghost from_gives = { λ _ stop. stop ≡ stops.NoMemory };

    /// For the operator `?`, where memory runs out.
    fn from(_error: NoMemory) -> ReadStop {
        ReadStop::NoMemory
    }
}

/// All bytes that a source has left, which are at most `most`. Where there are more, it stops at the first one past them.
pub fn read_all<S: Source>(alloc: Global, source: &mut S, most: u64) -> Result<Bytes, ReadStop>
    ensures within { IfOk result (λ bytes. length bytes ≤ most) }
    ensures all { IfOk result (λ bytes. ForSome (S.left source.old) (λ told. bytes ≡ told)) }
    ensures end { OnOk result (ForSome (S.left source.old) (λ told. S.left source.new ≡ Some [])) }

    // Why it stopped.
    ensures long { IsErrOf result ReadStop.Long
        → ForSome (S.left source.old) (λ told. most < length told) }
    ensures past { IsErrOf result ReadStop.Long
        → S.left source.new ≡ without (S.left source.old) (most + 1) }
    ensures cause { IsErrOf result ReadStop.Fault
        → HasCause (S.faults source.old) (S.faults source.new) }

    // Whatever the answer, the source has lost at most that many bytes from its front.
    ensures taken { TakesAtMost (most + 1) (S.left source.old) (S.left source.new) }
    ensures counted { S.faults source.old ≤ S.faults source.new }

    // Unless it failed, its count of faults is as it was.
    ensures still { OnOk result (S.faults source.new ≡ S.faults source.old) }
    ensures still_long { IsErrOf result ReadStop.Long → S.faults source.new ≡ S.faults source.old }
    ensures still_memory { IsErrOf result ReadStop.NoMemory → S.faults source.new ≡ S.faults source.old }
{
    let mut bytes = Bytes::new(alloc);
    loop {
        if !read_piece(source, most, &mut bytes)? {
            return Ok(bytes);
        }
    }
}

/// Adds the next piece of a source to the bytes, and answers whether there was one. It asks for at most one byte more than
/// `most` allows, and stops where that one comes.
fn read_piece<S: Source>(source: &mut S, most: u64, bytes: &mut Bytes) -> Result<bool, ReadStop>
    requires { length bytes.old ≤ most }
    ensures within { OnOk result (length bytes.new ≤ most) }
    ensures piece { OnOk result (AddsPiece (S.left source.old) (S.left source.new) bytes.old bytes.new) }
    ensures more { result ≡ Ok true → length bytes.old < length bytes.new }
    ensures end { result ≡ Ok false → ForSome (S.left source.old) (λ told. told ≡ []) }
    ensures same { result ≡ Ok false → bytes.new ≡ bytes.old }
    ensures long { IsErrOf result ReadStop.Long
        → ForSome (S.left source.old) (λ told. most < length bytes.old + length told) }
    ensures past { IsErrOf result ReadStop.Long
        → S.left source.new ≡ without (S.left source.old) (most + 1 - length bytes.old) }
    ensures cause { IsErrOf result ReadStop.Fault
        → HasCause (S.faults source.old) (S.faults source.new) }
    ensures taken { TakesAtMost (most + 1 - length bytes.old) (S.left source.old) (S.left source.new) }
    ensures counted { S.faults source.old ≤ S.faults source.new }
    ensures still { OnOk result (S.faults source.new ≡ S.faults source.old) }
    ensures still_long { IsErrOf result ReadStop.Long → S.faults source.new ≡ S.faults source.old }
    ensures still_memory { IsErrOf result ReadStop.NoMemory → S.faults source.new ≡ S.faults source.old }
{
    let mut buf = [0; PIECE];
    let allowed = most - bytes.len() as u64;
    let asked = if allowed < PIECE as u64 {
        allowed as usize + 1
    } else {
        PIECE
    };
    let count = source.read(&mut buf[..asked])?;
    if count == 0 {
        return Ok(false);
    }
    if count as u64 > allowed {
        return Err(ReadStop::Long);
    }
    bytes.append(&buf[..count])?;
    Ok(true)
}

/// How many bytes are asked for in one read.
const PIECE: usize = 4096;
