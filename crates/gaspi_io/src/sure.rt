//! A source and a sink in memory that never fail.

ghost use Rattle.std.specs.Prelude.{◌≡◌, ◌++◌, ◌≤◌, [], Some, None, Ok, length, min, take, drop, IsOk, IfOk};
ghost use Rattle.std.specs.Vec.{vec_capacity, vec_len};
ghost use Rattle.gaspi_io.specs.Source.{PutsPrefix};
ghost use Rattle.gaspi_io.specs.Memory.{SureSinkState};

use crate::faults::Failed;
use crate::front::put_prefix;
use crate::sink::Sink;
use crate::source::Source;
use gaspi_types::{Bytes, NoMemory, Sequence};
use std::alloc::Global;
use std::marker::Model;

/// A source over bytes in memory, which never fails. Contracts see it as the bytes that are left.
#[derive(Debug, Drop)]
pub struct SureSource {
    bytes: Bytes,
    position: usize,
}

impl Model for SureSource {
    ghost use Rattle.std.specs.Prelude.{ℕ, List, ◌≤◌, length, drop};

    ghost Value = { List ℕ };

    ghost view = { λ s. drop s.position s.bytes };

    ghost invariant = { λ s. s.position ≤ length s.bytes };
}

impl SureSource {
    /// A source of these bytes.
    pub fn new(bytes: Bytes) -> SureSource
        ensures { result ≡ bytes }
    {
        SureSource { bytes, position: 0 }
    }
}

impl Source for SureSource {
    ghost left = { λ s. Some s };

    ghost faults = { λ _. 0 };

    /// Puts as many bytes as are left, and as the buffer has room for, at its front.
    fn read(&mut self, buf: &mut [u8]) -> Result<usize, Failed>
        ensures never_fails { result ≡ Ok (min (length self.old) (length buf.old)) }
        ensures front { PutsPrefix self.old (min (length self.old) (length buf.old)) buf.old buf.new }
        ensures rest { self.new ≡ drop (length buf.old) self.old }
    {
        let left = &self.bytes.as_slice()[self.position..];
        let count = left.len().min(buf.len());
        put_prefix(left, count, buf);
        self.position += count;
        Ok(count)
    }
}

/// A sink in memory that never fails. Contracts see it as a `SureSinkState`.
///
/// It has room for a number of bytes, takes every byte that is written, and keeps those that fit into its room: a prefix of all
/// that was written. Memory is bounded, so no sink can hold all that it takes and never fail. So this one does not tell its
/// bytes as a sink; its own contract says which it keeps.
#[derive(Debug, Drop)]
pub struct SureSink {
    bytes: Vec<u8>,
    room: usize,
}

impl Model for SureSink {
    ghost Value = { SureSinkState };

    ghost view = { λ s. record { kept = s.bytes.items; room = s.room } };

    ghost invariant = { λ s. (vec_len s.bytes ≤ s.room) × (s.room ≤ vec_capacity s.bytes) };
}

impl SureSink {
    /// A sink that keeps nothing yet, with room for `room` bytes.
    pub fn with_capacity(alloc: Global, room: usize) -> Result<SureSink, NoMemory>
        ensures { IfOk result (λ sink. sink ≡ record { kept = []; room = room }) }
    {
        Ok(SureSink {
            bytes: Vec::with_capacity(alloc, room)?,
            room,
        })
    }

    /// The bytes kept.
    pub fn bytes(&self) -> &[u8]
        ensures { result.now ≡ self.now.kept }
    {
        self.bytes.as_slice()
    }

    /// The bytes kept. No memory is taken.
    pub fn into_bytes(self) -> Bytes
        ensures { result ≡ self.kept }
    {
        let SureSink { bytes, .. } = self;
        Sequence::from_vec(bytes)
    }
}

impl Sink for SureSink {
    ghost held = { λ _. None };

    ghost faults = { λ _. 0 };

    /// Takes the whole piece, and keeps what fits into the room.
    fn write(&mut self, piece: &[u8]) -> Result<usize, Failed>
        ensures never_fails { result ≡ Ok (length piece.now) }
        ensures kept { self.new.kept ≡ take self.old.room (self.old.kept ++ piece.now) }
        ensures room { self.new.room ≡ self.old.room }
    {
        let count = (self.room - self.bytes.len()).min(piece.len());
        self.bytes.extend_from_slice(&piece[..count]).unwrap();
        Ok(piece.len())
    }
}
