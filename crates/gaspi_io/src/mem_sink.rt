//! A sink in memory, which fails at the writes that a test chose, and where memory runs out.

ghost use Rattle.std.specs.Prelude.{◌≡◌, ◌≤◌, ◌<◌, ◌+◌, ◌++◌, ◌⊎◌, [], Some, length, min, take, IsTrue, IsErr, IfOk, OnErr};
ghost use Rattle.std.specs.Vec.{vec_capacity};
ghost use Rattle.gaspi_io.specs.Faults.{HasCause, one_more};
ghost use Rattle.gaspi_io.specs.Memory.{SinkState, is_failing};

use crate::faults::Failed;
use crate::sink::Sink;
use gaspi_types::{Bytes, NoMemory, Sequence};
use std::alloc::Global;
use std::marker::Model;

/// A sink that holds in memory what is written to it. Contracts see it as a `SinkState`.
///
/// A write fails where its number was chosen, or where memory for its bytes runs out.
#[derive(Debug, Drop)]
pub struct MemSink {
    bytes: Vec<u8>,
    most: usize,
    failing: Sequence<u64>,
    calls: u64,
    faults: u64,
}

impl Model for MemSink {
    ghost Value = { SinkState };

    ghost view = { λ s. record {
      held = s.bytes.items;
      room = vec_capacity s.bytes;
      most = s.most;
      failing = s.failing;
      calls = s.calls;
      faults = s.faults;
    } };

    ghost invariant = { λ s. 0 < s.most };
}

impl MemSink {
    /// A sink that holds nothing. A write takes its whole piece, and fails only where memory runs out.
    pub fn new(alloc: Global) -> MemSink
        ensures { result ≡ record {
          held = [];
          room = 0;
          most = usize.MAX;
          failing = [];
          calls = 0;
          faults = 0;
        } }
    {
        MemSink::over(alloc, Vec::new(alloc))
    }

    /// The same, with memory for `room` bytes, up to which no write takes memory.
    pub fn with_capacity(alloc: Global, room: usize) -> Result<MemSink, NoMemory>
        ensures { IfOk result (λ sink. sink ≡ record {
          held = [];
          room = room;
          most = usize.MAX;
          failing = [];
          calls = 0;
          faults = 0;
        }) }
    {
        Ok(MemSink::over(alloc, Vec::with_capacity(alloc, room)?))
    }

    /// Counts a fault, and answers that the write failed.
    fn fail(&mut self) -> Result<usize, Failed>
        ensures failed { IsErr result }
        ensures counted { self.new ≡ record self.old { faults = one_more self.old.faults } }
        ensures risen { HasCause self.old.faults self.new.faults }
        ensures above { self.old.faults ≤ self.new.faults }
    {
        self.faults = self.faults.saturating_add(1);
        Err(Failed)
    }

    /// A sink that holds these bytes, and has no chosen write; for `new` and `with_capacity`.
    fn over(alloc: Global, bytes: Vec<u8>) -> MemSink
        ensures { result ≡ record {
          held = bytes.items;
          room = vec_capacity bytes;
          most = usize.MAX;
          failing = [];
          calls = 0;
          faults = 0;
        } }
    {
        MemSink {
            bytes,
            most: usize::MAX,
            failing: Sequence::new(alloc),
            calls: 0,
            faults: 0,
        }
    }

    /// From now on a write takes at most `most` bytes of its piece.
    pub fn set_piece(&mut self, most: usize)
        requires { 0 < most }
        ensures { self.new ≡ record self.old { most = most } }
    {
        self.most = most;
    }

    /// From now on the writes with these numbers fail, and no others that were chosen before. The first write has the number 0.
    pub fn set_failing(&mut self, calls: Sequence<u64>)
        ensures { self.new ≡ record self.old { failing = calls } }
    {
        self.failing = calls;
    }

    /// The bytes held.
    pub fn bytes(&self) -> &[u8]
        ensures { result.now ≡ self.now.held }
    {
        self.bytes.as_slice()
    }

    /// The bytes held. No memory is taken.
    pub fn into_bytes(self) -> Bytes
        ensures { result ≡ self.held }
    {
        let MemSink { bytes, .. } = self;
        Sequence::from_vec(bytes)
    }

    /// How many writes have failed.
    pub fn faults(&self) -> u64
        ensures { result ≡ self.now.faults }
    {
        self.faults
    }
}

impl Sink for MemSink {
    ghost held = { λ s. Some s.held };

    ghost faults = { λ s. s.faults };

    /// Adds the first bytes of the piece to those held. It fails where the number of this write was chosen, or where memory
    /// runs out beyond the room; then the bytes held stay.
    fn write(&mut self, piece: &[u8]) -> Result<usize, Failed>
        ensures failing { IsTrue (is_failing self.old.failing self.old.calls) → IsErr result }
        ensures only { OnErr result (IsTrue (is_failing self.old.failing self.old.calls)
            ⊎ (self.old.room < length self.old.held + min self.old.most (length piece.now))) }
        ensures taken { IfOk result (λ n. n ≡ min self.old.most (length piece.now)) }
        ensures ok { IfOk result (λ n. self.new ≡ record self.old {
          held = self.old.held ++ take n piece.now;
          room = self.new.room;
          calls = one_more self.old.calls;
        }) }
        ensures err { OnErr result (self.new ≡ record self.old {
          calls = one_more self.old.calls;
          faults = one_more self.old.faults;
        }) }
        ensures room { self.old.room ≤ self.new.room }

        // As of every sink.
        ensures some { IfOk result (λ n. 0 < length piece.now → 0 < n) }
        ensures cause { OnErr result (HasCause self.old.faults self.new.faults) }
        ensures counted { self.old.faults ≤ self.new.faults }
    {
        let failing = self.failing.as_slice().contains(&self.calls);
        let count = self.most.min(piece.len());
        self.calls = self.calls.saturating_add(1);
        if failing {
            return self.fail();
        }
        if self.bytes.reserve(count).is_err() {
            return self.fail();
        }
        self.bytes.extend_from_slice(&piece[..count]).unwrap();
        Ok(count)
    }
}
