//! A source in memory, which fails at the reads that a test chose.

ghost use Rattle.std.specs.Prelude.{◌≡◌, ◌≤◌, ◌<◌, [], Some, length, min, drop, is_err, IfOk, OnErr};
ghost use Rattle.gaspi_io.specs.Faults.{HasCause, one_more};
ghost use Rattle.gaspi_io.specs.Source.{PutsPrefix, EndsOnly};
ghost use Rattle.gaspi_io.specs.Memory.{SourceState, is_failing};

use crate::faults::Failed;
use crate::front::put_prefix;
use crate::source::Source;
use gaspi_types::{Bytes, Sequence};
use std::marker::Model;

/// A source over bytes in memory. Contracts see it as a `SourceState`.
#[derive(Debug, Drop)]
pub struct MemSource {
    bytes: Bytes,
    position: usize,
    most: usize,
    failing: Sequence<u64>,
    calls: u64,
    faults: u64,
}

impl Model for MemSource {
    ghost Value = { SourceState };

    ghost view = { λ s. record {
      left = drop s.position s.bytes;
      most = s.most;
      failing = s.failing;
      calls = s.calls;
      faults = s.faults;
    } };

    ghost invariant = { λ s. (s.position ≤ length s.bytes) × (0 < s.most) };
}

impl MemSource {
    /// A source of these bytes. A read gives as many as it can, and none fails. No memory is taken.
    pub fn new(bytes: Bytes) -> MemSource
        ensures { result ≡ record {
          left = bytes;
          most = usize.MAX;
          failing = [];
          calls = 0;
          faults = 0;
        } }
    {
        let bytes = bytes.into_vec();
        let alloc = *bytes.allocator();
        MemSource {
            bytes: Sequence::from_vec(bytes),
            position: 0,
            most: usize::MAX,
            failing: Sequence::new(alloc),
            calls: 0,
            faults: 0,
        }
    }

    /// From now on a read gives at most `most` bytes.
    pub fn set_piece(&mut self, most: usize)
        requires { 0 < most }
        ensures { self.new ≡ record self.old { most = most } }
    {
        self.most = most;
    }

    /// From now on the reads with these numbers fail, and no others that were chosen before. The first read has the number 0.
    pub fn set_failing(&mut self, calls: Sequence<u64>)
        ensures { self.new ≡ record self.old { failing = calls } }
    {
        self.failing = calls;
    }

    /// How many reads have failed.
    pub fn faults(&self) -> u64
        ensures { result ≡ self.now.faults }
    {
        self.faults
    }
}

impl Source for MemSource {
    ghost left = { λ s. Some s.left };

    ghost faults = { λ s. s.faults };

    /// Puts the next bytes at the front of the buffer. It fails exactly where the number of this read was chosen; then the
    /// bytes left and the buffer stay.
    fn read(&mut self, buf: &mut [u8]) -> Result<usize, Failed>
        ensures failing { is_err result ≡ is_failing self.old.failing self.old.calls }
        ensures given { IfOk result (λ n.
            n ≡ min self.old.most (min (length self.old.left) (length buf.old))) }
        ensures front { IfOk result (λ n. PutsPrefix self.old.left n buf.old buf.new) }
        ensures untouched { OnErr result (buf.new ≡ buf.old) }
        ensures ok { IfOk result (λ n. self.new ≡ record self.old {
          left = drop n self.old.left;
          calls = one_more self.old.calls;
        }) }
        ensures err { OnErr result (self.new ≡ record self.old {
          calls = one_more self.old.calls;
          faults = one_more self.old.faults;
        }) }

        // As of every source.
        ensures end { IfOk result (λ n. EndsOnly self.old.left n buf.old) }
        ensures cause { OnErr result (HasCause self.old.faults self.new.faults) }
        ensures counted { self.old.faults ≤ self.new.faults }
    {
        let failing = self.failing.as_slice().contains(&self.calls);
        self.calls = self.calls.saturating_add(1);
        if failing {
            self.faults = self.faults.saturating_add(1);
            return Err(Failed);
        }
        let left = &self.bytes.as_slice()[self.position..];
        let count = self.most.min(left.len()).min(buf.len());
        put_prefix(left, count, buf);
        self.position += count;
        Ok(count)
    }
}
