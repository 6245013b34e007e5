//! The front of a buffer, for the sources in memory.

ghost use Rattle.std.specs.Prelude.{◌≤◌, length};
ghost use Rattle.gaspi_io.specs.Source.{PutsPrefix};

/// Copies the first `count` bytes to the front of the buffer. There have to be as many on both sides; the rest of the buffer
/// stays.
pub fn put_prefix(bytes: &[u8], count: usize, buf: &mut [u8])
    requires given { count ≤ length bytes.now }
    requires fits { count ≤ length buf.old }
    ensures { PutsPrefix bytes.now count buf.old buf.new }
{
    buf[..count].copy_from_slice(&bytes[..count]);
}
