//! Ranges of bytes, and of other items: their size and whether they lie within a list; to lend one, and to write over one.
//! (GASPI: segments)

ghost use Rattle.std.specs.Prelude.{◌≡◌, take, drop};
ghost use Rattle.gaspi_types.specs.SegmentBytes.{is_transfer_size, is_within, range_checks, with_range};

use gaspi_types::{Bytes, Refusal};

/// Whether a transfer, a store or a load may have that many bytes: 1 to 65,536. (own choice)
pub fn is_transfer_size(size: u64) -> bool
    ensures { result ≡ is_transfer_size size }
{
    (1..=65_536).contains(&size)
}

/// Whether a range lies within `whole` items.
pub fn is_within(offset: u64, size: u64, whole: u64) -> bool
    ensures { result ≡ is_within offset size whole }
{
    size <= whole && offset <= whole - size
}

/// Checks a range in a segment of `whole` bytes: its size is 1 to 65,536 (`BadSize`), then it lies within them (`BadRange`).
pub fn check_range(whole: u32, offset: u64, size: u64) -> Result<(), Refusal>
    ensures { result ≡ range_checks whole offset size }
{
    if !is_transfer_size(size) {
        return Err(Refusal::BadSize);
    }
    if !is_within(offset, size, u64::from(whole)) {
        return Err(Refusal::BadRange { size: whole });
    }
    Ok(())
}

/// The items of a range, from `offset` on and at most `size` of them, as far as there are any.
pub fn range_of<T>(items: &[T], offset: usize, size: usize) -> &[T]
    ensures { result.now ≡ take size (drop offset items.now) }
{
    let from = offset.min(items.len());
    let behind = &items[from..];
    let end = size.min(behind.len());
    &behind[..end]
}

/// Writes bytes over those from an offset on. Where they do not lie within the list nothing changes.
pub fn set_range(bytes: &mut Bytes, offset: u64, new: &[u8])
    ensures { bytes.new ≡ with_range bytes.old offset new.now }
{
    if is_within(offset, new.len() as u64, bytes.len() as u64) {
        bytes.overwrite(offset as usize, new);
    }
}
