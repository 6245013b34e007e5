//! The own segments of one rank, and what it knows of the segments of all ranks, as one store: tables and bytes agree. Neither
//! machine uses it. (GASPI: segments, atomics)

ghost use Rattle.std.specs.Prelude.{◌≡◌, ◌+◌, ◌<◌, ◌≤◌, ◌^◌, ◌↔◌, IsTrue, IfOk, OnOk, OnErr, IsSomeAnd, length};
ghost use Rattle.std.specs.Option.{option_map};
ghost use Rattle.gaspi_types.specs.SegmentBytes.{range_of};
ghost use Rattle.gaspi_types.specs.SegmentTables.{extent_in, own_range_checks, alloc_checks, next_generation};

use crate::stops::PartStop;
use crate::tables::{check_delete, check_own_word, no_segments, nothing_known, zeroed};
use crate::{
    add_own, add_to_segment, bytes_of, check_alloc, check_own_range, extent_in, is_generation,
    new_segment, next_generation, range_of, remove_own, segment_in, set_known, store_bytes,
    swap_in_segment, word_at,
};
use gaspi_types::{
    Bytes, Extent, NoMemory, OwnSegments, RankId, Refusal, Segment, SegmentTable, Sequence,
};
use std::alloc::Global;
use std::marker::Model;

/// The own segments of one rank with their bytes, and the table of segments. Contracts see both.
///
/// Ids, offsets and sizes are those that a caller wrote, so any number may come.
#[derive(Debug, Drop)]
pub struct Segments {
    /// The table of segments.
    table: SegmentTable,
    /// The own segments with their bytes.
    own: OwnSegments,
}

impl Model for Segments {
    ghost use Rattle.segment_store.specs.Segments.{SegmentsValue, IsSound};

    ghost Value = { SegmentsValue };

    ghost view = { λ s. record { table = s.table; segments = s.own } };

    ghost invariant = { λ s. IsSound (record { table = s.table; segments = s.own }) };
}

impl Segments {
    ghost use Rattle.gaspi_types.specs.World.{is_segment_size};
    ghost use Rattle.std.specs.Prelude.{true};
    ghost use Rattle.gaspi_types.specs.Segments.{segment_in, new_segment, bytes_of, is_generation};
    ghost use Rattle.segment_store.specs.Segments.{IsSound, nothing_stored, known_of, delete_checks, own_bytes, own_word, with_zeros, without, with_stored, with_added, with_swapped, with_registered, HasNextGeneration};
    ghost use Rattle.segment_store.specs.Stops.{Answers};

    /// No own segment, and none known of `ranks` ranks. All tables take their memory here.
    pub fn new(alloc: Global, ranks: u32) -> Result<Segments, NoMemory>
        requires { ranks ≤ 16 }
        ensures { IfOk result (λ segments. segments ≡ nothing_stored ranks) }
    {
        Ok(Segments {
            table: nothing_known(alloc, ranks)?,
            own: no_segments(alloc)?,
        })
    }

    /// Whether a rank is one of those of which segments may be known.
    pub fn has_rank(&self, owner: RankId) -> bool
        ensures { IsTrue result ↔ (owner < length self.now.table.known) }
    {
        owner.index() < self.table.known.len()
    }

    /// Whether the next segment of an id may be made: its generation is below 4,294,967,295, or the number is over 31.
    pub fn has_next_generation(&self, seg: u64) -> bool
        ensures { IsTrue result ↔ HasNextGeneration self.now seg }
    {
        seg >= 32 || *self.table.next_generations.at(seg as usize) < u32::MAX
    }

    /// Makes an own segment of `size` zeros, in the next generation of its id. Refused with `NoSegment` where the id is over 31,
    /// `SegmentThere`, or `BadSize` where the size is not 1 to 1,048,576. The memory is taken after these checks. Where it is
    /// refused or memory runs out nothing changes. (GASPI: segment_alloc)
    pub fn alloc(&mut self, alloc: Global, seg: u64, size: u64) -> Result<(), PartStop>
        requires { HasNextGeneration self.old seg }
        ensures answer { Answers result (alloc_checks self.old.table.own seg size) }
        ensures made { OnOk result (self.new ≡ with_zeros self.old seg size) }
        ensures stopped { OnErr result (self.new ≡ self.old) }
    {
        check_alloc(&self.table.own, seg, size)?;
        let generation = next_generation(&self.table.next_generations, seg);
        let segment = new_segment(alloc, generation, size as u32)?;
        self.keep(seg, size as u32, segment);
        Ok(())
    }

    /// As `alloc`, but in the memory that is handed in: the segment has as many zeros as `room` has bytes. It takes no memory. Where
    /// it is refused, `room` is dropped and nothing else changes.
    pub fn alloc_in(&mut self, seg: u64, room: Bytes) -> Result<(), Refusal>
        requires { HasNextGeneration self.old seg }
        ensures answer { result ≡ alloc_checks self.old.table.own seg (length room) }
        ensures made { OnOk result (self.new ≡ with_zeros self.old seg (length room)) }
        ensures refused { OnErr result (self.new ≡ self.old) }
    {
        let size = room.len() as u64;
        check_alloc(&self.table.own, seg, size)?;
        let segment = Segment {
            generation: next_generation(&self.table.next_generations, seg),
            bytes: zeroed(room),
        };
        self.keep(seg, size as u32, segment);
        Ok(())
    }

    /// Puts a new segment of `size` zeros under its id, and its extent into the table. For `alloc` and `alloc_in`.
    fn keep(&mut self, seg: u64, size: u32, segment: Segment)
        requires number { seg < 32 }
        requires size { is_segment_size size ≡ true }
        requires next { next_generation self.old.table.next_generations seg < 4294967295 }
        requires segment { segment ≡ new_segment (next_generation self.old.table.next_generations seg) size }
        ensures { self.new ≡ with_zeros self.old seg size }
    {
        add_own(&mut self.table, seg, size);
        *self.own.at_mut(seg as usize) = Some(segment);
    }

    /// Deletes an own segment; `NoSegment` where there is none. Whether an entry of the rank still uses the segment cannot be seen
    /// here: the caller must make sure that none does. (GASPI: segment_delete)
    pub fn delete(&mut self, seg: u64) -> Result<(), Refusal>
        ensures answer { result ≡ delete_checks self.old.table.own seg }
        ensures deleted { OnOk result (self.new ≡ without self.old seg) }
        ensures refused { OnErr result (self.new ≡ self.old) }
    {
        check_delete(&self.table.own, seg)?;
        remove_own(&mut self.table, seg);
        *self.own.at_mut(seg as usize) = None;
        Ok(())
    }

    /// Checks a range of an own segment, which `bytes` then lends: `NoSegment`, then `BadSize` where the size is not 1 to 65,536,
    /// then `BadRange`.
    pub fn range(&self, seg: u64, offset: u64, size: u64) -> Result<(), Refusal>
        ensures answer { result ≡ own_range_checks self.now.table.own seg offset size }
        ensures within { OnOk result (IsSomeAnd (segment_in self.now.segments seg) (λ mine. offset + size ≤ length mine.bytes)) }
    {
        check_own_range(&self.table.own, seg, offset, size)
    }

    /// Writes bytes into an own segment, from an offset on, of any size and unchecked. Where the segment is not there, or they do
    /// not lie in it, nothing changes. (GASPI: write, read)
    pub fn put(&mut self, seg: u64, offset: u64, bytes: &[u8])
        ensures { self.new ≡ with_stored self.old seg offset bytes.now }
    {
        let _ = &self.table;
        store_bytes(&mut self.own, seg, offset, bytes);
    }

    /// Stores bytes into an own segment, from an offset on. Refused as `range` is, and then nothing changes. (own choice)
    pub fn store(&mut self, seg: u64, offset: u64, bytes: &[u8]) -> Result<(), Refusal>
        ensures answer { result ≡ own_range_checks self.old.table.own seg offset (length bytes.now) }
        ensures stored { OnOk result (self.new ≡ with_stored self.old seg offset bytes.now) }
        ensures refused { OnErr result (self.new ≡ self.old) }
    {
        check_own_range(&self.table.own, seg, offset, bytes.len() as u64)?;
        self.put(seg, offset, bytes);
        Ok(())
    }

    /// A copy of the bytes of a range of an own segment. Refused as `range` is; the memory is taken after these checks. (own choice)
    pub fn load(&self, alloc: Global, seg: u64, offset: u64, size: u64) -> Result<Bytes, PartStop>
        ensures answer { Answers result (own_bytes self.now seg offset size) }
    {
        check_own_range(&self.table.own, seg, offset, size)?;
        let bytes = range_of(bytes_of(&self.own, seg), offset as usize, size as usize);
        Ok(Sequence::copied_from(alloc, bytes)?)
    }

    /// The bytes of a range of an own segment, lent. The range lies in it, as `range` checks.
    pub fn bytes(&self, seg: u64, offset: u64, size: u64) -> &[u8]
        requires { IsSomeAnd (segment_in self.now.segments seg) (λ mine. offset + size ≤ length mine.bytes) }
        ensures { result.now ≡ range_of (bytes_of self.now.segments seg) offset size }
    {
        range_of(bytes_of(&self.own, seg), offset as usize, size as usize)
    }

    /// The table of segments, lent: own and known ones. The clause `sound` gives what holds of the store at any time.
    pub fn table(&self) -> &SegmentTable
        ensures table { result.now ≡ self.now.table }
        ensures sound { IsSound self.now }
    {
        &self.table
    }

    /// How many bytes an own segment has; None exactly where there is none.
    pub fn size_of(&self, seg: u64) -> Option<u32>
        ensures size { result ≡ option_map (λ mine. mine.size) (extent_in self.now.table.own seg) }
        ensures sound { IsSound self.now }
    {
        extent_in(&self.table.own, seg).map(|mine| mine.size)
    }

    /// The generation of an own segment; None exactly where there is none.
    pub fn generation(&self, seg: u64) -> Option<u32>
        ensures { result ≡ option_map (λ mine. mine.generation) (extent_in self.now.table.own seg) }
    {
        extent_in(&self.table.own, seg).map(|mine| mine.generation)
    }

    /// Whether an own segment is there and has this generation.
    pub fn has_generation(&self, seg: u64, generation: u32) -> bool
        ensures { result ≡ is_generation generation (segment_in self.now.segments seg) }
    {
        let _ = &self.table;
        is_generation(generation, segment_in(&self.own, seg))
    }

    /// Makes a segment of another rank known with this generation and size, in place of what was known of that id. Whether a segment
    /// may have that size is not checked. (GASPI: segment_register)
    pub fn register(&mut self, owner: RankId, seg: u64, generation: u32, size: u64)
        requires rank { owner < length self.old.table.known }
        requires segment { seg < 32 }
        requires size { size < 2 ^ 32 }
        ensures { self.new ≡ with_registered self.old owner seg (record { generation = generation; size = size }) }
    {
        let size = size as u32;
        set_known(
            &mut self.table,
            owner,
            seg,
            Some(Extent { generation, size }),
        );
    }

    /// The generation and the size of a known segment of another rank; None exactly where none is known. Of its own segments a rank
    /// knows the present extent (`size_of`, `generation`).
    pub fn known(&self, owner: RankId, seg: u64) -> Option<(u32, u32)>
        requires { owner < length self.now.table.known }
        ensures { result ≡ option_map (λ extent. (extent.generation, extent.size)) (extent_in (known_of self.now.table.known owner) seg) }
    {
        extent_in(self.table.known.at(owner.index()), seg).map(|extent| (
            extent.generation,
            extent.size,
        ))
    }

    /// Adds a value to a memory word of an own segment, and gives the old word; sums wrap. Refused with `Unregistered` where the
    /// segment is not there, then `BadRange`, then `BadAlign` where the offset is not divisible by 8; then nothing changes.
    /// (GASPI: atomic_fetch_add)
    pub fn fetch_add(&mut self, seg: u64, offset: u64, value: u64) -> Result<u64, Refusal>
        ensures answer { result ≡ own_word self.old seg offset }
        ensures added { OnOk result (self.new ≡ with_added self.old seg offset value) }
        ensures refused { OnErr result (self.new ≡ self.old) }
    {
        check_own_word(&self.table.own, seg, offset)?;
        let old = word_at(bytes_of(&self.own, seg), offset);
        add_to_segment(&mut self.own, seg, offset, value);
        Ok(old)
    }

    /// Puts a new value into a memory word of an own segment, where the word is the comparator, and gives the old word. Refused as
    /// `fetch_add` is, and then nothing changes. (GASPI: atomic_compare_swap)
    pub fn compare_swap(
        &mut self,
        seg: u64,
        offset: u64,
        comparator: u64,
        new: u64,
    ) -> Result<u64, Refusal>
        ensures answer { result ≡ own_word self.old seg offset }
        ensures swapped { OnOk result (self.new ≡ with_swapped self.old seg offset comparator new) }
        ensures refused { OnErr result (self.new ≡ self.old) }
    {
        check_own_word(&self.table.own, seg, offset)?;
        let old = word_at(bytes_of(&self.own, seg), offset);
        swap_in_segment(&mut self.own, seg, offset, comparator, new);
        Ok(old)
    }
}
