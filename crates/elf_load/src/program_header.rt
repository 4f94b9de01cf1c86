//! ELF program headers and the segments that they load (ELF specification, "Program Header").
ghost use Rattle.std.specs.Prelude.{◌≡◌, ℕ, ◌+◌, ◌*◌, ◌<◌, ◌≤◌, ◌==◌, ⊤, [], ◌∷◌, codes, length, vec_len, ◌&&◌, position, All, IfOk, IfErr};
ghost use Rattle.std.specs.Prelude.{Result, Ok};
ghost use Rattle.std.specs.Int.RustNames.{bit_and};
ghost use Rattle.sn_base.specs.Image.{IsSegment, AreApart};
ghost use Rattle.elf_load.specs.Elf.{header_at, first_headers, loads, is_executed, is_written, is_inside, shares, segment_of, segments_of};
ghost use Rattle.elf_load.specs.Elf.{header_step, table_step};
ghost use Rattle.elf_load.specs.Loading.{IsRefusedAs};

use crate::fault::{LoadCause, LoadFault};
use crate::file_header::{reaches, word_at};
use bitflags::{Flag, Flags, bitflag_items};
use sn_base::{RAM_END, RAM_START, Segment};
use std::alloc::{AllocError, Global};

/// p_type of a segment that is loaded.
const LOAD: u32 = 1;

/// The size of a program header.
const HEADER_SIZE: usize = 32;

/// p_flags: what may be done with a segment.
#[derive(Clone, Copy, PartialEq, Eq, Debug)]
pub struct SegmentFlags(u32);

bitflag_items! {
    impl SegmentFlags: u32 {
        const EXECUTE = 1;
        const WRITE = 2;
        const READ = 4;
    }
}

impl Flags for SegmentFlags {
    type Bits = u32;

    ghost exact = { ⊤ };

    ghost table = { (codes "EXECUTE", 1) ∷ (codes "WRITE", 2) ∷ (codes "READ", 4) ∷ [] };

    ghost set_of = { λ p. p.0 };

    fn flags<'a>() -> &'a [Flag<SegmentFlags>] {
        SegmentFlags::FLAGS
    }

    fn bits(&self) -> u32 {
        self.0
    }

    fn from_bits_retain(bits: u32) -> SegmentFlags {
        SegmentFlags(bits)
    }
}

/// A program header, without p_paddr and p_align, which say nothing here.
#[derive(Clone, Copy, PartialEq, Eq, Debug)]
pub struct ProgramHeader {
    pub kind: u32,
    pub offset: u32,
    pub address: u32,
    pub file_size: u32,
    pub memory_size: u32,
    pub flags: u32,
}

impl ProgramHeader {
    /// The header at a place.
    #[tactic(auto, unfolding(crate::specs::Elf::header_at))]
    fn read(bytes: &[u8], place: usize) -> ProgramHeader
        requires { place + 32 ≤ length bytes.now }
        ensures { result ≡ header_at bytes.now place }
    {
        ProgramHeader {
            kind: word_at(bytes, place),
            offset: word_at(bytes, place + 4),
            address: word_at(bytes, place + 8),
            file_size: word_at(bytes, place + 16),
            memory_size: word_at(bytes, place + 20),
            flags: word_at(bytes, place + 24),
        }
    }

    /// Whether the header loads a segment that takes memory.
    fn loads(&self) -> bool
        ensures { result ≡ loads self.now }
    {
        self.kind == LOAD && self.memory_size != 0
    }

    fn is_executed(&self) -> bool
        ensures { result ≡ is_executed self.now }
    {
        SegmentFlags::from_bits_retain(self.flags).contains(SegmentFlags::EXECUTE)
    }

    fn is_written(&self) -> bool
        ensures { result ≡ is_written self.now }
    {
        SegmentFlags::from_bits_retain(self.flags).contains(SegmentFlags::WRITE)
    }

    /// The first address past the segment.
    fn end(&self) -> u64
        ensures { result ≡ self.now.address + self.now.memory_size }
    {
        u64::from(self.address) + u64::from(self.memory_size)
    }

    fn is_inside(&self) -> bool
        ensures { result ≡ is_inside self.now }
    {
        RAM_START <= self.address && self.end() <= u64::from(RAM_END)
    }

    /// Whether both segments have a byte.
    fn shares(&self, other: &ProgramHeader) -> bool
        ensures { result ≡ shares self.now other.now }
    {
        u64::from(self.address.max(other.address)) < self.end().min(other.end())
    }

    /// The place of the first header whose segment shares a byte with this one's.
    fn first_sharing(&self, earlier: &[ProgramHeader]) -> Option<usize>
        ensures { result ≡ position (λ g. loads g && shares g self.now) earlier.now }
    {
        earlier
            .iter()
            .position(|other| other.loads() && other.shares(self))
    }

    /// Passes where the header, after those before it, may load its segment.
    #[tactic(auto, unfolding(crate::specs::Elf::header_step))]
    fn check(&self, bytes: &[u8], earlier: &[ProgramHeader]) -> Result<(), LoadCause>
        requires { length earlier.now < 64 }
        ensures { result ≡ header_step bytes.now earlier.now self.now }
    {
        let number = earlier.len() as u16;
        if self.file_size > self.memory_size {
            return Err(LoadCause::FileLargerThanMemory(number));
        }
        reaches(bytes, u64::from(self.offset) + u64::from(self.file_size))?;
        if !self.is_inside() {
            return Err(LoadCause::Outside(number));
        }
        if self.is_executed() && self.is_written() {
            return Err(LoadCause::WritableCode(number));
        }
        match self.first_sharing(earlier) {
            Some(place) => Err(LoadCause::Overlap(place as u16, number)),
            None => Ok(()),
        }
    }

    /// The segment, with a copy of its bytes.
    fn segment(&self, alloc: Global, bytes: &[u8]) -> Result<Segment, AllocError>
        requires { self.now.offset + self.now.file_size ≤ length bytes.now }
        ensures { IfOk result (λ s. s ≡ segment_of bytes.now self.now) }
    {
        let start = self.offset as usize;
        let mut copy = Vec::new(alloc);
        copy.extend_from_slice(&bytes[start..start + self.file_size as usize])?;
        Ok(Segment {
            start: self.address,
            size: self.memory_size,
            bytes: copy,
            write: self.is_written(),
            exec: self.is_executed(),
        })
    }
}

/// The first program headers of the table at a place.
pub fn read_headers(
    alloc: Global,
    bytes: &[u8],
    place: usize,
    count: u16,
) -> Result<Vec<ProgramHeader>, AllocError>
    requires { place + 32 * count ≤ length bytes.now }
    ensures same { IfOk result (λ headers. headers.items ≡ first_headers count bytes.now place) }
    ensures counted { IfOk result (λ headers. vec_len headers ≡ count) }
{
    let mut headers = Vec::new(alloc);
    'headers: for i in 0..usize::from(count) {
        headers.push(ProgramHeader::read(bytes, place + HEADER_SIZE * i))?;
    }
    Ok(headers)
}

/// The segments that the headers load.
pub fn read_segments(
    alloc: Global,
    bytes: &[u8],
    headers: &[ProgramHeader],
) -> Result<Vec<Segment>, LoadFault>
    requires { length headers.now ≤ 64 }
    ensures passes { IfOk result (λ segments. table_step bytes.now [] headers.now ≡ Ok tt) }
    ensures same { IfOk result (λ segments. segments.items ≡ segments_of bytes.now headers.now) }
    ensures each { IfOk result (λ segments. All IsSegment segments.items) }
    ensures apart { IfOk result (λ segments. AreApart segments.items) }
    ensures refused { IfErr result (λ fault. IsRefusedAs (table_step bytes.now [] headers.now) fault) }
{
    let mut segments = Vec::new(alloc);
    'headers: for (number, header) in headers.iter().enumerate() {
        if header.loads() {
            header.check(bytes, &headers[..number])?;
            segments.push(header.segment(alloc, bytes)?)?;
        }
    }
    Ok(segments)
}
