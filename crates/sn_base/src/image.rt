//! Programs, as segments of memory.
ghost use Rattle.std.specs.Prelude.{◌≡◌, ℕ, ◌+◌, ◌<◌, ◌≤◌, ◌/◌, List, ◌∷◌, length, Bool, true, false, ◌&&◌, nat_le, nat_lt, Some, IfSome};
ghost use Rattle.sn_base.specs.Blocks.{bytes_of};
ghost use Rattle.sn_base.specs.Image.{SegmentData, ImageData, IsImage, covers, byte_at, is_executable, is_writable, all_writable, word_fetched};

use crate::block::Width;
use crate::limits::{RAM_END, RAM_START};
use std::marker::Model;

/// A stretch of memory that a program gives: its first address, how many bytes it has, the first of these bytes (the
/// others are 0), and whether it may be written or executed.
#[derive(Drop)]
pub struct Segment {
    pub start: u32,
    pub size: u32,
    pub bytes: Vec<u8>,
    pub write: bool,
    pub exec: bool,
}

impl Model for Segment {
    ghost use Rattle.sn_base.specs.Image.{SegmentData};

    ghost Value = { SegmentData };

    ghost view = { λ s. record { start = s.start; size = s.size; bytes = s.bytes.items; write = s.write; exec = s.exec } };
}

impl Segment {
    /// Whether the address is one of the segment's.
    fn covers(&self, address: u32) -> bool
        ensures { result ≡ covers self.now address }
    {
        self.start <= address && u64::from(address) < u64::from(self.start) + u64::from(self.size)
    }

    /// Whether one of the four addresses from this one on is the segment's.
    fn reaches(&self, pc: u32) -> bool
        ensures { result ≡ false → (rest : List SegmentData) → word_fetched (self.now ∷ rest) pc ≡ word_fetched rest pc }
    {
        let start = u64::from(self.start);
        start < u64::from(pc) + 4 && u64::from(pc) < start + u64::from(self.size)
    }

    /// The word at an address, where it may be executed and the segment gives its four bytes.
    fn given_word(&self, pc: u32) -> Option<u32>
        requires { length self.now.bytes ≤ self.now.size }
        ensures { IfSome result (λ word. (rest : List SegmentData) → word_fetched (self.now ∷ rest) pc ≡ Some word) }
    {
        if !self.exec || pc < self.start {
            return None;
        }
        let given = self.bytes.get((pc - self.start) as usize..)?;
        Some(u32::from_le_bytes(*given.first_chunk::<4>()?))
    }
}

/// A program: its segments and its entry.
#[derive(Drop)]
pub struct Image {
    segments: Vec<Segment>,
    entry: u32,
}

impl Model for Image {
    ghost use Rattle.sn_base.specs.Image.{ImageData, IsImage};

    ghost Value = { ImageData };

    ghost view = { λ i. record { segments = i.segments.items; entry = i.entry } };

    ghost invariant = { λ i. IsImage i.segments.items i.entry };
}

impl Image {
    /// Segments that lie in memory and share no byte, each with no more bytes than its size and not both written and
    /// executed, and an entry that is a multiple of 4 whose four bytes are executable.
    pub fn new(segments: Vec<Segment>, entry: u32) -> Image
        requires { IsImage segments.items entry }
        ensures { result ≡ record { segments = segments.items; entry = entry } }
    {
        Image { segments, entry }
    }

    pub fn entry(&self) -> u32
        ensures { result ≡ self.now.entry }
    {
        self.entry
    }

    pub fn segments(&self) -> &[Segment]
        ensures same { result.now ≡ self.now.segments }
        ensures good { IsImage self.now.segments self.now.entry }
    {
        self.segments.as_slice()
    }

    /// The byte that memory begins with at an address: 0 where no segment gives one.
    pub fn byte(&self, address: u32) -> u8
        ensures { result ≡ byte_at self.now.segments address }
    {
        'segments: for segment in self.segments.iter() {
            if segment.covers(address) {
                let place = (address - segment.start) as usize;
                return segment.bytes.get(place).copied().unwrap_or(0);
            }
        }
        0
    }

    fn executable(&self, address: u32) -> bool
        ensures { result ≡ is_executable self.now.segments address }
    {
        'segments: for segment in self.segments.iter() {
            if segment.exec && segment.covers(address) {
                return true;
            }
        }
        false
    }

    fn may_be_written(&self, address: u32) -> bool
        ensures { result ≡ is_writable self.now.segments address }
    {
        if !(RAM_START..RAM_END).contains(&address) {
            return false;
        }
        'segments: for segment in self.segments.iter() {
            if !segment.write && segment.covers(address) {
                return false;
            }
        }
        true
    }

    /// The instruction word at an address. None where its four bytes aren't all executable.
    pub fn fetch(&self, pc: u32) -> Option<u32>
        ensures { result ≡ word_fetched self.now.segments pc }
    {
        'segments: for segment in self.segments.iter() {
            if let Some(word) = segment.given_word(pc) {
                return Some(word);
            }
            if segment.reaches(pc) {
                return self.fetch_by_bytes(pc);
            }
        }
        None
    }

    /// The same byte by byte: the four may be of several segments, or past the bytes that one gives.
    fn fetch_by_bytes(&self, pc: u32) -> Option<u32>
        ensures { result ≡ word_fetched self.now.segments pc }
    {
        // For the prover alone: the segments' invariants.
        let _ = &self.segments;
        if pc > u32::MAX - 3 {
            return None;
        }
        if !(self.executable(pc)
            && self.executable(pc + 1)
            && self.executable(pc + 2)
            && self.executable(pc + 3))
        {
            return None;
        }
        Some(u32::from_le_bytes([
            self.byte(pc),
            self.byte(pc + 1),
            self.byte(pc + 2),
            self.byte(pc + 3),
        ]))
    }

    /// Whether an access of this width may write at this address: each byte that it touches lies in memory and in no
    /// segment that may not be written.
    pub fn writable(&self, address: u32, width: Width) -> bool
        ensures { result ≡ all_writable (bytes_of width) self.now.segments address }
    {
        if address >= 0x8040_0000 {
            return false;
        }
        match width {
            Width::Byte => self.may_be_written(address),
            Width::Half => self.may_be_written(address) && self.may_be_written(address + 1),
            Width::Word => {
                self.may_be_written(address)
                    && self.may_be_written(address + 1)
                    && self.may_be_written(address + 2)
                    && self.may_be_written(address + 3)
            }
        }
    }
}
