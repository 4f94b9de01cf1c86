//! Blocks of memory: their numbers, their bytes, and the writes that change them.
ghost use Rattle.std.specs.Prelude.{◌≡◌, ℕ, ◌+◌, ◌-◌, ◌*◌, ◌/◌, ◌%◌, ◌<◌, ◌≤◌, ◌↔◌, ◌^◌, List, ◌++◌, length, take, drop, replicate, IfSome};
ghost use Rattle.std.specs.Prelude.{IsNone, IsSome};
ghost use Rattle.byteorder.specs.Endian.{little_number, little_bytes};
ghost use Rattle.sn_base.specs.Blocks.{bytes_of, ram_start, ram_size, stored_in};

use crate::limits::{BLOCK_SIZE, RAM_END, RAM_START};
use crate::node::NodeId;
use byteorder::{ByteOrder, LittleEndian};
use std::marker::Model;

/// The width of an access: 1, 2 or 4 bytes.
#[derive(Clone, Copy, PartialEq, Eq, Debug)]
pub enum Width {
    Byte,
    Half,
    Word,
}

/// What an instruction writes: the low bytes of the value, at a byte address that is a multiple of the width.
#[derive(Clone, Copy, PartialEq, Eq, Debug)]
pub struct Write {
    pub address: u32,
    pub width: Width,
    pub value: u32,
}

/// A block of 64 bytes, by its number from the start of memory. Contracts see the number, which is below 65,536.
#[derive(Clone, Copy, PartialEq, Eq, PartialOrd, Ord, Hash, Debug)]
pub struct BlockNo {
    number: u16,
}

impl Model for BlockNo {
    ghost Value = { ℕ };

    ghost view = { λ b. b.number };

    ghost invariant = { λ b. b.number < 2 ^ 16 };

    ghost inverse = { λ b. record { number = b } };
}

impl BlockNo {
    pub fn new(number: u16) -> BlockNo
        ensures { result ≡ number }
    {
        BlockNo { number }
    }

    pub fn number(self) -> u16
        ensures same { result ≡ self }
        ensures small { result < 2 ^ 16 }
    {
        self.number
    }

    /// The block that has a byte address. None where the address is outside memory, which lies from 0x80000000 to
    /// 0x803fffff.
    pub fn of(address: u32) -> Option<BlockNo>
        ensures some { IsSome result ↔ ((ram_start ≤ address) × (address < ram_start + ram_size)) }
        ensures block { IfSome result (λ b. b ≡ (address - ram_start) / 64) }
    {
        if address < RAM_START || address >= RAM_END {
            return None;
        }
        Some(BlockNo {
            number: ((address - RAM_START) / BLOCK_SIZE) as u16,
        })
    }

    /// Where the byte at an address of memory stands in its block.
    pub fn offset(address: u32) -> usize
        requires { ram_start ≤ address }
        ensures same { result ≡ (address - ram_start) % 64 }
        ensures small { result < 64 }
    {
        ((address - RAM_START) % BLOCK_SIZE) as usize
    }

    /// The node whose home keeps the block, in a machine of 1 to 16 nodes.
    pub fn home(self, nodes: u8) -> NodeId
        requires some { 1 ≤ nodes }
        requires few { nodes ≤ 16 }
        ensures { result ≡ self % nodes }
    {
        NodeId::new((self.number % u16::from(nodes)) as u8).unwrap()
    }
}

/// The content of a block. Contracts see the list of its 64 bytes.
#[derive(Clone, Copy, PartialEq, Eq, Debug)]
pub struct Block([u8; 64]);

impl Model for Block {
    ghost Value = { List ℕ };

    ghost view = { λ b. b.0 };

    ghost invariant = { λ b. length b.0 ≡ 64 };

    ghost inverse = { λ b. record { 0 = b } };
}

impl Block {
    pub fn zero() -> Block
        ensures { result ≡ replicate 64 0 }
    {
        Block([0; 64])
    }

    /// The little-endian number at a place of the block, without sign.
    pub fn load(&self, place: usize, width: Width) -> u32
        requires aligned { place % bytes_of width ≡ 0 }
        requires inside { place + bytes_of width ≤ 64 }
        ensures { result ≡ little_number (bytes_of width) (drop place self.now) }
    {
        let from = &self.0[place..];
        match width {
            Width::Byte => u32::from(from[0]),
            Width::Half => u32::from(LittleEndian::read_u16(from)),
            Width::Word => LittleEndian::read_u32(from),
        }
    }

    /// Writes the value's low bytes, little-endian, and leaves the rest.
    pub fn store(&mut self, place: usize, width: Width, value: u32)
        requires aligned { place % bytes_of width ≡ 0 }
        requires inside { place + bytes_of width ≤ 64 }
        ensures { self.new ≡ stored_in self.old place (little_bytes (bytes_of width) value) }
    {
        let bytes = value.to_le_bytes();
        match width {
            Width::Byte => self.0[place..place + 1].copy_from_slice(&bytes[..1]),
            Width::Half => self.0[place..place + 2].copy_from_slice(&bytes[..2]),
            Width::Word => self.0[place..place + 4].copy_from_slice(&bytes),
        }
    }
}
