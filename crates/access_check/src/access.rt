//! One access to memory, as somebody noted it.
ghost use Rattle.std.specs.Prelude.{◌≡◌, ◌↔◌, IsTrue};
ghost use Rattle.access_check.specs.Accesses.{IsFitting, IsFittingAccess, is_done, is_fitting, is_lr, is_sc, block_of_access, seen_by, write_of, written_by};

use sn_base::{BLOCK_SIZE, BlockNo, NodeId, RAM_END, RAM_START, Width, Write};

/// What an access did. Its values are numbers of as many bytes as it is wide.
#[derive(Clone, Copy, PartialEq, Eq, Debug)]
pub enum Operation {
    /// It read this value.
    Read(u32),
    /// It wrote this value.
    Write(u32),
    /// A load-reserved, which read this value.
    Lr(u32),
    /// A store-conditional that was done, and wrote this value.
    Sc(u32),
    /// A store-conditional that failed, and would have written this value.
    ScFail(u32),
    /// An atomic operation, which wrote the new value where it read the old one.
    Amo { new: u32, old: u32 },
}

/// An access of a core, to so many bytes from a byte address on.
#[derive(Clone, Copy, PartialEq, Eq, Debug)]
pub struct Access {
    pub core: NodeId,
    pub address: u32,
    pub width: Width,
    pub operation: Operation,
}

/// A word that memory has before the first access.
#[derive(Clone, Copy, PartialEq, Eq, Debug)]
pub struct StartWord {
    pub address: u32,
    pub word: u32,
}

/// Whether so many bytes lie in memory, from a multiple of their number on.
pub fn is_fitting(width: Width, address: u32) -> bool
    ensures same { result ≡ is_fitting width address }
    ensures fits { IsTrue result ↔ IsFitting width address }
{
    let bytes = match width {
        Width::Byte => 1,
        Width::Half => 2,
        Width::Word => 4,
    };
    // The end of memory is a multiple of 4, so the last byte is inside where the first one is.
    address >= RAM_START && address < RAM_END && address % bytes == 0
}

impl Operation {
    /// The value that was read, if one was.
    pub fn seen(self) -> Option<u32>
        ensures { result ≡ seen_by self }
    {
        match self {
            Operation::Read(value) | Operation::Lr(value) | Operation::Amo { old: value, .. } => {
                Some(value)
            }
            Operation::Write(_) | Operation::Sc(_) | Operation::ScFail(_) => None,
        }
    }

    /// The value that was written, if one was.
    pub fn written(self) -> Option<u32>
        ensures { result ≡ written_by self }
    {
        match self {
            Operation::Write(value) | Operation::Sc(value) | Operation::Amo { new: value, .. } => {
                Some(value)
            }
            Operation::Read(_) | Operation::Lr(_) | Operation::ScFail(_) => None,
        }
    }

    pub fn is_lr(self) -> bool
        ensures { result ≡ is_lr self }
    {
        match self {
            Operation::Lr(_) => true,
            _ => false,
        }
    }

    /// Whether it is a store-conditional, done or not.
    pub fn is_sc(self) -> bool
        ensures { result ≡ is_sc self }
    {
        match self {
            Operation::Sc(_) | Operation::ScFail(_) => true,
            _ => false,
        }
    }

    /// Whether it is a store-conditional that was done.
    pub fn is_done(self) -> bool
        ensures { result ≡ is_done self }
    {
        match self {
            Operation::Sc(_) => true,
            _ => false,
        }
    }
}

impl Access {
    /// The block that has its bytes.
    pub fn block(&self) -> BlockNo
        requires { IsFittingAccess self.now }
        ensures { result ≡ block_of_access self.now }
    {
        BlockNo::new(((self.address - RAM_START) / BLOCK_SIZE) as u16)
    }

    /// What it wrote to memory, if it did.
    pub fn write(&self) -> Option<Write>
        ensures { result ≡ write_of self.now }
    {
        let value = self.operation.written()?;
        Some(Write {
            address: self.address,
            width: self.width,
            value,
        })
    }
}
