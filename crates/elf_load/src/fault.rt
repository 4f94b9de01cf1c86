//! Why a program file is refused.
ghost use Rattle.std.specs.Prelude.{◌≡◌};
ghost use Rattle.elf_load.specs.declared.fault.LoadFault.TheVariants.{Refused, Memory};

use std::alloc::{AllocError, AllocFailed};
use thiserror::Error;

/// A field of the ELF file header that has one right value.
#[derive(Clone, Copy, PartialEq, Eq, Debug, Error)]
pub enum Field {
    /// The first four bytes, as one number.
    #[error("magic number")]
    Magic,
    /// e_ident[EI_CLASS]: 32-bit.
    #[error("class")]
    Class,
    /// e_ident[EI_DATA]: lowest byte first.
    #[error("byte order")]
    Order,
    /// e_ident[EI_VERSION].
    #[error("version of the identification")]
    IdentVersion,
    /// e_type: executable.
    #[error("kind of file")]
    FileKind,
    /// e_machine: RISC-V.
    #[error("machine")]
    Machine,
    /// e_version.
    #[error("version")]
    Version,
    /// e_phentsize: the size of a program header.
    #[error("size of a program header")]
    PhEntSize,
}

/// Why the bytes of a file are no program. Headers are named by their numbers in the table, from 0.
#[derive(Clone, Copy, PartialEq, Eq, Debug, Error)]
pub enum LoadCause {
    /// The file has no byte.
    #[error("empty file")]
    Empty,
    /// This line, from 1, is neither empty, nor a comment, nor eight hexadecimal digits.
    #[error("line {0} is no word of eight hexadecimal digits")]
    BadHexLine(u64),
    /// More words than memory has.
    #[error("more words than memory has")]
    TooManyWords,
    /// The length that is needed, and the length of the file.
    #[error("{0} bytes are needed, and the file has {1}")]
    Truncated(u64, u64),
    /// The field, and the value that it has.
    #[error("wrong {0}: {1:#x}")]
    WrongField(Field, u32),
    /// The file was linked with compressed instructions.
    #[error("compressed instructions")]
    Compressed,
    /// This many program headers, of which 64 are allowed.
    #[error("{0} program headers")]
    TooManySegments(u16),
    /// The segment has more bytes in the file than in memory.
    #[error("segment {0} is larger in the file than in memory")]
    FileLargerThanMemory(u16),
    /// The segment isn't whole within memory.
    #[error("segment {0} is outside memory")]
    Outside(u16),
    /// The least earlier segment, and the one that shares a byte with it.
    #[error("segments {0} and {1} overlap")]
    Overlap(u16, u16),
    /// The segment is both written and executed.
    #[error("segment {0} is both written and executed")]
    WritableCode(u16),
    /// The entry is no multiple of 4, or its four bytes aren't all executable.
    #[error("bad entry {0:#x}")]
    BadEntry(u32),
}

/// The file is refused, or memory was wanted and not given.
#[derive(Clone, Copy, PartialEq, Eq, Debug, Error)]
pub enum LoadFault {
    #[error("{0}")]
    Refused(LoadCause),
    #[error("out of memory")]
    Memory,
}

impl From<AllocError> for LoadFault {
    ghost from_gives = { λ _ e. e ≡ Memory };

    fn from(_error: AllocError) -> LoadFault {
        LoadFault::Memory
    }
}

impl<T: Drop> From<AllocFailed<T>> for LoadFault {
    ghost from_gives = { λ _ e. e ≡ Memory };

    fn from(_error: AllocFailed<T>) -> LoadFault {
        LoadFault::Memory
    }
}

impl From<LoadCause> for LoadFault {
    ghost from_gives = { λ cause e. e ≡ Refused cause };

    fn from(cause: LoadCause) -> LoadFault {
        LoadFault::Refused(cause)
    }
}
