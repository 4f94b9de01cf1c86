//! Why a text has no words.
ghost use Rattle.std.specs.Prelude.{◌≡◌};
ghost use Rattle.rv_asm.specs.declared.fault.AsmFault.TheVariants.{Memory};

use std::alloc::{AllocError, AllocFailed};

/// Why a text is refused; lines count from 1. `TooLong` is for the reader of files, which takes no text above 16 MiB.
#[derive(Clone, Copy, PartialEq, Eq, Debug)]
pub enum AsmCause {
    TooLong,
    BadLine(u64),
    OutOfRange(u64),
    LabelTwice(u64),
    TooManyWords(u64),
    NoLabel(u64),
}

#[derive(Clone, Copy, PartialEq, Eq, Debug)]
pub enum AsmFault {
    Refused(AsmCause),
    Memory,
}

impl From<AllocError> for AsmFault {
    ghost from_gives = { λ _ e. e ≡ Memory };

    fn from(_error: AllocError) -> AsmFault {
        AsmFault::Memory
    }
}

impl<T: Drop> From<AllocFailed<T>> for AsmFault {
    ghost from_gives = { λ _ e. e ≡ Memory };

    fn from(_error: AllocFailed<T>) -> AsmFault {
        AsmFault::Memory
    }
}
