use std::alloc::{AllocError, AllocFailed};

/// Memory was wanted and not given. It is merged with no other refusal.
#[derive(Clone, Copy, PartialEq, Eq, Debug)]
pub struct Memory;

impl From<AllocError> for Memory {
    fn from(_error: AllocError) -> Memory {
        Memory
    }
}

impl<T: Drop> From<AllocFailed<T>> for Memory {
    fn from(_error: AllocFailed<T>) -> Memory {
        Memory
    }
}
