//! The verdict on accesses.
use sn_base::Width;

/// What is found of accesses.
#[derive(Clone, Copy, PartialEq, Eq, Debug)]
pub enum Verdict {
    /// Each is legal after those before it.
    Legal,
    /// One isn't.
    Refused(Refusal),
}

/// The first access that isn't legal after those before it.
#[derive(Clone, Copy, PartialEq, Eq, Debug)]
pub struct Refusal {
    /// Its place, counted from 1.
    pub place: u64,
    pub cause: Cause,
}

/// Why an access isn't legal. `since` is the place of an earlier access, counted from 1, or 0 where there was none such.
#[derive(Clone, Copy, PartialEq, Eq, Debug)]
pub enum Cause {
    /// It read another value than memory has there. Access `since` is the last that wrote one of these bytes.
    Value {
        width: Width,
        expected: u32,
        since: u64,
    },
    /// It is a store-conditional that was done, and its core has no reservation of the block. Access `since` is the last
    /// that ended one, or would have.
    Unreserved {
        since: u64,
    },
}
