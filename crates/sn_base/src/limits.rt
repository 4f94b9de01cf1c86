//! The sizes of memory and of the network, each said once. Definitions cite the same constants.

/// The first address of memory.
pub const RAM_START: u32 = 0x8000_0000;

/// How many bytes memory has.
pub const RAM_SIZE: u32 = 0x40_0000;

/// The first address behind memory.
pub const RAM_END: u32 = RAM_START + RAM_SIZE;

/// How many bytes a block has.
pub const BLOCK_SIZE: u32 = 64;

/// How many blocks memory has.
pub const BLOCKS: usize = 65_536;

/// How many messages may be in flight.
pub const MESSAGES: usize = 1_024;

/// How many checkpoints a node may have above the recovery point that it knows.
pub const CHECKPOINTS: u32 = 4;

/// How many events a script, a run and a recovery's control file may have, and how many records a trace; no option counts
/// more events or instructions.
pub const EVENTS: u64 = 1_000_000;
