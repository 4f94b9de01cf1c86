//! Programs from files: what the bytes of a file are, as an image of memory and an entry, or the first cause for
//! which they are refused.
//!
//! The layer above knows a file by `image_of` of its bytes: a static ELF executable for 32-bit RISC-V, or a text of
//! hexadecimal words. Any bytes may come in: every place and size is checked against the file and against memory
//! before it is used. Nothing here relocates, reads sections or symbols, or runs the program.
#![tactic(auto)]

mod fault;
mod file_header;
mod hexadecimal;
mod loading;
mod program_header;
mod writing;

pub use fault::{Field, LoadCause, LoadFault};
pub use loading::load;
pub use writing::write_elf;
