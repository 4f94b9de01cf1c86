//! The assembler and the disassembler of the machine's instructions.
//!
//! A text has one statement a line, and what a line says is `rv_statement`'s to read. Here the lines become words, in two
//! passes, and words become lines. The layer above sees texts and words alone.
#![tactic(auto)]

mod assembling;
mod fault;
mod writing;

pub use assembling::assemble;
pub use fault::{AsmCause, AsmFault};
pub use writing::{add_digits, add_line, disassemble};
