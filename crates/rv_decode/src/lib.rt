//! Instruction words: RV32I and the A extension of the RISC-V Unprivileged ISA manual.
//!
//! One table says the words of each instruction: its fixed bits, its fields, and the bits that are free. A word is an
//! instruction's exactly where the table says so, and no word is two instructions'. The layers above know an
//! instruction by its operation and its operands, and nothing of bits. What an instruction does isn't known here.
#![tactic(auto)]

mod fields;
mod instr;
mod opcodes;
mod operations;
mod reading;
mod writing;

pub use instr::{Illegal, Instr};
pub use operations::{AmoOp, BranchOp, ImmOp, LoadOp, RegOp};
pub use reading::decode;
pub use writing::encode;
