//! What is disassembled is assembled to itself.
//!
//! The assembler is one definition and the disassembler is another (`rv_asm`). Here they are joined: no word is lost or
//! changed on its way through a text, illegal words and acquire and release bits included, and the word of an instruction's
//! line is decoded as that instruction. It has theorems alone: each function does nothing, and its contract is the theorem.
#![tactic(auto)]

mod laws;

pub use laws::{a_text_reads_back, a_word_is_its_lines_instruction};
