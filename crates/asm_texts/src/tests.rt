//! The assembler and the disassembler on short texts, and what the two commands write.
mod programs;
mod texts;
mod words;
