//! What the commands write that assemble a text and disassemble a program.
//!
//! The layer above reads the files and puts what is written here; this layer knows of neither. Each text grows as its lines
//! come, and want of memory is the only refusal.
#![tactic(auto)]

mod listing;
#[cfg(test)]
mod tests;
mod words;

pub use listing::listing_of;
pub use words::words_text;
