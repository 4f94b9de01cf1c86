//! What one line of assembly text says: nothing, a label, or an instruction by its mnemonic and its operands.
//!
//! One table of mnemonics serves both directions, so whoever writes instructions takes it from here. The words themselves
//! are `rv_decode`'s; nothing here knows a bit of them. The layer above knows a line's word, or the label that it leads to,
//! and nothing of blanks, commas or digits. There are no pseudoinstructions, sections, expressions or macros, and `.word`
//! is the one directive. Nothing here takes memory.
#![tactic(auto)]

mod coding;
mod forms;
mod line;
mod names;
mod operands;
mod reading;
mod rows;

pub use coding::aimed_word;
pub use names::mnemonic;
pub use reading::{Line, Operation, line_of};
