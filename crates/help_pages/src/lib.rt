//! The program's own pages, of help and of its version: which one the words ask for, and what it says.
//!
//! The program answers calls for these itself, before any command is done. The layer above hands in the words and the
//! console. Nothing here takes memory or reads a value, and that words ask for no page says nothing of whether they are a
//! command.
#![tactic(auto)]

mod page;
mod texts;

pub use page::{Page, page_of};
pub use texts::show;
