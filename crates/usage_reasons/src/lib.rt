//! What is wrong with the words of a call, in one line that a user understands.
//!
//! The layer above hands in words that are no command's, and gets the line's bytes, which name the word that is wrong and what
//! is allowed. The words are read from left to right against a table, and the first that is wrong decides: `fault_of` says
//! which, and `fault_text` how it reads. The ranges of values are those of `option_values`. That words are a command's is
//! for `command_words` to say; of such words the line says nothing here. Nothing here keeps a word or writes to a stream.
#![tactic(auto)]

mod fault;
mod reading;
mod table;
mod text;
mod values;
mod words;

pub use text::write_usage;
