//! Each row has a file or a text, and what it is read as, or the first cause for which it is refused.
mod programs;
mod texts;
