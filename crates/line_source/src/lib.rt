//! Lines that are read one after another, each once the one before it has been answered.
//!
//! The layer above knows a source by the lines that were read from it and by those that are still to come, where it tells
//! them, and by a count of faults that never falls. A line that is longer than may be is told as such and never kept whole, so
//! that no input takes memory without end; all memory is a room's, and is taken before the first line. `ReaderLines` stands over
//! any buffered reader (`BufRead`), as that of standard input, takes what its buffer holds a piece at a time, and tells nothing: it
//! is a trusted edge. `MemLines` has all its bytes in memory.
//! Nothing here knows what a line means.
#![tactic(auto)]

mod mem_lines;
mod reader_lines;
mod room;
mod source;

pub use mem_lines::MemLines;
pub use reader_lines::ReaderLines;
pub use room::{LINE_MOST, LineRoom};
pub use source::{Lines, ReadFailed, Taken};
