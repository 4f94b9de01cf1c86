//! Why a call ended as it did, said of its request, its status and the files that it named.
//!
//! When a call of `safetynet` has ended otherwise than done, its files are fetched once more, and one line says what was found
//! and where: `write_reason`. What the line says stands in `reasons`; which file is blamed stands here. Of words that are no
//! request and of files that can't be fetched others speak. A replay that is done is replayed once more for the notes on it:
//! `write_notes`. Nothing here writes to a stream.
#![tactic(auto)]

mod accesses;
mod blame;
mod content;
mod lines;
mod notes;
mod programs;
mod reason;
mod refusals;
mod saves;
mod verdict;

pub use blame::file_of;
pub use notes::write_notes;
pub use reason::write_reason;
