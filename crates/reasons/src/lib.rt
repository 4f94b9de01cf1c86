//! Why a call ended as it did, in one line that a user understands: what was found, where, and what is allowed.
//!
//! The layer above hands a cause with the numbers that it has, the name of the file that is blamed and the bytes of that file,
//! and gets the line's bytes, `# why: ` and a line's end included. What a line says stands in specs/. A file that can't be
//! read any more is handed as no bytes: the line then says less. What the words of a call lack is said by `usage_reasons`.
//! Nothing here reads a file or writes to a stream.
#![tactic(auto)]

mod assembly;
mod ends;
mod header;
mod hints;
mod near;
mod place;
mod program;
mod reason;
mod save;
mod script;
mod verdict;

pub use assembly::write_assembly;
pub use ends::{
    Lack, Unread, write_cut_off, write_lack, write_longer, write_spent, write_trapped, write_unread,
};
pub use hints::TextKind;
pub use near::{is_near, nearest};
pub use place::record_line;
pub use program::write_program;
pub use reason::Reason;
pub use save::write_save;
pub use script::{limit_of, write_script};
pub use verdict::write_refused;
