//! Lists of accesses as texts: read, judged, and the verdict written.
//!
//! The layer above fetches a file and gives its bytes. It learns the words and accesses that the text says, or the first
//! cause for which it isn't such a text, and has the verdict's text put to the report. What is legal is `access_check`'s
//! to say; what a line says stands in specs/.
#![tactic(auto)]

mod access_line;
mod access_list;
mod operands;
mod verdicts;

pub use access_line::Statement;
pub use access_list::{AccessList, read_accesses};
pub use verdicts::{JudgeFault, judge_list, judge_text, verdict_text};
