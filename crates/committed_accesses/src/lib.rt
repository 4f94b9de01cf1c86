//! The committed trace with what an architect reads: a line of CSV for each record, with its core, the address and the text of its
//! instruction, and the access to memory that it is.
//!
//! The layer above knows the lines as a function of the program and the records: the definition that gives a trace's accesses
//! (`access_check`) gives those of the rows, one by one (`laws.rt`). The cores of the trace are kept and stepped by its records
//! alone, without a memory, so the records have to be an execution. All memory is taken before the first line. Nothing here knows
//! of events, words or files.
#![tactic(auto)]

mod access;
mod instruction;
mod laws;
mod putting;
mod row_line;
mod rows;

pub use laws::rows_have_the_accesses;
pub use putting::{RowsFault, put_access_rows};
pub use row_line::{ROW_ROOM, RowLine};
pub use rows::AccessRows;
