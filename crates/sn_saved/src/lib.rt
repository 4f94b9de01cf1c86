//! A recovery point as it is saved, and the machine that goes on from it, as definitions.
//!
//! The definitions stand in specs/. `Saved.antt`: all that a machine needs to go on from its recovery point but for its program
//! (`Saved`), what of a machine is saved (`saved_of`), and when a machine may go on from it (`IsAccepted`). `Resumed.antt`: the
//! state in which it goes on (`resumed`), and the retirements that lie before it (`saved_entries`). Nothing here knows of texts.
#![tactic(auto)]

mod marks;

pub use marks::Marks;
