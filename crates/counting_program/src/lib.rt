//! The program of generated runs, in which every core counts for ever.
//!
//! Each core adds 1 to a word that all share, puts out a byte made of what it found, and begins again. It has no input and no
//! end: whatever a core sees, it runs on. So a driver that runs it always has something to do, and a run of it can be made as
//! long as one wants. The words stand in specs/, and the theorem in `laws`.
#![tactic(auto)]

mod laws;

pub use laws::no_core_ends;
