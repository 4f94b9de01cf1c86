//! One core: its state, what its next instruction wants of memory or of the input, and what finishing that
//! instruction makes of it.
//!
//! The layer above asks a running core what it wants, finds the word, the byte of input or the permission of a
//! store-conditional, and finishes the instruction with them. A core touches no memory itself and takes none. The
//! definitions of the flat machine, the plain meaning of a program on several cores over one memory, stand here
//! beside it in specs/, and so does what an execution is.
//!
//! The instruction set is RV32I and A of the RISC-V Unprivileged ISA manual, as rv_decode reads them.
#![tactic(auto)]

mod access;
mod arithmetic;
mod execute;
mod rows;
mod state;
mod step;

pub use state::{Cause, CoreState, End};
pub use step::{Effect, Record, Want};
