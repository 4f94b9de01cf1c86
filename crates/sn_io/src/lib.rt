//! The outside: stores that give files by name, and sinks that take bytes in order.
//!
//! The layers above know a store by the files that it holds, where it tells them, by whether it is sure, and by a
//! count of faults that never falls; they know a sink by the bytes that were written to it, where it tells them,
//! and by such a count. A gate is where a worker's turns can be held. `FileStore` and `StdSink` stand over the real files
//! and streams and tell nothing of their content: they are the trusted edge. `MemStore`, `MemSink` and `SureSink` serve
//! tests and callers that have all their bytes in memory. Nothing here knows what the bytes mean.
#![tactic(auto)]

mod calls;
mod file_store;
mod gate;
mod mem_sink;
mod mem_store;
mod outside;
mod std_sink;
mod sure_sink;

pub use file_store::FileStore;
pub use gate::{Gate, OpenGate};
pub use mem_sink::MemSink;
pub use mem_store::MemStore;
pub use outside::{Failed, Fetched, Sink, Store, StoreFault};
pub use sn_base::Memory;
pub use std_sink::StdSink;
pub use sure_sink::SureSink;

#[cfg(test)]
mod tests;
