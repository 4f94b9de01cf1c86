//! A place that every worker passes before each of its turns.

/// What lets a worker go on, or holds it. It promises nothing: tests hold workers with it, to see that they run at once.
pub trait Gate {
    /// Returns when the worker may take its turn. Workers count from 0 and the turns of each from 1.
    fn before(&self, worker: u32, turn: u64);
}

/// Lets every worker through at once.
#[derive(Clone, Copy, Debug)]
pub struct OpenGate;

impl OpenGate {
    pub fn new() -> OpenGate {
        OpenGate
    }
}

impl Gate for OpenGate {
    fn before(&self, _worker: u32, _turn: u64) {}
}
