//! How the node workers wake the console's worker.

use std::sync::Wait;
use std::sync::atomic::{AtomicBool, Ordering};
use std::thread::Parker;

/// Rung where something may have been passed on, and once more when the node workers have ended. One worker waits for it.
#[derive(Drop)]
pub(crate) struct Bell {
    ended: AtomicBool,
    sleeper: Parker,
}

impl Bell {
    pub(crate) fn new() -> Bell {
        Bell {
            ended: AtomicBool::new(false),
            sleeper: Parker::new(),
        }
    }

    pub(crate) fn ring(&self) {
        self.sleeper.unpark();
    }

    pub(crate) fn end(&self) {
        self.ended.store(true, Ordering::SeqCst);
        self.sleeper.unpark();
    }

    pub(crate) fn has_ended(&self) -> bool {
        self.ended.load(Ordering::SeqCst)
    }

    /// Returns once it was rung since the last return.
    pub(crate) fn wait<T: Wait>(&self, rt: &T) {
        self.sleeper.park(rt);
    }
}
