//! How the workers come to the lock.

use crate::sleeping::sleep;
use std::hint::spin_loop;
use std::sync::atomic::{AtomicBool, Ordering};
use std::sync::{Mutex, MutexGuard, Wait};

/// How many turns of each worker are handed over as they end: a short run then has many changes of the worker.
const SINGLE: u64 = 1000;

/// How often a worker that asks looks at the lock at once: for longer than most turns take.
const LOOKS: u32 = 100;

/// How often a worker asks between two long sleeps.
const ASKS: u32 = 3;

/// The sleep between two of these, in nanoseconds: whoever has the lock may be waiting for this worker's processor.
const SHORT: u64 = 20_000;

/// The long sleep, in nanoseconds a worker, so that someone asks about as often however many there are.
const LONG: u64 = 100_000;

/// Where workers wait for the lock, once each has had some turns: whoever finds it held sleeps for a time, and nobody wakes it;
/// then it asks, and whoever had the last turn leaves the lock to it. So few turns make a call of the system.
#[derive(Drop)]
pub(crate) struct Turnstile {
    is_asked: AtomicBool,
    long: u64,
}

impl Turnstile {
    pub(crate) fn new(workers: usize) -> Turnstile {
        Turnstile {
            is_asked: AtomicBool::new(false),
            long: LONG.saturating_mul(workers as u64),
        }
    }

    /// The lock for a worker's turn of this number, once nobody else has it.
    pub(crate) fn enter<'a, V, T: Wait>(
        &self,
        rt: &T,
        lock: &'a Mutex<V>,
        turn: u64,
    ) -> MutexGuard<'a, V> {
        if turn <= SINGLE {
            return lock.lock(rt);
        }
        if !self.is_asked.load(Ordering::SeqCst) {
            if let Some(guard) = lock.try_lock() {
                return guard;
            }
        }
        'sleeps: for _ in rt.forever() {
            sleep(rt, self.long);
            if let Some(guard) = self.ask(rt, lock) {
                return guard;
            }
        }
        unreachable!()
    }

    /// The lock, if it is left to this worker soon.
    fn ask<'a, V, T: Wait>(&self, rt: &T, lock: &'a Mutex<V>) -> Option<MutexGuard<'a, V>> {
        self.is_asked.store(true, Ordering::SeqCst);
        let mut found = look(lock);
        'asks: for _ in 1..ASKS {
            if found.is_some() {
                break;
            }
            sleep(rt, SHORT);
            self.is_asked.store(true, Ordering::SeqCst);
            found = look(lock);
        }
        self.is_asked.store(false, Ordering::SeqCst);
        found
    }
}

/// Looks at the lock for a while.
fn look<V>(lock: &Mutex<V>) -> Option<MutexGuard<'_, V>> {
    'looks: for _ in 0..LOOKS {
        let found = lock.try_lock();
        if found.is_some() {
            return found;
        }
        spin_loop();
    }
    None
}
