//! A sleep that nobody ends.

use std::sync::Wait;
use std::sync::atomic::AtomicU64;
use std::time::Duration;

/// Sleeps for about so many nanoseconds. No clock is needed for it: it waits for a wake that never comes.
pub(crate) fn sleep<T: Wait>(rt: &T, nanoseconds: u64) {
    AtomicU64::new(0).park_timeout(rt, 0, Duration::from_nanos(nanoseconds));
}
