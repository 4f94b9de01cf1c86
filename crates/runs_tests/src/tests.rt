//! Runs by threads and in orders, each with all that it puts, and with sinks that fail.
ghost use Rattle.std.specs.Prelude.{◌≡◌, true};

mod monitors;
mod orders;
mod seeds;
mod threads;
mod turns;

use std::process::Abort;

/// Ends a test where it isn't so. A call is cheaper to prove than an assertion in its place, which is one more way out of the test.
fn is_so(rt: &impl Abort, found: bool)
    ensures { found ≡ true }
{
    assert!(rt; found);
}
