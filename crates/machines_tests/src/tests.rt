//! What is made of a machine: recoveries node by node, saved ones that go on, states, statistics and turns.
ghost use Rattle.std.specs.Prelude.{◌≡◌, true};

mod drivers;
mod recoveries;
mod saved;
mod states;
mod statistics;

use std::process::Abort;

/// Ends a test where it isn't so. A call is cheaper to prove than an assertion in its place, which is one more way out of the test.
fn is_so(rt: &impl Abort, found: bool)
    ensures { found ≡ true }
{
    assert!(rt; found);
}
