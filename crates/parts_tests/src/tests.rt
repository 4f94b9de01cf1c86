//! The parts that a machine is built of: values, logs, lists by intervals, routes and nets.
ghost use Rattle.std.specs.Prelude.{◌≡◌, true};

mod clocks;
mod histories;
mod intervals;
mod logs;
mod messages;
mod nets;
mod outputs;
mod points;
mod registers;
mod routes;
mod transactions;
mod values;

use std::process::Abort;

/// Ends a test where it isn't so. A call is cheaper to prove than an assertion in its place, which is one more way out of the test.
fn is_so(rt: &impl Abort, found: bool)
    ensures { found ≡ true }
{
    assert!(rt; found);
}
