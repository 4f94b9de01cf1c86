//! Values as texts, files that are read, and the lines that say why.
ghost use Rattle.std.specs.Prelude.{◌≡◌, true};

mod reasons_given;
mod saves;
mod states;
mod statuses;

use std::process::Abort;

/// Ends a test where it isn't so. A call is cheaper to prove than an assertion in its place, which is one more way out of the test.
fn is_so(rt: &impl Abort, found: bool)
    ensures { found ≡ true }
{
    assert!(rt; found);
}
