//! What each side of the two copies knows of what is shown.

use crate::roll::Knowledge;
use crate::snap::Snap;
use atomic_table::{Join, Perch, Split};

/// What one side knows: nothing, or what it saw shown last. No value of it is made.
pub struct Sight {
    pub known: bool,
    pub perch: Perch<Snap, Knowledge>,
}

/// What the writer tells of what it has shown: all.
pub(crate) struct Tells;

impl Split<Sight> for Tells {
    ghost left = { λ k. k };

    ghost right = { λ k. k };
}

/// What a reader makes of it.
pub(crate) struct Hears;

impl Join<Sight> for Hears {
    ghost use Rattle.snap_board.specs.Sights.{sight_after, unknown};

    ghost both = { sight_after };

    ghost spent = { unknown };
}
