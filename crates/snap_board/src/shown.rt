//! What the two copies hold, and what is posted to be shown.
ghost use Rattle.std.specs.Prelude.{◌≡◌};

use crate::roll::{Knowledge, Note};
use crate::snap::Snap;
use atomic_table::Perch;
use left_right::Absorb;
use std::alloc::AllocError;
use std::marker::Model;

/// What is shown: a snapshot, and a place for a note that knows of it.
#[derive(Drop)]
pub struct Shown {
    pub(crate) snap: Snap,
    pub(crate) perch: Perch<Snap, Knowledge>,
}

impl Model for Shown {
    ghost use Rattle.snap_board.specs.Fronts.{EndsIn};
    ghost use Rattle.snap_board.specs.Posts.{ShownData};

    ghost Value = { ShownData };

    ghost view = { λ s. record { snap = s.snap; perch = s.perch } };

    ghost invariant = { λ s. EndsIn s.perch.view.seen s.snap };
}

/// A snapshot to be shown, with a note that knows of it.
#[derive(Drop)]
pub struct Post {
    snap: Snap,
    note: Note,
}

impl Model for Post {
    ghost use Rattle.snap_board.specs.Fronts.{EndsIn};
    ghost use Rattle.snap_board.specs.Posts.{ShownData};

    ghost Value = { ShownData };

    ghost view = { λ p. record { snap = p.snap; perch = record { table_id = p.note.table_id; view = p.note.me.0 } } };

    ghost invariant = { λ p. EndsIn p.note.me.0.seen p.snap };
}

impl Post {
    ghost use Rattle.snap_board.specs.Fronts.{EndsIn};

    pub(crate) fn new(snap: Snap, note: Note) -> Post
        requires { EndsIn note.me.0.seen snap }
        ensures { result ≡ record { snap = snap; perch = record { table_id = note.table_id; view = note.me.0 } } }
    {
        Post { snap, note }
    }

    /// What shows it, with no note in its place yet.
    pub(crate) fn shown(&self) -> Shown
        ensures { result ≡ self.now }
    {
        Shown {
            snap: self.snap.copied(),
            perch: Perch::new(&self.note, 0),
        }
    }
}

impl Absorb<Post> for Shown {
    type State = Perch<Snap, Knowledge>;

    ghost state = { λ shown. shown.perch };

    ghost applied = { λ _ post. post.perch };

    ghost never_fails = { Unit {0} };

    fn absorb_first(&mut self, operation: &Post, _other: &Shown) -> Result<(), AllocError> {
        *self = operation.shown();
        Ok(())
    }
}
