//! Receipts: what names a list that was published.
ghost use Rattle.std.specs.Prelude.{◌≡◌, []};
ghost use Rattle.snap_board.specs.Fronts.{EndsIn};

use crate::roll::Note;
use crate::snap::Snap;
use std::marker::Model;

/// The name of a list that was published. Contracts see the list, and of which board it is.
#[derive(Drop)]
pub struct Receipt {
    pub(crate) last: Snap,
    pub(crate) note: Note,
}

impl Model for Receipt {
    ghost use Rattle.std.specs.Prelude.{◌≡◌, []};
    ghost use Rattle.snap_board.specs.Fronts.{EndsIn};
    ghost use Rattle.snap_board.specs.Watching.{ReceiptData};

    ghost Value = { ReceiptData };

    ghost view = { λ r. record { board = r.note.table_id; list = r.note.me.0.seen } };

    ghost invariant = { λ r. EndsIn r.note.me.0.seen r.last × (r.note.me.1 ≡ []) };
}

impl Receipt {
    pub(crate) fn new(last: Snap, note: Note) -> Receipt
        requires ends { EndsIn note.me.0.seen last }
        requires bare { note.me.1 ≡ [] }
        ensures { result ≡ record { board = note.table_id; list = note.me.0.seen } }
    {
        Receipt { last, note }
    }

    /// The last snapshot of that list.
    pub fn last(&self) -> &Snap
        ensures { EndsIn self.now.list result.now }
    {
        &self.last
    }
}
