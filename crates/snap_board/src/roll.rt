//! The roll of what was published, and the notes of it, by which each side knows a beginning of the published list.
use crate::snap::Snap;
use atomic_table::{Join, Play, Seat, Split, Table, TableRule};
use std::alloc::Global;

/// What a note knows: the snapshots that were seen, those that were heard of last, and whether it is the note of the one that
/// publishes. No value of it is made.
pub struct Knowledge {
    pub seen: [Snap; 0],
    pub heard: [Snap; 0],
    pub leads: bool,
}

/// The rule.
pub struct Fronts;

impl TableRule<Snap, Knowledge, ()> for Fronts {
    ghost use Rattle.snap_board.specs.Keeps.{Keeps, publisher};

    ghost holds = { λ _ state. Keeps state.views };

    ghost first = { λ _. publisher };
}

pub(crate) struct Adds;

impl Play<Snap, Knowledge> for Adds {
    ghost use Rattle.snap_board.specs.Keeps.{added};

    ghost then = { added };
}

pub(crate) struct Hears;

impl Play<Snap, Knowledge> for Hears {
    ghost use Rattle.snap_board.specs.Keeps.{hears};

    ghost then = { hears };
}

/// What a note tells of what it knows.
pub(crate) struct Tells;

impl Split<Knowledge> for Tells {
    ghost use Rattle.snap_board.specs.Keeps.{knowledge_told};

    ghost left = { λ k. k };

    ghost right = { knowledge_told };
}

/// What a note makes of what it is told.
pub(crate) struct IsTold;

impl Join<Knowledge> for IsTold {
    ghost use Rattle.snap_board.specs.Keeps.{knowledge_after, newcomer};

    ghost both = { knowledge_after };

    ghost spent = { newcomer };
}

pub(crate) type Roll = Table<Snap, Knowledge, (), Fronts, Global>;

pub(crate) type Note = Seat<Snap, Knowledge>;
