//! The rule under which the two copies are read and changed.

use crate::shown::{Post, Shown};
use crate::sight::Sight;
use crossbeam_utils::rule::{Outcome, Protocol};
use left_right::reader::Reader;
use left_right::writer::Writer;

/// The rule.
pub struct Sights;

impl Protocol<Shown, Sight> for Sights {
    ghost use Rattle.snap_board.specs.Sights.{Shows, unknown};

    ghost holds = { Shows };

    ghost first = { unknown };
}

/// What a look and a publishing tell.
pub(crate) struct Looks;

impl Outcome<Shown, Sight> for Looks {
    ghost use Rattle.snap_board.specs.Sights.{Looked};

    ghost then = { Looked };
}

pub(crate) type Shower = Writer<Shown, Post, Sight, Sights>;

pub(crate) type Sees = Reader<Shown, Sight, Sights>;
