//! What stands in a cache, for a viewer or a debugger: its lines, its open miss and its open put.
use sn_base::{Block, BlockNo, Interval};
use sn_model::{LineState, Need};
use std::marker::Model;

/// A line that is there: its state, which isn't Absent, and its content.
#[derive(Clone, Copy, PartialEq, Eq, Debug)]
pub struct Line {
    pub state: LineState,
    pub content: Block,
}

impl Model for Line {
    ghost use Rattle.sn_model.specs.Caches.{Line as LineData};

    ghost Value = { LineData };

    ghost view = { λ l. record { state = l.state; content = l.content } };

    ghost inverse = { λ l. record { state = l.state; content = l.content } };
}

/// An open miss: what is needed of the block; the interval in which it was issued, and the one in which it takes effect, once
/// the answer is there; how many acknowledgements are due by that answer, and how many are in.
#[derive(Clone, Copy, PartialEq, Eq, Debug)]
pub struct OpenMiss {
    pub block: BlockNo,
    pub need: Need,
    pub issued: Interval,
    pub fixed: Option<Interval>,
    pub due: u8,
    pub acks: u8,
}

impl Model for OpenMiss {
    ghost use Rattle.sn_model.specs.Caches.{Miss};

    ghost Value = { Miss };

    ghost view = { λ m. record { block = m.block; need = m.need; issued = m.issued; fixed = m.fixed; due = m.due; acks = m.acks } };

    ghost inverse = { λ m. record { block = m.block; need = m.need; issued = m.issued; fixed = m.fixed; due = m.due; acks = m.acks } };
}

/// An open put, and the interval in which it was issued.
#[derive(Clone, Copy, PartialEq, Eq, Debug)]
pub struct OpenPut {
    pub block: BlockNo,
    pub issued: Interval,
}

impl Model for OpenPut {
    ghost use Rattle.sn_model.specs.Caches.{Put};

    ghost Value = { Put };

    ghost view = { λ p. record { block = p.block; issued = p.issued } };

    ghost inverse = { λ p. record { block = p.block; issued = p.issued } };
}
