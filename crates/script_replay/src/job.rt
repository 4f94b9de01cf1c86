//! What is to be replayed, and what is shown of it.
ghost use Rattle.std.specs.Prelude.{◌≡◌};

use sn_base::{Config, Event, Image};
use std::marker::Model;

/// What the report has of a replay before the summary, with which it ends in any case.
#[derive(Clone, Copy, PartialEq, Eq, Debug)]
pub enum ReportKind {
    /// Each event with its answer, as a group of lines.
    Events,
    /// The committed trace, one record a line. The summary's lines are marked as comments of a trace.
    Trace,
    /// Nothing.
    Summary,
}

/// What a replay shows: a report, and a word of memory besides.
#[derive(Clone, Copy, PartialEq, Eq, Debug)]
pub struct Showing {
    pub report: ReportKind,
    /// The address of the word that is shown wherever the cores are.
    pub watch: Option<u32>,
}

/// The events of a script. Contracts see the list of them.
#[derive(Drop)]
pub struct Script {
    events: Vec<Event>,
}

impl Model for Script {
    ghost use Rattle.std.specs.Prelude.{List};
    ghost use Rattle.sn_base.specs.declared.event.Event.{Event};

    ghost Value = { List Event };

    ghost view = { λ s. s.events.items };
}

impl Script {
    pub fn new(events: Vec<Event>) -> Script
        ensures { result ≡ events.items }
    {
        Script { events }
    }

    pub fn events(&self) -> &[Event]
        ensures { result.now ≡ self.now }
    {
        self.events.as_slice()
    }
}

/// A program, the sizes of the machine that it runs on, the events to apply, and what to show.
#[derive(Drop)]
pub struct Replay {
    pub program: Image,
    pub config: Config,
    pub showing: Showing,
    pub script: Script,
}
