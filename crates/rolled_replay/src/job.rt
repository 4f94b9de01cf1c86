//! What is to be replayed, and how the recovery after it is led.
ghost use Rattle.std.specs.Prelude.{◌≡◌};

use rolling_recovery::Control;
use script_replay::Script;
use sn_base::{Config, Image};
use std::marker::Model;

/// The controls that lead a recovery. Contracts see the list of them.
#[derive(Drop)]
pub struct Controls {
    controls: Vec<Control>,
}

impl Model for Controls {
    ghost use Rattle.std.specs.Prelude.{List};
    ghost use Rattle.rolling_recovery.specs.declared.controls.Control.{Control};

    ghost Value = { List Control };

    ghost view = { λ c. c.controls.items };
}

impl Controls {
    pub fn new(controls: Vec<Control>) -> Controls
        ensures { result ≡ controls.items }
    {
        Controls { controls }
    }

    pub fn controls(&self) -> &[Control]
        ensures { result.now ≡ self.now }
    {
        self.controls.as_slice()
    }
}

/// A program, the sizes of the machine that it runs on, the address of a word to show, the events to apply, and the controls
/// that lead the recovery of the machine that they leave.
#[derive(Drop)]
pub struct Roll {
    pub program: Image,
    pub config: Config,
    pub watch: Option<u32>,
    pub script: Script,
    pub controls: Controls,
}
