//! Which switches are dead.
ghost use Rattle.std.specs.Prelude.{◌≡◌, List, Bool, true, false, length, replicate, slice_set};
ghost use Rattle.route_plan.specs.Distances.{is_dead};

use sn_base::SwitchId;
use std::marker::Model;

/// The dead switches. Contracts see 32 marks, the mark of switch s at place s.
#[derive(Clone, Copy, PartialEq, Eq, Debug)]
pub struct Dead {
    marks: [bool; 32],
}

impl Model for Dead {
    ghost Value = { List Bool };

    ghost view = { λ d. d.marks };

    ghost invariant = { λ d. length d.marks ≡ 32 };

    ghost inverse = { λ d. record { marks = d } };
}

impl Dead {
    /// No switch is dead.
    pub fn none() -> Dead
        ensures { result ≡ replicate 32 false }
    {
        Dead { marks: [false; 32] }
    }

    pub fn with(self, switch: SwitchId) -> Dead
        ensures { result ≡ slice_set self switch true }
    {
        let mut marks = self.marks;
        marks[usize::from(switch.number())] = true;
        Dead { marks }
    }

    pub fn has(self, switch: SwitchId) -> bool
        ensures { result ≡ is_dead self switch }
    {
        self.marks[usize::from(switch.number())]
    }
}
