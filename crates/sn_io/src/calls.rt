//! Counted calls, of which some are named to fail.
ghost use Rattle.std.specs.Prelude.{◌≡◌, [], ◌∷◌, ◌++◌, OnOk, OnErr, false};
ghost use Rattle.sn_io.specs.Calls.{CallsData, next_call, is_next_named, NoneToCome};

use sn_base::Memory;
use std::alloc::Global;
use std::marker::Model;

/// How many calls were made, and the numbers of those that are to fail. The first call is 1.
#[derive(Drop)]
pub struct Calls {
    named: Vec<u64>,
    made: u64,
}

impl Model for Calls {
    ghost use Rattle.sn_io.specs.Calls.{CallsData};

    ghost Value = { CallsData };

    ghost view = { λ c. record { named = c.named.items; made = c.made } };
}

impl Calls {
    pub fn new(alloc: Global) -> Calls
        ensures { result ≡ record { named = []; made = 0 } }
    {
        Calls {
            named: Vec::new(alloc),
            made: 0,
        }
    }

    pub fn name(&mut self, call: u64) -> Result<(), Memory>
        ensures ok { OnOk result (self.new ≡ record self.old { named = self.old.named ++ call ∷ [] }) }
        ensures err { OnErr result (self.new ≡ self.old) }
    {
        self.named.push(call)?;
        Ok(())
    }

    // The count stands at the last value of its type; no call has a number there.
    pub fn is_next_named(&self) -> bool
        ensures same { result ≡ is_next_named self.now }
        ensures sure { NoneToCome self.now → result ≡ false }
    {
        if self.made == u64::MAX {
            return false;
        }
        self.named.contains(&(self.made + 1))
    }

    pub fn begin(&mut self)
        ensures next { self.new ≡ next_call self.old }
        ensures sure { NoneToCome self.old → NoneToCome self.new }
    {
        self.made = self.made.saturating_add(1);
    }
}
