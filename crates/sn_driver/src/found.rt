//! What a walk of a node's list finds.
ghost use Rattle.std.specs.Prelude.{◌≡◌, ◌<◌, ◌+◌, ℕ, List, ◌++◌, [], ◌∷◌, true};
ghost use Rattle.sn_base.specs.declared.event.Event.{Event};
ghost use Rattle.sn_base.specs.Events.{event_fits};
ghost use Rattle.sn_driver.specs.Found.{HasFound};

use sn_base::Event;

/// How many events a list has, and the first 4 of them: few lists are longer, and those are walked again.
#[derive(Clone, Copy)]
pub struct Found {
    pub count: usize,
    pub first: [Option<Event>; 4],
}

impl Found {
    /// Of an empty list.
    pub fn none() -> Found
        ensures { (nodes : ℕ) → HasFound nodes [] result }
    {
        Found {
            count: 0,
            first: [None; 4],
        }
    }

    /// One event more.
    pub fn add(&mut self, event: Event)
        requires room { self.old.count < 65536 }
        ensures count { self.new.count ≡ self.old.count + 1 }
        ensures found { (nodes : ℕ) (events : List Event) → event_fits nodes event ≡ true → HasFound nodes events self.old →
            HasFound nodes (events ++ event ∷ []) self.new }
    {
        if self.count < 4 {
            self.first[self.count] = Some(event);
        }
        self.count += 1;
    }
}
