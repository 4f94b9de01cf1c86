//! Events that come one after another.
ghost use Rattle.std.specs.Prelude.{◌≡◌, ℕ, List, IfSome};
ghost use Rattle.sn_base.specs.Image.{ImageData};
ghost use Rattle.sn_base.specs.declared.config.Config.{Config};
ghost use Rattle.sn_base.specs.declared.event.Event.{Event};
ghost use Rattle.sn_base.specs.declared.event.Answer.{Answer};
ghost use Rattle.sn_model.specs.Machine.{State};
ghost use Rattle.due_events.specs.Machine.{next_of};
ghost use Rattle.due_events.specs.Runs.{then_others};
ghost use Rattle.script_replay.specs.Played.{after_event};
ghost use Rattle.script_replay.specs.Scheduled.{left_on};

use due_events::sn_machine::Machine;
use sn_base::{Answer, Event};
use std::marker::Model;

/// Events that come one after another. Which one is next, the machine may decide on which those before it were applied.
///
/// `left` is the events that are still to come, by a machine's program, its sizes and its state, and `noted` what `left` is
/// once an event is noted with its answer. `serves` says of machines of how many nodes it can be asked, and `awaits` that it
/// has given an event of which it waits for the answer.
pub trait Schedule: Drop {
    ghost left: { Self → ImageData → Config → State → List Event };

    ghost noted: { Self → Event → Answer → ImageData → Config → State → List Event };

    ghost serves: { Self → ℕ → Type 0 };

    ghost awaits: { Self → Type 0 };

    /// The next event. None where none is left.
    fn next(&mut self, machine: &Machine) -> Option<Event>
        requires { serves self.old machine.now.config.nodes }
        ensures next { left_on (left self.old) machine.now ≡ then_others result
            (λ event. left_on (noted self.new event (next_of machine.now event).answer) (after_event machine.now event)) }
        ensures awaits { IfSome result (λ event. awaits self.new) }
        ensures serves { (nodes : ℕ) → serves self.old nodes → serves self.new nodes };

    /// Notes that the event that it gave last was applied and had this answer.
    fn note(&mut self, event: &Event, answer: &Answer)
        requires { awaits self.old }
        ensures noted { left self.new ≡ noted self.old event.now answer.now }
        ensures serves { (nodes : ℕ) → serves self.old nodes → serves self.new nodes };
}

/// Events that are there from the first, whatever their answers are. Contracts see the list of those that are left.
#[derive(Drop)]
pub(crate) struct Listed<'a> {
    events: &'a [Event],
}

impl<'a> Model for Listed<'a> {
    ghost use Rattle.std.specs.Prelude.{List};
    ghost use Rattle.sn_base.specs.declared.event.Event.{Event};

    ghost Value = { List Event };

    ghost view = { λ l. l.events.now };
}

impl<'a> Listed<'a> {
    pub fn new(events: &'a [Event]) -> Listed<'a>
        ensures { result ≡ events.now }
    {
        Listed { events }
    }
}

impl Schedule for Listed<'_> {
    ghost left = { λ l image config s. l };

    ghost noted = { λ l event answer image config s. l };

    ghost serves = { λ l nodes. Unit {0} };

    ghost awaits = { λ l. Unit {0} };

    fn next(&mut self, _machine: &Machine) -> Option<Event> {
        match self.events.split_first() {
            Some((event, rest)) => {
                self.events = rest;
                Some(*event)
            }
            None => None,
        }
    }

    fn note(&mut self, _event: &Event, _answer: &Answer) {}
}
