//! What the driver counts.
ghost use Rattle.std.specs.Prelude.{◌≡◌, ◌<◌};
ghost use Rattle.std.specs.List.{All};
ghost use Rattle.due_events.specs.Numbers.{numbers_with_event, with_retired, with_edge, with_report, with_answer, numbers_after};

use crate::driver::Driver;
use sn_base::{Answer, Event, Interval};

impl Driver {
    fn count_event(&mut self, event: &Event)
        requires { self.old.numbers.done < 4000000000 }
        ensures counted { self.new ≡ record self.old { numbers = numbers_with_event self.old.numbers event.now } }
        ensures room { All (λ count. count < self.new.numbers.done) self.new.numbers.retired }
    {
        self.done += 1;
        self.since += 1;
        if let Event::Hop(_) | Event::Deliver(_) | Event::Lose(_) = event {
            self.moves += 1;
        }
    }

    fn note_retired(&mut self, event: &Event)
        requires { All (λ count. count < self.old.numbers.done) self.old.numbers.retired }
        ensures { self.new ≡ record self.old { numbers = with_retired self.old.numbers event.now } }
    {
        if let Event::Step(node) = event {
            self.retired[usize::from(node.number())] += 1;
        }
    }

    fn note_edge(&mut self, event: &Event)
        ensures { self.new ≡ record self.old { numbers = with_edge self.old.numbers event.now } }
    {
        if let Event::Edge(node) = event {
            self.retired[usize::from(node.number())] = 0;
        }
    }

    fn note_report(&mut self, event: &Event, k: Interval)
        ensures { self.new ≡ record self.old { numbers = with_report self.old.numbers event.now k } }
    {
        if let Event::Report(node) = event {
            self.told[usize::from(node.number())] = k;
        }
    }

    fn note_answer(&mut self, event: &Event, answer: &Answer)
        requires { All (λ count. count < self.old.numbers.done) self.old.numbers.retired }
        ensures { self.new ≡ record self.old { numbers = with_answer self.old.numbers event.now answer.now } }
    {
        match answer {
            Answer::Retired => self.note_retired(event),
            Answer::Edged(_) => self.note_edge(event),
            Answer::Reported(k) => self.note_report(event, *k),
            Answer::Validated(_) => self.since = 0,
            Answer::Recovered(undo) => {
                self.since = 0;
                self.retired = [0; 16];
                self.told = [undo.to; 16];
            }
            Answer::CutOff(first, second) => self.cut_off = Some((*first, *second)),
            _ => {}
        }
    }

    /// An event was applied, and had this answer.
    pub fn note(&mut self, event: &Event, answer: &Answer)
        requires life { self.old.numbers.done < 4000000000 }
        ensures { self.new ≡ record self.old { numbers = numbers_after self.old.numbers event.now answer.now } }
    {
        self.count_event(event);
        self.note_answer(event, answer);
    }
}
