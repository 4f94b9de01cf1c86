//! The events of a replay that were refused: how many, and the first.
ghost use Rattle.std.specs.Prelude.{◌≡◌, ◌-◌, ◌≤◌, ◌<◌, ◌^◌, true, length};
ghost use Rattle.std.specs.List.{All};
ghost use Rattle.sn_base.specs.Events.{event_fits};
ghost use Rattle.sn_model.specs.Refusals.{is_refusal};
ghost use Rattle.call_reasons.specs.Notes.{none_refused, with_answer, refusals_from};
ghost use Rattle.sn_base.specs.declared.limits.TheConstants.{EVENTS};

use sn_base::{Answer, Event};
use sn_machine::Machine;

/// A refused event: its place from 1, and its answer.
#[derive(Clone, Copy)]
pub struct Refused {
    pub place: u64,
    pub event: Event,
    pub answer: Answer,
}

/// How many events were refused, and the first of them.
#[derive(Clone, Copy)]
pub struct Refusals {
    pub count: u64,
    pub first: Option<Refused>,
}

// Whether an answer refuses its event, which then changed nothing.
fn is_refusal(answer: &Answer) -> bool
    ensures { result ≡ is_refusal answer.now }
{
    match answer {
        Answer::Waits
        | Answer::NeedsEvict
        | Answer::LogFull
        | Answer::NetFull
        | Answer::Ended
        | Answer::NotCached
        | Answer::PutOpen
        | Answer::MissOpen
        | Answer::CheckpointsFull
        | Answer::Arrived
        | Answer::NotArrived
        | Answer::NoMessage
        | Answer::Held
        | Answer::HomeBusy
        | Answer::AlreadyDead
        | Answer::NotReady(_)
        | Answer::CutOff(_, _)
        | Answer::NoInput => true,
        _ => false,
    }
}

impl Refusals {
    fn none() -> Refusals
        ensures { result ≡ none_refused }
    {
        Refusals {
            count: 0,
            first: None,
        }
    }

    // The same with one event's answer more.
    fn with(&self, place: u64, event: &Event, answer: &Answer) -> Refusals
        requires { self.now.count < 2 ^ 64 - 1 }
        ensures { result ≡ with_answer self.now place event.now answer.now }
    {
        if !is_refusal(answer) {
            return *self;
        }
        let first = match self.first {
            Some(first) => first,
            None => Refused {
                place,
                event: *event,
                answer: *answer,
            },
        };
        Refusals {
            count: self.count + 1,
            first: Some(first),
        }
    }
}

/// Applies events to a machine, and says which it refused.
pub fn refusals_of(machine: &mut Machine, events: &[Event]) -> Refusals
    requires fit { All (λ event. event_fits machine.old.config.nodes event ≡ true) events.now }
    requires few { length events.now ≤ EVENTS }
    requires room { length events.now ≤ machine.old.spare }
    ensures { result ≡ refusals_from machine.old 1 none_refused events.now }
{
    let mut refusals = Refusals::none();
    let mut place = 0u64;
    'events: for event in events {
        let answer = machine.apply(*event);
        place += 1;
        refusals = refusals.with(place, event, &answer);
    }
    refusals
}
