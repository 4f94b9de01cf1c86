//! Probes that are told together.
ghost use Rattle.std.specs.Prelude.{◌≡◌, ◌<◌, length, map, slice_get, IfSome};
ghost use Rattle.sn_probe.specs.Probes.{meters_of, told_of};

use crate::probe::Probe;
use sn_base::{Answer, Event};

// A probe whose type nobody knows any more.
type Boxed = Box<dyn Probe + Send>;

/// The probes of a run, each of which is dropped with the set.
#[derive(Drop)]
pub struct ProbeSet {
    probes: Vec<Box<dyn Probe + Send>>,
}

fn tell_one(probe: &mut Boxed, number: u64, event: &Event, answer: &Answer)
    ensures tally { tally probe.new ≡ step probe.old (tally probe.old) number event.now answer.now }
    ensures first { first probe.new ≡ first probe.old }
    ensures step { step probe.new ≡ step probe.old }
{
    probe.told(number, event, answer);
}

fn tell_all(probes: &mut Vec<Boxed>, number: u64, event: &Event, answer: &Answer)
    ensures { meters_of first tally step probes.new.items
        ≡ map (told_of number event.now answer.now) (meters_of first tally step probes.old.items) }
{
    'each: for place in 0..probes.len() {
        tell_one(&mut probes[place], number, event, answer);
    }
}

fn line_of(probe: &Boxed, place: usize) -> Option<u64>
    ensures { result ≡ slice_get (tally probe.now) place }
{
    probe.line(place)
}

impl ProbeSet {
    pub fn new(probes: Vec<Box<dyn Probe + Send>>) -> ProbeSet
        ensures { result.probes ≡ probes }
    {
        ProbeSet { probes }
    }

    pub fn count(&self) -> usize
        ensures { result ≡ length self.now.probes.items }
    {
        self.probes.len()
    }

    /// Tells every probe the event, once, in order of their places.
    pub fn told(&mut self, number: u64, event: &Event, answer: &Answer)
        ensures { meters_of first tally step self.new.probes.items
            ≡ map (told_of number event.now answer.now) (meters_of first tally step self.old.probes.items) }
    {
        tell_all(&mut self.probes, number, event, answer);
    }

    /// The number at a place of one probe's tally, None past its end.
    pub fn line(&self, probe: usize, place: usize) -> Option<u64>
        requires { probe < length self.now.probes.items }
        ensures { IfSome (slice_get (meters_of first tally step self.now.probes.items) probe) (λ m. result ≡ slice_get m.tally place) }
    {
        line_of(&self.probes[probe], place)
    }
}
