//! What a probe promises.
ghost use Rattle.std.specs.Prelude.{◌≡◌, ℕ, List, slice_get};
ghost use Rattle.sn_base.specs.declared.event.Event.{Event};
ghost use Rattle.sn_base.specs.declared.event.Answer.{Answer};

use sn_base::{Answer, Event};

/// A measuring tool that is told events.
///
/// `tally` is what it has measured so far, `first` what it has before it is told anything, and `step` what an event with
/// its number and its answer makes of a tally. What a probe does besides, no clause says.
pub trait Probe: Drop {
    ghost first: { Self → List ℕ };

    ghost tally: { Self → List ℕ };

    ghost step: { Self → List ℕ → ℕ → Event → Answer → List ℕ };

    /// Tells it an event that was applied. Events are numbered from 1 in the order in which they are applied.
    fn told(&mut self, number: u64, event: &Event, answer: &Answer)
        ensures tally { tally self.new ≡ step self.old (tally self.old) number event.now answer.now }
        ensures first { first self.new ≡ first self.old }
        ensures step { step self.new ≡ step self.old };

    /// The number of its tally at a place, None past the tally's end.
    fn line(&self, place: usize) -> Option<u64>
        ensures { result ≡ slice_get (tally self.now) place };
}
