//! The recovery point: it rises, and the machine goes back to it.
ghost use Rattle.std.specs.Prelude.{◌≡◌, ◌+◌, None};
ghost use Rattle.sn_model.specs.MachineEvents.{step_of_validation, commits, restores, unready_node};
ghost use Rattle.sn_model.specs.PointEvents.{step_of_advance, step_of_recovery};
ghost use Rattle.sn_machine.specs.Parts.{state_of, IsWhole, Does};
ghost use Rattle.sn_machine.specs.Sound.{IsSound};

use crate::hardware::Hardware;
use crate::restoring::restore_all;
use sn_base::{Answer, Event, Interval};

impl Hardware {
    /// The recovery point rises by one, and the interval that it leaves behind is committed.
    pub fn validate(&mut self) -> Answer
        requires whole { IsWhole self.old }
        requires sound { IsSound (state_of self.old) }
        ensures { Does self.old self.new result (step_of_validation (state_of self.old)) }
    {
        match self.controller.check() {
            Ok(k) => self.commit(k),
            Err(behind) => {
                self.is_carried = false;
                Answer::NotReady(behind.node)
            }
        }
    }

    fn commit(&mut self, k: Interval) -> Answer
        requires whole { IsWhole self.old }
        requires sound { IsSound (state_of self.old) }
        requires ready { unready_node (state_of self.old) ≡ None }
        requires next { k ≡ self.old.fabric.fabric.point + 1 }
        ensures { Does self.old self.new result (commits (state_of self.old) (step_of_advance self.old.fabric.fabric k)) }
    {
        self.is_carried = true;
        let answer = self.fabric.advance(k);
        let Answer::Validated(_) = answer else {
            return answer;
        };
        let _ = self.controller.advance();
        self.history.commit_below(k);
        self.output.release_below(k);
        answer
    }

    /// The answer that `validate` would give now.
    #[tactic(auto, unfolding(sn_model::specs::FabricEvents::moved_by))]
    pub fn foresee_validate(&self) -> Answer
        requires whole { IsWhole self.now }
        requires sound { IsSound (state_of self.now) }
        ensures { result ≡ (step_of_validation (state_of self.now)).answer }
    {
        match self.controller.check() {
            Ok(k) => self.fabric.foresee(Event::Validate, k),
            Err(behind) => Answer::NotReady(behind.node),
        }
    }

    /// The machine goes back to the recovery point, and what isn't committed is dropped.
    pub fn recover(&mut self) -> Answer
        requires whole { IsWhole self.old }
        requires sound { IsSound (state_of self.old) }
        ensures { Does self.old self.new result
            (restores (state_of self.old) (step_of_recovery self.old.fabric.fabric self.old.fabric.fabric.point)) }
    {
        self.is_carried = true;
        let point = self.controller.point();
        let answer = self.fabric.recover(point);
        let Answer::Recovered(_) = answer else {
            return answer;
        };
        restore_all(&mut self.processors, point);
        self.controller.reset();
        self.history.drop_pending();
        self.output.drop_from(point);
        answer
    }
}
