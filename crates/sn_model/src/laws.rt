//! What follows from the definitions alone.
ghost use Rattle.std.specs.Prelude.{◌≡◌, ℕ, ◌+◌, Bool, true, List, length};
ghost use Rattle.sn_base.specs.Image.{ImageData};
ghost use Rattle.sn_base.specs.declared.config.Config.{Config};
ghost use Rattle.sn_base.specs.declared.event.Event.{Event};
ghost use Rattle.sn_model.specs.Machine.{State};
ghost use Rattle.sn_model.specs.Step.{step_of};
ghost use Rattle.sn_model.specs.Refusals.{is_refusal};

/// An event that is refused changes nothing: the machine is as it was.
pub fn refusal_changes_nothing()
    ensures { (image : ImageData) (config : Config) (s : State) (event : Event) → is_refusal (step_of image config s event).answer ≡ true →
        (step_of image config s event).state ≡ s }
{}
