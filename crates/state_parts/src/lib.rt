//! In which parts a state of the machine is told, and which of them an event may have touched.
//!
//! A part is a node, the entry of one block's home, the network, or the service controller with what it commits. The layer
//! above tells a state by its parts, and after an event those alone that `parts_touched` names. The theorem is that every other
//! part is as it was; so who replaces the parts that are told has the whole state after each event. No code stands here.
#![tactic(auto)]

ghost use Rattle.sn_base.specs.Image.{ImageData};
ghost use Rattle.sn_base.specs.declared.config.Config.{Config};
ghost use Rattle.sn_base.specs.declared.event.Event.{Event};
ghost use Rattle.sn_model.specs.Machine.{State};
ghost use Rattle.sn_model.specs.Step.{step_of};
ghost use Rattle.state_parts.specs.Touched.{parts_touched, OthersStay};

/// An event leaves every part as it was but those that it is said to touch, whatever its answer.
pub fn other_parts_are_as_they_were()
    ensures { (image : ImageData) (config : Config) (s : State) (event : Event) →
        OthersStay (parts_touched s event (step_of image config s event).answer) s (step_of image config s event).state }
{}
