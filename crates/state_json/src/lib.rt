//! A state of the machine as JSON, and what is told of an event: the definitions.
//!
//! Each text is defined from left to right: of the values that nodes, homes and messages have, of each part of a state, of a whole
//! state, and of the lines of `replay --states`, one an event, with the parts that the event may have touched. The law is that the
//! text of every other part is as it was; so who replaces the texts that are told has each part's text after the event. The layers
//! above write these texts. No code stands here.
#![tactic(auto)]

ghost use Rattle.sn_base.specs.Image.{ImageData};
ghost use Rattle.sn_base.specs.declared.config.Config.{Config};
ghost use Rattle.sn_base.specs.declared.event.Event.{Event};
ghost use Rattle.sn_model.specs.Machine.{State};
ghost use Rattle.sn_model.specs.Step.{step_of};
ghost use Rattle.state_parts.specs.Touched.{parts_touched};
ghost use Rattle.state_json.specs.Untold.{OtherTextsStay};

/// After an event the text of every part that its line doesn't tell is as it was.
pub fn untold_texts_are_as_they_were()
    ensures { (image : ImageData) (config : Config) (s : State) (event : Event) →
        OtherTextsStay image (parts_touched s event (step_of image config s event).answer) s (step_of image config s event).state }
{}
