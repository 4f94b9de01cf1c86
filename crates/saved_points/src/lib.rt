//! What is saved of a machine after any run is what a machine may go on from, where no two nodes are cut off.
//!
//! A saved point is accepted if it is in form, no two nodes are cut off, the blocks that caches own fit their sets, the committed
//! trace is an execution, and what its records read was given. The second is the premise, and the others follow: what caches own at
//! the recovery point they hold there, and what is held there fits. The layers above learn from here that what they save they may go
//! on from, and for which two nodes they may not. No code stands here.
#![tactic(auto)]

ghost use Rattle.std.specs.Prelude.{◌≡◌, ◌+◌, ◌≤◌, List, None, length};
ghost use Rattle.sn_base.specs.Image.{ImageData};
ghost use Rattle.sn_base.specs.declared.config.Config.{Config};
ghost use Rattle.sn_base.specs.declared.event.Event.{Event};
ghost use Rattle.route_plan.specs.Routes.{first_cut_off};
ghost use Rattle.sn_model.specs.PointEvents.{living_switches};
ghost use Rattle.sn_saved.specs.Saved.{IsAccepted, living_in, most_saved};
ghost use Rattle.consistent_cuts.specs.Headline.{IsRun};
ghost use Rattle.consistent_cuts.specs.Origins.{Origin, MayBegin, applied_at, reached_from};
ghost use Rattle.saved_points.specs.Points.{saved_after, MayBeSaved};

/// For every program, every fitting configuration, every place where a run may begin and every list of events: where the machine
/// has no two nodes that are cut off from each other, its recovery point, once it is saved, is accepted. And where it has, what is
/// saved is refused for the same two.
pub fn saved_is_accepted()
    ensures accepted { (image : ImageData) (config : Config) (origin : Origin) (events : List Event) → MayBegin image config origin →
        IsRun config events → MayBeSaved (saved_after image config origin events) →
        first_cut_off (living_switches (reached_from image config origin events).fabric) ≡ None
        → IsAccepted image (saved_after image config origin events) }
    ensures cut_off { (image : ImageData) (config : Config) (origin : Origin) (events : List Event) → MayBegin image config origin →
        IsRun config events → first_cut_off (living_in (saved_after image config origin events))
        ≡ first_cut_off (living_switches (reached_from image config origin events).fabric) }
{}

/// A node is given a byte by an event, and a record is committed of one that retired an instruction: so after at most a million
/// events, those before a saved point among them, there is no more than may be saved.
pub fn few_events_may_be_saved()
    ensures { (image : ImageData) (config : Config) (origin : Origin) (events : List Event) → MayBegin image config origin →
        IsRun config events → applied_at origin + length events ≤ most_saved → MayBeSaved (saved_after image config origin events) }
{}
