//! The headline over whole runs, from a program's start or from a saved recovery point.
ghost use Rattle.std.specs.Prelude.{List};
ghost use Rattle.sn_base.specs.Image.{ImageData};
ghost use Rattle.sn_base.specs.declared.config.Config.{Config};
ghost use Rattle.sn_base.specs.declared.event.Event.{Event};
ghost use Rattle.sn_model.specs.Step.{step_of};
ghost use Rattle.consistent_cuts.specs.Headline.{IsRun, IsConsistent, IsStepOfRun};
ghost use Rattle.consistent_cuts.specs.Origins.{Origin, MayBegin, AddsTo, state_at, reached_from, retirements_from};
ghost use Rattle.consistent_cuts.specs.Runs.{EventFits};

/// For every program, every fitting configuration, every place where a run may begin and every list of events, in whatever
/// order: the committed trace is an execution without faults, the recovery point is a cut of its last state, released bytes are
/// its output, what a node has read is the first of what it was given, and nothing before the recovery point is unfinished. So
/// it is at every moment of a run, since the first events of a run are a run.
pub fn every_moment_is_consistent()
    ensures { (image : ImageData) (config : Config) (origin : Origin) (events : List Event) → MayBegin image config origin →
        IsRun config events
        → IsConsistent image config.nodes (reached_from image config origin events) (retirements_from image config origin events) }
{}

/// And whatever comes next: a validation comes only where nothing before its checkpoint is unfinished, and commits just the
/// interval before it; nothing else changes what is committed or released; a recovery leaves just the cut.
pub fn every_event_is_consistent()
    ensures { (image : ImageData) (config : Config) (origin : Origin) (events : List Event) (event : Event) →
        MayBegin image config origin → IsRun config events → EventFits config.nodes event
        → IsStepOfRun image config (reached_from image config origin events) event
        (step_of image config (reached_from image config origin events) event) }
{}

/// What was committed and released where a run began comes first: a saved trace and what is committed later are one execution,
/// and the two consoles joined its output.
pub fn every_run_adds_to_its_origin()
    ensures { (image : ImageData) (config : Config) (origin : Origin) (events : List Event) → MayBegin image config origin →
        IsRun config events → AddsTo (state_at image config origin) (reached_from image config origin events) }
{}
