//! What a machine's code relies on, over whole runs.
ghost use Rattle.std.specs.Prelude.{ℕ, ◌+◌, ◌≤◌, ◌<◌, List, length};
ghost use Rattle.sn_base.specs.Image.{ImageData};
ghost use Rattle.sn_base.specs.declared.config.Config.{Config};
ghost use Rattle.sn_base.specs.declared.event.Event.{Event};
ghost use Rattle.fabric_bounds.specs.Bounds.{KeepsBounds};
ghost use Rattle.fabric_bounds.specs.Counts.{CountsTo};
ghost use Rattle.consistent_cuts.specs.Headline.{IsRun};
ghost use Rattle.consistent_cuts.specs.Origins.{Origin, MayBegin, state_at, applied_at, reached_from};
ghost use Rattle.consistent_cuts.specs.OfFabric.{GoesBy};

/// Each event of the machine is one event of its fabric at most, which can happen there. So a run of the machine is one of
/// its fabric, and all that is proved of those holds of it: whatever is delivered meets its row, logs, network and caches are
/// never fuller than they may be, and what a recovery puts back fits the sets.
pub fn every_run_is_one_of_the_fabric()
    ensures goes { (image : ImageData) (config : Config) (origin : Origin) (events : List Event) → MayBegin image config origin →
        IsRun config events
        → GoesBy config (state_at image config origin).fabric (reached_from image config origin events).fabric (length events) }
    ensures bounded { (image : ImageData) (config : Config) (origin : Origin) (events : List Event) → MayBegin image config origin →
        IsRun config events → KeepsBounds config (reached_from image config origin events).fabric }
    ensures counts { (image : ImageData) (config : Config) (origin : Origin) (events : List Event) → MayBegin image config origin →
        IsRun config events → CountsTo (applied_at origin + length events) (reached_from image config origin events).fabric }
{}
