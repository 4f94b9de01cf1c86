//! A saved recovery point, and the machine that goes on from it.
ghost use Rattle.std.specs.Prelude.{◌≡◌, ℕ, ◌+◌, ◌≤◌, List, None, length};
ghost use Rattle.sn_base.specs.Image.{ImageData};
ghost use Rattle.sn_base.specs.declared.config.Config.{Config};
ghost use Rattle.sn_base.specs.declared.event.Event.{Event};
ghost use Rattle.sn_base.specs.declared.event.Event.TheVariants.{Recover};
ghost use Rattle.rv_core.specs.Execution.{end_of};
ghost use Rattle.route_plan.specs.Routes.{first_cut_off};
ghost use Rattle.sn_model.specs.Machine.{State};
ghost use Rattle.sn_model.specs.PointEvents.{living_switches};
ghost use Rattle.sn_model.specs.RecoveryPoint.{IsRestored};
ghost use Rattle.sn_model.specs.Step.{step_of};
ghost use Rattle.sn_model.specs.Trace.{TraceEntry};
ghost use Rattle.fabric_bounds.specs.Resumed.{resumed};
ghost use Rattle.fabric_bounds.specs.Saved.{Saved, IsInForm, IsAccepted, saved_of, most_saved, most_applied};
ghost use Rattle.consistent_cuts.specs.Headline.{IsRun};
ghost use Rattle.consistent_cuts.specs.Origins.{Origin, MayBegin, applied_at, reached_from};
ghost use Rattle.consistent_cuts.specs.RunInvariant.{Holds};

/// What is saved of a machine goes on as a recovery would leave that machine, where no node is cut off.
pub fn recovery_resumes()
    ensures { (image : ImageData) (config : Config) (s : State) (trace : List TraceEntry) (applied : ℕ) → Holds image config.nodes s trace →
        first_cut_off (living_switches s.fabric) ≡ None → (step_of image config s Recover).state ≡ resumed image (saved_of config s applied) }
{}

/// Whatever is accepted goes on as a recovery leaves a machine: just the cut, which is the last state of what is committed.
pub fn resumed_is_restored()
    ensures { (image : ImageData) (saved : Saved) → IsAccepted image saved
        → IsRestored (resumed image saved) (end_of image saved.config.nodes saved.committed) }
{}

/// What is saved of a machine after any run is in form, where there are no more bytes and records than may be saved.
pub fn saved_is_in_form()
    ensures { (image : ImageData) (config : Config) (origin : Origin) (events : List Event) → MayBegin image config origin →
        IsRun config events → applied_at origin + length events ≤ most_applied →
        length (saved_of config (reached_from image config origin events) (applied_at origin + length events)).given ≤ most_saved →
        length (reached_from image config origin events).committed ≤ most_saved
        → IsInForm (saved_of config (reached_from image config origin events) (applied_at origin + length events)) }
{}
