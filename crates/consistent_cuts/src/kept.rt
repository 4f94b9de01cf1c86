//! The same event by event, as a machine's type keeps it.
ghost use Rattle.std.specs.Prelude.{◌≡◌, ℕ, ◌<◌, ◌≤◌, true, List, length};
ghost use Rattle.sn_base.specs.Image.{ImageData};
ghost use Rattle.sn_base.specs.declared.config.Config.{Config};
ghost use Rattle.sn_base.specs.declared.event.Event.{Event};
ghost use Rattle.rv_core.specs.Core.{is_reserved};
ghost use Rattle.sn_model.specs.Machine.{State, processor_at};
ghost use Rattle.sn_model.specs.Step.{step_of};
ghost use Rattle.sn_model.specs.Trace.{TraceEntry, trace_after_event};
ghost use Rattle.sn_coherence.specs.Records.{Records};
ghost use Rattle.sn_consistency.specs.Entries.{Entry as Sorted};
ghost use Rattle.sn_consistency.specs.Sorted.{at_cut};
ghost use Rattle.sn_consistency.specs.Outline.{AllPlaced};
ghost use Rattle.consistent_cuts.specs.Headline.{IsConsistent, IsStepOfRun};
ghost use Rattle.sn_base.specs.Config.{config_fits};
ghost use Rattle.consistent_cuts.specs.RunInvariant.{RunInvariant, Holds};
ghost use Rattle.consistent_cuts.specs.Origins.{Origin, MayBegin, state_at, entries_at};
ghost use Rattle.consistent_cuts.specs.Outlines.{start_places, interval_of};
ghost use Rattle.consistent_cuts.specs.Runs.{EventFits};

/// Where a run may begin there is what is joined: at a program's start with nothing retired, and where a saved machine goes on
/// with what retired before.
pub fn origin_is_joined()
    ensures { (image : ImageData) (config : Config) (origin : Origin) → MayBegin image config origin → config_fits config ≡ true
        → Holds image config.nodes (state_at image config origin) (entries_at image origin) }
{}

/// Each event keeps it, whatever its answer is, with the retirement that it adds or those that it takes back.
pub fn each_event_joins()
    ensures { (image : ImageData) (config : Config) (nodes : ℕ) (s : State) (trace : List TraceEntry) (event : Event) →
        Holds image nodes s trace → EventFits nodes event
        → Holds image nodes (step_of image config s event).state (trace_after_event image s event (step_of image config s event).answer trace) }
{}

/// And what is joined is consistent, now and with whatever event comes next.
pub fn joined_is_consistent()
    ensures now { (image : ImageData) (nodes : ℕ) (s : State) (trace : List TraceEntry) → Holds image nodes s trace →
        IsConsistent image nodes s trace }
    ensures next { (image : ImageData) (config : Config) (s : State) (trace : List TraceEntry) (event : Event) →
        Holds image config.nodes s trace → EventFits config.nodes event
        → IsStepOfRun image config s event (step_of image config s event) }
{}

/// What the coherence theorem's records say of a block is what the accesses of the sorted list leave: its content at each cut
/// from the recovery point on, bounds above the intervals of its writes and of each node's accesses, and reservations that no
/// later write of another core has broken.
pub fn records_are_of_the_list()
    ensures content { (image : ImageData) (s : State) (r : ℕ → Records) (list : ℕ → List Sorted) (trace : List TraceEntry) →
        RunInvariant image s r list trace
        → (b k : ℕ) → s.fabric.point ≤ k → (at_cut image (start_places image (length s.fabric.nodes)) list k).content b ≡ (r b).below k }
    ensures accesses { (image : ImageData) (s : State) (r : ℕ → Records) (list : ℕ → List Sorted) (trace : List TraceEntry) →
        RunInvariant image s r list trace
        → (x : ℕ) → AllPlaced image (interval_of s.fabric) (λ b. (r b).last_write) (λ b n. (r b).last_access n) x (list x) }
    ensures reserved { (image : ImageData) (s : State) (r : ℕ → Records) (list : ℕ → List Sorted) (trace : List TraceEntry) →
        RunInvariant image s r list trace
        → (n b k : ℕ) → interval_of s.fabric n < k → is_reserved (processor_at s n).core.reservation b ≡ true
        → (at_cut image (start_places image (length s.fabric.nodes)) list k).held n b ≡ true }
{}
