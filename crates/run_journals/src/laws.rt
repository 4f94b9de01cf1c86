//! What adding a turn to a journal does.
ghost use Rattle.std.specs.Prelude.{◌≡◌, ℕ, zero, suc, ◌+◌, ◌%◌, ◌^◌, nat_eq, cond, List, [], ◌∷◌, ◌++◌, Some};
ghost use Rattle.rand_core.specs.Pcg32Seed.{pcg32_seed};
ghost use Rattle.rand_pcg.specs.Pcg.{pcg32, pcg32_of_seed};
ghost use Rattle.sn_base.specs.Image.{ImageData};
ghost use Rattle.sn_base.specs.declared.config.Config.{Config};
ghost use Rattle.sn_base.specs.declared.event.Event.{Event};
ghost use Rattle.sn_model.specs.Machine.{State};
ghost use Rattle.sn_model.specs.Step.{step_of};
ghost use Rattle.due_events.specs.Numbers.{numbers_after};
ghost use Rattle.due_events.specs.Due.{due_of};
ghost use Rattle.sn_consistency.specs.Committed.{Begins};
ghost use Rattle.run_journals.specs.declared.entry.JournalEntry.{JournalEntry};
ghost use Rattle.run_journals.specs.Picks.{generator_at, pick_of};
ghost use Rattle.run_journals.specs.Journal.{Began, IsDue, entry_of, next_pick, turns_of, state_of, answers_of, numbers_of};

/// A worker's picks are what its generator gives, one after another, from the one that its seed makes.
pub fn picks_are_drawn()
    ensures first { (seed worker : ℕ) → generator_at seed worker 0 ≡ pcg32_of_seed (pcg32_seed 16 ((seed + worker) % 2 ^ 64)) }
    ensures next { (seed worker place : ℕ) →
        pcg32 (generator_at seed worker place) ≡ (pick_of seed worker place, generator_at seed worker (place + 1)) }
{}

/// A due event with its worker's next pick goes on with a due journal, and the machine, the answers, the driver's numbers and
/// the worker's turns go on by it.
pub fn a_due_turn_goes_on()
    ensures due { (began : Began) (journal : List JournalEntry) (worker : ℕ) (event : Event) → IsDue began journal
        → due_of began.rules began.image began.config (state_of began journal) (numbers_of began journal) worker
        (next_pick began.seed journal worker) ≡ Some event
        → IsDue began (journal ++ entry_of worker event ∷ []) }
    ensures state { (began : Began) (journal : List JournalEntry) (worker : ℕ) (event : Event) →
        state_of began (journal ++ entry_of worker event ∷ []) ≡ (step_of began.image began.config (state_of began journal) event).state }
    ensures answers { (began : Began) (journal : List JournalEntry) (worker : ℕ) (event : Event) →
        answers_of began (journal ++ entry_of worker event ∷ []) ≡ answers_of began journal
        ++ (step_of began.image began.config (state_of began journal) event).answer ∷ [] }
    ensures numbers { (began : Began) (journal : List JournalEntry) (worker : ℕ) (event : Event) →
        numbers_of began (journal ++ entry_of worker event ∷ [])
        ≡ numbers_after (numbers_of began journal) event (step_of began.image began.config (state_of began journal) event).answer }
    ensures turns { (journal : List JournalEntry) (worker other : ℕ) (event : Event) →
        turns_of other (journal ++ entry_of worker event ∷ []) ≡ turns_of other journal + cond (nat_eq worker other) 1 0 }
{}

/// What is released only grows, whatever the state and the event are.
pub fn released_only_grows()
    ensures { (image : ImageData) (config : Config) (s : State) (event : Event) →
        Begins s.released (step_of image config s event).state.released }
{}
