//! One block of the coherence protocol, as a pure machine.
//!
//! A block's state is a record of functions of nodes, message numbers and cuts; each row of the cache's and the home's
//! table, and each other event that touches a block, is one function on it. This crate proves once, for one block, what
//! the layers above rest on: every event keeps a set of named sentences, whatever is delivered, lost, evicted or
//! checkpointed in whatever order; and from the sentences follow the conditions of the rows, one holder at each cut,
//! and that each access is legal. The fabric and the machine project their lists on each block and cite the lemmas. No
//! code depends on this crate; its functions have empty bodies, and their contracts are the theorems.
//!
//! Source: the protocol of SafetyNet (Sorin, Martin, Hill, Wood, ISCA 2002), in this project's profile.
#![tactic(auto)]

ghost use Rattle.std.specs.Prelude.{◌≡◌, ℕ, ◌+◌, ◌<◌, ◌≤◌, Bool, false, List, [], ◌∷◌};
ghost use Rattle.sn_coherence.specs.Block.{Block, Content};
ghost use Rattle.sn_coherence.specs.OtherEvents.{start, resting, recover};
ghost use Rattle.sn_coherence.specs.Invariant.{BlockInvariant};
ghost use Rattle.sn_coherence.specs.Events.{Event, Validate, Allows, NothingUnfinished, after};
ghost use Rattle.sn_coherence.specs.Records.{Records, no_records, resting_records, rolls_back, records_after_event, MayHappen};
ghost use Rattle.sn_coherence.specs.RecordsInvariant.{RecordsInvariant};
ghost use Rattle.sn_coherence.specs.Consequences.{MeetsRows, MeetsNotes, HasOneHolder, HasContent, NoneBegun, IsRestored};
ghost use Rattle.sn_coherence.specs.Same.{IsSame};
ghost use Rattle.sn_coherence.specs.Log.{NoteLaws, NoNoteLaws, FreeLaws};
ghost use Rattle.sn_coherence.specs.Runs.{CanRun, block_after, records_after, IsCoherent};
ghost use Rattle.sn_coherence.specs.Example.{example_start, handed_over, events_with_recovery, EndsHandedOver, EndsRecovered};

/// At the start, when the block's home owns it and nobody has it, all sentences hold.
pub fn start_is_kept()
    ensures block { (N home : ℕ) (v : Content) → home < N → BlockInvariant N (start home v) }
    ensures records { (home : ℕ) (v : Content) → RecordsInvariant (start home v) (no_records v) }
{}

/// And so they do where a machine goes on from a recovery point: all nodes stand there, the home or one cache owns the
/// block, and all that was accessed was so in interval 0.
pub fn rest_is_kept()
    ensures block { (N point next home : ℕ) (at_home : Bool) (owner : ℕ) (v : Content) → home < N → (at_home ≡ false → owner < N)
        → BlockInvariant N (resting N point next home at_home owner v) }
    ensures records { (N point next home : ℕ) (at_home : Bool) (owner : ℕ) (v : Content) → home < N → (at_home ≡ false → owner < N)
        → RecordsInvariant (resting N point next home at_home owner v) (resting_records N point v) }
{}

/// Every event that can happen keeps the sentences on the block. They know nothing of who accessed it.
pub fn each_event_keeps()
    ensures { (N : ℕ) (b : Block) (e : Event) → BlockInvariant N b → Allows N b e → BlockInvariant N (after N b e) }
{}

/// Every event that the machine does can happen to the block, and keeps the sentences on the records of accesses too.
pub fn each_event_keeps_records()
    ensures allowed { (N : ℕ) (b : Block) (r : Records) (e : Event) → BlockInvariant N b → RecordsInvariant b r → MayHappen N b r e →
        Allows N b e }
    ensures kept { (N : ℕ) (b : Block) (r : Records) (e : Event) → BlockInvariant N b → RecordsInvariant b r → MayHappen N b r e →
        RecordsInvariant (after N b e) (records_after_event N b r e) }
{}

/// What the sentences say of every moment: of deliveries, of notes, of cuts, of all that the block shows, of a validation
/// that can happen, and of what a recovery leaves.
pub fn consequences()
    ensures rows { (N : ℕ) (b : Block) → N ≤ 16 → BlockInvariant N b → MeetsRows b }
    ensures notes { (N : ℕ) (b : Block) → BlockInvariant N b → MeetsNotes b }
    ensures holder { (N : ℕ) (b : Block) → BlockInvariant N b → (j : ℕ) → b.point ≤ j → NoneBegun b j → HasOneHolder N b j }
    ensures coherent { (N : ℕ) (b : Block) (r : Records) → N ≤ 16 → BlockInvariant N b → RecordsInvariant b r → IsCoherent N b r }
    ensures validated { (N : ℕ) (b : Block) (r : Records) → BlockInvariant N b → RecordsInvariant b r → MayHappen N b r Validate →
        NothingUnfinished N b (b.point + 1) × HasOneHolder N b (b.point + 1) × HasContent b r (b.point + 1) }
    ensures restored { (N : ℕ) (b : Block) (r : Records) → BlockInvariant N b → RecordsInvariant b r →
        IsRestored N (recover N b) (rolls_back r N b.point) }
{}

/// Whatever is delivered, lost, evicted, checkpointed or recovered, in whatever order, the block is coherent after it.
pub fn every_run_is_coherent()
    ensures { (N home : ℕ) (v : Content) (es : List Event) → home < N → N ≤ 16 → CanRun N (start home v) (no_records v) es
        → IsCoherent N (block_after N (start home v) es) (records_after N (start home v) (no_records v) es) }
{}

/// Two short runs can happen, and end as their definitions say: so the theorems are of something.
pub fn some_runs_can_happen()
    ensures handed_over { CanRun 2 example_start (no_records (5 ∷ [])) handed_over
        × EndsHandedOver (block_after 2 example_start handed_over) }
    ensures recovered { CanRun 2 example_start (no_records (5 ∷ [])) events_with_recovery × EndsRecovered (block_after 2 example_start events_with_recovery) }
{}

/// A block is what it is at each place: so a machine's block that is so after an event keeps what the event's row keeps.
pub fn same_at_each_place_is_same()
    ensures block { (N : ℕ) (a b : Block) → IsSame a b → BlockInvariant N b → BlockInvariant N a }
    ensures records { (a b : Block) (r : Records) → IsSame a b → RecordsInvariant b r → RecordsInvariant a r }
{}

/// How the list of a log's entries says what the block says at each cut: whether a cache held it, which cache was
/// named, and which content there was.
pub fn laws_of_a_log()
    ensures note { NoteLaws Bool × NoteLaws ℕ × NoteLaws Content }
    ensures no_note { NoNoteLaws Bool × NoNoteLaws ℕ × NoNoteLaws Content }
    ensures free { FreeLaws Bool × FreeLaws ℕ × FreeLaws Content }
{}
