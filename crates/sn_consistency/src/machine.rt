//! What a machine keeps of the list from event to event, and what follows from it at the recovery point. The machine is
//! seen by an outline: its intervals, cores, reservations, register checkpoints and input, and of each block the newest
//! content, the contents at the cuts, and bounds for the intervals of its writes and of each node's accesses.
ghost use Rattle.std.specs.Prelude.{◌≡◌, ℕ, zero, suc, ◌≤◌, Bool, true, List, [], ◌++◌};
ghost use Rattle.sn_base.specs.Image.{ImageData};
ghost use Rattle.rv_core.specs.declared.state.CoreState.{CoreState};
ghost use Rattle.rv_core.specs.declared.step.Record.{Record};
ghost use Rattle.rv_core.specs.Core.{bare};
ghost use Rattle.rv_core.specs.Flat.{FlatState, core_at};
ghost use Rattle.rv_core.specs.Execution.{Executes, state_after, in_of};
ghost use Rattle.sn_consistency.specs.Words.{block_in};
ghost use Rattle.sn_consistency.specs.Entries.{Entry, Places};
ghost use Rattle.sn_consistency.specs.Sorted.{at_cut};
ghost use Rattle.sn_consistency.specs.Projections.{entries};
ghost use Rattle.sn_consistency.specs.Shows.{Shows, places_of};
ghost use Rattle.sn_consistency.specs.Committed.{records_committed, Begins};
ghost use Rattle.sn_consistency.specs.Outline.{Outline, Keeps, Retires, IsSameOutline, outline_after_retirement, first_outline, saved_outline, outline_after_edge, lost_to, outline_after_news, given_to};
ghost use Rattle.sn_consistency.specs.Outline.{outline_after_validation, outline_after_recovery, others_reach};

/// A program's start keeps it, and so does each event: a retirement that may be, an edge, the loss of reservations, the
/// news of a point that isn't above the machine's, a byte of input, a validation where no node's interval is below the
/// new point, and a recovery that gives back what the committed part hasn't read.
pub fn each_event_keeps()
    ensures begun { (image : ImageData) (nodes : ℕ) (F : Places) → ((n : ℕ) → F.taken n ≡ []) →
        Keeps image nodes F (first_outline F) }
    ensures retired { (image : ImageData) (nodes : ℕ) (F : Places) (m : Outline) → Keeps image nodes F m →
        (e : Entry) → Retires image nodes m e → Keeps image nodes F (outline_after_retirement image m e) }
    ensures edged { (image : ImageData) (nodes : ℕ) (F : Places) (m : Outline) → Keeps image nodes F m →
        (n : ℕ) → Keeps image nodes F (outline_after_edge m n) }
    ensures lost { (image : ImageData) (nodes : ℕ) (F : Places) (m : Outline) → Keeps image nodes F m →
        (left : ℕ → ℕ → Bool) → ((n b : ℕ) → left n b ≡ true → m.reserved n b ≡ true) →
        Keeps image nodes F (lost_to m left) }
    ensures learned { (image : ImageData) (nodes : ℕ) (F : Places) (m : Outline) → Keeps image nodes F m →
        (n point : ℕ) → point ≤ m.point → Keeps image nodes F (outline_after_news m n point) }
    ensures given { (image : ImageData) (nodes : ℕ) (F : Places) (m : Outline) → Keeps image nodes F m →
        (n byte : ℕ) → Keeps image nodes F (given_to m n byte) }
    ensures validated { (image : ImageData) (nodes : ℕ) (F : Places) (m : Outline) → Keeps image nodes F m →
        ((n : ℕ) → suc m.point ≤ m.interval n) → Keeps image nodes F (outline_after_validation m) }
    ensures recovered { (image : ImageData) (nodes : ℕ) (F : Places) (m : Outline) → Keeps image nodes F m →
        (waiting : ℕ → List ℕ) →
        ((n : ℕ) → m.given n ≡ (at_cut image F m.list m.point).taken n ++ waiting n) →
        Keeps image nodes F (outline_after_recovery m waiting) }
{}

/// A machine that goes on from a saved recovery point keeps it, where what is committed is an execution, and what was given is
/// what that read and what waits.
pub fn saved_point_keeps()
    ensures { (image : ImageData) (nodes : ℕ) (s : FlatState) → Shows nodes s (places_of s) → (committed : List Record) →
        Executes image s committed → (point : ℕ) → (point ≡ zero → committed ≡ []) → (given waiting : ℕ → List ℕ) →
        ((n : ℕ) → given n ≡ in_of n committed ++ waiting n) → Keeps image nodes (places_of s)
        (saved_outline (state_after image s committed) (entries image (core_at s) committed) point given waiting) }
{}

/// What a machine that keeps it has at its recovery point: the committed part is an execution; in its last state each
/// block is as it is at the point, and each core, but for its reservation, as in the node's register checkpoint; and what
/// a node's committed records read are the first of the bytes given to it.
pub fn point_is_last_state()
    ensures executes { (image : ImageData) (nodes : ℕ) (s : FlatState) (F : Places) → Shows nodes s F →
        (m : Outline) → Keeps image nodes F m → Executes image s (records_committed m.list m.point) }
    ensures contents { (image : ImageData) (nodes : ℕ) (s : FlatState) (F : Places) → Shows nodes s F →
        (m : Outline) → Keeps image nodes F m → (b : ℕ) →
        block_in (state_after image s (records_committed m.list m.point)).memory b ≡ m.content b m.point }
    ensures cores { (image : ImageData) (nodes : ℕ) (s : FlatState) (F : Places) → Shows nodes s F →
        (m : Outline) → Keeps image nodes F m → (n : ℕ) →
        bare (core_at (state_after image s (records_committed m.list m.point)) n) ≡ m.checkpoint n m.point }
    ensures reads { (image : ImageData) (nodes : ℕ) (F : Places) (m : Outline) → Keeps image nodes F m →
        (n : ℕ) → F.taken n ≡ [] → Begins (in_of n (records_committed m.list m.point)) (m.given n) }
{}

/// An outline that is the same at each place keeps what the other keeps: so a machine's, made of its parts after an event,
/// keeps what the event's outline keeps.
pub fn same_at_each_place_keeps()
    ensures { (image : ImageData) (nodes : ℕ) (F : Places) (m p : Outline) → IsSameOutline m p →
        Keeps image nodes F m → Keeps image nodes F p }
{}

/// Register checkpoints count from the point that their node knows up to its interval: what stands elsewhere is nobody's.
pub fn freed_checkpoints_count_for_nothing()
    ensures { (image : ImageData) (nodes : ℕ) (F : Places) (m : Outline) → Keeps image nodes F m →
        (checkpoint : ℕ → ℕ → CoreState) →
        ((n k : ℕ) → m.known n ≤ k → k ≤ m.interval n → checkpoint n k ≡ m.checkpoint n k) →
        Keeps image nodes F (record m { checkpoint = checkpoint }) }
{}

/// A number that is no node's retires nothing, so it may be said to have reached any interval.
pub fn others_may_go_on()
    ensures { (image : ImageData) (nodes : ℕ) (F : Places) (m : Outline) → Keeps image nodes F m → (k : ℕ) →
        Keeps image nodes F (others_reach nodes F m k) }
{}
