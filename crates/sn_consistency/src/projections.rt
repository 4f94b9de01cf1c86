//! The law of the projections: an execution is a list of records that is good on each core and on each block.
ghost use Rattle.std.specs.Prelude.{ℕ, ◌↔◌, List};
ghost use Rattle.sn_base.specs.Image.{ImageData};
ghost use Rattle.rv_core.specs.declared.step.Record.{Record};
ghost use Rattle.rv_core.specs.Flat.{FlatState, flat_start};
ghost use Rattle.rv_core.specs.Execution.{Executes, IsExecution};
ghost use Rattle.sn_consistency.specs.Shows.{Shows, places_of};
ghost use Rattle.sn_consistency.specs.Projections.{AllGood, AllProjectionsGood, FirstWithoutStep, LeastFailing};

/// As a reader says it: the records of each core, filtered from the list, replay the core's step alone, and the
/// accesses to each block, filtered from the list, find what the earlier ones leave.
pub fn execution_is_good_projections()
    ensures from_state { (image : ImageData) (nodes : ℕ) (s : FlatState) → Shows nodes s (places_of s) →
        (rs : List Record) → Executes image s rs ↔ AllProjectionsGood image nodes s rs }
    ensures from_start { (image : ImageData) (nodes : ℕ) (rs : List Record) → IsExecution image nodes rs ↔
        AllProjectionsGood image nodes (flat_start image nodes) rs }
{}

/// As a checker runs it: folds over the whole list, each of which skips what is not of its core or of its block, so
/// that all of them count the same places.
pub fn execution_is_good_skipping()
    ensures from_state { (image : ImageData) (nodes : ℕ) (s : FlatState) → Shows nodes s (places_of s) →
        (rs : List Record) → Executes image s rs ↔ AllGood image nodes s rs }
    ensures from_start { (image : ImageData) (nodes : ℕ) (rs : List Record) → IsExecution image nodes rs ↔
        AllGood image nodes (flat_start image nodes) rs }
{}

/// The least place at which a projection fails is that of the first record without a flat step.
pub fn first_refused_is_least_failing()
    ensures from_state { (image : ImageData) (nodes : ℕ) (s : FlatState) → Shows nodes s (places_of s) →
        (rs : List Record) (place : ℕ) → FirstWithoutStep image s rs place ↔ LeastFailing image nodes s rs place }
    ensures from_start { (image : ImageData) (nodes : ℕ) (rs : List Record) (place : ℕ) →
        FirstWithoutStep image (flat_start image nodes) rs place ↔
        LeastFailing image nodes (flat_start image nodes) rs place }
{}
