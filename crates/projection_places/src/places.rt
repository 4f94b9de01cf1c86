//! The least place of all projections is that of the first record without a flat step.
ghost use Rattle.std.specs.Prelude.{◌≡◌, ℕ, ◌<◌, List, length, take};
ghost use Rattle.sn_base.specs.Image.{ImageData};
ghost use Rattle.rv_core.specs.declared.step.Record.{Record};
ghost use Rattle.rv_core.specs.Flat.{FlatState, flat_start};
ghost use Rattle.rv_core.specs.Execution.{Executes, IsExecution};
ghost use Rattle.sn_consistency.specs.Shows.{Shows, places_of};
ghost use Rattle.sn_consistency.specs.Projections.{FirstWithoutStep};
ghost use Rattle.projection_places.specs.Passes.{Passes, CoresPass, BlocksPass};

/// Where all cores together pass so many records, and all blocks together so many of these, the second number is that
/// of the records that the flat machine does: all of them, or those before the first that has no step.
pub fn least_place_is_first_refused()
    ensures all { (image : ImageData) (nodes : ℕ) (s : FlatState) → Shows nodes s (places_of s) →
        (rs : List Record) (cores blocks : ℕ) → Passes (CoresPass image nodes s rs) (length rs) cores →
        Passes (BlocksPass image s rs) cores blocks → blocks ≡ length rs → Executes image s rs }
    ensures some { (image : ImageData) (nodes : ℕ) (s : FlatState) → Shows nodes s (places_of s) →
        (rs : List Record) (cores blocks : ℕ) → Passes (CoresPass image nodes s rs) (length rs) cores →
        Passes (BlocksPass image s rs) cores blocks → blocks < length rs → FirstWithoutStep image s rs blocks }
    ensures start_all { (image : ImageData) (nodes : ℕ) (rs : List Record) (cores blocks : ℕ) →
        Passes (CoresPass image nodes (flat_start image nodes) rs) (length rs) cores →
        Passes (BlocksPass image (flat_start image nodes) rs) cores blocks → blocks ≡ length rs →
        IsExecution image nodes rs }
    ensures start_some { (image : ImageData) (nodes : ℕ) (rs : List Record) (cores blocks : ℕ) →
        Passes (CoresPass image nodes (flat_start image nodes) rs) (length rs) cores →
        Passes (BlocksPass image (flat_start image nodes) rs) cores blocks → blocks < length rs →
        FirstWithoutStep image (flat_start image nodes) rs blocks }
{}
