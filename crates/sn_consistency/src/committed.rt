//! The committed part of the list: all that stands below the recovery point.
ghost use Rattle.std.specs.Prelude.{◌≡◌, ℕ, suc, ◌≤◌, List, [], ◌∷◌, ◌++◌, cond, ◌==◌, nat_lt};
ghost use Rattle.sn_base.specs.Image.{ImageData};
ghost use Rattle.rv_core.specs.Flat.{FlatState, flat_start};
ghost use Rattle.rv_core.specs.Execution.{Executes, state_after, put_out_by, in_of, IsExecution, end_of, out_of};
ghost use Rattle.sn_consistency.specs.Entries.{Entry, Places};
ghost use Rattle.sn_consistency.specs.Sorted.{below, at_cut, GoodList, retire, entries_below_cut};
ghost use Rattle.sn_consistency.specs.Shows.{Shows, places_of, records, outs};
ghost use Rattle.sn_consistency.specs.Committed.{records_committed, bytes_released, Begins, Retirement, by_interval, retirements_below};

/// The committed part is an execution, and its last state is that of the cut: each block, each core but for its
/// reservation, and which reservations stand. So it is from any flat state, and so from a program's start.
pub fn committed_part_is_execution()
    ensures executes { (image : ImageData) (nodes : ℕ) (s : FlatState) (F : Places) → Shows nodes s F →
        (f : ℕ → List Entry) → GoodList image nodes F f → (point : ℕ) → Executes image s (records_committed f point) }
    ensures last_state { (image : ImageData) (nodes : ℕ) (s : FlatState) (F : Places) → Shows nodes s F →
        (f : ℕ → List Entry) → GoodList image nodes F f → (point : ℕ) →
        Shows nodes (state_after image s (records_committed f point)) (at_cut image F f point) }
    ensures from_start { (image : ImageData) (nodes : ℕ) (f : ℕ → List Entry) →
        GoodList image nodes (places_of (flat_start image nodes)) f → (point : ℕ) →
        IsExecution image nodes (records_committed f point) }
    ensures end_from_start { (image : ImageData) (nodes : ℕ) (f : ℕ → List Entry) →
        GoodList image nodes (places_of (flat_start image nodes)) f → (point : ℕ) →
        Shows nodes (end_of image nodes (records_committed f point)) (at_cut image (places_of (flat_start image nodes)) f point) }
{}

/// Where the point rises by one, the committed part grows by the records of that interval, at its end.
pub fn committed_part_grows()
    ensures next { (f : ℕ → List Entry) (point : ℕ) → records_committed f (suc point) ≡
        records_committed f point ++ records (f point) }
    ensures released { (image : ImageData) (f : ℕ → List Entry) (point : ℕ) → bytes_released image f (suc point) ≡
        bytes_released image f point ++ outs image (f point) }
    ensures later { (f : ℕ → List Entry) (point k : ℕ) → point ≤ k → Begins (records_committed f point) (records_committed f k) }
    ensures by_interval { (f : ℕ → List Entry) (point : ℕ) → records_committed f point ≡ below (λ j. records (f j)) point }
{}

/// A retirement at or above the point and a recovery to it leave the committed part and its output as they were.
pub fn committed_part_stays()
    ensures retired { (f : ℕ → List Entry) (x point : ℕ) (e : Entry) → point ≤ x →
        records_committed (retire f x e) point ≡ records_committed f point }
    ensures retired_output { (image : ImageData) (f : ℕ → List Entry) (x point : ℕ) (e : Entry) → point ≤ x →
        bytes_released image (retire f x e) point ≡ bytes_released image f point }
    ensures recovered { (f : ℕ → List Entry) (point : ℕ) → records_committed (entries_below_cut f point) point ≡ records_committed f point }
    ensures recovered_output { (image : ImageData) (f : ℕ → List Entry) (point : ℕ) →
        bytes_released image (entries_below_cut f point) point ≡ bytes_released image f point }
{}

/// A recovery drops the intervals at and above the point. What it leaves is good, the cuts up to the point are as they
/// were and those above it are the cut at the point, and all that is left is the committed part.
pub fn recovery_leaves_execution()
    ensures good { (image : ImageData) (nodes : ℕ) (F : Places) (f : ℕ → List Entry) → GoodList image nodes F f →
        (point : ℕ) → GoodList image nodes F (entries_below_cut f point) }
    ensures executes { (image : ImageData) (nodes : ℕ) (s : FlatState) (F : Places) → Shows nodes s F →
        (f : ℕ → List Entry) → GoodList image nodes F f → (point k : ℕ) →
        Executes image s (records_committed (entries_below_cut f point) k) }
    ensures earlier { (image : ImageData) (F : Places) (f : ℕ → List Entry) (point k : ℕ) → k ≤ point →
        at_cut image F (entries_below_cut f point) k ≡ at_cut image F f k }
    ensures later { (image : ImageData) (F : Places) (f : ℕ → List Entry) (point k : ℕ) → point ≤ k →
        at_cut image F (entries_below_cut f point) k ≡ at_cut image F f point }
    ensures all { (f : ℕ → List Entry) (point k : ℕ) → point ≤ k → records_committed (entries_below_cut f point) k ≡
        records_committed f point }
{}

/// The bytes that the committed part puts out are those that its entries put out, in its order.
pub fn output_is_released()
    ensures output { (image : ImageData) (nodes : ℕ) (s : FlatState) (F : Places) → Shows nodes s F →
        (f : ℕ → List Entry) → GoodList image nodes F f → (point : ℕ) → put_out_by image s (records_committed f point) ≡
        bytes_released image f point }
    ensures from_start { (image : ImageData) (nodes : ℕ) (f : ℕ → List Entry) →
        GoodList image nodes (places_of (flat_start image nodes)) f → (point : ℕ) →
        out_of image nodes (records_committed f point) ≡ bytes_released image f point }
{}

/// The bytes that a node has taken at a cut are those that the records below it read, and those below a lower cut are
/// the first of them.
pub fn reads_are_taken()
    ensures taken { (image : ImageData) (F : Places) (f : ℕ → List Entry) (node point : ℕ) →
        (at_cut image F f point).taken node ≡ F.taken node ++ in_of node (records_committed f point) }
    ensures first { (f : ℕ → List Entry) (node point k : ℕ) → point ≤ k →
        Begins (in_of node (records_committed f point)) (in_of node (records_committed f k)) }
{}

/// A list of retirements with their intervals, taken by interval: one more at its end is a retirement at the end of its
/// interval, and the removal of those that are not below an interval is a recovery to it.
pub fn retirements_by_interval()
    ensures push { (rs : List (Retirement Entry)) (q : Retirement Entry) (x : ℕ) → by_interval (rs ++ q ∷ []) x ≡
        retire (by_interval rs) q.interval q.item x }
    ensures kept { (rs : List (Retirement Entry)) (k x : ℕ) → by_interval (retirements_below rs k) x ≡
        entries_below_cut (by_interval rs) k x }
{}
