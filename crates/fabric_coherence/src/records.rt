//! The theorems on the fabric with the records of accesses beside it.
ghost use Rattle.std.specs.Prelude.{◌≡◌, ℕ, ◌+◌, ◌<◌, ◌≤◌, Bool, true, List, length};
ghost use Rattle.sn_base.specs.Image.{ImageData};
ghost use Rattle.sn_base.specs.declared.block.Write.{Write};
ghost use Rattle.sn_base.specs.declared.config.Config.{Config};
ghost use Rattle.rv_core.specs.Core.{block_of};
ghost use Rattle.sn_model.specs.Access.{fabric_with_write, written_in};
ghost use Rattle.sn_model.specs.Caches.{block_count, line_of, is_present};
ghost use Rattle.sn_model.specs.Fabric.{Fabric, node_at, first_fabric, initial_block};
ghost use Rattle.sn_model.specs.FabricEvents.{FabricEvent, moved_by};
ghost use Rattle.sn_model.specs.NodeEvents.{ready_of};
ghost use Rattle.sn_saved.specs.Resumed.{fabric_resumed};
ghost use Rattle.sn_saved.specs.Saved.{AreInside};
ghost use Rattle.sn_coherence.specs.Records.{Records, no_records, resting_records, loads, loads_reserved, stores, stores_conditional, unreserves};
ghost use Rattle.fabric_coherence.specs.Coherent.{NothingUnfinished};
ghost use Rattle.fabric_coherence.specs.Events.{CanUse, CanWrite};
ghost use Rattle.fabric_coherence.specs.Recorded.{KeepsRecords, MayBeRecorded, HaveReported, recorded_by, at_block};
ghost use Rattle.fabric_coherence.specs.Told.{Tells};

/// At the start nothing was accessed.
pub fn start_is_recorded()
    ensures { (image : ImageData) (nodes : ℕ) → 1 ≤ nodes → nodes ≤ 16
        → KeepsRecords (first_fabric image nodes) (λ b. no_records (initial_block image b)) }
{}

/// Where it goes on from a recovery point all that was accessed was so in interval 0.
pub fn resumed_is_recorded()
    ensures { (nodes point next : ℕ) (owners : List (ℕ × ℕ)) (content : ℕ → List ℕ) (dead : List Bool) → 1 ≤ nodes → nodes ≤ 16
        → AreInside nodes owners
        → KeepsRecords (fabric_resumed nodes owners content point next dead) (λ b. resting_records nodes point (content b)) }
{}

/// Every event of the fabric that can happen keeps the sentences on the records, whatever its answer is.
pub fn each_event_keeps_records()
    ensures { (config : Config) (s : Fabric) (r : ℕ → Records) (event : FabricEvent) → KeepsRecords s r → MayBeRecorded s r event
        → KeepsRecords (moved_by config s event).fabric (recorded_by s r event (moved_by config s event)) }
{}

/// An access that its line serves keeps them: a load, an LR, a store, an SC that is done, and an SC that isn't.
pub fn each_access_keeps_records()
    ensures load { (s : Fabric) (r : ℕ → Records) (n b : ℕ) → KeepsRecords s r → CanUse s n b
        → is_present (line_of (node_at s n).cache b).state ≡ true
        → KeepsRecords s (at_block b (loads (r b) n (node_at s n).now) r) }
    ensures load_reserved { (s : Fabric) (r : ℕ → Records) (n b : ℕ) → KeepsRecords s r → CanUse s n b
        → is_present (line_of (node_at s n).cache b).state ≡ true
        → KeepsRecords s (at_block b (loads_reserved (r b) n (node_at s n).now) (λ o. unreserves (r o) n)) }
    ensures store { (s : Fabric) (r : ℕ → Records) (n : ℕ) (w : Write) → KeepsRecords s r → CanWrite s n w
        → KeepsRecords (fabric_with_write s n w) (at_block (block_of w.address)
        (stores (r (block_of w.address)) n (node_at s n).now (written_in (line_of (node_at s n).cache (block_of w.address)).content w)) r) }
    ensures store_conditional { (s : Fabric) (r : ℕ → Records) (n : ℕ) (w : Write) → KeepsRecords s r → CanWrite s n w
        → (r (block_of w.address)).reserved n ≡ true
        → KeepsRecords (fabric_with_write s n w) (at_block (block_of w.address)
        (stores_conditional (r (block_of w.address)) n (node_at s n).now
        (written_in (line_of (node_at s n).cache (block_of w.address)).content w)) (λ o. unreserves (r o) n)) }
    ensures undone { (s : Fabric) (r : ℕ → Records) (n : ℕ) → KeepsRecords s r → n < length s.nodes
        → KeepsRecords s (λ o. unreserves (r o) n) }
{}

/// What the records tell at every moment.
pub fn records_tell()
    ensures { (s : Fabric) (r : ℕ → Records) → KeepsRecords s r → (b : ℕ) → b < block_count → Tells s b (r b) }
{}

/// What a node has reported stays true: it isn't above its ready number; and where every node has reported more than the
/// point, nothing before the next is unfinished.
pub fn reports_are_true()
    ensures ready { (s : Fabric) (r : ℕ → Records) (n k : ℕ) → KeepsRecords s r → n < length s.nodes
        → ((b : ℕ) → b < block_count → (r b).reported n ≡ k) → k ≤ ready_of s n }
    ensures finished { (s : Fabric) (r : ℕ → Records) → KeepsRecords s r → HaveReported s r → NothingUnfinished s (s.point + 1) }
{}
