//! The theorems on what the fabric holds at most.
ghost use Rattle.std.specs.Prelude.{◌≡◌, ℕ, ◌<◌, ◌≤◌, true, is_some, List, length, Some};
ghost use Rattle.sn_base.specs.Image.{ImageData};
ghost use Rattle.sn_base.specs.declared.config.Config.{Config};
ghost use Rattle.sn_model.specs.Caches.{block_count, takes_frame};
ghost use Rattle.sn_model.specs.Cuts.{holds_at};
ghost use Rattle.sn_model.specs.Fabric.{Fabric, Flight, node_at, first_fabric};
ghost use Rattle.sn_model.specs.FabricEvents.{FabricEvent, moved_by};
ghost use Rattle.sn_model.specs.Net.{flight_of, net_limit};
ghost use Rattle.fabric_coherence.specs.Resumed.{resumed};
ghost use Rattle.fabric_coherence.specs.Saved.{Saved, IsAccepted};
ghost use Rattle.fabric_coherence.specs.Coherent.{Keeps};
ghost use Rattle.fabric_coherence.specs.Events.{MayBe};
ghost use Rattle.fabric_coherence.specs.Runs.{IsFabricRun, fabric_after};
ghost use Rattle.fabric_bounds.specs.Bounds.{CacheFits, cache_at, brings_line, HasLogRoom, KeepsBounds, IsServedRun};
ghost use Rattle.fabric_bounds.specs.Counts.{SendsFew, CountsTo};

/// At the start all bounds are kept.
pub fn start_is_bounded()
    ensures { (image : ImageData) (config : Config) (nodes : ℕ) → 1 ≤ nodes → nodes ≤ 16
        → KeepsBounds config (first_fabric image nodes) }
{}

/// And so they are where a saved machine goes on, whose numbers are none above what the events before it can have made of them.
pub fn resumed_is_bounded()
    ensures bounds { (image : ImageData) (saved : Saved) → IsAccepted image saved → KeepsBounds saved.config (resumed image saved).fabric }
    ensures counts { (image : ImageData) (saved : Saved) → IsAccepted image saved → CountsTo saved.marks.applied (resumed image saved).fabric }
{}

/// Every event that can happen keeps them, whatever its answer is, where a write was served.
pub fn each_event_keeps_bounds()
    ensures { (config : Config) (s : Fabric) (event : FabricEvent) → KeepsBounds config s → MayBe s event → HasLogRoom config s event
        → KeepsBounds config (moved_by config s event).fabric }
{}

/// So they hold along every run.
pub fn every_run_is_bounded()
    ensures { (image : ImageData) (config : Config) (nodes : ℕ) (events : List FabricEvent) → 1 ≤ nodes → nodes ≤ 16
        → IsServedRun config (first_fabric image nodes) events
        → KeepsBounds config (fabric_after config (first_fabric image nodes) events) }
{}

/// Where they are kept, no log has more entries than it may, no more messages are in flight than may be, and in no set of a
/// cache more blocks take a frame than it has ways.
pub fn what_is_bounded()
    ensures logs { (config : Config) (s : Fabric) (n : ℕ) → KeepsBounds config s → n < length s.nodes →
        length (node_at s n).log ≤ config.log }
    ensures net { (config : Config) (s : Fabric) → KeepsBounds config s → length s.net.flights ≤ net_limit }
    ensures frames { (config : Config) (s : Fabric) (n : ℕ) → KeepsBounds config s → n < length s.nodes
        → CacheFits config (node_at s n).cache }
{}

/// A message that brings a line finds that its block has a frame already: so the cache fits with the line too.
pub fn answers_find_their_frames()
    ensures { (s : Fabric) (id : ℕ) (f : Flight) → Keeps s → flight_of s.net.flights id ≡ Some f → brings_line f.message.body ≡ true
        → takes_frame (node_at s f.message.to).cache f.message.block ≡ true }
{}

/// What a node holds at a cut from the recovery point on fits its cache, so a recovery finds the frames that it needs; the
/// blocks that take a frame of that cache are those that are held there.
pub fn cuts_fit_the_sets()
    ensures fits { (config : Config) (s : Fabric) (n k : ℕ) → KeepsBounds config s → n < length s.nodes → s.point ≤ k
        → CacheFits config (cache_at (node_at s n) k) }
    ensures held { (s : Fabric) (n b k : ℕ) → Keeps s → n < length s.nodes → b < block_count
        → takes_frame (cache_at (node_at s n) k) b ≡ is_some (holds_at s n b k) }
{}

/// No event sends more than 17 messages, and each takes one number.
pub fn each_event_sends_few()
    ensures { (config : Config) (s : Fabric) (event : FabricEvent) → Keeps s → MayBe s event → SendsFew s (moved_by config s event) }
{}

/// So within 4,000,000,000 events the number of the next message, a node's interval and the recovery point are far from the
/// end of 64 bits.
pub fn numbers_do_not_run_out()
    ensures counts { (image : ImageData) (config : Config) (nodes : ℕ) (events : List FabricEvent) → 1 ≤ nodes → nodes ≤ 16
        → IsFabricRun config (first_fabric image nodes) events
        → CountsTo (length events) (fabric_after config (first_fabric image nodes) events) }
    ensures next { (s : Fabric) (events : ℕ) → CountsTo events s → events ≤ 4000000000 → s.net.next_id < 9223372036854775808 }
{}
