//! The theorems on the fabric alone.
ghost use Rattle.std.specs.Prelude.{◌≡◌, ℕ, ◌<◌, ◌≤◌, Bool, true, false, List, length, Some};
ghost use Rattle.sn_base.specs.Image.{ImageData};
ghost use Rattle.sn_base.specs.declared.config.Config.{Config};
ghost use Rattle.sn_base.specs.declared.event.Answer.TheVariants.{Retired};
ghost use Rattle.sn_model.specs.declared.cache.Need.{Need};
ghost use Rattle.sn_model.specs.declared.rows.CacheRow.{CacheRow};
ghost use Rattle.sn_model.specs.declared.rows.HomeMessage.{HomeMessage};
ghost use Rattle.sn_model.specs.declared.rows.Receiver.TheVariants.{Cache, Home};
ghost use Rattle.sn_model.specs.Access.{step_of_access, serves};
ghost use Rattle.sn_model.specs.Caches.{block_count, line_of};
ghost use Rattle.sn_model.specs.Cuts.{is_unfinished};
ghost use Rattle.sn_model.specs.Fabric.{Fabric, Flight, node_at, first_fabric};
ghost use Rattle.sn_model.specs.FabricEvents.{FabricEvent, moved_by};
ghost use Rattle.sn_model.specs.Net.{flight_of};
ghost use Rattle.sn_model.specs.Receivers.{receiver_of};
ghost use Rattle.sn_saved.specs.Resumed.{fabric_resumed};
ghost use Rattle.sn_saved.specs.Saved.{AreInside};
ghost use Rattle.sn_coherence.specs.Events.{Allows, after};
ghost use Rattle.fabric_coherence.specs.CacheEvents.{cache_event, left_at_cache};
ghost use Rattle.fabric_coherence.specs.CacheSeen.{IsOwnRow};
ghost use Rattle.fabric_coherence.specs.Coherent.{FabricInvariant, Keeps, IsInTime};
ghost use Rattle.fabric_coherence.specs.Events.{MayBe, CanUse};
ghost use Rattle.fabric_coherence.specs.Holders.{IsCoherent};
ghost use Rattle.fabric_coherence.specs.HomeEvents.{IsServed, home_event, left_at_home, row_at_home};
ghost use Rattle.fabric_coherence.specs.HomeSeen.{IsHomeRow};
ghost use Rattle.fabric_coherence.specs.Leads.{KeepsFrames};
ghost use Rattle.fabric_coherence.specs.Recorded.{IsOfFabric};
ghost use Rattle.fabric_coherence.specs.Runs.{IsFabricRun, fabric_after};
ghost use Rattle.fabric_coherence.specs.Start.{resumed_beside};
ghost use Rattle.fabric_coherence.specs.View.{GhostState, block_seen};

/// At the start all sentences hold of every block.
pub fn start_is_kept()
    ensures { (image : ImageData) (nodes : ℕ) → 1 ≤ nodes → nodes ≤ 16 → Keeps (first_fabric image nodes) }
{}

/// And so they do where it goes on from a recovery point, with the frames of what caches own there.
pub fn resumed_is_kept()
    ensures { (nodes point next : ℕ) (owners : List (ℕ × ℕ)) (content : ℕ → List ℕ) (dead : List Bool) → 1 ≤ nodes → nodes ≤ 16
        → AreInside nodes owners → FabricInvariant (fabric_resumed nodes owners content point next dead) (resumed_beside owners) }
{}

/// Every event of the fabric that can happen keeps them, whatever its answer is.
pub fn each_event_keeps()
    ensures { (config : Config) (s : Fabric) (event : FabricEvent) → Keeps s → MayBe s event → Keeps (moved_by config s event).fabric }
{}

/// And the blocks that had frames of a node at an edge stay those that have them there, which bounds the lines of a cut.
pub fn each_event_keeps_frames()
    ensures { (config : Config) (s : Fabric) (t : GhostState) (event : FabricEvent) → FabricInvariant s t → MayBe s event
        → (u : GhostState) × FabricInvariant (moved_by config s event).fabric u × KeepsFrames s t u }
{}

/// No event brings or takes a node.
pub fn nodes_stay()
    ensures { (config : Config) (s : Fabric) (event : FabricEvent) → length (moved_by config s event).fabric.nodes ≡ length s.nodes }
{}

/// Where they hold, each block has one writer at most, and one holder at each checkpoint where its home has nothing open, which
/// its home names.
pub fn what_is_kept_is_coherent()
    ensures { (s : Fabric) → Keeps s → (b : ℕ) → b < block_count → IsCoherent s b }
{}

/// And nothing that was begun before the recovery point is unfinished.
pub fn finished_below_the_point()
    ensures { (s : Fabric) → Keeps s → is_unfinished s s.point ≡ false }
{}

/// The clocks of the nodes and the recovery point are in order.
pub fn nodes_are_in_time()
    ensures { (s : Fabric) → Keeps s → (n : ℕ) → n < length s.nodes → IsInTime s n }
{}

/// What an event tells the layer above is of this fabric.
pub fn what_is_told_is_of_the_fabric()
    ensures { (config : Config) (s : Fabric) (event : FabricEvent) → Keeps s → MayBe s event → IsOfFabric s (moved_by config s event).told }
{}

/// An access that its line serves is one of which the records speak, and its line is what it needs.
pub fn what_is_served_can_be_used()
    ensures { (config : Config) (s : Fabric) (n block : ℕ) (need : Need) → n < length s.nodes → block < block_count
        → (step_of_access config s n block need).answer ≡ Retired
        → CanUse s n block × (serves need (line_of (node_at s n).cache block).state ≡ true) }
{}

/// What a row leaves of the machine's lists, for a message that is delivered, is what that row's event leaves of the message's block, as the
/// block sees it, before it loses what was lost at once in a dead switch; and the event may happen there.
pub fn each_row_is_its_event()
    ensures cache { (s : Fabric) (t : GhostState) (id : ℕ) (f : Flight) (taken : CacheRow) → FabricInvariant s t
        → flight_of s.net.flights id ≡ Some f → f.message.tag ≤ (node_at s f.message.to).now → receiver_of f.message.body ≡ Cache taken
        → IsOwnRow s t f.message (left_at_cache s f.message taken)
        (after (length s.nodes) (block_seen s t f.message.block) (cache_event f.message.id taken))
        × Allows (length s.nodes) (block_seen s t f.message.block) (cache_event f.message.id taken) }
    ensures home { (s : Fabric) (t : GhostState) (id : ℕ) (f : Flight) (message : HomeMessage) → FabricInvariant s t
        → flight_of s.net.flights id ≡ Some f → f.message.tag ≤ (node_at s f.message.to).now → receiver_of f.message.body ≡ Home message
        → IsServed s f.message message
        → IsHomeRow s t f.message (left_at_home s f.message (row_at_home s f.message message))
        (after (length s.nodes) (block_seen s t f.message.block) (home_event s f.message (row_at_home s f.message message)))
        × Allows (length s.nodes) (block_seen s t f.message.block) (home_event s f.message (row_at_home s f.message message)) }
{}

/// So whatever is accessed, delivered, lost, killed, evicted, checkpointed or recovered, in whatever order, the fabric is
/// coherent after it.
pub fn every_run_is_coherent()
    ensures kept { (image : ImageData) (config : Config) (nodes : ℕ) (events : List FabricEvent) → 1 ≤ nodes → nodes ≤ 16
        → IsFabricRun config (first_fabric image nodes) events → Keeps (fabric_after config (first_fabric image nodes) events) }
    ensures coherent { (image : ImageData) (config : Config) (nodes : ℕ) (events : List FabricEvent) → 1 ≤ nodes → nodes ≤ 16
        → IsFabricRun config (first_fabric image nodes) events → (b : ℕ) → b < block_count →
        IsCoherent (fabric_after config (first_fabric image nodes) events) b }
{}
