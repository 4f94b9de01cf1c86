//! That the words of this layer are those of the whole machine's definitions.
ghost use Rattle.std.specs.Prelude.{◌≡◌, ℕ, true, false, List, length, Option};
ghost use Rattle.sn_base.specs.declared.block.Write.{Write};
ghost use Rattle.sn_base.specs.declared.config.Config.{Config};
ghost use Rattle.sn_base.specs.declared.log.LogEntry.{LogEntry};
ghost use Rattle.sn_msg.specs.declared.Message.{Message};
ghost use Rattle.rollback.specs.Unwound.{content_unwound};
ghost use Rattle.sn_model.specs.declared.cache.Need.{Need};
ghost use Rattle.sn_model.specs.Caches.{Miss, Put, block_count, FitsSets};
ghost use Rattle.sn_model.specs.Receivers.{comes_to_cache};
ghost use Rattle.sn_model.specs.Fabric.{Fabric, node_at};
ghost use Rattle.sn_model.specs.Access.{node_to_write, with_write, missing, step_of_miss, accesses};
ghost use Rattle.sn_model.specs.NodeEvents.{step_of_eviction, with_put as putting, issued_by, put_issued_by};
ghost use Rattle.sn_model.specs.NetEvents.{logged_at, outcome_of, AtCache};
ghost use Rattle.sn_model.specs.PointEvents.{restored_cache};
ghost use Rattle.sn_model.specs.CacheRows.{MeetsRow};
ghost use Rattle.mosi_cache.specs.Controller.{CacheData};
ghost use Rattle.mosi_cache.specs.Rows.{row_of};
ghost use Rattle.mosi_cache.specs.Probe.{log_with, probe_by, with_miss, with_put, cache_after_write, evict_by, least_open_of};
ghost use Rattle.mosi_cache.specs.Machine.{controller_at, log_at, IsFullAsAtCache, access_by_probe, evicted_by, at_most};
ghost use Rattle.mosi_cache.specs.Restored.{begun_restore, held_of, HeldFits, StaysAsItIs};

/// A message that has a row comes to just what its delivery in the machine comes to.
pub fn row_is_the_machines()
    ensures { (config : Config) (s : Fabric) (m : Message) → MeetsRow (logged_at s m.to) m.block m.body →
        outcome_of s m m.body ≡ AtCache (row_of (controller_at config s m.to) (log_at config s m.to) (node_at s m.to).now m) }
{}

/// A delivery finds the log full exactly where the controller says so.
pub fn full_log_is_the_machines()
    ensures { (config : Config) (s : Fabric) (m : Message) → comes_to_cache m.body ≡ true → IsFullAsAtCache config s m }
{}

/// The answer to a probe says what an access comes to, but for want of room in the network.
pub fn probe_is_the_machines()
    ensures { (config : Config) (s : Fabric) (n block : ℕ) (need : Need) →
        accesses config s n block need
        ≡ access_by_probe s (step_of_miss s n block need) (probe_by (controller_at config s n) (log_at config s n) block (node_at s n).now need) }
{}

/// The answer to an eviction says what it comes to, but for want of room in the network.
pub fn eviction_is_the_machines()
    ensures { (s : Fabric) (n block : ℕ) → step_of_eviction s n block ≡ evicted_by s n block (evict_by (node_at s n).cache block) }
{}

/// What an access and an eviction leave in a cache is what they leave in the machine's.
pub fn changes_are_the_machines()
    ensures miss { (config : Config) (s : Fabric) (n block : ℕ) (need : Need) →
        (with_miss (controller_at config s n) block need (node_at s n).now).cache ≡ (missing (node_at s n) block need).cache }
    ensures write { (config : Config) (s : Fabric) (n : ℕ) (w : Write) →
        (cache_after_write (controller_at config s n) w).cache ≡ (with_write (node_at s n) w).cache }
    ensures note { (config : Config) (s : Fabric) (n block : ℕ) →
        log_with (controller_at config s n) (node_at s n).log block (node_at s n).now ≡ (node_to_write (node_at s n) block).log }
    ensures put { (config : Config) (s : Fabric) (n block : ℕ) →
        (with_put (controller_at config s n) block (node_at s n).now).cache ≡ (putting (node_at s n) block).cache }
{}

/// What a controller has open counts in a report as the machine's definitions say.
pub fn least_open_is_the_machines()
    ensures { (now : ℕ) (miss : Option Miss) (put : Option Put) →
        put_issued_by (issued_by now miss) put ≡ at_most now (least_open_of miss put) }
{}

/// What begin_restore and the unwinding of the log to checkpoint k leave of a controller is what a recovery leaves of its cache;
/// and the unwinding may be done where that cache fits.
pub fn restore_is_the_machines()
    ensures cache { (c d e : CacheData) (log : List LogEntry) (k : ℕ) → d ≡ record c { cache = begun_restore c.cache } →
        ((b : ℕ) → held_of e b ≡ content_unwound log false k (held_of d) b) → StaysAsItIs d e →
        e ≡ record c { cache = restored_cache log k c.cache } }
    ensures fits { (c d : CacheData) (log : List LogEntry) (k : ℕ) → d ≡ record c { cache = begun_restore c.cache } →
        length c.cache.lines ≡ block_count → FitsSets (restored_cache log k c.cache) c.sets c.ways →
        HeldFits d (content_unwound log false k (held_of d)) }
{}
