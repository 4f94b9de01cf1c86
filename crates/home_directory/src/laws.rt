//! That the words of this layer are those of the whole machine's definitions.
ghost use Rattle.std.specs.Prelude.{◌≡◌, ℕ, ◌%◌, ◌<◌, true, false, List, length, slice_index_or, Some, None};
ghost use Rattle.sn_base.specs.declared.config.Config.{Config};
ghost use Rattle.sn_msg.specs.declared.Message.{Message};
ghost use Rattle.sn_msg.specs.declared.Body.{Body};
ghost use Rattle.log_buffer.specs.Log.{LogEntry, old_at};
ghost use Rattle.rollback.specs.Unwound.{content_unwound};
ghost use Rattle.sn_model.specs.Caches.{block_count};
ghost use Rattle.sn_model.specs.HomeRows.{HasRow};
ghost use Rattle.sn_model.specs.Receivers.{comes_to_home};
ghost use Rattle.sn_model.specs.Fabric.{Fabric, node_at, home_of, no_entry};
ghost use Rattle.sn_model.specs.NetEvents.{kept_at, outcome_of};
ghost use Rattle.sn_model.specs.NodeEvents.{least_begun};
ghost use Rattle.sn_model.specs.PointEvents.{log_of_home, restored_homes};
ghost use Rattle.home_directory.specs.Home.{HomeData, IsHome, entry_of, lesser_of, least_open};
ghost use Rattle.home_directory.specs.Receipt.{outcome_at};
ghost use Rattle.home_directory.specs.Machine.{IsFullAsAtHome};
ghost use Rattle.home_directory.specs.Restored.{begun_restore, is_here, had, CanHave, Stays};

/// A message that has a row comes to just what its delivery in the machine comes to.
pub fn outcome_is_the_machines()
    ensures { (s : Fabric) (m : Message) (body : Body) → HasRow (home_of s m.block) m.from body →
        outcome_at (kept_at s m.to m.block) (node_at s m.to).now m body ≡ outcome_of s m body }
{}

/// A delivery finds the log full exactly where the home's verdict is that it lacks the room.
pub fn full_log_is_the_machines()
    ensures { (config : Config) (s : Fabric) (m : Message) → comes_to_home m.body ≡ true → IsFullAsAtHome config s m }
{}

/// What a home has open counts in a report as the machine's definitions say: the least interval in which one of its
/// transactions was begun, where that comes before now.
pub fn least_open_is_the_machines()
    ensures { (s : Fabric) (home : HomeData) (now : ℕ) → IsHome home → length s.homes ≡ block_count
        → ((block : ℕ) → block < block_count → block % home.nodes ≡ home.node → home_of s block ≡ entry_of home block)
        → Some (least_begun now home.nodes home.node 0 s.homes) ≡ lesser_of (Some now) (least_open home.entries) }
{}

/// A home that began to be put back, and into which its node's log was unwound, has of each of its blocks the entry that a
/// recovery of the machine leaves. It can have what the unwinding gives where the log has nothing of blocks of other homes.
pub fn restore_is_the_machines()
    ensures entries { (s : Fabric) (c d e : HomeData) (k block : ℕ) → d ≡ begun_restore c
        → ((b : ℕ) → had e b ≡ content_unwound (log_of_home s block) true k (had d) b) → Stays d e
        → block % c.nodes ≡ c.node → home_of s block ≡ entry_of c block → block < length s.homes
        → entry_of e block ≡ slice_index_or (restored_homes s k 0 s.homes) block no_entry }
    ensures fits { (c d : HomeData) (log : List LogEntry) (k : ℕ) → d ≡ begun_restore c
        → ((block : ℕ) → is_here c block ≡ false → old_at log true block k ≡ None)
        → CanHave d (content_unwound log true k (had d)) }
{}
