//! That whatever is delivered is what the controllers can take.
ghost use Rattle.std.specs.Prelude.{◌≡◌, ℕ, true, Some};
ghost use Rattle.sn_model.specs.Fabric.{Fabric, Flight};
ghost use Rattle.sn_model.specs.Net.{flight_of};
ghost use Rattle.sn_model.specs.Receivers.{comes_to_cache, comes_to_home};
ghost use Rattle.fabric_coherence.specs.Coherent.{Keeps};
ghost use Rattle.fabric_coherence.specs.Met.{MeetsCache, MeetsHome};

/// A message in flight meets, whenever it is delivered, all that the cache controller asks of what comes to a cache, and
/// all that the home directory asks of what comes to a home. Ready and Advance come to neither.
pub fn deliveries_meet_their_rows()
    ensures cache { (s : Fabric) (id : ℕ) (f : Flight) → Keeps s → flight_of s.net.flights id ≡ Some f
        → comes_to_cache f.message.body ≡ true → MeetsCache s f.message }
    ensures home { (s : Fabric) (id : ℕ) (f : Flight) → Keeps s → flight_of s.net.flights id ≡ Some f
        → comes_to_home f.message.body ≡ true → MeetsHome s f.message }
{}
