//! A retirement: an entry put at the end of its interval, though others stand above it.
ghost use Rattle.std.specs.Prelude.{◌≡◌, ℕ, ◌<◌, ◌≤◌, ◌↔◌, true, false, List};
ghost use Rattle.sn_base.specs.Image.{ImageData};
ghost use Rattle.sn_consistency.specs.Entries.{Entry, Places, Apart, step};
ghost use Rattle.sn_consistency.specs.Reserved.{ReservedSince};
ghost use Rattle.sn_consistency.specs.Sorted.{below, at_cut, GoodList, retire, AllPass, MayRetire};

/// Two steps of the flat machine that are of different cores, and neither of which writes a block that both touch, may
/// change places.
pub fn apart_steps_change_places()
    ensures { (image : ImageData) (F : Places) (e y : Entry) → Apart image e y → step image (step image F e) y ≡
        step image (step image F y) e }
{}

/// An entry that is put at the end of its interval leaves each cut up to the interval as it was. Where what stands above
/// lets it pass, each later cut becomes what the entry's own step makes of it.
pub fn retirement_steps_later_cuts()
    ensures earlier { (image : ImageData) (F : Places) (f : ℕ → List Entry) (x : ℕ) (e : Entry) (k : ℕ) → k ≤ x →
        at_cut image F (retire f x e) k ≡ at_cut image F f k }
    ensures later { (image : ImageData) (F : Places) (f : ℕ → List Entry) (x : ℕ) (e : Entry) →
        ((j : ℕ) → x < j → AllPass image e (f j)) → (k : ℕ) → x < k → at_cut image F (retire f x e) k ≡
        step image (at_cut image F f k) e }
{}

/// The list stays good where the entry may retire: a read finds no later write of its block above it, a write no later
/// access, and a store-conditional that is done no other core's write since its load-reserved.
pub fn list_stays_good()
    ensures { (image : ImageData) (nodes : ℕ) (F : Places) (f : ℕ → List Entry) (x : ℕ) (e : Entry) →
        GoodList image nodes F f → MayRetire image nodes F f x e → GoodList image nodes F (retire f x e) }
{}

/// A reservation stands at a cut exactly where the list below it has the core's load-reserved of the block, and after it
/// neither a load-reserved or store-conditional of that core nor another core's write of the block.
pub fn reservation_stands_since_its_lr()
    ensures { (image : ImageData) (F : Places) (f : ℕ → List Entry) (core b cut : ℕ) → F.held core b ≡ false →
        ((at_cut image F f cut).held core b ≡ true) ↔ ReservedSince image core b (below f cut) }
{}
