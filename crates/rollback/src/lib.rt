//! The unwinding of a log: how a recovery gives each block back what it had at a checkpoint.
//!
//! What a log is unwound into, a cache or a home, is a `Restore`. The layer above knows it as a map from block to what
//! it holds, and knows which maps fit it; after `unwind` each block that has changed since the checkpoint is held as it
//! was there, and all others as they were. Everything that changed is let go first, since putting old contents back one
//! after another, newest first, can need more room on the way than there is before and after. Nothing here takes
//! memory, and nothing knows of sets, ways or sharers.
//!
//! Source: recovery by unwinding the logs in SafetyNet (Sorin, Martin, Hill, Wood, ISCA 2002).
#![tactic(auto)]

ghost use Rattle.std.specs.Prelude.{◌≡◌, ℕ, ◌+◌, ◌-◌, ◌<◌, ◌≤◌, ◌^◌, Bool, true, false, min, length, take, slice_get, Some};
ghost use Rattle.std.specs.Prelude.{not, slice_index_or};
ghost use Rattle.log_buffer.specs.Log.{IsGrowing, entries_from, is_home_side};
ghost use Rattle.rollback.specs.Unwound.{LogEntry, Old, content_unwound, content_left, all_forgotten, is_changed};

#[cfg(test)]
mod tests;

use sn_base::{BlockNo, Entries, Interval, Old};

/// What a log is unwound into: a cache, or a home.
///
/// Its meaning is a map from block to what it holds (`Old::NotOwned` where it holds nothing of the block), on one of
/// the two sides, and a fact that says which maps fit it, as by its sets and ways. What else it has, as its number and its
/// sizes, an unwinding leaves as it is, and the trait's relation says so of two values of it.
pub trait Restore {
    ghost use Rattle.std.specs.Prelude.{◌≡◌, ℕ, Bool};
    ghost use Rattle.rollback.specs.Unwound.{Old, contents_after_loss, contents_with_old, IsPart, IsBetween};

    // the side whose entries it takes: the home's, or else the cache's
    ghost home_side: { Bool };

    ghost holds: { Self → ℕ → Old };

    ghost fits: { Self → (ℕ → Old) → Type 0 };

    // that between two values of it only what is held has changed
    ghost stays: { Self → Self → Type 0 };

    /// Forgets what is held of a block that has such an entry: a cache drops the block, a home does nothing. An entry of
    /// the other side is passed over.
    fn forget(&mut self, block: BlockNo, old: &Old)
        ensures held { (b : ℕ) → holds self.new b ≡ contents_after_loss home_side (holds self.old) block old.now b }
        ensures fits { fits self.new (holds self.new) }
        ensures room { (map : ℕ → Old) → fits self.old map → fits self.new map }
        ensures stays { stays self.old self.new };

    /// Holds a block as such an entry says. An entry of the other side is passed over.
    fn put_back(&mut self, block: BlockNo, old: &Old)
        requires { fits self.old (contents_with_old home_side (holds self.old) block old.now) }
        ensures held { (b : ℕ) → holds self.new b ≡ contents_with_old home_side (holds self.old) block old.now b }
        ensures fits { fits self.new (holds self.new) }
        ensures room { (map : ℕ → Old) → fits self.old map → fits self.new map }
        ensures stays { stays self.old self.new };

    ghost stays_refl: { (s : Self) → stays s s };

    ghost stays_trans: { (r s t : Self) → stays r s → stays s t → stays r t };

    // a part of a map that fits, fits
    ghost part: { (s : Self) (part whole : ℕ → Old) → fits s whole → IsPart part whole → fits s part };

    // on the way from a map that fits to one that fits, every map fits
    ghost way: { (s : Self) (before after between : ℕ → Old) → fits s before → fits s after →
        IsBetween home_side before after between → fits s between };
}

/// Unwinds a log to checkpoint k: forgets every entry whose interval is at least k, and then puts back the oldest of
/// them of each side and block. Answers how many entries have an interval of at least k, or the greatest number of its
/// type where there are more.
pub fn unwind<E: Entries, T: Restore>(log: &E, k: Interval, target: &mut T) -> u32
    requires growing { IsGrowing (E.entries log.now) }
    requires fits { T.fits target.old (content_unwound (E.entries log.now) T.home_side k (T.holds target.old)) }
    ensures held { (b : ℕ) → T.holds target.new b ≡ content_unwound (E.entries log.now) T.home_side k (T.holds target.old) b }
    ensures room { (map : ℕ → Old) → T.fits target.old map → T.fits target.new map }
    ensures stays { T.stays target.old target.new }
    ensures count { result ≡ min (length (entries_from k (E.entries log.now))) (2 ^ 32 - 1) }
{
    forget_all(log, k, target);
    put_back_oldest(log, k, target);
    count_from(log, k)
}

fn forget_all<E: Entries, T: Restore>(log: &E, k: Interval, target: &mut T)
    ensures held { (b : ℕ) → T.holds target.new b ≡ all_forgotten (E.entries log.now) T.home_side k (T.holds target.old) b }
    ensures fits { (i : ℕ) (d : LogEntry) → i < length (E.entries log.now) → k ≤ (slice_index_or (E.entries log.now) i d).interval →
        T.fits target.new (T.holds target.new) }
    ensures room { (map : ℕ → Old) → T.fits target.old map → T.fits target.new map }
    ensures stays { T.stays target.old target.new }
{
    'places: for place in 0..log.count() {
        let entry = log.entry(place);
        if entry.interval >= k {
            target.forget(entry.block, &entry.old);
        }
    }
}

fn put_back_oldest<E: Entries, T: Restore>(log: &E, k: Interval, target: &mut T)
    requires growing { IsGrowing (E.entries log.now) }
    requires gone { (b : ℕ) → is_changed (E.entries log.now) T.home_side b k ≡ true →
        content_left T.home_side (T.holds target.old b) ≡ T.holds target.old b }
    requires fits { (i : ℕ) (d : LogEntry) → i < length (E.entries log.now) → k ≤ (slice_index_or (E.entries log.now) i d).interval →
        T.fits target.old (T.holds target.old) }
    requires last { T.fits target.old (content_unwound (E.entries log.now) T.home_side k (T.holds target.old)) }
    ensures held { (b : ℕ) → T.holds target.new b ≡ content_unwound (E.entries log.now) T.home_side k (T.holds target.old) b }
    ensures room { (map : ℕ → Old) → T.fits target.old map → T.fits target.new map }
    ensures stays { T.stays target.old target.new }
{
    'places: for place in 0..log.count() {
        let entry = log.entry(place);
        if entry.interval >= k && is_oldest(log, k, place) {
            target.put_back(entry.block, &entry.old);
        }
    }
}

// Whether none of the entries before a place is of the side and block of the one there and of an interval of at least k. As
// the intervals grow, the last of them tells.
fn is_oldest<E: Entries>(log: &E, k: Interval, place: usize) -> bool
    requires place { place < length (E.entries log.now) }
    requires growing { IsGrowing (E.entries log.now) }
    ensures { (e : LogEntry) → slice_get (E.entries log.now) place ≡ Some e →
        result ≡ not (is_changed (take place (E.entries log.now)) (is_home_side e.old) e.block k) }
{
    match log.older(place) {
        Some(before) => log.entry(before).interval < k,
        None => true,
    }
}

fn count_from<E: Entries>(log: &E, k: Interval) -> u32
    ensures { result ≡ min (length (entries_from k (E.entries log.now))) (2 ^ 32 - 1) }
{
    let mut count = 0u32;
    'places: for place in 0..log.count() {
        if log.entry(place).interval >= k {
            count = count.saturating_add(1);
        }
    }
    count
}
