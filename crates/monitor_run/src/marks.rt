//! What a snapshot's line says, and which lines there are.
ghost use Rattle.std.specs.Prelude.{◌≡◌, ◌⊎◌, ◌↔◌, ◌+◌, ◌<◌, ◌≤◌, true, Some, [], ◌∷◌, ◌++◌, All, Contains, length, slice_get, vec_len, vec_capacity};
ghost use Rattle.monitor_run.specs.Seen.{IsSomeOf, mark_of};
ghost use Rattle.monitor_run.specs.Taken.{AreTaken, Grow, IsFirstFrom, IsLast};

use sn_monitor::Snap;

/// A cut that was published, or that a watcher saw: its point, and how many records are committed there.
#[derive(Clone, Copy, PartialEq, Eq, Debug)]
pub struct Mark {
    pub point: u32,
    pub committed: u32,
}

pub(crate) fn mark_of(snap: &Snap) -> Mark
    ensures { result ≡ mark_of snap.now }
{
    Mark {
        point: snap.point(),
        committed: snap.committed(),
    }
}

/// Adds a mark, for which there is room.
pub(crate) fn keep(marks: &mut Vec<Mark>, mark: Mark)
    requires { vec_len marks.old < vec_capacity marks.old }
    ensures mark { marks.new.items ≡ marks.old.items ++ mark ∷ [] }
    ensures room { vec_capacity marks.old ≤ vec_capacity marks.new }
{
    marks.push(mark).unwrap();
}

// The first place from this one on whose point isn't below.
fn first_from(looks: &[Mark], place: usize, point: u32) -> usize
    ensures { IsFirstFrom looks.now place point result }
{
    let mut place = place;
    'looks: while place < looks.len() && looks[place].point < point {
        place += 1;
    }
    place
}

fn is_at(looks: &[Mark], place: usize, mark: &Mark) -> bool
    ensures { (result ≡ true) ↔ (slice_get looks.now place ≡ Some mark.now) }
{
    place < looks.len() && looks[place] == *mark
}

// Takes over, of what was published, what was looked at above point 0.
fn take_looked(published: &[Mark], looks: &[Mark], seen: &mut Vec<Mark>)
    requires none { seen.old.items ≡ [] }
    requires room { length published.now ≤ vec_capacity seen.old }
    ensures some { IsSomeOf seen.new.items published.now }
    ensures above { All (λ m. 0 < m.point) seen.new.items }
    ensures looked { All (λ m. Contains looks.now m) seen.new.items }
    ensures all { Grow published.now → Grow looks.now →
        All (λ m. 0 < m.point → Contains looks.now m → Contains seen.new.items m) published.now }
    ensures few { length seen.new.items ≤ length published.now }
    ensures room { vec_capacity seen.old ≤ vec_capacity seen.new }
{
    let mut place = 0;
    'marks: for mark in published {
        place = first_from(looks, place, mark.point);
        if mark.point > 0 && is_at(looks, place, mark) {
            keep(seen, *mark);
        }
    }
}

/// Takes over, of what was published, what was looked at above point 0, and the last, unless its point is 0.
pub(crate) fn take_seen(published: &[Mark], looks: &[Mark], seen: &mut Vec<Mark>)
    requires none { seen.old.items ≡ [] }
    requires room { length published.now ≤ vec_capacity seen.old }
    ensures taken { AreTaken seen.new.items published.now }
    ensures looked { All (λ m. Contains looks.now m ⊎ IsLast published.now m) seen.new.items }
    ensures all { Grow published.now → Grow looks.now →
        All (λ m. 0 < m.point → Contains looks.now m → Contains seen.new.items m) published.now }
{
    let Some((last, before)) = published.split_last() else {
        return;
    };
    take_looked(before, looks, seen);
    if last.point > 0 {
        keep(seen, *last);
    }
}
