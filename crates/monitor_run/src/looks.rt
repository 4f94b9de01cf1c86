//! The watcher's side.
ghost use Rattle.std.specs.Prelude.{◌≡◌, ◌↔◌, ◌≤◌, ◌<◌, true, [], ◌∷◌, ◌++◌, vec_len, vec_capacity};
ghost use Rattle.snap_board.specs.Snap.{SnapData};
ghost use Rattle.snap_board.specs.Fronts.{EndsIn};
ghost use Rattle.monitor_run.specs.Seen.{mark_of};
ghost use Rattle.monitor_run.specs.Taken.{IsLater};

use crate::marks::{Mark, keep, mark_of};
use sn_monitor::Watcher;
use std::sync::Wait;
use std::sync::atomic::{AtomicBool, Ordering};
use std::thread;

fn is_later(mark: &Mark, looks: &[Mark]) -> bool
    ensures { (result ≡ true) ↔ IsLater looks.now mark.now }
{
    match looks.last() {
        Some(last) => last.point < mark.point,
        None => true,
    }
}

/// Looks once, and notes what is later than all before, where there is room.
pub(crate) fn look(watcher: &mut Watcher, looks: &mut Vec<Mark>)
    ensures noted { (s : SnapData) → EndsIn watcher.new.front s → vec_len looks.old < vec_capacity looks.old
        → IsLater looks.old.items (mark_of s) → looks.new.items ≡ looks.old.items ++ mark_of s ∷ [] }
    ensures early { (s : SnapData) → EndsIn watcher.new.front s → (IsLater looks.old.items (mark_of s) → ⊥)
        → looks.new.items ≡ looks.old.items }
    ensures board { watcher.new.board ≡ watcher.old.board }
    ensures full { vec_capacity looks.old ≤ vec_len looks.old → looks.new.items ≡ looks.old.items }
{
    let mark = mark_of(&watcher.look());
    if looks.len() < looks.capacity() && is_later(&mark, looks.as_slice()) {
        keep(looks, mark);
    }
}

/// Looks until the turns have ended.
pub(crate) fn look_on(
    rt: &impl Wait,
    watcher: &mut Watcher,
    looks: &mut Vec<Mark>,
    ended: &AtomicBool,
)
    ensures { watcher.new.board ≡ watcher.old.board }
{
    'looks: for _ in rt.forever() {
        // Asked before the look, so that the last one comes after all turns.
        let last = ended.load(Ordering::SeqCst);
        look(watcher, looks);
        if last {
            return;
        }
        thread::yield_now();
    }
    unreachable!()
}
