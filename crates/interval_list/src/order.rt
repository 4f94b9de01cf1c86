//! Committing entries in order of their intervals.
ghost use Rattle.std.specs.Prelude.{◌≡◌, ◌+◌, ◌<◌, ◌≤◌, [], ◌∷◌, ◌++◌, length, vec_len, vec_capacity};
ghost use Rattle.std.specs.List.{All};
ghost use Rattle.interval_list.specs.WaitingList.{entries_in, entries_below};

use crate::Waiting;
use sn_base::Interval;

// Adds an item for which there is room.
pub fn append<T: Copy>(items: &mut Vec<T>, item: T)
    requires { vec_len items.old < vec_capacity items.old }
    ensures items { items.new.items ≡ items.old.items ++ item ∷ [] }
    ensures capacity { vec_capacity items.old ≤ vec_capacity items.new }
{
    let _ = items.push(item);
}

pub fn commit_in_order<T: Copy>(waiting: &[Waiting<T>], committed: &mut Vec<T>, k: Interval)
    requires { vec_len committed.old + length waiting.now ≤ vec_capacity committed.old }
    ensures entries { committed.new.items ≡ committed.old.items ++ entries_below k waiting.now }
    ensures capacity { vec_capacity committed.old ≤ vec_capacity committed.new }
{
    let mut interval = next_interval(waiting, 0, k);
    'intervals: while interval < k {
        commit_interval(waiting, committed, interval);
        interval = next_interval(waiting, interval + 1, k);
    }
}

fn commit_interval<T: Copy>(waiting: &[Waiting<T>], committed: &mut Vec<T>, interval: Interval)
    requires { vec_len committed.old + length (entries_in interval waiting.now) ≤ vec_capacity committed.old }
    ensures entries { committed.new.items ≡ committed.old.items ++ entries_in interval waiting.now }
    ensures capacity { vec_capacity committed.old ≤ vec_capacity committed.new }
{
    'waiting: for one in waiting.iter() {
        if one.interval == interval {
            append(committed, one.entry);
        }
    }
}

// The least interval from `from` on of which an entry waits, or k where there is none below it.
fn next_interval<T>(waiting: &[Waiting<T>], from: Interval, k: Interval) -> Interval
    requires { from ≤ k }
    ensures least { from ≤ result }
    ensures most { result ≤ k }
    ensures none { All (λ w. from ≤ w.interval → result ≤ w.interval) waiting.now }
{
    let mut next = k;
    'waiting: for one in waiting.iter() {
        if from <= one.interval && one.interval < next {
            next = one.interval;
        }
    }
    next
}
