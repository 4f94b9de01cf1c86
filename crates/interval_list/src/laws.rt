//! That a recovery point that rises by one commits the interval that it leaves behind, as the machine's definitions say it.
ghost use Rattle.std.specs.Prelude.{◌≡◌, ℕ, ◌+◌, ◌≤◌, not, nat_eq, List, []};
ghost use Rattle.std.specs.List.{All, filter};
ghost use Rattle.interval_list.specs.WaitingList.{Waiting, entries_in, entries_below, waiting_from, waiting_below};

/// Where no entry waits of an interval below k, a commit of what is below k + 1 takes what is of interval k, in the order in
/// which it came, and leaves what isn't; and a drop of what is from k on leaves nothing.
pub fn the_next_point_commits_one_interval<T>()
    ensures committed { (k : ℕ) (waiting : List (Waiting T)) → All (λ w. k ≤ w.interval) waiting →
        entries_below (k + 1) waiting ≡ entries_in k waiting }
    ensures left { (k : ℕ) (waiting : List (Waiting T)) → All (λ w. k ≤ w.interval) waiting →
        waiting_from (k + 1) waiting ≡ filter (λ w. not (nat_eq w.interval k)) waiting }
    ensures dropped { (k : ℕ) (waiting : List (Waiting T)) → All (λ w. k ≤ w.interval) waiting → waiting_below k waiting ≡ [] }
{}
