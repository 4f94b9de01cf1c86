//! What follows from what a range puts.
ghost use Rattle.std.specs.Prelude.{◌≡◌, ℕ, ◌+◌, ◌++◌};
ghost use Rattle.seed_runs.specs.declared.job.SeedRuns.{SeedRuns};
ghost use Rattle.seed_runs.specs.Pieces.{seeds_pieces};

/// Seeds that are run in two calls, the second of which begins where the first ended, put what one call with all of them does.
pub fn parted_ranges_put_the_same()
    ensures { (r : SeedRuns) (first some more : ℕ) →
        seeds_pieces r first (some + more) ≡ seeds_pieces r first some ++ seeds_pieces r (first + some) more }
{}
