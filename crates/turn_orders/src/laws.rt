//! What a scheduler's words and its turns are.
ghost use Rattle.std.specs.Prelude.{◌≡◌, ◌≢◌, ℕ, ◌+◌, ◌%◌, ◌^◌, ◌<◌};
ghost use Rattle.rand_core.specs.Pcg32Seed.{pcg32_seed};
ghost use Rattle.rand_pcg.specs.Pcg.{pcg32_of_seed};
ghost use Rattle.run_journals.specs.Picks.{first_generator};
ghost use Rattle.turn_orders.specs.declared.order.Order.{Order};
ghost use Rattle.turn_orders.specs.Orders.{scheduler, worker_of};

/// The number that seeds a scheduler's generator seeds no worker's: of the same run, and of any other, where both seeds are below
/// 2^62.
pub fn no_worker_draws_as_the_scheduler()
    ensures seeded { (seed : ℕ) → first_generator seed scheduler ≡ pcg32_of_seed (pcg32_seed 16 ((seed + scheduler) % 2 ^ 64)) }
    ensures same { (seed worker : ℕ) → worker < 16 → (seed + scheduler) % 2 ^ 64 ≢ (seed + worker) % 2 ^ 64 }
    ensures other { (seed other worker : ℕ) → seed < 2 ^ 62 → other < 2 ^ 62 → worker < 16 →
        (seed + scheduler) % 2 ^ 64 ≢ (other + worker) % 2 ^ 64 }
{}

/// Each turn is one of the workers'.
pub fn turns_are_of_workers()
    ensures { (order : Order) (seed workers turn : ℕ) → 0 < workers → worker_of order seed workers turn < workers }
{}
