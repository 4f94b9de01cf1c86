//! Whose turn is next.
ghost use Rattle.std.specs.Prelude.{◌≡◌, ◌+◌, ◌<◌, ◌≤◌};
ghost use Rattle.turn_orders.specs.Orders.{worker_of};

use crate::order::Order;
use rand_core::SeedableRng;
use rand_core::utils::NextWord;
use rand_pcg::Pcg32;
use std::marker::Model;

/// What a scheduler has in place of a worker's number: 2^64 over the golden ratio, far from 0 to 15 and with bits set all over, since
/// generators that are seeded by numbers with few bits apart begin alike.
const SCHEDULER: u64 = 0x9E37_79B9_7F4A_7C15;

/// A scheduler of so many workers' turns. Contracts see the order, the seed, how many workers there are, and how many turns were had.
#[derive(Drop)]
pub struct Scheduler {
    order: Order,
    seed: u64,
    workers: u8,
    had: u32,
    generator: Pcg32,
}

impl Model for Scheduler {
    ghost use Rattle.std.specs.Prelude.{◌≤◌};
    ghost use Rattle.turn_orders.specs.Scheduled.{SchedulerData, HasDrawn};

    ghost Value = { SchedulerData };

    ghost view = { λ s. record { order = s.order; seed = s.seed; workers = s.workers; had = s.had } };

    ghost invariant = { λ s. (1 ≤ s.workers) × HasDrawn s.order s.seed s.had s.generator };
}

impl Scheduler {
    /// No turn is had yet.
    pub fn new(order: Order, seed: u64, workers: u8) -> Scheduler
        requires { 1 ≤ workers }
        ensures { result ≡ record { order = order; seed = seed; workers = workers; had = 0 } }
    {
        let generator = Pcg32::seed_from_u64(seed.wrapping_add(SCHEDULER));
        Scheduler {
            order,
            seed,
            workers,
            had: 0,
            generator,
        }
    }

    /// The worker of the next turn, which is had then.
    pub fn next(&mut self) -> u32
        requires { self.old.had < 4000000000 }
        ensures worker { result ≡ worker_of self.old.order self.old.seed self.old.workers self.old.had }
        ensures few { result < self.old.workers }
        ensures had { self.new ≡ record self.old { had = self.old.had + 1 } }
    {
        let turn = self.had;
        let workers = u32::from(self.workers);
        self.had = turn + 1;
        match self.order {
            Order::Round => turn % workers,
            Order::Drawn => self.generator.next_word() % workers,
        }
    }
}
