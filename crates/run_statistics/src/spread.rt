//! A measure that is taken again and again.
ghost use Rattle.std.specs.Prelude.{◌≡◌};
ghost use Rattle.run_statistics.specs.Spreads.{no_spread, spread_with};

/// How often something was measured, the sum of what was measured, and the greatest of it. Each stops at the greatest number of
/// 64 bits.
#[derive(Clone, Copy)]
pub struct Spread {
    pub count: u64,
    pub sum: u64,
    pub greatest: u64,
}

impl Spread {
    pub fn new() -> Spread
        ensures { result ≡ no_spread }
    {
        Spread {
            count: 0,
            sum: 0,
            greatest: 0,
        }
    }

    pub fn add(&mut self, value: u64)
        ensures { self.new ≡ spread_with self.old value }
    {
        self.count = self.count.saturating_add(1);
        self.sum = self.sum.saturating_add(value);
        self.greatest = self.greatest.max(value);
    }
}
