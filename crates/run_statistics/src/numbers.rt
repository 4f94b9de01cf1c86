//! A list of numbers that count.
ghost use Rattle.std.specs.Prelude.{◌≡◌, ◌<◌, ◌≤◌, map, slice_index};
ghost use Rattle.run_statistics.specs.Numbers.{with_more, with_change, with_greater, with_one_each, with_all, no_numbers};
ghost use Rattle.run_statistics.specs.Records.{nodes_of};

use rv_core::Record;
use std::marker::Model;

/// How many numbers a list has: one for each kind of what is counted, of which there are no more.
pub const PLACES: usize = 32;

/// Numbers that count, one for each place. Each stops at the greatest number of 64 bits. Contracts see the list of them.
#[derive(Drop)]
pub struct Numbers {
    counts: [u64; 32],
}

impl Model for Numbers {
    ghost use Rattle.std.specs.Prelude.{◌≡◌, ℕ, List, length};

    ghost Value = { List ℕ };

    ghost view = { λ n. n.counts };

    ghost invariant = { λ n. length n.counts ≡ 32 };
}

impl Numbers {
    pub fn new() -> Numbers
        ensures { result ≡ no_numbers }
    {
        Numbers { counts: [0; 32] }
    }

    pub fn at(&self, place: usize) -> u64
        requires { place < 32 }
        ensures { result ≡ slice_index self.now place }
    {
        self.counts[place]
    }

    /// So many more at a place.
    pub fn add(&mut self, place: usize, more: u64)
        requires { place < 32 }
        ensures { self.new ≡ with_more self.old place more }
    {
        self.counts[place] = self.counts[place].saturating_add(more);
    }

    /// So many more at a place, and then so many fewer.
    pub fn change(&mut self, place: usize, more: u64, fewer: u64)
        requires { place < 32 }
        ensures { self.new ≡ with_change self.old place more fewer }
    {
        self.counts[place] = self.counts[place]
            .saturating_add(more)
            .saturating_sub(fewer);
    }

    /// The greater of what stands at a place and another.
    pub fn raise(&mut self, place: usize, other: u64)
        requires { place < 32 }
        ensures { self.new ≡ with_greater self.old place other }
    {
        self.counts[place] = self.counts[place].max(other);
    }

    /// As others are.
    pub fn set_to(&mut self, others: &Numbers)
        ensures { self.new ≡ others.now }
    {
        self.counts = others.counts;
    }

    /// One more for the node of each record.
    pub fn add_records(&mut self, records: &[Record])
        ensures { self.new ≡ with_one_each self.old (nodes_of records.now) }
    {
        'records: for one in records {
            self.add(usize::from(one.core.number()), 1);
        }
    }

    /// All of the others, each at its place.
    #[tactic(auto, unfolding(crate::specs::Numbers::with_all))]
    pub fn add_all(&mut self, others: &Numbers)
        ensures { self.new ≡ with_all others.now self.old }
    {
        'places: for place in 0..PLACES {
            self.add(place, others.at(place));
        }
    }
}
