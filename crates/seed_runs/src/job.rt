//! What is to be run for each seed.
use sn_base::{Config, Image, Rules};
use turn_orders::Order;

/// A program, the sizes of the machine that it runs on, how events are picked and in which order turns are had, how many events a
/// run has at most, and for which seeds it is run.
#[derive(Drop)]
pub struct SeedRuns {
    pub program: Image,
    pub config: Config,
    pub rules: Rules,
    pub budget: u32,
    pub order: Order,
    /// The first seed of the range, and the last, both in it.
    pub first: u64,
    pub last: u64,
    /// The address of the word that each summary shows.
    pub watch: Option<u32>,
    /// Whether each block has its run's statistics.
    pub statistics: bool,
}

/// Why not all seeds of a range were run, or not all text is put.
#[derive(Clone, Copy, PartialEq, Eq, Debug)]
pub enum SeedsFault {
    /// A sink took less than the whole of a piece.
    Sink,
    /// Memory was wanted for the run of a seed and not given. The seeds before it were run.
    Memory,
}
