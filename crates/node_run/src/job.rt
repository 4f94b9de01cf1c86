//! What is to be run, and what is shown of it.
use sn_base::{Config, Image, Rules, RunReport};

/// What a run shows: a report, and a word of memory besides.
#[derive(Clone, Copy, PartialEq, Eq, Debug)]
pub struct RunShowing {
    pub report: RunReport,
    /// The address of the word that the summary shows.
    pub watch: Option<u32>,
}

/// A program, the sizes of the machine that it runs on, how events are picked, how many there are at most, and what to show.
#[derive(Drop)]
pub struct Run {
    pub program: Image,
    pub config: Config,
    pub rules: Rules,
    /// Of the numbers that the workers draw.
    pub seed: u64,
    pub budget: u32,
    pub showing: RunShowing,
}
