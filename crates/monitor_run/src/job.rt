//! What is to be run under a watcher.
use sn_base::{Config, Image, Rules};

/// A program, the sizes of the machine that it runs on, how events are picked, and how many there are at most.
#[derive(Drop)]
pub struct Monitor {
    pub program: Image,
    pub config: Config,
    pub rules: Rules,
    /// Of the numbers that the workers draw.
    pub seed: u64,
    pub budget: u32,
    /// The address of the word that the summary shows, and the snapshots have.
    pub watch: Option<u32>,
}
