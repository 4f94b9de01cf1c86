//! What is to be replayed, and then saved.
use script_replay::Script;
use sn_base::{Config, Image};

/// A program, the sizes of the machine that it runs on, and the events to apply.
#[derive(Drop)]
pub struct SavedReplay {
    pub program: Image,
    pub config: Config,
    pub script: Script,
}
