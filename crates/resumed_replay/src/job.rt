//! What goes on, and with which events.
use script_replay::Script;
use sn_machine::Machine;

/// A machine that was made of a saved recovery point, the address of a word to show, and the events to apply.
#[derive(Drop)]
pub struct ResumedReplay {
    pub machine: Machine,
    pub watch: Option<u32>,
    pub script: Script,
}
