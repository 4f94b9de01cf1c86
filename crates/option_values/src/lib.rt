//! What may stand as the value of an option: numbers of a range, the address of a word, and a switch that dies.
//!
//! The layer above has the words of a command sorted into options, and asks here what their values mean. Nothing here
//! takes memory, knows the name of an option, or says why a value is refused: any refusal is the same usage fault.
#![tactic(auto)]

mod address;
mod digits;
mod number;
mod places;
mod run;
mod seeds;
mod sizes;

pub use address::read_watch;
pub use number::{
    BUDGET, INTERVAL, LOG, LOSE_EVERY, NODES, NumberRule, SEED, SETS, WAIT, WAYS, read_demo_size,
};
pub use places::{Places, read_places};
pub use run::{RunRules, RunWords};
pub use seeds::{MOST_SEEDS, Seeds, read_seeds};
pub use sizes::{SizeWords, read_nodes};
