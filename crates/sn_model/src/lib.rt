//! The whole machine as definitions: what it is, what each event makes of it, and what a checkpoint of it stands for.
//!
//! The definitions stand in specs/, in the order in which docs/DEFINITIONS.md reads them: the state of a cache and of
//! the machine, the rows of the cache's and of the home's table, each event with its answers, a run and its committed
//! trace, the cut that a checkpoint stands for and what a recovery restores. They are total: on a state that can't
//! arise they say something harmless, and the theorems of the layers above show that it doesn't arise.
//!
//! The code here is only the plain types that the definitions and the controllers share, and who takes a message.
#![tactic(auto)]

mod cache;
mod home;
mod laws;
mod look;
mod net;
mod rows;

pub use cache::{LineState, Need, Out};
pub use home::{Kind, Owner};
pub use laws::refusal_changes_nothing;
pub use look::Look;
pub use net::{News, Sent};
pub use rows::{CacheRow, HomeMessage, HomeRow, Receiver, receiver_of};
