//! The statistics of a run: what is counted of its instructions, messages, logs, blocks, intervals, bytes and recoveries.
//!
//! The layer above knows them as a fold over the run's events (`statistics_of`): what each event adds is a function of the
//! event, its answer, what it sent, and the states before and after it. They are counted while the events are applied: by a `Count`
//! that rides along with a run on the run's own machine; or once more to a machine of its own, so that whoever has a run's events, a
//! script's or a journal's, has its statistics. Each number ends at the greatest of 64 bits.
//! There are no times, since the machine has none: all is counted in events, instructions and messages.
#![tactic(auto)]

mod bytes;
mod count;
mod counting;
mod instructions;
mod intervals;
mod lines;
mod logs;
mod messages;
mod names;
mod numbers;
mod owned;
mod places;
mod puts;
mod putting;
mod reach;
mod recoveries;
mod spread;
mod statistics;
mod undone;

pub use bytes::ByteStatistics;
pub use count::Count;
pub use counting::statistics_of_run;
pub use instructions::InstructionStatistics;
pub use intervals::{IntervalStatistics, Moment, Moments};
pub use logs::LogStatistics;
pub use messages::MessageStatistics;
pub use numbers::Numbers;
pub use owned::{OwnedBefore, TouchedLines};
pub use puts::{Put, Puts};
pub use putting::{StatisticsFault, put_statistics, statistics_text};
pub use reach::Reach;
pub use recoveries::{Lead, Recoveries, Recovery, RecoveryStatistics};
pub use spread::Spread;
pub use statistics::{Before, Statistics};
