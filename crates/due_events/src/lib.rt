//! Which event is due: the definitions of a driver that picks the events of a run, so that no script is needed.
//!
//! A driver counts the events that it has applied, by their answers, and asks the machine what the next ones would be
//! answered. From both follows, for a worker and a number that it draws, the one event that is due. The definitions stand in
//! specs/: `Numbers` has what a driver counts, `Lists` what may be due at a node, `Due` which of it is, and `Runs` the events
//! of a run that are due one after another. Whoever drives a machine, alone or in threads, cites them.
//! `EachDue` in proofs/ shows that what holds of each event that a driver can make holds of the one that is due.
//!
//! There is no code here: the rules are a type of `sn_base`, since the words of a call are read into them too.
#![tactic(auto)]

pub use sn_machine;
