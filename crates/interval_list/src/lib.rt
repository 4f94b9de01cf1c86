//! Entries that wait by interval, and are committed in order of their intervals.
//!
//! What an instruction does for the world outside belongs to the interval in which it retires. It waits until the checkpoint
//! after that interval is validated, and is committed from then on; a recovery drops what waits. The layer above sees the
//! entries that wait, in the order in which they came, and the committed ones, in order of their intervals and within one in
//! the order in which they came; these only grow. What an entry is this crate doesn't know. Only `reserve` takes memory.
//!
//! Source: output commit in SafetyNet (Sorin, Martin, Hill, Wood, ISCA 2002).
#![tactic(auto)]

ghost use Rattle.std.specs.Prelude.{◌≡◌, ◌+◌, ◌-◌, ◌<◌, ◌≤◌, max, [], ◌∷◌, ◌++◌, OnOk, OnErr};
ghost use Rattle.interval_list.specs.WaitingList.{WaitingList, entries_below, waiting_from, waiting_below};

mod laws;
mod order;

pub use laws::the_next_point_commits_one_interval;
use order::{append, commit_in_order};
use sn_base::{Interval, Memory};
use std::alloc::Global;
use std::marker::Model;

/// An entry that a recovery may still undo, and the interval that it belongs to.
#[derive(Clone, Copy, PartialEq, Eq, Debug)]
pub struct Waiting<T> {
    pub interval: Interval,
    pub entry: T,
}

/// What waits, and what is committed. Contracts see both, and how many more entries may come.
#[derive(Drop)]
pub struct IntervalList<T> {
    waiting: Vec<Waiting<T>>,
    committed: Vec<T>,
    room: usize,
}

impl<T> Model for IntervalList<T> {
    ghost use Rattle.std.specs.Prelude.{◌+◌, ◌≤◌, vec_len, vec_capacity};
    ghost use Rattle.interval_list.specs.WaitingList.{WaitingList, waiting_list_code};

    ghost Value = { WaitingList T };

    ghost coded = { waiting_list_code T.code };

    ghost view = { λ l. record { waiting = l.waiting.items; committed = l.committed.items; room = l.room } };

    ghost invariant = { λ l. (vec_len l.waiting + l.room ≤ vec_capacity l.waiting)
        × (vec_len l.committed + vec_len l.waiting + l.room ≤ vec_capacity l.committed) };
}

impl<T: Copy> IntervalList<T> {
    pub fn new(alloc: Global) -> IntervalList<T>
        ensures { result ≡ record { waiting = []; committed = []; room = 0 } }
    {
        IntervalList {
            waiting: Vec::new(alloc),
            committed: Vec::new(alloc),
            room: 0,
        }
    }

    /// Makes room for so many entries more.
    pub fn reserve(&mut self, entries: usize) -> Result<(), Memory>
        ensures ok { OnOk result (self.new ≡ record self.old { room = max self.old.room entries }) }
        ensures err { OnErr result (self.new ≡ self.old) }
    {
        if entries <= self.room {
            return Ok(());
        }
        self.waiting.reserve(entries)?;
        self.committed.reserve(self.waiting.len() + entries)?;
        self.room = entries;
        Ok(())
    }

    /// How many more entries may come.
    pub fn spare(&self) -> usize
        ensures { result ≡ self.now.room }
    {
        self.room
    }

    /// An entry of this interval comes.
    pub fn add(&mut self, interval: Interval, entry: T)
        requires { 0 < self.old.room }
        ensures { self.new ≡ record self.old {
          waiting = self.old.waiting ++ record { interval = interval; entry = entry } ∷ [];
          room = self.old.room - 1;
        } }
    {
        append(&mut self.waiting, Waiting { interval, entry });
        self.room -= 1;
    }

    /// Commits the entries of the intervals below k, once checkpoint k is validated.
    pub fn commit_below(&mut self, k: Interval)
        ensures { self.new ≡ record self.old {
          waiting = waiting_from k self.old.waiting;
          committed = self.old.committed ++ entries_below k self.old.waiting;
        } }
    {
        commit_in_order(self.waiting.as_slice(), &mut self.committed, k);
        self.waiting.retain(|one| one.interval >= k);
    }

    /// Drops the entries of interval k and above, which a recovery to checkpoint k undoes.
    pub fn drop_from(&mut self, k: Interval)
        ensures { self.new ≡ record self.old { waiting = waiting_below k self.old.waiting } }
    {
        self.waiting.retain(|one| one.interval < k);
    }

    /// What a recovery may still undo, in the order in which it came.
    pub fn waiting(&self) -> &[Waiting<T>]
        ensures { result.now ≡ self.now.waiting }
    {
        self.waiting.as_slice()
    }

    pub fn committed(&self) -> &[T]
        ensures { result.now ≡ self.now.committed }
    {
        self.committed.as_slice()
    }
}
