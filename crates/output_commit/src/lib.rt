//! Output that is held until the checkpoint after it is validated.
//!
//! A byte that an instruction puts out belongs to the interval in which the instruction retired. It is released once no
//! recovery can undo the instruction, and dropped where one does. The layer above sees the bytes held, by interval, and
//! the bytes released, which only grow. Nothing here writes to a console, and only `reserve` takes memory.
//!
//! Source: output commit in SafetyNet (Sorin, Martin, Hill, Wood, ISCA 2002).
#![tactic(auto)]

ghost use Rattle.std.specs.Prelude.{◌≡◌, ◌-◌, ◌<◌, max, [], ◌∷◌, ◌++◌, OnOk, OnErr};
ghost use Rattle.interval_list.specs.WaitingList.{entries_below, waiting_from, waiting_below};
ghost use Rattle.output_commit.specs.Output.{Output};

use interval_list::{IntervalList, Waiting};
use sn_base::{Interval, Memory};
use std::alloc::Global;
use std::marker::Model;

/// The output of a machine. Contracts see the bytes held, in the order in which they were put, the bytes released, and
/// how many more may be put.
#[derive(Drop)]
pub struct OutBuffer {
    bytes: IntervalList<u8>,
}

impl Model for OutBuffer {
    ghost use Rattle.output_commit.specs.Output.{Output};

    ghost Value = { Output };

    ghost view = { λ o. record { held = o.bytes.waiting; released = o.bytes.committed; room = o.bytes.room } };
}

impl OutBuffer {
    pub fn new(alloc: Global) -> OutBuffer
        ensures { result ≡ record { held = []; released = []; room = 0 } }
    {
        OutBuffer {
            bytes: IntervalList::new(alloc),
        }
    }

    /// Makes room for so many bytes more.
    pub fn reserve(&mut self, bytes: usize) -> Result<(), Memory>
        ensures ok { OnOk result (self.new ≡ record self.old { room = max self.old.room bytes }) }
        ensures err { OnErr result (self.new ≡ self.old) }
    {
        self.bytes.reserve(bytes)
    }

    /// Holds a byte that was put out in this interval.
    pub fn put(&mut self, interval: Interval, byte: u8)
        requires { 0 < self.old.room }
        ensures { self.new ≡ record self.old {
          held = self.old.held ++ record { interval = interval; entry = byte } ∷ [];
          room = self.old.room - 1;
        } }
    {
        self.bytes.add(interval, byte);
    }

    /// Releases the bytes of the intervals below k, once checkpoint k is validated.
    pub fn release_below(&mut self, k: Interval)
        ensures { self.new ≡ record self.old {
          held = waiting_from k self.old.held;
          released = self.old.released ++ entries_below k self.old.held;
        } }
    {
        self.bytes.commit_below(k);
    }

    /// Drops the held bytes of interval k and above, which a recovery to checkpoint k undoes.
    pub fn drop_from(&mut self, k: Interval)
        ensures { self.new ≡ record self.old { held = waiting_below k self.old.held } }
    {
        self.bytes.drop_from(k);
    }

    /// The bytes that are held, in the order in which they were put, each with its interval.
    pub fn held(&self) -> &[Waiting<u8>]
        ensures { result.now ≡ self.now.held }
    {
        self.bytes.waiting()
    }

    pub fn released(&self) -> &[u8]
        ensures { result.now ≡ self.now.released }
    {
        self.bytes.committed()
    }
}
