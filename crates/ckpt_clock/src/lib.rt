//! The checkpoint clock of one node.
//!
//! A clock counts intervals of logical time: checkpoint k is the start of interval k. Beside the interval that runs it
//! keeps the last recovery point that the node was told. The layer above sees the two numbers and knows that they are
//! at most four apart, which bounds how many checkpoints a node has to keep. A clock knows of no message and of no
//! other node; who may deliver what is asked by `held`.
//!
//! Source: checkpoint clocks of SafetyNet (Sorin, Martin, Hill, Wood, ISCA 2002). There the skew of the clocks is below
//! the least latency of the network; here a message of a later interval is held at its receiver instead.
#![tactic(auto)]

ghost use Rattle.std.specs.Prelude.{◌≡◌, ◌+◌, ◌<◌, ◌≤◌, ◌^◌, ◌↔◌, max, nat_lt, IfOk, IsErr, OnErr};
ghost use Rattle.ckpt_clock.specs.Clock.{ClockData, IsClock, most_ahead};

use sn_base::{CHECKPOINTS, Interval};
use std::marker::Model;

/// The node has as many checkpoints above the recovery point that it knows as it may have: four.
#[derive(Clone, Copy, PartialEq, Eq, Debug)]
pub struct CheckpointsFull;

/// A node's clock. Contracts see the interval that runs and the recovery point that the node knows.
#[derive(Clone, Copy, PartialEq, Eq, Debug)]
pub struct Clock {
    interval: Interval,
    known: Interval,
}

impl Model for Clock {
    ghost use Rattle.ckpt_clock.specs.Clock.{ClockData, IsClock};

    ghost Value = { ClockData };

    ghost view = { λ c. record { interval = c.interval; known = c.known } };

    ghost invariant = { λ c. IsClock (record { interval = c.interval; known = c.known }) };

    ghost inverse = { λ c. record { interval = c.interval; known = c.known } };
}

impl Clock {
    /// Interval 0 runs, and checkpoint 0 is the recovery point.
    pub fn start() -> Clock
        ensures { result ≡ record { interval = 0; known = 0 } }
    {
        Clock {
            interval: 0,
            known: 0,
        }
    }

    pub fn now(&self) -> Interval
        ensures same { result ≡ self.now.interval }
        ensures good { IsClock self.now }
    {
        self.interval
    }

    pub fn known(&self) -> Interval
        ensures same { result ≡ self.now.known }
        ensures good { IsClock self.now }
    {
        self.known
    }

    /// Begins the next interval and answers its number.
    pub fn edge(&mut self) -> Result<Interval, CheckpointsFull>
        requires { self.old.interval + 1 < 2 ^ 32 }
        ensures full { IsErr result ↔ (self.old.interval ≡ self.old.known + most_ahead) }
        ensures number { IfOk result (λ k. k ≡ self.old.interval + 1) }
        ensures begun { IfOk result (λ k. self.new ≡ record self.old { interval = k }) }
        ensures unchanged { OnErr result (self.new ≡ self.old) }
    {
        if self.interval - self.known == CHECKPOINTS {
            return Err(CheckpointsFull);
        }
        self.interval += 1;
        Ok(self.interval)
    }

    /// Whether a message that was sent in this interval has to wait: the interval hasn't begun here.
    pub fn held(&self, tag: Interval) -> bool
        ensures { result ≡ nat_lt self.now.interval tag }
    {
        tag > self.interval
    }

    /// Hears of a recovery point, which may be one that is known already.
    pub fn learn(&mut self, point: Interval)
        requires { point ≤ self.old.interval }
        ensures { self.new ≡ record self.old { known = max self.old.known point } }
    {
        self.known = self.known.max(point);
    }

    /// Goes back to a recovery point, or on to one that a saved machine starts from.
    pub fn back_to(&mut self, point: Interval)
        ensures { self.new ≡ record { interval = point; known = point } }
    {
        self.interval = point;
        self.known = point;
    }
}
