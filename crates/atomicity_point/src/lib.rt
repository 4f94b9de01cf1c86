//! The transactions that a node has open: at most one miss and one put.
//!
//! A transaction belongs to one interval, that of its point of atomicity. A miss learns it from the answer, and is over
//! once the acknowledgements that the answer says are due have come, which may be before the answer. The layer above
//! sees the two transactions as plain data; from the least interval in which one of them was issued it knows up to which
//! checkpoint the node has completed everything. Nothing here knows what a block holds or who answers.
//!
//! Source: points of atomicity in SafetyNet (Sorin, Martin, Hill, Wood, ISCA 2002).
#![tactic(auto)]

ghost use Rattle.std.specs.Prelude.{◌≡◌, ◌+◌, ◌<◌, ◌≤◌, IsSome, IsNone, IfSome, IsTrue, Option, Some, None, option_copied};
ghost use Rattle.std.specs.Option.{option_map};
ghost use Rattle.atomicity_point.specs.Txn.{Open, issued_at, txn_with_answer, txn_with_ack, is_complete, least_issued};

use sn_base::{BlockNo, Interval};
use std::marker::Model;

/// A transaction: its block, the interval in which it was issued, the interval of its point of atomicity once that is
/// fixed, how many acknowledgements are due, and how many are in.
#[derive(Clone, Copy, PartialEq, Eq, Debug)]
pub struct Txn {
    pub block: BlockNo,
    pub issued: Interval,
    pub fixed: Option<Interval>,
    pub acks_due: u8,
    pub acks_in: u8,
}

impl Txn {
    fn is_complete(&self) -> bool
        ensures { result ≡ is_complete self.now }
    {
        self.fixed.is_some() && self.acks_in == self.acks_due
    }
}

/// What a node has open. Contracts see the open miss and the open put.
#[derive(Clone, Copy, PartialEq, Eq, Debug)]
pub struct TxnTable {
    miss: Option<Txn>,
    put: Option<Txn>,
}

impl Model for TxnTable {
    ghost use Rattle.std.specs.Option.{option_map};
    ghost use Rattle.atomicity_point.specs.Txn.{Open};

    ghost Value = { Open };

    ghost view = { λ t. record { miss = t.miss; put = t.put } };

    ghost inverse = { λ t. record { miss = t.miss; put = t.put } };
}

impl TxnTable {
    pub fn new() -> TxnTable
        ensures { result ≡ record { miss = None; put = None } }
    {
        TxnTable {
            miss: None,
            put: None,
        }
    }

    pub fn miss(&self) -> Option<&Txn>
        ensures { option_copied result ≡ self.now.miss }
    {
        self.miss.as_ref()
    }

    pub fn put(&self) -> Option<&Txn>
        ensures { option_copied result ≡ self.now.put }
    {
        self.put.as_ref()
    }

    pub fn open_miss(&mut self, block: BlockNo, issued: Interval)
        requires { IsNone self.old.miss }
        ensures { self.new ≡ record self.old { miss = Some (issued_at block issued) } }
    {
        self.miss = Some(issue(block, issued));
    }

    pub fn open_put(&mut self, block: BlockNo, issued: Interval)
        requires { IsNone self.old.put }
        ensures { self.new ≡ record self.old { put = Some (issued_at block issued) } }
    {
        self.put = Some(issue(block, issued));
    }

    /// The miss is answered. Says whether it is complete.
    pub fn answer(&mut self, fixed: Interval, acks_due: u8) -> bool
        requires open { IsSome self.old.miss }
        requires first { IfSome self.old.miss (λ t. IsNone t.fixed) }
        ensures miss { self.new ≡ record self.old { miss = option_map (λ t. txn_with_answer t fixed acks_due) self.old.miss } }
        ensures complete { IfSome self.new.miss (λ t. result ≡ is_complete t) }
    {
        let Some(miss) = &mut self.miss else {
            unreachable!()
        };
        miss.fixed = Some(fixed);
        miss.acks_due = acks_due;
        miss.is_complete()
    }

    /// An acknowledgement of the miss comes in. Says whether the miss is complete.
    pub fn ack(&mut self) -> bool
        requires open { IsSome self.old.miss }
        requires few { IfSome self.old.miss (λ t. t.acks_in < 15) }
        ensures miss { self.new ≡ record self.old { miss = option_map txn_with_ack self.old.miss } }
        ensures complete { IfSome self.new.miss (λ t. result ≡ is_complete t) }
    {
        let Some(miss) = &mut self.miss else {
            unreachable!()
        };
        miss.acks_in += 1;
        miss.is_complete()
    }

    pub fn close_miss(&mut self)
        requires { IsSome self.old.miss }
        ensures { self.new ≡ record self.old { miss = None } }
    {
        self.miss = None;
    }

    pub fn close_put(&mut self)
        requires { IsSome self.old.put }
        ensures { self.new ≡ record self.old { put = None } }
    {
        self.put = None;
    }

    /// The least interval in which something that is open was issued. None where nothing is open.
    pub fn least_open(&self) -> Option<Interval>
        ensures { result ≡ least_issued self.now.miss self.now.put }
    {
        match (&self.miss, &self.put) {
            (Some(miss), Some(put)) => Some(miss.issued.min(put.issued)),
            (Some(one), None) | (None, Some(one)) => Some(one.issued),
            (None, None) => None,
        }
    }
}

fn issue(block: BlockNo, issued: Interval) -> Txn
    ensures { result ≡ issued_at block issued }
{
    Txn {
        block,
        issued,
        fixed: None,
        acks_due: 0,
        acks_in: 0,
    }
}
