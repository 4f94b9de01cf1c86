//! The rest is written, with both ends in one hand.
ghost use Rattle.std.specs.Prelude.{◌≤◌, OnOk, OnErr};
ghost use Rattle.sn_io.specs.Outside.{Rose};
ghost use Rattle.sn_console.specs.Ends.{bytes_passed, bytes_taken, AreEnds};
ghost use Rattle.sn_console.specs.Handed.{IsFirstOf, IsHandedOn, IsBegun};

use crate::ends::{Inbox, Outbox};
use sn_io::{Failed, Sink};

/// Writes what is still in the ring and then the rest of what is released, all in one piece.
pub fn settle<C: Sink>(
    outbox: Outbox,
    inbox: Inbox,
    released: &[u8],
    console: &mut C,
) -> Result<(), Failed>
    requires ends { AreEnds outbox inbox }
    requires passed { IsFirstOf (bytes_passed outbox) released.now }
    ensures ok { OnOk result (IsHandedOn (bytes_taken inbox) released.now (C.written console.old) (C.written console.new)) }
    ensures err { OnErr result (IsBegun (bytes_taken inbox) released.now (C.written console.old) (C.written console.new)) }
    ensures later { C.faults console.old ≤ C.faults console.new }
    ensures cause { OnErr result (Rose (C.faults console.old) (C.faults console.new)) }
{
    let mut outbox = outbox;
    let mut inbox = inbox;
    let waiting = inbox.meet(&mut outbox);
    console.put(&released[outbox.count - waiting..])
}
