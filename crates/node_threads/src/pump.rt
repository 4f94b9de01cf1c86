//! The console's worker.
ghost use Rattle.std.specs.Prelude.{◌≤◌, OnOk, OnErr};
ghost use Rattle.sn_io.specs.Outside.{Rose};
ghost use Rattle.sn_console.specs.Ends.{bytes_taken, SameInbox};
ghost use Rattle.sn_console.specs.Handed.{IsHandedOn, IsBegun};

use crate::bell::Bell;
use crate::sleeping::sleep;
use shared_machine::{Locked, RunName};
use sn_console::{Failed, Inbox};
use sn_io::Sink;
use std::sync::{Mutex, Wait};

/// How long it rests after a piece, in nanoseconds, so that what is validated meanwhile makes one piece and wakes nobody.
const REST: u64 = 1_000_000;

/// Writes what comes until the node workers have ended and nothing is left. Where the console fails, it stops them.
pub(crate) fn pump<L: RunName, T: Wait, C: Sink>(
    rt: &T,
    lock: &Mutex<Locked<L>>,
    inbox: &mut Inbox,
    console: &mut C,
    bell: &Bell,
) -> Result<(), Failed>
    ensures end { SameInbox inbox.old inbox.new }
    ensures ok { OnOk result (IsHandedOn (bytes_taken inbox.old) (bytes_taken inbox.new) (C.written console.old) (C.written console.new)) }
    ensures err { OnErr result (IsBegun (bytes_taken inbox.old) (bytes_taken inbox.new) (C.written console.old) (C.written console.new)) }
    ensures later { C.faults console.old ≤ C.faults console.new }
    ensures cause { OnErr result (Rose (C.faults console.old) (C.faults console.new)) }
{
    'looks: for _ in rt.forever() {
        // Asked before the look, so that nothing that came before the end is left.
        let last = bell.has_ended();
        match inbox.drain(console) {
            Ok(0) if last => return Ok(()),
            Ok(0) => bell.wait(rt),
            Ok(_) => sleep(rt, REST),
            Err(failed) => {
                lock.lock(rt).stop();
                return Err(failed);
            }
        }
    }
    unreachable!()
}
