//! The run's end, with all in one hand.
ghost use Rattle.std.specs.Prelude.{◌≡◌, ℕ, ◌<◌, ◌≤◌, List, Option, Some, IsOk, IsErr, is_err, if◌then◌else◌, nat_le, length};
ghost use Rattle.sn_console.specs.Ends.{bytes_passed, bytes_taken, AreEnds};
ghost use Rattle.sn_console.specs.Handed.{IsFirstOf};
ghost use Rattle.shared_machine.specs.Shared.{refusal_of};
ghost use Rattle.node_threads.specs.Finishes.{Put};

use shared_machine::{Finish, Locked, RunName};
use sn_console::{Failed, Inbox, Outbox, settle};
use sn_io::Sink;
use std::sync::ledger::Share;

/// The closing turns, under worker 0, up to the first that is refused. A stop is taken back first. There are none where the
/// console failed.
pub(crate) fn close<L: RunName>(
    drained: &Result<(), Failed>,
    locked: &mut Locked<L>,
    all: &mut Share<L>,
) -> Finish
    requires nodes { 0 < L.began.config.nodes }
    requires part { 0 < all.old.parts }
    ensures parts { all.new.parts ≡ all.old.parts }
    ensures finish { IsOk drained.now →
        refusal_of locked.new.driver locked.new.machine (nat_le locked.new.budget (length locked.new.journal)) ≡ Some result }
    ensures stopped { IsErr drained.now → (result ≡ Finish.Stopped) × (locked.new ≡ locked.old) × (all.new.amount ≡ all.old.amount) }
{
    if drained.is_err() {
        return Finish::Stopped;
    }
    locked.go_on();
    'turns: loop {
        match locked.turn(all, 0) {
            Ok(_) => {}
            Err(finish) => return finish,
        }
    }
}

/// The finish that the turns came to, unless the console failed.
pub(crate) fn finish_after(put: &Result<(), Failed>, closed: Finish) -> Finish
    ensures { result ≡ (if is_err put.now then Finish.Stopped else closed) }
{
    if put.is_err() {
        return Finish::Stopped;
    }
    closed
}

/// Writes the rest, where the console hasn't failed before.
pub(crate) fn put_rest<C: Sink>(
    drained: Result<(), Failed>,
    outbox: Outbox,
    inbox: Inbox,
    released: &[u8],
    console: &mut C,
) -> Result<(), Failed>
    requires ends { AreEnds outbox inbox }
    requires passed { IsFirstOf (bytes_passed outbox) released.now }
    ensures failed { IsErr drained → IsErr result }
    ensures put { (before : Option (List ℕ)) (was : ℕ) → Put drained (bytes_taken inbox) before (C.written console.old) was (C.faults console.old)
        → Put result released.now before (C.written console.new) was (C.faults console.new) }
    ensures later { C.faults console.old ≤ C.faults console.new }
{
    if drained.is_err() {
        let mut outbox = outbox;
        let mut inbox = inbox;
        inbox.meet(&mut outbox);
        return drained;
    }
    settle(outbox, inbox, released, console)
}
