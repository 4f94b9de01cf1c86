//! Bytes are taken out and written.
ghost use Rattle.std.specs.Prelude.{◌≡◌, ◌+◌, ◌≤◌, ◌++◌, length, IfOk, OnOk, OnErr};
ghost use Rattle.sn_io.specs.Outside.{Rose};
ghost use Rattle.sn_console.specs.Ends.{bytes_passed, bytes_taken, waiting, room_of, AreEnds, SameOutbox, SameInbox};
ghost use Rattle.sn_console.specs.Handed.{IsHandedOn, IsBegun};

use crate::ends::{Inbox, Outbox};
use sn_io::{Failed, Sink};

impl Inbox {
    /// Writes what came, and tells how many bytes that is. Where the console fails, what it didn't write is lost.
    pub fn drain<C: Sink>(&mut self, console: &mut C) -> Result<u64, Failed>
        ensures end { SameInbox self.old self.new }
        ensures ok { OnOk result (IsHandedOn (bytes_taken self.old) (bytes_taken self.new) (C.written console.old) (C.written console.new)) }
        ensures err { OnErr result (IsBegun (bytes_taken self.old) (bytes_taken self.new) (C.written console.old) (C.written console.new)) }
        ensures count { IfOk result (λ count. length (bytes_taken self.new) ≡ length (bytes_taken self.old) + count) }
        ensures least { length (bytes_taken self.old) + length (waiting self.old) ≤ length (bytes_taken self.new) }
        ensures most { length (bytes_taken self.new) ≤ length (bytes_taken self.old) + room_of self.old }
        ensures later { C.faults console.old ≤ C.faults console.new }
        ensures cause { OnErr result (Rose (C.faults console.old) (C.faults console.new)) }
    {
        let Inbox { ring, piece } = self;
        let count = ring.pop_partial_slice(piece.as_mut_slice());
        console.put(&piece[..count])?;
        Ok(count as u64)
    }

    /// Looks at the ring with both ends in one hand, and tells how many bytes wait in it.
    pub fn meet(&mut self, outbox: &mut Outbox) -> usize
        requires { AreEnds outbox.old self.old }
        ensures ends { SameOutbox outbox.old outbox.new × SameInbox self.old self.new }
        ensures same { (bytes_passed outbox.new ≡ bytes_passed outbox.old) × (bytes_taken self.new ≡ bytes_taken self.old) }
        ensures all { bytes_taken self.new ++ waiting self.new ≡ bytes_passed outbox.new }
        ensures count { result ≡ length (waiting self.new) }
    {
        self.ring.slots_beside(&mut outbox.ring)
    }
}
