//! Bytes are passed on.
ghost use Rattle.std.specs.Prelude.{◌≡◌, ◌+◌, ◌≤◌, [], length, min, IfOk};
ghost use Rattle.sn_console.specs.Ends.{bytes_passed, free_places, bytes_taken, waiting, room_of, AreEnds, SameOutbox};
ghost use Rattle.sn_console.specs.Handed.{IsFirstOf};

use crate::ends::{Inbox, Outbox};
use rtrb::RingBuffer;
use sn_base::Memory;
use std::alloc::Global;

/// A ring with room for so many bytes, at least one. Both ends are in one hand here, so they know all its places free.
pub fn outbox(alloc: Global, room: usize) -> Result<(Outbox, Inbox), Memory>
    requires { 1 ≤ room }
    ensures ends { IfOk result (λ r. AreEnds r.0 r.1) }
    ensures outbox { IfOk result (λ r. (bytes_passed r.0 ≡ []) × (free_places r.0 ≡ room)) }
    ensures inbox { IfOk result (λ r. (bytes_taken r.1 ≡ []) × (waiting r.1 ≡ []) × (room_of r.1 ≡ room)) }
{
    let piece = vec![in alloc; 0u8; room]?;
    let (producer, consumer) = RingBuffer::new(alloc, room)?;
    let outbox = Outbox {
        ring: producer,
        count: 0,
    };
    let inbox = Inbox {
        ring: consumer,
        piece,
    };
    Ok((outbox, inbox))
}

impl Outbox {
    /// Passes on the next bytes of those that are released, as many as fit.
    pub fn offer(&mut self, released: &[u8])
        requires { IsFirstOf (bytes_passed self.old) released.now }
        ensures end { SameOutbox self.old self.new }
        ensures next { IsFirstOf (bytes_passed self.old) (bytes_passed self.new) }
        ensures first { IsFirstOf (bytes_passed self.new) released.now }
        ensures least { min (length released.now) (length (bytes_passed self.old) + free_places self.old) ≤ length (bytes_passed self.new) }
        ensures known { length (bytes_passed self.old) + free_places self.old ≤ length (bytes_passed self.new) + free_places self.new }
    {
        let Outbox { ring, count } = self;
        let (gone, _left) = ring.push_partial_slice(&released[*count..]);
        *count += gone.len();
    }
}
