//! The two ends of a ring for a console's bytes.
ghost use Rattle.std.specs.Prelude.{◌≡◌, length, vec_len};
ghost use Rattle.rtrb.specs.Ring.{sent, consumer_capacity};

use rtrb::{Consumer, Producer};

/// The end that stands where bytes are released. It can move to another thread.
#[derive(Drop)]
pub struct Outbox {
    pub(crate) ring: Producer<u8>,
    pub(crate) count: usize,
    ghost counted: { count ≡ length (sent ring) },
}

/// The end that stands where bytes are written. It can move to another thread.
#[derive(Drop)]
pub struct Inbox {
    pub(crate) ring: Consumer<u8>,
    pub(crate) piece: Vec<u8>,
    ghost wide: { vec_len piece ≡ consumer_capacity ring },
}
