//! A sink in memory.
ghost use Rattle.std.specs.Prelude.{◌≡◌, ◌≢◌, ◌≤◌, [], ◌∷◌, ◌++◌, OnOk, OnErr, IfOk};
ghost use Rattle.sn_io.specs.Sinks.{SinkData, takes, after_put};

use crate::calls::Calls;
use crate::outside::{Failed, Sink};
use sn_base::Memory;
use std::alloc::Global;
use std::marker::Model;

/// A sink that keeps what it is given, up to its room. A piece past the room fails, and so does each call whose number
/// was named to `fail_call`; nothing of such a piece is appended. The first call is 1, and a call with an empty piece
/// has no number.
#[derive(Drop)]
pub struct MemSink {
    bytes: Vec<u8>,
    room: usize,
    calls: Calls,
    faults: u64,
}

impl Model for MemSink {
    ghost use Rattle.std.specs.Prelude.{◌≤◌, vec_len, vec_capacity};
    ghost use Rattle.sn_io.specs.Sinks.{SinkData};

    ghost Value = { SinkData };

    ghost view = { λ s. record { bytes = s.bytes.items; room = s.room; calls = s.calls; faults = s.faults } };

    ghost invariant = { λ s. (vec_len s.bytes ≤ s.room) × (s.room ≤ vec_capacity s.bytes) };
}

impl MemSink {
    /// A sink for at most `room` bytes.
    pub fn with_room(alloc: Global, room: usize) -> Result<MemSink, Memory>
        ensures { IfOk result (λ s. s ≡ record { bytes = []; room = room; calls = record { named = []; made = 0 }; faults = 0 }) }
    {
        let bytes = Vec::with_capacity(alloc, room)?;
        Ok(MemSink {
            bytes,
            room,
            calls: Calls::new(alloc),
            faults: 0,
        })
    }

    pub fn fail_call(&mut self, call: u64) -> Result<(), Memory>
        ensures ok { OnOk result
            (self.new ≡ record self.old { calls = record self.old.calls { named = self.old.calls.named ++ call ∷ [] } }) }
        ensures err { OnErr result (self.new ≡ self.old) }
    {
        self.calls.name(call)?;
        Ok(())
    }

    pub fn bytes(&self) -> &[u8]
        ensures { result.now ≡ self.now.bytes }
    {
        self.bytes.as_slice()
    }

    // Whether the next piece is taken.
    fn takes(&self, piece: &[u8]) -> bool
        ensures { result ≡ takes self.now piece.now }
    {
        piece.len() <= self.room - self.bytes.len() && !self.calls.is_next_named()
    }

    fn take(&mut self, piece: &[u8]) -> bool
        ensures same { (self.new, result) ≡ after_put self.old piece.now }
        ensures later { self.old.faults ≤ self.new.faults }
    {
        if piece.is_empty() {
            return true;
        }
        let taken = self.takes(piece);
        self.calls.begin();
        if taken {
            self.bytes.extend_from_slice(piece).unwrap();
        } else {
            self.faults = self.faults.saturating_add(1);
        }
        taken
    }
}

impl Sink for MemSink {
    ghost use Rattle.std.specs.Prelude.{Some};

    ghost written = { λ s. Some s.bytes };

    ghost faults = { λ s. s.faults };

    fn put(&mut self, piece: &[u8]) -> Result<(), Failed> {
        if self.take(piece) {
            Ok(())
        } else {
            Err(Failed)
        }
    }
}
