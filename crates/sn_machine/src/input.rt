//! The bytes of input that a node was given, for good.
ghost use Rattle.std.specs.Prelude.{◌≡◌, ◌-◌, ◌<◌, max, [], ◌∷◌, ◌++◌, OnOk, OnErr};

use sn_base::Memory;
use std::alloc::Global;
use std::marker::Model;

/// The bytes given, in order, and the room for more. Contracts see both.
#[derive(Drop)]
pub struct Input {
    bytes: Vec<u8>,
    room: usize,
}

impl Model for Input {
    ghost use Rattle.std.specs.Prelude.{◌+◌, ◌≤◌, vec_len, vec_capacity};
    ghost use Rattle.sn_machine.specs.Input.{InputData};

    ghost Value = { InputData };

    ghost view = { λ i. record { given = i.bytes.items; room = i.room } };

    ghost invariant = { λ i. vec_len i.bytes + i.room ≤ vec_capacity i.bytes };
}

impl Input {
    pub fn new(alloc: Global) -> Input
        ensures { result ≡ record { given = []; room = 0 } }
    {
        Input {
            bytes: Vec::new(alloc),
            room: 0,
        }
    }

    /// Makes room for so many bytes more.
    pub fn reserve(&mut self, bytes: usize) -> Result<(), Memory>
        ensures ok { OnOk result (self.new ≡ record self.old { room = max self.old.room bytes }) }
        ensures err { OnErr result (self.new ≡ self.old) }
    {
        if bytes <= self.room {
            return Ok(());
        }
        self.bytes.reserve(bytes)?;
        self.room = bytes;
        Ok(())
    }

    pub fn give(&mut self, byte: u8)
        requires { 0 < self.old.room }
        ensures { self.new ≡ record { given = self.old.given ++ byte ∷ []; room = self.old.room - 1 } }
    {
        self.bytes.push(byte).unwrap();
        self.room -= 1;
    }

    pub fn given(&self) -> &[u8]
        ensures { result.now ≡ self.now.given }
    {
        self.bytes.as_slice()
    }
}
