//! The room for a line.
ghost use Rattle.std.specs.Prelude.{◌≡◌, ◌≤◌, [], ◌∷◌, ◌++◌, length, Ok, IfOk};
ghost use Rattle.text_lines.specs.Lines.{without_return};
ghost use Rattle.line_source.specs.Lines.{as_read, taken_by};
ghost use Rattle.line_source.specs.Reading.{kept_of};

use crate::source::{ReadFailed, Taken};
use sn_base::Memory;
use std::alloc::Global;
use std::marker::Model;

/// The most bytes that a line may have, without its end: 1 MiB. No line of a script that says anything has as many as 40.
pub const LINE_MOST: usize = 1_048_576;

// The most bytes that are kept of a line: one more shows that it is longer than may be, and one more may be the CR of its end.
const ROOM: usize = 1_048_578;

/// The room for a line and its end. It has all its memory from the start. Contracts see the bytes that are in it.
#[derive(Drop)]
pub struct LineRoom {
    bytes: Vec<u8>,
}

impl Model for LineRoom {
    ghost use Rattle.std.specs.Prelude.{ℕ, List, ◌+◌, ◌≤◌, vec_len, vec_capacity};
    ghost use Rattle.line_source.specs.declared.room.TheConstants.{ROOM};

    ghost Value = { List ℕ };

    ghost view = { λ r. r.bytes.items };

    ghost invariant = { λ r. (ROOM ≤ vec_capacity r.bytes) × (vec_len r.bytes ≤ ROOM) };
}

impl LineRoom {
    pub fn new(alloc: Global) -> Result<LineRoom, Memory>
        ensures { IfOk result (λ room. room ≡ []) }
    {
        let bytes = Vec::with_capacity(alloc, ROOM)?;
        Ok(LineRoom { bytes })
    }

    /// The line that was read last.
    pub fn bytes(&self) -> &[u8]
        ensures { result.now ≡ self.now }
    {
        self.bytes.as_slice()
    }

    pub(crate) fn clear(&mut self)
        ensures { self.new ≡ [] }
    {
        self.bytes.clear();
    }

    /// Adds a piece of the line, or as much of it as there is room for.
    pub(crate) fn add(&mut self, piece: &[u8])
        ensures { self.new ≡ kept_of (self.old ++ piece.now) }
    {
        let free = ROOM - self.bytes.len();
        let fitting = &piece[..piece.len().min(free)];
        self.bytes.extend_from_slice(fitting).unwrap();
    }

    /// Takes away the CR at the end of a line that an LF ended.
    pub(crate) fn cut_return(&mut self)
        ensures { self.new ≡ without_return self.old }
    {
        if self.bytes.last() == Some(&b'\r') {
            self.bytes.pop();
        }
    }

    /// What there is to say of the line that is in the room: no line that is longer stays there.
    pub(crate) fn judge(&mut self) -> Taken
        ensures read { taken_by (Ok result) self.new ≡ as_read self.old ∷ [] }
        ensures short { length self.new ≤ LINE_MOST }
    {
        if self.bytes.len() > LINE_MOST {
            self.clear();
            return Taken::Longer;
        }
        Taken::Whole
    }

    /// Puts a line into the room, where it isn't longer than may be.
    pub(crate) fn put(&mut self, line: &[u8]) -> Taken
        ensures read { taken_by (Ok result) self.new ≡ as_read line.now ∷ [] }
        ensures short { length self.new ≤ LINE_MOST }
    {
        self.clear();
        if line.len() > LINE_MOST {
            return Taken::Longer;
        }
        self.bytes.extend_from_slice(line).unwrap();
        Taken::Whole
    }
}
