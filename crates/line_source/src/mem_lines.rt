//! A source in memory.
ghost use Rattle.std.specs.Prelude.{◌≡◌, [], ◌∷◌, ◌++◌, ◌+◌, None, Some, IfSome, IsNone};
ghost use Rattle.sn_io.specs.Outside.{count_plus_one};
ghost use Rattle.text_lines.specs.Lines.{lines_of};
ghost use Rattle.line_source.specs.Lines.{as_read};
ghost use Rattle.line_source.specs.Memory.{is_failing, read_of};

use crate::room::LineRoom;
use crate::source::{Lines, ReadFailed, Taken};
use std::marker::Model;

/// The lines of a text in memory, each ended by LF, or by CR and LF. A text that ends with LF has an empty line after it. The
/// call whose number was given to `fail_call` fails, and takes no line; the first is 1.
#[derive(Drop)]
pub struct MemLines<'a> {
    text: &'a [u8],
    taken: u64,
    left: Option<text_lines::Lines<'a>>,
    made: u64,
    failing: Option<u64>,
    faults: u64,
}

impl<'a> Model for MemLines<'a> {
    ghost use Rattle.std.specs.Prelude.{◌≡◌, ◌+◌, ◌≤◌, drop, length};
    ghost use Rattle.text_lines.specs.Lines.{lines_of};
    ghost use Rattle.line_source.specs.Memory.{MemLinesData, others_in};

    ghost Value = { MemLinesData };

    ghost view = { λ s. record {
      text = s.text.now;
      taken = s.taken;
      left = others_in s.left;
      made = s.made;
      failing = s.failing;
      faults = s.faults;
    } };

    ghost invariant = { λ s. (others_in s.left ≡ drop s.taken (lines_of s.text.now)) × (s.taken + length (others_in s.left) ≤ length s.text.now + 1) };
}

impl<'a> MemLines<'a> {
    pub fn new(text: &'a [u8]) -> MemLines<'a>
        ensures { result ≡ record { text = text.now; taken = 0; left = lines_of text.now; made = 0; failing = None; faults = 0 } }
    {
        MemLines {
            text,
            taken: 0,
            left: Some(text_lines::lines_of(text)),
            made: 0,
            failing: None,
            faults: 0,
        }
    }

    pub fn fail_call(&mut self, call: u64)
        ensures { self.new ≡ record self.old { failing = Some call } }
    {
        self.failing = Some(call);
    }

    // Whether this call is to fail. The count stands at the last value of its type.
    fn begin(&mut self) -> bool
        ensures made { self.new ≡ record self.old { made = count_plus_one self.old.made } }
        ensures fails { result ≡ is_failing self.old.failing self.old.made }
    {
        self.made = self.made.saturating_add(1);
        self.failing == Some(self.made)
    }

    fn take(&mut self) -> Option<&'a [u8]>
        ensures none { IsNone result → (self.old.left ≡ []) × (self.new ≡ self.old) }
        ensures line { IfSome result (λ line. self.old.left ≡ line.now ∷ self.new.left) }
        ensures next { IfSome result (λ line. self.new ≡ record self.old { taken = self.old.taken + 1; left = self.new.left }) }
        ensures read { IfSome result (λ line. read_of self.new ≡ read_of self.old ++ as_read line.now ∷ []) }
    {
        let mut left = self.left.take()?;
        let line = left.next_line()?;
        self.left = Some(left);
        self.taken += 1;
        Some(line)
    }
}

impl Lines for MemLines<'_> {
    ghost use Rattle.std.specs.Prelude.{Some};
    ghost use Rattle.line_source.specs.Memory.{read_of, left_of};

    ghost read = { λ s. Some (read_of s) };

    ghost left = { λ s. Some (left_of s) };

    ghost faults = { λ s. s.faults };

    fn next_line(&mut self, into: &mut LineRoom) -> Result<Taken, ReadFailed> {
        if self.begin() {
            self.faults = self.faults.saturating_add(1);
            return Err(ReadFailed);
        }
        match self.take() {
            Some(line) => Ok(into.put(line)),
            None => Ok(Taken::End),
        }
    }
}
