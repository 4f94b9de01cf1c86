//! The buffer that a row is written into, and the smallest parts of one.
ghost use Rattle.std.specs.Prelude.{◌≡◌, ◌+◌, ◌-◌, ◌*◌, ◌≤◌, ◌++◌, [], length, decimal, drop, codes, IfOk};
ghost use Rattle.std.specs.Fmt.{signed_decimal};
ghost use Rattle.text_lines.specs.Hex.{hex_word};
ghost use Rattle.sn_base.specs.Blocks.{bytes_of};
ghost use Rattle.access_texts.specs.Verdicts.{value_text};
ghost use Rattle.committed_accesses.specs.declared.row_line.TheConstants.{ROW_ROOM};

use itoa::Buffer;
use sn_base::{Memory, Width};
use std::alloc::Global;
use std::marker::Model;
use text_lines::hex_word;

/// The bytes that a line has room for: more than any row has.
pub const ROW_ROOM: usize = 128;

/// A row as it is written. It has all its room from the start and takes no memory after `new`. Contracts see the bytes.
#[derive(Drop)]
pub struct RowLine {
    text: Vec<u8>,
}

impl Model for RowLine {
    ghost use Rattle.std.specs.Prelude.{ℕ, List, ◌≤◌, vec_capacity};
    ghost use Rattle.committed_accesses.specs.declared.row_line.TheConstants.{ROW_ROOM};

    ghost Value = { List ℕ };

    ghost view = { λ l. l.text.items };

    ghost invariant = { λ l. ROW_ROOM ≤ vec_capacity l.text };
}

impl RowLine {
    pub fn new(alloc: Global) -> Result<RowLine, Memory>
        ensures { IfOk result (λ line. line ≡ []) }
    {
        let text = Vec::with_capacity(alloc, ROW_ROOM)?;
        Ok(RowLine { text })
    }

    pub fn clear(&mut self)
        ensures { self.new ≡ [] }
    {
        self.text.clear();
    }

    pub fn bytes(&self) -> &[u8]
        ensures { result.now ≡ self.now }
    {
        self.text.as_slice()
    }

    /// A text as it is.
    pub fn text(&mut self, text: &str)
        requires { length self.old + length text.now ≤ ROW_ROOM }
        ensures { self.new ≡ self.old ++ text.now }
    {
        self.text.extend_from_slice(text.as_bytes()).unwrap();
    }

    /// A number below 256, which has three digits at most.
    pub fn small(&mut self, number: u8)
        requires { length self.old + 3 ≤ ROW_ROOM }
        ensures text { self.new ≡ self.old ++ decimal number }
        ensures short { length self.new ≤ length self.old + 3 }
    {
        let mut buffer = Buffer::new();
        self.text(buffer.format(number));
    }

    /// A number below 2^32.
    pub fn number(&mut self, number: u32)
        requires { length self.old + 10 ≤ ROW_ROOM }
        ensures text { self.new ≡ self.old ++ decimal number }
        ensures short { length self.new ≤ length self.old + 10 }
    {
        let mut buffer = Buffer::new();
        self.text(buffer.format(number));
    }

    /// A number with its sign.
    pub fn signed(&mut self, number: i32)
        requires { length self.old + 11 ≤ ROW_ROOM }
        ensures text { self.new ≡ self.old ++ signed_decimal number }
        ensures short { length self.new ≤ length self.old + 11 }
    {
        let mut buffer = Buffer::new();
        self.text(buffer.format(number));
    }

    /// A word as eight hexadecimal digits.
    #[tactic(auto, unfolding(text_lines::specs::Hex::hex_word))]
    pub fn word(&mut self, word: u32)
        requires { length self.old + 8 ≤ ROW_ROOM }
        ensures text { self.new ≡ self.old ++ hex_word word }
        ensures short { length self.new ≡ length self.old + 8 }
    {
        self.text.extend_from_slice(&hex_word(word)).unwrap();
    }

    /// A value of so many bytes, two hexadecimal digits for each.
    #[tactic(auto, unfolding(text_lines::specs::Hex::hex_word))]
    pub fn value(&mut self, width: Width, value: u32)
        requires { length self.old + 8 ≤ ROW_ROOM }
        ensures text { self.new ≡ self.old ++ value_text width value }
        ensures short { length self.new ≤ length self.old + 8 }
    {
        let from = match width {
            Width::Byte => 6,
            Width::Half => 4,
            Width::Word => 0,
        };
        self.text
            .extend_from_slice(&hex_word(value)[from..])
            .unwrap();
    }
}
