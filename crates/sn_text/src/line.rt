//! The buffer that texts are written into, and their smallest parts.
ghost use Rattle.std.specs.Prelude.{◌≡◌, ℕ, ◌+◌, ◌<◌, ◌≤◌, ◌^◌, ◌++◌, [], length, decimal, codes, IfOk};
ghost use Rattle.text_lines.specs.Hex.{hex_byte, hex_word};
ghost use Rattle.sn_text.specs.Text.{named_number, count_line, watch_line, probe_line};
ghost use Rattle.sn_text.specs.declared.line.TheConstants.{LINE_ROOM};

use itoa::Buffer;
use sn_base::Memory;
use std::alloc::Global;
use std::marker::Model;
use text_lines::{hex_byte, hex_word};

/// The bytes that a line has room for: enough for the group of any one event, a recovery of 16 nodes among them.
pub const LINE_ROOM: usize = 8_192;

/// A text as it is written, of one event's group at most. It has all its room from the start and takes no memory after `new`.
/// Contracts see the bytes.
#[derive(Drop)]
pub struct Line {
    text: Vec<u8>,
}

impl Model for Line {
    ghost use Rattle.std.specs.Prelude.{ℕ, List, ◌≤◌, vec_capacity};
    ghost use Rattle.sn_text.specs.declared.line.TheConstants.{LINE_ROOM};

    ghost Value = { List ℕ };

    ghost view = { λ l. l.text.items };

    ghost invariant = { λ l. LINE_ROOM ≤ vec_capacity l.text };
}

impl Line {
    pub fn new(alloc: Global) -> Result<Line, Memory>
        ensures { IfOk result (λ line. line ≡ []) }
    {
        let text = Vec::with_capacity(alloc, LINE_ROOM)?;
        Ok(Line { text })
    }

    pub fn clear(&mut self)
        ensures { self.new ≡ [] }
    {
        self.text.clear();
    }

    pub fn bytes(&self) -> &[u8]
        ensures { result.now ≡ self.now }
    {
        self.text.as_slice()
    }

    /// A text as it is.
    pub fn text(&mut self, text: &str)
        requires { length self.old + length text.now ≤ LINE_ROOM }
        ensures { self.new ≡ self.old ++ text.now }
    {
        self.text.extend_from_slice(text.as_bytes()).unwrap();
    }

    /// A number. The clause `number` here, and its like in the calls below, says what the type does, so that the layer above
    /// knows in its clauses that what it writes is read back.
    pub fn number(&mut self, number: u64)
        requires { length self.old + 20 ≤ LINE_ROOM }
        ensures text { self.new ≡ self.old ++ decimal number }
        ensures short { length self.new ≤ length self.old + 20 }
        ensures number { number < 2 ^ 64 }
    {
        let mut buffer = Buffer::new();
        self.text(buffer.format(number));
    }

    /// A name, a blank and a number.
    pub fn named(&mut self, name: &str, number: u64)
        requires { length self.old + length name.now + 21 ≤ LINE_ROOM }
        ensures text { self.new ≡ self.old ++ named_number name.now number }
        ensures short { length self.new ≤ length self.old + length name.now + 21 }
        ensures number { number < 2 ^ 64 }
    {
        self.text(name);
        self.text(" ");
        self.number(number);
    }

    /// A number below 256, which has three digits at most.
    pub(crate) fn small(&mut self, number: u8)
        requires { length self.old + 3 ≤ LINE_ROOM }
        ensures text { self.new ≡ self.old ++ decimal number }
        ensures short { length self.new ≤ length self.old + 3 }
    {
        let mut buffer = Buffer::new();
        self.text(buffer.format(number));
    }

    /// A name, a blank and such a number.
    pub(crate) fn named_small(&mut self, name: &str, number: u8)
        requires { length self.old + length name.now + 4 ≤ LINE_ROOM }
        ensures text { self.new ≡ self.old ++ named_number name.now number }
        ensures short { length self.new ≤ length self.old + length name.now + 4 }
    {
        self.text(name);
        self.text(" ");
        self.small(number);
    }

    /// A byte as two hexadecimal digits.
    #[tactic(auto, unfolding(text_lines::specs::Hex::hex_byte))]
    pub fn byte(&mut self, byte: u8)
        requires { length self.old + 2 ≤ LINE_ROOM }
        ensures text { self.new ≡ self.old ++ hex_byte byte }
        ensures number { byte < 256 }
        ensures short { length self.new ≡ length self.old + 2 }
    {
        self.text.extend_from_slice(&hex_byte(byte)).unwrap();
    }

    /// A word as eight hexadecimal digits.
    #[tactic(auto, unfolding(text_lines::specs::Hex::hex_word))]
    pub(crate) fn word(&mut self, word: u32)
        requires { length self.old + 8 ≤ LINE_ROOM }
        ensures text { self.new ≡ self.old ++ hex_word word }
        ensures number { word < 2 ^ 32 }
        ensures short { length self.new ≡ length self.old + 8 }
    {
        self.text.extend_from_slice(&hex_word(word)).unwrap();
    }

    /// A line of a name and a number.
    #[tactic(auto, unfolding(crate::specs::Text::count_line))]
    pub fn count(&mut self, before: &str, name: &str, number: u64)
        requires room { length self.old + 64 ≤ LINE_ROOM }
        requires before_short { length before.now ≤ 2 }
        requires name_short { length name.now ≤ 16 }
        ensures text { self.new ≡ self.old ++ count_line before.now name.now number }
        ensures short { length self.new ≤ length self.old + 64 }
    {
        self.text(before);
        self.named(name, number);
        self.text("\n");
    }

    /// The line of a watched word and its address.
    #[tactic(auto, unfolding(crate::specs::Text::watch_line))]
    pub fn watch(&mut self, before: &str, address: u32, word: u32)
        requires room { length self.old + 32 ≤ LINE_ROOM }
        requires before_short { length before.now ≤ 2 }
        ensures text { self.new ≡ self.old ++ watch_line before.now address word }
        ensures short { length self.new ≤ length self.old + 32 }
    {
        self.text(before);
        self.text("watch ");
        self.word(address);
        self.text(" ");
        self.word(word);
        self.text("\n");
    }

    /// The line of one number of a probe: the probe's place among the probes, the number's place among its numbers, and the
    /// number.
    #[tactic(auto, unfolding(crate::specs::Text::probe_line))]
    pub fn probe(&mut self, before: &str, probe: u64, place: u64, value: u64)
        requires room { length self.old + 80 ≤ LINE_ROOM }
        requires before_short { length before.now ≤ 2 }
        ensures text { self.new ≡ self.old ++ probe_line before.now probe place value }
        ensures short { length self.new ≤ length self.old + 80 }
    {
        self.text(before);
        self.named("probe", probe);
        self.named("", place);
        self.named("", value);
        self.text("\n");
    }
}
