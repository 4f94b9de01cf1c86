//! The buffer that a reason is written into, and its smallest parts.
ghost use Rattle.std.specs.Prelude.{◌≡◌, [], ◌∷◌, ◌++◌, decimal, codes, option_map, OnOk};
ghost use Rattle.text_lines.specs.Hex.{hex_word};
ghost use Rattle.reasons.specs.Reason.{escape_of, escaped_text, quotation_of, of_file, at_line, place, colon_and, too_long, begun, line_of_reason};

use itoa::Buffer;
use sn_base::Memory;
use std::alloc::Global;
use std::marker::Model;
use text_lines::{hex_byte, hex_word};

/// The most bytes of a line that are shown.
const MOST_SHOWN: usize = 60;

/// A reason as it is written. It grows, so each call may want memory; after one that had none the text is of no use.
/// Contracts see the bytes.
#[derive(Drop)]
pub struct Reason {
    text: Vec<u8>,
}

impl Model for Reason {
    ghost use Rattle.std.specs.Prelude.{ℕ, List};

    ghost Value = { List ℕ };

    ghost view = { λ r. r.text.items };
}

impl Reason {
    pub fn new(alloc: Global) -> Reason
        ensures { result ≡ [] }
    {
        Reason {
            text: Vec::new(alloc),
        }
    }

    pub fn bytes(&self) -> &[u8]
        ensures { result.now ≡ self.now }
    {
        self.text.as_slice()
    }

    fn extend(&mut self, bytes: &[u8]) -> Result<(), Memory>
        ensures { OnOk result (self.new ≡ self.old ++ bytes.now) }
    {
        self.text.extend_from_slice(bytes)?;
        Ok(())
    }

    /// A text as it is.
    pub fn text(&mut self, text: &str) -> Result<(), Memory>
        ensures { OnOk result (self.new ≡ self.old ++ text.now) }
    {
        self.extend(text.as_bytes())
    }

    pub fn number(&mut self, number: u64) -> Result<(), Memory>
        ensures { OnOk result (self.new ≡ self.old ++ decimal number) }
    {
        let mut buffer = Buffer::new();
        self.text(buffer.format(number))
    }

    /// A number between two texts.
    pub fn counted(&mut self, before: &str, number: u64, after: &str) -> Result<(), Memory>
        ensures { OnOk result (self.new ≡ self.old ++ before.now ++ decimal number ++ after.now) }
    {
        self.text(before)?;
        self.number(number)?;
        self.text(after)
    }

    /// A word as eight hexadecimal digits.
    pub fn word(&mut self, word: u32) -> Result<(), Memory>
        ensures { OnOk result (self.new ≡ self.old ++ hex_word word) }
    {
        self.extend(&hex_word(word))
    }

    /// A byte as it is.
    pub(crate) fn byte(&mut self, byte: u8) -> Result<(), Memory>
        ensures { OnOk result (self.new ≡ self.old ++ byte ∷ []) }
    {
        self.extend(&[byte])
    }

    // A byte as it is where it can be printed and is neither a quotation mark nor a backslash.
    fn escaped(&mut self, byte: u8) -> Result<(), Memory>
        ensures { OnOk result (self.new ≡ self.old ++ escape_of byte) }
    {
        if (b' '..=b'~').contains(&byte) && byte != b'"' && byte != b'\\' {
            self.byte(byte)
        } else {
            self.text("\\x")?;
            self.extend(&hex_byte(byte))
        }
    }

    /// Bytes of a file or of a word, each as one can see it.
    pub fn shown(&mut self, found: &[u8]) -> Result<(), Memory>
        ensures { OnOk result (self.new ≡ self.old ++ escaped_text found.now) }
    {
        'bytes: for byte in found {
            self.escaped(*byte)?;
        }
        Ok(())
    }

    fn between(&mut self, found: &[u8], end: &str) -> Result<(), Memory>
        ensures { OnOk result (self.new ≡ self.old ++ codes "\"" ++ escaped_text found.now ++ end.now) }
    {
        self.text("\"")?;
        self.shown(found)?;
        self.text(end)
    }

    /// The first 60 bytes that were found, between quotation marks; two dots stand behind them where there are more.
    #[tactic(auto, unfolding(crate::specs::Reason::quotation_of))]
    pub fn quoted(&mut self, found: &[u8]) -> Result<(), Memory>
        ensures { OnOk result (self.new ≡ self.old ++ quotation_of found.now) }
    {
        if found.len() > MOST_SHOWN {
            self.between(&found[..MOST_SHOWN], "\"..")
        } else {
            self.between(found, "\"")
        }
    }

    /// The file that is blamed.
    #[tactic(auto, unfolding(crate::specs::Reason::of_file))]
    pub fn of_file(&mut self, name: &str) -> Result<(), Memory>
        ensures { OnOk result (self.new ≡ self.old ++ of_file name.now) }
    {
        self.shown(name.as_bytes())?;
        self.text(": ")
    }

    /// The line that is blamed, counted from 1.
    #[tactic(auto, unfolding(crate::specs::Reason::at_line))]
    pub fn at_line(&mut self, name: &str, number: u64) -> Result<(), Memory>
        ensures { OnOk result (self.new ≡ self.old ++ at_line name.now number) }
    {
        self.shown(name.as_bytes())?;
        self.text(":")?;
        self.number(number)?;
        self.text(": ")
    }

    /// The file that is blamed, and the line in it, where there is one.
    pub fn place(&mut self, name: &str, line: Option<u64>) -> Result<(), Memory>
        ensures { OnOk result (self.new ≡ place self.old name.now line) }
    {
        match line {
            Some(number) => self.at_line(name, number),
            None => self.of_file(name),
        }
    }

    /// What was found, behind a colon.
    #[tactic(auto, unfolding(crate::specs::Reason::colon_and))]
    pub fn seen(&mut self, found: Option<&[u8]>) -> Result<(), Memory>
        ensures { OnOk result (self.new ≡ self.old ++ colon_and (option_map (λ found. found.now) found.entry)) }
    {
        let Some(found) = found else {
            return Ok(());
        };
        self.text(": ")?;
        self.quoted(found)
    }

    /// The file has more bytes than the limit.
    #[tactic(auto, unfolding(crate::specs::Reason::too_long))]
    pub fn too_long(&mut self, limit: u64) -> Result<(), Memory>
        ensures { OnOk result (self.new ≡ too_long self.old limit) }
    {
        self.counted("more than ", limit, " bytes")
    }

    /// How the line begins.
    #[tactic(auto, unfolding(crate::specs::Reason::begun))]
    pub fn begin(&mut self) -> Result<(), Memory>
        ensures { OnOk result (self.new ≡ begun self.old) }
    {
        self.text("# why: ")
    }

    #[tactic(auto, unfolding(crate::specs::Reason::line_of_reason))]
    pub fn end(&mut self) -> Result<(), Memory>
        ensures { OnOk result (self.new ≡ line_of_reason self.old) }
    {
        self.text("\n")
    }
}
