//! The lines of a text, one after another, and numbers in hexadecimal digits.
//!
//! A line is ended by LF, or by CR and LF; the last may lack its end. So a text that ends with LF has an empty line after it,
//! and an empty text has one empty line. A CR that no LF follows belongs to its line. The layer above sees the list of the
//! lines that are left. Nothing here takes memory, and each byte is looked at once.
#![tactic(auto)]

ghost use Rattle.std.specs.Prelude.{◌≡◌, ◌+◌, ◌≤◌, ◌∷◌, [], length, IfSome, IsNone};
ghost use Rattle.std.specs.List.{position};
ghost use Rattle.text_lines.specs.Lines.{is_line_feed, without_return, lines_of};

mod hex;

pub use hex::{hex_byte, hex_word};
use std::marker::Model;

/// The lines of a text that are left. Contracts see the list of them, without their ends.
#[derive(Drop)]
pub struct Lines<'a> {
    rest: &'a [u8],
    is_over: bool,
}

impl<'a> Model for Lines<'a> {
    ghost use Rattle.std.specs.Prelude.{ℕ, List};
    ghost use Rattle.text_lines.specs.Lines.{left_of};

    ghost Value = { List (List ℕ) };

    ghost view = { λ l. left_of l.is_over l.rest.now };
}

fn without_return(line: &[u8]) -> &[u8]
    ensures { result.now ≡ without_return line.entry.now }
{
    match line.last() {
        Some(b'\r') => &line[..line.len() - 1],
        _ => line,
    }
}

/// Where the LF is that ends the first line.
fn end_of_line(text: &[u8]) -> Option<usize>
    ensures { result ≡ position is_line_feed text.now }
{
    text.iter().position(|byte| *byte == b'\n')
}

/// The lines of a text, from its first.
pub fn lines_of(text: &[u8]) -> Lines<'_>
    ensures all { result ≡ lines_of text.now }
    ensures few { length result ≤ length text.now + 1 }
{
    Lines {
        rest: text,
        is_over: false,
    }
}

impl<'a> Lines<'a> {
    /// Takes the next line; None after the last.
    pub fn next_line(&mut self) -> Option<&'a [u8]>
        ensures none { IsNone result → self.old ≡ [] }
        ensures some { IfSome result (λ line. self.old ≡ line.now ∷ self.new) }
    {
        if self.is_over {
            return None;
        }
        let rest = self.rest;
        match end_of_line(rest) {
            Some(end) => {
                self.rest = &rest[end + 1..];
                Some(without_return(&rest[..end]))
            }
            None => {
                self.is_over = true;
                Some(rest)
            }
        }
    }
}
