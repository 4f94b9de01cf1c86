//! Where in a text a cause stands.
ghost use Rattle.std.specs.Prelude.{◌≡◌, ◌<◌, ◌^◌, length, option_map, Some};
ghost use Rattle.std.specs.List.{position};
ghost use Rattle.text_lines.specs.Lines.{is_line_feed, lines_of};
ghost use Rattle.reasons.specs.Places.{line_at, ended_line, record_line, is_skipped};

use text_lines::lines_of;

/// The line of a number, counted from 1, where the text has it. No text is what a file has that can't be read any more.
#[tactic(auto, unfolding(crate::specs::Places::line_at))]
pub fn line_at(text: &[u8], number: u64) -> Option<&[u8]>
    ensures { option_map (λ line. line.now) result ≡ line_at text.entry.now number }
{
    if text.is_empty() {
        return None;
    }
    let mut lines = lines_of(text);
    let mut left = number;
    'lines: while let Some(line) = lines.next_line() {
        if left <= 1 {
            return Some(line);
        }
        left -= 1;
    }
    None
}

// Where the LF is that ends the first line.
fn end_of_line(text: &[u8]) -> Option<usize>
    ensures { result ≡ position is_line_feed text.now }
{
    text.iter().position(|byte| *byte == b'\n')
}

/// The line of a number, counted from 1, where an LF ends it. A CR before that belongs to it.
#[tactic(auto, unfolding(crate::specs::Places::ended_line))]
pub fn ended_line(text: &[u8], number: u64) -> Option<&[u8]>
    ensures { option_map (λ line. line.now) result ≡ ended_line text.entry.now number }
{
    let mut rest = text;
    let mut left = number;
    'lines: while let Some(end) = end_of_line(rest) {
        if left <= 1 {
            return Some(&rest[..end]);
        }
        rest = &rest[end + 1..];
        left -= 1;
    }
    None
}

fn is_skipped(line: &[u8]) -> bool
    ensures { result ≡ is_skipped line.now }
{
    line.is_empty() || line[0] == b'#'
}

/// The number of the line that has the record of a place, counted from 1: empty lines and comments have none.
#[tactic(auto, unfolding(crate::specs::Places::record_line))]
pub fn record_line(text: &[u8], place: u64) -> Option<u64>
    requires { length text.now < 2 ^ 62 }
    ensures { result ≡ record_line text.now place }
{
    let mut lines = lines_of(text);
    let mut left = place;
    let mut number = 1u64;
    'lines: while let Some(line) = lines.next_line() {
        if !is_skipped(line) {
            if left <= 1 {
                return Some(number);
            }
            left -= 1;
        }
        number += 1;
    }
    None
}
