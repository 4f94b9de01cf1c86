//! A source over a reader: a trusted edge.
ghost use Rattle.std.specs.Prelude.{◌≡◌, [], Some, Ok, IfOk, IfSome, OnOk, ◌≤◌, length};
ghost use Rattle.std.specs.List.{position};
ghost use Rattle.text_lines.specs.Lines.{is_line_feed};
ghost use Rattle.line_source.specs.Lines.{taken_by};
ghost use Rattle.line_source.specs.Reading.{TakesPiece, first_from, line_in};
ghost use Rattle.line_source.specs.declared.room.TheConstants.{LINE_MOST};

use crate::room::LineRoom;
use crate::source::{Lines, ReadFailed, Taken};
use std::io::BufRead;

/// Lines of any reader that holds bytes ready, each ended by LF, or by CR and LF. It tells nothing of them. An error of the
/// reader is a failure.
///
/// It takes what the reader holds of a line in one piece, and asks it for more only where the line's end isn't among what it
/// holds: so it waits for no byte that the line doesn't need.
#[derive(Drop)]
pub struct ReaderLines<R: BufRead + Drop> {
    reader: R,
    faults: u64,
}

impl<R: BufRead + Drop> ReaderLines<R> {
    pub fn new(reader: R) -> ReaderLines<R>
        ensures { result ≡ record { reader = reader; faults = 0 } }
    {
        ReaderLines { reader, faults: 0 }
    }
}

/// How a piece of a line ends.
#[derive(Clone, Copy, PartialEq, Eq, Debug)]
enum Piece {
    /// By an LF, the line's end.
    Ended,
    /// Where the reader holds no more; the line goes on.
    Open,
    /// No byte is left.
    Over,
}

// Where the LF is that ends the line.
fn end_of_line(held: &[u8]) -> Option<usize>
    ensures { result ≡ position is_line_feed held.now }
{
    held.iter().position(|byte| *byte == b'\n')
}

// Takes into the room what the reader holds of the line.
fn take_piece<R: BufRead>(reader: &mut R, into: &mut LineRoom) -> Result<Piece, ReadFailed>
    ensures { IfSome (R.remaining reader.old) (λ bytes. IfOk result (TakesPiece bytes (R.remaining reader.new) into.old into.new)) }
{
    let held = match reader.fill_buf() {
        Ok(held) => held,
        Err(_) => return Err(ReadFailed),
    };
    if held.is_empty() {
        return Ok(Piece::Over);
    }
    match end_of_line(held) {
        Some(end) => {
            into.add(&held[..end]);
            reader.consume(end + 1);
            Ok(Piece::Ended)
        }
        None => {
            let count = held.len();
            into.add(held);
            reader.consume(count);
            Ok(Piece::Open)
        }
    }
}

// Reads the first line of those that are left. It gives up after 2^64 pieces.
fn read_line<R: BufRead>(reader: &mut R, into: &mut LineRoom) -> Result<Taken, ReadFailed>
    ensures line { IfSome (R.remaining reader.old) (λ bytes. IfOk result (λ taken. taken_by (Ok taken) into.new ≡ line_in bytes)) }
    ensures rest { OnOk result (IfSome (R.remaining reader.old) (λ bytes. R.remaining reader.new ≡ Some (first_from [] bytes).1)) }
    ensures short { result ≡ Ok Taken.Whole → length into.new ≤ LINE_MOST }
{
    into.clear();
    'reading: for _ in 0..u64::MAX {
        match take_piece(reader, into)? {
            Piece::Ended => {
                into.cut_return();
                return Ok(into.judge());
            }
            Piece::Open => {}
            Piece::Over if into.bytes().is_empty() => return Ok(Taken::End),
            Piece::Over => return Ok(into.judge()),
        }
    }
    Err(ReadFailed)
}

impl<R: BufRead + Drop> Lines for ReaderLines<R> {
    ghost use Rattle.std.specs.Prelude.{None};

    ghost read = { λ s. None };

    ghost left = { λ s. None };

    ghost faults = { λ s. s.faults };

    fn next_line(&mut self, into: &mut LineRoom) -> Result<Taken, ReadFailed> {
        match read_line(&mut self.reader, into) {
            Ok(taken) => Ok(taken),
            Err(_) => {
                self.faults = self.faults.saturating_add(1);
                Err(ReadFailed)
            }
        }
    }
}
