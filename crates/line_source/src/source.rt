//! What a source of lines promises.
ghost use Rattle.std.specs.Prelude.{◌≡◌, ℕ, List, [], Option, ◌≤◌, length, Ok, OnErr, IfSome};
ghost use Rattle.sn_io.specs.Outside.{Rose};
ghost use Rattle.line_source.specs.Lines.{LineRead, taken_by, lines_and, first_of_lines};
ghost use Rattle.line_source.specs.declared.room.TheConstants.{LINE_MOST};

use crate::room::LineRoom;

/// What a source gave.
#[derive(Clone, Copy, PartialEq, Eq, Debug)]
pub enum Taken {
    /// A line, which is in the room.
    Whole,
    /// A line that is longer than may be. Nothing of it is kept.
    Longer,
    /// No line: its end has come.
    End,
}

/// A source failed to read.
#[derive(Clone, Copy, PartialEq, Eq, Debug)]
pub struct ReadFailed;

/// Lines one after another.
///
/// `read` is every line that was read, and `left` those that are still to come; None where the source doesn't tell. `faults`
/// counts its failures and stands at the last value of its type once it has come there.
pub trait Lines {
    ghost read: { Self → Option (List LineRead) };

    ghost left: { Self → Option (List LineRead) };

    ghost faults: { Self → ℕ };

    /// Reads the next line, without its end, into the room, and none after it. The last line may lack its end.
    fn next_line(&mut self, into: &mut LineRoom) -> Result<Taken, ReadFailed>
        ensures read { read self.new ≡ lines_and (read self.old) (taken_by result into.new) }
        ensures left { left self.old ≡ first_of_lines (taken_by result into.new) (left self.new) }
        ensures end { result ≡ Ok Taken.End → IfSome (left self.old) (λ lines. lines ≡ []) }
        ensures short { result ≡ Ok Taken.Whole → length into.new ≤ LINE_MOST }
        ensures later { faults self.old ≤ faults self.new }
        ensures cause { OnErr result (Rose (faults self.old) (faults self.new)) };
}
