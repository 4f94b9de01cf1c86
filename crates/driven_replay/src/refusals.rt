//! Why lines are refused, as text.
ghost use Rattle.std.specs.Prelude.{◌≡◌};
ghost use Rattle.driven_replay.specs.Refusals.{refusal_line, too_many_line};

use sn_text::{Fault, Line};

/// Why the line of this number is refused.
pub(crate) fn write_refusal(line: &mut Line, number: u64, fault: Fault)
    ensures { line.new ≡ refusal_line number fault }
{
    let word = match fault {
        Fault::NotOfForm => "badline",
        Fault::NotThere => "outofrange",
    };
    line.clear();
    line.named(word, number);
    line.text("\n");
}

/// That there is no room for an event more.
pub(crate) fn write_too_many(line: &mut Line)
    ensures { line.new ≡ too_many_line }
{
    line.clear();
    line.text("toomany\n");
}
