//! How many events are done, as text.
ghost use Rattle.std.specs.Prelude.{◌≡◌};
ghost use Rattle.driven_replay.specs.Marks.{mark_line, back_line, back_answer};

use crate::refusals::write_refusal;
use sn_text::{Fault, Line};

/// So many events are done.
pub(crate) fn write_mark(line: &mut Line, done: u64)
    ensures { line.new ≡ mark_line done }
{
    line.clear();
    line.text("{\"mark\":");
    line.number(done);
    line.text("}\n");
}

fn write_back(line: &mut Line, events: u64)
    ensures { line.new ≡ back_line events }
{
    line.clear();
    line.text("{\"back\":");
    line.number(events);
    line.text("}\n");
}

/// The line of this number goes back to so many events, of which so many are done.
#[tactic(auto, unfolding(crate::specs::Marks::back_answer))]
pub(crate) fn write_answer(line: &mut Line, done: u32, number: u64, events: u32)
    ensures { line.new ≡ back_answer done number events }
{
    if done < events {
        write_refusal(line, number, Fault::NotThere);
    } else {
        write_back(line, u64::from(events));
    }
}
