//! The lines of a block beside those of its run.
ghost use Rattle.std.specs.Prelude.{◌≡◌, ◌+◌, ◌≤◌, ◌++◌, length};
ghost use Rattle.sn_text.specs.declared.line.TheConstants.{LINE_ROOM};
ghost use Rattle.seed_runs.specs.Text.{seed_line, ending_text, end_line};

use ordered_run::node_run::Ending;
use sn_text::{Line, trap_name};

/// The line that begins a block.
pub(crate) fn write_seed(line: &mut Line, seed: u64)
    ensures { line.new ≡ seed_line seed }
{
    line.clear();
    line.count("", "seed", seed);
}

fn write_ending(line: &mut Line, ending: &Ending)
    requires { length line.old + 100 ≤ LINE_ROOM }
    ensures text { line.new ≡ line.old ++ ending_text ending.now }
    ensures short { length line.new ≤ length line.old + 100 }
{
    match ending {
        Ending::Exited => line.text("done"),
        Ending::Trapped(node, cause) => {
            line.named("trapped", u64::from(node.number()));
            line.text(" ");
            line.text(trap_name(*cause));
        }
        Ending::CutOff(a, b) => {
            line.named("cutoff", u64::from(a.number()));
            line.named("", u64::from(b.number()));
        }
        Ending::Spent => line.text("budget"),
    }
}

/// The line that ends it.
#[tactic(auto, unfolding(crate::specs::Text::end_line))]
pub(crate) fn write_end(line: &mut Line, ending: &Ending)
    ensures { line.new ≡ end_line ending.now }
{
    line.clear();
    line.text("end ");
    write_ending(line, ending);
    line.text("\n");
}
