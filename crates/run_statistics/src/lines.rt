//! The lines of statistics, written into a line's buffer.
ghost use Rattle.std.specs.Prelude.{◌≡◌, ◌+◌, ◌*◌, ◌<◌, ◌≤◌, ◌++◌, [], length, slice_index, slice_index_or};
ghost use Rattle.sn_text.specs.declared.line.TheConstants.{LINE_ROOM};
ghost use Rattle.run_statistics.specs.Lines.{answer_names, kind_names, lead_names, stat_line, named_lines, spread_lines, answer_lines};
ghost use Rattle.run_statistics.specs.Lines.{message_lines, wait_lines, recovered_lines, node_line, instructions_of_node, lines_of_node, recovery_line};

use crate::instructions::InstructionStatistics;
use crate::messages::MessageStatistics;
use crate::names::{answer_name, kind_name, lead_name};
use crate::numbers::Numbers;
use crate::recoveries::{Recovery, RecoveryStatistics};
use crate::spread::Spread;
use crate::statistics::Statistics;
use sn_base::NodeId;
use sn_text::Line;

/// A line of the machine's.
fn write_stat(line: &mut Line, name: &str, value: u64)
    requires room { length line.old + 64 ≤ LINE_ROOM }
    requires name_short { length name.now ≤ 32 }
    ensures text { line.new ≡ line.old ++ stat_line name.now value }
    ensures short { length line.new ≤ length line.old + 64 }
{
    line.text("stat ");
    line.named(name, value);
    line.text("\n");
}

/// How often each answer came.
#[tactic(auto, unfolding(crate::specs::Lines::named_lines))]
fn write_answers(line: &mut Line, x: &Statistics)
    requires room { length line.old + 2048 ≤ LINE_ROOM }
    ensures { line.new ≡ line.old ++ named_lines answer_names x.now.answers 32 }
{
    'places: for place in 0..32 {
        write_stat(line, answer_name(place), x.answers.at(place));
    }
}

/// How many messages of each kind were sent.
#[tactic(auto, unfolding(crate::specs::Lines::named_lines))]
fn write_kinds(line: &mut Line, x: &MessageStatistics)
    requires room { length line.old + 1088 ≤ LINE_ROOM }
    ensures text { line.new ≡ line.old ++ named_lines kind_names x.now.sent 17 }
    ensures short { length line.new ≤ length line.old + 1088 }
{
    'places: for place in 0..17 {
        write_stat(line, kind_name(place), x.sent.at(place));
    }
}

/// How many recoveries each cause led to.
#[tactic(auto, unfolding(crate::specs::Lines::named_lines))]
fn write_leads(line: &mut Line, x: &RecoveryStatistics)
    requires room { length line.old + 192 ≤ LINE_ROOM }
    ensures text { line.new ≡ line.old ++ named_lines lead_names x.now.leads 3 }
    ensures short { length line.new ≤ length line.old + 192 }
{
    'places: for place in 0..3 {
        write_stat(line, lead_name(place), x.leads.at(place));
    }
}

/// A measure.
fn write_spread(line: &mut Line, count: &str, sum: &str, greatest: &str, x: &Spread)
    requires room { length line.old + 192 ≤ LINE_ROOM }
    requires count_short { length count.now ≤ 32 }
    requires sum_short { length sum.now ≤ 32 }
    requires greatest_short { length greatest.now ≤ 32 }
    ensures text { line.new ≡ line.old ++ spread_lines count.now sum.now greatest.now x.now }
    ensures short { length line.new ≤ length line.old + 192 }
{
    write_stat(line, count, x.count);
    write_stat(line, sum, x.sum);
    write_stat(line, greatest, x.greatest);
}

/// The events and their answers.
#[tactic(auto, unfolding(crate::specs::Lines::answer_lines))]
pub fn write_answer_lines(line: &mut Line, x: &Statistics)
    ensures { line.new ≡ answer_lines x.now }
{
    line.clear();
    write_stat(line, "events", x.events);
    write_answers(line, x);
}

/// The messages.
#[tactic(auto, unfolding(crate::specs::Lines::message_lines))]
pub fn write_message_lines(line: &mut Line, x: &MessageStatistics)
    ensures { line.new ≡ message_lines x.now }
{
    line.clear();
    write_kinds(line, x);
    write_stat(line, "lost_at_once", x.lost_at_once);
    write_stat(line, "lost_in_switch", x.lost_in_switch);
}

/// How long intervals and bytes waited.
#[tactic(auto, unfolding(crate::specs::Lines::wait_lines))]
pub fn write_wait_lines(line: &mut Line, x: &Statistics)
    ensures { line.new ≡ wait_lines x.now }
{
    line.clear();
    write_spread(
        line,
        "validation_events_count",
        "validation_events_sum",
        "validation_events_greatest",
        &x.intervals.events,
    );
    write_spread(
        line,
        "validation_instructions_count",
        "validation_instructions_sum",
        "validation_instructions_greatest",
        &x.intervals.instructions,
    );
    write_spread(
        line,
        "release_events_count",
        "release_events_sum",
        "release_events_greatest",
        &x.bytes.waits,
    );
}

/// What led to recoveries, and what they took back.
#[tactic(auto, unfolding(crate::specs::Lines::recovered_lines))]
pub fn write_recovered_lines(line: &mut Line, x: &RecoveryStatistics)
    ensures { line.new ≡ recovered_lines x.now }
{
    line.clear();
    write_leads(line, x);
    write_spread(
        line,
        "undone_instructions_count",
        "undone_instructions_sum",
        "undone_instructions_greatest",
        &x.instructions,
    );
    write_spread(
        line,
        "undone_entries_count",
        "undone_entries_sum",
        "undone_entries_greatest",
        &x.entries,
    );
    write_spread(
        line,
        "dropped_messages_count",
        "dropped_messages_sum",
        "dropped_messages_greatest",
        &x.messages,
    );
}

/// A line of a node's, whose numbers these are.
fn write_of_node(line: &mut Line, node: NodeId, name: &str, numbers: &Numbers)
    requires room { length line.old + 96 ≤ LINE_ROOM }
    requires name_short { length name.now ≤ 32 }
    ensures text { line.new ≡ line.old ++ node_line node name.now (slice_index numbers.now node) }
    ensures short { length line.new ≤ length line.old + 96 }
{
    line.named("stat", u64::from(node.number()));
    line.text(" ");
    line.named(name, numbers.at(usize::from(node.number())));
    line.text("\n");
}

/// The instructions of a node.
#[tactic(auto, unfolding(crate::specs::Lines::instructions_of_node))]
fn write_instructions(line: &mut Line, x: &InstructionStatistics, node: NodeId)
    requires room { length line.old + 480 ≤ LINE_ROOM }
    ensures text { line.new ≡ line.old ++ instructions_of_node x.now node }
    ensures short { length line.new ≤ length line.old + 480 }
{
    write_of_node(line, node, "retired", &x.retired);
    write_of_node(line, node, "committed", &x.committed);
    write_of_node(line, node, "taken_back", &x.taken_back);
    write_of_node(line, node, "waiting", &x.waiting);
    write_of_node(line, node, "most_waiting", &x.most_waiting);
}

/// All of a node.
#[tactic(auto, unfolding(crate::specs::Lines::lines_of_node))]
pub fn write_node_lines(line: &mut Line, x: &Statistics, node: NodeId)
    ensures { line.new ≡ lines_of_node x.now node }
{
    line.clear();
    write_instructions(line, &x.instructions, node);
    write_of_node(line, node, "most_entries", &x.logs.most_entries);
    write_of_node(line, node, "most_checkpoints", &x.logs.most_checkpoints);
    write_of_node(line, node, "most_owned", &x.most_owned);
    write_of_node(line, node, "most_held", &x.bytes.most_held);
}

/// A recovery, by its number from 1.
#[tactic(auto, unfolding(crate::specs::Lines::recovery_line))]
pub fn write_recovery(line: &mut Line, number: u64, recovery: &Recovery)
    ensures { line.new ≡ recovery_line number recovery.now }
{
    line.clear();
    line.named("stat recovery", number);
    line.named(" at", recovery.at);
    line.named(" to", u64::from(recovery.to));
    line.named(" undone", recovery.instructions);
    line.named(" entries", recovery.entries);
    line.named(" messages", recovery.messages);
    line.text("\n");
}
