//! The lines of a save file, each appended to a line of text that has the room.
ghost use Rattle.std.specs.Prelude.{◌≡◌, ◌+◌, ◌≤◌, ◌++◌, length};
ghost use Rattle.save_text.specs.Text.{head_line, config_line, marks_line, dead_line, owner_line, given_line, record_line, end_line};

use rv_core::Record;
use sn_base::{BlockNo, Config, Interval, MsgId, NodeId, SwitchId};
use sn_text::Line;

pub fn write_head(line: &mut Line)
    requires { length line.old + 128 ≤ 8192 }
    ensures { line.new ≡ line.old ++ head_line }
{
    line.text("safetynet-save 1\n");
}

/// The sizes.
#[tactic(auto, unfolding(crate::specs::Text::config_line))]
pub fn write_config(line: &mut Line, config: &Config)
    requires { length line.old + 128 ≤ 8192 }
    ensures { line.new ≡ line.old ++ config_line config.now }
{
    line.named("config", u64::from(config.nodes));
    line.named("", u64::from(config.sets));
    line.named("", u64::from(config.ways));
    line.named("", u64::from(config.log));
    line.text("\n");
}

/// The recovery point, the number of the next message, and how many events were applied.
#[tactic(auto, unfolding(crate::specs::Text::marks_line))]
pub fn write_marks(line: &mut Line, point: Interval, next_id: MsgId, applied: u32)
    requires { length line.old + 128 ≤ 8192 }
    ensures { line.new ≡ line.old ++ marks_line point next_id applied }
{
    line.named("marks", u64::from(point));
    line.named("", next_id);
    line.named("", u64::from(applied));
    line.text("\n");
}

/// A dead switch.
#[tactic(auto, unfolding(crate::specs::Text::dead_line))]
pub fn write_dead(line: &mut Line, switch: SwitchId)
    requires { length line.old + 128 ≤ 8192 }
    ensures { line.new ≡ line.old ++ dead_line switch }
{
    line.text("dead ");
    line.switch(switch);
    line.text("\n");
}

/// A block that a node's cache owns.
#[tactic(auto, unfolding(crate::specs::Text::owner_line))]
pub fn write_owner(line: &mut Line, block: BlockNo, node: NodeId)
    requires { length line.old + 128 ≤ 8192 }
    ensures { line.new ≡ line.old ++ owner_line (block, node) }
{
    line.named("owner", u64::from(block.number()));
    line.named("", u64::from(node.number()));
    line.text("\n");
}

/// A byte that was given to a node.
#[tactic(auto, unfolding(crate::specs::Text::given_line))]
pub fn write_given(line: &mut Line, node: NodeId, byte: u8)
    requires { length line.old + 128 ≤ 8192 }
    ensures { line.new ≡ line.old ++ given_line (node, byte) }
{
    line.named("given", u64::from(node.number()));
    line.text(" ");
    line.byte(byte);
    line.text("\n");
}

/// A record of the committed trace.
#[tactic(auto, unfolding(crate::specs::Text::record_line))]
pub fn write_record(line: &mut Line, taken: &Record)
    requires { length line.old + 128 ≤ 8192 }
    ensures { line.new ≡ line.old ++ record_line taken.now }
{
    line.text("rec ");
    line.trace(taken);
}

pub fn write_end(line: &mut Line)
    requires { length line.old + 128 ≤ 8192 }
    ensures { line.new ≡ line.old ++ end_line }
{
    line.text("end\n");
}
