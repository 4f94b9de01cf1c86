//! The line of a control and its answer.
ghost use Rattle.std.specs.Prelude.{◌≡◌, ◌+◌, ◌≤◌, ◌++◌, length};
ghost use Rattle.sn_text.specs.Text.{named_number};
ghost use Rattle.rolled_replay.specs.Text.{control_text, reply_text, control_line};
ghost use Rattle.sn_text.specs.declared.line.TheConstants.{LINE_ROOM};

use crate::reply::Reply;
use rolling_recovery::Control;
use sn_base::NodeId;
use sn_text::Line;

fn write_node(line: &mut Line, name: &str, node: NodeId)
    requires { length line.old + length name.now + 21 ≤ LINE_ROOM }
    ensures text { line.new ≡ line.old ++ named_number name.now node }
    ensures short { length line.new ≤ length line.old + length name.now + 21 }
{
    line.named(name, u64::from(node.number()));
}

fn write_control(line: &mut Line, control: &Control)
    requires { length line.old + 40 ≤ LINE_ROOM }
    ensures text { line.new ≡ line.old ++ control_text control.now }
    ensures short { length line.new ≤ length line.old + 40 }
{
    match control {
        Control::Order(node) => write_node(line, "order", *node),
        Control::Repeat(id) => line.named("repeat", *id),
        Control::Lose(id) => line.named("lose", *id),
        Control::Deliver(id) => line.named("deliver", *id),
        Control::Finish => line.text("finish"),
    }
}

fn write_reply(line: &mut Line, reply: &Reply)
    requires { length line.old + 100 ≤ LINE_ROOM }
    ensures text { line.new ≡ line.old ++ reply_text reply.now }
    ensures short { length line.new ≤ length line.old + 100 }
{
    match reply {
        Reply::Ordered(id) => line.named("ordered", *id),
        Reply::Repeated(id) => line.named("repeated", *id),
        Reply::Full => line.text("full"),
        Reply::NoMessage => line.text("nomessage"),
        Reply::Lost => line.text("lost"),
        Reply::Restored(count) => line.named("restored", u64::from(*count)),
        Reply::Again => line.text("again"),
        Reply::Noted => line.text("noted"),
        Reply::NotDone(node) => write_node(line, "notdone", *node),
        Reply::CutOff(a, b) => {
            write_node(line, "cutoff", *a);
            write_node(line, "", *b);
        }
        Reply::Finished(undo) => {
            line.named("finished", u64::from(undo.to));
            line.named(" undone", u64::from(undo.undone));
            line.named(" dropped", u64::from(undo.dropped));
        }
        Reply::Over => line.text("over"),
    }
}

/// The line of a control: its place from 1, the control as its file has it, and its answer.
#[tactic(auto, unfolding(crate::specs::Text::control_line))]
pub fn write_line(line: &mut Line, place: u64, control: &Control, reply: &Reply)
    ensures { line.new ≡ control_line place control.now reply.now }
{
    line.clear();
    line.number(place);
    line.text(" ");
    write_control(line, control);
    line.text(": ");
    write_reply(line, reply);
    line.text("\n");
}
