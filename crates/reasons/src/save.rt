//! Why a save file is refused.
ghost use Rattle.std.specs.Prelude.{◌≡◌, option_map, OnOk};
ghost use Rattle.reasons.specs.Reason.{begun, line_of_reason};
ghost use Rattle.reasons.specs.Ends.{cut_off};
ghost use Rattle.reasons.specs.Saves.{no_such_line, no_end, bad_line, out_of_range, set_full, not_legal, unread, line_of, what_of, save_reason};

use crate::ends::write_nodes_cut_off;
use crate::place::ended_line;
use crate::reason::Reason;
use save_text::SaveCause;
use sn_base::{Memory, NodeId};

#[tactic(auto, unfolding(crate::specs::Saves::no_such_line))]
fn write_no_such_line(reason: &mut Reason, line: Option<&[u8]>) -> Result<(), Memory>
    ensures { OnOk result (reason.new ≡ no_such_line reason.old (option_map (λ line. line.now) line.entry)) }
{
    reason.text("no line of a save file that may stand here")?;
    reason.seen(line)
}

#[tactic(auto, unfolding(crate::specs::Saves::no_end))]
fn write_no_end(reason: &mut Reason) -> Result<(), Memory>
    ensures { OnOk result (reason.new ≡ no_end reason.old) }
{
    reason.text("the file ends here, and not with the line `end` and its LF")
}

fn write_bad_line(reason: &mut Reason, bytes: &[u8], line: Option<&[u8]>) -> Result<(), Memory>
    ensures { OnOk result (reason.new ≡ bad_line reason.old bytes.now (option_map (λ line. line.now) line.entry)) }
{
    if bytes.is_empty() {
        return write_no_such_line(reason, None);
    }
    match line {
        Some(line) => write_no_such_line(reason, Some(line)),
        None => write_no_end(reason),
    }
}

#[tactic(auto, unfolding(crate::specs::Saves::out_of_range))]
fn write_out_of_range(reason: &mut Reason, line: Option<&[u8]>) -> Result<(), Memory>
    ensures { OnOk result (reason.new ≡ out_of_range reason.old (option_map (λ line. line.now) line.entry)) }
{
    reason.text(
        "a number that no saved machine has, or a line that is one too many or out of its order",
    )?;
    reason.seen(line)
}

#[tactic(auto, unfolding(crate::specs::Saves::set_full))]
fn write_set_full(reason: &mut Reason, line: Option<&[u8]>) -> Result<(), Memory>
    ensures { OnOk result (reason.new ≡ set_full reason.old (option_map (λ line. line.now) line.entry)) }
{
    reason.text("the set of that block has no place left in the cache of that node")?;
    reason.seen(line)
}

#[tactic(auto, unfolding(crate::specs::Saves::not_legal))]
fn write_not_legal(reason: &mut Reason, number: u64) -> Result<(), Memory>
    ensures { OnOk result (reason.new ≡ not_legal reason.old number) }
{
    reason.counted(
        "this program doesn't do the instruction of `rec` line ",
        number,
        " after those before it",
    )
}

#[tactic(auto, unfolding(crate::specs::Saves::unread))]
fn write_unread(reason: &mut Reason, node: NodeId) -> Result<(), Memory>
    ensures { OnOk result (reason.new ≡ unread reason.old node) }
{
    reason.counted(
        "node ",
        u64::from(node.number()),
        " has read bytes that its `given` lines don't give from the first on",
    )
}

fn line_of(cause: &SaveCause) -> Option<u64>
    ensures { result ≡ line_of cause.now }
{
    match cause {
        SaveCause::BadLine(number) | SaveCause::OutOfRange(number) | SaveCause::SetFull(number) =>
            Some(*number),
        SaveCause::TooLong
        | SaveCause::CutOff(_, _)
        | SaveCause::NotLegal(_)
        | SaveCause::Unread(_) => None,
    }
}

fn write_what(reason: &mut Reason, bytes: &[u8], cause: SaveCause) -> Result<(), Memory>
    ensures { OnOk result (reason.new ≡ what_of reason.old bytes.now cause) }
{
    match cause {
        SaveCause::TooLong => reason.too_long(67_108_864),
        SaveCause::BadLine(number) => write_bad_line(reason, bytes, ended_line(bytes, number)),
        SaveCause::OutOfRange(number) => write_out_of_range(reason, ended_line(bytes, number)),
        SaveCause::CutOff(a, b) => write_nodes_cut_off(reason, a, b),
        SaveCause::SetFull(number) => write_set_full(reason, ended_line(bytes, number)),
        SaveCause::NotLegal(number) => write_not_legal(reason, number),
        SaveCause::Unread(node) => write_unread(reason, node),
    }
}

/// The line that says why a save file is refused. Without the file's bytes it says less.
#[tactic(auto, unfolding(crate::specs::Saves::save_reason))]
pub fn write_save(
    reason: &mut Reason,
    name: &str,
    bytes: &[u8],
    cause: SaveCause,
) -> Result<(), Memory>
    ensures { OnOk result (reason.new ≡ line_of_reason (save_reason (begun reason.old) name.now bytes.now cause)) }
{
    reason.begin()?;
    reason.place(name, line_of(&cause))?;
    write_what(reason, bytes, cause)?;
    reason.end()
}
