//! Why a call ended that was not refused, or that wanted what the system didn't give.
ghost use Rattle.std.specs.Prelude.{◌≡◌, ◌++◌, OnOk};
ghost use Rattle.reasons.specs.Reason.{of_file, too_long, begun, line_of_reason};
ghost use Rattle.reasons.specs.Ends.{lack_text, lack_reason, unread_text, unread, spent_reason, cut_off, trap_text, trap_reason};

use crate::reason::Reason;
use rv_core::Cause;
use sn_base::{Memory, NodeId};

/// What a call lacked of the system.
#[derive(Clone, Copy, PartialEq, Eq, Debug)]
pub enum Lack {
    /// A sink failed.
    Output,
    Memory,
    /// A file couldn't be read the first time, and nothing is wrong with any of them now.
    File,
    /// A word isn't UTF-8.
    Text,
}

/// Why a file can't be read.
#[derive(Clone, Copy, PartialEq, Eq, Debug)]
pub enum Unread {
    NotFound,
    NotAllowed,
    Directory,
    Other,
}

fn lack_text(lack: Lack) -> &'static str
    ensures { result.now ≡ lack_text lack }
{
    match lack {
        Lack::Output => "not all of the output could be written",
        Lack::Memory => "there wasn't enough memory",
        Lack::File => "a file couldn't be read, and now it can",
        Lack::Text => "a word isn't UTF-8",
    }
}

/// The line that says what the system didn't give.
#[tactic(auto, unfolding(crate::specs::Ends::lack_reason))]
pub fn write_lack(reason: &mut Reason, lack: Lack) -> Result<(), Memory>
    ensures { OnOk result (reason.new ≡ line_of_reason (lack_reason (begun reason.old) lack)) }
{
    reason.begin()?;
    reason.text(lack_text(lack))?;
    reason.end()
}

fn unread_text(fault: Unread) -> &'static str
    ensures { result.now ≡ unread_text fault }
{
    match fault {
        Unread::NotFound => "no such file",
        Unread::NotAllowed => "it may not be read",
        Unread::Directory => "it is a directory",
        Unread::Other => "it couldn't be read",
    }
}

/// The line that says why a file couldn't be read.
#[tactic(auto, unfolding(crate::specs::Ends::unread))]
pub fn write_unread(reason: &mut Reason, name: &str, fault: Unread) -> Result<(), Memory>
    ensures { OnOk result (reason.new ≡ line_of_reason (unread (begun reason.old) name.now fault)) }
{
    reason.begin()?;
    reason.of_file(name)?;
    reason.text(unread_text(fault))?;
    reason.end()
}

/// The line that says that a file has more bytes than may be.
pub fn write_longer(reason: &mut Reason, name: &str, limit: u64) -> Result<(), Memory>
    ensures { OnOk result (reason.new ≡ line_of_reason (too_long (begun reason.old ++ of_file name.now) limit)) }
{
    reason.begin()?;
    reason.of_file(name)?;
    reason.too_long(limit)?;
    reason.end()
}

/// The line that says that a run has as many events as it may have.
#[tactic(auto, unfolding(crate::specs::Ends::spent_reason))]
pub fn write_spent(reason: &mut Reason, budget: u32) -> Result<(), Memory>
    ensures { OnOk result (reason.new ≡ line_of_reason (spent_reason (begun reason.old) budget)) }
{
    reason.begin()?;
    reason.counted(
        "the run has ",
        u64::from(budget),
        " events, which is its budget, and its cores haven't all ended",
    )?;
    reason.end()
}

/// Which nodes are cut off.
#[tactic(auto, unfolding(crate::specs::Ends::cut_off))]
pub(crate) fn write_nodes_cut_off(reason: &mut Reason, a: NodeId, b: NodeId) -> Result<(), Memory>
    ensures { OnOk result (reason.new ≡ cut_off reason.old a b) }
{
    reason.counted("nodes ", u64::from(a.number()), " and ")?;
    reason.number(u64::from(b.number()))?;
    reason.text(" are cut off: no living switches join them")
}

/// The line that says which nodes are cut off.
pub fn write_cut_off(reason: &mut Reason, a: NodeId, b: NodeId) -> Result<(), Memory>
    ensures { OnOk result (reason.new ≡ line_of_reason (cut_off (begun reason.old) a b)) }
{
    reason.begin()?;
    write_nodes_cut_off(reason, a, b)?;
    reason.end()
}

fn trap_text(cause: Cause) -> &'static str
    ensures { result.now ≡ trap_text cause }
{
    match cause {
        Cause::Illegal => "its next word is no instruction",
        Cause::FetchFault => "no instruction stands where it is",
        Cause::MisalignedTarget => "it jumped to an address that is no multiple of 4",
        Cause::MisalignedAccess => "the address of its access doesn't suit the width",
        Cause::AccessFault => "there is no memory at its access, or none that may be written",
        Cause::UnknownCall => "the number in a7 names no call",
        Cause::Break => "it met ebreak",
    }
}

/// The line that says why a core trapped.
#[tactic(auto, unfolding(crate::specs::Ends::trap_reason))]
pub fn write_trapped(reason: &mut Reason, node: NodeId, cause: Cause) -> Result<(), Memory>
    ensures { OnOk result (reason.new ≡ line_of_reason (trap_reason (begun reason.old) node cause)) }
{
    reason.begin()?;
    reason.counted("core ", u64::from(node.number()), " trapped: ")?;
    reason.text(trap_text(cause))?;
    reason.end()
}
