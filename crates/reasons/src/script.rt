//! Why a script, a control file, a trace or a list of accesses is refused.
ghost use Rattle.std.specs.Prelude.{◌≡◌, option_map, OnOk};
ghost use Rattle.reasons.specs.Reason.{begun, line_of_reason};
ghost use Rattle.reasons.specs.Scripts.{script_reason};
ghost use Rattle.reasons.specs.Scripts.{item_name, items_name, limit_of, lacking, hint_at, bad_line, out_of_range, too_many, line_of, what_of};

use crate::hints::{TextKind, write_hint};
use crate::place::line_at;
use crate::reason::Reason;
use sn_base::Memory;
use sn_text::ScriptCause;

/// The most bytes of such a file.
pub fn limit_of(kind: TextKind) -> usize
    ensures { result ≡ limit_of kind }
{
    match kind {
        TextKind::Script | TextKind::Control | TextKind::Trace => 33_554_432,
        TextKind::Accesses => 67_108_864,
    }
}

/// What a line says.
fn item_name(kind: TextKind) -> &'static str
    ensures { result.now ≡ item_name kind }
{
    match kind {
        TextKind::Script => "event",
        TextKind::Control => "control",
        TextKind::Trace => "record",
        TextKind::Accesses => "access",
    }
}

/// What its lines say.
fn items_name(kind: TextKind) -> &'static str
    ensures { result.now ≡ items_name kind }
{
    match kind {
        TextKind::Script => "events",
        TextKind::Control => "controls",
        TextKind::Trace => "records",
        TextKind::Accesses => "accesses",
    }
}

/// What isn't there, where a line is out of range.
fn lacking(kind: TextKind) -> &'static str
    ensures { result.now ≡ lacking kind }
{
    match kind {
        TextKind::Script => "no such node, block or switch",
        TextKind::Control => "no such node",
        TextKind::Trace => "no such core",
        TextKind::Accesses => "no such core or address",
    }
}

fn write_hint_at(reason: &mut Reason, kind: TextKind, line: Option<&[u8]>) -> Result<(), Memory>
    ensures { OnOk result (reason.new ≡ hint_at reason.old kind (option_map (λ line. line.now) line.entry)) }
{
    match line {
        Some(line) => write_hint(reason, kind, line),
        None => Ok(()),
    }
}

#[tactic(auto, unfolding(crate::specs::Scripts::bad_line))]
fn write_bad_line(reason: &mut Reason, kind: TextKind, line: Option<&[u8]>) -> Result<(), Memory>
    ensures { OnOk result (reason.new ≡ bad_line reason.old kind (option_map (λ line. line.now) line.entry)) }
{
    reason.text("this line is no ")?;
    reason.text(item_name(kind))?;
    reason.seen(line)?;
    write_hint_at(reason, kind, line)
}

#[tactic(auto, unfolding(crate::specs::Scripts::out_of_range))]
fn write_out_of_range(
    reason: &mut Reason,
    kind: TextKind,
    nodes: u8,
    line: Option<&[u8]>,
) -> Result<(), Memory>
    ensures { OnOk result (reason.new ≡ out_of_range reason.old kind nodes (option_map (λ line. line.now) line.entry)) }
{
    reason.counted("a machine of ", u64::from(nodes), " nodes has ")?;
    reason.text(lacking(kind))?;
    reason.seen(line)
}

#[tactic(auto, unfolding(crate::specs::Scripts::too_many))]
fn write_too_many(reason: &mut Reason, kind: TextKind) -> Result<(), Memory>
    ensures { OnOk result (reason.new ≡ too_many reason.old kind) }
{
    reason.text("more than 1000000 ")?;
    reason.text(items_name(kind))
}

fn line_of(cause: ScriptCause) -> Option<u64>
    ensures { result ≡ line_of cause }
{
    match cause {
        ScriptCause::BadLine(number) | ScriptCause::OutOfRange(number) => Some(number),
        ScriptCause::TooLong | ScriptCause::TooMany => None,
    }
}

fn write_what(
    reason: &mut Reason,
    kind: TextKind,
    nodes: u8,
    bytes: &[u8],
    cause: ScriptCause,
) -> Result<(), Memory>
    ensures { OnOk result (reason.new ≡ what_of reason.old kind nodes bytes.now cause) }
{
    match cause {
        ScriptCause::TooLong => reason.too_long(limit_of(kind) as u64),
        ScriptCause::BadLine(number) => write_bad_line(reason, kind, line_at(bytes, number)),
        ScriptCause::OutOfRange(number) => {
            write_out_of_range(reason, kind, nodes, line_at(bytes, number))
        }
        ScriptCause::TooMany => write_too_many(reason, kind),
    }
}

/// The line that says why a script, a control file, a trace or a list of accesses for so many nodes is refused. Without the file's bytes it
/// says less.
#[tactic(auto, unfolding(crate::specs::Scripts::script_reason))]
pub fn write_script(
    reason: &mut Reason,
    kind: TextKind,
    nodes: u8,
    name: &str,
    bytes: &[u8],
    cause: ScriptCause,
) -> Result<(), Memory>
    ensures { OnOk result (reason.new ≡ line_of_reason (script_reason (begun reason.old) kind nodes name.now bytes.now cause)) }
{
    reason.begin()?;
    reason.place(name, line_of(cause))?;
    write_what(reason, kind, nodes, bytes, cause)?;
    reason.end()
}
