//! Why a script, a control file, a trace or a list of accesses is refused: which of them is blamed, and what stands there now.
ghost use Rattle.std.specs.Prelude.{◌≡◌, ◌≤◌, ℕ, List, Option, Some, OnOk, true};
ghost use Rattle.command_words.specs.Request.{as_request, as_resume, as_roll, request_fits};
ghost use Rattle.reasons.specs.Reason.{begun, line_of_reason};
ghost use Rattle.reasons.specs.Scripts.{script_reason, limit_of};
ghost use Rattle.call_reasons.specs.Blame.{blamed_of};
ghost use Rattle.call_reasons.specs.Reason.{held_bytes, of_lines};

use crate::content::{SAVE_LIMIT, SCRIPT_LIMIT, fetch, is_refused, nodes_in};
use command_words::{Request, Resume, Roll};
use reasons::{Reason, TextKind, limit_of, write_script};
use sn_base::Memory;
use sn_io::Store;
use sn_text::ScriptCause;
use std::alloc::Global;

// One file of lines is blamed.
fn write_file<S: Store>(
    alloc: Global,
    store: &mut S,
    reason: &mut Reason,
    kind: TextKind,
    nodes: u8,
    name: &str,
    cause: ScriptCause,
) -> Result<(), Memory>
    ensures told { (held : List ℕ → Option (List ℕ)) → S.sure store.old → S.files store.old ≡ Some held → OnOk result
        (reason.new ≡ line_of_reason (script_reason (begun reason.old) kind nodes name.now (held_bytes held name.now (limit_of kind)) cause)) }
    ensures files { S.files store.new ≡ S.files store.old }
    ensures stays_sure { S.sure store.old → S.sure store.new }
{
    let content = fetch(alloc, store, name, limit_of(kind))?;
    write_script(reason, kind, nodes, name, content.bytes(), cause)
}

// A script that is refused as it is now is blamed before its control file.
fn write_rolled<S: Store>(
    alloc: Global,
    store: &mut S,
    reason: &mut Reason,
    asked: &Roll,
    cause: ScriptCause,
) -> Result<(), Memory>
    requires few { asked.now.config.nodes ≤ 16 }
    ensures told { (held : List ℕ → Option (List ℕ)) → S.sure store.old → S.files store.old ≡ Some held → OnOk result
        (reason.new ≡ of_lines reason.old held (blamed_of held (as_roll asked.now)) cause) }
    ensures files { S.files store.new ≡ S.files store.old }
    ensures stays_sure { S.sure store.old → S.sure store.new }
{
    let nodes = asked.config.nodes;
    let script = fetch(alloc, store, asked.script.as_str(), SCRIPT_LIMIT)?;
    if is_refused(alloc, &script, nodes)? {
        let name = asked.script.as_str();
        write_file(alloc, store, reason, TextKind::Script, nodes, name, cause)
    } else {
        let name = asked.control.as_str();
        write_file(alloc, store, reason, TextKind::Control, nodes, name, cause)
    }
}

// The script of a machine that goes on is one for the nodes of its save file.
fn write_resumed<S: Store>(
    alloc: Global,
    store: &mut S,
    reason: &mut Reason,
    asked: &Resume,
    cause: ScriptCause,
) -> Result<(), Memory>
    ensures told { (held : List ℕ → Option (List ℕ)) → S.sure store.old → S.files store.old ≡ Some held → OnOk result
        (reason.new ≡ of_lines reason.old held (blamed_of held (as_resume asked.now)) cause) }
    ensures files { S.files store.new ≡ S.files store.old }
    ensures stays_sure { S.sure store.old → S.sure store.new }
{
    let save = fetch(alloc, store, asked.save.as_str(), SAVE_LIMIT)?;
    let nodes = nodes_in(alloc, &save)?;
    drop(save);
    let name = asked.script.as_str();
    write_file(alloc, store, reason, TextKind::Script, nodes, name, cause)
}

/// Why the script, the control file, the trace or the accesses of a request are refused; nothing where it has none.
pub fn write_lines<S: Store>(
    alloc: Global,
    store: &mut S,
    reason: &mut Reason,
    request: &Request,
    cause: ScriptCause,
) -> Result<(), Memory>
    requires fits { request_fits (as_request request.now) ≡ true }
    ensures told { (held : List ℕ → Option (List ℕ)) → S.sure store.old → S.files store.old ≡ Some held → OnOk result
        (reason.new ≡ of_lines reason.old held (blamed_of held (as_request request.now)) cause) }
    ensures files { S.files store.new ≡ S.files store.old }
    ensures stays_sure { S.sure store.old → S.sure store.new }
{
    match request {
        Request::Replay(asked) => {
            let (nodes, script) = (asked.config.nodes, asked.script.as_str());
            write_file(alloc, store, reason, TextKind::Script, nodes, script, cause)
        }
        Request::Roll(asked) => write_rolled(alloc, store, reason, asked, cause),
        Request::Save(asked) => {
            let (nodes, script) = (asked.config.nodes, asked.script.as_str());
            write_file(alloc, store, reason, TextKind::Script, nodes, script, cause)
        }
        Request::Resume(asked) => write_resumed(alloc, store, reason, asked, cause),
        Request::Check(asked) => {
            let (nodes, trace) = (asked.nodes, asked.trace.as_str());
            write_file(alloc, store, reason, TextKind::Trace, nodes, trace, cause)
        }
        Request::Judge(accesses) => {
            let name = accesses.as_str();
            write_file(alloc, store, reason, TextKind::Accesses, 16, name, cause)
        }
        _ => Ok(()),
    }
}
