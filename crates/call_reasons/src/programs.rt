//! Why a program, or a text that is assembled, is refused.
ghost use Rattle.std.specs.Prelude.{◌≡◌, ℕ, List, Option, Some, OnOk};
ghost use Rattle.command_words.specs.Request.{as_request};
ghost use Rattle.call_reasons.specs.Blame.{program_of, assembly_of};
ghost use Rattle.call_reasons.specs.Reason.{of_program, of_assembly};

use crate::blame::{assembly_of, program_of};
use crate::content::{PROGRAM_LIMIT, fetch};
use call_status::ProgramCause;
use command_words::Request;
use reasons::{Reason, write_assembly, write_longer, write_program};
use rv_asm::AsmCause;
use sn_base::Memory;
use sn_io::Store;
use std::alloc::Global;

/// Why the program of a request is refused; nothing where it has none.
pub fn write_program_of<S: Store>(
    alloc: Global,
    store: &mut S,
    reason: &mut Reason,
    request: &Request,
    cause: ProgramCause,
) -> Result<(), Memory>
    ensures told { (held : List ℕ → Option (List ℕ)) → S.sure store.old → S.files store.old ≡ Some held → OnOk result
        (reason.new ≡ of_program reason.old held (program_of (as_request request.now)) cause) }
    ensures files { S.files store.new ≡ S.files store.old }
    ensures stays_sure { S.sure store.old → S.sure store.new }
{
    let Some(name) = program_of(request) else {
        return Ok(());
    };
    let ProgramCause::Load(cause) = cause else {
        return write_longer(reason, name, PROGRAM_LIMIT as u64);
    };
    let content = fetch(alloc, store, name, PROGRAM_LIMIT)?;
    write_program(reason, name, content.bytes(), cause)
}

/// Why the text of a request is refused; nothing where it has none.
pub fn write_assembly_of<S: Store>(
    alloc: Global,
    store: &mut S,
    reason: &mut Reason,
    request: &Request,
    cause: AsmCause,
) -> Result<(), Memory>
    ensures told { (held : List ℕ → Option (List ℕ)) → S.sure store.old → S.files store.old ≡ Some held → OnOk result
        (reason.new ≡ of_assembly reason.old held (assembly_of (as_request request.now)) cause) }
    ensures files { S.files store.new ≡ S.files store.old }
    ensures stays_sure { S.sure store.old → S.sure store.new }
{
    let Some(name) = assembly_of(request) else {
        return Ok(());
    };
    let content = fetch(alloc, store, name, PROGRAM_LIMIT)?;
    write_assembly(reason, name, content.bytes(), cause)
}
