//! Why a save file is refused: which one, and what stands there now.
ghost use Rattle.std.specs.Prelude.{◌≡◌, ℕ, List, Option, Some, OnOk};
ghost use Rattle.command_words.specs.Request.{as_request};
ghost use Rattle.reasons.specs.Reason.{begun, line_of_reason};
ghost use Rattle.reasons.specs.Saves.{save_reason};
ghost use Rattle.call_reasons.specs.Blame.{save_of};
ghost use Rattle.call_reasons.specs.Reason.{held_bytes, of_save};

use crate::blame::save_of;
use crate::content::{SAVE_LIMIT, fetch};
use command_words::Request;
use reasons::{Reason, write_save};
use save_text::SaveCause;
use sn_base::Memory;
use sn_io::Store;
use std::alloc::Global;

// The file is blamed.
fn write_file<S: Store>(
    alloc: Global,
    store: &mut S,
    reason: &mut Reason,
    name: &str,
    cause: SaveCause,
) -> Result<(), Memory>
    ensures told { (held : List ℕ → Option (List ℕ)) → S.sure store.old → S.files store.old ≡ Some held → OnOk result
        (reason.new ≡ line_of_reason (save_reason (begun reason.old) name.now (held_bytes held name.now 67108864) cause)) }
    ensures files { S.files store.new ≡ S.files store.old }
    ensures stays_sure { S.sure store.old → S.sure store.new }
{
    let content = fetch(alloc, store, name, SAVE_LIMIT)?;
    write_save(reason, name, content.bytes(), cause)
}

/// Why the save file of a request is refused; nothing where it has none.
pub fn write_save_of<S: Store>(
    alloc: Global,
    store: &mut S,
    reason: &mut Reason,
    request: &Request,
    cause: SaveCause,
) -> Result<(), Memory>
    ensures told { (held : List ℕ → Option (List ℕ)) → S.sure store.old → S.files store.old ≡ Some held → OnOk result
        (reason.new ≡ of_save reason.old held (save_of (as_request request.now)) cause) }
    ensures files { S.files store.new ≡ S.files store.old }
    ensures stays_sure { S.sure store.old → S.sure store.new }
{
    match save_of(request) {
        Some(name) => write_file(alloc, store, reason, name, cause),
        None => Ok(()),
    }
}
