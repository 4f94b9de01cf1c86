//! Why a list of accesses isn't legal: it is read and judged once more.
ghost use Rattle.std.specs.Prelude.{◌≡◌, ◌<◌, ◌^◌, ℕ, List, Option, Some, OnOk, length, option_map};
ghost use Rattle.access_texts.specs.Lists.{said_by};
ghost use Rattle.call_reasons.specs.Accesses.{access_at, access_line, access_numbered, access_read, last_written, memory_has, no_reservation_reason};
ghost use Rattle.call_reasons.specs.Accesses.{access_cause, at_access, refused_access, IsOfAccesses};
ghost use Rattle.call_reasons.specs.Reason.{held_bytes};

use crate::content::fetch;
use access_check::{Access, Cause, Refusal, Verdict, judge};
use access_texts::{AccessList, read_accesses};
use reasons::{Reason, TextKind, limit_of, record_line};
use sn_base::Memory;
use sn_io::Store;
use sn_text::ScriptFault;
use std::alloc::Global;

// The access at a place, counted from 1.
fn access_at(accesses: &[Access], place: u64) -> Option<&Access>
    ensures { option_map (λ access. access.now) result ≡ access_at accesses.now place }
{
    match place.checked_sub(1) {
        Some(before) => accesses.get(before as usize),
        None => None,
    }
}

// The number of its line, where so many words of memory stand before the accesses.
fn access_line(bytes: &[u8], words: u64, place: u64) -> Option<u64>
    requires { length bytes.now < 2 ^ 62 }
    ensures { result ≡ access_line bytes.now words place }
{
    match words.checked_add(place) {
        Some(entry) => record_line(bytes, entry),
        None => None,
    }
}

#[tactic(auto, unfolding(crate::specs::Accesses::access_numbered))]
fn write_numbered(reason: &mut Reason, place: u64, line: Option<u64>) -> Result<(), Memory>
    ensures { OnOk result (reason.new ≡ access_numbered reason.old place line) }
{
    reason.text("access ")?;
    reason.number(place)?;
    let Some(line) = line else {
        return reason.text(": ");
    };
    reason.text(" (line ")?;
    reason.number(line)?;
    reason.text("): ")
}

#[tactic(auto, unfolding(crate::specs::Accesses::access_read))]
fn write_read(reason: &mut Reason, core: u8, value: Option<u32>) -> Result<(), Memory>
    ensures { OnOk result (reason.new ≡ access_read reason.old core value) }
{
    let Some(value) = value else {
        return Ok(());
    };
    reason.text("core ")?;
    reason.number(u64::from(core))?;
    reason.text(" read ")?;
    reason.word(value)?;
    reason.text(", and ")
}

#[tactic(auto, unfolding(crate::specs::Accesses::memory_has))]
fn write_memory(reason: &mut Reason, expected: u32) -> Result<(), Memory>
    ensures { OnOk result (reason.new ≡ memory_has reason.old expected) }
{
    reason.text("memory has ")?;
    reason.word(expected)
}

#[tactic(auto, unfolding(crate::specs::Accesses::last_written))]
fn write_last(reason: &mut Reason, since: u64) -> Result<(), Memory>
    ensures { OnOk result (reason.new ≡ last_written reason.old since) }
{
    if since == 0 {
        return reason.text(" from the start");
    }
    reason.text(", which access ")?;
    reason.number(since)?;
    reason.text(" wrote last")
}

#[tactic(auto, unfolding(crate::specs::Accesses::no_reservation_reason))]
fn write_unreserved(reason: &mut Reason, core: u8, since: u64) -> Result<(), Memory>
    ensures { OnOk result (reason.new ≡ no_reservation_reason reason.old core since) }
{
    reason.text("core ")?;
    reason.number(u64::from(core))?;
    reason.text(" has no reservation")?;
    if since == 0 {
        return Ok(());
    }
    reason.text(" since access ")?;
    reason.number(since)
}

fn write_cause(reason: &mut Reason, access: &Access, cause: Cause) -> Result<(), Memory>
    ensures { OnOk result (reason.new ≡ access_cause reason.old access.now cause) }
{
    let core = access.core.number();
    match cause {
        Cause::Value {
            expected,
            since,
            ..
        } => {
            write_read(reason, core, access.operation.seen())?;
            write_memory(reason, expected)?;
            write_last(reason, since)
        }
        Cause::Unreserved { since } => write_unreserved(reason, core, since),
    }
}

#[tactic(auto, unfolding(crate::specs::Accesses::refused_access))]
fn write_refusal(
    reason: &mut Reason,
    bytes: &[u8],
    list: &AccessList,
    refusal: Refusal,
) -> Result<(), Memory>
    requires { length bytes.now < 2 ^ 62 }
    ensures { OnOk result (reason.new ≡ refused_access reason.old bytes.now list.now refusal) }
{
    let words = list.words().len() as u64;
    reason.begin()?;
    write_numbered(
        reason,
        refusal.place,
        access_line(bytes, words, refusal.place),
    )?;
    if let Some(access) = access_at(list.accesses(), refusal.place) {
        write_cause(reason, access, refusal.cause)?;
    }
    reason.end()
}

fn write_list(alloc: Global, reason: &mut Reason, bytes: &[u8]) -> Result<(), Memory>
    requires { length bytes.now < 2 ^ 62 }
    ensures { OnOk result (IsOfAccesses (said_by bytes.now) bytes.now reason.old reason.new) }
{
    let list = match read_accesses(alloc, bytes) {
        Ok(list) => list,
        Err(ScriptFault::Refused(_)) => return Ok(()),
        Err(ScriptFault::Memory) => return Err(Memory),
    };
    match judge(alloc, list.words(), list.accesses())? {
        Verdict::Legal => Ok(()),
        Verdict::Refused(refusal) => write_refusal(reason, bytes, &list, refusal),
    }
}

/// Which access of a list is the first that isn't legal after those before it, and why it isn't.
pub fn write_accesses<S: Store>(
    alloc: Global,
    store: &mut S,
    reason: &mut Reason,
    name: &str,
) -> Result<(), Memory>
    ensures told { (held : List ℕ → Option (List ℕ)) → S.sure store.old → S.files store.old ≡ Some held → OnOk result
        (IsOfAccesses (said_by (held_bytes held name.now 67108864)) (held_bytes held name.now 67108864) reason.old reason.new) }
    ensures files { S.files store.new ≡ S.files store.old }
    ensures stays_sure { S.sure store.old → S.sure store.new }
{
    let content = fetch(alloc, store, name, limit_of(TextKind::Accesses))?;
    write_list(alloc, reason, content.bytes())
}
