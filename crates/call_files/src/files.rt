//! Files fetched from the store, and read.
ghost use Rattle.std.specs.Prelude.{◌≡◌, ◌≢◌, ◌≤◌, All, length, [], Err, IfOk, true};
ghost use Rattle.sn_io.specs.Outside.{Found};
ghost use Rattle.access_check.specs.Accesses.{IsFittingAccess, IsFittingWord};
ghost use Rattle.consistent_cuts.specs.Runs.{AllFit};
ghost use Rattle.rolled_replay.specs.Controls.{control_fits};
ghost use Rattle.sn_saved.specs.Saved.{Saved};
ghost use Rattle.consistent_cuts.specs.Origins.{Resumed};
ghost use Rattle.sn_machine.specs.Machine.{HasRunFrom};
ghost use Rattle.call_files.specs.Saves.{machine_in};
ghost use Rattle.call_files.specs.Files.{program_in, script_in, control_in, trace_in, accesses_in, assembly_in};
ghost use Rattle.call_files.specs.Fetches.{Fetches, found_by};
ghost use Rattle.sn_base.specs.declared.limits.TheConstants.{EVENTS};

use crate::contents::{Text, Trace};
use crate::reading::{
    ACCESSES_LIMIT, PROGRAM_LIMIT, SAVE_LIMIT, SCRIPT_LIMIT, read_accesses, read_assembly,
    read_control, read_program, read_save, read_script, read_trace,
};
use access_texts::AccessList;
use call_status::{ProgramCause, Status};
use rolled_replay::Controls;
use rv_asm::AsmCause;
use script_replay::Script;
use sn_base::Image;
use sn_io::{Fetched, Store, StoreFault};
use sn_machine::Machine;
use sn_resume::SaveCause;
use sn_text::ScriptCause;
use std::alloc::Global;

/// Why there are no bytes of a file.
enum Unread {
    Missing,
    TooLong,
    Memory,
}

fn fetch_file<S: Store>(
    alloc: Global,
    store: &mut S,
    name: &str,
    limit: usize,
) -> Result<Vec<u8>, Unread>
    ensures found { result ≢ Err Unread.Memory →
        Fetches S.files S.sure S.faults S.gave store.old name.now limit (found_by result) store.new }
    ensures files { S.files store.new ≡ S.files store.old }
    ensures stays_sure { S.sure store.old → S.sure store.new }
{
    let mut bytes = Vec::new(alloc);
    match store.fetch(name, limit, &mut bytes) {
        Ok(Fetched::Whole) => Ok(bytes),
        Ok(Fetched::Longer) => Err(Unread::TooLong),
        Err(StoreFault::Failed) => Err(Unread::Missing),
        Err(StoreFault::Memory) => Err(Unread::Memory),
    }
}

/// Fetches a program, of at most 16 MiB, and reads it. An error is the status that says why there is none.
pub fn fetch_program<S: Store>(alloc: Global, store: &mut S, name: &str) -> Result<Image, Status>
    ensures found { result ≢ Err Status.Memory → (found : Found)
        × Fetches S.files S.sure S.faults S.gave store.old name.now 16777216 found store.new
        × (result ≡ program_in found) }
    ensures files { S.files store.new ≡ S.files store.old }
    ensures stays_sure { S.sure store.old → S.sure store.new }
{
    match fetch_file(alloc, store, name, PROGRAM_LIMIT) {
        Ok(bytes) => read_program(alloc, bytes.as_slice()),
        Err(Unread::Missing) => Err(Status::StoreFault),
        Err(Unread::TooLong) => Err(Status::BadProgram(ProgramCause::TooLong)),
        Err(Unread::Memory) => Err(Status::Memory),
    }
}

/// Fetches a script for so many nodes, of at most 32 MiB, and reads it. An error is the status that says why there is none.
pub fn fetch_script<S: Store>(
    alloc: Global,
    store: &mut S,
    name: &str,
    nodes: u8,
) -> Result<Script, Status>
    requires { nodes ≤ 16 }
    ensures found { result ≢ Err Status.Memory → (found : Found)
        × Fetches S.files S.sure S.faults S.gave store.old name.now 33554432 found store.new
        × (result ≡ script_in nodes found) }
    ensures fit { IfOk result (λ script. AllFit nodes script) }
    ensures few { IfOk result (λ script. length script ≤ EVENTS) }
    ensures files { S.files store.new ≡ S.files store.old }
    ensures stays_sure { S.sure store.old → S.sure store.new }
{
    match fetch_file(alloc, store, name, SCRIPT_LIMIT) {
        Ok(bytes) => read_script(alloc, bytes.as_slice(), nodes),
        Err(Unread::Missing) => Err(Status::StoreFault),
        Err(Unread::TooLong) => Err(Status::BadScript(ScriptCause::TooLong)),
        Err(Unread::Memory) => Err(Status::Memory),
    }
}

/// Fetches a save file of a program, of at most 64 MiB, and makes the machine that goes on from it, with room for no event. An error
/// is the status that says why there is none.
pub fn fetch_save<S: Store>(
    alloc: Global,
    store: &mut S,
    name: &str,
    program: Image,
) -> Result<Machine, Status>
    ensures found { result ≢ Err Status.Memory → (found : Found)
        × Fetches S.files S.sure S.faults S.gave store.old name.now 67108864 found store.new
        × (result ≡ machine_in program found) }
    ensures led { IfOk result (λ m. (saved : Saved) × HasRunFrom m (Resumed saved) []) }
    ensures files { S.files store.new ≡ S.files store.old }
    ensures stays_sure { S.sure store.old → S.sure store.new }
{
    match fetch_file(alloc, store, name, SAVE_LIMIT) {
        Ok(bytes) => read_save(alloc, bytes.as_slice(), program),
        Err(Unread::Missing) => Err(Status::StoreFault),
        Err(Unread::TooLong) => Err(Status::BadSave(SaveCause::TooLong)),
        Err(Unread::Memory) => Err(Status::Memory),
    }
}

/// The same of the controls of a recovery.
pub fn fetch_control<S: Store>(
    alloc: Global,
    store: &mut S,
    name: &str,
    nodes: u8,
) -> Result<Controls, Status>
    requires { nodes ≤ 16 }
    ensures found { result ≢ Err Status.Memory → (found : Found)
        × Fetches S.files S.sure S.faults S.gave store.old name.now 33554432 found store.new
        × (result ≡ control_in nodes found) }
    ensures fit { IfOk result (λ controls. All (λ control. control_fits nodes control ≡ true) controls) }
    ensures few { IfOk result (λ controls. length controls ≤ EVENTS) }
    ensures files { S.files store.new ≡ S.files store.old }
    ensures stays_sure { S.sure store.old → S.sure store.new }
{
    match fetch_file(alloc, store, name, SCRIPT_LIMIT) {
        Ok(bytes) => read_control(alloc, bytes.as_slice(), nodes),
        Err(Unread::Missing) => Err(Status::StoreFault),
        Err(Unread::TooLong) => Err(Status::BadScript(ScriptCause::TooLong)),
        Err(Unread::Memory) => Err(Status::Memory),
    }
}

/// The same of a trace.
pub fn fetch_trace<S: Store>(
    alloc: Global,
    store: &mut S,
    name: &str,
    nodes: u8,
) -> Result<Trace, Status>
    requires { nodes ≤ 16 }
    ensures found { result ≢ Err Status.Memory → (found : Found)
        × Fetches S.files S.sure S.faults S.gave store.old name.now 33554432 found store.new
        × (result ≡ trace_in nodes found) }
    ensures files { S.files store.new ≡ S.files store.old }
    ensures stays_sure { S.sure store.old → S.sure store.new }
{
    match fetch_file(alloc, store, name, SCRIPT_LIMIT) {
        Ok(bytes) => read_trace(alloc, bytes.as_slice(), nodes),
        Err(Unread::Missing) => Err(Status::StoreFault),
        Err(Unread::TooLong) => Err(Status::BadScript(ScriptCause::TooLong)),
        Err(Unread::Memory) => Err(Status::Memory),
    }
}

/// Fetches a list of accesses, of at most 64 MiB, and reads it. An error is the status that says why there is none.
pub fn fetch_accesses<S: Store>(
    alloc: Global,
    store: &mut S,
    name: &str,
) -> Result<AccessList, Status>
    ensures found { result ≢ Err Status.Memory → (found : Found)
        × Fetches S.files S.sure S.faults S.gave store.old name.now 67108864 found store.new
        × (result ≡ accesses_in found) }
    ensures words { IfOk result (λ list. All IsFittingWord list.words) }
    ensures accesses { IfOk result (λ list. All IsFittingAccess list.accesses) }
    ensures files { S.files store.new ≡ S.files store.old }
    ensures stays_sure { S.sure store.old → S.sure store.new }
{
    match fetch_file(alloc, store, name, ACCESSES_LIMIT) {
        Ok(bytes) => read_accesses(alloc, bytes.as_slice()),
        Err(Unread::Missing) => Err(Status::StoreFault),
        Err(Unread::TooLong) => Err(Status::BadScript(ScriptCause::TooLong)),
        Err(Unread::Memory) => Err(Status::Memory),
    }
}

/// Fetches a text in assembler, of at most 16 MiB, and assembles it. An error is the status that says why there is none.
pub fn fetch_assembly<S: Store>(alloc: Global, store: &mut S, name: &str) -> Result<Text, Status>
    ensures found { result ≢ Err Status.Memory → (found : Found)
        × Fetches S.files S.sure S.faults S.gave store.old name.now 16777216 found store.new
        × (result ≡ assembly_in found) }
    ensures files { S.files store.new ≡ S.files store.old }
    ensures stays_sure { S.sure store.old → S.sure store.new }
{
    match fetch_file(alloc, store, name, PROGRAM_LIMIT) {
        Ok(bytes) => read_assembly(alloc, bytes.as_slice()),
        Err(Unread::Missing) => Err(Status::StoreFault),
        Err(Unread::TooLong) => Err(Status::BadAsm(AsmCause::TooLong)),
        Err(Unread::Memory) => Err(Status::Memory),
    }
}
