//! What the bytes of files are.
ghost use Rattle.std.specs.Prelude.{◌≡◌, ◌≢◌, ◌≤◌, true, All, length, [], Ok, Err, IfOk};
ghost use Rattle.access_check.specs.Accesses.{IsFittingAccess, IsFittingWord};
ghost use Rattle.consistent_cuts.specs.Runs.{AllFit};
ghost use Rattle.asm_texts.specs.Texts.{words_text};
ghost use Rattle.rolled_replay.specs.Controls.{control_fits};
ghost use Rattle.sn_saved.specs.Saved.{Saved};
ghost use Rattle.consistent_cuts.specs.Origins.{Resumed};
ghost use Rattle.sn_machine.specs.Machine.{HasRunFrom};
ghost use Rattle.call_files.specs.Saves.{machine_of};
ghost use Rattle.call_files.specs.Files.{program_of, events_of, steps_of, records_of, accesses_of, assembly_of, listing_of};
ghost use Rattle.sn_base.specs.declared.limits.TheConstants.{EVENTS};

use crate::contents::{Text, Trace};
use access_texts::AccessList;
use asm_texts::words_text;
use call_status::{ProgramCause, Status};
use elf_load::{LoadFault, load};
use rolled_replay::Controls;
use rv_asm::{AsmCause, AsmFault, assemble};
use script_replay::Script;
use sn_base::Image;
use sn_machine::Machine;
use sn_resume::{SaveCause, SaveFault, resume};
use sn_text::{ScriptCause, ScriptFault};
use std::alloc::Global;

/// The most bytes of a program's file, and of a text that is assembled.
pub const PROGRAM_LIMIT: usize = 16_777_216;

/// The most bytes of a script's file, of a control file and of a trace's.
pub const SCRIPT_LIMIT: usize = 33_554_432;

/// The most bytes of a list of accesses.
pub const ACCESSES_LIMIT: usize = 67_108_864;

/// The most bytes of a save file.
pub const SAVE_LIMIT: usize = 67_108_864;

/// The program that the bytes of a file are: an ELF file or a hexadecimal image, as the loader reads them.
pub fn read_program(alloc: Global, bytes: &[u8]) -> Result<Image, Status>
    ensures { result ≢ Err Status.Memory → result ≡ program_of bytes.now }
{
    if bytes.len() > PROGRAM_LIMIT {
        return Err(Status::BadProgram(ProgramCause::TooLong));
    }
    match load(alloc, bytes) {
        Ok(image) => Ok(image),
        Err(LoadFault::Refused(cause)) => Err(Status::BadProgram(ProgramCause::Load(cause))),
        Err(LoadFault::Memory) => Err(Status::Memory),
    }
}

/// The script for so many nodes that the bytes of a file are.
pub fn read_script(alloc: Global, bytes: &[u8], nodes: u8) -> Result<Script, Status>
    requires { nodes ≤ 16 }
    ensures read { result ≢ Err Status.Memory → result ≡ events_of nodes bytes.now }
    ensures fit { IfOk result (λ script. AllFit nodes script) }
    ensures few { IfOk result (λ script. length script ≤ EVENTS) }
{
    if bytes.len() > SCRIPT_LIMIT {
        return Err(Status::BadScript(ScriptCause::TooLong));
    }
    match sn_text::read_script(alloc, bytes, nodes) {
        Ok(events) => Ok(Script::new(events)),
        Err(ScriptFault::Refused(cause)) => Err(Status::BadScript(cause)),
        Err(ScriptFault::Memory) => Err(Status::Memory),
    }
}

/// The machine that goes on from the save file of a program that the bytes of a file are.
pub fn read_save(alloc: Global, bytes: &[u8], program: Image) -> Result<Machine, Status>
    ensures read { result ≢ Err Status.Memory → result ≡ machine_of program bytes.now }
    ensures led { IfOk result (λ m. (saved : Saved) × HasRunFrom m (Resumed saved) []) }
{
    if bytes.len() > SAVE_LIMIT {
        return Err(Status::BadSave(SaveCause::TooLong));
    }
    match resume(alloc, program, bytes) {
        Ok(machine) => Ok(machine),
        Err(SaveFault::Refused(cause)) => Err(Status::BadSave(cause)),
        Err(SaveFault::Memory) => Err(Status::Memory),
    }
}

/// The controls of a recovery of so many nodes that the bytes of a file are.
pub fn read_control(alloc: Global, bytes: &[u8], nodes: u8) -> Result<Controls, Status>
    requires { nodes ≤ 16 }
    ensures read { result ≢ Err Status.Memory → result ≡ steps_of nodes bytes.now }
    ensures fit { IfOk result (λ controls. All (λ control. control_fits nodes control ≡ true) controls) }
    ensures few { IfOk result (λ controls. length controls ≤ EVENTS) }
{
    if bytes.len() > SCRIPT_LIMIT {
        return Err(Status::BadScript(ScriptCause::TooLong));
    }
    match rolled_replay::rolling_recovery::read_control(alloc, bytes, nodes) {
        Ok(controls) => Ok(Controls::new(controls)),
        Err(ScriptFault::Refused(cause)) => Err(Status::BadScript(cause)),
        Err(ScriptFault::Memory) => Err(Status::Memory),
    }
}

/// The trace of so many nodes that the bytes of a file are.
pub fn read_trace(alloc: Global, bytes: &[u8], nodes: u8) -> Result<Trace, Status>
    requires { nodes ≤ 16 }
    ensures { result ≢ Err Status.Memory → result ≡ records_of nodes bytes.now }
{
    if bytes.len() > SCRIPT_LIMIT {
        return Err(Status::BadScript(ScriptCause::TooLong));
    }
    match sn_text::read_trace(alloc, bytes, nodes) {
        Ok(records) => Ok(Trace::new(records)),
        Err(ScriptFault::Refused(cause)) => Err(Status::BadScript(cause)),
        Err(ScriptFault::Memory) => Err(Status::Memory),
    }
}

/// The accesses that the bytes of a file are, with the words that memory begins with.
pub fn read_accesses(alloc: Global, bytes: &[u8]) -> Result<AccessList, Status>
    ensures read { result ≢ Err Status.Memory → result ≡ accesses_of bytes.now }
    ensures words { IfOk result (λ list. All IsFittingWord list.words) }
    ensures accesses { IfOk result (λ list. All IsFittingAccess list.accesses) }
{
    if bytes.len() > ACCESSES_LIMIT {
        return Err(Status::BadScript(ScriptCause::TooLong));
    }
    match access_texts::read_accesses(alloc, bytes) {
        Ok(list) => Ok(list),
        Err(ScriptFault::Refused(cause)) => Err(Status::BadScript(cause)),
        Err(ScriptFault::Memory) => Err(Status::Memory),
    }
}

/// The words of the text that the bytes of a file are, one a line.
pub fn read_assembly(alloc: Global, bytes: &[u8]) -> Result<Text, Status>
    ensures { result ≢ Err Status.Memory → result ≡ assembly_of bytes.now }
{
    if bytes.len() > PROGRAM_LIMIT {
        return Err(Status::BadAsm(AsmCause::TooLong));
    }
    match assemble(alloc, bytes) {
        Ok(words) => match words_text(alloc, words.as_slice()) {
            Ok(text) => Ok(Text::new(text)),
            Err(_) => Err(Status::Memory),
        },
        Err(AsmFault::Refused(cause)) => Err(Status::BadAsm(cause)),
        Err(AsmFault::Memory) => Err(Status::Memory),
    }
}

/// The lines of a program's words.
pub fn list_program(alloc: Global, image: &Image) -> Result<Text, Status>
    ensures { result ≢ Err Status.Memory → result ≡ listing_of (Ok image.now) }
{
    match asm_texts::listing_of(alloc, image) {
        Ok(text) => Ok(Text::new(text)),
        Err(_) => Err(Status::Memory),
    }
}
