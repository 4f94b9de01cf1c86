//! A machine is made from a save file.
ghost use Rattle.std.specs.Prelude.{◌≡◌, ◌<◌, ◌^◌, [], IfOk, IfErr, length};
ghost use Rattle.sn_saved.specs.Resumed.{flat_resumed};
ghost use Rattle.sn_saved.specs.Saved.{IsAccepted};
ghost use Rattle.consistent_cuts.specs.Origins.{Resumed};
ghost use Rattle.sn_machine.specs.Machine.{HasRunFrom};
ghost use Rattle.save_text.specs.Reading.{said_by};
ghost use Rattle.save_text.specs.Judged.{judged_of};
ghost use Rattle.save_text.specs.Lines.{IsRefusedAs};
ghost use Rattle.sn_resume.specs.Going.{GoesOnFrom, machine_resumed};

use save_text::{Accepted, SaveFault, read_save};
use sn_base::{Image, Memory};
use sn_machine::Machine;
use std::alloc::Global;

/// The machine that goes on from what was accepted.
fn machine_of(alloc: Global, image: Image, accepted: &Accepted) -> Result<Machine, Memory>
    requires accepted { IsAccepted image accepted.now.saved }
    requires flat { accepted.now.flat ≡ flat_resumed image accepted.now.saved }
    ensures goes_on { IfOk result (λ m. m ≡ machine_resumed image accepted.now.saved) }
    ensures led { IfOk result (λ m. HasRunFrom m (Resumed accepted.now.saved) []) }
{
    let saved = &accepted.saved;
    Machine::at_cut(
        alloc,
        image,
        saved.config,
        &accepted.flat,
        saved.committed.as_slice(),
        saved.owners.as_slice(),
        saved.given.as_slice(),
        saved.marks,
    )
}

/// The machine that goes on from a save file of this program, with room for no event; or the first cause for which the file is
/// refused. Whether the file is too long is for the caller to judge.
pub fn resume(alloc: Global, image: Image, bytes: &[u8]) -> Result<Machine, SaveFault>
    requires { length bytes.now < 2 ^ 62 }
    ensures resumed { IfOk result (GoesOnFrom image bytes.now) }
    ensures refused { IfErr result (IsRefusedAs (judged_of image (said_by bytes.now))) }
{
    let accepted = read_save(alloc, &image, bytes)?;
    match machine_of(alloc, image, &accepted) {
        Ok(machine) => Ok(machine),
        Err(Memory) => Err(SaveFault::Memory),
    }
}
