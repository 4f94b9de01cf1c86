//! Reads a save file for a program: its lines, and then what they say.
ghost use Rattle.std.specs.Prelude.{◌≡◌, ◌<◌, ◌≤◌, ◌^◌, true, Ok, Err, IfOk, IfErr, IsOk, length};
ghost use Rattle.sn_base.specs.Config.{config_fits};
ghost use Rattle.rv_core.specs.Execution.{IsExecution, end_of};
ghost use Rattle.sn_saved.specs.Resumed.{flat_resumed};
ghost use Rattle.sn_saved.specs.Saved.{IsAccepted};
ghost use Rattle.save_text.specs.Reading.{said_by};
ghost use Rattle.save_text.specs.Judged.{Fits, IsLegal, IsGood, judged, judged_of};
ghost use Rattle.save_text.specs.Lines.{IsRefusedAs};
ghost use Rattle.sn_base.specs.Image.{ImageData};

use crate::cause::{SaveCause, SaveFault};
use crate::lines::read_lines;
use crate::reads::first_unread;
use crate::replay::{Stop, replay};
use crate::saved::Saved;
use crate::sets::full_line;
use route_plan::cut_off;
use sn_base::Image;
use sn_flat::Flat;
use std::alloc::Global;

/// What a machine can go on from, and the flat machine after its records.
#[derive(Drop)]
pub struct Accepted {
    pub saved: Saved,
    pub flat: Flat,
}

/// Refuses nodes that are cut off, and sets that are too full.
#[tactic(auto, using(crate::proofs::Judged::is_cut_off, crate::proofs::Judged::is_too_full))]
fn check_places(saved: &Saved) -> Result<(), SaveCause>
    requires fits { config_fits saved.now.config ≡ true }
    ensures ok { IsOk result → Fits saved.now }
    ensures refused { IfErr result (λ cause. (image : ImageData) → judged image saved.now ≡ Err cause) }
{
    if let Some((a, b)) = cut_off(saved.config.nodes, saved.marks.dead) {
        return Err(SaveCause::CutOff(a, b));
    }
    match full_line(saved) {
        Some(line) => Err(SaveCause::SetFull(line)),
        None => Ok(()),
    }
}

/// The flat machine after the records, where all are steps.
fn replay_saved(alloc: Global, image: &Image, saved: &Saved) -> Result<Flat, SaveFault>
    requires fits { config_fits saved.now.config ≡ true }
    requires places { Fits saved.now }
    ensures ok { IfOk result (λ flat. IsLegal image.now saved.now × (flat ≡ flat_resumed image.now saved.now)) }
    ensures refused { IfErr result (IsRefusedAs (judged image.now saved.now)) }
{
    match replay(alloc, image, saved.config.nodes, saved.committed.as_slice()) {
        Ok(flat) => Ok(flat),
        Err(Stop::At(place)) => Err(SaveFault::Refused(SaveCause::NotLegal(place as u64 + 1))),
        Err(Stop::Memory) => Err(SaveFault::Memory),
    }
}

/// Refuses bytes that were read and not given.
#[tactic(auto, using(crate::proofs::Judged::is_not_given))]
fn check_reads(image: &Image, saved: &Saved) -> Result<(), SaveCause>
    requires fits { config_fits saved.now.config ≡ true }
    requires legal { IsLegal image.now saved.now }
    ensures ok { IsOk result → IsGood image.now saved.now }
    ensures refused { IfErr result (λ cause. judged image.now saved.now ≡ Err cause) }
{
    let _entry = image.entry();
    match first_unread(saved) {
        Some(node) => Err(SaveCause::Unread(node)),
        None => Ok(()),
    }
}

/// What a save file of this program says, or the first cause for which it is refused: by its lines, and then for a node that
/// is cut off, a set that is too full, a record that is no step, and a byte that wasn't given. It takes memory for what it
/// reads and for the flat machine; the file's length is for the caller to judge.
pub fn read_save(alloc: Global, image: &Image, bytes: &[u8]) -> Result<Accepted, SaveFault>
    requires { length bytes.now < 2 ^ 62 }
    ensures said { IfOk result (λ a. judged_of image.now (said_by bytes.now) ≡ Ok a.saved) }
    ensures accepted { IfOk result (λ a. IsAccepted image.now a.saved) }
    ensures flat { IfOk result (λ a. a.flat ≡ flat_resumed image.now a.saved) }
    ensures refused { IfErr result (IsRefusedAs (judged_of image.now (said_by bytes.now))) }
{
    let saved = read_lines(alloc, bytes)?;
    check_places(&saved).map_err(SaveFault::Refused)?;
    let flat = replay_saved(alloc, image, &saved)?;
    check_reads(image, &saved).map_err(SaveFault::Refused)?;
    Ok(Accepted { saved, flat })
}
