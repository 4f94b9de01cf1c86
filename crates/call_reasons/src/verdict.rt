//! Why a trace is no execution: what the flat machine has at the place of its first record without a step.
ghost use Rattle.std.specs.Prelude.{◌≡◌, ◌≢◌, ◌+◌, ◌-◌, ◌<◌, ◌≤◌, ◌^◌, ◌↔◌, ℕ, List, Option, Some, Ok, IfOk, OnOk, length, take, option_map, true};
ghost use Rattle.sn_base.specs.Config.{lies_in};
ghost use Rattle.rv_core.specs.Wanted.{IsInside};
ghost use Rattle.rv_core.specs.Step.{want_of};
ghost use Rattle.rv_core.specs.Flat.{flat_start, core_at};
ghost use Rattle.rv_core.specs.Execution.{Executes, state_after};
ghost use Rattle.command_words.specs.Request.{as_check};
ghost use Rattle.elf_load.specs.Loading.{image_of};
ghost use Rattle.call_reasons.specs.Verdict.{record_at, word_for, word_read, IsFound};
ghost use Rattle.call_reasons.specs.Reason.{IsOfRecord};

use crate::content::{PROGRAM_LIMIT, SCRIPT_LIMIT, fetch, records_in};
use command_words::Check;
use elf_load::{LoadFault, load};
use reasons::{Reason, write_refused};
use rv_core::{Record, Want};
use sn_base::{Image, Memory};
use sn_flat::Flat;
use sn_io::Store;
use std::alloc::Global;

// The record at a place, counted from 1.
fn record_at(records: &[Record], place: u64) -> Option<&Record>
    ensures { option_map (λ taken. taken.now) result ≡ record_at records.now place }
{
    match place.checked_sub(1) {
        Some(before) => records.get(before as usize),
        None => None,
    }
}

// The word that memory has where an instruction reads it.
fn word_for(flat: &Flat, want: Want) -> Option<u32>
    requires inside { IsInside want }
    ensures { result ≡ word_for want flat.now.memory }
{
    match want {
        Want::Load(address) | Want::Amo(address) | Want::Lr(address) => {
            Some(flat.word(address - address % 4))
        }
        Want::Nothing | Want::Store(_) | Want::Sc(_) | Want::Input => None,
    }
}

// What the core of a record reads in memory, where it runs.
fn word_read(flat: &Flat, image: &Image, taken: &Record) -> Option<u32>
    requires there { taken.now.core < length flat.now.cores }
    ensures { result ≡ word_read image.now flat.now taken.now }
{
    let core = flat.core(taken.core);
    if core.is_running() {
        word_for(flat, core.want(image))
    } else {
        None
    }
}

// The flat machine after these records, as far as each is a step.
#[tactic(auto, using(crate::proofs::Runs::run_next, crate::proofs::Runs::run_last, crate::proofs::Runs::steps_next, crate::proofs::Runs::steps_last, crate::proofs::Runs::steps_stop))]
fn run_through(flat: &mut Flat, image: &Image, records: &[Record]) -> bool
    ensures state { result ≡ true → flat.new ≡ state_after image.now flat.old records.now }
    ensures steps { (result ≡ true) ↔ Executes image.now flat.old records.now }
    ensures nodes { length flat.new.cores ≡ length flat.old.cores }
{
    'records: for taken in records {
        if flat.step(image, taken).is_err() {
            return false;
        }
    }
    true
}

// The word that memory has where the record at a place reads another, after the records before it.
fn missed_word(
    alloc: Global,
    program: &[u8],
    nodes: u8,
    records: &[Record],
    place: u64,
) -> Result<Option<u32>, Memory>
    requires some { 1 ≤ nodes }
    requires few { nodes ≤ 16 }
    ensures { IfOk result (IsFound program.now nodes records.now place) }
{
    let Some(taken) = record_at(records, place) else {
        return Ok(None);
    };
    let image = match load(alloc, program) {
        Ok(image) => image,
        Err(LoadFault::Refused(_)) => return Ok(None),
        Err(LoadFault::Memory) => return Err(Memory),
    };
    let mut flat = Flat::start(alloc, &image, nodes)?;
    if taken.core.number() >= nodes
        || !run_through(&mut flat, &image, &records[..(place - 1) as usize])
    {
        return Ok(None);
    }
    Ok(word_read(&flat, &image, taken).filter(|word| *word != taken.seen))
}

/// Which record of a trace is no step of the flat machine, and the word that memory has there, where that is why.
pub fn write_verdict<S: Store>(
    alloc: Global,
    store: &mut S,
    reason: &mut Reason,
    asked: &Check,
    place: u64,
) -> Result<(), Memory>
    requires { lies_in 1 16 asked.now.nodes ≡ true }
    ensures told { (held : List ℕ → Option (List ℕ)) → S.sure store.old → S.files store.old ≡ Some held → OnOk result
        (IsOfRecord held (as_check asked.now) place reason.old reason.new) }
    ensures files { S.files store.new ≡ S.files store.old }
    ensures stays_sure { S.sure store.old → S.sure store.new }
{
    let program = fetch(alloc, store, asked.program.as_str(), PROGRAM_LIMIT)?;
    let trace = fetch(alloc, store, asked.trace.as_str(), SCRIPT_LIMIT)?;
    let records = records_in(alloc, trace.bytes(), asked.nodes)?;
    let taken = record_at(records.as_slice(), place);
    let word = missed_word(
        alloc,
        program.bytes(),
        asked.nodes,
        records.as_slice(),
        place,
    )?;
    write_refused(reason, place, trace.bytes(), taken, word)
}
