//! Runs of neighbouring seeds side by side, each on a machine of its own.
ghost use Rattle.std.specs.Prelude.{◌≡◌, ◌⊎◌, ◌+◌, ◌^◌, ◌<◌, ◌≤◌, [], length, vec_len, true, false, IfOk, OnOk, OnErr, Ok, Err};
ghost use Rattle.sn_io.specs.Outside.{Rose};
ghost use Rattle.sn_probe.specs.Probes.{meters_in};
ghost use Rattle.sink_pieces.specs.Pieces.{ends, after, Breaks};
ghost use Rattle.seed_runs.specs.Pieces.{seed_pieces, seeds_pieces};
ghost use Rattle.seed_runs.specs.Played.{IsOfSeed, AreOfSeeds};
ghost use Rattle.seed_runs.specs.Shown.{MayBegin};

use crate::block::{play_seed, put_block, run_seed};
use crate::job::{SeedRuns, SeedsFault};
use crate::play::Played;
use rayon::prelude::*;
use sn_base::Memory;
use sn_io::{Failed, Sink};
use sn_probe::ProbeSet;
use std::alloc::Global;
use std::mem;
use std::thread::Threads;

// A place for each seed's run.
fn make_slots(alloc: Global, count: usize) -> Result<Vec<Option<Played>>, Memory>
    ensures { IfOk result (λ slots. vec_len slots ≡ count) }
{
    let mut slots = Vec::with_capacity(alloc, count)?;
    'slots: for _place in 0..count {
        slots.push(None)?;
    }
    Ok(slots)
}

// Has all turns of the runs of the seeds from this one on, side by side. Where memory is lacking for one, its place has nothing.
fn play_slots<T: Threads + Sync>(
    rt: &T,
    alloc: Global,
    job: &SeedRuns,
    first_seed: u64,
    slots: &mut [Option<Played>],
)
    requires may { MayBegin job.now }
    requires within { first_seed + length slots.old ≤ 2 ^ 64 }
    ensures count { length slots.new ≡ length slots.old }
    ensures each { AreOfSeeds job.now first_seed slots.new }
{
    par_for_each_mut(
        rt,
        slots,
        |number: usize, slot: &mut Option<Played>|
            requires { MayBegin job.now × (first_seed + number < 2 ^ 64) }
            ensures { IsOfSeed job.entry.now (first_seed + number) slot.new }
        {
            let played = play_seed(alloc, job, first_seed + number as u64).ok();
            drop(mem::replace(slot, played));
        },
    );
}

// Puts the block of a seed, and answers whether its run is there: where it isn't, nothing is put.
fn put_slot<C: Sink, R: Sink>(
    slot: Option<Played>,
    job: &SeedRuns,
    seed: u64,
    none: &ProbeSet,
    console: &mut C,
    report: &mut R,
) -> Result<bool, Failed>
    requires may { MayBegin job.now }
    requires played { IsOfSeed job.now seed slot }
    requires alone { meters_in first tally step none.now.probes.items ≡ [] }
    ensures ok { IfOk result (λ there. there ≡ true → ends (C.written console.new) (R.written report.new)
        ≡ after (ends (C.written console.old) (R.written report.old)) (seed_pieces job.now seed)) }
    ensures missing { result ≡ Ok false → (console.new ≡ console.old) × (report.new ≡ report.old) }
    ensures err { OnErr result (Breaks (seed_pieces job.now seed)
        (ends (C.written console.old) (R.written report.old)) (ends (C.written console.new) (R.written report.new))) }
    ensures console_later { C.faults console.old ≤ C.faults console.new }
    ensures report_later { R.faults report.old ≤ R.faults report.new }
    ensures cause { OnErr result
        (Rose (C.faults console.old) (C.faults console.new) ⊎ Rose (R.faults report.old) (R.faults report.new)) }
{
    let Some(mut played) = slot else {
        return Ok(false);
    };
    let put = put_block(&mut played, job, seed, none, console, report);
    drop(played);
    match put {
        Ok(()) => Ok(true),
        Err(_) => Err(Failed),
    }
}

// Puts the blocks of the seeds from this one on, up to the first whose run isn't there: how many these are.
fn put_slots<C: Sink, R: Sink>(
    slots: &mut [Option<Played>],
    job: &SeedRuns,
    first_seed: u64,
    none: &ProbeSet,
    console: &mut C,
    report: &mut R,
) -> Result<usize, Failed>
    requires may { MayBegin job.now }
    requires within { first_seed + length slots.old ≤ 2 ^ 64 }
    requires played { AreOfSeeds job.now first_seed slots.old }
    requires alone { meters_in first tally step none.now.probes.items ≡ [] }
    ensures few { IfOk result (λ done. done ≤ length slots.old) }
    ensures ok { IfOk result (λ done. ends (C.written console.new) (R.written report.new)
        ≡ after (ends (C.written console.old) (R.written report.old)) (seeds_pieces job.now first_seed done)) }
    ensures err { OnErr result (Breaks (seeds_pieces job.now first_seed (length slots.old))
        (ends (C.written console.old) (R.written report.old)) (ends (C.written console.new) (R.written report.new))) }
    ensures console_later { C.faults console.old ≤ C.faults console.new }
    ensures report_later { R.faults report.old ≤ R.faults report.new }
    ensures cause { OnErr result
        (Rose (C.faults console.old) (C.faults console.new) ⊎ Rose (R.faults report.old) (R.faults report.new)) }
{
    'slots: for place in 0..slots.len() {
        let slot = slots[place].take();
        if !put_slot(slot, job, first_seed + place as u64, none, console, report)? {
            return Ok(place);
        }
    }
    Ok(slots.len())
}

// Runs so many seeds from this one on side by side, and puts the blocks before the first for whose run memory is lacking: how many
// these are.
fn run_side_by_side<T: Threads + Sync, C: Sink, R: Sink>(
    rt: &T,
    alloc: Global,
    job: &SeedRuns,
    first_seed: u64,
    count: usize,
    none: &ProbeSet,
    console: &mut C,
    report: &mut R,
) -> Result<usize, Failed>
    requires may { MayBegin job.now }
    requires within { first_seed + count ≤ 2 ^ 64 }
    requires alone { meters_in first tally step none.now.probes.items ≡ [] }
    ensures few { IfOk result (λ done. done ≤ count) }
    ensures ok { IfOk result (λ done. ends (C.written console.new) (R.written report.new)
        ≡ after (ends (C.written console.old) (R.written report.old)) (seeds_pieces job.now first_seed done)) }
    ensures err { OnErr result (Breaks (seeds_pieces job.now first_seed count)
        (ends (C.written console.old) (R.written report.old)) (ends (C.written console.new) (R.written report.new))) }
    ensures console_later { C.faults console.old ≤ C.faults console.new }
    ensures report_later { R.faults report.old ≤ R.faults report.new }
    ensures cause { OnErr result
        (Rose (C.faults console.old) (C.faults console.new) ⊎ Rose (R.faults report.old) (R.faults report.new)) }
{
    let Ok(mut slots) = make_slots(alloc, count) else {
        return Ok(0);
    };
    play_slots(rt, alloc, job, first_seed, slots.as_mut_slice());
    put_slots(slots.as_mut_slice(), job, first_seed, none, console, report)
}

/// The same; where memory is lacking for the first of them beside the others, it is run alone. So one is put at least, unless
/// memory is lacking for that too.
pub(crate) fn run_group<T: Threads + Sync, C: Sink, R: Sink>(
    rt: &T,
    alloc: Global,
    job: &SeedRuns,
    first_seed: u64,
    count: usize,
    none: &ProbeSet,
    console: &mut C,
    report: &mut R,
) -> Result<usize, SeedsFault>
    requires may { MayBegin job.now }
    requires some { 0 < count }
    requires within { first_seed + count ≤ 2 ^ 64 }
    requires alone { meters_in first tally step none.now.probes.items ≡ [] }
    ensures some { IfOk result (λ done. 0 < done) }
    ensures few { IfOk result (λ done. done ≤ count) }
    ensures ok { IfOk result (λ done. ends (C.written console.new) (R.written report.new)
        ≡ after (ends (C.written console.old) (R.written report.old)) (seeds_pieces job.now first_seed done)) }
    ensures sink { result ≡ Err SeedsFault.Sink → Breaks (seeds_pieces job.now first_seed count)
        (ends (C.written console.old) (R.written report.old)) (ends (C.written console.new) (R.written report.new)) }
    ensures memory { result ≡ Err SeedsFault.Memory → ends (C.written console.new) (R.written report.new)
        ≡ ends (C.written console.old) (R.written report.old) }
    ensures console_later { C.faults console.old ≤ C.faults console.new }
    ensures report_later { R.faults report.old ≤ R.faults report.new }
    ensures cause { result ≡ Err SeedsFault.Sink
        → Rose (C.faults console.old) (C.faults console.new) ⊎ Rose (R.faults report.old) (R.faults report.new) }
{
    match run_side_by_side(rt, alloc, job, first_seed, count, none, console, report) {
        Err(_) => Err(SeedsFault::Sink),
        Ok(0) => match run_seed(alloc, job, first_seed, none, console, report) {
            Ok(()) => Ok(1),
            Err(fault) => Err(fault),
        },
        Ok(done) => Ok(done),
    }
}
