//! Replays the records of a save file on the flat machine.
ghost use Rattle.std.specs.Prelude.{◌≡◌, ◌+◌, ◌<◌, ◌≤◌, length, IfOk, IfErr};
ghost use Rattle.rv_core.specs.Flat.{flat_start};
ghost use Rattle.rv_core.specs.Execution.{IsExecution, end_of};
ghost use Rattle.sn_consistency.specs.Projections.{FirstWithoutStep};
ghost use Rattle.save_text.specs.Replayed.{DoesFirst, IsStop};

use rv_core::Record;
use sn_base::{Image, Memory};
use sn_flat::Flat;
use std::alloc::Global;

/// Why the records led nowhere: the place of the first without a step, or memory is lacking.
#[derive(Clone, Copy, PartialEq, Eq, Debug)]
pub enum Stop {
    At(usize),
    Memory,
}

/// How many records, from the first on, are steps.
fn count_steps(flat: &mut Flat, image: &Image, records: &[Record]) -> usize
    ensures { DoesFirst image.now flat.old records.now result flat.new }
{
    'records: for place in 0..records.len() {
        if flat.step(image, &records[place]).is_err() {
            return place;
        }
    }
    records.len()
}

/// The flat machine after all records.
pub fn replay(alloc: Global, image: &Image, nodes: u8, records: &[Record]) -> Result<Flat, Stop>
    requires some { 1 ≤ nodes }
    requires few { nodes ≤ 16 }
    ensures legal { IfOk result (λ flat. IsExecution image.now nodes records.now × (flat ≡ end_of image.now nodes records.now)) }
    ensures stops { IfErr result (IsStop image.now (flat_start image.now nodes) records.now) }
{
    let mut flat = match Flat::start(alloc, image, nodes) {
        Ok(flat) => flat,
        Err(Memory) => return Err(Stop::Memory),
    };
    let done = count_steps(&mut flat, image, records);
    if done < records.len() {
        return Err(Stop::At(done));
    }
    Ok(flat)
}
