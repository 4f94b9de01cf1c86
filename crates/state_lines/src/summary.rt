//! The last line: the summary.
ghost use Rattle.std.specs.Prelude.{◌≡◌, ◌+◌, ◌%◌, ◌<◌, ◌≤◌, ◌++◌, false, length, map, take, codes, decimal, slice_get, IfSome, OnOk};
ghost use Rattle.sn_base.specs.Blocks.{ram_start, ram_size};
ghost use Rattle.machine_states.specs.Machine.{flat_of};
ghost use Rattle.sn_probe.specs.Probes.{meters_in, tallies_of};
ghost use Rattle.state_json.specs.Json.{or_null, with_commas, array, large};
ghost use Rattle.state_json.specs.Lines.{core_texts, watch_text, tally_text, summary_text, last_line};

use machine_states::sn_machine::Machine;
use sn_base::{Memory, NodeId};
use sn_probe::ProbeSet;
use state_texts::{
    add, add_comma, add_core, add_large, add_member, add_null, add_number, add_opening, add_word,
};

// How many numbers of a probe the summary shows at most.
const PLACES: usize = 16;

fn add_each_core(text: &mut Vec<u8>, machine: &Machine) -> Result<(), Memory>
    ensures { OnOk result (text.new.items ≡ text.old.items
        ++ with_commas false (core_texts machine.now.config.nodes (flat_of machine.now))) }
{
    let mut others = false;
    let count = machine.config().nodes;
    'nodes: for number in 0..count {
        let view = machine.recovered();
        add_comma(text, others)?;
        add_core(text, view.core(NodeId::numbered(number)))?;
        others = true;
    }
    Ok(())
}

/// The watched word with its address, or null.
fn add_watched(text: &mut Vec<u8>, machine: &Machine, watch: Option<u32>) -> Result<(), Memory>
    requires { IfSome watch (λ address. (ram_start ≤ address) × (address < ram_start + ram_size) × (address % 4 ≡ 0)) }
    ensures { OnOk result (text.new.items ≡ text.old.items ++ or_null (watch_text (flat_of machine.now)) watch) }
{
    match watch {
        Some(address) => {
            let view = machine.recovered();
            add_opening(text, "address")?;
            add_word(text, address)?;
            add_member(text, "word")?;
            add_word(text, view.word(address))?;
            add(text, "}")
        }
        None => add_null(text),
    }
}

fn add_each_number(text: &mut Vec<u8>, probes: &ProbeSet, probe: usize) -> Result<(), Memory>
    requires { probe < length probes.now.probes.items }
    ensures { OnOk result (IfSome (slice_get (meters_in first tally step probes.now.probes.items) probe) (λ m.
        text.new.items ≡ text.old.items ++ with_commas false (map large (take 16 m.tally)))) }
{
    let mut others = false;
    'places: for place in 0..PLACES {
        let Some(value) = probes.line(probe, place) else {
            return Ok(());
        };
        add_comma(text, others)?;
        add_large(text, value)?;
        others = true;
    }
    Ok(())
}

/// The numbers of a probe.
fn add_tally(text: &mut Vec<u8>, probes: &ProbeSet, probe: usize) -> Result<(), Memory>
    requires { probe < length probes.now.probes.items }
    ensures { OnOk result (IfSome (slice_get (meters_in first tally step probes.now.probes.items) probe) (λ m.
        text.new.items ≡ text.old.items ++ tally_text m.tally)) }
{
    add(text, "[")?;
    add_each_number(text, probes, probe)?;
    add(text, "]")
}

fn add_each_tally(text: &mut Vec<u8>, probes: &ProbeSet) -> Result<(), Memory>
    ensures { OnOk result (text.new.items ≡ text.old.items
        ++ with_commas false (map tally_text (tallies_of (meters_in first tally step probes.now.probes.items)))) }
{
    let mut others = false;
    'probes: for probe in 0..probes.count() {
        add_comma(text, others)?;
        add_tally(text, probes, probe)?;
        others = true;
    }
    Ok(())
}

/// The summary of the events that were applied to the machine.
fn add_summary(
    text: &mut Vec<u8>,
    machine: &Machine,
    watch: Option<u32>,
    probes: &ProbeSet,
) -> Result<(), Memory>
    requires { IfSome watch (λ address. (ram_start ≤ address) × (address < ram_start + ram_size) × (address % 4 ≡ 0)) }
    ensures { OnOk result (text.new.items ≡ text.old.items ++ summary_text (flat_of machine.now) machine.now.config watch
        (tallies_of (meters_in first tally step probes.now.probes.items)) machine.now.applied machine.now.state) }
{
    let view = machine.recovered();
    add_opening(text, "events")?;
    add_number(text, u64::from(machine.applied()))?;
    add_member(text, "point")?;
    add_number(text, u64::from(view.point()))?;
    add_member(text, "committed")?;
    add_number(text, view.committed().len() as u64)?;
    add_member(text, "released")?;
    add_number(text, view.released().len() as u64)?;
    add_member(text, "cores")?;
    add(text, "[")?;
    add_each_core(text, machine)?;
    add(text, "]")?;
    add_member(text, "watch")?;
    add_watched(text, machine, watch)?;
    add_member(text, "probes")?;
    add(text, "[")?;
    add_each_tally(text, probes)?;
    add(text, "]")?;
    add(text, "}")
}

/// The summary, as an object with one member.
#[tactic(auto, unfolding(state_json::specs::Lines::last_line))]
pub fn add_last_line(
    text: &mut Vec<u8>,
    machine: &Machine,
    watch: Option<u32>,
    probes: &ProbeSet,
) -> Result<(), Memory>
    requires { IfSome watch (λ address. (ram_start ≤ address) × (address < ram_start + ram_size) × (address % 4 ≡ 0)) }
    ensures { OnOk result (text.new.items ≡ text.old.items ++ last_line machine.now.image machine.now.config watch
        (tallies_of (meters_in first tally step probes.now.probes.items)) machine.now.applied machine.now.state) }
{
    add_opening(text, "summary")?;
    add_summary(text, machine, watch, probes)?;
    add(text, "}")?;
    add(text, "\n")
}
