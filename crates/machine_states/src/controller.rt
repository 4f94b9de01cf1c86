//! The service controller, with what it commits.
ghost use Rattle.std.specs.Prelude.{◌≡◌, ◌++◌, false, decimal, length, map, OnOk};
ghost use Rattle.sn_machine.specs.Parts.{held_as};
ghost use Rattle.state_parts.specs.Parts.{controller_part};
ghost use Rattle.state_json.specs.Json.{with_commas, array};
ghost use Rattle.state_json.specs.Values.{held_text};
ghost use Rattle.state_json.specs.Parts.{controller_text};

use sn_base::Memory;
use sn_machine::{Machine, Waiting};
use state_texts::{add, add_comma, add_held, add_member, add_number, add_opening, add_reported};

fn add_each_held(text: &mut Vec<u8>, held: &[Waiting<u8>]) -> Result<(), Memory>
    ensures { OnOk result (text.new.items ≡ text.old.items ++ with_commas false (map held_text (map held_as held.now))) }
{
    let mut others = false;
    'bytes: for one in held {
        add_comma(text, others)?;
        add_held(text, one.interval, one.entry)?;
        others = true;
    }
    Ok(())
}

/// The bytes that are held.
fn add_all_held(text: &mut Vec<u8>, machine: &Machine) -> Result<(), Memory>
    ensures { OnOk result (text.new.items ≡ text.old.items ++ array (map held_text machine.now.state.held)) }
{
    add(text, "[")?;
    add_each_held(text, machine.held())?;
    add(text, "]")
}

fn add_point(text: &mut Vec<u8>, machine: &Machine) -> Result<(), Memory>
    ensures { OnOk result (text.new.items ≡ text.old.items ++ decimal machine.now.state.fabric.point) }
{
    let view = machine.recovered();
    add_number(text, u64::from(view.point()))
}

/// How many records are committed.
fn add_committed(text: &mut Vec<u8>, machine: &Machine) -> Result<(), Memory>
    ensures { OnOk result (text.new.items ≡ text.old.items ++ decimal (length machine.now.state.committed)) }
{
    let view = machine.recovered();
    add_number(text, view.committed().len() as u64)
}

/// How many bytes are released.
fn add_released(text: &mut Vec<u8>, machine: &Machine) -> Result<(), Memory>
    ensures { OnOk result (text.new.items ≡ text.old.items ++ decimal (length machine.now.state.released)) }
{
    let view = machine.recovered();
    add_number(text, view.released().len() as u64)
}

/// The controller, whole.
#[tactic(auto, unfolding(state_json::specs::Parts::controller_text))]
pub fn add_controller(text: &mut Vec<u8>, machine: &Machine) -> Result<(), Memory>
    ensures { OnOk result (text.new.items ≡ text.old.items ++ controller_text (controller_part machine.now.state)) }
{
    add_opening(text, "point")?;
    add_point(text, machine)?;
    add_member(text, "reported")?;
    add_reported(text, machine.reported())?;
    add_member(text, "committed")?;
    add_committed(text, machine)?;
    add_member(text, "held")?;
    add_all_held(text, machine)?;
    add_member(text, "released")?;
    add_released(text, machine)?;
    add(text, "}")
}
