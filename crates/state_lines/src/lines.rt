//! The first line.
ghost use Rattle.std.specs.Prelude.{◌≡◌, ◌++◌, OnOk};
ghost use Rattle.state_json.specs.Lines.{first_line};

use machine_states::add_state;
use machine_states::sn_machine::Machine;
use sn_base::Memory;
use state_texts::{add, add_member, add_number, add_opening, add_word};

/// The form's name, the machine's sizes, the program's entry, and the whole state after the events that were applied.
#[tactic(auto, unfolding(state_json::specs::Lines::first_line))]
pub fn add_first_line(text: &mut Vec<u8>, machine: &Machine) -> Result<(), Memory>
    ensures { OnOk result (text.new.items ≡ text.old.items
        ++ first_line machine.now.image machine.now.config machine.now.applied machine.now.state) }
{
    let sizes = machine.config();
    add_opening(text, "form")?;
    add(text, "\"")?;
    add(text, "safetynet states 1")?;
    add(text, "\"")?;
    add_member(text, "nodes")?;
    add_number(text, u64::from(sizes.nodes))?;
    add_member(text, "sets")?;
    add_number(text, u64::from(sizes.sets))?;
    add_member(text, "ways")?;
    add_number(text, u64::from(sizes.ways))?;
    add_member(text, "log")?;
    add_number(text, u64::from(sizes.log))?;
    add_member(text, "entry")?;
    add_word(text, machine.image().entry())?;
    add_member(text, "events")?;
    add_number(text, u64::from(machine.applied()))?;
    add_member(text, "state")?;
    add_state(text, machine)?;
    add(text, "}")?;
    add(text, "\n")
}
