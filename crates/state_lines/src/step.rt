//! A core's step: its instruction, and what it did.
ghost use Rattle.std.specs.Prelude.{◌≡◌, ◌≤◌, ◌++◌, true, codes, IfSome, OnOk, List, [], ◌∷◌, Some};
ghost use Rattle.sn_base.specs.Blocks.{bytes_of};
ghost use Rattle.sn_base.specs.Events.{event_fits};
ghost use Rattle.sn_base.specs.Image.{word_fetched};
ghost use Rattle.sn_base.specs.declared.event.Event.{Event};
ghost use Rattle.rv_asm.specs.Text.{word_text};
ghost use Rattle.sn_model.specs.Machine.{Retirement};
ghost use Rattle.machine_states.specs.Machine.{IsApplied, next_of};
ghost use Rattle.state_json.specs.Json.{or_null, member};
ghost use Rattle.state_json.specs.Details.{write_text, instruction_text, details_text};
ghost use Rattle.state_lines.specs.Steps.{CanFinish, retired_text, core_step_text};

use machine_states::sn_machine::Machine;
use rv_asm::add_line;
use rv_core::{CoreState, Record};
use sn_base::{Answer, Event, Image, Memory, NodeId, Width, Write};
use state_texts::{
    add, add_flag, add_member, add_null, add_number, add_opening, add_read, add_word,
};

/// How many bytes an access of this width has.
fn size_of(width: Width) -> u64
    ensures { result ≡ bytes_of width }
{
    match width {
        Width::Byte => 1,
        Width::Half => 2,
        Width::Word => 4,
    }
}

/// A write to memory.
#[tactic(auto, unfolding(state_json::specs::Details::write_text))]
fn add_write(text: &mut Vec<u8>, written: &Write) -> Result<(), Memory>
    ensures { OnOk result (text.new.items ≡ text.old.items ++ write_text written.now) }
{
    add_opening(text, "address")?;
    add_word(text, written.address)?;
    add_member(text, "size")?;
    add_number(text, size_of(written.width))?;
    add_member(text, "value")?;
    add_word(text, written.value)?;
    add(text, "}")
}

fn add_any_write(text: &mut Vec<u8>, written: &Option<Write>) -> Result<(), Memory>
    ensures { OnOk result (text.new.items ≡ text.old.items ++ or_null write_text written.now) }
{
    match written {
        Some(written) => add_write(text, written),
        None => add_null(text),
    }
}

/// The instruction of a word as `dis` writes it, without the end of its line.
fn add_words_of(text: &mut Vec<u8>, word: u32) -> Result<(), Memory>
    ensures { OnOk result (text.new.items ≡ text.old.items ++ word_text word) }
{
    add_line(text, word)?;
    text.pop();
    Ok(())
}

/// The instruction at a core's program counter, or null.
fn add_instruction(text: &mut Vec<u8>, image: &Image, core: &CoreState) -> Result<(), Memory>
    ensures { OnOk result (text.new.items ≡ text.old.items ++ or_null instruction_text (word_fetched image.now.segments core.now.pc)) }
{
    match image.fetch(core.pc) {
        Some(word) => {
            add(text, "\"")?;
            add_words_of(text, word)?;
            add(text, "\"")
        }
        None => add_null(text),
    }
}

/// What a core did that retired with this record.
#[tactic(auto, unfolding(state_json::specs::Details::did_text))]
fn add_did(text: &mut Vec<u8>, image: &Image, core: &CoreState, did: &Record) -> Result<(), Memory>
    requires { CanFinish image.now core.now did.now }
    ensures { OnOk result (text.new.items ≡ text.old.items ++ retired_text image.now core.now did.now) }
{
    let mut next = *core;
    let effect = next.finish(image, did.seen, did.sc_done, did.read);
    add_opening(text, "seen")?;
    add_word(text, did.seen)?;
    add_member(text, "done")?;
    add_flag(text, did.sc_done)?;
    add_member(text, "read")?;
    add_read(text, did.read)?;
    add_member(text, "wrote")?;
    add_any_write(text, &effect.write)?;
    add_member(text, "out")?;
    add_read(text, effect.out)?;
    add(text, "}")
}

/// What it did, or null where it didn't retire.
fn add_if_did(
    text: &mut Vec<u8>,
    image: &Image,
    core: &CoreState,
    did: &Option<Record>,
) -> Result<(), Memory>
    requires { IfSome did.now (CanFinish image.now core.now) }
    ensures { OnOk result (text.new.items ≡ text.old.items ++ or_null (retired_text image.now core.now) did.now) }
{
    match did {
        Some(did) => add_did(text, image, core, did),
        None => add_null(text),
    }
}

/// The member of a core's step, as the core was before it.
#[tactic(auto, unfolding(crate::specs::Steps::core_step_text))]
fn add_core_step(
    text: &mut Vec<u8>,
    image: &Image,
    core: &CoreState,
    did: &Option<Record>,
) -> Result<(), Memory>
    requires { IfSome did.now (CanFinish image.now core.now) }
    ensures { OnOk result (text.new.items ≡ text.old.items ++ member (codes "step") (core_step_text image.now core.now did.now)) }
{
    add_member(text, "step")?;
    add_opening(text, "pc")?;
    add_word(text, core.pc)?;
    add_member(text, "instruction")?;
    add_instruction(text, image, core)?;
    add_member(text, "did")?;
    add_if_did(text, image, core, did)?;
    add(text, "}")
}

/// The record that came last of those that wait.
fn last_record(machine: &Machine) -> Option<Record>
    ensures { (before : List Retirement) (last : Retirement) → machine.now.state.pending ≡ before ++ last ∷ [] → result ≡ Some last.did }
{
    match machine.pending().last() {
        Some(last) => Some(last.entry),
        None => None,
    }
}

/// Applies a node's step, and adds what is told of it.
pub fn apply_step(text: &mut Vec<u8>, machine: &mut Machine, node: NodeId) -> Result<(), Memory>
    requires fits { event_fits machine.old.config.nodes (Event.Step node) ≡ true }
    requires room { 1 ≤ machine.old.spare }
    ensures text { OnOk result (text.new.items ≡ text.old.items
        ++ details_text machine.old.image machine.old.state (Event.Step node) (next_of machine.old (Event.Step node)).answer) }
    ensures next { OnOk result (IsApplied machine.old machine.new (Event.Step node) (next_of machine.old (Event.Step node)).answer) }
{
    let core = *machine.core(node);
    match machine.apply(Event::Step(node)) {
        Answer::Ended => Ok(()),
        Answer::Retired => add_core_step(text, machine.image(), &core, &last_record(machine)),
        _ => add_core_step(text, machine.image(), &core, &None),
    }
}
