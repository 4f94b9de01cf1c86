//! What is noted of a replay that is done: events that were refused, and nodes that were meant.
ghost use Rattle.std.specs.Prelude.{◌≡◌, ◌≤◌, ℕ, List, Option, Some, OnOk, true, length};
ghost use Rattle.std.specs.List.{All};
ghost use Rattle.sn_base.specs.Events.{event_fits};
ghost use Rattle.sn_base.specs.Config.{config_fits};
ghost use Rattle.command_words.specs.Request.{as_request, as_replay, request_fits};
ghost use Rattle.call_reasons.specs.Notes.{names_fewer, refused_note, first_refused, default_note};
ghost use Rattle.call_reasons.specs.Noted.{notes_on, notes_of};
ghost use Rattle.sn_base.specs.declared.limits.TheConstants.{EVENTS};

use crate::content::{PROGRAM_LIMIT, SCRIPT_LIMIT, fetch};
use crate::refusals::{Refusals, Refused, refusals_of};
use command_words::{Replay, Request};
use elf_load::{LoadFault, load};
use reasons::Reason;
use sn_base::{Config, Event, Image, Memory};
use sn_io::Store;
use sn_machine::Machine;
use sn_text::{Line, ScriptFault, read_script};
use std::alloc::Global;

// How many events were refused, and the line of the first.
#[tactic(auto, unfolding(crate::specs::Notes::refused_note))]
fn write_first(
    alloc: Global,
    note: &mut Reason,
    events: u64,
    count: u64,
    first: &Refused,
) -> Result<(), Memory>
    ensures { OnOk result (note.new ≡ refused_note note.old events count first.now) }
{
    let mut line = Line::new(alloc)?;
    line.event(first.place, &first.event, &first.answer);
    let bytes = line.bytes();
    note.text("# note: ")?;
    note.number(count)?;
    note.text(" of ")?;
    note.number(events)?;
    note.text(" events were refused, the first is ")?;
    note.shown(&bytes[..bytes.len().saturating_sub(1)])?;
    note.end()
}

fn write_refusals(
    alloc: Global,
    note: &mut Reason,
    events: u64,
    refusals: Refusals,
) -> Result<(), Memory>
    ensures { OnOk result (note.new ≡ first_refused note.old events refusals.count refusals.first) }
{
    match &refusals.first {
        Some(first) => write_first(alloc, note, events, refusals.count, first),
        None => Ok(()),
    }
}

fn names_fewer(nodes: u8, events: &[Event]) -> bool
    requires { 1 ≤ nodes }
    ensures { result ≡ names_fewer nodes events.now }
{
    events.iter().all(|event| event.fits(nodes - 1))
}

#[tactic(auto, unfolding(crate::specs::Notes::default_note))]
fn write_default(note: &mut Reason, nodes: u8) -> Result<(), Memory>
    ensures { OnOk result (note.new ≡ default_note note.old nodes) }
{
    note.text("# note: --nodes wasn't given: ")?;
    note.number(u64::from(nodes))?;
    note.text(" nodes")?;
    note.end()
}

// The notes on a program's replay with these events.
fn write_on(
    alloc: Global,
    note: &mut Reason,
    image: Image,
    config: Config,
    events: &[Event],
    gives_nodes: bool,
) -> Result<(), Memory>
    requires sizes { config_fits config ≡ true }
    requires fit { All (λ event. event_fits config.nodes event ≡ true) events.now }
    requires few { length events.now ≤ EVENTS }
    ensures { OnOk result (note.new ≡ notes_on note.old image config events.now gives_nodes) }
{
    let mut machine = Machine::with_room(alloc, image, config, events.len() as u32)?;
    let refusals = refusals_of(&mut machine, events);
    drop(machine);
    write_refusals(alloc, note, events.len() as u64, refusals)?;
    if !gives_nodes && names_fewer(config.nodes, events) {
        write_default(note, config.nodes)?;
    }
    Ok(())
}

// The notes on a replay whose files can still be read.
fn write_replayed<S: Store>(
    alloc: Global,
    store: &mut S,
    note: &mut Reason,
    asked: &Replay,
    gives_nodes: bool,
) -> Result<(), Memory>
    requires sizes { config_fits asked.now.config ≡ true }
    ensures told { (held : List ℕ → Option (List ℕ)) → S.sure store.old → S.files store.old ≡ Some held → OnOk result
        (note.new ≡ notes_of note.old held (as_replay asked.now) gives_nodes) }
    ensures files { S.files store.new ≡ S.files store.old }
    ensures stays_sure { S.sure store.old → S.sure store.new }
{
    let config = asked.config;
    let program = fetch(alloc, store, asked.program.as_str(), PROGRAM_LIMIT)?;
    let script = fetch(alloc, store, asked.script.as_str(), SCRIPT_LIMIT)?;
    let image = match load(alloc, program.bytes()) {
        Ok(image) => image,
        Err(LoadFault::Refused(_)) => return Ok(()),
        Err(LoadFault::Memory) => return Err(Memory),
    };
    match read_script(alloc, script.bytes(), config.nodes) {
        Ok(events) => write_on(alloc, note, image, config, events.as_slice(), gives_nodes),
        Err(ScriptFault::Refused(_)) => Ok(()),
        Err(ScriptFault::Memory) => Err(Memory),
    }
}

/// Puts the notes on a replay that is done: a line on the events that were refused, where there are any, and one on the number
/// of nodes, where the words don't give it and no event names the last node. The script is replayed once more for it. On
/// another command there are none. After `Memory` the text is of no use.
pub fn write_notes<S: Store>(
    alloc: Global,
    store: &mut S,
    request: &Request,
    gives_nodes: bool,
    note: &mut Reason,
) -> Result<(), Memory>
    requires fits { request_fits (as_request request.now) ≡ true }
    ensures told { (held : List ℕ → Option (List ℕ)) → S.sure store.old → S.files store.old ≡ Some held → OnOk result
        (note.new ≡ notes_of note.old held (as_request request.now) gives_nodes) }
    ensures files { S.files store.new ≡ S.files store.old }
    ensures stays_sure { S.sure store.old → S.sure store.new }
{
    match request {
        Request::Replay(asked) => write_replayed(alloc, store, note, asked, gives_nodes),
        _ => Ok(()),
    }
}
