//! What a line says.
ghost use Rattle.std.specs.Prelude.{◌≡◌, ◌≤◌, ◌<◌, ◌^◌, ◌&&◌, nat_lt, if◌then◌else◌, IfOk, IfSome, Ok, Err};
ghost use Rattle.sn_model.specs.Caches.{block_count};
ghost use Rattle.driven_replay.specs.Looks.{block_in, draw_by, draw_in, look_of, HasItsNode};
ghost use Rattle.driven_replay.specs.Said.{SaidFits, back_to, said_in};

use crate::job::{Look, Said};
use sn_base::{BLOCKS, BlockNo, NodeId};
use sn_text::{Fault, event_in, is_skipped, node_in, number_in, parted, rest_after};

fn block_by(number: u64) -> Result<BlockNo, Fault>
    ensures { result ≡ if nat_lt number block_count then Ok number else Err Fault.NotThere }
{
    if number >= BLOCKS as u64 {
        return Err(Fault::NotThere);
    }
    Ok(BlockNo::new(number as u16))
}

// A block of memory.
fn block_in(text: &[u8]) -> Result<BlockNo, Fault>
    ensures { result ≡ block_in text.now }
{
    match number_in(text) {
        Some(number) => block_by(number),
        None => Err(Fault::NotOfForm),
    }
}

// A worker of so many nodes, and a number that it may draw.
fn drawn(nodes: u8, worker: u64, pick: u64) -> Result<Look, Fault>
    requires few { nodes ≤ 16 }
    ensures same { result ≡ if nat_lt worker nodes && nat_lt pick (2 ^ 32) then Ok (Look.Due worker pick) else Err Fault.NotThere }
    ensures there { IfOk result (HasItsNode nodes) }
{
    if worker >= u64::from(nodes) || pick > u64::from(u32::MAX) {
        return Err(Fault::NotThere);
    }
    Ok(Look::Due(NodeId::numbered(worker as u8), pick as u32))
}

fn draw_by(nodes: u8, worker: Option<u64>, pick: Option<u64>) -> Result<Look, Fault>
    requires few { nodes ≤ 16 }
    ensures same { result ≡ draw_by nodes worker pick }
    ensures there { IfOk result (HasItsNode nodes) }
{
    match (worker, pick) {
        (Some(worker), Some(pick)) => drawn(nodes, worker, pick),
        _ => Err(Fault::NotOfForm),
    }
}

fn draw_in(nodes: u8, text: &[u8]) -> Result<Look, Fault>
    requires few { nodes ≤ 16 }
    ensures same { result ≡ draw_in nodes text.now }
    ensures there { IfOk result (HasItsNode nodes) }
{
    match parted(text) {
        Some((worker, pick)) => draw_by(nodes, number_in(worker), number_in(pick)),
        None => Err(Fault::NotOfForm),
    }
}

// The look that a line asks for; None where it is none that asks.
#[tactic(auto, unfolding(crate::specs::Looks::look_of))]
fn look_in(nodes: u8, line: &[u8]) -> Option<Result<Look, Fault>>
    requires few { nodes ≤ 16 }
    ensures same { result ≡ look_of nodes line.now }
    ensures there { IfSome result (λ asked. IfOk asked (HasItsNode nodes)) }
{
    if line == b"show".as_slice() {
        Some(Ok(Look::State))
    } else if line == b"flights".as_slice() {
        Some(Ok(Look::Flights))
    } else if let Some(node) = rest_after(line, "node ") {
        Some(node_in(nodes, node).map(Look::Node))
    } else if let Some(node) = rest_after(line, "core ") {
        Some(node_in(nodes, node).map(Look::Core))
    } else if let Some(block) = rest_after(line, "block ") {
        Some(block_in(block).map(Look::Block))
    } else if let Some(words) = rest_after(line, "due ") {
        Some(draw_in(nodes, words))
    } else {
        None
    }
}

// So many events stay.
fn back_to(nodes: u8, events: Option<u64>) -> Said
    ensures same { result ≡ back_to events }
    ensures fits { SaidFits nodes result }
{
    match events {
        Some(events) if events <= u64::from(u32::MAX) => Said::Back(events as u32),
        _ => Said::Refused(Fault::NotOfForm),
    }
}

/// What a line says.
pub(crate) fn said_in(nodes: u8, line: &[u8]) -> Said
    requires few { nodes ≤ 16 }
    ensures same { result ≡ said_in nodes line.now }
    ensures fits { SaidFits nodes result }
{
    if is_skipped(line) {
        return Said::Nothing;
    }
    if let Some(event) = rest_after(line, "foresee ") {
        return match event_in(nodes, event) {
            Ok(event) => Said::Foresees(event),
            Err(fault) => Said::Refused(fault),
        };
    }
    if line == b"mark".as_slice() {
        return Said::Marks;
    }
    if let Some(events) = rest_after(line, "back ") {
        return back_to(nodes, number_in(events));
    }
    match look_in(nodes, line) {
        Some(Ok(look)) => return Said::Looks(look),
        Some(Err(fault)) => return Said::Refused(fault),
        None => {}
    }
    match event_in(nodes, line) {
        Ok(event) => Said::Does(event),
        Err(fault) => Said::Refused(fault),
    }
}
