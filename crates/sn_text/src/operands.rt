//! The words of lines: nodes, messages, switches, blocks and bytes, and where a blank parts two of them.
ghost use Rattle.std.specs.Prelude.{◌≡◌, ◌*◌, ◌<◌, ◌≤◌, nat_eq, nat_lt, if◌then◌else◌, IfOk, IfSome, MatchOption, Ok, Err, Some, None};
ghost use Rattle.std.specs.Prelude.{length, true};
ghost use Rattle.std.specs.List.{position};
ghost use Rattle.sn_base.specs.Events.{event_fits, block_fits};
ghost use Rattle.sn_model.specs.Caches.{block_count};
ghost use Rattle.sn_text.specs.Script.{node_in, message_in, switch_in, parts_at_blank, evicted_at, eviction_in, hex_value, byte_of, given_to};
ghost use Rattle.sn_text.specs.Script.{input_in};

use crate::cause::Fault;
use crate::numbers::number_in;
use sn_base::{BLOCKS, BlockNo, Event, NodeId, SwitchId};

/// A node of the machine by its number.
pub(crate) fn node_by(nodes: u8, number: u64) -> Result<NodeId, Fault>
    requires few { nodes ≤ 16 }
    ensures same { result ≡ if nat_lt number nodes then Ok number else Err Fault.NotThere }
    ensures there { IfOk result (λ node. node < nodes) }
{
    if number >= u64::from(nodes) {
        return Err(Fault::NotThere);
    }
    NodeId::new(number as u8).ok_or(Fault::NotThere)
}

/// A node of the machine.
pub fn node_in(nodes: u8, text: &[u8]) -> Result<NodeId, Fault>
    requires few { nodes ≤ 16 }
    ensures same { result ≡ node_in nodes text.now }
    ensures there { IfOk result (λ node. node < nodes) }
{
    match number_in(text) {
        Some(number) => node_by(nodes, number),
        None => Err(Fault::NotOfForm),
    }
}

/// The number of a message, whether it is in flight or not.
pub fn message_in(text: &[u8]) -> Result<u64, Fault>
    ensures { result ≡ message_in text.now }
{
    number_in(text).ok_or(Fault::NotOfForm)
}

/// A switch of the machine: `a` or `b` and its node.
pub fn switch_in(nodes: u8, text: &[u8]) -> Result<SwitchId, Fault>
    requires few { nodes ≤ 16 }
    ensures same { result ≡ switch_in nodes text.now }
    ensures there { IfOk result (λ switch. switch < 2 * nodes) }
{
    match text.split_first() {
        Some((b'a', node)) => node_in(nodes, node).map(SwitchId::a),
        Some((b'b', node)) => node_in(nodes, node).map(SwitchId::b),
        _ => Err(Fault::NotOfForm),
    }
}

fn first_blank(text: &[u8]) -> Option<usize>
    ensures { result ≡ position (λ byte. nat_eq byte 32) text.now }
{
    text.iter().position(|byte| *byte == b' ')
}

/// What stands before the first blank, and what stands after it.
pub fn parted(text: &[u8]) -> Option<(&[u8], &[u8])>
    ensures { MatchOption result (parts_at_blank text.now ≡ None) (λ words. parts_at_blank text.now ≡ Some (words.0.now, words.1.now)) }
{
    let blank = first_blank(text)?;
    Some((&text[..blank], &text[blank + 1..]))
}

fn block_by(node: NodeId, block: u64) -> Result<Event, Fault>
    ensures same { result ≡ if nat_lt block block_count then Ok (Event.Evict node block) else Err Fault.NotThere }
    ensures block { IfOk result (λ event. block_fits event ≡ true) }
{
    if block >= BLOCKS as u64 {
        return Err(Fault::NotThere);
    }
    Ok(Event::Evict(node, BlockNo::new(block as u16)))
}

/// An eviction at a node of the machine, of a block of memory.
fn evicted_at(nodes: u8, node: Option<u64>, block: Option<u64>) -> Result<Event, Fault>
    requires few { nodes ≤ 16 }
    ensures same { result ≡ evicted_at nodes node block }
    ensures fits { IfOk result (λ event. event_fits nodes event ≡ true) }
    ensures block { IfOk result (λ event. block_fits event ≡ true) }
{
    match (node, block) {
        (Some(node), Some(block)) => {
            let node = node_by(nodes, node)?;
            block_by(node, block)
        }
        _ => Err(Fault::NotOfForm),
    }
}

pub(crate) fn eviction_in(nodes: u8, text: &[u8]) -> Result<Event, Fault>
    requires few { nodes ≤ 16 }
    ensures same { result ≡ eviction_in nodes text.now }
    ensures fits { IfOk result (λ event. event_fits nodes event ≡ true) }
    ensures block { IfOk result (λ event. block_fits event ≡ true) }
{
    match parted(text) {
        Some((node, block)) => evicted_at(nodes, number_in(node), number_in(block)),
        None => Err(Fault::NotOfForm),
    }
}

/// The value of a lower-case hexadecimal digit.
fn hex_value(byte: u8) -> Option<u8>
    ensures same { result ≡ hex_value byte }
    ensures small { IfSome result (λ value. value < 16) }
{
    match byte {
        b'0'..=b'9' => Some(byte - b'0'),
        b'a'..=b'f' => Some(byte - b'a' + 10),
        _ => None,
    }
}

/// The byte of two lower-case hexadecimal digits.
pub fn byte_in(text: &[u8]) -> Option<u8>
    ensures { result ≡ byte_of text.now }
{
    if text.len() != 2 {
        return None;
    }
    let high = hex_value(text[0])?;
    let low = hex_value(text[1])?;
    Some(16 * high + low)
}

/// A byte of input for a node of the machine.
fn given_to(nodes: u8, node: Option<u64>, byte: Option<u8>) -> Result<Event, Fault>
    requires few { nodes ≤ 16 }
    ensures same { result ≡ given_to nodes node byte }
    ensures fits { IfOk result (λ event. event_fits nodes event ≡ true) }
    ensures block { IfOk result (λ event. block_fits event ≡ true) }
{
    match (node, byte) {
        (Some(node), Some(byte)) => {
            let node = node_by(nodes, node)?;
            Ok(Event::Input(node, byte))
        }
        _ => Err(Fault::NotOfForm),
    }
}

pub(crate) fn input_in(nodes: u8, text: &[u8]) -> Result<Event, Fault>
    requires few { nodes ≤ 16 }
    ensures same { result ≡ input_in nodes text.now }
    ensures fits { IfOk result (λ event. event_fits nodes event ≡ true) }
    ensures block { IfOk result (λ event. block_fits event ≡ true) }
{
    match parted(text) {
        Some((node, byte)) => given_to(nodes, number_in(node), byte_in(byte)),
        None => Err(Fault::NotOfForm),
    }
}
