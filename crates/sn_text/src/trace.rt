//! Reads traces: one record a line.
ghost use Rattle.std.specs.Prelude.{◌≡◌, ◌<◌, ◌≤◌, ◌^◌, All, IfOk, IfErr, MatchOption, Some, None, length, Ok};
ghost use Rattle.sn_text.specs.Items.{IsRefusedAs};
ghost use Rattle.sn_text.specs.Trace.{word_by, word_of, flag_of, record_by, record_of, trace_of};
ghost use Rattle.sn_base.specs.declared.limits.TheConstants.{EVENTS};

use crate::cause::{Fault, ScriptFault};
use crate::items::{Form, read_items};
use crate::numbers::number_in;
use crate::operands::{byte_in, node_by, parted};
use rv_core::Record;
use std::alloc::Global;
use std::marker::Model;

/// The word of four bytes, from its highest.
fn word_by(a: Option<u8>, b: Option<u8>, c: Option<u8>, d: Option<u8>) -> Option<u32>
    ensures { result ≡ word_by a b c d }
{
    match (a, b, c, d) {
        (Some(a), Some(b), Some(c), Some(d)) => Some(u32::from_be_bytes([a, b, c, d])),
        _ => None,
    }
}

/// The word of eight lower-case hexadecimal digits.
#[tactic(auto, unfolding(crate::specs::Trace::word_of))]
pub fn word_in(text: &[u8]) -> Option<u32>
    ensures { result ≡ word_of text.now }
{
    if text.len() != 8 {
        return None;
    }
    word_by(
        byte_in(&text[..2]),
        byte_in(&text[2..4]),
        byte_in(&text[4..6]),
        byte_in(&text[6..]),
    )
}

fn flag_in(text: &[u8]) -> Option<bool>
    ensures { result ≡ flag_of text.now }
{
    match text {
        b"1" => Some(true),
        b"0" => Some(false),
        _ => None,
    }
}

/// A record of these parts, where each is there and the core is one of the machine.
fn record_by(
    nodes: u8,
    core: Option<u64>,
    seen: Option<u32>,
    sc_done: Option<bool>,
    read: Option<Option<u8>>,
) -> Result<Record, Fault>
    requires few { nodes ≤ 16 }
    ensures same { result ≡ record_by nodes core seen sc_done read }
    ensures there { IfOk result (λ taken. taken.core < nodes) }
{
    match (core, seen, sc_done, read) {
        (Some(core), Some(seen), Some(sc_done), Some(read)) => Ok(Record {
            core: node_by(nodes, core)?,
            seen,
            sc_done,
            read,
        }),
        _ => Err(Fault::NotOfForm),
    }
}

/// The record that a line of a trace says.
#[tactic(auto, unfolding(crate::specs::Trace::record_of))]
pub fn record_in(nodes: u8, line: &[u8]) -> Result<Record, Fault>
    requires few { nodes ≤ 16 }
    ensures same { result ≡ record_of nodes line.now }
    ensures there { IfOk result (λ taken. taken.core < nodes) }
{
    let Some((core, rest)) = parted(line) else {
        return Err(Fault::NotOfForm);
    };
    let Some((seen, last)) = parted(rest) else {
        return Err(Fault::NotOfForm);
    };
    let (sc_done, read) = match parted(last) {
        Some((sc_done, byte)) => (sc_done, byte_in(byte).map(Some)),
        None => (last, Some(None)),
    };
    record_by(
        nodes,
        number_in(core),
        word_in(seen),
        flag_in(sc_done),
        read,
    )
}

/// Traces of a machine of so many nodes.
#[derive(Drop)]
struct TraceForm {
    nodes: u8,
}

impl Model for TraceForm {
    ghost use Rattle.std.specs.Prelude.{ℕ, ◌≤◌};

    ghost Value = { ℕ };

    ghost view = { λ f. f.nodes };

    ghost invariant = { λ f. f.nodes ≤ 16 };
}

impl Form for TraceForm {
    type Item = Record;

    ghost use Rattle.std.specs.Prelude.{◌<◌};
    ghost use Rattle.sn_text.specs.Trace.{record_of};

    ghost item_of = { λ nodes line. record_of nodes line };

    ghost good = { λ nodes taken. taken.core < nodes };

    fn read(&self, line: &[u8]) -> Result<Record, Fault> {
        record_in(self.nodes, line)
    }
}

/// The records of a trace of a machine of so many nodes, or the first cause for which it isn't one. It refuses a line for its
/// form before its core, and counts the record after the 1,000,000th only where its line is good. It takes memory for the
/// records; the file's length is for the caller to judge. Whether the records are an execution isn't asked here.
pub fn read_trace(alloc: Global, bytes: &[u8], nodes: u8) -> Result<Vec<Record>, ScriptFault>
    requires few { nodes ≤ 16 }
    requires length { length bytes.now < 2 ^ 62 }
    ensures ok { IfOk result (λ records. trace_of nodes bytes.now ≡ Ok records.items) }
    ensures fit { IfOk result (λ records. All (λ taken. taken.core < nodes) records.items) }
    ensures few { IfOk result (λ records. length records.items ≤ EVENTS) }
    ensures refused { IfErr result (IsRefusedAs (trace_of nodes bytes.now)) }
{
    read_items(alloc, &TraceForm { nodes }, bytes)
}
