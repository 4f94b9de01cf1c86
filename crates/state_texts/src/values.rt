//! What a node and a home have, as JSON.
ghost use Rattle.std.specs.Prelude.{◌≡◌, ◌<◌, ◌≤◌, ◌++◌, codes, drop, length, map, decimal, nat_eq, not, slice_index, IfOk, OnOk, false};
ghost use Rattle.sn_base.specs.Nodes.{has_node};
ghost use Rattle.text_lines.specs.Hex.{hex_byte};
ghost use Rattle.sn_text.specs.Text.{end_text};
ghost use Rattle.state_json.specs.Json.{quotation_of, member, IsAddedIf, with_commas, array, or_null, byte, digits_below, content_text};
ghost use Rattle.state_json.specs.Values.{register_text, register_texts, core_text, state_letter, line_text, need_name, miss_text, put_text};
ghost use Rattle.state_json.specs.Values.{old_text, entry_text, record_text, held_text, kind_name, transaction_text, marked_texts};

use crate::json::{
    add, add_byte, add_comma, add_digits, add_flag, add_member, add_name_and_number,
    add_named_number, add_null, add_number, add_opening, add_quotation, add_word,
};
use rv_core::{CoreState, End, Record};
use sn_base::{Block, BlockNo, Entries, Interval, LogEntry, Memory, NodeId, NodeSet, Old, Width};
use sn_model::{Kind, LineState, Need};
use sn_text::trap_name;

/// A number, or null.
fn add_interval(text: &mut Vec<u8>, interval: Option<Interval>) -> Result<(), Memory>
    ensures { OnOk result (text.new.items ≡ text.old.items ++ or_null decimal interval) }
{
    match interval {
        Some(interval) => add_number(text, u64::from(interval)),
        None => add_null(text),
    }
}

/// A block's number, or null.
fn add_reservation(text: &mut Vec<u8>, block: Option<BlockNo>) -> Result<(), Memory>
    ensures { OnOk result (text.new.items ≡ text.old.items ++ or_null decimal block) }
{
    match block {
        Some(block) => add_number(text, u64::from(block.number())),
        None => add_null(text),
    }
}

/// A byte, or null.
pub fn add_read(text: &mut Vec<u8>, read: Option<u8>) -> Result<(), Memory>
    ensures { OnOk result (text.new.items ≡ text.old.items ++ or_null byte read) }
{
    match read {
        Some(number) => add_byte(text, number),
        None => add_null(text),
    }
}

fn add_end_words(text: &mut Vec<u8>, end: &End) -> Result<(), Memory>
    ensures { OnOk result (text.new.items ≡ text.old.items ++ end_text end.now) }
{
    match end {
        End::Running => add(text, "running"),
        End::Exited(code) => add_name_and_number(text, "exited", u64::from(*code)),
        End::Trapped(cause) => {
            add(text, "trapped ")?;
            add(text, trap_name(*cause))
        }
    }
}

fn add_end(text: &mut Vec<u8>, end: &End) -> Result<(), Memory>
    ensures { OnOk result (text.new.items ≡ text.old.items ++ quotation_of (end_text end.now)) }
{
    add(text, "\"")?;
    add_end_words(text, end)?;
    add(text, "\"")
}

fn add_register_text(text: &mut Vec<u8>, number: u8, value: u32) -> Result<(), Memory>
    ensures { OnOk result (text.new.items ≡ text.old.items ++ register_text number value) }
{
    add(text, "\"x")?;
    add_number(text, u64::from(number))?;
    add(text, "\":")?;
    add_word(text, value)
}

/// A register, unless it is 0; and whether texts stand there then.
fn add_register(text: &mut Vec<u8>, others: bool, number: u8, value: u32) -> Result<bool, Memory>
    ensures { IfOk result (λ some. IsAddedIf (not (nat_eq value 0)) (register_text number value) text.old.items text.new.items others some) }
{
    if value == 0 {
        return Ok(others);
    }
    add_comma(text, others)?;
    add_register_text(text, number, value)?;
    Ok(true)
}

/// The registers after x0 that aren't 0.
fn add_registers(text: &mut Vec<u8>, values: &[u32]) -> Result<(), Memory>
    requires few { length values.now ≤ 31 }
    ensures { OnOk result (text.new.items ≡ text.old.items ++ with_commas false (register_texts 1 values.now)) }
{
    let mut others = false;
    'registers: for (i, value) in values.iter().enumerate() {
        others = add_register(text, others, i as u8 + 1, *value)?;
    }
    Ok(())
}

// The registers after x0, which reads 0 whatever stands in it.
fn after_zero(core: &CoreState) -> &[u32]
    ensures registers { result.now ≡ drop 1 core.now.x }
    ensures few { length result.now ≤ 31 }
{
    let all: &[u32] = &core.x;
    &all[1..]
}

/// A core: its program counter, its end, its registers and its reservation.
#[tactic(auto, unfolding(state_json::specs::Values::core_text))]
pub fn add_core(text: &mut Vec<u8>, core: &CoreState) -> Result<(), Memory>
    ensures { OnOk result (text.new.items ≡ text.old.items ++ core_text core.now) }
{
    add_opening(text, "pc")?;
    add_word(text, core.pc)?;
    add_member(text, "end")?;
    add_end(text, &core.end)?;
    add_member(text, "registers")?;
    add(text, "{")?;
    add_registers(text, after_zero(core))?;
    add(text, "}")?;
    add_member(text, "reservation")?;
    add_reservation(text, core.reservation)?;
    add(text, "}")
}

/// The byte at a place of a block.
fn byte_at(content: &Block, place: usize) -> u8
    requires { place < 64 }
    ensures { hex_byte result ≡ hex_byte (slice_index content.now place) }
{
    content.load(place, Width::Byte).to_le_bytes()[0]
}

fn add_content_digits(text: &mut Vec<u8>, content: &Block) -> Result<(), Memory>
    ensures { OnOk result (text.new.items ≡ text.old.items ++ digits_below 64 content.now) }
{
    'bytes: for place in 0..64usize {
        add_digits(text, byte_at(content, place))?;
    }
    Ok(())
}

/// A block's content.
pub fn add_content(text: &mut Vec<u8>, content: &Block) -> Result<(), Memory>
    ensures { OnOk result (text.new.items ≡ text.old.items ++ content_text content.now) }
{
    add(text, "\"")?;
    add_content_digits(text, content)?;
    add(text, "\"")
}

/// A further member that is a block's content.
pub(crate) fn add_named_content(text: &mut Vec<u8>, content: &Block) -> Result<(), Memory>
    ensures { OnOk result (text.new.items ≡ text.old.items ++ member (codes "content") (content_text content.now)) }
{
    add_member(text, "content")?;
    add_content(text, content)
}

fn letter_of(state: LineState) -> &'static str
    ensures { result.now ≡ state_letter state }
{
    match state {
        LineState::Absent => "I",
        LineState::Shared => "S",
        LineState::Owned => "O",
        LineState::Modified => "M",
        LineState::Exclusive => "E",
    }
}

/// A line of a cache.
#[tactic(auto, unfolding(state_json::specs::Values::line_text))]
pub fn add_line(
    text: &mut Vec<u8>,
    block: BlockNo,
    state: LineState,
    content: &Block,
) -> Result<(), Memory>
    ensures { OnOk result (text.new.items ≡ text.old.items ++ line_text block (record { state = state; content = content.now })) }
{
    add_opening(text, "block")?;
    add_number(text, u64::from(block.number()))?;
    add_member(text, "state")?;
    add_quotation(text, letter_of(state))?;
    add_named_content(text, content)?;
    add(text, "}")
}

fn need_name(need: Need) -> &'static str
    ensures { result.now ≡ need_name need }
{
    match need {
        Need::Read => "read",
        Need::Write => "write",
    }
}

/// An open miss, by its parts.
#[tactic(auto, unfolding(state_json::specs::Values::miss_text))]
pub fn add_miss(
    text: &mut Vec<u8>,
    block: BlockNo,
    need: Need,
    issued: Interval,
    fixed: Option<Interval>,
    due: u8,
    acks: u8,
) -> Result<(), Memory>
    ensures { OnOk result (text.new.items ≡ text.old.items ++
        miss_text (record { block = block; need = need; issued = issued; fixed = fixed; due = due; acks = acks })) }
{
    add_opening(text, "block")?;
    add_number(text, u64::from(block.number()))?;
    add_member(text, "need")?;
    add_quotation(text, need_name(need))?;
    add_named_number(text, "issued", u64::from(issued))?;
    add_member(text, "fixed")?;
    add_interval(text, fixed)?;
    add_named_number(text, "due", u64::from(due))?;
    add_named_number(text, "acks", u64::from(acks))?;
    add(text, "}")
}

/// An open put, by its parts.
#[tactic(auto, unfolding(state_json::specs::Values::put_text))]
pub fn add_put(text: &mut Vec<u8>, block: BlockNo, issued: Interval) -> Result<(), Memory>
    ensures { OnOk result (text.new.items ≡ text.old.items ++ put_text (record { block = block; issued = issued })) }
{
    add_opening(text, "block")?;
    add_number(text, u64::from(block.number()))?;
    add_named_number(text, "issued", u64::from(issued))?;
    add(text, "}")
}

fn add_old(text: &mut Vec<u8>, old: &Old) -> Result<(), Memory>
    ensures { OnOk result (text.new.items ≡ text.old.items ++ old_text old.now) }
{
    match old {
        Old::NotOwned => add(text, "\"notowned\""),
        Old::Owned(content) => {
            add(text, "\"owned\"")?;
            add_named_content(text, content)
        }
        Old::WasHome(content) => {
            add(text, "\"washome\"")?;
            add_named_content(text, content)
        }
        Old::WasCache(node) => {
            add(text, "\"wascache\"")?;
            add_named_number(text, "owner", u64::from(node.number()))
        }
    }
}

/// An entry of a log.
#[tactic(auto, unfolding(state_json::specs::Values::entry_text))]
pub fn add_entry(text: &mut Vec<u8>, entry: &LogEntry) -> Result<(), Memory>
    ensures { OnOk result (text.new.items ≡ text.old.items ++ entry_text entry.now) }
{
    add_opening(text, "interval")?;
    add_number(text, u64::from(entry.interval))?;
    add_named_number(text, "block", u64::from(entry.block.number()))?;
    add_member(text, "old")?;
    add_old(text, &entry.old)?;
    add(text, "}")
}

fn add_entries<E: Entries>(text: &mut Vec<u8>, log: &E) -> Result<(), Memory>
    ensures { OnOk result (text.new.items ≡ text.old.items ++ with_commas false (map entry_text (E.entries log.now))) }
{
    let mut others = false;
    'entries: for place in 0..log.count() {
        add_comma(text, others)?;
        add_entry(text, log.entry(place))?;
        others = true;
    }
    Ok(())
}

/// A log, its oldest entry first.
pub fn add_log<E: Entries>(text: &mut Vec<u8>, log: &E) -> Result<(), Memory>
    ensures { OnOk result (text.new.items ≡ text.old.items ++ array (map entry_text (E.entries log.now))) }
{
    add(text, "[")?;
    add_entries(text, log)?;
    add(text, "]")
}

/// A record that waits for the validation of its interval.
#[tactic(auto, unfolding(state_json::specs::Values::record_text))]
pub fn add_record(text: &mut Vec<u8>, interval: Interval, did: &Record) -> Result<(), Memory>
    ensures { OnOk result (text.new.items ≡ text.old.items ++ record_text (record { interval = interval; did = did.now })) }
{
    add_opening(text, "interval")?;
    add_number(text, u64::from(interval))?;
    add_member(text, "seen")?;
    add_word(text, did.seen)?;
    add_member(text, "done")?;
    add_flag(text, did.sc_done)?;
    add_member(text, "read")?;
    add_read(text, did.read)?;
    add(text, "}")
}

/// A byte that is held until its interval is validated.
#[tactic(auto, unfolding(state_json::specs::Values::held_text))]
pub fn add_held(text: &mut Vec<u8>, interval: Interval, held: u8) -> Result<(), Memory>
    ensures { OnOk result (text.new.items ≡ text.old.items ++ held_text (record { interval = interval; byte = held })) }
{
    add_opening(text, "interval")?;
    add_number(text, u64::from(interval))?;
    add_member(text, "byte")?;
    add_byte(text, held)?;
    add(text, "}")
}

fn kind_name(kind: Kind) -> &'static str
    ensures { result.now ≡ kind_name kind }
{
    match kind {
        Kind::Read => "read",
        Kind::Take => "take",
        Kind::Move => "move",
        Kind::Upgrade => "upgrade",
        Kind::Put => "put",
    }
}

/// An open transaction, by its parts.
#[tactic(auto, unfolding(state_json::specs::Values::transaction_text))]
pub fn add_transaction(
    text: &mut Vec<u8>,
    kind: Kind,
    requester: NodeId,
    begun: Interval,
) -> Result<(), Memory>
    ensures { OnOk result (text.new.items ≡ text.old.items ++
        transaction_text (record { kind = kind; requester = requester; begun = begun })) }
{
    add_opening(text, "kind")?;
    add_quotation(text, kind_name(kind))?;
    add_named_number(text, "requester", u64::from(requester.number()))?;
    add_named_number(text, "begun", u64::from(begun))?;
    add(text, "}")
}

/// A node, if it is marked; and whether texts stand there then.
fn add_if_marked(
    text: &mut Vec<u8>,
    others: bool,
    sharers: NodeSet,
    number: u8,
) -> Result<bool, Memory>
    requires { number < 16 }
    ensures { IfOk result (λ some. IsAddedIf (has_node sharers number) (decimal number) text.old.items text.new.items others some) }
{
    if !sharers.has(NodeId::numbered(number)) {
        return Ok(others);
    }
    add_comma(text, others)?;
    add_number(text, u64::from(number))?;
    Ok(true)
}

fn add_marked(text: &mut Vec<u8>, sharers: NodeSet) -> Result<(), Memory>
    ensures { OnOk result (text.new.items ≡ text.old.items ++ with_commas false (marked_texts 16 sharers)) }
{
    let mut others = false;
    'nodes: for number in 0..16u8 {
        others = add_if_marked(text, others, sharers, number)?;
    }
    Ok(())
}

/// The nodes of a set, in order.
pub fn add_sharers(text: &mut Vec<u8>, sharers: NodeSet) -> Result<(), Memory>
    ensures { OnOk result (text.new.items ≡ text.old.items ++ array (marked_texts 16 sharers)) }
{
    add(text, "[")?;
    add_marked(text, sharers)?;
    add(text, "]")
}

fn add_intervals(text: &mut Vec<u8>, intervals: &[Interval]) -> Result<(), Memory>
    ensures { OnOk result (text.new.items ≡ text.old.items ++ with_commas false (map decimal intervals.now)) }
{
    let mut others = false;
    'nodes: for interval in intervals {
        add_comma(text, others)?;
        add_number(text, u64::from(*interval))?;
        others = true;
    }
    Ok(())
}

/// The checkpoints that nodes reported, in order of the nodes.
pub fn add_reported(text: &mut Vec<u8>, reported: &[Interval]) -> Result<(), Memory>
    ensures { OnOk result (text.new.items ≡ text.old.items ++ array (map decimal reported.now)) }
{
    add(text, "[")?;
    add_intervals(text, reported)?;
    add(text, "]")
}
