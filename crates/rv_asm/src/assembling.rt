//! From text to words, in two passes.
ghost use Rattle.std.specs.Prelude.{◌≡◌, ℕ, map, ◌+◌, ◌*◌, ◌<◌, ◌≤◌, List, [], ◌∷◌, ◌++◌, Ok, IfOk, IfErr, OnOk, length, vec_len};
ghost use Rattle.text_lines.specs.Lines.{lines_of};
ghost use Rattle.rv_statement.specs.Reading.{statement_of};
ghost use Rattle.rv_statement.specs.Lines.{bare};
ghost use Rattle.rv_statement.specs.Seen.{operation_seen};
ghost use Rattle.rv_asm.specs.Assembly.{asm_of, IsRefusedAs, with_item, with_operation, with_line, with_label, with_place, item_word};
ghost use Rattle.rv_asm.specs.Assembly.{led_word, words_from, listed_from, nothing_listed};
ghost use Rattle.rv_asm.specs.Lists.{item_seen, place_in, listing_of};

use crate::fault::{AsmCause, AsmFault};
use rv_decode::Instr;
use rv_statement::{Line, Operation, aimed_word, line_of};
use std::alloc::Global;
use std::collections::BTreeMap;
use text_lines::lines_of;

/// The most words that a text may have.
const MOST_WORDS: usize = 1_048_576;

/// A word of the output: it is known, or it is an instruction of that line that leads to a label.
#[derive(Clone, Copy)]
pub(crate) enum Item<'a> {
    Known(u32),
    Led(Instr, &'a [u8], u64),
}

fn place_in(labels: &BTreeMap<&[u8], u64>, name: &[u8]) -> Option<u64>
    ensures { result ≡ place_in labels.now name.now }
{
    labels.get(name).copied()
}

fn note<'a>(
    labels: &mut BTreeMap<&'a [u8], u64>,
    name: &'a [u8],
    place: u64,
) -> Result<(), AsmFault>
    ensures noted { OnOk result
        ((other : List ℕ) → place_in labels.new other ≡ with_place (place_in labels.old) name.entry.now place other) }
    ensures memory { IfErr result (λ fault. fault ≡ AsmFault.Memory) }
{
    labels.insert(name, place)?;
    Ok(())
}

fn add_item<'a>(items: &mut Vec<Item<'a>>, number: u64, item: Item<'a>) -> Result<(), AsmFault>
    requires { vec_len items.old ≤ 1048576 }
    ensures few { vec_len items.new ≤ 1048576 }
    ensures ok { OnOk result
        ((labels : _) → with_item number (listing_of items.old.items labels) (item_seen item.entry)
        ≡ Ok (listing_of items.new.items labels)) }
    ensures refused { IfErr result
        (λ fault. (labels : _) → IsRefusedAs (with_item number (listing_of items.old.items labels) (item_seen item.entry)) fault) }
{
    if items.len() >= MOST_WORDS {
        return Err(AsmFault::Refused(AsmCause::TooManyWords(number)));
    }
    items.push(item)?;
    Ok(())
}

fn add_operation<'a>(
    items: &mut Vec<Item<'a>>,
    number: u64,
    operation: Operation<'a>,
) -> Result<(), AsmFault>
    requires { vec_len items.old ≤ 1048576 }
    ensures few { vec_len items.new ≤ 1048576 }
    ensures ok { OnOk result
        ((labels : _) → with_operation number (listing_of items.old.items labels) (operation_seen operation.entry)
        ≡ Ok (listing_of items.new.items labels)) }
    ensures refused { IfErr result
        (λ fault. (labels : _) →
        IsRefusedAs (with_operation number (listing_of items.old.items labels) (operation_seen operation.entry)) fault) }
{
    match operation {
        Operation::Coded(None) => Err(AsmFault::Refused(AsmCause::OutOfRange(number))),
        Operation::Coded(Some(word)) => add_item(items, number, Item::Known(word)),
        Operation::Aimed(instr, name) => add_item(items, number, Item::Led(instr, name, number)),
    }
}

fn add_label<'a>(
    items: &Vec<Item<'a>>,
    labels: &mut BTreeMap<&'a [u8], u64>,
    number: u64,
    name: &'a [u8],
) -> Result<(), AsmFault>
    requires { vec_len items.now ≤ 1048576 }
    ensures ok { OnOk result
        (with_label number (listing_of items.now.items labels.old) name.entry.now (place_in labels.old name.entry.now)
        ≡ Ok (listing_of items.now.items labels.new)) }
    ensures refused { IfErr result
        (λ fault. IsRefusedAs (with_label number (listing_of items.now.items labels.old) name.entry.now
        (place_in labels.old name.entry.now)) fault) }
{
    match place_in(labels, name) {
        Some(_) => Err(AsmFault::Refused(AsmCause::LabelTwice(number))),
        None => note(labels, name, 4 * items.len() as u64),
    }
}

fn add_line<'a>(
    items: &mut Vec<Item<'a>>,
    labels: &mut BTreeMap<&'a [u8], u64>,
    number: u64,
    line: &'a [u8],
) -> Result<(), AsmFault>
    requires { vec_len items.old ≤ 1048576 }
    ensures few { vec_len items.new ≤ 1048576 }
    ensures ok { OnOk result
        (with_line number (listing_of items.old.items labels.old) (statement_of (bare line.entry.now))
        ≡ Ok (listing_of items.new.items labels.new)) }
    ensures refused { IfErr result
        (λ fault. IsRefusedAs (with_line number (listing_of items.old.items labels.old) (statement_of (bare line.entry.now))) fault) }
{
    match line_of(line) {
        Line::Nothing => Ok(()),
        Line::Label(name) => add_label(items, labels, number, name),
        Line::Says(operation) => add_operation(items, number, operation),
        Line::Formless => Err(AsmFault::Refused(AsmCause::BadLine(number))),
    }
}

/// The first pass: the items and the labels of all lines.
fn listed<'a>(
    alloc: Global,
    text: &'a [u8],
) -> Result<(Vec<Item<'a>>, BTreeMap<&'a [u8], u64>), AsmFault>
    ensures ok { IfOk result
        (λ listing. listed_from 1 nothing_listed (lines_of text.entry.now) ≡ Ok (listing_of listing.0.items listing.1)) }
    ensures few { IfOk result (λ listing. vec_len listing.0 ≤ 1048576) }
    ensures refused { IfErr result (λ fault. IsRefusedAs (listed_from 1 nothing_listed (lines_of text.entry.now)) fault) }
{
    let mut items = Vec::new(alloc);
    let mut labels = BTreeMap::new(alloc);
    let mut number = 1u64;
    let mut lines = lines_of(text);
    'lines: while let Some(line) = lines.next_line() {
        add_line(&mut items, &mut labels, number, line)?;
        number += 1;
    }
    Ok((items, labels))
}

fn led_word(line: u64, instr: &Instr, here: u64, place: Option<u64>) -> Result<u32, AsmFault>
    ensures ok { IfOk result (λ word. led_word line instr.now here place ≡ Ok word) }
    ensures refused { IfErr result (λ fault. IsRefusedAs (led_word line instr.now here place) fault) }
{
    let Some(place) = place else {
        return Err(AsmFault::Refused(AsmCause::NoLabel(line)));
    };
    match aimed_word(instr, i128::from(place) - i128::from(here)) {
        Some(word) => Ok(word),
        None => Err(AsmFault::Refused(AsmCause::OutOfRange(line))),
    }
}

fn item_word(labels: &BTreeMap<&[u8], u64>, here: u64, item: &Item<'_>) -> Result<u32, AsmFault>
    ensures ok { IfOk result (λ word. item_word (place_in labels.now) here (item_seen item.now) ≡ Ok word) }
    ensures refused { IfErr result (λ fault. IsRefusedAs (item_word (place_in labels.now) here (item_seen item.now)) fault) }
{
    match *item {
        Item::Known(word) => Ok(word),
        Item::Led(instr, name, line) => led_word(line, &instr, here, place_in(labels, name)),
    }
}

/// The second pass: the words of the items.
fn words_of(
    alloc: Global,
    items: &[Item<'_>],
    labels: &BTreeMap<&[u8], u64>,
) -> Result<Vec<u32>, AsmFault>
    requires { length items.now ≤ 1048576 }
    ensures ok { IfOk result (λ words. words_from (place_in labels.now) [] (map item_seen items.now) ≡ Ok words.items) }
    ensures refused { IfErr result (λ fault. IsRefusedAs (words_from (place_in labels.now) [] (map item_seen items.now)) fault) }
{
    let mut words = Vec::new(alloc);
    'items: for item in items {
        let word = item_word(labels, 4 * words.len() as u64, item)?;
        words.push(word)?;
    }
    Ok(words)
}

/// The words of a text, or the first cause why there are none: the lines in order first, and then the offsets to labels
/// in order.
#[tactic(auto, unfolding(crate::specs::Assembly::asm_of))]
pub fn assemble(alloc: Global, text: &[u8]) -> Result<Vec<u32>, AsmFault>
    ensures ok { IfOk result (λ words. asm_of text.now ≡ Ok words.items) }
    ensures refused { IfErr result (λ fault. IsRefusedAs (asm_of text.now) fault) }
{
    let (items, labels) = listed(alloc, text)?;
    words_of(alloc, items.as_slice(), &labels)
}
