//! Reads texts in which each line says one item.
ghost use Rattle.std.specs.Prelude.{◌≡◌, ℕ, ◌+◌, ◌<◌, ◌≤◌, ◌^◌, ◌++◌, [], ◌∷◌, List, All, IfOk, IfErr, OnOk, Ok, length, vec_len};
ghost use Rattle.sn_text.specs.Items.{is_skipped, cause_at, items_and, items_from, items_of, IsRefusedAs};
ghost use Rattle.sn_base.specs.declared.limits.TheConstants.{EVENTS};

use crate::cause::{Fault, ScriptCause, ScriptFault};
use sn_base::EVENTS;
use std::alloc::Global;
use text_lines::lines_of;

/// The most items that a text may have.
const MOST_ITEMS: usize = EVENTS as usize;

/// A form of text: what one of its lines says.
pub trait Form {
    type Item: Drop;

    ghost use Rattle.std.specs.Prelude.{◌≡◌, ℕ, List, Result, IfOk};
    ghost use Rattle.sn_text.specs.declared.cause.Fault.{Fault};

    ghost item_of: { Self → List ℕ → Result Self.Item Fault };

    // what is known of each item
    ghost good: { Self → Self.Item → Type 0 };

    /// What a line says, which is neither empty nor a comment.
    fn read(&self, line: &[u8]) -> Result<Self::Item, Fault>
        ensures said { result ≡ item_of self.now line.now }
        ensures good { IfOk result (good self.now) };
}

/// Whether a line says nothing: an empty one, or a comment.
pub fn is_skipped(line: &[u8]) -> bool
    ensures { result ≡ is_skipped line.now }
{
    line.is_empty() || line[0] == b'#'
}

/// Why a text is refused for this line, whose number is counted from 1.
pub fn cause_at(number: u64, fault: Fault) -> ScriptCause
    ensures { result ≡ cause_at number fault }
{
    match fault {
        Fault::NotOfForm => ScriptCause::BadLine(number),
        Fault::NotThere => ScriptCause::OutOfRange(number),
    }
}

/// Adds the item of a line, whose number is counted from 1, to those of the lines before it.
#[tactic(auto, unfolding(crate::specs::Items::items_from))]
fn add_line<F: Form>(
    items: &mut Vec<F::Item>,
    form: &F,
    number: u64,
    line: &[u8],
) -> Result<(), ScriptFault>
    ensures ok { OnOk result
        ((lines : List (List ℕ)) →
        items_and items.old.items (items_from (F.item_of form.now) number (length items.old.items) (line.now ∷ lines))
        ≡ items_and items.new.items (items_from (F.item_of form.now) (number + 1) (length items.new.items) lines)) }
    ensures good { OnOk result (All (F.good form.now) items.old.items → All (F.good form.now) items.new.items) }
    ensures few { OnOk result (length items.old.items ≤ EVENTS → length items.new.items ≤ EVENTS) }
    ensures refused { IfErr result
        (λ fault. (lines : List (List ℕ)) →
        IsRefusedAs (items_and items.old.items (items_from (F.item_of form.now) number (length items.old.items) (line.now ∷ lines))) fault) }
{
    if is_skipped(line) {
        return Ok(());
    }
    match form.read(line) {
        Err(fault) => Err(ScriptFault::Refused(cause_at(number, fault))),
        Ok(_) if items.len() >= MOST_ITEMS => Err(ScriptFault::Refused(ScriptCause::TooMany)),
        Ok(item) => items.push(item).map_err(|_| ScriptFault::Memory),
    }
}

/// The items of a text, or the first cause for which it has another form.
pub fn read_items<F: Form>(
    alloc: Global,
    form: &F,
    bytes: &[u8],
) -> Result<Vec<F::Item>, ScriptFault>
    requires { length bytes.now < 2 ^ 62 }
    ensures ok { IfOk result (λ items. items_of (F.item_of form.now) bytes.now ≡ Ok items.items) }
    ensures good { IfOk result (λ items. All (F.good form.now) items.items) }
    ensures few { IfOk result (λ items. length items.items ≤ EVENTS) }
    ensures refused { IfErr result (IsRefusedAs (items_of (F.item_of form.now) bytes.now)) }
{
    let mut items = Vec::new(alloc);
    let mut number = 1u64;
    let mut lines = lines_of(bytes);
    'lines: while let Some(line) = lines.next_line() {
        if let Err(fault) = add_line(&mut items, form, number, line) {
            return Err(fault);
        }
        number += 1;
    }
    Ok(items)
}
