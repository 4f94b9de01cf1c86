//! Reads lists of accesses.
ghost use Rattle.std.specs.Prelude.{◌≡◌, ℕ, ◌+◌, ◌<◌, ◌^◌, [], ◌∷◌, ◌++◌, List, All, IfOk, IfErr, OnOk, Ok, length};
ghost use Rattle.access_check.specs.Accesses.{IsFittingAccess, IsFittingWord};
ghost use Rattle.access_texts.specs.Fitting.{IsFittingStatement};
ghost use Rattle.access_texts.specs.Lists.{IsRefusedAs, nothing_said, said_by, said_from, with_statement};

use crate::access_line::{Statement, statement_in};
use access_check::{Access, StartWord};
use sn_base::EVENTS;
use sn_text::{ScriptCause, ScriptFault, cause_at, is_skipped};
use std::alloc::Global;
use std::marker::Model;
use text_lines::lines_of;

/// The most accesses that a text may have.
const MOST_ACCESSES: usize = EVENTS as usize;

/// The words that memory begins with, and accesses to it in their order. All lie in memory.
#[derive(Drop)]
pub struct AccessList {
    words: Vec<StartWord>,
    accesses: Vec<Access>,
}

impl Model for AccessList {
    ghost use Rattle.access_texts.specs.Lists.{Said};

    ghost Value = { Said };

    ghost view = { λ l. record { words = l.words.items; accesses = l.accesses.items } };
}

impl AccessList {
    pub fn new(alloc: Global) -> AccessList
        ensures { result ≡ nothing_said }
    {
        AccessList {
            words: Vec::new(alloc),
            accesses: Vec::new(alloc),
        }
    }

    pub fn words(&self) -> &[StartWord]
        ensures { result.now ≡ self.now.words }
    {
        self.words.as_slice()
    }

    pub fn accesses(&self) -> &[Access]
        ensures { result.now ≡ self.now.accesses }
    {
        self.accesses.as_slice()
    }

    /// Adds what a line says, whose number is counted from 1. A word stands before the first access.
    fn add(&mut self, number: u64, statement: Statement) -> Result<(), ScriptFault>
        requires { IsFittingStatement statement }
        ensures ok { OnOk result (with_statement number self.old (Ok statement) ≡ Ok self.new) }
        ensures refused { IfErr result (IsRefusedAs (with_statement number self.old (Ok statement))) }
        ensures words { OnOk result (All IsFittingWord self.old.words → All IsFittingWord self.new.words) }
        ensures accesses { OnOk result (All IsFittingAccess self.old.accesses → All IsFittingAccess self.new.accesses) }
    {
        match statement {
            Statement::Start(_) if !self.accesses.is_empty() => {
                Err(ScriptFault::Refused(ScriptCause::BadLine(number)))
            }
            Statement::Start(word) => append(&mut self.words, word),
            Statement::Access(_) if self.accesses.len() >= MOST_ACCESSES => {
                Err(ScriptFault::Refused(ScriptCause::TooMany))
            }
            Statement::Access(access) => append(&mut self.accesses, access),
        }
    }

    /// Adds what a line says, if anything.
    #[tactic(auto, unfolding(crate::specs::Lists::said_from))]
    fn add_line(&mut self, number: u64, line: &[u8]) -> Result<(), ScriptFault>
        ensures ok { OnOk result ((lines : List (List ℕ)) →
            said_from number self.old (line.now ∷ lines) ≡ said_from (number + 1) self.new lines) }
        ensures refused { IfErr result (λ fault. (lines : List (List ℕ)) →
            IsRefusedAs (said_from number self.old (line.now ∷ lines)) fault) }
        ensures words { OnOk result (All IsFittingWord self.old.words → All IsFittingWord self.new.words) }
        ensures accesses { OnOk result (All IsFittingAccess self.old.accesses → All IsFittingAccess self.new.accesses) }
    {
        if is_skipped(line) {
            return Ok(());
        }
        match statement_in(line) {
            Ok(statement) => self.add(number, statement),
            Err(fault) => Err(ScriptFault::Refused(cause_at(number, fault))),
        }
    }
}

/// Appends an item, if there is memory for it.
fn append<T: Drop>(items: &mut Vec<T>, item: T) -> Result<(), ScriptFault>
    ensures ok { OnOk result (items.new.items ≡ items.old.items ++ item ∷ []) }
    ensures memory { IfErr result (λ fault. fault ≡ ScriptFault.Memory) }
{
    items.push(item).map_err(|_| ScriptFault::Memory)
}

/// The words and accesses that a text says, or the first cause for which it has another form. A line is refused for its
/// form before its core and its bytes, and the access after the 1,000,000th only where its line is good. It takes memory
/// for them; the file's length is for the caller to judge. Whether the accesses are legal isn't asked here.
pub fn read_accesses(alloc: Global, bytes: &[u8]) -> Result<AccessList, ScriptFault>
    requires { length bytes.now < 2 ^ 62 }
    ensures ok { IfOk result (λ list. said_by bytes.now ≡ Ok list) }
    ensures words { IfOk result (λ list. All IsFittingWord list.words) }
    ensures accesses { IfOk result (λ list. All IsFittingAccess list.accesses) }
    ensures refused { IfErr result (IsRefusedAs (said_by bytes.now)) }
{
    let mut list = AccessList::new(alloc);
    let mut number = 1u64;
    let mut lines = lines_of(bytes);
    'lines: while let Some(line) = lines.next_line() {
        if let Err(fault) = list.add_line(number, line) {
            return Err(fault);
        }
        number += 1;
    }
    Ok(list)
}
