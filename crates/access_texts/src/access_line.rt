//! What one line says.
ghost use Rattle.std.specs.Prelude.{◌≡◌, ◌<◌, IfOk, nat_lt, option_and_then, MatchOption, Some, None};
ghost use Rattle.sn_text.specs.Script.{after, begins, parts_at_blank};
ghost use Rattle.access_texts.specs.Lines.{access_by, access_of, both_values, one_value, operation_of, start_by, start_of, statement_of, two_values, words_of};
ghost use Rattle.access_texts.specs.Fitting.{IsFittingStatement};

use crate::operands::{value_in, width_in, words_in};
use access_check::{Access, Operation, StartWord, is_fitting};
use sn_base::{NodeId, Width};
use sn_text::{Fault, number_in, parted, rest_after, word_in};

/// What a line says that is neither empty nor a comment.
#[derive(Clone, Copy, PartialEq, Eq, Debug)]
pub enum Statement {
    /// Memory has this word from the start.
    Start(StartWord),
    Access(Access),
}

/// The operation of a word with one value.
fn one_value(word: &[u8], value: Option<u32>) -> Option<Operation>
    ensures { result ≡ one_value word.now value }
{
    let value = value?;
    match word {
        b"r" => Some(Operation::Read(value)),
        b"w" => Some(Operation::Write(value)),
        b"lr" => Some(Operation::Lr(value)),
        b"sc" => Some(Operation::Sc(value)),
        b"scfail" => Some(Operation::ScFail(value)),
        _ => None,
    }
}

/// An atomic operation's two values: what it wrote, and what it read.
fn two_values(width: Width, values: &[u8]) -> Option<Operation>
    ensures { result ≡ two_values width (parts_at_blank values.now) }
{
    let (new, old) = parted(values)?;
    let new = value_in(width, new)?;
    let old = value_in(width, old)?;
    Some(Operation::Amo { new, old })
}

/// What an access of this width did, by its word and its values.
fn operation_in(word: &[u8], values: &[u8], width: Width) -> Option<Operation>
    ensures { result ≡ operation_of word.now values.now width }
{
    if word == b"amo".as_slice() {
        return two_values(width, values);
    }
    one_value(word, value_in(width, values))
}

/// An access of these parts, where each is there, and its core and its bytes are.
fn access_by(
    core: Option<u64>,
    address: Option<u32>,
    width: Option<Width>,
    operation: Option<Operation>,
) -> Result<Statement, Fault>
    ensures same { result ≡ access_by core address width operation }
    ensures fits { IfOk result IsFittingStatement }
{
    match (core, address, width, operation) {
        (Some(core), Some(address), Some(width), Some(operation)) => {
            if core >= 16 || !is_fitting(width, address) {
                return Err(Fault::NotThere);
            }
            Ok(Statement::Access(Access {
                core: NodeId::numbered(core as u8),
                address,
                width,
                operation,
            }))
        }
        _ => Err(Fault::NotOfForm),
    }
}

fn access_in(line: &[u8]) -> Result<Statement, Fault>
    ensures same { result ≡ access_of (words_of line.now) }
    ensures fits { IfOk result IsFittingStatement }
{
    let Some(words) = words_in(line) else {
        return Err(Fault::NotOfForm);
    };
    let width = width_in(words.size);
    let operation = match width {
        Some(width) => operation_in(words.operation, words.values, width),
        None => None,
    };
    access_by(
        number_in(words.core),
        word_in(words.address),
        width,
        operation,
    )
}

/// A word that memory has from the start, where it lies there.
fn start_by(address: Option<u32>, word: Option<u32>) -> Result<Statement, Fault>
    ensures same { result ≡ start_by address word }
    ensures fits { IfOk result IsFittingStatement }
{
    match (address, word) {
        (Some(address), Some(word)) => {
            if !is_fitting(Width::Word, address) {
                return Err(Fault::NotThere);
            }
            Ok(Statement::Start(StartWord { address, word }))
        }
        _ => Err(Fault::NotOfForm),
    }
}

fn start_in(text: &[u8]) -> Result<Statement, Fault>
    ensures same { result ≡ start_of (parts_at_blank text.now) }
    ensures fits { IfOk result IsFittingStatement }
{
    match parted(text) {
        Some((address, word)) => start_by(word_in(address), word_in(word)),
        None => Err(Fault::NotOfForm),
    }
}

/// What a line says.
#[tactic(auto, unfolding(crate::specs::Lines::statement_of))]
pub fn statement_in(line: &[u8]) -> Result<Statement, Fault>
    ensures same { result ≡ statement_of line.now }
    ensures fits { IfOk result IsFittingStatement }
{
    match rest_after(line, "init ") {
        Some(text) => start_in(text),
        None => access_in(line),
    }
}
