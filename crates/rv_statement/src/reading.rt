//! What a line says.
ghost use Rattle.std.specs.Prelude.{◌≡◌, option_map, codes};
ghost use Rattle.std.specs.Str.{bytes_eq};
ghost use Rattle.rv_decode.specs.declared.instr.Instr.{Instr};
ghost use Rattle.rv_statement.specs.Reading.{fixed, whole, read_of, upper, target, alone, named_as, word_in, operation_of, instruction_of};
ghost use Rattle.rv_statement.specs.Reading.{statement_of, label_or};
ghost use Rattle.rv_statement.specs.Forms.{and_then, register_then, registers_of, numbered_of, upper_of, placed_of, reserved_of, atomic_of};
ghost use Rattle.rv_statement.specs.Forms.{compared_of};
ghost use Rattle.rv_statement.specs.Lines.{bare};
ghost use Rattle.rv_statement.specs.Operands.{number_of};
ghost use Rattle.rv_statement.specs.Seen.{operation_seen, line_seen};

use crate::coding::{auipc, branch, coded, jal, jalr, load, lui, store, with_immediate, word_in};
use crate::forms::{
    atomic_of, compared_of, numbered_of, placed_of, register_then, registers_of, reserved_of,
    upper_of,
};
use crate::line::{bare, cut_blank, trimmed};
use crate::operands::{is_name, number_of};
use crate::rows::row_of;
use rv_decode::{AmoOp, BranchOp, ImmOp, Instr, LoadOp, RegOp};
use sn_base::Width;

/// What an instruction's line says: its word, or None where a number is out of its range; or an instruction that leads to a
/// label, whose offset isn't known yet and stands there as 0.
#[derive(Clone, Copy)]
pub enum Operation<'a> {
    Coded(Option<u32>),
    Aimed(Instr, &'a [u8]),
}

/// What a line says.
#[derive(Clone, Copy)]
pub enum Line<'a> {
    Nothing,
    Label(&'a [u8]),
    Says(Operation<'a>),
    Formless,
}

fn read_lui<'a>(text: &'a [u8]) -> Option<Operation<'a>>
    ensures { option_map operation_seen result
        ≡ option_map read_of (option_map (λ a. upper (Instr.Lui a.0) a.1) (upper_of text.entry.now)) }
{
    let (rd, number) = upper_of(text)?;
    Some(Operation::Coded(lui(rd, number)))
}

fn read_auipc<'a>(text: &'a [u8]) -> Option<Operation<'a>>
    ensures { option_map operation_seen result
        ≡ option_map read_of (option_map (λ a. upper (Instr.Auipc a.0) a.1) (upper_of text.entry.now)) }
{
    let (rd, number) = upper_of(text)?;
    Some(Operation::Coded(auipc(rd, number)))
}

fn aimed_jal<'a>(rd: u8, text: &'a [u8]) -> Option<Operation<'a>>
    ensures { option_map operation_seen result ≡ option_map read_of (target (Instr.Jal rd) text.entry.now) }
{
    match number_of(text) {
        Some(number) => Some(Operation::Coded(jal(rd, i128::from(number)))),
        None if is_name(text) => Some(Operation::Aimed(Instr::Jal { rd, offset: 0 }, text)),
        None => None,
    }
}

fn read_jal<'a>(text: &'a [u8]) -> Option<Operation<'a>>
    ensures { option_map operation_seen result
        ≡ option_map read_of (and_then (register_then text.entry.now) (λ a. target (Instr.Jal a.0) a.1)) }
{
    let (rd, rest) = register_then(text)?;
    aimed_jal(rd, rest)
}

fn aimed_branch<'a>(op: BranchOp, rs1: u8, rs2: u8, text: &'a [u8]) -> Option<Operation<'a>>
    ensures { option_map operation_seen result ≡ option_map read_of (target (Instr.Branch op rs1 rs2) text.entry.now) }
{
    let offset = 0;
    match number_of(text) {
        Some(number) => Some(Operation::Coded(branch(op, rs1, rs2, i128::from(number)))),
        None if is_name(text) => Some(Operation::Aimed(
            Instr::Branch {
                op,
                rs1,
                rs2,
                offset,
            },
            text,
        )),
        None => None,
    }
}

fn read_branch<'a>(op: BranchOp, text: &'a [u8]) -> Option<Operation<'a>>
    ensures { option_map operation_seen result
        ≡ option_map read_of (and_then (compared_of text.entry.now) (λ a. target (Instr.Branch op a.0 a.1) a.2)) }
{
    let (rs1, rs2, rest) = compared_of(text)?;
    aimed_branch(op, rs1, rs2, rest)
}

fn read_jalr<'a>(text: &'a [u8]) -> Option<Operation<'a>>
    ensures { option_map operation_seen result
        ≡ option_map read_of (option_map (λ a. whole (Instr.Jalr a.0 a.2 a.1)) (placed_of text.entry.now)) }
{
    let (rd, number, rs1) = placed_of(text)?;
    Some(Operation::Coded(jalr(rd, rs1, number)))
}

fn read_load<'a>(op: LoadOp, text: &'a [u8]) -> Option<Operation<'a>>
    ensures { option_map operation_seen result
        ≡ option_map read_of (option_map (λ a. whole (Instr.Load op a.0 a.2 a.1)) (placed_of text.entry.now)) }
{
    let (rd, number, rs1) = placed_of(text)?;
    Some(Operation::Coded(load(op, rd, rs1, number)))
}

fn read_store<'a>(op: Width, text: &'a [u8]) -> Option<Operation<'a>>
    ensures { option_map operation_seen result
        ≡ option_map read_of (option_map (λ a. whole (Instr.Store op a.2 a.0 a.1)) (placed_of text.entry.now)) }
{
    let (rs2, number, rs1) = placed_of(text)?;
    Some(Operation::Coded(store(op, rs1, rs2, number)))
}

fn read_with_immediate<'a>(op: ImmOp, text: &'a [u8]) -> Option<Operation<'a>>
    ensures { option_map operation_seen result
        ≡ option_map read_of (option_map (λ a. whole (Instr.OpImm op a.0 a.1 a.2)) (numbered_of text.entry.now)) }
{
    let (rd, rs1, number) = numbered_of(text)?;
    Some(Operation::Coded(with_immediate(op, rd, rs1, number)))
}

fn read_on_registers<'a>(op: RegOp, text: &'a [u8]) -> Option<Operation<'a>>
    ensures { option_map operation_seen result
        ≡ option_map read_of (option_map (λ a. whole (Instr.Op op a.0 a.1 a.2)) (registers_of text.entry.now)) }
{
    let (rd, rs1, rs2) = registers_of(text)?;
    Some(Operation::Coded(coded(&Instr::Op { op, rd, rs1, rs2 })))
}

fn read_alone<'a>(instr: Instr, text: &'a [u8]) -> Option<Operation<'a>>
    ensures { option_map operation_seen result ≡ option_map read_of (alone instr text.entry.now) }
{
    if text.is_empty() {
        Some(Operation::Coded(coded(&instr)))
    } else {
        None
    }
}

fn read_lr<'a>(text: &'a [u8]) -> Option<Operation<'a>>
    ensures { option_map operation_seen result
        ≡ option_map read_of (option_map (λ a. whole (Instr.Lr a.0 a.1)) (reserved_of text.entry.now)) }
{
    let (rd, rs1) = reserved_of(text)?;
    Some(Operation::Coded(coded(&Instr::Lr { rd, rs1 })))
}

fn read_sc<'a>(text: &'a [u8]) -> Option<Operation<'a>>
    ensures { option_map operation_seen result
        ≡ option_map read_of (option_map (λ a. whole (Instr.Sc a.0 a.2 a.1)) (atomic_of text.entry.now)) }
{
    let (rd, rs2, rs1) = atomic_of(text)?;
    Some(Operation::Coded(coded(&Instr::Sc { rd, rs1, rs2 })))
}

fn read_amo<'a>(op: AmoOp, text: &'a [u8]) -> Option<Operation<'a>>
    ensures { option_map operation_seen result
        ≡ option_map read_of (option_map (λ a. whole (Instr.Amo op a.0 a.2 a.1)) (atomic_of text.entry.now)) }
{
    let (rd, rs2, rs1) = atomic_of(text)?;
    Some(Operation::Coded(coded(&Instr::Amo { op, rd, rs1, rs2 })))
}

/// An instruction of a row, with its operands.
#[tactic(auto, unfolding(crate::specs::Reading::named_as))]
fn read_as<'a>(row: &Instr, text: &'a [u8]) -> Option<Operation<'a>>
    ensures { option_map operation_seen result ≡ option_map read_of (named_as row.now text.entry.now) }
{
    match *row {
        Instr::Lui { .. } => read_lui(text),
        Instr::Auipc { .. } => read_auipc(text),
        Instr::Jal { .. } => read_jal(text),
        Instr::Jalr { .. } => read_jalr(text),
        Instr::Branch { op, .. } => read_branch(op, text),
        Instr::Load { op, .. } => read_load(op, text),
        Instr::Store { op, .. } => read_store(op, text),
        Instr::OpImm { op, .. } => read_with_immediate(op, text),
        Instr::Op { op, .. } => read_on_registers(op, text),
        Instr::Fence => read_alone(Instr::Fence, text),
        Instr::Ecall => read_alone(Instr::Ecall, text),
        Instr::Ebreak => read_alone(Instr::Ebreak, text),
        Instr::Lr { .. } => read_lr(text),
        Instr::Sc { .. } => read_sc(text),
        Instr::Amo { op, .. } => read_amo(op, text),
    }
}

fn is_directive(name: &[u8]) -> bool
    ensures { result ≡ bytes_eq name.now (codes ".word") }
{
    name == ".word".as_bytes()
}

fn read_word<'a>(text: &'a [u8]) -> Option<Operation<'a>>
    ensures { option_map operation_seen result ≡ option_map (λ number. fixed (word_in number)) (number_of text.entry.now) }
{
    let number = number_of(text)?;
    Some(Operation::Coded(word_in(number)))
}

#[tactic(auto, unfolding(crate::specs::Reading::operation_of))]
fn operation_of<'a>(name: &[u8], operands: &'a [u8]) -> Option<Operation<'a>>
    ensures { option_map operation_seen result ≡ operation_of name.now operands.entry.now }
{
    if is_directive(name) {
        return read_word(operands);
    }
    let row = row_of(name)?;
    read_as(&row, operands)
}

/// A mnemonic, and its operands after the first blank.
#[tactic(auto, unfolding(crate::specs::Reading::instruction_of))]
fn instruction_of<'a>(text: &'a [u8]) -> Option<Operation<'a>>
    ensures { option_map operation_seen result ≡ instruction_of text.entry.now }
{
    match cut_blank(text) {
        Some((name, operands)) => operation_of(name, trimmed(operands)),
        None => operation_of(text, &text[text.len()..]),
    }
}

fn label_or<'a>(name: &'a [u8]) -> Line<'a>
    ensures { line_seen result ≡ label_or name.entry.now }
{
    if is_name(name) {
        Line::Label(name)
    } else {
        Line::Formless
    }
}

/// What a text says that has no comment and no blanks at its ends.
#[tactic(auto, unfolding(crate::specs::Reading::statement_of))]
fn statement_of<'a>(text: &'a [u8]) -> Line<'a>
    ensures { line_seen result ≡ statement_of text.entry.now }
{
    match text.last() {
        None => Line::Nothing,
        Some(b':') => label_or(&text[..text.len() - 1]),
        Some(_) => match instruction_of(text) {
            Some(operation) => Line::Says(operation),
            None => Line::Formless,
        },
    }
}

/// What a line says, its comment and the blanks at its ends aside. The line comes without its end.
pub fn line_of<'a>(line: &'a [u8]) -> Line<'a>
    ensures { line_seen result ≡ statement_of (bare line.entry.now) }
{
    statement_of(bare(line))
}
