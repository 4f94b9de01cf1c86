//! From words to text.
ghost use Rattle.std.specs.Prelude.{◌≡◌, ◌+◌, ◌<◌, ◌/◌, ◌++◌, codes, decimal, IfOk, OnOk};
ghost use Rattle.std.specs.Fmt.{signed_decimal};
ghost use Rattle.text_lines.specs.Hex.{hex_word};
ghost use Rattle.rv_asm.specs.Text.{register_text, with_comma, address_text, place_text, operands_text, instr_text};
ghost use Rattle.rv_asm.specs.Text.{word_text, instruction_of_word, dis_of};

use itoa::Buffer;
use rv_decode::{Instr, decode, encode};
use rv_statement::mnemonic;
use sn_base::Memory;
use std::alloc::Global;
use text_lines::hex_word;

/// The lines of words, one a word: an instruction where the word is the one that is written for it, and else `.word`.
pub fn disassemble(alloc: Global, words: &[u32]) -> Result<Vec<u8>, Memory>
    ensures { IfOk result (λ text. text.items ≡ dis_of words.now) }
{
    let mut text = Vec::new(alloc);
    'words: for word in words {
        add_line(&mut text, *word)?;
    }
    Ok(text)
}

/// Appends a word's line, ended by LF.
pub fn add_line(text: &mut Vec<u8>, word: u32) -> Result<(), Memory>
    ensures { OnOk result (text.new.items ≡ text.old.items ++ (word_text word ++ codes "\n")) }
{
    add_word(text, word)?;
    add(text, "\n")
}

#[tactic(auto, unfolding(crate::specs::Text::word_text))]
fn add_word(text: &mut Vec<u8>, word: u32) -> Result<(), Memory>
    ensures { OnOk result (text.new.items ≡ text.old.items ++ word_text word) }
{
    match instruction_of_word(word) {
        Some(instr) => add_instr(text, &instr),
        None => {
            add(text, ".word 0x")?;
            add_digits(text, word)
        }
    }
}

/// The instruction that is written as this word.
#[tactic(auto, unfolding(crate::specs::Text::instruction_of_word))]
fn instruction_of_word(word: u32) -> Option<Instr>
    ensures { result ≡ instruction_of_word word }
{
    match decode(word) {
        Ok(instr) if encode(&instr) == word => Some(instr),
        _ => None,
    }
}

#[tactic(auto, unfolding(crate::specs::Text::instr_text))]
fn add_instr(text: &mut Vec<u8>, instr: &Instr) -> Result<(), Memory>
    ensures { OnOk result (text.new.items ≡ text.old.items ++ instr_text instr.now) }
{
    add(text, mnemonic(instr))?;
    add_operands(text, instr)
}

fn add_operands(text: &mut Vec<u8>, instr: &Instr) -> Result<(), Memory>
    ensures { OnOk result (text.new.items ≡ text.old.items ++ operands_text instr.now) }
{
    match *instr {
        Instr::Lui { rd, imm } => add_upper(text, rd, imm),
        Instr::Auipc { rd, imm } => add_upper(text, rd, imm),
        Instr::Jal { rd, offset } => add_jump(text, rd, offset),
        Instr::Branch {
            rs1,
            rs2,
            offset,
            ..
        } => add_numbered(text, rs1, rs2, offset),
        Instr::Jalr { rd, rs1, imm } => add_place(text, rd, imm, rs1),
        Instr::Load { rd, rs1, imm, .. } => add_place(text, rd, imm, rs1),
        Instr::Store { rs1, rs2, imm, .. } => add_place(text, rs2, imm, rs1),
        Instr::OpImm { rd, rs1, imm, .. } => add_numbered(text, rd, rs1, imm),
        Instr::Op { rd, rs1, rs2, .. } => add_registers(text, rd, rs1, rs2),
        Instr::Fence | Instr::Ecall | Instr::Ebreak => Ok(()),
        Instr::Lr { rd, rs1 } => add_reserved(text, rd, rs1),
        Instr::Sc { rd, rs1, rs2 } => add_atomic(text, rd, rs2, rs1),
        Instr::Amo { rd, rs1, rs2, .. } => add_atomic(text, rd, rs2, rs1),
    }
}

fn add_upper(text: &mut Vec<u8>, rd: u8, imm: u32) -> Result<(), Memory>
    ensures { OnOk result (text.new.items ≡ text.old.items ++ (codes " " ++ with_comma (register_text rd) (decimal (imm / 4096)))) }
{
    add_register(text, " ", rd)?;
    add(text, ", ")?;
    let mut buffer = Buffer::new();
    add(text, buffer.format(imm / 4096))
}

fn add_jump(text: &mut Vec<u8>, rd: u8, offset: i32) -> Result<(), Memory>
    ensures { OnOk result (text.new.items ≡ text.old.items ++ (codes " " ++ with_comma (register_text rd) (signed_decimal offset))) }
{
    add_register(text, " ", rd)?;
    add(text, ", ")?;
    add_number(text, offset)
}

fn add_numbered(text: &mut Vec<u8>, one: u8, other: u8, number: i32) -> Result<(), Memory>
    ensures { OnOk result (text.new.items ≡
        text.old.items ++ (codes " " ++ with_comma (register_text one) (with_comma (register_text other) (signed_decimal number)))) }
{
    add_register(text, " ", one)?;
    add_register(text, ", ", other)?;
    add(text, ", ")?;
    add_number(text, number)
}

fn add_registers(text: &mut Vec<u8>, rd: u8, rs1: u8, rs2: u8) -> Result<(), Memory>
    ensures { OnOk result (text.new.items ≡
        text.old.items ++ (codes " " ++ with_comma (register_text rd) (with_comma (register_text rs1) (register_text rs2)))) }
{
    add_register(text, " ", rd)?;
    add_register(text, ", ", rs1)?;
    add_register(text, ", ", rs2)
}

fn add_place(text: &mut Vec<u8>, one: u8, number: i32, base: u8) -> Result<(), Memory>
    ensures { OnOk result (text.new.items ≡ text.old.items ++ (codes " " ++ with_comma (register_text one) (place_text number base))) }
{
    add_register(text, " ", one)?;
    add(text, ", ")?;
    add_number(text, number)?;
    add_address(text, base)
}

fn add_reserved(text: &mut Vec<u8>, rd: u8, base: u8) -> Result<(), Memory>
    ensures { OnOk result (text.new.items ≡ text.old.items ++ (codes " " ++ with_comma (register_text rd) (address_text base))) }
{
    add_register(text, " ", rd)?;
    add(text, ", ")?;
    add_address(text, base)
}

fn add_atomic(text: &mut Vec<u8>, rd: u8, rs2: u8, base: u8) -> Result<(), Memory>
    ensures { OnOk result (text.new.items ≡
        text.old.items ++ (codes " " ++ with_comma (register_text rd) (with_comma (register_text rs2) (address_text base)))) }
{
    add_register(text, " ", rd)?;
    add_register(text, ", ", rs2)?;
    add(text, ", ")?;
    add_address(text, base)
}

fn add_address(text: &mut Vec<u8>, base: u8) -> Result<(), Memory>
    ensures { OnOk result (text.new.items ≡ text.old.items ++ address_text base) }
{
    add_register(text, "(", base)?;
    add(text, ")")
}

/// A register, after what stands between it and the operand before it.
fn add_register(text: &mut Vec<u8>, before: &str, number: u8) -> Result<(), Memory>
    ensures { OnOk result (text.new.items ≡ text.old.items ++ (before.now ++ register_text number)) }
{
    add(text, before)?;
    add(text, "x")?;
    let mut buffer = Buffer::new();
    add(text, buffer.format(number))
}

fn add_number(text: &mut Vec<u8>, number: i32) -> Result<(), Memory>
    ensures { OnOk result (text.new.items ≡ text.old.items ++ signed_decimal number) }
{
    let mut buffer = Buffer::new();
    add(text, buffer.format(number))
}

/// Appends a number as eight hexadecimal digits in lower case.
pub fn add_digits(text: &mut Vec<u8>, word: u32) -> Result<(), Memory>
    ensures { OnOk result (text.new.items ≡ text.old.items ++ hex_word word) }
{
    Ok(text.extend_from_slice(&hex_word(word))?)
}

fn add(text: &mut Vec<u8>, piece: &str) -> Result<(), Memory>
    ensures { OnOk result (text.new.items ≡ text.old.items ++ piece.now) }
{
    Ok(text.extend_from_slice(piece.as_bytes())?)
}
