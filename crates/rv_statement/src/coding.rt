//! The words of instructions whose numbers may be out of their range.
ghost use Rattle.std.specs.Prelude.{◌≡◌, ◌*◌, ◌&&◌, ◌^◌, int_le, int_lt, pos, unsigned_abs, true, if◌then◌else◌, Some, None};
ghost use Rattle.rv_decode.specs.declared.instr.Instr.{Instr};
ghost use Rattle.rv_decode.specs.Table.{is_signed, is_target};
ghost use Rattle.rv_statement.specs.Reading.{word_of_instruction, fixed, read_of, upper, word_in, with_offset};

use rv_decode::{BranchOp, ImmOp, Instr, LoadOp, encode};
use sn_base::Width;

/// The word of an instruction, where it fits.
#[tactic(auto, unfolding(crate::specs::Reading::word_of_instruction))]
pub(crate) fn coded(instr: &Instr) -> Option<u32>
    ensures { result ≡ word_of_instruction instr.now }
{
    if instr.fits() {
        Some(encode(instr))
    } else {
        None
    }
}

/// The upper 20 bits of a word, in place.
fn upper_bits(number: i64) -> Option<u32>
    ensures { result ≡ (if int_le (pos 0) number && int_lt number (pos 1048576) then Some (unsigned_abs number * 4096) else None) }
{
    if (0..0x10_0000).contains(&number) {
        Some(number as u32 * 4096)
    } else {
        None
    }
}

pub(crate) fn lui(rd: u8, number: i64) -> Option<u32>
    ensures { fixed result ≡ read_of (upper (Instr.Lui rd) number) }
{
    let imm = upper_bits(number)?;
    coded(&Instr::Lui { rd, imm })
}

pub(crate) fn auipc(rd: u8, number: i64) -> Option<u32>
    ensures { fixed result ≡ read_of (upper (Instr.Auipc rd) number) }
{
    let imm = upper_bits(number)?;
    coded(&Instr::Auipc { rd, imm })
}

/// A number of 12 bits with sign.
fn immediate(number: i64) -> Option<i32>
    ensures { result ≡ (if is_signed 2048 number then Some number else None) }
{
    if (-2048..2048).contains(&number) {
        Some(number as i32)
    } else {
        None
    }
}

#[tactic(auto, unfolding(crate::specs::Reading::word_of_instruction))]
pub(crate) fn jalr(rd: u8, rs1: u8, number: i64) -> Option<u32>
    ensures { result ≡ word_of_instruction (Instr.Jalr rd rs1 number) }
{
    match immediate(number) {
        Some(imm) => coded(&Instr::Jalr { rd, rs1, imm }),
        None => None,
    }
}

#[tactic(auto, unfolding(crate::specs::Reading::word_of_instruction))]
pub(crate) fn load(op: LoadOp, rd: u8, rs1: u8, number: i64) -> Option<u32>
    ensures { result ≡ word_of_instruction (Instr.Load op rd rs1 number) }
{
    match immediate(number) {
        Some(imm) => coded(&Instr::Load { op, rd, rs1, imm }),
        None => None,
    }
}

#[tactic(auto, unfolding(crate::specs::Reading::word_of_instruction))]
pub(crate) fn store(op: Width, rs1: u8, rs2: u8, number: i64) -> Option<u32>
    ensures { result ≡ word_of_instruction (Instr.Store op rs1 rs2 number) }
{
    match immediate(number) {
        Some(imm) => coded(&Instr::Store { op, rs1, rs2, imm }),
        None => None,
    }
}

#[tactic(auto, unfolding(crate::specs::Reading::word_of_instruction))]
pub(crate) fn with_immediate(op: ImmOp, rd: u8, rs1: u8, number: i64) -> Option<u32>
    ensures { result ≡ word_of_instruction (Instr.OpImm op rd rs1 number) }
{
    match immediate(number) {
        Some(imm) => coded(&Instr::OpImm { op, rd, rs1, imm }),
        None => None,
    }
}

/// An even number of 13 bits with sign.
fn branch_offset(number: i128) -> Option<i32>
    ensures { result ≡ (if is_target 4096 number then Some number else None) }
{
    if (-0x1000..0x1000).contains(&number) && number.unsigned_abs() % 2 == 0 {
        Some(number as i32)
    } else {
        None
    }
}

#[tactic(auto, unfolding(crate::specs::Reading::word_of_instruction))]
pub(crate) fn branch(op: BranchOp, rs1: u8, rs2: u8, number: i128) -> Option<u32>
    ensures { result ≡ word_of_instruction (Instr.Branch op rs1 rs2 number) }
{
    match branch_offset(number) {
        Some(offset) => coded(&Instr::Branch {
            op,
            rs1,
            rs2,
            offset,
        }),
        None => None,
    }
}

/// An even number of 21 bits with sign.
fn jump_offset(number: i128) -> Option<i32>
    ensures { result ≡ (if is_target 1048576 number then Some number else None) }
{
    if (-0x10_0000..0x10_0000).contains(&number) && number.unsigned_abs() % 2 == 0 {
        Some(number as i32)
    } else {
        None
    }
}

#[tactic(auto, unfolding(crate::specs::Reading::word_of_instruction))]
pub(crate) fn jal(rd: u8, number: i128) -> Option<u32>
    ensures { result ≡ word_of_instruction (Instr.Jal rd number) }
{
    match jump_offset(number) {
        Some(offset) => coded(&Instr::Jal { rd, offset }),
        None => None,
    }
}

/// The number of a `.word`.
pub(crate) fn word_in(number: i64) -> Option<u32>
    ensures { result ≡ word_in number }
{
    u32::try_from(number).ok()
}

/// The word of an instruction that leads to a label, where the label lies at this offset from it; None where the offset is
/// out of its range.
pub fn aimed_word(instr: &Instr, offset: i128) -> Option<u32>
    ensures { result ≡ word_of_instruction (with_offset instr.now offset) }
{
    match *instr {
        Instr::Jal { rd, .. } => jal(rd, offset),
        Instr::Branch { op, rs1, rs2, .. } => branch(op, rs1, rs2, offset),
        _ => coded(instr),
    }
}
