//! From instructions to words.
ghost use Rattle.std.specs.Prelude.{◌≡◌, ◌<◌, ◌^◌, ◌+◌, ◌*◌, true};
ghost use Rattle.rv_decode.specs.Table.{IsWordOf, word_of, instr_fits, word_of_cells, r_form, i_form, s_form, b_form, u_form, j_form, amo_form};
ghost use Rattle.rv_decode.specs.Table.{is_upper};
ghost use Rattle.rv_decode.specs.Decoded.{instruction_at};

use crate::instr::Instr;
use crate::opcodes::{AMO, AUIPC, BRANCH, JAL, JALR, LOAD, LUI, OP, OP_IMM, STORE};
use crate::operations::store_funct3;

/// The word of an instruction that fits, with its free bits as a plain assembler writes them: acquire and release are
/// 0, and FENCE orders everything (0ff0000f).
pub fn encode(instr: &Instr) -> u32
    requires { instr_fits instr.now ≡ true }
    ensures value { result ≡ word_of instr.now }
    ensures word { IsWordOf instr.now result }
    ensures back { instruction_at result ≡ Some instr.now }
{
    written(instr)
}

#[tactic(auto, unfolding(crate::specs::Table::word_of))]
fn written(instr: &Instr) -> u32
    requires { instr_fits instr.now ≡ true }
    ensures { result ≡ word_of instr.now }
{
    match *instr {
        Instr::Lui { rd, imm } => u_type(imm, rd, LUI),
        Instr::Auipc { rd, imm } => u_type(imm, rd, AUIPC),
        Instr::Jal { rd, offset } => j_type(offset, rd),
        Instr::Jalr { rd, rs1, imm } => i_type(imm, rs1, 0b000, rd, JALR),
        Instr::Branch {
            op,
            rs1,
            rs2,
            offset,
        } => b_type(offset, rs2, rs1, op.funct3()),
        Instr::Load { op, rd, rs1, imm } => i_type(imm, rs1, op.funct3(), rd, LOAD),
        Instr::Store { op, rs1, rs2, imm } => s_type(imm, rs2, rs1, store_funct3(op)),
        Instr::OpImm { op, rd, rs1, imm } if op.is_shift() => {
            r_type(op.funct7(), imm as u8, rs1, op.funct3(), rd, OP_IMM)
        }
        Instr::OpImm { op, rd, rs1, imm } => i_type(imm, rs1, op.funct3(), rd, OP_IMM),
        Instr::Op { op, rd, rs1, rs2 } => r_type(op.funct7(), rs2, rs1, op.funct3(), rd, OP),
        Instr::Fence => 0x0ff0_000f,
        Instr::Ecall => 0x0000_0073,
        Instr::Ebreak => 0x0010_0073,
        Instr::Lr { rd, rs1 } => amo_type(0b00010, 0, rs1, rd),
        Instr::Sc { rd, rs1, rs2 } => amo_type(0b00011, rs2, rs1, rd),
        Instr::Amo { op, rd, rs1, rs2 } => amo_type(op.funct5(), rs2, rs1, rd),
    }
}

fn r_type(funct7: u32, rs2: u8, rs1: u8, funct3: u32, rd: u8, opcode: u32) -> u32
    requires funct7 { funct7 < 128 }
    requires rs2 { rs2 < 32 }
    requires rs1 { rs1 < 32 }
    requires funct3 { funct3 < 8 }
    requires rd { rd < 32 }
    requires opcode { opcode < 128 }
    ensures { result ≡ word_of_cells (r_form funct7 rs2 rs1 funct3 rd opcode) }
{
    (funct7 << 25)
        + (u32::from(rs2) << 20)
        + (u32::from(rs1) << 15)
        + (funct3 << 12)
        + (u32::from(rd) << 7)
        + opcode
}

fn i_type(imm: i32, rs1: u8, funct3: u32, rd: u8, opcode: u32) -> u32
    requires rs1 { rs1 < 32 }
    requires funct3 { funct3 < 8 }
    requires rd { rd < 32 }
    requires opcode { opcode < 128 }
    ensures { result ≡ word_of_cells (i_form imm rs1 funct3 rd opcode) }
{
    let imm = imm.cast_unsigned() % 4096;
    (imm << 20) + (u32::from(rs1) << 15) + (funct3 << 12) + (u32::from(rd) << 7) + opcode
}

fn s_type(imm: i32, rs2: u8, rs1: u8, funct3: u32) -> u32
    requires rs2 { rs2 < 32 }
    requires rs1 { rs1 < 32 }
    requires funct3 { funct3 < 8 }
    ensures { result ≡ word_of_cells (s_form imm rs2 rs1 funct3 35) }
{
    let imm = imm.cast_unsigned();
    let (high, low) = ((imm >> 5) % 128, imm % 32);
    (high << 25)
        + (u32::from(rs2) << 20)
        + (u32::from(rs1) << 15)
        + (funct3 << 12)
        + (low << 7)
        + STORE
}

fn b_type(offset: i32, rs2: u8, rs1: u8, funct3: u32) -> u32
    requires rs2 { rs2 < 32 }
    requires rs1 { rs1 < 32 }
    requires funct3 { funct3 < 8 }
    ensures { result ≡ word_of_cells (b_form offset rs2 rs1 funct3 99) }
{
    let offset = offset.cast_unsigned();
    let high = ((offset >> 12) % 2 << 31) + ((offset >> 5) % 64 << 25);
    let low = ((offset >> 1) % 16 << 8) + ((offset >> 11) % 2 << 7);
    high + (u32::from(rs2) << 20) + (u32::from(rs1) << 15) + (funct3 << 12) + low + BRANCH
}

fn u_type(imm: u32, rd: u8, opcode: u32) -> u32
    requires imm { is_upper imm ≡ true }
    requires rd { rd < 32 }
    requires opcode { opcode < 128 }
    ensures { result ≡ word_of_cells (u_form imm rd opcode) }
{
    imm + (u32::from(rd) << 7) + opcode
}

fn j_type(offset: i32, rd: u8) -> u32
    requires rd { rd < 32 }
    ensures { result ≡ word_of_cells (j_form offset rd 111) }
{
    let offset = offset.cast_unsigned();
    let high = ((offset >> 20) % 2 << 31) + ((offset >> 1) % 1024 << 21);
    let low = ((offset >> 11) % 2 << 20) + ((offset >> 12) % 256 << 12);
    high + low + (u32::from(rd) << 7) + JAL
}

/// With acquire and release 0, and the width of a word.
fn amo_type(funct5: u32, rs2: u8, rs1: u8, rd: u8) -> u32
    requires funct5 { funct5 < 32 }
    requires rs2 { rs2 < 32 }
    requires rs1 { rs1 < 32 }
    requires rd { rd < 32 }
    ensures { result ≡ word_of_cells (amo_form funct5 rs2 rs1 rd) }
{
    (funct5 << 27)
        + (u32::from(rs2) << 20)
        + (u32::from(rs1) << 15)
        + (0b010 << 12)
        + (u32::from(rd) << 7)
        + AMO
}
