//! Instructions.
ghost use Rattle.std.specs.Prelude.{◌≡◌, pos, ◌&&◌, int_le, int_lt};
ghost use Rattle.rv_decode.specs.Table.{instr_fits, is_signed, is_target};

use crate::operations::{AmoOp, BranchOp, ImmOp, LoadOp, RegOp};
use sn_base::Width;

/// A word that is no instruction of RV32I and A.
#[derive(Clone, Copy, PartialEq, Eq, Debug)]
pub struct Illegal;

/// An instruction, with the numbers of its registers. An immediate or offset is the number that its sign extension
/// stands for; `imm` of LUI and AUIPC is the word's upper 20 bits in place, with its low 12 bits 0; a shift's `imm` is
/// the number of bits. The acquire and release bits of LR, SC and AMO, and all that FENCE says of its order, are not
/// kept.
#[derive(Clone, Copy, PartialEq, Eq, Debug)]
pub enum Instr {
    Lui {
        rd: u8,
        imm: u32,
    },
    Auipc {
        rd: u8,
        imm: u32,
    },
    Jal {
        rd: u8,
        offset: i32,
    },
    Jalr {
        rd: u8,
        rs1: u8,
        imm: i32,
    },
    Branch {
        op: BranchOp,
        rs1: u8,
        rs2: u8,
        offset: i32,
    },
    Load {
        op: LoadOp,
        rd: u8,
        rs1: u8,
        imm: i32,
    },
    /// SB, SH and SW by their width.
    Store {
        op: Width,
        rs1: u8,
        rs2: u8,
        imm: i32,
    },
    OpImm {
        op: ImmOp,
        rd: u8,
        rs1: u8,
        imm: i32,
    },
    Op {
        op: RegOp,
        rd: u8,
        rs1: u8,
        rs2: u8,
    },
    Fence,
    Ecall,
    Ebreak,
    /// LR.W.
    Lr {
        rd: u8,
        rs1: u8,
    },
    /// SC.W.
    Sc {
        rd: u8,
        rs1: u8,
        rs2: u8,
    },
    /// AMOSWAP.W and its kin.
    Amo {
        op: AmoOp,
        rd: u8,
        rs1: u8,
        rs2: u8,
    },
}

impl Instr {
    /// Whether its registers are below 32 and its immediate lies in the range of its form: 12 bits with sign (I and S);
    /// an even number of 13 bits with sign (B) or of 21 (J); a multiple of 4096 (U); 0 to 31 (shifts).
    pub fn fits(&self) -> bool
        ensures { result ≡ instr_fits self.now }
    {
        match *self {
            Instr::Lui { rd, imm } | Instr::Auipc { rd, imm } => rd < 32 && imm % 4096 == 0,
            Instr::Jal { rd, offset } => rd < 32 && is_jump_offset(offset),
            Instr::Jalr { rd, rs1, imm } => rd < 32 && rs1 < 32 && is_immediate(imm),
            Instr::Branch {
                rs1,
                rs2,
                offset,
                ..
            } => rs1 < 32 && rs2 < 32 && is_branch_offset(offset),
            Instr::Load { rd, rs1, imm, .. } => rd < 32 && rs1 < 32 && is_immediate(imm),
            Instr::Store { rs1, rs2, imm, .. } => rs1 < 32 && rs2 < 32 && is_immediate(imm),
            Instr::OpImm { op, rd, rs1, imm } => rd < 32
                && rs1 < 32
                && (if op.is_shift() {
                    is_amount(imm)
                } else {
                    is_immediate(imm)
                }),
            Instr::Op { rd, rs1, rs2, .. } => rd < 32 && rs1 < 32 && rs2 < 32,
            Instr::Fence | Instr::Ecall | Instr::Ebreak => true,
            Instr::Lr { rd, rs1 } => rd < 32 && rs1 < 32,
            Instr::Sc { rd, rs1, rs2 } | Instr::Amo { rd, rs1, rs2, .. } => rd < 32
                && rs1 < 32
                && rs2 < 32,
        }
    }
}

/// A signed immediate of 12 bits.
fn is_immediate(imm: i32) -> bool
    ensures { result ≡ is_signed 2048 imm }
{
    (-2048..2048).contains(&imm)
}

/// A number of bits to shift by.
fn is_amount(imm: i32) -> bool
    ensures { result ≡ (int_le (pos 0) imm && int_lt imm (pos 32)) }
{
    (0..32).contains(&imm)
}

/// A branch's offset: even, of 13 bits with sign.
fn is_branch_offset(offset: i32) -> bool
    ensures { result ≡ is_target 4096 offset }
{
    (-0x1000..0x1000).contains(&offset) && offset.unsigned_abs() % 2 == 0
}

/// A jump's offset: even, of 21 bits with sign.
fn is_jump_offset(offset: i32) -> bool
    ensures { result ≡ is_target 1048576 offset }
{
    (-0x10_0000..0x10_0000).contains(&offset) && offset.unsigned_abs() % 2 == 0
}
