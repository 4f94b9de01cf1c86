//! From words to instructions.
ghost use Rattle.std.specs.Prelude.{◌≡◌, ◌↔◌, true, MatchResult, IfOk, IsErr};
ghost use Rattle.rv_decode.specs.declared.instr.Instr.{Instr};
ghost use Rattle.rv_decode.specs.Table.{IsWordOf, instr_fits};
ghost use Rattle.rv_decode.specs.Decoded.{instruction_at, system_of, atomic_of, jalr_of, branch_of, load_of, store_of, op_imm_of, op_of, fence_of};

use crate::fields;
use crate::fields::{funct3, funct5, funct7, opcode, rd, rs1, rs2};
use crate::instr::{Illegal, Instr};
use crate::opcodes::{
    AMO, AUIPC, BRANCH, JAL, JALR, LOAD, LUI, MISC_MEM, OP, OP_IMM, STORE, SYSTEM,
};
use crate::operations::{amo_at, branch_at, imm_at, load_at, reg_at, store_at};

/// The instruction of a word ("RV32/64G Instruction Set Listings"). Illegal where the word is no instruction's.
pub fn decode(word: u32) -> Result<Instr, Illegal>
    ensures value { MatchResult result (λ instr. instruction_at word ≡ Some instr) (λ _. instruction_at word ≡ None) }
    ensures fits { IfOk result (λ instr. instr_fits instr ≡ true) }
    ensures exact { (instr : Instr) → (result ≡ Ok instr) ↔ IsWordOf instr word }
    ensures illegal { IsErr result ↔ ((instr : Instr) → IsWordOf instr word → ⊥) }
    ensures one { (i j : Instr) → IsWordOf i word → IsWordOf j word → i ≡ j }
{
    instruction(word).ok_or(Illegal)
}

#[tactic(auto, unfolding(crate::specs::Decoded::instruction_at))]
fn instruction(word: u32) -> Option<Instr>
    ensures { result ≡ instruction_at word }
{
    match opcode(word) {
        LUI => Some(Instr::Lui {
            rd: rd(word),
            imm: fields::u_imm(word),
        }),
        AUIPC => Some(Instr::Auipc {
            rd: rd(word),
            imm: fields::u_imm(word),
        }),
        JAL => Some(Instr::Jal {
            rd: rd(word),
            offset: fields::j_imm(word),
        }),
        JALR => jalr(word),
        BRANCH => branch(word),
        LOAD => load(word),
        STORE => store(word),
        OP_IMM => op_imm(word),
        OP => op(word),
        MISC_MEM => fence(word),
        SYSTEM => system(word),
        AMO => atomic(word),
        _ => None,
    }
}

fn jalr(word: u32) -> Option<Instr>
    ensures { result ≡ jalr_of word }
{
    if funct3(word) != 0 {
        return None;
    }
    Some(Instr::Jalr {
        rd: rd(word),
        rs1: rs1(word),
        imm: fields::i_imm(word),
    })
}

fn branch(word: u32) -> Option<Instr>
    ensures { result ≡ branch_of word }
{
    let op = branch_at(funct3(word))?;
    Some(Instr::Branch {
        op,
        rs1: rs1(word),
        rs2: rs2(word),
        offset: fields::b_imm(word),
    })
}

fn load(word: u32) -> Option<Instr>
    ensures { result ≡ load_of word }
{
    let op = load_at(funct3(word))?;
    Some(Instr::Load {
        op,
        rd: rd(word),
        rs1: rs1(word),
        imm: fields::i_imm(word),
    })
}

fn store(word: u32) -> Option<Instr>
    ensures { result ≡ store_of word }
{
    let op = store_at(funct3(word))?;
    Some(Instr::Store {
        op,
        rs1: rs1(word),
        rs2: rs2(word),
        imm: fields::s_imm(word),
    })
}

fn op_imm(word: u32) -> Option<Instr>
    ensures { result ≡ op_imm_of word }
{
    let op = imm_at(funct3(word), funct7(word))?;
    let imm = if op.is_shift() {
        i32::from(rs2(word))
    } else {
        fields::i_imm(word)
    };
    Some(Instr::OpImm {
        op,
        rd: rd(word),
        rs1: rs1(word),
        imm,
    })
}

fn op(word: u32) -> Option<Instr>
    ensures { result ≡ op_of word }
{
    let op = reg_at(funct3(word), funct7(word))?;
    Some(Instr::Op {
        op,
        rd: rd(word),
        rs1: rs1(word),
        rs2: rs2(word),
    })
}

/// Which accesses a FENCE orders isn't looked at.
fn fence(word: u32) -> Option<Instr>
    ensures { result ≡ fence_of word }
{
    if funct3(word) == 0 {
        Some(Instr::Fence)
    } else {
        None
    }
}

fn system(word: u32) -> Option<Instr>
    ensures { result ≡ system_of word }
{
    match word {
        0x0000_0073 => Some(Instr::Ecall),
        0x0010_0073 => Some(Instr::Ebreak),
        _ => None,
    }
}

/// The acquire and release bits aren't looked at.
fn atomic(word: u32) -> Option<Instr>
    ensures { result ≡ atomic_of word }
{
    if funct3(word) != 0b010 {
        return None;
    }
    let (rd, rs1, rs2) = (rd(word), rs1(word), rs2(word));
    match funct5(word) {
        0b00010 if rs2 == 0 => Some(Instr::Lr { rd, rs1 }),
        0b00010 => None,
        0b00011 => Some(Instr::Sc { rd, rs1, rs2 }),
        code => Some(Instr::Amo {
            op: amo_at(code)?,
            rd,
            rs1,
            rs2,
        }),
    }
}
