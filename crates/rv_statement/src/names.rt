//! The mnemonics.
ghost use Rattle.std.specs.Prelude.{◌≡◌};
ghost use Rattle.rv_statement.specs.Names.{branch_name, load_name, store_name, imm_name, reg_name, amo_name, mnemonic};

use rv_decode::{AmoOp, BranchOp, ImmOp, Instr, LoadOp, RegOp};
use sn_base::Width;

fn branch_name(op: BranchOp) -> &'static str
    ensures { result.now ≡ branch_name op }
{
    match op {
        BranchOp::Beq => "beq",
        BranchOp::Bne => "bne",
        BranchOp::Blt => "blt",
        BranchOp::Bge => "bge",
        BranchOp::Bltu => "bltu",
        BranchOp::Bgeu => "bgeu",
    }
}

fn load_name(op: LoadOp) -> &'static str
    ensures { result.now ≡ load_name op }
{
    match op {
        LoadOp::Lb => "lb",
        LoadOp::Lh => "lh",
        LoadOp::Lw => "lw",
        LoadOp::Lbu => "lbu",
        LoadOp::Lhu => "lhu",
    }
}

fn store_name(op: Width) -> &'static str
    ensures { result.now ≡ store_name op }
{
    match op {
        Width::Byte => "sb",
        Width::Half => "sh",
        Width::Word => "sw",
    }
}

fn imm_name(op: ImmOp) -> &'static str
    ensures { result.now ≡ imm_name op }
{
    match op {
        ImmOp::Addi => "addi",
        ImmOp::Slti => "slti",
        ImmOp::Sltiu => "sltiu",
        ImmOp::Xori => "xori",
        ImmOp::Ori => "ori",
        ImmOp::Andi => "andi",
        ImmOp::Slli => "slli",
        ImmOp::Srli => "srli",
        ImmOp::Srai => "srai",
    }
}

fn reg_name(op: RegOp) -> &'static str
    ensures { result.now ≡ reg_name op }
{
    match op {
        RegOp::Add => "add",
        RegOp::Sll => "sll",
        RegOp::Slt => "slt",
        RegOp::Sltu => "sltu",
        RegOp::Xor => "xor",
        RegOp::Srl => "srl",
        RegOp::Or => "or",
        RegOp::And => "and",
        RegOp::Sub => "sub",
        RegOp::Sra => "sra",
    }
}

fn amo_name(op: AmoOp) -> &'static str
    ensures { result.now ≡ amo_name op }
{
    match op {
        AmoOp::Amoswap => "amoswap.w",
        AmoOp::Amoadd => "amoadd.w",
        AmoOp::Amoxor => "amoxor.w",
        AmoOp::Amoand => "amoand.w",
        AmoOp::Amoor => "amoor.w",
        AmoOp::Amomin => "amomin.w",
        AmoOp::Amomax => "amomax.w",
        AmoOp::Amominu => "amominu.w",
        AmoOp::Amomaxu => "amomaxu.w",
    }
}

/// The mnemonic of an instruction: the manual's name in lower case, that of an atomic instruction with `.w`.
pub fn mnemonic(instr: &Instr) -> &'static str
    ensures { result.now ≡ mnemonic instr.now }
{
    match *instr {
        Instr::Lui { .. } => "lui",
        Instr::Auipc { .. } => "auipc",
        Instr::Jal { .. } => "jal",
        Instr::Jalr { .. } => "jalr",
        Instr::Branch { op, .. } => branch_name(op),
        Instr::Load { op, .. } => load_name(op),
        Instr::Store { op, .. } => store_name(op),
        Instr::OpImm { op, .. } => imm_name(op),
        Instr::Op { op, .. } => reg_name(op),
        Instr::Fence => "fence",
        Instr::Ecall => "ecall",
        Instr::Ebreak => "ebreak",
        Instr::Lr { .. } => "lr.w",
        Instr::Sc { .. } => "sc.w",
        Instr::Amo { op, .. } => amo_name(op),
    }
}
