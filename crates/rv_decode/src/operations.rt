//! The operations of each opcode, and the numbers that tell them apart.
ghost use Rattle.std.specs.Prelude.{◌≡◌, ◌<◌, ◌^◌};
ghost use Rattle.rv_decode.specs.Codes.{branch_code, load_code, store_code, imm_code, is_shift, shift_top, reg_code, reg_top, amo_code};
ghost use Rattle.rv_decode.specs.Codes.{branch_op, load_op, store_op, imm_op, reg_op, amo_op};

use sn_base::Width;

/// The conditional branches ("RV32I Base Integer Instruction Set", Conditional Branches).
#[derive(Clone, Copy, PartialEq, Eq, Debug)]
pub enum BranchOp {
    Beq,
    Bne,
    Blt,
    Bge,
    Bltu,
    Bgeu,
}

/// The loads ("RV32I Base Integer Instruction Set", Load and Store Instructions).
#[derive(Clone, Copy, PartialEq, Eq, Debug)]
pub enum LoadOp {
    Lb,
    Lh,
    Lw,
    Lbu,
    Lhu,
}

/// The operations of a register and an immediate ("RV32I Base Integer Instruction Set", Integer
/// Register-Immediate Instructions).
#[derive(Clone, Copy, PartialEq, Eq, Debug)]
pub enum ImmOp {
    Addi,
    Slti,
    Sltiu,
    Xori,
    Ori,
    Andi,
    Slli,
    Srli,
    Srai,
}

/// The operations of two registers ("RV32I Base Integer Instruction Set", Integer Register-Register Operations).
#[derive(Clone, Copy, PartialEq, Eq, Debug)]
pub enum RegOp {
    Add,
    Sll,
    Slt,
    Sltu,
    Xor,
    Srl,
    Or,
    And,
    Sub,
    Sra,
}

/// The atomic memory operations on words ("A" Extension, Atomic Memory Operations).
#[derive(Clone, Copy, PartialEq, Eq, Debug)]
pub enum AmoOp {
    Amoswap,
    Amoadd,
    Amoxor,
    Amoand,
    Amoor,
    Amomin,
    Amomax,
    Amominu,
    Amomaxu,
}

pub(crate) fn branch_at(funct3: u32) -> Option<BranchOp>
    ensures { result ≡ branch_op funct3 }
{
    match funct3 {
        0b000 => Some(BranchOp::Beq),
        0b001 => Some(BranchOp::Bne),
        0b100 => Some(BranchOp::Blt),
        0b101 => Some(BranchOp::Bge),
        0b110 => Some(BranchOp::Bltu),
        0b111 => Some(BranchOp::Bgeu),
        _ => None,
    }
}

pub(crate) fn load_at(funct3: u32) -> Option<LoadOp>
    ensures { result ≡ load_op funct3 }
{
    match funct3 {
        0b000 => Some(LoadOp::Lb),
        0b001 => Some(LoadOp::Lh),
        0b010 => Some(LoadOp::Lw),
        0b100 => Some(LoadOp::Lbu),
        0b101 => Some(LoadOp::Lhu),
        _ => None,
    }
}

pub(crate) fn store_at(funct3: u32) -> Option<Width>
    ensures { result ≡ store_op funct3 }
{
    match funct3 {
        0b000 => Some(Width::Byte),
        0b001 => Some(Width::Half),
        0b010 => Some(Width::Word),
        _ => None,
    }
}

/// Only a shift's funct7 is fixed; elsewhere it is the immediate's.
pub(crate) fn imm_at(funct3: u32, funct7: u32) -> Option<ImmOp>
    ensures { result ≡ imm_op funct3 funct7 }
{
    match (funct3, funct7) {
        (0b000, _) => Some(ImmOp::Addi),
        (0b010, _) => Some(ImmOp::Slti),
        (0b011, _) => Some(ImmOp::Sltiu),
        (0b100, _) => Some(ImmOp::Xori),
        (0b110, _) => Some(ImmOp::Ori),
        (0b111, _) => Some(ImmOp::Andi),
        (0b001, 0b0000000) => Some(ImmOp::Slli),
        (0b101, 0b0000000) => Some(ImmOp::Srli),
        (0b101, 0b0100000) => Some(ImmOp::Srai),
        _ => None,
    }
}

pub(crate) fn reg_at(funct3: u32, funct7: u32) -> Option<RegOp>
    ensures { result ≡ reg_op funct3 funct7 }
{
    match (funct3, funct7) {
        (0b000, 0b0000000) => Some(RegOp::Add),
        (0b001, 0b0000000) => Some(RegOp::Sll),
        (0b010, 0b0000000) => Some(RegOp::Slt),
        (0b011, 0b0000000) => Some(RegOp::Sltu),
        (0b100, 0b0000000) => Some(RegOp::Xor),
        (0b101, 0b0000000) => Some(RegOp::Srl),
        (0b110, 0b0000000) => Some(RegOp::Or),
        (0b111, 0b0000000) => Some(RegOp::And),
        (0b000, 0b0100000) => Some(RegOp::Sub),
        (0b101, 0b0100000) => Some(RegOp::Sra),
        _ => None,
    }
}

pub(crate) fn amo_at(funct5: u32) -> Option<AmoOp>
    ensures { result ≡ amo_op funct5 }
{
    match funct5 {
        0b00001 => Some(AmoOp::Amoswap),
        0b00000 => Some(AmoOp::Amoadd),
        0b00100 => Some(AmoOp::Amoxor),
        0b01100 => Some(AmoOp::Amoand),
        0b01000 => Some(AmoOp::Amoor),
        0b10000 => Some(AmoOp::Amomin),
        0b10100 => Some(AmoOp::Amomax),
        0b11000 => Some(AmoOp::Amominu),
        0b11100 => Some(AmoOp::Amomaxu),
        _ => None,
    }
}

impl BranchOp {
    pub(crate) fn funct3(self) -> u32
        ensures same { result ≡ branch_code self }
        ensures small { result < 2 ^ 3 }
    {
        match self {
            BranchOp::Beq => 0b000,
            BranchOp::Bne => 0b001,
            BranchOp::Blt => 0b100,
            BranchOp::Bge => 0b101,
            BranchOp::Bltu => 0b110,
            BranchOp::Bgeu => 0b111,
        }
    }
}

impl LoadOp {
    pub(crate) fn funct3(self) -> u32
        ensures same { result ≡ load_code self }
        ensures small { result < 2 ^ 3 }
    {
        match self {
            LoadOp::Lb => 0b000,
            LoadOp::Lh => 0b001,
            LoadOp::Lw => 0b010,
            LoadOp::Lbu => 0b100,
            LoadOp::Lhu => 0b101,
        }
    }
}

pub(crate) fn store_funct3(width: Width) -> u32
    ensures same { result ≡ store_code width }
    ensures small { result < 2 ^ 3 }
{
    match width {
        Width::Byte => 0b000,
        Width::Half => 0b001,
        Width::Word => 0b010,
    }
}

impl ImmOp {
    pub(crate) fn funct3(self) -> u32
        ensures same { result ≡ imm_code self }
        ensures small { result < 2 ^ 3 }
    {
        match self {
            ImmOp::Addi => 0b000,
            ImmOp::Slti => 0b010,
            ImmOp::Sltiu => 0b011,
            ImmOp::Xori => 0b100,
            ImmOp::Ori => 0b110,
            ImmOp::Andi => 0b111,
            ImmOp::Slli => 0b001,
            ImmOp::Srli | ImmOp::Srai => 0b101,
        }
    }

    pub(crate) fn is_shift(self) -> bool
        ensures { result ≡ is_shift self }
    {
        matches!(self, ImmOp::Slli | ImmOp::Srli | ImmOp::Srai)
    }

    /// The funct7 of a shift.
    pub(crate) fn funct7(self) -> u32
        ensures same { result ≡ shift_top self }
        ensures small { result < 2 ^ 7 }
    {
        if self == ImmOp::Srai {
            0b0100000
        } else {
            0b0000000
        }
    }
}

impl RegOp {
    pub(crate) fn funct3(self) -> u32
        ensures same { result ≡ reg_code self }
        ensures small { result < 2 ^ 3 }
    {
        match self {
            RegOp::Add | RegOp::Sub => 0b000,
            RegOp::Sll => 0b001,
            RegOp::Slt => 0b010,
            RegOp::Sltu => 0b011,
            RegOp::Xor => 0b100,
            RegOp::Srl | RegOp::Sra => 0b101,
            RegOp::Or => 0b110,
            RegOp::And => 0b111,
        }
    }

    pub(crate) fn funct7(self) -> u32
        ensures same { result ≡ reg_top self }
        ensures small { result < 2 ^ 7 }
    {
        match self {
            RegOp::Sub | RegOp::Sra => 0b0100000,
            _ => 0b0000000,
        }
    }
}

impl AmoOp {
    pub(crate) fn funct5(self) -> u32
        ensures same { result ≡ amo_code self }
        ensures small { result < 2 ^ 5 }
    {
        match self {
            AmoOp::Amoswap => 0b00001,
            AmoOp::Amoadd => 0b00000,
            AmoOp::Amoxor => 0b00100,
            AmoOp::Amoand => 0b01100,
            AmoOp::Amoor => 0b01000,
            AmoOp::Amomin => 0b10000,
            AmoOp::Amomax => 0b10100,
            AmoOp::Amominu => 0b11000,
            AmoOp::Amomaxu => 0b11100,
        }
    }
}
