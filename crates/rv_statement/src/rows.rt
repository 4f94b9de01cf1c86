//! The rows of the table, and the row of a mnemonic.
ghost use Rattle.std.specs.Prelude.{◌≡◌, ◌<◌, slice_index_or, pos};
ghost use Rattle.rv_decode.specs.declared.instr.Instr.{Instr};
ghost use Rattle.rv_statement.specs.Reading.{rows, is_row, row_of};

use crate::names::mnemonic;
use rv_decode::{AmoOp, BranchOp, ImmOp, Instr, LoadOp, RegOp};
use sn_base::Width;

/// The row with a mnemonic: its instruction, with its operands 0.
pub(crate) fn row_of(text: &[u8]) -> Option<Instr>
    ensures { result ≡ row_of text.now }
{
    'rows: for place in 0..51usize {
        let row = row(place);
        if is_row(text, &row) {
            return Some(row);
        }
    }
    None
}

fn is_row(text: &[u8], row: &Instr) -> bool
    ensures { result ≡ is_row text.now row.now }
{
    text == mnemonic(row).as_bytes()
}

fn row(place: usize) -> Instr
    requires { place < 51 }
    ensures { result ≡ slice_index_or rows place Instr.Fence }
{
    match place {
        0 => Instr::Lui { rd: 0, imm: 0 },
        1 => Instr::Auipc { rd: 0, imm: 0 },
        2 => Instr::Jal { rd: 0, offset: 0 },
        3 => Instr::Jalr {
            rd: 0,
            rs1: 0,
            imm: 0,
        },
        4 => branch(BranchOp::Beq),
        5 => branch(BranchOp::Bne),
        6 => branch(BranchOp::Blt),
        7 => branch(BranchOp::Bge),
        8 => branch(BranchOp::Bltu),
        9 => branch(BranchOp::Bgeu),
        10 => load(LoadOp::Lb),
        11 => load(LoadOp::Lh),
        12 => load(LoadOp::Lw),
        13 => load(LoadOp::Lbu),
        14 => load(LoadOp::Lhu),
        15 => store(Width::Byte),
        16 => store(Width::Half),
        17 => store(Width::Word),
        18 => with_immediate(ImmOp::Addi),
        19 => with_immediate(ImmOp::Slti),
        20 => with_immediate(ImmOp::Sltiu),
        21 => with_immediate(ImmOp::Xori),
        22 => with_immediate(ImmOp::Ori),
        23 => with_immediate(ImmOp::Andi),
        24 => with_immediate(ImmOp::Slli),
        25 => with_immediate(ImmOp::Srli),
        26 => with_immediate(ImmOp::Srai),
        27 => on_registers(RegOp::Add),
        28 => on_registers(RegOp::Sll),
        29 => on_registers(RegOp::Slt),
        30 => on_registers(RegOp::Sltu),
        31 => on_registers(RegOp::Xor),
        32 => on_registers(RegOp::Srl),
        33 => on_registers(RegOp::Or),
        34 => on_registers(RegOp::And),
        35 => on_registers(RegOp::Sub),
        36 => on_registers(RegOp::Sra),
        37 => Instr::Fence,
        38 => Instr::Ecall,
        39 => Instr::Ebreak,
        40 => Instr::Lr { rd: 0, rs1: 0 },
        41 => Instr::Sc {
            rd: 0,
            rs1: 0,
            rs2: 0,
        },
        42 => atomic(AmoOp::Amoswap),
        43 => atomic(AmoOp::Amoadd),
        44 => atomic(AmoOp::Amoxor),
        45 => atomic(AmoOp::Amoand),
        46 => atomic(AmoOp::Amoor),
        47 => atomic(AmoOp::Amomin),
        48 => atomic(AmoOp::Amomax),
        49 => atomic(AmoOp::Amominu),
        _ => atomic(AmoOp::Amomaxu),
    }
}

fn branch(op: BranchOp) -> Instr
    ensures { result ≡ Instr.Branch op 0 0 (pos 0) }
{
    Instr::Branch {
        op,
        rs1: 0,
        rs2: 0,
        offset: 0,
    }
}

fn load(op: LoadOp) -> Instr
    ensures { result ≡ Instr.Load op 0 0 (pos 0) }
{
    Instr::Load {
        op,
        rd: 0,
        rs1: 0,
        imm: 0,
    }
}

fn store(op: Width) -> Instr
    ensures { result ≡ Instr.Store op 0 0 (pos 0) }
{
    Instr::Store {
        op,
        rs1: 0,
        rs2: 0,
        imm: 0,
    }
}

fn with_immediate(op: ImmOp) -> Instr
    ensures { result ≡ Instr.OpImm op 0 0 (pos 0) }
{
    Instr::OpImm {
        op,
        rd: 0,
        rs1: 0,
        imm: 0,
    }
}

fn on_registers(op: RegOp) -> Instr
    ensures { result ≡ Instr.Op op 0 0 0 }
{
    Instr::Op {
        op,
        rd: 0,
        rs1: 0,
        rs2: 0,
    }
}

fn atomic(op: AmoOp) -> Instr
    ensures { result ≡ Instr.Amo op 0 0 0 }
{
    Instr::Amo {
        op,
        rd: 0,
        rs1: 0,
        rs2: 0,
    }
}
