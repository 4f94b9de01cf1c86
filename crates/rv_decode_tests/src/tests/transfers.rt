//! Jumps, branches, loads and stores.
use super::{Row, all_met};
use rv_decode::{BranchOp, Illegal, ImmOp, Instr, LoadOp};
use sn_base::Width;

const TRANSFER_ROWS: &[Row] = &[
    (
        0x42c6_c437,
        Instr::Lui {
            rd: 8,
            imm: 0x42c6c000,
        },
        0x42c6_c433,
        Err(Illegal),
    ),
    (
        0xf2b7_2617,
        Instr::Auipc {
            rd: 12,
            imm: 0xf2b72000,
        },
        0xf2b7_2657,
        Err(Illegal),
    ),
    (
        0x99e4_3aef,
        Instr::Jal {
            rd: 21,
            offset: -773730,
        },
        0x99e4_3aaf,
        Err(Illegal),
    ),
    (
        0x86bf_0a67,
        Instr::Jalr {
            rd: 20,
            rs1: 30,
            imm: -1941,
        },
        0x86bf_0a63,
        Ok(Instr::Branch {
            op: BranchOp::Beq,
            rs1: 30,
            rs2: 11,
            offset: -3980,
        }),
    ),
    (
        0x090d_8c63,
        Instr::Branch {
            op: BranchOp::Beq,
            rs1: 27,
            rs2: 16,
            offset: 152,
        },
        0x090d_8c43,
        Err(Illegal),
    ),
    (
        0xc489_12e3,
        Instr::Branch {
            op: BranchOp::Bne,
            rs1: 18,
            rs2: 8,
            offset: -956,
        },
        0xc489_32e3,
        Err(Illegal),
    ),
    (
        0x670b_cee3,
        Instr::Branch {
            op: BranchOp::Blt,
            rs1: 23,
            rs2: 16,
            offset: 3708,
        },
        0x670b_cea3,
        Err(Illegal),
    ),
    (
        0x9b56_d1e3,
        Instr::Branch {
            op: BranchOp::Bge,
            rs1: 13,
            rs2: 21,
            offset: -1630,
        },
        0x9b56_d1a3,
        Err(Illegal),
    ),
    (
        0x9b54_6ae3,
        Instr::Branch {
            op: BranchOp::Bltu,
            rs1: 8,
            rs2: 21,
            offset: -1612,
        },
        0x9b54_6af3,
        Err(Illegal),
    ),
    (
        0x0fee_7ae3,
        Instr::Branch {
            op: BranchOp::Bgeu,
            rs1: 28,
            rs2: 30,
            offset: 2292,
        },
        0x0fee_7ae7,
        Err(Illegal),
    ),
];

#[test]
fn jumps_and_branches(rt: HostRuntime) {
    all_met(&rt, TRANSFER_ROWS);
}

const MEMORY_ROWS: &[Row] = &[
    (
        0x87cb_0c03,
        Instr::Load {
            op: LoadOp::Lb,
            rd: 24,
            rs1: 22,
            imm: -1924,
        },
        0x87cb_1c03,
        Ok(Instr::Load {
            op: LoadOp::Lh,
            rd: 24,
            rs1: 22,
            imm: -1924,
        }),
    ),
    (
        0xa0c3_1c83,
        Instr::Load {
            op: LoadOp::Lh,
            rd: 25,
            rs1: 6,
            imm: -1524,
        },
        0xa0c3_0c83,
        Ok(Instr::Load {
            op: LoadOp::Lb,
            rd: 25,
            rs1: 6,
            imm: -1524,
        }),
    ),
    (
        0x95e5_2c83,
        Instr::Load {
            op: LoadOp::Lw,
            rd: 25,
            rs1: 10,
            imm: -1698,
        },
        0x95e5_3c83,
        Err(Illegal),
    ),
    (
        0x8fed_cc83,
        Instr::Load {
            op: LoadOp::Lbu,
            rd: 25,
            rs1: 27,
            imm: -1794,
        },
        0x8fed_cc93,
        Ok(Instr::OpImm {
            op: ImmOp::Xori,
            rd: 25,
            rs1: 27,
            imm: -1794,
        }),
    ),
    (
        0x09f8_5e03,
        Instr::Load {
            op: LoadOp::Lhu,
            rd: 28,
            rs1: 16,
            imm: 159,
        },
        0x09f8_7e03,
        Err(Illegal),
    ),
    (
        0x474b_83a3,
        Instr::Store {
            op: Width::Byte,
            rs1: 23,
            rs2: 20,
            imm: 1127,
        },
        0x474b_a3a3,
        Ok(Instr::Store {
            op: Width::Word,
            rs1: 23,
            rs2: 20,
            imm: 1127,
        }),
    ),
    (
        0x5ba6_94a3,
        Instr::Store {
            op: Width::Half,
            rs1: 13,
            rs2: 26,
            imm: 1449,
        },
        0x5ba6_d4a3,
        Err(Illegal),
    ),
    (
        0x638f_ad23,
        Instr::Store {
            op: Width::Word,
            rs1: 31,
            rs2: 24,
            imm: 1594,
        },
        0x638f_8d23,
        Ok(Instr::Store {
            op: Width::Byte,
            rs1: 31,
            rs2: 24,
            imm: 1594,
        }),
    ),
];

#[test]
fn loads_and_stores(rt: HostRuntime) {
    all_met(&rt, MEMORY_ROWS);
}
