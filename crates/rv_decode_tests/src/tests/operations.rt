//! Operations with an immediate, and on two registers.
use super::{Row, all_met};
use rv_decode::{Illegal, ImmOp, Instr, RegOp};

const IMMEDIATE_ROWS: &[Row] = &[
    (
        0x3b22_8f13,
        Instr::OpImm {
            op: ImmOp::Addi,
            rd: 30,
            rs1: 5,
            imm: 946,
        },
        0x3b22_8f1b,
        Err(Illegal),
    ),
    (
        0xc591_2213,
        Instr::OpImm {
            op: ImmOp::Slti,
            rd: 4,
            rs1: 2,
            imm: -935,
        },
        0xc591_2253,
        Err(Illegal),
    ),
    (
        0x0413_b813,
        Instr::OpImm {
            op: ImmOp::Sltiu,
            rd: 16,
            rs1: 7,
            imm: 65,
        },
        0x0413_9813,
        Err(Illegal),
    ),
    (
        0x5f5b_4f93,
        Instr::OpImm {
            op: ImmOp::Xori,
            rd: 31,
            rs1: 22,
            imm: 1525,
        },
        0x5f5b_4fb3,
        Err(Illegal),
    ),
    (
        0x1a2a_ec93,
        Instr::OpImm {
            op: ImmOp::Ori,
            rd: 25,
            rs1: 21,
            imm: 418,
        },
        0x1a2a_ecd3,
        Err(Illegal),
    ),
    (
        0x4598_f713,
        Instr::OpImm {
            op: ImmOp::Andi,
            rd: 14,
            rs1: 17,
            imm: 1113,
        },
        0x4598_d713,
        Err(Illegal),
    ),
    (
        0x01a6_1993,
        Instr::OpImm {
            op: ImmOp::Slli,
            rd: 19,
            rs1: 12,
            imm: 26,
        },
        0x01a6_19d3,
        Err(Illegal),
    ),
    (
        0x0154_5993,
        Instr::OpImm {
            op: ImmOp::Srli,
            rd: 19,
            rs1: 8,
            imm: 21,
        },
        0x0354_5993,
        Err(Illegal),
    ),
    (
        0x401f_5b13,
        Instr::OpImm {
            op: ImmOp::Srai,
            rd: 22,
            rs1: 30,
            imm: 1,
        },
        0x401f_5b53,
        Err(Illegal),
    ),
];

#[test]
fn operations_with_an_immediate(rt: HostRuntime) {
    all_met(&rt, IMMEDIATE_ROWS);
}

const REGISTER_ROWS: &[Row] = &[
    (
        0x0144_8e33,
        Instr::Op {
            op: RegOp::Add,
            rd: 28,
            rs1: 9,
            rs2: 20,
        },
        0x0344_8e33,
        Err(Illegal),
    ),
    (
        0x006b_9b33,
        Instr::Op {
            op: RegOp::Sll,
            rd: 22,
            rs1: 23,
            rs2: 6,
        },
        0x006b_8b33,
        Ok(Instr::Op {
            op: RegOp::Add,
            rd: 22,
            rs1: 23,
            rs2: 6,
        }),
    ),
    (
        0x00be_2bb3,
        Instr::Op {
            op: RegOp::Slt,
            rd: 23,
            rs1: 28,
            rs2: 11,
        },
        0x00be_2bb7,
        Ok(Instr::Lui {
            rd: 23,
            imm: 0x00be2000,
        }),
    ),
    (
        0x01d9_3fb3,
        Instr::Op {
            op: RegOp::Sltu,
            rd: 31,
            rs1: 18,
            rs2: 29,
        },
        0x21d9_3fb3,
        Err(Illegal),
    ),
    (
        0x0049_c9b3,
        Instr::Op {
            op: RegOp::Xor,
            rd: 19,
            rs1: 19,
            rs2: 4,
        },
        0x0049_e9b3,
        Ok(Instr::Op {
            op: RegOp::Or,
            rd: 19,
            rs1: 19,
            rs2: 4,
        }),
    ),
    (
        0x007a_dbb3,
        Instr::Op {
            op: RegOp::Srl,
            rd: 23,
            rs1: 21,
            rs2: 7,
        },
        0x047a_dbb3,
        Err(Illegal),
    ),
    (
        0x013d_eab3,
        Instr::Op {
            op: RegOp::Or,
            rd: 21,
            rs1: 27,
            rs2: 19,
        },
        0x013d_fab3,
        Ok(Instr::Op {
            op: RegOp::And,
            rd: 21,
            rs1: 27,
            rs2: 19,
        }),
    ),
    (
        0x0045_74b3,
        Instr::Op {
            op: RegOp::And,
            rd: 9,
            rs1: 10,
            rs2: 4,
        },
        0x0045_74b7,
        Ok(Instr::Lui {
            rd: 9,
            imm: 0x00457000,
        }),
    ),
    (
        0x41c8_01b3,
        Instr::Op {
            op: RegOp::Sub,
            rd: 3,
            rs1: 16,
            rs2: 28,
        },
        0x41c8_21b3,
        Err(Illegal),
    ),
    (
        0x4038_5ab3,
        Instr::Op {
            op: RegOp::Sra,
            rd: 21,
            rs1: 16,
            rs2: 3,
        },
        0x4438_5ab3,
        Err(Illegal),
    ),
];

#[test]
fn operations_on_two_registers(rt: HostRuntime) {
    all_met(&rt, REGISTER_ROWS);
}
