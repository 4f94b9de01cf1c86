//! Fences, calls and atomic operations; free bits; the ends of immediates.
use super::{Row, all_met};
use rv_decode::{AmoOp, BranchOp, Illegal, ImmOp, Instr, decode};
use sn_base::Width;

const SYSTEM_ROWS: &[Row] = &[
    (0x0ff0_000f, Instr::Fence, 0x0ff0_001f, Err(Illegal)),
    (0x0000_0073, Instr::Ecall, 0x0000_007b, Err(Illegal)),
    (0x0010_0073, Instr::Ebreak, 0x0050_0073, Err(Illegal)),
    (
        0x100d_262f,
        Instr::Lr { rd: 12, rs1: 26 },
        0x104d_262f,
        Err(Illegal),
    ),
    (
        0x18ee_a1af,
        Instr::Sc {
            rd: 3,
            rs1: 29,
            rs2: 14,
        },
        0x18ee_e1af,
        Err(Illegal),
    ),
    (
        0x0815_22af,
        Instr::Amo {
            op: AmoOp::Amoswap,
            rd: 5,
            rs1: 10,
            rs2: 1,
        },
        0x0815_32af,
        Err(Illegal),
    ),
    (
        0x0197_272f,
        Instr::Amo {
            op: AmoOp::Amoadd,
            rd: 14,
            rs1: 14,
            rs2: 25,
        },
        0x2197_272f,
        Ok(Instr::Amo {
            op: AmoOp::Amoxor,
            rd: 14,
            rs1: 14,
            rs2: 25,
        }),
    ),
    (
        0x2041_2e2f,
        Instr::Amo {
            op: AmoOp::Amoxor,
            rd: 28,
            rs1: 2,
            rs2: 4,
        },
        0x2041_3e2f,
        Err(Illegal),
    ),
    (
        0x614c_aa2f,
        Instr::Amo {
            op: AmoOp::Amoand,
            rd: 20,
            rs1: 25,
            rs2: 20,
        },
        0x714c_aa2f,
        Err(Illegal),
    ),
    (
        0x40db_a12f,
        Instr::Amo {
            op: AmoOp::Amoor,
            rd: 2,
            rs1: 23,
            rs2: 13,
        },
        0x00db_a12f,
        Ok(Instr::Amo {
            op: AmoOp::Amoadd,
            rd: 2,
            rs1: 23,
            rs2: 13,
        }),
    ),
    (
        0x80b9_29af,
        Instr::Amo {
            op: AmoOp::Amomin,
            rd: 19,
            rs1: 18,
            rs2: 11,
        },
        0x80b9_29ef,
        Ok(Instr::Jal {
            rd: 19,
            offset: -448502,
        }),
    ),
    (
        0xa1e4_aeaf,
        Instr::Amo {
            op: AmoOp::Amomax,
            rd: 29,
            rs1: 9,
            rs2: 30,
        },
        0xe1e4_aeaf,
        Ok(Instr::Amo {
            op: AmoOp::Amomaxu,
            rd: 29,
            rs1: 9,
            rs2: 30,
        }),
    ),
    (
        0xc081_28af,
        Instr::Amo {
            op: AmoOp::Amominu,
            rd: 17,
            rs1: 2,
            rs2: 8,
        },
        0xc081_68af,
        Err(Illegal),
    ),
    (
        0xe011_a52f,
        Instr::Amo {
            op: AmoOp::Amomaxu,
            rd: 10,
            rs1: 3,
            rs2: 1,
        },
        0xe011_a52b,
        Err(Illegal),
    ),
];

#[test]
fn fences_calls_and_atomics(rt: HostRuntime) {
    all_met(&rt, SYSTEM_ROWS);
}

/// The free bits of each word have something else than an assembler writes.
const WITH_FREE_BITS: &[(u32, Instr)] = &[
    (0x8330_000f, Instr::Fence),
    (0x1609_a8af, Instr::Lr { rd: 17, rs1: 19 }),
    (0x1009_a8af, Instr::Lr { rd: 17, rs1: 19 }),
    (
        0x0262_a3af,
        Instr::Amo {
            op: AmoOp::Amoadd,
            rd: 7,
            rs1: 5,
            rs2: 6,
        },
    ),
];

#[test]
fn free_bits_are_not_looked_at(rt: HostRuntime) {
    for (word, instr) in WITH_FREE_BITS {
        assert!(rt; decode(*word) == Ok(*instr), "{word:08x}");
    }
}

/// Operands at the end of a form, or beyond it, and whether they fit.
const AT_THE_ENDS: &[(Instr, bool)] = &[
    (Instr::Jal { rd: 0, offset: 3 }, false),
    (
        Instr::Jal {
            rd: 0,
            offset: 0x10_0000,
        },
        false,
    ),
    (Instr::Lui { rd: 0, imm: 1 }, false),
    (Instr::Lr { rd: 32, rs1: 0 }, false),
    (
        Instr::OpImm {
            op: ImmOp::Slli,
            rd: 0,
            rs1: 0,
            imm: 32,
        },
        false,
    ),
    (
        Instr::Branch {
            op: BranchOp::Beq,
            rs1: 0,
            rs2: 0,
            offset: -0x1000,
        },
        true,
    ),
    (
        Instr::Store {
            op: Width::Byte,
            rs1: 0,
            rs2: 0,
            imm: 2048,
        },
        false,
    ),
];

#[test]
fn immediates_end_at_their_forms(rt: HostRuntime) {
    for (place, (instr, fits)) in AT_THE_ENDS.iter().enumerate() {
        assert!(rt; instr.fits() == *fits, "row {place}");
    }
}
