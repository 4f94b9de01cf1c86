//! The arithmetic of registers ("Integer Computational Instructions", "Conditional Branches", "Load and Store
//! Instructions" and "Atomic Memory Operations" of the RISC-V Unprivileged ISA manual).
ghost use Rattle.std.specs.Prelude.{◌≡◌, ◌<◌, ◌*◌, ◌≤◌, ◌^◌};
ghost use Rattle.rv_core.specs.Arithmetic.{less_with_sign, shifted_left, shifted_right, shifted_with_sign, is_taken, imm_result};
ghost use Rattle.rv_core.specs.Arithmetic.{reg_result, amo_result, sign_extended, load_result};

use rv_decode::{AmoOp, BranchOp, ImmOp, LoadOp, RegOp};

fn less_with_sign(a: u32, b: u32) -> bool
    ensures { result ≡ less_with_sign a b }
{
    a.cast_signed() < b.cast_signed()
}

fn shifted_left(a: u32, bits: u32) -> u32
    ensures { result ≡ shifted_left a bits }
{
    a << (bits % 32)
}

fn shifted_right(a: u32, bits: u32) -> u32
    ensures { result ≡ shifted_right a bits }
{
    a >> (bits % 32)
}

fn shifted_with_sign(a: u32, bits: u32) -> u32
    ensures { result ≡ shifted_with_sign a bits }
{
    (a.cast_signed() >> (bits % 32)).cast_unsigned()
}

pub(crate) fn is_taken(op: BranchOp, a: u32, b: u32) -> bool
    ensures { result ≡ is_taken op a b }
{
    match op {
        BranchOp::Beq => a == b,
        BranchOp::Bne => a != b,
        BranchOp::Blt => less_with_sign(a, b),
        BranchOp::Bge => !less_with_sign(a, b),
        BranchOp::Bltu => a < b,
        BranchOp::Bgeu => a >= b,
    }
}

/// An operation on a register and an immediate, whose sign extension is given modulo 2^32.
pub(crate) fn imm_result(op: ImmOp, a: u32, imm: u32) -> u32
    ensures { result ≡ imm_result op a imm }
{
    match op {
        ImmOp::Addi => a.wrapping_add(imm),
        ImmOp::Slti => u32::from(less_with_sign(a, imm)),
        ImmOp::Sltiu => u32::from(a < imm),
        ImmOp::Xori => a ^ imm,
        ImmOp::Ori => a | imm,
        ImmOp::Andi => a & imm,
        ImmOp::Slli => shifted_left(a, imm),
        ImmOp::Srli => shifted_right(a, imm),
        ImmOp::Srai => shifted_with_sign(a, imm),
    }
}

pub(crate) fn reg_result(op: RegOp, a: u32, b: u32) -> u32
    ensures { result ≡ reg_result op a b }
{
    match op {
        RegOp::Add => a.wrapping_add(b),
        RegOp::Sll => shifted_left(a, b),
        RegOp::Slt => u32::from(less_with_sign(a, b)),
        RegOp::Sltu => u32::from(a < b),
        RegOp::Xor => a ^ b,
        RegOp::Srl => shifted_right(a, b),
        RegOp::Or => a | b,
        RegOp::And => a & b,
        RegOp::Sub => a.wrapping_sub(b),
        RegOp::Sra => shifted_with_sign(a, b),
    }
}

/// What an atomic operation writes, of the word that it saw and a register.
pub(crate) fn amo_result(op: AmoOp, seen: u32, b: u32) -> u32
    ensures { result ≡ amo_result op seen b }
{
    match op {
        AmoOp::Amoswap => b,
        AmoOp::Amoadd => seen.wrapping_add(b),
        AmoOp::Amoxor => seen ^ b,
        AmoOp::Amoand => seen & b,
        AmoOp::Amoor => seen | b,
        AmoOp::Amomin if less_with_sign(b, seen) => b,
        AmoOp::Amomax if less_with_sign(seen, b) => b,
        AmoOp::Amomin | AmoOp::Amomax => seen,
        AmoOp::Amominu => seen.min(b),
        AmoOp::Amomaxu => seen.max(b),
    }
}

/// A number below twice `half` with its highest bit repeated up to 32 bits.
fn sign_extended(half: u32, number: u32) -> u32
    requires small { number < 2 * half }
    requires fits { half < 2 ^ 30 }
    ensures { result ≡ sign_extended half number }
{
    if number < half {
        number
    } else {
        number + (u32::MAX - 2 * half + 1)
    }
}

/// What a load gives, of the aligned word that holds the accessed bytes.
pub(crate) fn loaded(op: LoadOp, address: u32, seen: u32) -> u32
    ensures { result ≡ load_result op address seen }
{
    let from = seen >> (8 * (address % 4));
    match op {
        LoadOp::Lb => sign_extended(0x80, from % 0x100),
        LoadOp::Lh => sign_extended(0x8000, from % 0x1_0000),
        LoadOp::Lw => seen,
        LoadOp::Lbu => from % 0x100,
        LoadOp::Lhu => from % 0x1_0000,
    }
}
