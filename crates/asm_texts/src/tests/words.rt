//! Lines and their words, as another assembler writes them (LLVM's, for riscv32 with A).
use rv_asm::{AsmFault, assemble, disassemble};
use sn_base::Memory;
use std::alloc::Global;

fn has_line(alloc: Global, line: &str, word: u32) -> Result<bool, Memory> {
    let text = disassemble(alloc, &[word])?;
    Ok(text.as_slice().strip_suffix(b"\n") == Some(line.as_bytes()))
}

fn has_word(alloc: Global, line: &str, word: u32) -> Result<bool, Memory> {
    match assemble(alloc, line.as_bytes()) {
        Ok(words) => Ok(words.as_slice() == [word].as_slice()),
        Err(AsmFault::Refused(_)) => Ok(false),
        Err(AsmFault::Memory) => Err(Memory),
    }
}

#[test]
fn each_instruction_has_its_line_and_its_word(rt: HostRuntime) -> Result<(), Memory> {
    let rows: [(&str, u32); 52] = [
        ("lui x5, 1048575", 0xffff_f2b7),
        ("auipc x31, 0", 0x0000_0f97),
        ("jal x1, -1048576", 0x8000_00ef),
        ("jal x0, 1048574", 0x7fff_f06f),
        ("jalr x1, -2048(x2)", 0x8001_00e7),
        ("beq x1, x2, -4096", 0x8020_8063),
        ("bne x3, x4, 4094", 0x7e41_9fe3),
        ("blt x5, x6, 8", 0x0062_c463),
        ("bge x7, x8, -2", 0xfe83_dfe3),
        ("bltu x9, x10, 2048", 0x00a4_e0e3),
        ("bgeu x11, x12, 0", 0x00c5_f063),
        ("lb x13, 2047(x14)", 0x7ff7_0683),
        ("lh x15, -1(x16)", 0xfff8_1783),
        ("lw x17, 0(x18)", 0x0009_2883),
        ("lbu x19, 4(x20)", 0x004a_4983),
        ("lhu x21, -4(x22)", 0xffcb_5a83),
        ("sb x23, 2047(x24)", 0x7f7c_0fa3),
        ("sh x25, -2048(x26)", 0x819d_1023),
        ("sw x27, 31(x28)", 0x01be_2fa3),
        ("addi x29, x30, -2048", 0x800f_0e93),
        ("slti x31, x0, 2047", 0x7ff0_2f93),
        ("sltiu x1, x2, 1", 0x0011_3093),
        ("xori x3, x4, -1", 0xfff2_4193),
        ("ori x5, x6, 255", 0x0ff3_6293),
        ("andi x7, x8, 15", 0x00f4_7393),
        ("slli x9, x10, 31", 0x01f5_1493),
        ("srli x11, x12, 0", 0x0006_5593),
        ("srai x13, x14, 16", 0x4107_5693),
        ("add x15, x16, x17", 0x0118_07b3),
        ("sub x18, x19, x20", 0x4149_8933),
        ("sll x21, x22, x23", 0x017b_1ab3),
        ("slt x24, x25, x26", 0x01ac_ac33),
        ("sltu x27, x28, x29", 0x01de_3db3),
        ("xor x30, x31, x0", 0x000f_cf33),
        ("srl x1, x2, x3", 0x0031_50b3),
        ("sra x4, x5, x6", 0x4062_d233),
        ("or x7, x8, x9", 0x0094_63b3),
        ("and x10, x11, x12", 0x00c5_f533),
        ("fence", 0x0ff0_000f),
        ("ecall", 0x0000_0073),
        ("ebreak", 0x0010_0073),
        ("lr.w x6, (x5)", 0x1002_a32f),
        ("sc.w x7, x8, (x9)", 0x1884_a3af),
        ("amoswap.w x10, x11, (x12)", 0x08b6_252f),
        ("amoadd.w x13, x14, (x15)", 0x00e7_a6af),
        ("amoxor.w x16, x17, (x18)", 0x2119_282f),
        ("amoand.w x19, x20, (x21)", 0x614a_a9af),
        ("amoor.w x22, x23, (x24)", 0x417c_2b2f),
        ("amomin.w x25, x26, (x27)", 0x81ad_acaf),
        ("amomax.w x28, x29, (x30)", 0xa1df_2e2f),
        ("amominu.w x31, x1, (x2)", 0xc011_2faf),
        ("amomaxu.w x3, x4, (x5)", 0xe042_a1af),
    ];
    for (line, word) in rows {
        let is_listed = has_line(rt.alloc(), line, word)?;
        assert!(rt; is_listed, "{line}");
        let is_read = has_word(rt.alloc(), line, word)?;
        assert!(rt; is_read, "{line}");
    }
    Ok(())
}

#[test]
fn a_counting_loop_has_its_lines(rt: HostRuntime) -> Result<(), Memory> {
    let text = disassemble(rt.alloc(), &[0x0012_8293, 0xffdf_f06f])?;
    assert_eq!(rt; text.as_slice(), b"addi x5, x5, 1\njal x0, -4\n".as_slice());
    Ok(())
}

#[test]
fn a_word_whose_free_bits_are_set_is_no_instructions_line(rt: HostRuntime) -> Result<(), Memory> {
    let text = disassemble(rt.alloc(), &[0x0e62_a3af, 0x0000_000f, 0, 0xffff_ffff])?;
    let lines = b".word 0x0e62a3af\n.word 0x0000000f\n.word 0x00000000\n.word 0xffffffff\n";
    assert_eq!(rt; text.as_slice(), lines.as_slice());
    Ok(())
}
