//! Texts, what they are, and why some are refused.
use rv_asm::{AsmCause, AsmFault, assemble};
use sn_base::Memory;
use std::alloc::Global;

fn is_text_of(alloc: Global, text: &[u8], words: &[u32]) -> Result<bool, Memory> {
    match assemble(alloc, text) {
        Ok(found) => Ok(found.as_slice() == words),
        Err(AsmFault::Refused(_)) => Ok(false),
        Err(AsmFault::Memory) => Err(Memory),
    }
}

fn is_refused(alloc: Global, text: &[u8], cause: AsmCause) -> Result<bool, Memory> {
    match assemble(alloc, text) {
        Ok(_) => Ok(false),
        Err(AsmFault::Refused(found)) => Ok(found == cause),
        Err(AsmFault::Memory) => Err(Memory),
    }
}

#[test]
fn a_counting_loop_jumps_back_to_its_label(rt: HostRuntime) -> Result<(), Memory> {
    let text = b"loop:\naddi t0, t0, 1\njal zero, loop\n";
    let is_so = is_text_of(rt.alloc(), text, &[0x0012_8293, 0xffdf_f06f])?;
    assert!(rt; is_so);
    Ok(())
}

#[test]
fn a_program_that_puts_a_letter_out(rt: HostRuntime) -> Result<(), Memory> {
    let text = b"# 80000000\naddi x10, x0, 65\naddi x17, x0, 1\necall\naddi x17, x0, 93\necall";
    let words = [
        0x0410_0513,
        0x0010_0893,
        0x0000_0073,
        0x05d0_0893,
        0x0000_0073,
    ];
    let is_so = is_text_of(rt.alloc(), text, &words)?;
    assert!(rt; is_so);
    Ok(())
}

#[test]
fn blanks_and_cases_of_numbers(rt: HostRuntime) -> Result<(), Memory> {
    let text = b"\t lw\ta0 ,\t-0x1 ( sp )";
    let is_so = is_refused(rt.alloc(), text, AsmCause::BadLine(1))?;
    assert!(rt; is_so);
    let text =
        b"\t lw\ta0 ,\t-000000000004 ( sp )\t# \xff\r\n\r\nsw fp,0x7Ff(s0)\n.word 0xFFFFFFFF\n";
    let is_so = is_text_of(rt.alloc(), text, &[0xffc1_2503, 0x7e84_2fa3, 0xffff_ffff])?;
    assert!(rt; is_so);
    Ok(())
}

#[test]
fn each_refusal_has_its_cause_and_its_line(rt: HostRuntime) -> Result<(), Memory> {
    let rows: [(&[u8], AsmCause); 15] = [
        (b"addi x5, x5, 2048", AsmCause::OutOfRange(1)),
        (b"jal x0, end", AsmCause::NoLabel(1)),
        (
            b"loop:\naddi t0, t0, 1\njal zero, loop\nloop:",
            AsmCause::LabelTwice(4),
        ),
        (b"beq x0, x0, 3", AsmCause::OutOfRange(1)),
        (b"beq x0, x0, 4096", AsmCause::OutOfRange(1)),
        (b"jal x0, -1048578", AsmCause::OutOfRange(1)),
        (b"slli x1, x1, 32", AsmCause::OutOfRange(1)),
        (b"lui x1, 1048576", AsmCause::OutOfRange(1)),
        (b".word 4294967296", AsmCause::OutOfRange(1)),
        (b".word 0000000000001", AsmCause::BadLine(1)),
        (b"addi,x1, x1, 1", AsmCause::BadLine(1)),
        (b"fence # \xc3\xa4\nfence \xc3\xa4", AsmCause::BadLine(2)),
        (b"nop\r", AsmCause::BadLine(1)),
        (b"fence\r", AsmCause::BadLine(1)),
        (b"jal x0, end\naddi x1, x1", AsmCause::BadLine(2)),
    ];
    for (text, cause) in rows {
        let is_so = is_refused(rt.alloc(), text, cause)?;
        assert!(rt; is_so, "{cause:?}");
    }
    Ok(())
}
