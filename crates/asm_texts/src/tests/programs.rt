//! What the two commands write of a short program.
use crate::{listing_of, words_text};
use rv_asm::assemble;
use sn_base::{Image, Memory, Segment};
use std::alloc::Global;
use std::test::Fail;

/// The program that puts `A` out and ends, in its first 20 bytes of memory.
fn program(alloc: Global) -> Result<Image, Memory> {
    let mut bytes = Vec::with_capacity(alloc, 20)?;
    bytes.extend_from_slice(&[0x13, 0x05, 0x10, 0x04, 0x93, 0x08, 0x10, 0x00])?;
    bytes.extend_from_slice(&[0x73, 0, 0, 0, 0x93, 0x08, 0xd0, 0x05, 0x73, 0, 0, 0])?;
    let mut segments = Vec::with_capacity(alloc, 1)?;
    segments.push(Segment {
        start: 0x8000_0000,
        size: 20,
        bytes,
        write: false,
        exec: true,
    })?;
    Ok(Image::new(segments, 0x8000_0000))
}

const LINES: &[u8] =
    b"# 80000000\naddi x10, x0, 65\naddi x17, x0, 1\necall\naddi x17, x0, 93\necall\n";

#[test]
fn a_program_has_its_lines(rt: HostRuntime) -> Result<(), Memory> {
    let image = program(rt.alloc())?;
    let text = listing_of(rt.alloc(), &image)?;
    assert_eq!(rt; text.as_slice(), LINES);
    Ok(())
}

#[test]
fn the_lines_are_the_program_again(rt: HostRuntime) -> Result<(), Fail> {
    let words = assemble(rt.alloc(), LINES)?;
    let text = words_text(rt.alloc(), words.as_slice())?;
    let digits = b"04100513\n00100893\n00000073\n05d00893\n00000073\n";
    assert_eq!(rt; text.as_slice(), digits.as_slice());
    Ok(())
}
