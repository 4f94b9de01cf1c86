//! Each call once, on values from the manuals.
use super::is_so;
use sn_base::*;
use std::alloc::{AllocError, Global};

#[test]
fn numbers_of_nodes_switches_and_blocks(rt: HostRuntime) {
    let node = NodeId::new(3).unwrap();
    is_so(&rt, (node.number(), NodeId::new(16)) == (3, None));
    is_so(&rt, NodeId::numbered(3) == node);
    is_so(
        &rt,
        (SwitchId::a(node).number(), SwitchId::b(node).number()) == (6, 7),
    );
    is_so(&rt, BlockNo::of(0x8000_1000) == Some(BlockNo::new(64)));
    is_so(&rt, BlockNo::of(0x8040_0000) == None);
    is_so(&rt, BlockNo::new(67).home(4) == node);
}

#[test]
fn a_set_has_what_joined_it(rt: HostRuntime) {
    let first = NodeId::new(0).unwrap();
    let last = NodeId::new(15).unwrap();
    let both = NodeSet::empty().with(first).with(last);
    is_so(
        &rt,
        (both.count(), both.without(first).has(first), both.has(last)) == (2, false, true),
    );
}

#[test]
fn a_block_keeps_numbers_lowest_byte_first(rt: HostRuntime) {
    let mut block = Block::zero();
    block.store(4, Width::Word, 0x0410_0513);
    block.store(6, Width::Byte, 0xff);
    is_so(&rt, block.load(4, Width::Word) == 0x04ff_0513);
    is_so(&rt, block.load(6, Width::Half) == 0x04ff);
    is_so(&rt, block.load(4, Width::Byte) == 0x13);
}

#[test]
fn events_fit_the_machine_that_has_their_nodes(rt: HostRuntime) {
    let last = NodeId::new(3).unwrap();
    is_so(&rt, Event::Step(last).fits(4) && !Event::Step(last).fits(3));
    is_so(
        &rt,
        Event::Kill(SwitchId::b(last)).fits(4) && !Event::Kill(SwitchId::a(last)).fits(3),
    );
    is_so(&rt, Event::Hop(9).fits(1));
}

#[test]
fn a_machine_has_at_most_16_nodes(rt: HostRuntime) {
    let usual = Config {
        nodes: 4,
        sets: 16,
        ways: 4,
        log: 256,
    };
    is_so(&rt, usual.fits());
    is_so(&rt, !Config { nodes: 17, ..usual }.fits());
    is_so(&rt, !Config { log: 3, ..usual }.fits());
}

/// Eight bytes of code from the start of memory: one instruction, and no more given.
fn eight_bytes_of_code(alloc: Global) -> Result<Image, AllocError> {
    let mut bytes = Vec::new(alloc);
    bytes.extend_from_slice(&0x0410_0513u32.to_le_bytes())?;
    bytes.truncate(4);
    let mut segments = Vec::new(alloc);
    segments.push(Segment {
        start: 0x8000_0000,
        size: 8,
        bytes,
        write: false,
        exec: true,
    })?;
    Ok(Image::new(segments, 0x8000_0000))
}

#[test]
fn a_program_gives_its_bytes_and_zeros_after_them(rt: HostRuntime) -> Result<(), AllocError> {
    let image = eight_bytes_of_code(rt.alloc())?;
    is_so(
        &rt,
        (image.entry(), image.segments().len()) == (0x8000_0000, 1),
    );
    is_so(
        &rt,
        (image.byte(0x8000_0003), image.byte(0x8000_0007)) == (4, 0),
    );
    is_so(&rt, image.fetch(0x8000_0000) == Some(0x0410_0513));
    is_so(
        &rt,
        (image.fetch(0x8000_0004), image.fetch(0x8000_0008)) == (Some(0), None),
    );
    is_so(
        &rt,
        (image.fetch(0x8000_0002), image.fetch(0xffff_fffe)) == (Some(0x0410), None),
    );
    is_so(
        &rt,
        !image.writable(0x8000_0006, Width::Half) && image.writable(0x8000_0008, Width::Word),
    );
    is_so(
        &rt,
        image.block(BlockNo::new(0)).load(0, Width::Word) == 0x0410_0513,
    );
    is_so(&rt, image.block(BlockNo::new(1)) == Block::zero());
    Ok(())
}

#[test]
fn a_copy_is_the_same_program(rt: HostRuntime) -> Result<(), Memory> {
    let image = eight_bytes_of_code(rt.alloc())?;
    let copy = copy_of(rt.alloc(), &image)?;
    is_so(
        &rt,
        (copy.entry(), copy.segments().len()) == (0x8000_0000, 1),
    );
    is_so(&rt, copy.fetch(0x8000_0000) == Some(0x0410_0513));
    is_so(
        &rt,
        copy.block(BlockNo::new(0)) == image.block(BlockNo::new(0)),
    );
    Ok(())
}
