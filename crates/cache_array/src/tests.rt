//! Where blocks stand: each in the least free way of its set, and nowhere else.
use super::Frames;
use sn_base::{BlockNo, Memory};

/// The frame that the block takes. None where it has one, or its set is full.
fn place(frames: &mut Frames, block: u16) -> Option<usize> {
    let block = BlockNo::new(block);
    if frames.find(block).is_some() || frames.set_full(block) {
        return None;
    }
    Some(frames.reserve(block))
}

/// Whether the block had a frame, which is free now.
fn remove(frames: &mut Frames, block: u16) -> bool {
    let block = BlockNo::new(block);
    let had_frame = frames.find(block).is_some();
    if had_frame {
        frames.drop_frame(block);
    }
    had_frame
}

/// The block in a frame. None where there is none, or no such frame.
fn block_in(frames: &Frames, frame: usize) -> Option<u16> {
    if frame >= usize::from(frames.sets) * usize::from(frames.ways) {
        return None;
    }
    match frames.block_in(frame) {
        Some(block) => Some(block.number()),
        None => None,
    }
}

#[test]
fn a_block_takes_the_least_free_way_of_its_set(rt: HostRuntime) -> Result<(), Memory> {
    let mut frames = Frames::new(rt.alloc(), 4, 2)?;
    assert_eq!(rt; place(&mut frames, 5), Some(2));
    assert_eq!(rt; place(&mut frames, 9), Some(3));
    assert_eq!(rt; place(&mut frames, 13), None);
    assert_eq!(rt; place(&mut frames, 65535), Some(6));
    assert!(rt; remove(&mut frames, 5));
    assert_eq!(rt; place(&mut frames, 13), Some(2));
    assert_eq!(rt; frames.find(BlockNo::new(5)), None);
    assert_eq!(rt; frames.find(BlockNo::new(9)), Some(3));
    Ok(())
}

#[test]
fn a_frame_tells_its_block(rt: HostRuntime) -> Result<(), Memory> {
    let mut frames = Frames::new(rt.alloc(), 256, 16)?;
    assert_eq!(rt; block_in(&frames, 4095), None);
    assert_eq!(rt; place(&mut frames, 511), Some(4080));
    assert_eq!(rt; block_in(&frames, 4080), Some(511));
    assert!(rt; remove(&mut frames, 511));
    assert!(rt; !remove(&mut frames, 511));
    assert_eq!(rt; block_in(&frames, 4080), None);
    Ok(())
}
