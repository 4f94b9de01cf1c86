//! Entries of a log, up to its room.
use super::is_so;
use log_buffer::*;
use sn_base::{Block, BlockNo, Entries, NodeId, Old};
use std::test::Fail;

#[test]
fn a_change_is_noted_once_per_interval(rt: HostRuntime) -> Result<(), Fail> {
    let mut log = LogBuffer::new(rt.alloc(), 4)?;
    let block = BlockNo::new(64);
    let content = Block::zero();
    log.note(0, block, Old::NotOwned);
    log.note(0, block, Old::Owned(content));
    log.note(2, block, Old::Owned(content));
    is_so(&rt, (log.count(), log.room()) == (2, 2));
    is_so(
        &rt,
        log.old_at(false, block, 0).copied() == Some(Old::NotOwned),
    );
    is_so(
        &rt,
        log.old_at(false, block, 1).copied() == Some(Old::Owned(content)),
    );
    is_so(&rt, log.old_at(false, block, 3).copied() == None);
    is_so(&rt, log.old_at(true, block, 0).copied() == None);
    is_so(&rt, log.has(2, false, block) && !log.has(1, false, block));
    log.free_below(1);
    is_so(&rt, log.count() == 1);
    is_so(
        &rt,
        log.old_at(false, block, 0).copied() == Some(Old::Owned(content)),
    );
    log.clear();
    is_so(&rt, (log.count(), log.room()) == (0, 4));
    Ok(())
}

#[test]
fn the_sides_of_a_block_are_apart(rt: HostRuntime) -> Result<(), Fail> {
    let mut log = LogBuffer::new(rt.alloc(), 4)?;
    let block = BlockNo::new(64);
    log.note(1, block, Old::NotOwned);
    log.note(0, block, Old::WasHome(Block::zero()));
    if let Some(node) = NodeId::new(3) {
        log.note(1, block, Old::WasCache(node));
        is_so(
            &rt,
            log.old_at(true, block, 1).copied() == Some(Old::WasCache(node)),
        );
    }
    is_so(
        &rt,
        log.old_at(true, block, 0).copied() == Some(Old::WasHome(Block::zero())),
    );
    is_so(
        &rt,
        log.old_at(false, block, 0).copied() == Some(Old::NotOwned),
    );
    is_so(&rt, log.count() == 3 && log.entry(0).interval == 1);
    Ok(())
}
