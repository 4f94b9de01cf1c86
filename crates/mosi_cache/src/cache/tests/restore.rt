//! A recovery of a cache with one set of two ways: a log unwound into it.
ghost use Rattle.std.specs.Prelude.{◌≡◌, ◌≢◌, ℕ, ◌<◌, true, false};
ghost use Rattle.log_buffer.specs.Log.{IsGrowing};
ghost use Rattle.rollback.specs.Unwound.{content_unwound};
ghost use Rattle.sn_model.specs.Caches.{block_count};
ghost use Rattle.mosi_cache.specs.Restored.{held_of};

use super::super::Cache;
use super::{
    Act, Does, GETS_ALONE, GONE, Had, Held, READS, Row, Says, all_come, cache_after, holds,
};
use log_buffer::LogBuffer;
use rollback::unwind;
use sn_base::{BlockNo, Interval, Memory, Old};
use sn_model::{LineState, Need};
use std::alloc::Global;
use std::process::Abort;
use std::test::Fail;

/// Whether the block isn't owned at checkpoint k, by the log or, where that says nothing, by the cache.
fn is_unowned(cache: &Cache, log: &LogBuffer, k: Interval, block: BlockNo) -> bool
    ensures growing { IsGrowing log.now.entries }
    ensures unowned { result ≡ true → content_unwound log.now.entries false k (held_of cache.now) block ≡ Old.NotOwned }
{
    match log.old_at(false, block, k) {
        Some(old) => matches!(old, Old::NotOwned),
        None => cache.owned(block).is_none(),
    }
}

/// Whether only these two blocks, if they, are owned at checkpoint k.
fn owns_two(cache: &Cache, log: &LogBuffer, k: Interval, first: u16, second: u16) -> bool
    ensures growing { IsGrowing log.now.entries }
    ensures others { result ≡ true → (b : ℕ) → b < block_count → b ≢ first → b ≢ second → content_unwound log.now.entries false k (held_of cache.now) b ≡ Old.NotOwned }
{
    'numbers: for number in 0..u16::MAX {
        let is_other = number != first && number != second;
        if is_other && !is_unowned(cache, log, k, BlockNo::new(number)) {
            return false;
        }
    }
    is_unowned(cache, log, k, BlockNo::new(u16::MAX))
}

/// How many entries a recovery to checkpoint 1 undoes, which leaves no more than these two blocks owned. None where it would
/// leave another, or a set has no two ways.
fn recover(cache: &mut Cache, log: &LogBuffer, first: u16, second: u16) -> Option<u32> {
    cache.begin_restore();
    if cache.lines.ways() < 2 || !owns_two(cache, log, 1, first, second) {
        return None;
    }
    Some(unwind(log, 1, cache))
}

/// What the cache has, and the notes of its log; how many of these a recovery to checkpoint 1 undoes, and what it leaves of blocks.
#[derive(Clone, Copy)]
struct Recovery {
    name: &'static str,
    rows: &'static [Row],
    notes: &'static [Row],
    undone: u32,
    left: [(u16, Held); 4],
}

const READS_66: Row = (2, 66, Act::Miss(Need::Read), Does::Sends(0, Says::GetS));

const RECOVERIES: &[Recovery] = &[
    Recovery {
        name: "what was lost is back, and what was got is gone",
        rows: &[
            READS,
            GETS_ALONE,
            READS_66,
            (
                2,
                66,
                Act::Take(1, Says::DataS(3)),
                Does::Sends(0, Says::Unblock(1)),
            ),
        ],
        notes: &[
            (1, 64, Act::Note(Had::Nothing), Does::Silent),
            (1, 68, Act::Note(Had::Owned(9)), Does::Silent),
            (2, 64, Act::Note(Had::Owned(7)), Does::Silent),
        ],
        undone: 3,
        left: [
            (64, GONE),
            (66, GONE),
            (68, (LineState::Modified, Some(9))),
            (70, GONE),
        ],
    },
    // To put the first two back before the others are let go would take four frames, where there are two.
    Recovery {
        name: "a full set makes room",
        rows: &[
            READS,
            GETS_ALONE,
            READS_66,
            (
                2,
                66,
                Act::Take(1, Says::DataE(3)),
                Does::Sends(0, Says::Unblock(1)),
            ),
        ],
        notes: &[
            (1, 68, Act::Note(Had::Owned(9)), Does::Silent),
            (1, 70, Act::Note(Had::Owned(5)), Does::Silent),
            (1, 64, Act::Note(Had::Nothing), Does::Silent),
            (1, 66, Act::Note(Had::Nothing), Does::Silent),
        ],
        undone: 4,
        left: [
            (64, GONE),
            (66, GONE),
            (68, (LineState::Modified, Some(9))),
            (70, (LineState::Modified, Some(5))),
        ],
    },
];

/// Whether this is left of each block, and nothing is open.
fn are_left(cache: &Cache, all: &[(u16, Held)]) -> bool {
    'blocks: for one in all.iter() {
        if !holds(cache, one.0, &one.1) {
            return false;
        }
    }
    cache.least_open().is_none()
}

/// Whether all is so, where the recovery leaves only blocks 68 and 70, if they, owned.
fn is_undone(rt: &impl Abort, cache: &mut Cache, log: &mut LogBuffer, recovery: &Recovery) -> bool {
    all_come(rt, cache, log, recovery.notes)
        && recover(cache, log, 68, 70) == Some(recovery.undone)
        && are_left(cache, &recovery.left)
}

fn recovers(rt: &impl Abort, alloc: Global, recovery: &Recovery) -> Result<bool, Memory> {
    let mut log = LogBuffer::new(alloc, 4)?;
    match cache_after(rt, alloc, recovery.rows)? {
        Some(mut cache) => Ok(is_undone(rt, &mut cache, &mut log, recovery)),
        None => Ok(false),
    }
}

#[test]
fn a_recovery_gives_back_what_was_owned(rt: HostRuntime) -> Result<(), Fail> {
    'recoveries: for recovery in RECOVERIES.iter() {
        let is_so = recovers(&rt, rt.alloc(), recovery)?;
        assert!(rt; is_so, "{}", recovery.name);
    }
    Ok(())
}
