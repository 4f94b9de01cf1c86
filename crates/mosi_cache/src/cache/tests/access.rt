//! What a core finds at its cache: block 64 in each of its states, in interval 5.
use super::super::Cache;
use super::{
    ABSENT, EXCLUSIVE, GONE, Held, MODIFIED, OWNED, PUTTING, READING, Row, SHARED, SHARED_WRITING,
    cache_after, holds,
};
use crate::step::AccessProbe;
use log_buffer::LogBuffer;
use sn_base::{Answer, BlockNo, Interval, Memory};
use sn_model::{LineState, Need};
use std::alloc::Global;
use std::process::Abort;
use std::test::Fail;

/// What an eviction comes to.
#[derive(Clone, Copy)]
enum Evict {
    MissOpen,
    NotCached,
    Evicted,
    PutOpen,
    PutBegun,
}

/// A state of the block: what looks show of it, which are its line and, where it is owned, its content, and the intervals in
/// which the open miss and put were issued; what a read and a write come to with so much room in the log, which nobody asks while
/// a miss is open; what an eviction comes to; and what is left of the block once a recovery has begun.
#[derive(Clone, Copy)]
struct State {
    name: &'static str,
    rows: &'static [Row],
    held: Held,
    miss: Option<Interval>,
    put: Option<Interval>,
    room: u16,
    read: Option<AccessProbe>,
    write: Option<AccessProbe>,
    evict: Evict,
    left: Held,
}

const WITH_MODIFIED: State = State {
    name: "modified",
    rows: MODIFIED,
    held: (LineState::Modified, Some(7)),
    miss: None,
    put: None,
    room: 4,
    read: Some(AccessProbe::Ready),
    write: Some(AccessProbe::Ready),
    evict: Evict::PutBegun,
    left: (LineState::Modified, Some(7)),
};

const WITH_EXCLUSIVE: State = State {
    name: "exclusive",
    rows: EXCLUSIVE,
    held: (LineState::Exclusive, Some(7)),
    ..WITH_MODIFIED
};

const STATES: &[State] = &[
    State {
        name: "absent",
        rows: ABSENT,
        held: GONE,
        miss: None,
        put: None,
        room: 4,
        read: Some(AccessProbe::Miss),
        write: Some(AccessProbe::Miss),
        evict: Evict::NotCached,
        left: GONE,
    },
    State {
        name: "shared",
        rows: SHARED,
        held: (LineState::Shared, None),
        miss: None,
        put: None,
        room: 4,
        read: Some(AccessProbe::Ready),
        write: Some(AccessProbe::Miss),
        evict: Evict::Evicted,
        left: GONE,
    },
    State {
        name: "owned",
        rows: OWNED,
        held: (LineState::Owned, Some(7)),
        write: Some(AccessProbe::Miss),
        ..WITH_MODIFIED
    },
    WITH_MODIFIED,
    WITH_EXCLUSIVE,
    State {
        name: "modified, and no room for the old content",
        room: 0,
        write: Some(AccessProbe::LogFull),
        ..WITH_MODIFIED
    },
    State {
        name: "exclusive, and no room for the old content",
        room: 0,
        write: Some(AccessProbe::LogFull),
        ..WITH_EXCLUSIVE
    },
    State {
        name: "in a put",
        rows: PUTTING,
        put: Some(2),
        read: Some(AccessProbe::Waits),
        write: Some(AccessProbe::Waits),
        evict: Evict::PutOpen,
        ..WITH_MODIFIED
    },
    State {
        name: "asked for, to be read",
        rows: READING,
        held: GONE,
        miss: Some(2),
        put: None,
        room: 4,
        read: None,
        write: None,
        evict: Evict::MissOpen,
        left: GONE,
    },
    State {
        name: "a copy that is asked for, to be written",
        rows: SHARED_WRITING,
        held: (LineState::Shared, None),
        miss: Some(2),
        put: None,
        room: 4,
        read: None,
        write: None,
        evict: Evict::MissOpen,
        left: GONE,
    },
];

fn shows(cache: &Cache, state: &State) -> bool {
    let is_absent = state.held.0 == LineState::Absent;
    let is_line = match cache.line(BlockNo::new(64)) {
        Some(line) => !is_absent && line.state == state.held.0,
        None => is_absent,
    };
    let miss = match cache.miss() {
        Some(miss) => Some(miss.issued),
        None => None,
    };
    let put = match cache.put() {
        Some(put) => Some(put.issued),
        None => None,
    };
    is_line && miss == state.miss && put == state.put
}

/// None while a miss is open.
pub(super) fn probe(cache: &Cache, log: &LogBuffer, block: u16, need: Need) -> Option<AccessProbe> {
    if cache.open_block().is_some() {
        return None;
    }
    Some(cache.probe(BlockNo::new(block), need, 5, log))
}

fn answer_of(evict: Evict) -> Answer {
    match evict {
        Evict::MissOpen => Answer::MissOpen,
        Evict::NotCached => Answer::NotCached,
        Evict::Evicted => Answer::Evicted,
        Evict::PutOpen => Answer::PutOpen,
        Evict::PutBegun => Answer::PutBegun,
    }
}

fn finds(cache: &Cache, log: &LogBuffer, state: &State) -> bool {
    probe(cache, log, 64, Need::Read) == state.read
        && probe(cache, log, 64, Need::Write) == state.write
        && cache.evict_answer(BlockNo::new(64)) == answer_of(state.evict)
        && holds(cache, 64, &state.held)
}

/// Whether this is left of the block once a recovery has begun, and nothing is open.
fn leaves(cache: &mut Cache, left: &Held) -> bool {
    cache.begin_restore();
    holds(cache, 64, left) && cache.least_open().is_none()
}

fn is_answered(cache: &mut Cache, log: &LogBuffer, state: &State) -> bool {
    shows(cache, state) && finds(cache, log, state) && leaves(cache, &state.left)
}

fn is_so(rt: &impl Abort, alloc: Global, state: &State) -> Result<bool, Memory> {
    let log = LogBuffer::new(alloc, state.room)?;
    match cache_after(rt, alloc, state.rows)? {
        Some(mut cache) => Ok(is_answered(&mut cache, &log, state)),
        None => Ok(false),
    }
}

#[test]
fn each_state_has_its_answers(rt: HostRuntime) -> Result<(), Fail> {
    'states: for state in STATES.iter() {
        let is_so = is_so(&rt, rt.alloc(), state)?;
        assert!(rt; is_so, "{}", state.name);
    }
    Ok(())
}
