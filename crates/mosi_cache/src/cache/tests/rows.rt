//! The cache's table, and the refusals where the log has no room: each message comes to block 64 in interval 5 with tag 4.
use super::super::Cache;
use super::{
    ABSENT, ASKS_TO_PUT, Act, Does, EXCLUSIVE, GETS_ALONE, GETS_TO_WRITE, Had, LETS_READ, MODIFIED,
    OWNED, PUTTING, READING, READS, Row, SHARED, SHARED_WRITING, Says, WRITES, WRITING, all_come,
    cache_after, content, old_of,
};
use atomicity_point::Txn;
use log_buffer::LogBuffer;
use sn_base::{BlockNo, Entries, Interval, LogEntry, Memory};
use sn_model::LineState;
use std::alloc::Global;
use std::process::Abort;
use std::test::Fail;

/// An open miss or put: its interval of atomicity, and the acknowledgements that are due and in. It was issued in interval 2.
type Open = Option<(Option<Interval>, u8, u8)>;

/// A put that is open.
const OPEN: Open = Some((None, 0, 0));

/// A state of the block, a message, and the room of the log; what is noted, and in which interval; what is sent; and what has
/// changed then: the line, the miss and the put.
#[derive(Clone, Copy)]
struct Case {
    name: &'static str,
    state: &'static [Row],
    says: Says,
    room: u16,
    noted: Option<(Interval, Had)>,
    does: Does,
    line: Option<(LineState, u32)>,
    miss: Open,
    put: Open,
}

const FORWARDED_READ: Case = Case {
    name: "a forwarded read leaves an owner of a modified line",
    state: MODIFIED,
    says: Says::FwdGetS(0),
    room: 4,
    noted: None,
    does: Does::Sends(0, Says::DataS(7)),
    line: Some((LineState::Owned, 7)),
    miss: None,
    put: None,
};

const FORWARDED_WRITE: Case = Case {
    name: "a forwarded write takes the copy",
    state: OWNED,
    says: Says::FwdGetM(0, 2),
    room: 4,
    noted: Some((5, Had::Owned(7))),
    does: Does::GivesUp(0, Says::DataM(7, 2)),
    line: None,
    miss: None,
    put: None,
};

const INVALIDATION: Case = Case {
    name: "an invalidation takes the copy that is there",
    state: SHARED,
    says: Says::Inv(0),
    room: 0,
    noted: None,
    does: Does::GivesUp(0, Says::InvAck),
    line: None,
    miss: None,
    put: None,
};

const DATA_TO_READ: Case = Case {
    name: "shared data completes a read",
    state: READING,
    says: Says::DataS(7),
    room: 0,
    noted: None,
    does: Does::Sends(0, Says::Unblock(4)),
    line: Some((LineState::Shared, 7)),
    miss: None,
    put: None,
};

const DATA_TO_OWN: Case = Case {
    name: "data to own is noted under its tag",
    state: WRITING,
    says: Says::DataM(7, 0),
    room: 4,
    noted: Some((4, Had::Nothing)),
    does: Does::Sends(0, Says::Unblock(4)),
    line: Some((LineState::Modified, 7)),
    miss: None,
    put: None,
};

/// One acknowledgement is in before the data.
const DATA_AFTER_ONE: Case = Case {
    state: &[WRITES, (2, 64, Act::Take(1, Says::InvAck), Does::Silent)],
    ..DATA_TO_OWN
};

const UPGRADE: Case = Case {
    name: "an upgrade makes the owner a writer",
    state: &[READS, GETS_ALONE, LETS_READ, WRITES],
    says: Says::UpgOk(0),
    room: 0,
    noted: None,
    does: Does::Sends(0, Says::Unblock(4)),
    line: Some((LineState::Modified, 7)),
    miss: None,
    put: None,
};

/// Data with one acknowledgement due.
const GETS_WITH_ONE_DUE: Row = (2, 64, Act::Take(1, Says::DataM(7, 1)), Does::Silent);

const LAST_ACKNOWLEDGEMENT: Case = Case {
    name: "the last acknowledgement completes",
    state: &[WRITES, GETS_WITH_ONE_DUE],
    says: Says::InvAck,
    room: 0,
    noted: None,
    does: Does::Sends(0, Says::Unblock(1)),
    line: Some((LineState::Modified, 7)),
    miss: None,
    put: None,
};

const GIVEN_UP: Case = Case {
    name: "a block is given up",
    state: PUTTING,
    says: Says::PutGo,
    room: 4,
    noted: Some((5, Had::Owned(7))),
    does: Does::GivesUp(0, Says::PutData(7)),
    line: None,
    miss: None,
    put: None,
};

const DATA_OF_NOBODY_ELSE: Case = Case {
    name: "data that nobody else has is owned",
    state: READING,
    says: Says::DataE(7),
    room: 4,
    noted: Some((4, Had::Nothing)),
    does: Does::Sends(0, Says::Unblock(4)),
    line: Some((LineState::Exclusive, 7)),
    miss: None,
    put: None,
};

const TABLE: &[Case] = &[
    FORWARDED_READ,
    Case {
        name: "a forwarded read leaves an owner of an exclusive line",
        state: EXCLUSIVE,
        ..FORWARDED_READ
    },
    Case {
        name: "a forwarded read leaves an owner as it is",
        state: OWNED,
        ..FORWARDED_READ
    },
    FORWARDED_WRITE,
    Case {
        name: "a forwarded write needs room",
        room: 0,
        noted: None,
        does: Does::LogFull,
        line: Some((LineState::Owned, 7)),
        ..FORWARDED_WRITE
    },
    INVALIDATION,
    Case {
        name: "an invalidation may find nothing",
        state: ABSENT,
        does: Does::Sends(0, Says::InvAck),
        ..INVALIDATION
    },
    Case {
        name: "an invalidation leaves the miss",
        state: SHARED_WRITING,
        miss: OPEN,
        ..INVALIDATION
    },
    DATA_TO_READ,
    DATA_TO_OWN,
    Case {
        name: "data to own needs room",
        room: 0,
        noted: None,
        does: Does::LogFull,
        line: None,
        miss: OPEN,
        ..DATA_TO_OWN
    },
    Case {
        name: "data to own replaces a copy",
        state: &[
            READS,
            (
                2,
                64,
                Act::Take(1, Says::DataS(3)),
                Does::Sends(0, Says::Unblock(1)),
            ),
            WRITES,
        ],
        ..DATA_TO_OWN
    },
    Case {
        name: "data to own waits for acknowledgements",
        says: Says::DataM(7, 2),
        does: Does::Silent,
        miss: Some((Some(4), 2, 1)),
        ..DATA_AFTER_ONE
    },
    Case {
        name: "data to own finds its acknowledgements",
        says: Says::DataM(7, 1),
        ..DATA_AFTER_ONE
    },
    UPGRADE,
    Case {
        name: "an upgrade waits for acknowledgements",
        says: Says::UpgOk(1),
        does: Does::Silent,
        line: Some((LineState::Owned, 7)),
        miss: Some((Some(4), 1, 0)),
        ..UPGRADE
    },
    LAST_ACKNOWLEDGEMENT,
    Case {
        name: "an acknowledgement before the last counts",
        state: &[
            WRITES,
            (2, 64, Act::Take(1, Says::DataM(7, 2)), Does::Silent),
        ],
        does: Does::Silent,
        miss: Some((Some(1), 2, 1)),
        ..LAST_ACKNOWLEDGEMENT
    },
    Case {
        name: "an acknowledgement before the data counts",
        state: WRITING,
        does: Does::Silent,
        line: None,
        miss: Some((None, 0, 1)),
        ..LAST_ACKNOWLEDGEMENT
    },
    Case {
        name: "a miss that completes makes no line, where it went by an invalidation",
        state: &[
            WRITES,
            GETS_WITH_ONE_DUE,
            (
                2,
                64,
                Act::Take(1, Says::Inv(0)),
                Does::GivesUp(0, Says::InvAck),
            ),
        ],
        line: None,
        ..LAST_ACKNOWLEDGEMENT
    },
    GIVEN_UP,
    Case {
        name: "a block that is given up needs room",
        room: 0,
        noted: None,
        does: Does::LogFull,
        line: Some((LineState::Modified, 7)),
        put: OPEN,
        ..GIVEN_UP
    },
    Case {
        name: "a put that came too late is closed",
        state: &[
            WRITES,
            GETS_TO_WRITE,
            ASKS_TO_PUT,
            (
                2,
                64,
                Act::Take(1, Says::FwdGetM(0, 0)),
                Does::GivesUp(0, Says::DataM(7, 0)),
            ),
        ],
        says: Says::PutDone,
        room: 0,
        noted: None,
        does: Does::Silent,
        line: None,
        miss: None,
        put: None,
    },
    DATA_OF_NOBODY_ELSE,
    Case {
        name: "data that nobody else has needs room",
        room: 0,
        noted: None,
        does: Does::LogFull,
        line: None,
        miss: OPEN,
        ..DATA_OF_NOBODY_ELSE
    },
];

fn transaction(open: Open) -> Option<Txn> {
    let (fixed, acks_due, acks_in) = open?;
    Some(Txn {
        block: BlockNo::new(64),
        issued: 2,
        fixed,
        acks_due,
        acks_in,
    })
}

fn has_line(cache: &Cache, line: Option<(LineState, u32)>) -> bool {
    match (cache.lines.find(BlockNo::new(64)), line) {
        (Some(found), Some((state, word))) => {
            found.state == state && found.content == content(word)
        }
        (None, None) => true,
        _ => false,
    }
}

/// Whether the newest entry of a log is this one, or there is none.
fn has_newest(log: &LogBuffer, noted: Option<(Interval, Had)>) -> bool {
    match (log.count().checked_sub(1), noted) {
        (Some(place), Some((interval, had))) => {
            let wanted = LogEntry {
                interval,
                block: BlockNo::new(64),
                old: old_of(had),
            };
            *log.entry(place) == wanted
        }
        (None, None) => true,
        _ => false,
    }
}

fn has_changed(cache: &Cache, case: &Case) -> bool {
    has_line(cache, case.line)
        && cache.transactions.miss().copied() == transaction(case.miss)
        && cache.transactions.put().copied() == transaction(case.put)
}

fn is_done(rt: &impl Abort, cache: &mut Cache, log: &mut LogBuffer, case: &Case) -> bool {
    let row = (5, 64, Act::Take(4, case.says), case.does);
    all_come(rt, cache, log, &[row]) && has_newest(log, case.noted) && has_changed(cache, case)
}

fn is_met(rt: &impl Abort, alloc: Global, case: &Case) -> Result<bool, Memory> {
    let mut log = LogBuffer::new(alloc, case.room)?;
    match cache_after(rt, alloc, case.state)? {
        Some(mut cache) => Ok(is_done(rt, &mut cache, &mut log, case)),
        None => Ok(false),
    }
}

#[test]
fn each_message_does_its_row(rt: HostRuntime) -> Result<(), Fail> {
    'cases: for case in TABLE.iter() {
        let is_so = is_met(&rt, rt.alloc(), case)?;
        assert!(rt; is_so, "{}", case.name);
    }
    Ok(())
}
