//! The cache's part of schedules of the whole machine: one node of two, and mostly block 64, whose home is node 0.
use super::super::Cache;
use super::access::probe;
use super::{Act, Does, Had, Row, Says, all_come, old_of, small_cache};
use crate::step::AccessProbe;
use log_buffer::LogBuffer;
use sn_base::{Answer, BlockNo, Entries, Interval, Memory};
use sn_model::{LineState, Need};
use std::alloc::Global;
use std::process::Abort;
use std::test::Fail;

/// What is seen: the first word of block 64, where it has a line; the block's old content at a checkpoint; how many entries the log
/// has; that an eviction drops a copy, or finds none; what an access in interval 5 comes to; the least line of the block's set that
/// may go, where a put may not begin and where it may; and the least interval of what is open, and the block of the open miss.
#[derive(Clone, Copy)]
enum Sees {
    Word(Option<u32>),
    Old(Interval, Option<Had>),
    Entries(usize),
    Evictable,
    NotCached,
    Access(Need, AccessProbe),
    Least(Option<u16>, Option<u16>),
    Open(Option<Interval>, Option<u16>),
}

/// What is done, one after another; and what is seen then of each of these blocks.
#[derive(Clone, Copy)]
struct Part {
    rows: &'static [Row],
    sees: &'static [(u16, Sees)],
}

/// A node, the room of its log, and a schedule in parts.
#[derive(Clone, Copy)]
struct Schedule {
    name: &'static str,
    here: u8,
    room: u16,
    parts: &'static [Part],
}

// What begins most schedules: it asks to write, and gets the block with 0 or 1 in its first word; or it asks to read, and gets it
// alone.
const ASKS: Row = (0, 64, Act::Miss(Need::Write), Does::Sends(0, Says::GetM));

const OWNS_0: Row = (
    0,
    64,
    Act::Take(0, Says::DataM(0, 0)),
    Does::Sends(0, Says::Unblock(0)),
);

const OWNS_1: Row = (
    0,
    64,
    Act::Take(0, Says::DataM(1, 0)),
    Does::Sends(0, Says::Unblock(0)),
);

const READS: Row = (0, 64, Act::Miss(Need::Read), Does::Sends(0, Says::GetS));

const ALONE: Row = (
    0,
    64,
    Act::Take(0, Says::DataE(0)),
    Does::Sends(0, Says::Unblock(0)),
);

/// Node 1 writes it.
const LETS_WRITE_1: Row = (
    0,
    64,
    Act::Take(0, Says::FwdGetM(1, 0)),
    Does::GivesUp(1, Says::DataM(1, 0)),
);

/// Two nodes add 1 to a word, one after the other: the first one's part.
const FIRST_WRITER: Schedule = Schedule {
    name: "a written block moves to the next writer",
    here: 0,
    room: 4,
    parts: &[Part {
        rows: &[
            ASKS,
            OWNS_0,
            (0, 64, Act::Store(1), Does::Silent),
            LETS_WRITE_1,
        ],
        sees: &[
            (64, Sees::Entries(1)),
            (64, Sees::Old(0, Some(Had::Nothing))),
        ],
    }],
};

/// The same, the second one's part, after which it stores in its next interval.
const SECOND_WRITER: Schedule = Schedule {
    name: "a write in the next interval is noted again",
    here: 1,
    room: 4,
    parts: &[
        Part {
            rows: &[ASKS, OWNS_1],
            sees: &[(64, Sees::Word(Some(1)))],
        },
        Part {
            rows: &[
                (1, 64, Act::Store(2), Does::Silent),
                (1, 64, Act::Store(3), Does::Silent),
            ],
            sees: &[
                (64, Sees::Word(Some(3))),
                (64, Sees::Entries(2)),
                (64, Sees::Old(0, Some(Had::Nothing))),
                (64, Sees::Old(1, Some(Had::Owned(1)))),
            ],
        },
    ],
};

/// The home was two intervals ahead when it sent the data, which waited for the requester.
const LATER_TAG: Schedule = Schedule {
    name: "the interval of atomicity is the tag",
    here: 1,
    room: 4,
    parts: &[Part {
        rows: &[
            ASKS,
            (1, 64, Act::Take(2, Says::DataM(0, 0)), Does::Nothing),
            (
                2,
                64,
                Act::Take(2, Says::DataM(0, 0)),
                Does::Sends(0, Says::Unblock(2)),
            ),
        ],
        sees: &[
            (64, Sees::Old(2, Some(Had::Nothing))),
            (64, Sees::Old(3, None)),
        ],
    }],
};

/// The requester began its next interval before the data came.
const EARLIER_TAG: Schedule = Schedule {
    name: "an arrival is noted in the interval of its tag",
    here: 1,
    room: 4,
    parts: &[Part {
        rows: &[
            ASKS,
            (
                1,
                64,
                Act::Take(0, Says::DataM(0, 0)),
                Does::Sends(0, Says::Unblock(0)),
            ),
        ],
        sees: &[
            (64, Sees::Old(0, Some(Had::Nothing))),
            (64, Sees::Old(1, None)),
        ],
    }],
};

/// The core holds a reservation on a block that it had alone, until another node writes it.
const RESERVATION: Schedule = Schedule {
    name: "a forwarded write ends a reservation",
    here: 0,
    room: 4,
    parts: &[Part {
        rows: &[
            READS,
            ALONE,
            (
                0,
                64,
                Act::Take(0, Says::FwdGetM(1, 0)),
                Does::GivesUp(1, Says::DataM(0, 0)),
            ),
        ],
        sees: &[(64, Sees::Word(None))],
    }],
};

/// Another node's write reached the home before the request to give the block up.
const OVERTAKEN_PUT: Schedule = Schedule {
    name: "a put is overtaken",
    here: 0,
    room: 4,
    parts: &[Part {
        rows: &[
            ASKS,
            OWNS_0,
            (0, 64, Act::Store(1), Does::Silent),
            (0, 64, Act::Put, Does::Sends(0, Says::PutReq)),
            LETS_WRITE_1,
            (0, 64, Act::Take(0, Says::PutDone), Does::Silent),
        ],
        sees: &[(64, Sees::NotCached)],
    }],
};

/// Its copy is replaced by the content that comes with the ownership.
const READER_AND_WRITER: Schedule = Schedule {
    name: "a reader becomes a writer",
    here: 0,
    room: 4,
    parts: &[
        Part {
            rows: &[
                READS,
                (
                    0,
                    64,
                    Act::Take(0, Says::DataS(1)),
                    Does::Sends(0, Says::Unblock(0)),
                ),
            ],
            sees: &[(64, Sees::Word(Some(1)))],
        },
        Part {
            rows: &[ASKS, OWNS_1, (0, 64, Act::Store(5), Does::Silent)],
            sees: &[(64, Sees::Word(Some(5)))],
        },
    ],
};

/// A reader that found nobody else writes without a message, and then another node reads.
const ONLY_READER: Schedule = Schedule {
    name: "the only reader writes without a message",
    here: 0,
    room: 4,
    parts: &[
        Part {
            rows: &[
                READS,
                ALONE,
                (0, 64, Act::Store(6), Does::Silent),
                (
                    0,
                    64,
                    Act::Take(0, Says::FwdGetS(1)),
                    Does::Sends(1, Says::DataS(6)),
                ),
            ],
            sees: &[(64, Sees::Word(Some(6)))],
        },
        Part {
            rows: &[(0, 64, Act::Store(7), Does::Nothing)],
            sees: &[],
        },
    ],
};

/// A log that is full of this interval's entries takes a further write of the same block.
const FULL_LOG: Schedule = Schedule {
    name: "a full log has the entry already",
    here: 0,
    room: 1,
    parts: &[
        Part {
            rows: &[ASKS, OWNS_0],
            sees: &[(64, Sees::Entries(1))],
        },
        Part {
            rows: &[
                (0, 64, Act::Store(1), Does::Silent),
                (1, 64, Act::Store(2), Does::Nothing),
                LETS_WRITE_1,
            ],
            sees: &[],
        },
    ],
};

/// Both frames of the set are taken: by block 66, to be written, and block 65, to be read. Its home is node 1.
const FULL_SET: Part = Part {
    rows: &[
        (2, 66, Act::Miss(Need::Write), Does::Sends(0, Says::GetM)),
        (
            2,
            66,
            Act::Take(1, Says::DataM(7, 0)),
            Does::Sends(0, Says::Unblock(1)),
        ),
        (2, 65, Act::Miss(Need::Read), Does::Sends(1, Says::GetS)),
        (
            2,
            65,
            Act::Take(1, Says::DataS(8)),
            Does::Sends(1, Says::Unblock(1)),
        ),
    ],
    sees: &[
        (64, Sees::Access(Need::Read, AccessProbe::NeedsEvict)),
        (64, Sees::Access(Need::Write, AccessProbe::NeedsEvict)),
        (65, Sees::Access(Need::Read, AccessProbe::Ready)),
        (65, Sees::Access(Need::Write, AccessProbe::Miss)),
        (64, Sees::Least(Some(65), Some(65))),
        (64, Sees::Open(None, None)),
    ],
};

const LEAST_LINE: Schedule = Schedule {
    name: "a full set takes no further block, and its least line goes",
    here: 1,
    room: 4,
    parts: &[
        FULL_SET,
        Part {
            rows: &[(7, 65, Act::Miss(Need::Write), Does::Sends(1, Says::GetM))],
            sees: &[
                (64, Sees::Least(None, Some(66))),
                (64, Sees::Open(Some(7), Some(65))),
            ],
        },
        Part {
            rows: &[(6, 66, Act::Put, Does::Sends(0, Says::PutReq))],
            sees: &[
                (64, Sees::Least(None, None)),
                (64, Sees::Open(Some(6), Some(65))),
            ],
        },
    ],
};

const DROPPED_COPY: Schedule = Schedule {
    name: "a dropped copy is gone",
    here: 1,
    room: 4,
    parts: &[
        Part {
            rows: super::SHARED,
            sees: &[(64, Sees::Evictable)],
        },
        Part {
            rows: &[(2, 64, Act::Drop, Does::Silent)],
            sees: &[(64, Sees::NotCached)],
        },
    ],
};

const SCHEDULES: &[Schedule] = &[
    FIRST_WRITER,
    SECOND_WRITER,
    LATER_TAG,
    EARLIER_TAG,
    RESERVATION,
    OVERTAKEN_PUT,
    READER_AND_WRITER,
    ONLY_READER,
    FULL_LOG,
    LEAST_LINE,
    DROPPED_COPY,
];

/// The word at the start of block 64, where it has a line.
fn load(cache: &Cache) -> Option<u32> {
    let address = 0x8000_1000;
    let block = BlockNo::of(address)?;
    if cache.lines.state(block) == LineState::Absent {
        return None;
    }
    Some(cache.load(address))
}

fn number_of(block: Option<BlockNo>) -> Option<u16> {
    Some(block?.number())
}

fn had(log: &LogBuffer, block: BlockNo, k: Interval, wanted: Option<Had>) -> bool {
    match (log.old_at(false, block, k), wanted) {
        (Some(old), Some(had)) => *old == old_of(had),
        (None, None) => true,
        _ => false,
    }
}

fn is_seen(cache: &Cache, log: &LogBuffer, number: u16, sees: &Sees) -> bool {
    let block = BlockNo::new(number);
    match *sees {
        Sees::Word(word) => load(cache) == word,
        Sees::Old(k, wanted) => had(log, block, k, wanted),
        Sees::Entries(count) => log.count() == count,
        Sees::Evictable => cache.evict_answer(block) == Answer::Evicted,
        Sees::NotCached => cache.evict_answer(block) == Answer::NotCached,
        Sees::Access(need, wanted) => probe(cache, log, number, need) == Some(wanted),
        Sees::Least(shared, any) => {
            number_of(cache.least_line(block, false)) == shared
                && number_of(cache.least_line(block, true)) == any
        }
        Sees::Open(least, missed) => {
            cache.least_open() == least && number_of(cache.open_block()) == missed
        }
    }
}

fn all_seen(cache: &Cache, log: &LogBuffer, all: &[(u16, Sees)]) -> bool {
    'sees: for sees in all.iter() {
        if !is_seen(cache, log, sees.0, &sees.1) {
            return false;
        }
    }
    true
}

fn is_played(rt: &impl Abort, cache: &mut Cache, log: &mut LogBuffer, part: &Part) -> bool {
    all_come(rt, cache, log, part.rows) && all_seen(cache, log, part.sees)
}

/// The first part in which something is otherwise.
fn first_wrong(
    rt: &impl Abort,
    cache: &mut Cache,
    log: &mut LogBuffer,
    parts: &[Part],
) -> Option<usize> {
    'parts: for (place, part) in parts.iter().enumerate() {
        if !is_played(rt, cache, log, part) {
            return Some(place);
        }
    }
    None
}

fn plays(rt: &impl Abort, alloc: Global, schedule: &Schedule) -> Result<Option<usize>, Memory> {
    let mut cache = small_cache(rt, alloc, schedule.here)?;
    let mut log = LogBuffer::new(alloc, schedule.room)?;
    Ok(first_wrong(rt, &mut cache, &mut log, schedule.parts))
}

#[test]
fn each_schedule_comes_to_what_it_says(rt: HostRuntime) -> Result<(), Fail> {
    'schedules: for schedule in SCHEDULES.iter() {
        let wrong = plays(&rt, rt.alloc(), schedule)?;
        assert!(rt; wrong.is_none(), "{}: part {wrong:?}", schedule.name);
    }
    Ok(())
}
