//! Exchanges about blocks of node 0's home: the home's part of runs of the whole machine, with each message's answer; and the
//! home put back to a checkpoint.
use super::playing::{Act, Exchange, Noted, Part, Sees, plays};
use super::{Does, Says};
use std::test::Fail;

// Node 0 writes block 64, which the home has; the home hears that it is done. Then the same of node 1.
const TAKES_0: Act = Act::Takes((
    0,
    64,
    0,
    0,
    Says::GetM,
    Does::Sends(1, 0, Says::DataM(0, 0), &[]),
));

const UNBLOCKS_0: Act = Act::Takes((0, 64, 0, 0, Says::Unblock(0), Does::Silent));

const TAKES_1: Act = Act::Takes((
    1,
    64,
    0,
    0,
    Says::GetM,
    Does::Sends(1, 1, Says::DataM(0, 0), &[]),
));

const UNBLOCKS_1: Act = Act::Takes((1, 64, 0, 0, Says::Unblock(0), Does::Silent));

// Node 0 reads it, and has it alone.
const READS_ALONE_0: Act = Act::Takes((
    0,
    64,
    0,
    0,
    Says::GetS,
    Does::Sends(1, 0, Says::DataE(0), &[]),
));

// Node 1 reads or writes it at node 0, or the other way round.
const READS_1: Act = Act::Takes((
    1,
    64,
    0,
    0,
    Says::GetS,
    Does::Sends(1, 0, Says::FwdGetS(1), &[]),
));

const MOVES_1: Act = Act::Takes((
    1,
    64,
    0,
    0,
    Says::GetM,
    Does::Sends(1, 0, Says::FwdGetM(1, 0), &[]),
));

const READS_0: Act = Act::Takes((
    0,
    64,
    0,
    0,
    Says::GetS,
    Does::Sends(1, 1, Says::FwdGetS(0), &[]),
));

const MOVES_0: Act = Act::Takes((
    0,
    64,
    0,
    0,
    Says::GetM,
    Does::Sends(1, 1, Says::FwdGetM(0, 0), &[]),
));

const START: Exchange = Exchange {
    name: "a home starts as the owner of its blocks, with the program's bytes",
    nodes: 2,
    parts: &[Part {
        acts: &[],
        owner: None,
        least_open: None,
        sees: &[
            Sees::Word(0, Some(0x0410_0513)),
            Sees::Word(65_534, Some(0)),
            Sees::Word(64, Some(0)),
            Sees::Word(1, None),
        ],
    }],
};

const TWO_WRITERS: Exchange = Exchange {
    name: "two writers take turns",
    nodes: 2,
    parts: &[Part {
        acts: &[TAKES_0, UNBLOCKS_0, MOVES_1, UNBLOCKS_1],
        owner: Some(1),
        least_open: None,
        sees: &[Sees::Entries(1), Sees::WasHome(0, 64)],
    }],
};

const WRITER_AFTER_READER: Exchange = Exchange {
    name: "a writer moves what a reader had alone",
    nodes: 2,
    parts: &[Part {
        acts: &[READS_ALONE_0, UNBLOCKS_0, MOVES_1, UNBLOCKS_1],
        owner: Some(1),
        least_open: None,
        sees: &[],
    }],
};

const SECOND_READER: Exchange = Exchange {
    name: "the owner sends to a second reader",
    nodes: 2,
    parts: &[Part {
        acts: &[READS_ALONE_0, UNBLOCKS_0, READS_1],
        owner: Some(0),
        least_open: Some(0),
        sees: &[],
    }],
};

const READER_AND_WRITER: Exchange = Exchange {
    name: "a reader becomes the writer",
    nodes: 2,
    parts: &[Part {
        acts: &[
            TAKES_1, UNBLOCKS_1, READS_0, UNBLOCKS_0, MOVES_0, UNBLOCKS_0,
        ],
        owner: Some(0),
        least_open: None,
        sees: &[],
    }],
};

const LATE_PUT: Exchange = Exchange {
    name: "a put waits, and comes too late",
    nodes: 2,
    parts: &[Part {
        acts: &[
            TAKES_0,
            UNBLOCKS_0,
            MOVES_1,
            Act::Takes((0, 64, 0, 0, Says::PutReq, Does::IsBusy)),
            UNBLOCKS_1,
            Act::Takes((
                0,
                64,
                0,
                0,
                Says::PutReq,
                Does::Sends(1, 0, Says::PutDone, &[]),
            )),
        ],
        owner: Some(1),
        least_open: None,
        sees: &[],
    }],
};

/// The unblock's tag is 1, so it isn't due in interval 0.
const OPEN_UNTIL_UNBLOCKED: Exchange = Exchange {
    name: "a transaction is open until its unblock",
    nodes: 2,
    parts: &[
        Part {
            acts: &[TAKES_1],
            owner: Some(1),
            least_open: Some(0),
            sees: &[],
        },
        Part {
            acts: &[
                Act::Takes((1, 64, 1, 0, Says::Unblock(0), Does::Nothing)),
                Act::Takes((1, 64, 1, 1, Says::Unblock(0), Does::Silent)),
            ],
            owner: Some(1),
            least_open: None,
            sees: &[],
        },
    ],
};

const TWO_BLOCKS: Exchange = Exchange {
    name: "the least open is of all blocks",
    nodes: 2,
    parts: &[
        Part {
            acts: &[Act::Takes((
                1,
                64,
                0,
                2,
                Says::GetM,
                Does::Sends(1, 1, Says::DataM(0, 0), &[]),
            ))],
            owner: Some(1),
            least_open: Some(2),
            sees: &[],
        },
        Part {
            acts: &[Act::Takes((
                1,
                128,
                0,
                0,
                Says::GetM,
                Does::Sends(1, 1, Says::DataM(0, 0), &[]),
            ))],
            owner: Some(1),
            least_open: Some(0),
            sees: &[],
        },
        Part {
            acts: &[Act::Takes((1, 128, 0, 0, Says::Unblock(0), Does::Silent))],
            owner: Some(1),
            least_open: Some(2),
            sees: &[],
        },
    ],
};

/// The log has that blocks 64 and 65 went from the home to this node's cache. Block 64 is noted in interval 0 so, and block 66
/// isn't.
const FULL_LOG: Exchange = Exchange {
    name: "a full log takes no new note until it is freed",
    nodes: 1,
    parts: &[
        Part {
            acts: &[
                Act::Notes(64, Noted::WasHome),
                Act::Notes(64, Noted::NotOwned),
                Act::Notes(65, Noted::WasHome),
                Act::Notes(65, Noted::NotOwned),
            ],
            owner: None,
            least_open: None,
            sees: &[Sees::Room(0)],
        },
        Part {
            acts: &[
                TAKES_0,
                Act::Takes((0, 66, 1, 1, Says::GetM, Does::LogFull)),
            ],
            owner: Some(0),
            least_open: Some(0),
            sees: &[],
        },
        Part {
            acts: &[
                Act::Frees(1),
                Act::Takes((
                    0,
                    66,
                    1,
                    1,
                    Says::GetM,
                    Does::Sends(1, 0, Says::DataM(0, 0), &[]),
                )),
            ],
            owner: Some(0),
            least_open: Some(0),
            sees: &[Sees::Noted(1, 66)],
        },
    ],
};

/// That the node's cache owned the block is nothing to the home.
const UNDONE: Exchange = Exchange {
    name: "an open transaction is undone",
    nodes: 1,
    parts: &[
        Part {
            acts: &[TAKES_0],
            owner: Some(0),
            least_open: Some(0),
            sees: &[],
        },
        Part {
            acts: &[Act::Notes(64, Noted::Owned), Act::Restores(0, 2)],
            owner: None,
            least_open: None,
            sees: &[Sees::Word(64, Some(0))],
        },
    ],
};

/// Node 0 has the block, and node 2 reads it.
const TAKEN_AND_READ: Part = Part {
    acts: &[
        TAKES_0,
        UNBLOCKS_0,
        Act::Takes((
            2,
            64,
            0,
            0,
            Says::GetS,
            Does::Sends(1, 0, Says::FwdGetS(2), &[]),
        )),
    ],
    owner: Some(0),
    least_open: Some(0),
    sees: &[Sees::Sharers(1, Some(2))],
};

const OLDER: Exchange = Exchange {
    name: "a look shows sharers and what is open; a recovery keeps what is older, but for these",
    nodes: 1,
    parts: &[
        Part {
            acts: &[],
            owner: None,
            least_open: None,
            sees: &[Sees::Sharers(0, None)],
        },
        TAKEN_AND_READ,
        Part {
            acts: &[Act::Restores(1, 0), MOVES_1],
            owner: Some(0),
            least_open: Some(0),
            sees: &[],
        },
    ],
};

const EXCHANGES: &[Exchange] = &[
    START,
    TWO_WRITERS,
    WRITER_AFTER_READER,
    SECOND_READER,
    READER_AND_WRITER,
    LATE_PUT,
    OPEN_UNTIL_UNBLOCKED,
    TWO_BLOCKS,
    FULL_LOG,
    UNDONE,
    OLDER,
];

#[test]
fn each_exchange_comes_to_what_it_says(rt: HostRuntime) -> Result<(), Fail> {
    'exchanges: for exchange in EXCHANGES.iter() {
        let is_so = plays(&rt, rt.alloc(), exchange)?;
        assert!(rt; is_so, "{}", exchange.name);
    }
    Ok(())
}
