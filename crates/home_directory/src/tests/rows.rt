//! The rows and the refusals, with what the protocol's table leaves of an entry: node 1 sends with tag 4, in interval 5.
ghost use Rattle.std.specs.Prelude.{◌≡◌, []};

use super::{Answer, Does, Says, answer_of, body_of, content, has_row, node, owner_of, set_of};
use crate::entry::{DirectoryEntry, Transaction};
use crate::receive;
use crate::step::HomeStep;
use log_buffer::LogBuffer;
use sn_base::{BlockNo, Entries, Interval, Memory, NodeId, Old};
use sn_model::{Kind, Look, Receiver, receiver_of};
use sn_msg::{Body, Message};
use std::alloc::Global;
use std::process::Abort;
use std::test::Fail;

/// What an entry says beside the memory: the owner (none is the home), who shares the block, and the open transaction, with
/// who asked for it and the interval in which it was begun.
type Standing = (Option<u8>, &'static [u8], Option<(Kind, u8, Interval)>);

/// What is noted: that the home owned the block with this content, or that this node's cache did.
#[derive(Clone, Copy)]
enum Noted {
    WasHome(u32),
    WasCache(u8),
}

/// A row or a refusal. Memory has 7 before it; `content` is what it has after it, where the home owns the block then.
#[derive(Clone, Copy)]
struct Case {
    before: Standing,
    says: Says,
    does: Does,
    after: Standing,
    content: u32,
    noted: Option<(Interval, Noted)>,
}

const READS_COPY: Case = Case {
    before: (None, &[2], None),
    says: Says::GetS,
    does: Does::Sends(1, 1, Says::DataS(7), &[]),
    after: (None, &[1, 2], Some((Kind::Read, 1, 5))),
    content: 7,
    noted: None,
};

const READS_AT_OWNER: Case = Case {
    before: (Some(3), &[2], None),
    says: Says::GetS,
    does: Does::Sends(1, 3, Says::FwdGetS(1), &[]),
    after: (Some(3), &[1, 2], Some((Kind::Read, 1, 5))),
    content: 7,
    noted: None,
};

/// Nobody else shares.
const READS_ALONE: Case = Case {
    before: (None, &[], None),
    says: Says::GetS,
    does: Does::Sends(1, 1, Says::DataE(7), &[]),
    after: (Some(1), &[], Some((Kind::Take, 1, 5))),
    content: 7,
    noted: Some((5, Noted::WasHome(7))),
};

/// Nor here: the node itself had a copy.
const READS_AGAIN: Case = Case {
    before: (None, &[1], None),
    ..READS_ALONE
};

const TAKES: Case = Case {
    before: (None, &[1, 2], None),
    says: Says::GetM,
    does: Does::Sends(2, 1, Says::DataM(7, 1), &[2]),
    after: (Some(1), &[], Some((Kind::Take, 1, 5))),
    content: 7,
    noted: Some((5, Noted::WasHome(7))),
};

const MOVES: Case = Case {
    before: (Some(3), &[1, 2], None),
    says: Says::GetM,
    does: Does::Sends(2, 3, Says::FwdGetM(1, 1), &[2]),
    after: (Some(3), &[], Some((Kind::Move, 1, 5))),
    content: 7,
    noted: None,
};

const UPGRADES: Case = Case {
    before: (Some(1), &[2, 3], None),
    says: Says::GetM,
    does: Does::Sends(3, 1, Says::UpgOk(2), &[2, 3]),
    after: (Some(1), &[], Some((Kind::Upgrade, 1, 5))),
    content: 7,
    noted: None,
};

const ENDS_MOVE: Case = Case {
    before: (Some(3), &[], Some((Kind::Move, 1, 2))),
    says: Says::Unblock(3),
    does: Does::Silent,
    after: (Some(1), &[], None),
    content: 7,
    noted: Some((3, Noted::WasCache(3))),
};

// A transaction that has changed the owner before, or doesn't.

const ENDS_READ_AT_HOME: Case = Case {
    before: (None, &[2], Some((Kind::Read, 1, 2))),
    says: Says::Unblock(3),
    does: Does::Silent,
    after: (None, &[2], None),
    content: 7,
    noted: None,
};

const ENDS_READ_AT_OWNER: Case = Case {
    before: (Some(3), &[2], Some((Kind::Read, 1, 2))),
    after: (Some(3), &[2], None),
    ..ENDS_READ_AT_HOME
};

const ENDS_TAKE: Case = Case {
    before: (Some(1), &[2], Some((Kind::Take, 1, 2))),
    after: (Some(1), &[2], None),
    ..ENDS_READ_AT_HOME
};

const ENDS_UPGRADE: Case = Case {
    before: (Some(1), &[2], Some((Kind::Upgrade, 1, 2))),
    after: (Some(1), &[2], None),
    ..ENDS_READ_AT_HOME
};

const BEGINS_PUT: Case = Case {
    before: (Some(1), &[2], None),
    says: Says::PutReq,
    does: Does::Sends(1, 1, Says::PutGo, &[]),
    after: (Some(1), &[2], Some((Kind::Put, 1, 5))),
    content: 7,
    noted: None,
};

// A node that owns the block no more has nothing to give back.

const STALE_PUT_AT_OWNER: Case = Case {
    before: (Some(3), &[2], None),
    says: Says::PutReq,
    does: Does::Sends(1, 1, Says::PutDone, &[]),
    after: (Some(3), &[2], None),
    content: 7,
    noted: None,
};

const STALE_PUT_AT_HOME: Case = Case {
    before: (None, &[2], None),
    after: (None, &[2], None),
    ..STALE_PUT_AT_OWNER
};

const GIVES_BACK: Case = Case {
    before: (Some(1), &[2], Some((Kind::Put, 1, 5))),
    says: Says::PutData(9),
    does: Does::Silent,
    after: (None, &[2], None),
    content: 9,
    noted: Some((4, Noted::WasCache(1))),
};

// While node 2 takes the block, requests wait.

const READ_WAITS: Case = Case {
    before: (Some(2), &[], Some((Kind::Take, 2, 3))),
    says: Says::GetS,
    does: Does::IsBusy,
    after: (Some(2), &[], Some((Kind::Take, 2, 3))),
    content: 7,
    noted: None,
};

const WRITE_WAITS: Case = Case {
    says: Says::GetM,
    ..READ_WAITS
};

const PUT_WAITS: Case = Case {
    says: Says::PutReq,
    ..READ_WAITS
};

// The log has no room, and nothing changes.

const NO_ROOM_TO_TAKE: Case = Case {
    before: (None, &[2], None),
    says: Says::GetM,
    does: Does::LogFull,
    after: (None, &[2], None),
    content: 7,
    noted: None,
};

const NO_ROOM_TO_READ_ALONE: Case = Case {
    before: (None, &[], None),
    says: Says::GetS,
    does: Does::LogFull,
    after: (None, &[], None),
    content: 7,
    noted: None,
};

const NO_ROOM_TO_END_MOVE: Case = Case {
    before: (Some(2), &[], Some((Kind::Move, 1, 3))),
    says: Says::Unblock(4),
    does: Does::LogFull,
    after: (Some(2), &[], Some((Kind::Move, 1, 3))),
    content: 7,
    noted: None,
};

const NO_ROOM_TO_GIVE_BACK: Case = Case {
    before: (Some(1), &[], Some((Kind::Put, 1, 3))),
    says: Says::PutData(9),
    does: Does::LogFull,
    after: (Some(1), &[], Some((Kind::Put, 1, 3))),
    content: 7,
    noted: None,
};

fn open_of(rt: &impl Abort, open: Option<(Kind, u8, Interval)>) -> Option<Transaction> {
    let (kind, number, begun) = open?;
    Some(Transaction {
        kind,
        requester: node(rt, number),
        begun,
    })
}

/// What a look says and what is done in interval 5, with an empty log. None where the message has no row.
fn deliver(entry: &mut DirectoryEntry, message: &Message, log: &mut LogBuffer) -> Option<Answer>
    requires { log.old.entries ≡ [] }
{
    let Receiver::Home(asked) = receiver_of(&message.body) else {
        return None;
    };
    if !has_row(entry, message) {
        return None;
    }
    let (row, look) = receive::look_at(entry, message, &asked, 5, log);
    let step = match look {
        Look::HomeBusy => HomeStep::HomeBusy,
        Look::LogFull => HomeStep::LogFull,
        Look::Sends(_) => receive::do_row(entry, message, &row, 5, log),
    };
    Some((look, step))
}

/// Whether a log holds just what is to be noted of block 64 on the home's side.
fn holds_just(rt: &impl Abort, log: &LogBuffer, noted: Option<(Interval, Noted)>) -> bool {
    let block = BlockNo::new(64);
    let Some((interval, noted)) = noted else {
        return log.count() == 0;
    };
    let old = match noted {
        Noted::WasHome(word) => Old::WasHome(content(word)),
        Noted::WasCache(number) => Old::WasCache(node(rt, number)),
    };
    log.count() == 1
        && log.has(interval, true, block)
        && log.old_at(true, block, interval).copied() == Some(old)
}

fn is_left(rt: &impl Abort, entry: &DirectoryEntry, case: &Case) -> bool {
    let after = &case.after;
    entry.owner == owner_of(rt, after.0)
        && entry.sharers == set_of(rt, after.1)
        && entry.transaction == open_of(rt, after.2)
        && (after.0.is_some() || entry.memory == content(case.content))
}

fn sent_by(from: NodeId, body: Body) -> Message {
    Message {
        id: 1,
        from,
        to: from,
        tag: 4,
        block: BlockNo::new(64),
        body,
    }
}

/// Does the message of a case with a log of this room, and says whether all is as the case has it.
fn is_met(rt: &impl Abort, alloc: Global, room: u16, case: &Case) -> Result<bool, Memory> {
    let mut log = LogBuffer::new(alloc, room)?;
    let mut entry = DirectoryEntry {
        owner: owner_of(rt, case.before.0),
        memory: content(7),
        sharers: set_of(rt, case.before.1),
        transaction: open_of(rt, case.before.2),
    };
    let one = node(rt, 1);
    let answer = deliver(&mut entry, &sent_by(one, body_of(rt, &case.says)), &mut log);
    let is_answered = answer.is_some() && answer == answer_of(rt, &case.does, one);
    Ok(is_answered && is_left(rt, &entry, case) && holds_just(rt, &log, case.noted))
}

/// What the cases of a group show, the room of the log, and the cases.
type Group = (&'static str, u16, &'static [Case]);

const GROUPS: &[Group] = &[
    (
        "each row of a read",
        4,
        &[READS_COPY, READS_AT_OWNER, READS_ALONE, READS_AGAIN],
    ),
    ("each row of a write", 4, &[TAKES, MOVES, UPGRADES]),
    (
        "an unblock closes, and names the new owner of a move",
        4,
        &[
            ENDS_MOVE,
            ENDS_READ_AT_HOME,
            ENDS_READ_AT_OWNER,
            ENDS_TAKE,
            ENDS_UPGRADE,
        ],
    ),
    (
        "each row of a put",
        4,
        &[
            BEGINS_PUT,
            STALE_PUT_AT_OWNER,
            STALE_PUT_AT_HOME,
            GIVES_BACK,
        ],
    ),
    (
        "a request waits, and nothing changes",
        4,
        &[READ_WAITS, WRITE_WAITS, PUT_WAITS],
    ),
    (
        "a row that notes needs room in the log",
        0,
        &[
            NO_ROOM_TO_TAKE,
            NO_ROOM_TO_READ_ALONE,
            NO_ROOM_TO_END_MOVE,
            NO_ROOM_TO_GIVE_BACK,
        ],
    ),
    (
        "a row that notes nothing needs no room",
        0,
        &[
            MOVES,
            UPGRADES,
            ENDS_READ_AT_HOME,
            BEGINS_PUT,
            STALE_PUT_AT_HOME,
            WRITE_WAITS,
        ],
    ),
];

/// The first case of a group that comes to something else.
fn first_wrong(rt: &impl Abort, alloc: Global, group: &Group) -> Result<Option<usize>, Memory> {
    'cases: for (place, case) in group.2.iter().enumerate() {
        if !is_met(rt, alloc, group.1, case)? {
            return Ok(Some(place));
        }
    }
    Ok(None)
}

#[test]
fn each_message_does_its_row(rt: HostRuntime) -> Result<(), Fail> {
    'groups: for group in GROUPS.iter() {
        let wrong = first_wrong(&rt, rt.alloc(), group)?;
        assert!(rt; wrong.is_none(), "{}: case {wrong:?}", group.0);
    }
    Ok(())
}
