//! Each row of the protocol's table and each refusal once, at one block; and whole exchanges about the blocks of a home.
//!
//! The rows are plain data: a node is its number, and a content its first word, with 0 after it.
mod exchanges;
mod playing;
mod rows;

ghost use Rattle.std.specs.Prelude.{◌≡◌, true};
ghost use Rattle.sn_model.specs.HomeRows.{HasRow};

use crate::entry::DirectoryEntry;
use crate::{HomeStep, Look, Out, Owner};
use sn_base::{Block, Interval, NodeId, NodeSet, Width};
use sn_model::Kind;
use sn_msg::{Body, Message};
use std::process::Abort;

/// What a message asks or says.
#[derive(Clone, Copy)]
enum Says {
    GetS,
    GetM,
    FwdGetS(u8),
    FwdGetM(u8, u8),
    DataS(u32),
    DataM(u32, u8),
    DataE(u32),
    UpgOk(u8),
    Unblock(Interval),
    PutReq,
    PutGo,
    PutData(u32),
    PutDone,
}

/// What a home does with a message: nothing, since it isn't due or has no row; it lets it wait; it refuses it for want of room
/// in the log; it sends nothing; or it sends so many messages, this one to this node, and an `Inv` that names the sender to each
/// of these nodes.
#[derive(Clone, Copy)]
enum Does {
    Nothing,
    IsBusy,
    LogFull,
    Silent,
    Sends(u8, u8, Says, &'static [u8]),
}

/// What a look says of a message, and what is done.
type Answer = (Look, HomeStep);

fn node(rt: &impl Abort, number: u8) -> NodeId
    ensures { result ≡ number }
{
    NodeId::new(number).expect(rt, "a node has a number below 16")
}

fn owner_of(rt: &impl Abort, owner: Option<u8>) -> Owner {
    match owner {
        None => Owner::Home,
        Some(number) => Owner::Cache(node(rt, number)),
    }
}

fn set_of(rt: &impl Abort, numbers: &[u8]) -> NodeSet {
    let mut set = NodeSet::empty();
    'numbers: for number in numbers.iter() {
        set = set.with(node(rt, *number));
    }
    set
}

fn content(word: u32) -> Block {
    let mut content = Block::zero();
    content.store(0, Width::Word, word);
    content
}

fn body_of(rt: &impl Abort, says: &Says) -> Body {
    match says {
        Says::GetS => Body::GetS,
        Says::GetM => Body::GetM,
        Says::FwdGetS(requester) => Body::FwdGetS(node(rt, *requester)),
        Says::FwdGetM(requester, due) => Body::FwdGetM(node(rt, *requester), *due),
        Says::DataS(word) => Body::DataS(content(*word)),
        Says::DataM(word, due) => Body::DataM(content(*word), *due),
        Says::DataE(word) => Body::DataE(content(*word)),
        Says::UpgOk(due) => Body::UpgOk(*due),
        Says::Unblock(fixed) => Body::Unblock(*fixed),
        Says::PutReq => Body::PutReq,
        Says::PutGo => Body::PutGo,
        Says::PutData(word) => Body::PutData(content(*word)),
        Says::PutDone => Body::PutDone,
    }
}

fn answer_of(rt: &impl Abort, does: &Does, from: NodeId) -> Option<Answer> {
    match does {
        Does::Nothing => None,
        Does::IsBusy => Some((Look::HomeBusy, HomeStep::HomeBusy)),
        Does::LogFull => Some((Look::LogFull, HomeStep::LogFull)),
        Does::Silent => Some((Look::Sends(0), HomeStep::Took(None, NodeSet::empty(), from))),
        Does::Sends(count, to, says, invalidated) => {
            let out = Out {
                to: node(rt, *to),
                body: body_of(rt, says),
            };
            let set = set_of(rt, invalidated);
            Some((Look::Sends(*count), HomeStep::Took(Some(out), set, from)))
        }
    }
}

/// Whether the message has a row, by the table's conditions.
fn has_row(entry: &DirectoryEntry, message: &Message) -> bool
    ensures { result ≡ true → HasRow entry.now message.now.from message.now.body }
{
    match message.body {
        Body::GetS => entry.transaction.is_some() || !entry.is_owner(message.from),
        Body::GetM | Body::PutReq => true,
        Body::Unblock(_) => match entry.transaction {
            Some(open) => open.kind != Kind::Put && open.requester == message.from,
            None => false,
        },
        Body::PutData(_) => match entry.transaction {
            Some(open) => open.kind == Kind::Put && open.requester == message.from,
            None => false,
        },
        _ => false,
    }
}
