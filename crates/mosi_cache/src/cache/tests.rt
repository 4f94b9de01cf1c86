//! The cache's table, what a core finds at its cache, the cache's part of some schedules, and recoveries: each as rows that one
//! function plays.
//!
//! The rows are plain data: a node or a block is its number, and a content its first word, with 0 after it.
ghost use Rattle.std.specs.Prelude.{◌≡◌, ◌+◌, ◌≤◌, true, false, List};
ghost use Rattle.sn_base.specs.declared.log.LogEntry.{LogEntry};
ghost use Rattle.log_buffer.specs.Log.{logged_to};
ghost use Rattle.sn_model.specs.CacheRows.{AwaitsAnswer, NoneIn, MayCount, MeetsRow, noted_in};
ghost use Rattle.sn_model.specs.Caches.{is_owned, puts_on};
ghost use Rattle.sn_model.specs.Receivers.{IsNoteInOrder};
ghost use Rattle.mosi_cache.specs.Controller.{with_entries};

mod access;
mod restore;
mod rows;
mod schedules;

use super::{Cache, noted_by};
use crate::step::{AccessProbe, CacheStep};
use log_buffer::LogBuffer;
use sn_base::{Answer, Block, BlockNo, Config, Interval, Memory, NodeId, Old, Width, Write};
use sn_model::{LineState, Look, Need, Out, Receiver, receiver_of};
use sn_msg::{Body, Message};
use std::alloc::Global;
use std::process::Abort;

/// What a message asks or says.
#[derive(Clone, Copy)]
enum Says {
    GetS,
    GetM,
    FwdGetS(u8),
    FwdGetM(u8, u8),
    Inv(u8),
    DataS(u32),
    DataM(u32, u8),
    DataE(u32),
    UpgOk(u8),
    InvAck,
    Unblock(Interval),
    PutReq,
    PutGo,
    PutData(u32),
    PutDone,
}

/// What a log's entry says that the cache had: not the block, or this content of it.
#[derive(Clone, Copy)]
enum Had {
    Nothing,
    Owned(u32),
}

/// What is done with a block at a cache: a miss or a put begins, a message with this tag comes, its first word is written, a
/// copy is dropped, or what the cache had is noted.
#[derive(Clone, Copy)]
enum Act {
    Miss(Need),
    Put,
    Take(Interval, Says),
    Store(u32),
    Drop,
    Note(Had),
}

/// What an act comes to: nothing, since it can't be then; it is refused, since the log is full; it is done and sends nothing; it
/// sends this to this node; or it does so, and the cache's copy is lost.
#[derive(Clone, Copy)]
enum Does {
    Nothing,
    LogFull,
    Silent,
    Sends(u8, Says),
    GivesUp(u8, Says),
}

/// An act in an interval with a block, and what it has to come to.
type Row = (Interval, u16, Act, Does);

/// What a look says of an act, and what is done.
type Came = (Look, CacheStep);

const DONE: Came = (Look::Sends(0), CacheStep::Took(None, None));

// States of block 64 at node 1, whose home is node 0: how each came to be in interval 2, by messages with tag 1.

const READS: Row = (2, 64, Act::Miss(Need::Read), Does::Sends(0, Says::GetS));

const WRITES: Row = (2, 64, Act::Miss(Need::Write), Does::Sends(0, Says::GetM));

const GETS_COPY: Row = (
    2,
    64,
    Act::Take(1, Says::DataS(7)),
    Does::Sends(0, Says::Unblock(1)),
);

const GETS_ALONE: Row = (
    2,
    64,
    Act::Take(1, Says::DataE(7)),
    Does::Sends(0, Says::Unblock(1)),
);

const GETS_TO_WRITE: Row = (
    2,
    64,
    Act::Take(1, Says::DataM(7, 0)),
    Does::Sends(0, Says::Unblock(1)),
);

const LETS_READ: Row = (
    2,
    64,
    Act::Take(1, Says::FwdGetS(0)),
    Does::Sends(0, Says::DataS(7)),
);

const ASKS_TO_PUT: Row = (2, 64, Act::Put, Does::Sends(0, Says::PutReq));

const ABSENT: &[Row] = &[];

const READING: &[Row] = &[READS];

const WRITING: &[Row] = &[WRITES];

const SHARED: &[Row] = &[READS, GETS_COPY];

/// A copy that is asked for to be written.
const SHARED_WRITING: &[Row] = &[READS, GETS_COPY, WRITES];

const EXCLUSIVE: &[Row] = &[READS, GETS_ALONE];

const MODIFIED: &[Row] = &[WRITES, GETS_TO_WRITE];

/// A block that was written, and is to be given up.
const PUTTING: &[Row] = &[WRITES, GETS_TO_WRITE, ASKS_TO_PUT];

/// Node 0 has read it.
const OWNED: &[Row] = &[READS, GETS_ALONE, LETS_READ];

fn node(rt: &impl Abort, number: u8) -> NodeId {
    NodeId::new(number).expect(rt, "a node has a number below 16")
}

fn content(word: u32) -> Block {
    let mut content = Block::zero();
    content.store(0, Width::Word, word);
    content
}

fn old_of(had: Had) -> Old {
    match had {
        Had::Nothing => Old::NotOwned,
        Had::Owned(word) => Old::Owned(content(word)),
    }
}

fn body_of(rt: &impl Abort, says: &Says) -> Body {
    match says {
        Says::GetS => Body::GetS,
        Says::GetM => Body::GetM,
        Says::FwdGetS(requester) => Body::FwdGetS(node(rt, *requester)),
        Says::FwdGetM(requester, due) => Body::FwdGetM(node(rt, *requester), *due),
        Says::Inv(requester) => Body::Inv(node(rt, *requester)),
        Says::DataS(word) => Body::DataS(content(*word)),
        Says::DataM(word, due) => Body::DataM(content(*word), *due),
        Says::DataE(word) => Body::DataE(content(*word)),
        Says::UpgOk(due) => Body::UpgOk(*due),
        Says::InvAck => Body::InvAck,
        Says::Unblock(fixed) => Body::Unblock(*fixed),
        Says::PutReq => Body::PutReq,
        Says::PutGo => Body::PutGo,
        Says::PutData(word) => Body::PutData(content(*word)),
        Says::PutDone => Body::PutDone,
    }
}

fn sent(to: NodeId, body: Body, lost: Option<BlockNo>) -> Came {
    (
        Look::Sends(1),
        CacheStep::Took(Some(Out { to, body }), lost),
    )
}

fn came_of(rt: &impl Abort, does: &Does, block: BlockNo) -> Option<Came> {
    match does {
        Does::Nothing => None,
        Does::LogFull => Some((Look::LogFull, CacheStep::LogFull)),
        Does::Silent => Some(DONE),
        Does::Sends(to, says) => Some(sent(node(rt, *to), body_of(rt, says), None)),
        Does::GivesUp(to, says) => Some(sent(node(rt, *to), body_of(rt, says), Some(block))),
    }
}

fn is_owner(state: LineState) -> bool
    ensures { result ≡ is_owned state }
{
    match state {
        LineState::Absent | LineState::Shared => false,
        LineState::Owned | LineState::Modified | LineState::Exclusive => true,
    }
}

fn puts(cache: &Cache, block: BlockNo) -> bool
    ensures { result ≡ puts_on cache.now.cache.put block }
{
    match cache.transactions.put() {
        Some(put) => put.block == block,
        None => false,
    }
}

fn awaits(cache: &Cache, block: BlockNo, need: Need) -> bool
    ensures { result ≡ true → AwaitsAnswer cache.now.cache.miss block need }
{
    match cache.transactions.miss() {
        Some(miss) => miss.block == block && cache.need == need && miss.fixed.is_none(),
        None => false,
    }
}

fn has_none_in(cache: &Cache) -> bool
    ensures { result ≡ true → NoneIn cache.now.cache.miss }
{
    match cache.transactions.miss() {
        Some(miss) => miss.acks_in == 0,
        None => true,
    }
}

fn counts(cache: &Cache, block: BlockNo) -> bool
    ensures { result ≡ true → MayCount cache.now.cache.miss block }
{
    match cache.transactions.miss() {
        Some(miss) => miss.block == block && miss.acks_in < 15,
        None => false,
    }
}

/// Whether the message meets its row's condition, as the protocol's table has it.
fn meets(cache: &Cache, message: &Message) -> bool
    ensures { (entries : List LogEntry) → result ≡ true → MeetsRow (with_entries cache.now entries) message.now.block message.now.body }
{
    let block = message.block;
    let state = cache.lines.state(block);
    match message.body {
        Body::FwdGetS(_) | Body::FwdGetM(_, _) => is_owner(state),
        Body::Inv(_) => true,
        Body::DataS(_) | Body::DataE(_) => {
            awaits(cache, block, Need::Read) && state == LineState::Absent && has_none_in(cache)
        }
        Body::DataM(_, _) => {
            awaits(cache, block, Need::Write)
                && (state == LineState::Absent || state == LineState::Shared)
        }
        Body::UpgOk(_) => awaits(cache, block, Need::Write) && state == LineState::Owned,
        Body::InvAck => counts(cache, block),
        Body::PutGo => is_owner(state) && puts(cache, block),
        Body::PutDone => puts(cache, block),
        _ => false,
    }
}

/// Whether no entry of the block is of a later interval.
fn is_last(log: &LogBuffer, block: BlockNo, interval: Interval) -> bool
    ensures { result ≡ true → logged_to log.now.entries false block ≤ interval + 1 }
{
    match interval.checked_add(1) {
        Some(next) => log.old_at(false, block, next).is_none(),
        None => false,
    }
}

/// The interval in which the message's row notes what stood before it, where it does.
fn noting(message: &Message, now: Interval) -> Option<Interval>
    ensures { result ≡ noted_in now message.now.tag message.now.body }
{
    match receiver_of(&message.body) {
        Receiver::Cache(row) => noted_by(&row, now, message.tag),
        Receiver::Home(_) | Receiver::Controller(_) | Receiver::Clock(_) => None,
    }
}

fn notes_last(message: &Message, now: Interval, log: &LogBuffer) -> bool
    ensures { result ≡ true → IsNoteInOrder log.now.entries false message.now.block (noted_in now message.now.tag message.now.body) }
{
    match noting(message, now) {
        Some(interval) => is_last(log, message.block, interval),
        None => true,
    }
}

/// What is said of a message to this node and then done with it. None where it isn't due, or has no row. What it does rests
/// neither on its number nor on its sender.
fn deliver(
    cache: &mut Cache,
    log: &mut LogBuffer,
    now: Interval,
    block: BlockNo,
    tag: Interval,
    body: Body,
) -> Option<Came> {
    let here = cache.node;
    let message = Message {
        id: 1,
        from: here,
        to: here,
        tag,
        block,
        body,
    };
    if tag > now || !meets(cache, &message) || !notes_last(&message, now, log) {
        return None;
    }
    let look = cache.look(&message, now, log);
    Some((look, cache.receive(&message, now, log)))
}

/// Begins a miss. None where the access comes to something else.
fn miss(
    cache: &mut Cache,
    log: &LogBuffer,
    now: Interval,
    block: BlockNo,
    need: Need,
) -> Option<Came> {
    if cache.open_block().is_some() || cache.probe(block, need, now, log) != AccessProbe::Miss {
        return None;
    }
    let out = cache.begin_miss(block, need, now);
    Some(sent(out.to, out.body, None))
}

/// Begins a put, or drops a copy. None where the eviction comes to something else.
fn evict(cache: &mut Cache, now: Interval, block: BlockNo, wanted: Answer) -> Option<Came> {
    let answer = cache.evict_answer(block);
    match answer {
        Answer::PutBegun if wanted == Answer::PutBegun => {
            let out = cache.begin_put(block, now);
            Some(sent(out.to, out.body, None))
        }
        Answer::Evicted if wanted == Answer::Evicted => {
            cache.drop_shared(block);
            Some(DONE)
        }
        _ => None,
    }
}

/// Writes the first word of block 64. None where the write isn't ready.
fn store(cache: &mut Cache, log: &mut LogBuffer, now: Interval, value: u32) -> Option<Came> {
    let write = Write {
        address: 0x8000_1000,
        width: Width::Word,
        value,
    };
    let block = BlockNo::of(write.address)?;
    if cache.open_block().is_some() || !is_last(log, block, now) {
        return None;
    }
    let state = cache.lines.state(block);
    let is_writable = state == LineState::Modified || state == LineState::Exclusive;
    if !is_writable || cache.probe(block, Need::Write, now, log) != AccessProbe::Ready {
        return None;
    }
    cache.store(&write, now, log);
    Some(DONE)
}

/// Notes what the cache had. None where there is no room, or a later entry.
fn note(log: &mut LogBuffer, now: Interval, block: BlockNo, had: Had) -> Option<Came> {
    if log.room() == 0 || !is_last(log, block, now) {
        return None;
    }
    match had {
        Had::Nothing => log.note(now, block, Old::NotOwned),
        Had::Owned(word) => log.note(now, block, Old::Owned(content(word))),
    }
    Some(DONE)
}

fn came(rt: &impl Abort, cache: &mut Cache, log: &mut LogBuffer, row: &Row) -> Option<Came> {
    let (now, block) = (row.0, BlockNo::new(row.1));
    match row.2 {
        Act::Miss(need) => miss(cache, log, now, block, need),
        Act::Put => evict(cache, now, block, Answer::PutBegun),
        Act::Drop => evict(cache, now, block, Answer::Evicted),
        Act::Take(tag, says) => deliver(cache, log, now, block, tag, body_of(rt, &says)),
        Act::Store(value) => store(cache, log, now, value),
        Act::Note(had) => note(log, now, block, had),
    }
}

/// Whether each act comes to what it has to, one after another.
fn all_come(rt: &impl Abort, cache: &mut Cache, log: &mut LogBuffer, rows: &[Row]) -> bool {
    'rows: for row in rows.iter() {
        let wanted = came_of(rt, &row.3, BlockNo::new(row.1));
        if came(rt, cache, log, row) != wanted {
            return false;
        }
    }
    true
}

/// A cache with one set of two ways at a node of two.
fn small_cache(rt: &impl Abort, alloc: Global, here: u8) -> Result<Cache, Memory> {
    let config = Config {
        nodes: 2,
        sets: 1,
        ways: 2,
        log: 4,
    };
    Cache::new(alloc, node(rt, here), &config)
}

/// That of node 1 after these rows, which note in a log of their own. None where one comes to something else.
fn cache_after(rt: &impl Abort, alloc: Global, rows: &[Row]) -> Result<Option<Cache>, Memory> {
    let mut cache = small_cache(rt, alloc, 1)?;
    let mut log = LogBuffer::new(alloc, 4)?;
    if all_come(rt, &mut cache, &mut log, rows) {
        Ok(Some(cache))
    } else {
        Ok(None)
    }
}

/// The state of a block's line, and its first word where it is owned.
type Held = (LineState, Option<u32>);

const GONE: Held = (LineState::Absent, None);

fn holds(cache: &Cache, number: u16, held: &Held) -> bool {
    let block = BlockNo::new(number);
    let is_same = match (cache.owned(block), held.1) {
        (Some(owned), Some(word)) => *owned == content(word),
        (None, None) => true,
        _ => false,
    };
    is_same && cache.lines.state(block) == held.0
}
