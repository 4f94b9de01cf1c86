//! How an exchange is played: what is done at the home of node 0, what comes of it, and what is seen then.
ghost use Rattle.std.specs.Prelude.{◌≡◌, ◌≤◌, Option, true};
ghost use Rattle.log_buffer.specs.Log.{logged_to};

use super::{Answer, Does, Says, answer_of, body_of, has_row, node, owner_of};
use crate::{Home, Owner};
use log_buffer::LogBuffer;
use rollback::unwind;
use sn_base::{Block, BlockNo, Entries, Image, Interval, Old, Segment, Width};
use sn_msg::Message;
use std::alloc::{AllocError, Global};
use std::process::Abort;
use std::test::Fail;

/// A message: who sends it, about which block, its tag, the interval in which it comes, what it says, and what is done.
pub(super) type Row = (u8, u16, Interval, Interval, Says, Does);

/// What the log notes by hand of a block with nothing in it: that its home owned it, that this node's cache didn't, or did.
#[derive(Clone, Copy)]
pub(super) enum Noted {
    WasHome,
    NotOwned,
    Owned,
}

/// What is done at a home: a message comes; something is noted in interval 0; what the log has of earlier intervals is let go; or
/// the home is put back to a checkpoint, which undoes so many entries.
#[derive(Clone, Copy)]
pub(super) enum Act {
    Takes(Row),
    Notes(u16, Noted),
    Frees(Interval),
    Restores(Interval, u32),
}

/// What is seen: the first word of a block that the home itself owns; how many nodes share block 64, and who asked for what is open
/// on it; how many entries the log has, and has room for; that it has one of the home's side; or that the home had the block with
/// nothing in it.
#[derive(Clone, Copy)]
pub(super) enum Sees {
    Word(u16, Option<u32>),
    Sharers(u8, Option<u8>),
    Entries(usize),
    Room(usize),
    Noted(Interval, u16),
    WasHome(Interval, u16),
}

/// What is done, one after another; and then who owns block 64 (none is the home), the least interval in which a transaction that
/// is still open was begun, and what else is seen.
#[derive(Clone, Copy)]
pub(super) struct Part {
    pub(super) acts: &'static [Act],
    pub(super) owner: Option<u8>,
    pub(super) least_open: Option<Interval>,
    pub(super) sees: &'static [Sees],
}

/// A machine of so many nodes, and what comes to the home of its node 0, in parts.
#[derive(Clone, Copy)]
pub(super) struct Exchange {
    pub(super) name: &'static str,
    pub(super) nodes: u8,
    pub(super) parts: &'static [Part],
}

/// A program of one instruction, 04100513, at the start of memory.
fn image(alloc: Global) -> Result<Image, AllocError> {
    let mut bytes = Vec::new(alloc);
    bytes.extend_from_slice(&[0x13, 0x05, 0x10, 0x04])?;
    let mut segments = Vec::new(alloc);
    segments.push(Segment {
        start: 0x8000_0000,
        size: 4,
        bytes,
        write: false,
        exec: true,
    })?;
    Ok(Image::new(segments, 0x8000_0000))
}

/// The home of node 0 of so many, and the log of that node.
#[derive(Drop)]
struct AtHome {
    home: Home,
    log: LogBuffer,
}

/// None where a machine has no so many nodes.
fn start(rt: &impl Abort, alloc: Global, nodes: u8) -> Result<Option<AtHome>, Fail> {
    if nodes < 1 || nodes > 16 {
        return Ok(None);
    }
    let image = image(alloc)?;
    let home = Home::new(alloc, node(rt, 0), nodes, &image)?;
    let log = LogBuffer::new(alloc, 4)?;
    Ok(Some(AtHome { home, log }))
}

/// Whether the notes of a side and block are all of interval 0, so that none is younger than another.
fn notes_last(log: &LogBuffer, home_side: bool, block: BlockNo) -> bool
    ensures { result ≡ true → logged_to log.now.entries home_side block ≤ 1 }
{
    log.old_at(home_side, block, 1).is_none()
}

/// What a look says of a message and what is done. None where the message isn't for the home, or has no row.
fn serve(at: &mut AtHome, message: &Message, now: Interval) -> Option<Answer> {
    let (node, nodes) = (at.home.node, at.home.nodes);
    if message.to != node || message.block.home(nodes) != node || message.tag > now {
        return None;
    }
    let place = at.home.place(message.block);
    if !has_row(at.home.entries.at(place), message) || !notes_last(&at.log, true, message.block) {
        return None;
    }
    let look = at.home.look(message, now, &at.log);
    Some((look, at.home.receive(message, now, &mut at.log)))
}

/// The message of a row comes, and what is to be done is done.
fn takes(rt: &impl Abort, at: &mut AtHome, row: &Row) -> bool {
    let from = node(rt, row.0);
    let message = Message {
        id: 1,
        from,
        to: at.home.node,
        tag: row.2,
        block: BlockNo::new(row.1),
        body: body_of(rt, &row.4),
    };
    serve(at, &message, row.3) == answer_of(rt, &row.5, from)
}

/// False where the log has no room, or a later entry.
fn notes(log: &mut LogBuffer, block: BlockNo, noted: Noted) -> bool {
    if log.room() == 0 {
        return false;
    }
    match noted {
        Noted::WasHome if notes_last(log, true, block) => {
            log.note(0, block, Old::WasHome(Block::zero()));
        }
        Noted::NotOwned if notes_last(log, false, block) => log.note(0, block, Old::NotOwned),
        Noted::Owned if notes_last(log, false, block) => {
            log.note(0, block, Old::Owned(Block::zero()));
        }
        _ => return false,
    }
    true
}

/// Puts the home back to checkpoint k, and answers how many entries of its log are undone. None where other homes are there,
/// whose blocks the log may have.
fn put_back(at: &mut AtHome, k: Interval) -> Option<u32> {
    if at.home.nodes != 1 {
        return None;
    }
    at.home.begin_restore();
    let _room = at.log.room();
    Some(unwind(&at.log, k, &mut at.home))
}

fn does(rt: &impl Abort, at: &mut AtHome, act: &Act) -> bool {
    match act {
        Act::Takes(row) => takes(rt, at, row),
        Act::Notes(block, noted) => notes(&mut at.log, BlockNo::new(*block), *noted),
        Act::Frees(k) => {
            at.log.free_below(*k);
            true
        }
        Act::Restores(k, undone) => put_back(at, *k) == Some(*undone),
    }
}

fn does_all(rt: &impl Abort, at: &mut AtHome, acts: &[Act]) -> bool {
    'acts: for act in acts.iter() {
        if !does(rt, at, act) {
            return false;
        }
    }
    true
}

/// Whether block 64 has this home and this owner.
fn is_owned_by(rt: &impl Abort, home: &Home, owner: Option<u8>) -> bool {
    let block = BlockNo::new(64);
    if block.home(home.nodes) != home.node {
        return false;
    }
    home.owner(block) == owner_of(rt, owner)
}

/// The first word of a block that the home itself owns.
fn word_of(home: &Home, block: BlockNo) -> Option<u32> {
    if block.home(home.nodes) != home.node || home.owner(block) != Owner::Home {
        return None;
    }
    Some(home.content(block).load(0, Width::Word))
}

/// How many nodes share block 64, and who asked for what is open on it. None where the block has another home.
fn shown(home: &Home) -> Option<(u8, Option<u8>)> {
    let block = BlockNo::new(64);
    if block.home(home.nodes) != home.node {
        return None;
    }
    let asked = match home.transaction(block) {
        Some(open) => Some(open.requester.number()),
        None => None,
    };
    Some((home.sharers(block).count(), asked))
}

fn is_seen(at: &AtHome, sees: &Sees) -> bool {
    match *sees {
        Sees::Word(number, word) => word_of(&at.home, BlockNo::new(number)) == word,
        Sees::Sharers(count, asked) => shown(&at.home) == Some((count, asked)),
        Sees::Entries(count) => at.log.count() == count,
        Sees::Room(room) => at.log.room() == room,
        Sees::Noted(k, number) => at.log.has(k, true, BlockNo::new(number)),
        Sees::WasHome(k, number) => {
            let old = at.log.old_at(true, BlockNo::new(number), k);
            old.copied() == Some(Old::WasHome(Block::zero()))
        }
    }
}

fn all_seen(at: &AtHome, all: &[Sees]) -> bool {
    'sees: for sees in all.iter() {
        if !is_seen(at, sees) {
            return false;
        }
    }
    true
}

fn is_played(rt: &impl Abort, at: &mut AtHome, part: &Part) -> bool {
    does_all(rt, at, part.acts)
        && is_owned_by(rt, &at.home, part.owner)
        && at.home.least_open() == part.least_open
        && all_seen(at, part.sees)
}

/// Whether all parts of an exchange come to what they say, one after another.
pub(super) fn plays(rt: &impl Abort, alloc: Global, exchange: &Exchange) -> Result<bool, Fail> {
    let Some(mut at) = start(rt, alloc, exchange.nodes)? else {
        return Ok(false);
    };
    'parts: for part in exchange.parts.iter() {
        if !is_played(rt, &mut at, part) {
            return Ok(false);
        }
    }
    Ok(true)
}
