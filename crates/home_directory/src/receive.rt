//! What a message comes to at the entry of its block: its row, or a refusal that changes nothing.
ghost use Rattle.std.specs.Prelude.{◌≡◌, ◌+◌, ◌%◌, ◌<◌, ◌≤◌, List, true, false, Some, None, IfSome};
ghost use Rattle.sn_base.specs.declared.log.LogEntry.{LogEntry};
ghost use Rattle.log_buffer.specs.Log.{IsLog};
ghost use Rattle.sn_model.specs.HomeRows.{count_others, read_row, write_row, home_row, home_reply, noted_by_unblock, noted_by_home, noted_for};
ghost use Rattle.sn_model.specs.Receivers.{IsNoteInOrder};
ghost use Rattle.home_directory.specs.Home.{entry_of, with_entry};
ghost use Rattle.home_directory.specs.Receipt.{entry_as_it_is, left_by, Tells, look_of, HasRowAt, NotesInOrder, receipt_of};
ghost use Rattle.home_directory.specs.Serving.{IsRowDone, HasLogRoom, lacks_room, waits, verdict_for, count_sends, at_block};

use crate::entry::DirectoryEntry;
use crate::step::HomeStep;
use crate::{Home, rows};
use log_buffer::LogBuffer;
use sn_base::{BlockNo, Interval, NodeId};
use sn_model::{HomeMessage, HomeRow, Kind, Look, Owner, Receiver, receiver_of};
use sn_msg::Message;

/// Whether a request has to wait for the open transaction.
fn waits(entry: &DirectoryEntry, asked: &HomeMessage) -> bool
    ensures { result ≡ waits entry.now asked.now }
{
    match asked {
        HomeMessage::GetS | HomeMessage::GetM | HomeMessage::PutReq => entry.transaction.is_some(),
        HomeMessage::Unblock(_) | HomeMessage::PutData(_) => false,
    }
}

/// The row of a GetS from r.
fn read_row(entry: &DirectoryEntry, r: NodeId) -> HomeRow
    ensures { result ≡ read_row entry.now.holder (count_others entry.now.sharers r) }
{
    let others = entry.sharers.without(r).count();
    match entry.owner {
        Owner::Cache(owner) => HomeRow::ReadAtOwner(owner),
        Owner::Home => {
            if others == 0 {
                HomeRow::GrantExclusive(entry.memory)
            } else {
                HomeRow::ReadAtHome(entry.memory)
            }
        }
    }
}

/// The row of a GetM from r.
fn write_row(entry: &DirectoryEntry, r: NodeId) -> HomeRow
    ensures { result ≡ write_row entry.now.holder r }
{
    let owns = entry.is_owner(r);
    match entry.owner {
        Owner::Home => HomeRow::Take(entry.memory),
        Owner::Cache(owner) => {
            if owns {
                HomeRow::Upgrade
            } else {
                HomeRow::MoveOwnership(owner)
            }
        }
    }
}

/// The row of what comes from r.
fn home_row(entry: &DirectoryEntry, r: NodeId, asked: &HomeMessage) -> HomeRow
    ensures { result ≡ home_row entry.now r asked.now }
{
    match asked {
        HomeMessage::GetS => read_row(entry, r),
        HomeMessage::GetM => write_row(entry, r),
        HomeMessage::Unblock(fixed) => HomeRow::Unblock(*fixed),
        HomeMessage::PutReq => {
            if entry.is_owner(r) {
                HomeRow::PutBegins
            } else {
                HomeRow::PutIsStale
            }
        }
        HomeMessage::PutData(content) => HomeRow::PutData(*content),
    }
}

fn noted_by_unblock(entry: &DirectoryEntry, fixed: Interval) -> Option<Interval>
    ensures { result ≡ noted_by_unblock entry.now.transaction entry.now.holder fixed }
{
    match (entry.transaction.map(|open| open.kind), entry.owner) {
        (Some(Kind::Move), Owner::Cache(_)) => Some(fixed),
        _ => None,
    }
}

/// The interval under which a row notes what stood, where it notes.
fn noted_by(entry: &DirectoryEntry, row: &HomeRow, now: Interval, tag: Interval) -> Option<Interval>
    ensures { result ≡ noted_by_home entry.now now tag row.now }
{
    match row {
        HomeRow::Take(_) | HomeRow::GrantExclusive(_) => Some(now),
        HomeRow::PutData(_) => Some(tag),
        HomeRow::Unblock(fixed) => noted_by_unblock(entry, *fixed),
        HomeRow::ReadAtHome(_) | HomeRow::ReadAtOwner(_) => None,
        HomeRow::MoveOwnership(_) | HomeRow::Upgrade => None,
        HomeRow::PutBegins | HomeRow::PutIsStale => None,
    }
}

/// Whether the log lacks the room for a note of the home's side.
fn lacks_room(log: &LogBuffer, interval: Option<Interval>, block: BlockNo) -> bool
    ensures lacks { result ≡ lacks_room log.now interval block }
    ensures good { IsLog log.now }
{
    let room = log.room();
    match interval {
        Some(interval) => room == 0 && !log.has(interval, true, block),
        None => false,
    }
}

/// How many messages the row sends: only a write's row sends an `Inv`, to each other sharer.
fn count_sends(entry: &DirectoryEntry, r: NodeId, row: &HomeRow) -> u8
    ensures { result ≡ count_sends entry.now r row.now }
{
    match row {
        HomeRow::Take(_) | HomeRow::MoveOwnership(_) | HomeRow::Upgrade => {
            1 + entry.sharers.without(r).count()
        }
        HomeRow::ReadAtHome(_) | HomeRow::ReadAtOwner(_) | HomeRow::GrantExclusive(_) => 1,
        HomeRow::PutBegins | HomeRow::PutIsStale => 1,
        HomeRow::Unblock(_) | HomeRow::PutData(_) => 0,
    }
}

/// What would be done with what comes to the home, by its row.
fn look_by(
    entry: &DirectoryEntry,
    message: &Message,
    asked: &HomeMessage,
    row: &HomeRow,
    now: Interval,
    log: &LogBuffer,
) -> Look
    requires { row.now ≡ home_row entry.now message.now.from asked.now }
    ensures { result ≡ look_of (verdict_for log.now.limit (entry_as_it_is entry.now log.now.entries) now message.now asked.now) }
{
    if waits(entry, asked) {
        return Look::HomeBusy;
    }
    if lacks_room(log, noted_by(entry, row, now, message.tag), message.block) {
        return Look::LogFull;
    }
    Look::Sends(count_sends(entry, message.from, row))
}

/// The row of what comes to the home, and what would be done with it.
pub fn look_at(
    entry: &DirectoryEntry,
    message: &Message,
    asked: &HomeMessage,
    now: Interval,
    log: &LogBuffer,
) -> (HomeRow, Look)
    ensures row { result.0 ≡ home_row entry.now message.now.from asked.now }
    ensures look { result.1 ≡ look_of (verdict_for log.now.limit (entry_as_it_is entry.now log.now.entries) now message.now asked.now) }
{
    let row = home_row(entry, message.from, asked);
    let look = look_by(entry, message, asked, &row, now, log);
    (row, look)
}

/// Does a row for whose note the log has room.
pub fn do_row(
    entry: &mut DirectoryEntry,
    message: &Message,
    row: &HomeRow,
    now: Interval,
    log: &mut LogBuffer,
) -> HomeStep
    requires room { IfSome (noted_by_home entry.old now message.now.tag row.now) (λ i. HasLogRoom log.old i message.now.block) }
    requires latest { IsNoteInOrder log.old.entries true message.now.block (noted_by_home entry.old now message.now.tag row.now) }
    ensures did { IsRowDone (entry_as_it_is entry.new log.new.entries) result
        (home_reply (entry_as_it_is entry.old log.old.entries) message.now.block now message.now.tag message.now.from row.now) }
    ensures limit { log.new.limit ≡ log.old.limit }
{
    let (block, r) = (message.block, message.from);
    match *row {
        HomeRow::ReadAtHome(content) => rows::read_at_home(entry, now, r, content),
        HomeRow::ReadAtOwner(owner) => rows::read_at_owner(entry, now, r, owner),
        HomeRow::Take(content) => rows::take(entry, log, block, now, r, content),
        HomeRow::MoveOwnership(owner) => rows::move_ownership(entry, now, r, owner),
        HomeRow::Upgrade => rows::upgrade(entry, now, r),
        HomeRow::Unblock(fixed) => rows::unblock(entry, log, block, fixed, r),
        HomeRow::PutBegins => rows::put_begins(entry, now, r),
        HomeRow::PutIsStale => rows::put_is_stale(r),
        HomeRow::PutData(content) => rows::put_data(entry, log, block, message.tag, r, content),
        HomeRow::GrantExclusive(content) => {
            rows::grant_exclusive(entry, log, block, now, r, content)
        }
    }
}

impl Home {
    /// Does the message's row, or refuses it and changes nothing: `HomeBusy` exactly where it is a request and a transaction
    /// is open on its block, and else `LogFull` exactly where its row adds a note and the log has no room. A message that
    /// has no row doesn't arrive: the layer above keeps that of all that is delivered.
    pub fn receive(&mut self, message: &Message, now: Interval, log: &mut LogBuffer) -> HomeStep
        requires mine { message.now.to ≡ self.old.node }
        requires here { message.now.block % self.old.nodes ≡ self.old.node }
        requires due { message.now.tag ≤ now }
        requires row { HasRowAt self.old message.now }
        requires latest { NotesInOrder self.old log.old now message.now }
        ensures home { self.new ≡ (receipt_of self.old log.old now message.now).home }
        ensures log { log.new ≡ (receipt_of self.old log.old now message.now).log }
        ensures step { Tells result (receipt_of self.old log.old now message.now).verdict }
    {
        match receiver_of(&message.body) {
            Receiver::Home(asked) => self.serve(message, &asked, now, log),
            Receiver::Cache(_) | Receiver::Controller(_) | Receiver::Clock(_) => HomeStep::HomeBusy,
        }
    }

    /// What `receive` would do with the message now: the same refusal, or how many messages it would send.
    pub fn look(&self, message: &Message, now: Interval, log: &LogBuffer) -> Look
        requires mine { message.now.to ≡ self.now.node }
        requires here { message.now.block % self.now.nodes ≡ self.now.node }
        requires due { message.now.tag ≤ now }
        requires row { HasRowAt self.now message.now }
        requires latest { NotesInOrder self.now log.now now message.now }
        ensures { result ≡ look_of (receipt_of self.now log.now now message.now).verdict }
    {
        match receiver_of(&message.body) {
            Receiver::Home(asked) => self.look_at(message, &asked, now, log).1,
            Receiver::Cache(_) | Receiver::Controller(_) | Receiver::Clock(_) => Look::HomeBusy,
        }
    }

    /// Does the row of what comes to the home, or refuses it.
    fn serve(
        &mut self,
        message: &Message,
        asked: &HomeMessage,
        now: Interval,
        log: &mut LogBuffer,
    ) -> HomeStep
        requires here { message.now.block % self.old.nodes ≡ self.old.node }
        requires latest { IsNoteInOrder log.old.entries true message.now.block
            (noted_for (entry_of self.old message.now.block) now message.now asked.now) }
        ensures home { self.new ≡ with_entry self.old message.now.block
            (left_by (at_block self.old log.old message.now.block)
            (verdict_for log.old.limit (at_block self.old log.old message.now.block) now message.now asked.now)).entry }
        ensures log { log.new ≡ record log.old {
          entries = (left_by (at_block self.old log.old message.now.block)
              (verdict_for log.old.limit (at_block self.old log.old message.now.block) now message.now asked.now)).log;
        } }
        ensures tells { Tells result (verdict_for log.old.limit (at_block self.old log.old message.now.block) now message.now asked.now) }
    {
        let (row, look) = self.look_at(message, asked, now, log);
        match look {
            Look::HomeBusy => HomeStep::HomeBusy,
            Look::LogFull => HomeStep::LogFull,
            Look::Sends(_) => self.carry_out(&row, message, now, log),
        }
    }
}
