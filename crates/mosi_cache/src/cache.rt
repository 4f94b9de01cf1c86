//! The controller of a cache.
//!
//! What a row does stands in the rows, one function each; here is when a message is refused, and which function does its row.
ghost use Rattle.std.specs.Prelude.{◌≡◌, ℕ, ◌+◌, ◌<◌, ◌≤◌, true, false, List, length, IfOk, Some, None};
ghost use Rattle.sn_base.specs.Config.{config_fits};
ghost use Rattle.sn_base.specs.declared.log.LogEntry.{LogEntry};
ghost use Rattle.sn_model.specs.Caches.{empty_cache};
ghost use Rattle.sn_model.specs.CacheRows.{Logged, fixed_at, miss_with_ack, reply_or_wait, cache_reply, MeetsCacheRow, MeetsRow};
ghost use Rattle.sn_model.specs.CacheRows.{noted_by_cache, noted_in};
ghost use Rattle.sn_model.specs.Receivers.{IsNoteInOrder};
ghost use Rattle.mosi_cache.specs.Controller.{CacheData, with_entries};
ghost use Rattle.mosi_cache.specs.Rows.{reply_of, row_of, is_over, step_by, look_by, cache_by, log_by};
ghost use Rattle.mosi_cache.specs.Rows.{IsRowDone};

mod access;
mod looks;
mod restore;
mod rows;
#[cfg(test)]
mod tests;

use crate::lines::Lines;
use crate::step::CacheStep;
use atomicity_point::TxnTable;
use log_buffer::LogBuffer;
use sn_base::{Config, Interval, Memory, NodeId};
use sn_model::{CacheRow, Look, Need, Receiver, receiver_of};
use sn_msg::Message;
use std::alloc::Global;
use std::marker::Model;

/// The cache of a node. Contracts see the cache of the machine's definitions, with the node and the cache's sizes.
#[derive(Drop)]
pub struct Cache {
    node: NodeId,
    nodes: u8,
    lines: Lines,
    transactions: TxnTable,
    need: Need,
}

impl Model for Cache {
    ghost use Rattle.std.specs.Prelude.{◌≤◌};
    ghost use Rattle.sn_model.specs.Caches.{FitsSets};
    ghost use Rattle.mosi_cache.specs.Controller.{CacheData, cache_of};

    ghost Value = { CacheData };

    ghost view = { λ c. record {
      node = c.node;
      nodes = c.nodes;
      sets = c.lines.sets;
      ways = c.lines.ways;
      cache = cache_of c.need c.lines c.transactions;
    } };

    ghost invariant = { λ c. (1 ≤ c.nodes) × (c.nodes ≤ 16) × FitsSets (cache_of c.need c.lines c.transactions) c.lines.sets c.lines.ways };
}

/// The interval in which a row notes what stood before it, where it does.
fn noted_by(row: &CacheRow, now: Interval, tag: Interval) -> Option<Interval>
    ensures { result ≡ noted_by_cache now tag row.now }
{
    match row {
        CacheRow::ForwardWrite(_, _) | CacheRow::PutGo => Some(now),
        CacheRow::DataModified(_, _) | CacheRow::DataExclusive(_) => Some(tag),
        CacheRow::ForwardRead(_) | CacheRow::Invalidate(_) | CacheRow::DataShared(_) => None,
        CacheRow::UpgradeGranted(_) | CacheRow::Acknowledge | CacheRow::PutDone => None,
    }
}

impl Cache {
    /// A cache without a line, for a node of a machine of this configuration.
    pub fn new(alloc: Global, node: NodeId, config: &Config) -> Result<Cache, Memory>
        requires { config_fits config.now ≡ true }
        ensures { IfOk result (λ c. c
            ≡ record { node = node; nodes = config.now.nodes; sets = config.now.sets; ways = config.now.ways; cache = empty_cache }) }
    {
        let lines = Lines::new(alloc, config.sets, config.ways)?;
        Ok(Cache {
            node,
            nodes: config.nodes,
            lines,
            transactions: TxnTable::new(),
            need: Need::Read,
        })
    }

    /// What `receive` would do with the message: how many messages it would send, or that the log is full.
    pub fn look(&self, message: &Message, now: Interval, log: &LogBuffer) -> Look
        requires here { message.now.to ≡ self.now.node }
        requires come { message.now.tag ≤ now }
        requires row { MeetsRow (with_entries self.now log.now.entries) message.now.block message.now.body }
        requires last { IsNoteInOrder log.now.entries false message.now.block (noted_in now message.now.tag message.now.body) }
        ensures { result ≡ look_by log.now (row_of self.now log.now now message.now) }
    {
        match receiver_of(&message.body) {
            Receiver::Cache(row) => self.look_at(&row, message, now, log),
            Receiver::Home(_) | Receiver::Controller(_) | Receiver::Clock(_) => Look::Sends(0),
        }
    }

    /// The same by the row that the message has.
    pub fn look_at(&self, row: &CacheRow, message: &Message, now: Interval, log: &LogBuffer) -> Look
        ensures { result ≡ look_by log.now (reply_of self.now log.now now message.now row.now) }
    {
        let room = log.room();
        if let Some(interval) = noted_by(row, now, message.tag)
            && room == 0
            && !log.has(interval, false, message.block)
        {
            return Look::LogFull;
        }
        Look::Sends(self.count_sends(row))
    }

    /// Takes a message to this node: its row is done, or, where that needs a log entry for which there is no room, nothing.
    /// The message has come in no earlier interval than its tag, and meets the condition of its row.
    pub fn receive(&mut self, message: &Message, now: Interval, log: &mut LogBuffer) -> CacheStep
        requires here { message.now.to ≡ self.old.node }
        requires come { message.now.tag ≤ now }
        requires row { MeetsRow (with_entries self.old log.old.entries) message.now.block message.now.body }
        requires last { IsNoteInOrder log.old.entries false message.now.block (noted_in now message.now.tag message.now.body) }
        ensures answer { result ≡ step_by log.old (row_of self.old log.old now message.now) }
        ensures cache { self.new ≡ cache_by self.old log.old (row_of self.old log.old now message.now) }
        ensures log { log.new ≡ log_by log.old (row_of self.old log.old now message.now) }
    {
        match receiver_of(&message.body) {
            Receiver::Cache(row) => self.take(&row, message, now, log),
            Receiver::Home(_) | Receiver::Controller(_) | Receiver::Clock(_) => {
                CacheStep::Took(None, None)
            }
        }
    }

    /// Does a row, or nothing where that needs a log entry for which there is no room.
    fn take(
        &mut self,
        row: &CacheRow,
        message: &Message,
        now: Interval,
        log: &mut LogBuffer,
    ) -> CacheStep
        requires meets { MeetsCacheRow (with_entries self.old log.old.entries) message.now.block row.now }
        requires last { IsNoteInOrder log.old.entries false message.now.block (noted_by_cache now message.now.tag row.now) }
        ensures answer { result ≡ step_by log.old (reply_of self.old log.old now message.now row.now) }
        ensures cache { self.new ≡ cache_by self.old log.old (reply_of self.old log.old now message.now row.now) }
        ensures log { log.new ≡ log_by log.old (reply_of self.old log.old now message.now row.now) }
    {
        if self.look_at(row, message, now, log) == Look::LogFull {
            return CacheStep::LogFull;
        }
        self.carry_out(row, message, now, log)
    }

    /// Does the row of a message that has come to this node. The log has room for what it notes.
    pub fn carry_out(
        &mut self,
        row: &CacheRow,
        message: &Message,
        now: Interval,
        log: &mut LogBuffer,
    ) -> CacheStep
        requires meets { MeetsCacheRow (with_entries self.old log.old.entries) message.now.block row.now }
        requires last { IsNoteInOrder log.old.entries false message.now.block (noted_by_cache now message.now.tag row.now) }
        requires room { is_over log.old (reply_of self.old log.old now message.now row.now) ≡ false }
        ensures done { IsRowDone self.old self.new result (reply_of self.old log.old now message.now row.now) }
        ensures log { log.new ≡ record log.old { entries = (reply_of self.old log.old now message.now row.now).after.log } }
    {
        let block = message.block;
        match *row {
            CacheRow::ForwardRead(requester) => self.forward_read(block, requester),
            CacheRow::ForwardWrite(requester, due) => {
                self.forward_write(block, now, requester, due, log)
            }
            CacheRow::Invalidate(requester) => self.invalidate(block, requester),
            CacheRow::DataShared(content) => self.data_shared(block, message.tag, content),
            CacheRow::DataModified(content, due) => {
                self.data_modified(block, message.tag, content, due, log)
            }
            CacheRow::UpgradeGranted(due) => self.upgrade_granted(block, message.tag, due),
            CacheRow::Acknowledge => self.acknowledge(block),
            CacheRow::PutGo => self.put_go(block, now, log),
            CacheRow::PutDone => self.put_done(block),
            CacheRow::DataExclusive(content) => {
                self.data_exclusive(block, message.tag, content, log)
            }
        }
    }

    /// How many messages a row sends.
    fn count_sends(&self, row: &CacheRow) -> u8
        ensures { (entries : List LogEntry) (home block now tag : ℕ) →
            result ≡ length (cache_reply (with_entries self.now entries) home block now tag row.now).sends }
    {
        match *row {
            CacheRow::ForwardRead(_) | CacheRow::ForwardWrite(_, _) | CacheRow::Invalidate(_) => 1,
            CacheRow::DataShared(_) | CacheRow::DataExclusive(_) => self.sends_when_answered(0),
            CacheRow::DataModified(_, due) | CacheRow::UpgradeGranted(due) => {
                self.sends_when_answered(due)
            }
            CacheRow::Acknowledge => self.sends_when_acknowledged(),
            CacheRow::PutGo => 1,
            CacheRow::PutDone => 0,
        }
    }

    fn sends_when_answered(&self, due: u8) -> u8
        ensures { (at : Logged) (home tag : ℕ) →
            result ≡ length (reply_or_wait at home (fixed_at self.now.cache.miss tag due)).sends }
    {
        match self.transactions.miss() {
            Some(miss) if miss.acks_in == due => 1,
            _ => 0,
        }
    }

    fn sends_when_acknowledged(&self) -> u8
        ensures { (at : Logged) (home : ℕ) → result ≡ length (reply_or_wait at home (miss_with_ack self.now.cache.miss)).sends }
    {
        match self.transactions.miss() {
            Some(miss)
                if miss.fixed.is_some()
                    && u16::from(miss.acks_in) + 1 == u16::from(miss.acks_due) => 1,
            _ => 0,
        }
    }
}
