//! The rows of the cache's table, in its order: what each message does at the node that it has come to.
ghost use Rattle.std.specs.Prelude.{◌≡◌, ◌+◌, ◌%◌, ◌<◌, ◌≤◌, false, List, [], length, IfSome, Some};
ghost use Rattle.sn_base.specs.declared.log.LogEntry.{LogEntry};
ghost use Rattle.log_buffer.specs.Log.{logged_to, has_entry, log_with_note};
ghost use Rattle.sn_model.specs.Caches.{line_of};
ghost use Rattle.sn_model.specs.CacheRows.{forward_read, forward_write, invalidate, data_shared, data_modified, upgrade_granted};
ghost use Rattle.sn_model.specs.CacheRows.{acknowledge, put_go, put_done, data_exclusive, reply_or_wait, MayForward, MayTakeCopy};
ghost use Rattle.sn_model.specs.CacheRows.{MayTakeOwnership, MayUpgrade, MayCount, MayGiveBack, MayClosePut};
ghost use Rattle.mosi_cache.specs.Controller.{with_entries};
ghost use Rattle.mosi_cache.specs.Rows.{IsRowDone};

use super::Cache;
use crate::step::CacheStep;
use log_buffer::LogBuffer;
use sn_base::{Block, BlockNo, Interval, NodeId, Old};
use sn_model::{LineState, Out};
use sn_msg::Body;

fn taken(to: NodeId, body: Body, lost: Option<BlockNo>) -> CacheStep
    ensures { result ≡ CacheStep.Took (Some (record { to = to; body = body })) lost }
{
    CacheStep::Took(Some(Out { to, body }), lost)
}

impl Cache {
    /// A request to read for requester r of a block that is owned here: the line becomes Owned, and the content goes to r.
    pub(super) fn forward_read(&mut self, block: BlockNo, requester: NodeId) -> CacheStep
        requires { MayForward (with_entries self.old []) block }
        ensures { (entries : List LogEntry) → IsRowDone self.old self.new result (forward_read (with_entries self.old entries) block requester) }
    {
        let content = self.lines.content(block);
        self.lines.put(block, LineState::Owned, content);
        taken(requester, Body::DataS(content), None)
    }

    /// A request to write for requester r, which waits for so many acknowledgements, of a block that is owned here: the
    /// content is noted under now, the copy is lost, and the content goes to r with its ownership.
    pub(super) fn forward_write(
        &mut self,
        block: BlockNo,
        now: Interval,
        requester: NodeId,
        due: u8,
        log: &mut LogBuffer,
    ) -> CacheStep
        requires owned { MayForward (with_entries self.old []) block }
        requires room { has_entry log.old.entries now false block ≡ false → length log.old.entries < log.old.limit }
        requires last { logged_to log.old.entries false block ≤ now + 1 }
        ensures done { (entries : List LogEntry) →
            IsRowDone self.old self.new result (forward_write (with_entries self.old entries) block now requester due) }
        ensures log { log.new ≡
            record log.old { entries = log_with_note log.old.entries now block (Old.Owned (line_of self.old.cache block).content) } }
    {
        let content = self.lines.content(block);
        log.note(now, block, Old::Owned(content));
        self.lines.remove(block);
        taken(requester, Body::DataM(content, due), Some(block))
    }

    /// An invalidation for requester r: the copy is lost, where there is one, and r gets the acknowledgement.
    pub(super) fn invalidate(&mut self, block: BlockNo, requester: NodeId) -> CacheStep
        ensures { (entries : List LogEntry) → IsRowDone self.old self.new result (invalidate (with_entries self.old entries) block requester) }
    {
        let had_copy = self.lines.find(block).is_some();
        self.lines.remove(block);
        let lost = if had_copy { Some(block) } else { None };
        taken(requester, Body::InvAck, lost)
    }

    /// The content to read: the line is Shared, the message's tag is the interval of atomicity, and the read is complete.
    pub(super) fn data_shared(&mut self, block: BlockNo, tag: Interval, content: Block) -> CacheStep
        requires { MayTakeCopy (with_entries self.old []) block }
        ensures { (entries : List LogEntry) →
            IsRowDone self.old self.new result (data_shared (with_entries self.old entries) (block % self.old.nodes) block tag content) }
    {
        self.lines.put(block, LineState::Shared, content);
        let _ = self.transactions.answer(tag, 0);
        self.complete_or_wait(block)
    }

    /// The content to own and write, with so many acknowledgements due: that nothing was owned is noted under the tag, which
    /// is the interval of atomicity, and the line is Modified. The write is complete once the acknowledgements are in.
    pub(super) fn data_modified(
        &mut self,
        block: BlockNo,
        tag: Interval,
        content: Block,
        due: u8,
        log: &mut LogBuffer,
    ) -> CacheStep
        requires missed { MayTakeOwnership (with_entries self.old []) block }
        requires room { has_entry log.old.entries tag false block ≡ false → length log.old.entries < log.old.limit }
        requires last { logged_to log.old.entries false block ≤ tag + 1 }
        ensures done { (entries : List LogEntry) →
            IsRowDone self.old self.new result (data_modified (with_entries self.old entries) (block % self.old.nodes) block tag content due) }
        ensures log { log.new ≡ record log.old { entries = log_with_note log.old.entries tag block Old.NotOwned } }
    {
        log.note(tag, block, Old::NotOwned);
        self.lines.put(block, LineState::Modified, content);
        let _ = self.transactions.answer(tag, due);
        self.complete_or_wait(block)
    }

    /// The owner may write, with so many acknowledgements due: the tag is the interval of atomicity, and the write is
    /// complete once they are in.
    pub(super) fn upgrade_granted(&mut self, block: BlockNo, tag: Interval, due: u8) -> CacheStep
        requires { MayUpgrade (with_entries self.old []) block }
        ensures { (entries : List LogEntry) →
            IsRowDone self.old self.new result (upgrade_granted (with_entries self.old entries) (block % self.old.nodes) tag due) }
    {
        let _ = self.transactions.answer(tag, due);
        self.complete_or_wait(block)
    }

    /// An acknowledgement: one more is in, and the miss is complete where it is fixed and all that are due are in.
    pub(super) fn acknowledge(&mut self, block: BlockNo) -> CacheStep
        requires { MayCount self.old.cache.miss block }
        ensures { (entries : List LogEntry) →
            IsRowDone self.old self.new result (acknowledge (with_entries self.old entries) (block % self.old.nodes)) }
    {
        let _ = self.transactions.ack();
        self.complete_or_wait(block)
    }

    /// The home lets the block be given up: the content is noted under now, the copy is lost, the put is closed, and the home
    /// gets the content.
    pub(super) fn put_go(&mut self, block: BlockNo, now: Interval, log: &mut LogBuffer) -> CacheStep
        requires owned { MayGiveBack (with_entries self.old []) block }
        requires room { has_entry log.old.entries now false block ≡ false → length log.old.entries < log.old.limit }
        requires last { logged_to log.old.entries false block ≤ now + 1 }
        ensures done { (entries : List LogEntry) →
            IsRowDone self.old self.new result (put_go (with_entries self.old entries) (block % self.old.nodes) block now) }
        ensures log { log.new ≡
            record log.old { entries = log_with_note log.old.entries now block (Old.Owned (line_of self.old.cache block).content) } }
    {
        let content = self.lines.content(block);
        log.note(now, block, Old::Owned(content));
        self.lines.remove(block);
        self.transactions.close_put();
        taken(block.home(self.nodes), Body::PutData(content), Some(block))
    }

    /// The block isn't owned here any more, so that there is nothing to give up: the put is closed.
    pub(super) fn put_done(&mut self, block: BlockNo) -> CacheStep
        requires { MayClosePut (with_entries self.old []) block }
        ensures { (entries : List LogEntry) → IsRowDone self.old self.new result (put_done (with_entries self.old entries)) }
    {
        self.transactions.close_put();
        CacheStep::Took(None, None)
    }

    /// The content to read, which no other node has: that nothing was owned is noted under the tag, which is the interval of
    /// atomicity, the line is Exclusive, and the read is complete.
    pub(super) fn data_exclusive(
        &mut self,
        block: BlockNo,
        tag: Interval,
        content: Block,
        log: &mut LogBuffer,
    ) -> CacheStep
        requires missed { MayTakeCopy (with_entries self.old []) block }
        requires room { has_entry log.old.entries tag false block ≡ false → length log.old.entries < log.old.limit }
        requires last { logged_to log.old.entries false block ≤ tag + 1 }
        ensures done { (entries : List LogEntry) →
            IsRowDone self.old self.new result (data_exclusive (with_entries self.old entries) (block % self.old.nodes) block tag content) }
        ensures log { log.new ≡ record log.old { entries = log_with_note log.old.entries tag block Old.NotOwned } }
    {
        log.note(tag, block, Old::NotOwned);
        self.lines.put(block, LineState::Exclusive, content);
        let _ = self.transactions.answer(tag, 0);
        self.complete_or_wait(block)
    }

    /// Completes the miss on the block where it is fixed and all acknowledgements due are in: its home gets the interval of
    /// atomicity, the line, if any, is Modified where it was wanted for a write, and the miss is closed.
    fn complete_or_wait(&mut self, block: BlockNo) -> CacheStep
        requires { IfSome self.old.cache.miss (λ m. m.block ≡ block) }
        ensures { (entries : List LogEntry) →
            IsRowDone self.old self.new result
            (reply_or_wait (with_entries self.old entries) (block % self.old.nodes) self.old.cache.miss) }
    {
        let Some(miss) = self.transactions.miss() else {
            return CacheStep::Took(None, None);
        };
        let Some(fixed) = miss.fixed else {
            return CacheStep::Took(None, None);
        };
        if miss.acks_in != miss.acks_due {
            return CacheStep::Took(None, None);
        }
        self.lines.complete(block, self.need);
        self.transactions.close_miss();
        taken(block.home(self.nodes), Body::Unblock(fixed), None)
    }
}
