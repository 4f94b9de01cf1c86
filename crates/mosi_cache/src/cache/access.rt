//! What the core asks of the cache: an access, an eviction, and what is open.
ghost use Rattle.std.specs.Prelude.{◌≡◌, ℕ, ◌+◌, ◌-◌, ◌*◌, ◌/◌, ◌%◌, ◌<◌, ◌≤◌, true, false, nat_lt, nat_le, length, if◌then◌else◌, IfSome};
ghost use Rattle.std.specs.Prelude.{IsNone};
ghost use Rattle.std.specs.Option.{option_map};
ghost use Rattle.sn_base.specs.Blocks.{ram_start, ram_size, bytes_of};
ghost use Rattle.log_buffer.specs.Log.{LogData, logged_to};
ghost use Rattle.rv_core.specs.Core.{block_of};
ghost use Rattle.sn_model.specs.Caches.{line_of, without_line, is_present, is_owned, is_writable_state, misses_on, puts_on, frames_taken};
ghost use Rattle.sn_model.specs.Caches.{block_count};
ghost use Rattle.sn_model.specs.CacheRows.{send};
ghost use Rattle.sn_model.specs.Access.{word_in, request_for};
ghost use Rattle.mosi_cache.specs.Probe.{log_with, probe_by, probe_miss, with_miss, cache_after_write, evict_by, with_put, may_go, least_open_of};

use super::Cache;
use crate::step::AccessProbe;
use log_buffer::LogBuffer;
use sn_base::{Answer, Block, BlockNo, Interval, Old, Width, Write};
use sn_model::{LineState, Need, Out};
use sn_msg::Body;

fn is_writable(state: LineState) -> bool
    ensures { result ≡ is_writable_state state }
{
    matches!(state, LineState::Modified | LineState::Exclusive)
}

fn is_owner(state: LineState) -> bool
    ensures { result ≡ is_owned state }
{
    matches!(
        state,
        LineState::Owned | LineState::Modified | LineState::Exclusive
    )
}

impl Cache {
    /// What an access to the block comes to, the first that applies: the open put is on the block (Waits), the line serves it
    /// (Ready, or LogFull for a write whose old content has no room), all frames of the set are taken (NeedsEvict), or the
    /// block has to be asked for (Miss).
    pub fn probe(&self, block: BlockNo, need: Need, now: Interval, log: &LogBuffer) -> AccessProbe
        requires { IsNone self.now.cache.miss }
        ensures { result ≡ probe_by self.now log.now block now need }
    {
        if self.puts(block) {
            return AccessProbe::Waits;
        }
        let state = self.lines.state(block);
        match need {
            Need::Read if state != LineState::Absent => AccessProbe::Ready,
            Need::Write if is_writable(state) => self.probe_log(block, now, log),
            _ => self.probe_frames(block),
        }
    }

    fn probe_frames(&self, block: BlockNo) -> AccessProbe
        requires { IsNone self.now.cache.miss }
        ensures { result ≡ probe_miss self.now block }
    {
        let is_absent = self.lines.state(block) == LineState::Absent;
        if is_absent && self.has_full_set(block) {
            AccessProbe::NeedsEvict
        } else {
            AccessProbe::Miss
        }
    }

    fn has_full_set(&self, block: BlockNo) -> bool
        requires { IsNone self.now.cache.miss }
        ensures { result ≡ nat_le self.now.ways (frames_taken self.now.cache self.now.sets block) }
    {
        self.lines.is_full(block)
    }

    fn puts(&self, block: BlockNo) -> bool
        ensures { result ≡ puts_on self.now.cache.put block }
    {
        match self.transactions.put() {
            Some(put) => put.block == block,
            None => false,
        }
    }

    fn probe_log(&self, block: BlockNo, now: Interval, log: &LogBuffer) -> AccessProbe
        ensures { result ≡ (if nat_lt log.now.limit (length (log_with self.now log.now.entries block now)) then AccessProbe.LogFull
            else AccessProbe.Ready) }
    {
        let room = log.room();
        if room == 0 && !log.has(now, false, block) {
            AccessProbe::LogFull
        } else {
            AccessProbe::Ready
        }
    }

    /// Opens a miss, and gives the request for the block's home.
    pub fn begin_miss(&mut self, block: BlockNo, need: Need, now: Interval) -> Out
        requires none { IsNone self.old.cache.miss }
        requires miss { (log : LogData) × (probe_by self.old log block now need ≡ AccessProbe.Miss) }
        ensures open_now { self.new ≡ with_miss self.old block need now }
        ensures out { result ≡ send (block % self.old.nodes) (request_for need) }
    {
        self.transactions.open_miss(block, now);
        self.need = need;
        let body = match need {
            Need::Read => Body::GetS,
            Need::Write => Body::GetM,
        };
        Out {
            to: block.home(self.nodes),
            body,
        }
    }

    /// The block of the open miss. None where no miss is open.
    pub fn open_block(&self) -> Option<BlockNo>
        ensures { result ≡ option_map (λ m. m.block) self.now.cache.miss }
    {
        match self.transactions.miss() {
            Some(miss) => Some(miss.block),
            None => None,
        }
    }

    /// The least block with a line in the set of a block whose `evict_answer` is Evicted, or, where puts may begin, PutBegun.
    /// None where no line of the set can go.
    pub fn least_line(&self, block: BlockNo, puts: bool) -> Option<BlockNo>
        ensures none { IsNone result → (k : ℕ) → k < block_count → may_go self.now block puts k ≡ false }
        ensures some { IfSome result
            (λ b. (may_go self.now block puts b ≡ true) × ((k : ℕ) → k < b → may_go self.now block puts k ≡ false)) }
    {
        let owned_too = puts && self.transactions.put().is_none();
        self.lines.least(block, self.open_block(), owned_too)
    }

    /// What an eviction of the block comes to: MissOpen, NotCached, Evicted, PutOpen or PutBegun. Room in the network is not
    /// looked at.
    pub fn evict_answer(&self, block: BlockNo) -> Answer
        ensures { result ≡ evict_by self.now.cache block }
    {
        if self.misses(block) {
            return Answer::MissOpen;
        }
        match self.lines.state(block) {
            LineState::Absent => Answer::NotCached,
            LineState::Shared => Answer::Evicted,
            LineState::Owned | LineState::Modified | LineState::Exclusive => {
                if self.transactions.put().is_some() {
                    Answer::PutOpen
                } else {
                    Answer::PutBegun
                }
            }
        }
    }

    fn misses(&self, block: BlockNo) -> bool
        ensures { result ≡ misses_on self.now.cache.miss block }
    {
        match self.transactions.miss() {
            Some(miss) => miss.block == block,
            None => false,
        }
    }

    /// Drops a Shared line.
    pub fn drop_shared(&mut self, block: BlockNo)
        requires { evict_by self.old.cache block ≡ Answer.Evicted }
        ensures { self.new ≡ record self.old { cache = without_line self.old.cache block } }
    {
        self.lines.remove(block);
    }

    /// Opens a put, and gives the request for the block's home.
    pub fn begin_put(&mut self, block: BlockNo, now: Interval) -> Out
        requires { evict_by self.old.cache block ≡ Answer.PutBegun }
        ensures open_now { self.new ≡ with_put self.old block now }
        ensures out { result ≡ send (block % self.old.nodes) Body.PutReq }
    {
        self.transactions.open_put(block, now);
        Out {
            to: block.home(self.nodes),
            body: Body::PutReq,
        }
    }

    /// The aligned word at a byte address of memory, whose block has a line.
    pub fn load(&self, address: u32) -> u32
        requires low { ram_start ≤ address }
        requires high { address < ram_start + ram_size }
        requires line { is_present (line_of self.now.cache (block_of address)).state ≡ true }
        ensures { result ≡ word_in (line_of self.now.cache (block_of address)).content address }
    {
        let Some(block) = BlockNo::of(address) else {
            unreachable!()
        };
        let place = BlockNo::offset(address) / 4 * 4;
        self.lines.content(block).load(place, Width::Word)
    }

    /// The content of a block that has a line.
    pub fn content(&self, block: BlockNo) -> Block
        requires { is_present (line_of self.now.cache block).state ≡ true }
        ensures { result ≡ (line_of self.now.cache block).content }
    {
        self.lines.content(block)
    }

    /// Writes into a line that may be written: its old content is noted, once per interval, and the line is Modified.
    pub fn store(&mut self, write: &Write, now: Interval, log: &mut LogBuffer)
        requires low { ram_start ≤ write.now.address }
        requires high { write.now.address < ram_start + ram_size }
        requires aligned { write.now.address % bytes_of write.now.width ≡ 0 }
        requires line { is_writable_state (line_of self.old.cache (block_of write.now.address)).state ≡ true }
        requires ready { probe_by self.old log.old (block_of write.now.address) now Need.Write ≡ AccessProbe.Ready }
        requires last { logged_to log.old.entries false (block_of write.now.address) ≤ now + 1 }
        ensures stored { self.new ≡ cache_after_write self.old write.now }
        ensures log { log.new ≡ record log.old { entries = log_with self.old log.old.entries (block_of write.now.address) now } }
    {
        let Some(block) = BlockNo::of(write.address) else {
            unreachable!()
        };
        let mut content = self.lines.content(block);
        log.note(now, block, Old::Owned(content));
        let place = BlockNo::offset(write.address);
        content.store(place, write.width, write.value);
        self.lines.put(block, LineState::Modified, content);
    }

    /// The content of a block that is owned here. None where it isn't.
    pub fn owned(&self, block: BlockNo) -> Option<&Block>
        ensures none { IsNone result → is_owned (line_of self.now.cache block).state ≡ false }
        ensures some { IfSome result
            (λ b. (is_owned (line_of self.now.cache block).state ≡ true) × (b.now ≡ (line_of self.now.cache block).content)) }
    {
        match self.lines.find(block) {
            Some(frame) if is_owner(frame.state) => Some(&frame.content),
            _ => None,
        }
    }

    /// The least interval in which the open miss or put was issued. None where nothing is open.
    pub fn least_open(&self) -> Option<Interval>
        ensures { result ≡ least_open_of self.now.cache.miss self.now.cache.put }
    {
        self.transactions.least_open()
    }
}
