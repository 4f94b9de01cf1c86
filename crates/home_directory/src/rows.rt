//! The rows of a home, in the order of its table: one function each. `r` is the message's sender.
ghost use Rattle.std.specs.Prelude.{◌≡◌, ◌+◌, ◌<◌, ◌≤◌, List, true, Some, None, IfSome};
ghost use Rattle.sn_base.specs.declared.log.LogEntry.{LogEntry};
ghost use Rattle.log_buffer.specs.Log.{logged_to};
ghost use Rattle.sn_model.specs.Homes.{HomeEntry, OfCache};
ghost use Rattle.sn_model.specs.HomeRows.{taken_from_home, noted_owner, read_at_home, read_at_owner, take, move_ownership, upgrade};
ghost use Rattle.sn_model.specs.HomeRows.{unblock, put_begins, put_is_stale, put_data, grant_exclusive, noted_by_end, noted_by_unblock};
ghost use Rattle.sn_model.specs.Receivers.{IsNoteInOrder};
ghost use Rattle.home_directory.specs.Receipt.{entry_as_it_is};
ghost use Rattle.home_directory.specs.Serving.{IsRowDone, HasLogRoom};

use crate::entry::{DirectoryEntry, Transaction};
use crate::step::HomeStep;
use log_buffer::LogBuffer;
use sn_base::{Block, BlockNo, Interval, NodeId, NodeSet, Old};
use sn_model::{Kind, Out, Owner};
use sn_msg::Body;

/// A first message, and an `Inv` that names r to each of these nodes.
fn took(to: NodeId, body: Body, invalidated: NodeSet, r: NodeId) -> HomeStep
    ensures { result ≡ HomeStep.Took (Some (record { to = to; body = body })) invalidated r }
{
    HomeStep::Took(Some(Out { to, body }), invalidated, r)
}

fn begun(kind: Kind, requester: NodeId, now: Interval) -> Option<Transaction>
    ensures { result ≡ Some (record { kind = kind; requester = requester; begun = now }) }
{
    Some(Transaction {
        kind,
        requester,
        begun: now,
    })
}

/// The block goes from the home to r: its content is noted under `now`, and r owns it.
fn give_to(
    entry: &mut DirectoryEntry,
    log: &mut LogBuffer,
    block: BlockNo,
    now: Interval,
    r: NodeId,
    content: Block,
)
    requires room { HasLogRoom log.old now block }
    requires latest { logged_to log.old.entries true block ≤ now + 1 }
    ensures gone { entry_as_it_is entry.new log.new.entries ≡ taken_from_home (entry_as_it_is entry.old log.old.entries) block now r content }
    ensures limit { log.new.limit ≡ log.old.limit }
{
    log.note(now, block, Old::WasHome(content));
    entry.owner = Owner::Cache(r);
    entry.sharers = NodeSet::empty();
    entry.transaction = begun(Kind::Take, r, now);
}

/// GetS, and the home owns the block, which others share: r joins the sharers, and gets a copy.
pub fn read_at_home(
    entry: &mut DirectoryEntry,
    now: Interval,
    r: NodeId,
    content: Block,
) -> HomeStep
    ensures { (log : List LogEntry) → IsRowDone (entry_as_it_is entry.new log) result (read_at_home (entry_as_it_is entry.old log) now r content) }
{
    entry.sharers = entry.sharers.with(r);
    entry.transaction = begun(Kind::Read, r, now);
    took(r, Body::DataS(content), NodeSet::empty(), r)
}

/// GetS, and a cache owns the block: r joins the sharers, and the owner sends the copy.
pub fn read_at_owner(
    entry: &mut DirectoryEntry,
    now: Interval,
    r: NodeId,
    owner: NodeId,
) -> HomeStep
    ensures { (log : List LogEntry) → IsRowDone (entry_as_it_is entry.new log) result (read_at_owner (entry_as_it_is entry.old log) now r owner) }
{
    entry.sharers = entry.sharers.with(r);
    entry.transaction = begun(Kind::Read, r, now);
    took(owner, Body::FwdGetS(r), NodeSet::empty(), r)
}

/// GetM, and the home owns the block: r owns it and gets the content, and the other sharers get an `Inv`.
pub fn take(
    entry: &mut DirectoryEntry,
    log: &mut LogBuffer,
    block: BlockNo,
    now: Interval,
    r: NodeId,
    content: Block,
) -> HomeStep
    requires room { HasLogRoom log.old now block }
    requires latest { logged_to log.old.entries true block ≤ now + 1 }
    ensures did { IsRowDone (entry_as_it_is entry.new log.new.entries) result (take (entry_as_it_is entry.old log.old.entries) block now r content) }
    ensures limit { log.new.limit ≡ log.old.limit }
{
    let others = entry.sharers.without(r);
    give_to(entry, log, block, now, r, content);
    took(r, Body::DataM(content, others.count()), others, r)
}

/// GetM, and another cache owns the block: it sends the content with the ownership, and the other sharers get an `Inv`. The
/// home names the old owner until the `Unblock`.
pub fn move_ownership(
    entry: &mut DirectoryEntry,
    now: Interval,
    r: NodeId,
    owner: NodeId,
) -> HomeStep
    ensures { (log : List LogEntry) → IsRowDone (entry_as_it_is entry.new log) result (move_ownership (entry_as_it_is entry.old log) now r owner) }
{
    let others = entry.sharers.without(r);
    entry.sharers = NodeSet::empty();
    entry.transaction = begun(Kind::Move, r, now);
    took(owner, Body::FwdGetM(r, others.count()), others, r)
}

/// GetM, and r owns the block: it may write once the other sharers, which get an `Inv`, have acknowledged.
pub fn upgrade(entry: &mut DirectoryEntry, now: Interval, r: NodeId) -> HomeStep
    ensures { (log : List LogEntry) → IsRowDone (entry_as_it_is entry.new log) result (upgrade (entry_as_it_is entry.old log) now r) }
{
    let others = entry.sharers.without(r);
    entry.sharers = NodeSet::empty();
    entry.transaction = begun(Kind::Upgrade, r, now);
    took(r, Body::UpgOk(others.count()), others, r)
}

/// The old owner is noted under the interval of atomicity, and the requester owns from then on.
fn end_move(
    entry: &mut DirectoryEntry,
    log: &mut LogBuffer,
    block: BlockNo,
    fixed: Interval,
    requester: NodeId,
)
    requires room { IfSome (noted_by_end Kind.Move entry.old.holder fixed) (λ i. HasLogRoom log.old i block) }
    requires latest { IsNoteInOrder log.old.entries true block (noted_by_end Kind.Move entry.old.holder fixed) }
    ensures gone { entry_as_it_is entry.new log.new.entries
        ≡ record {
          entry = record entry.old { holder = OfCache requester };
          log = noted_owner log.old.entries fixed block entry.old.holder;
        } }
    ensures limit { log.new.limit ≡ log.old.limit }
{
    let owner = entry.owner;
    if let Owner::Cache(old) = owner {
        log.note(fixed, block, Old::WasCache(old));
    }
    entry.owner = Owner::Cache(requester);
}

/// Unblock with its interval of atomicity: of a Move, the old owner is noted under that interval, and the requester is the
/// owner from then on. The transaction is closed.
pub fn unblock(
    entry: &mut DirectoryEntry,
    log: &mut LogBuffer,
    block: BlockNo,
    fixed: Interval,
    r: NodeId,
) -> HomeStep
    requires room { IfSome (noted_by_unblock entry.old.transaction entry.old.holder fixed) (λ i. HasLogRoom log.old i block) }
    requires latest { IsNoteInOrder log.old.entries true block (noted_by_unblock entry.old.transaction entry.old.holder fixed) }
    ensures did { IsRowDone (entry_as_it_is entry.new log.new.entries) result
        (unblock (entry_as_it_is entry.old log.old.entries) block fixed entry.old.transaction) }
    ensures limit { log.new.limit ≡ log.old.limit }
{
    let transaction = entry.transaction;
    if let Some(open) = transaction {
        match open.kind {
            Kind::Move => end_move(entry, log, block, fixed, open.requester),
            Kind::Read | Kind::Take | Kind::Upgrade | Kind::Put => {}
        }
    }
    entry.transaction = None;
    HomeStep::Took(None, NodeSet::empty(), r)
}

/// PutReq of the owner: it may give the block back.
pub fn put_begins(entry: &mut DirectoryEntry, now: Interval, r: NodeId) -> HomeStep
    ensures { (log : List LogEntry) → IsRowDone (entry_as_it_is entry.new log) result (put_begins (entry_as_it_is entry.old log) now r) }
{
    entry.transaction = begun(Kind::Put, r, now);
    took(r, Body::PutGo, NodeSet::empty(), r)
}

/// PutReq of a node that doesn't own the block any more: there is nothing to give back.
pub fn put_is_stale(r: NodeId) -> HomeStep
    ensures { (entry : HomeEntry) (log : List LogEntry) → IsRowDone (entry_as_it_is entry log) result (put_is_stale (entry_as_it_is entry log) r) }
{
    took(r, Body::PutDone, NodeSet::empty(), r)
}

/// PutData: that r owned the block is noted under the message's tag, and the home owns it. The transaction is closed.
pub fn put_data(
    entry: &mut DirectoryEntry,
    log: &mut LogBuffer,
    block: BlockNo,
    tag: Interval,
    r: NodeId,
    content: Block,
) -> HomeStep
    requires room { HasLogRoom log.old tag block }
    requires latest { logged_to log.old.entries true block ≤ tag + 1 }
    ensures did { IsRowDone (entry_as_it_is entry.new log.new.entries) result (put_data (entry_as_it_is entry.old log.old.entries) block tag r content) }
    ensures limit { log.new.limit ≡ log.old.limit }
{
    log.note(tag, block, Old::WasCache(r));
    entry.owner = Owner::Home;
    entry.memory = content;
    entry.transaction = None;
    HomeStep::Took(None, NodeSet::empty(), r)
}

/// GetS, and the home owns the block, which nobody else shares: r gets the block alone.
pub fn grant_exclusive(
    entry: &mut DirectoryEntry,
    log: &mut LogBuffer,
    block: BlockNo,
    now: Interval,
    r: NodeId,
    content: Block,
) -> HomeStep
    requires room { HasLogRoom log.old now block }
    requires latest { logged_to log.old.entries true block ≤ now + 1 }
    ensures did { IsRowDone (entry_as_it_is entry.new log.new.entries) result (grant_exclusive (entry_as_it_is entry.old log.old.entries) block now r content) }
    ensures limit { log.new.limit ≡ log.old.limit }
{
    give_to(entry, log, block, now, r, content);
    took(r, Body::DataE(content), NodeSet::empty(), r)
}
