//! Who takes a message, and the rows of the two tables.
ghost use Rattle.std.specs.Prelude.{◌≡◌};
ghost use Rattle.sn_model.specs.Receivers.{receiver_of};

use sn_base::{Block, Interval, NodeId};
use sn_msg::Body;

/// A row of the cache's table, with what its message brings: the requester, how many acknowledgements are due, the content.
#[derive(Clone, Copy, PartialEq, Eq, Debug)]
pub enum CacheRow {
    ForwardRead(NodeId),
    ForwardWrite(NodeId, u8),
    Invalidate(NodeId),
    DataShared(Block),
    DataModified(Block, u8),
    UpgradeGranted(u8),
    Acknowledge,
    PutGo,
    PutDone,
    DataExclusive(Block),
}

/// A row of the home's table, with what its message or its entry brings: the content that the home has or gets, the owner, the
/// interval of atomicity.
#[derive(Clone, Copy, PartialEq, Eq, Debug)]
pub enum HomeRow {
    ReadAtHome(Block),
    ReadAtOwner(NodeId),
    Take(Block),
    MoveOwnership(NodeId),
    Upgrade,
    Unblock(Interval),
    PutBegins,
    PutIsStale,
    PutData(Block),
    GrantExclusive(Block),
}

/// What comes to a home. Which row it is there depends on the entry of its block.
#[derive(Clone, Copy, PartialEq, Eq, Debug)]
pub enum HomeMessage {
    GetS,
    GetM,
    Unblock(Interval),
    PutReq,
    PutData(Block),
}

/// Who takes a message: a node's cache, by this row; its home; the service controller above the fabric, which gets a node's
/// report; or the node's clock and log, which hear of a recovery point.
#[derive(Clone, Copy, PartialEq, Eq, Debug)]
pub enum Receiver {
    Cache(CacheRow),
    Home(HomeMessage),
    Controller(Interval),
    Clock(Interval),
}

pub fn receiver_of(body: &Body) -> Receiver
    ensures { result ≡ receiver_of body.now }
{
    match body {
        Body::FwdGetS(requester) => Receiver::Cache(CacheRow::ForwardRead(*requester)),
        Body::FwdGetM(requester, due) => Receiver::Cache(CacheRow::ForwardWrite(*requester, *due)),
        Body::Inv(requester) => Receiver::Cache(CacheRow::Invalidate(*requester)),
        Body::DataS(content) => Receiver::Cache(CacheRow::DataShared(*content)),
        Body::DataM(content, due) => Receiver::Cache(CacheRow::DataModified(*content, *due)),
        Body::UpgOk(due) => Receiver::Cache(CacheRow::UpgradeGranted(*due)),
        Body::InvAck => Receiver::Cache(CacheRow::Acknowledge),
        Body::PutGo => Receiver::Cache(CacheRow::PutGo),
        Body::PutDone => Receiver::Cache(CacheRow::PutDone),
        Body::DataE(content) => Receiver::Cache(CacheRow::DataExclusive(*content)),
        Body::GetS => Receiver::Home(HomeMessage::GetS),
        Body::GetM => Receiver::Home(HomeMessage::GetM),
        Body::Unblock(fixed) => Receiver::Home(HomeMessage::Unblock(*fixed)),
        Body::PutReq => Receiver::Home(HomeMessage::PutReq),
        Body::PutData(content) => Receiver::Home(HomeMessage::PutData(*content)),
        Body::Ready(k) => Receiver::Controller(*k),
        Body::Advance(k) => Receiver::Clock(*k),
    }
}
