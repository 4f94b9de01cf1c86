//! The messages that nodes send each other: requests and answers about a block's ownership and content, and the
//! two messages that agree on the recovery point.
//!
//! They are plain data, and this layer has no rule of what to do with them: the network above it only carries
//! them, and the caches, the homes and the service controller read them. Of a block the *home* is the node that
//! keeps its directory entry, the *owner* the node whose cache or memory answers for its content, a *sharer* a
//! node that has a copy which it may only read, and the *requester* the node that asked the home for it.
#![tactic(auto)]

use sn_base::{Block, BlockNo, Interval, MsgId, NodeId};

/// What a message asks or says.
#[derive(Clone, Copy, PartialEq, Eq, Debug)]
pub enum Body {
    /// Requester to home: a copy of the block to read.
    GetS,
    /// Requester to home: the block to write, with its ownership.
    GetM,
    /// Home to owner: send a copy to this requester, and stay the owner.
    FwdGetS(NodeId),
    /// Home to owner: give the block to this requester, which waits for so many acknowledgements of sharers.
    FwdGetM(NodeId, u8),
    /// Home to sharer: drop the copy, and acknowledge it to this requester.
    Inv(NodeId),
    /// Owner or home to requester: the content, to read.
    DataS(Block),
    /// Owner or home to requester: the content, to own and write once so many acknowledgements are in.
    DataM(Block, u8),
    /// Home to requester: the content, to own and write though it was asked for to read, since no other node has it.
    DataE(Block),
    /// Home to a requester that owns the block: it may write once so many acknowledgements are in.
    UpgOk(u8),
    /// Sharer to requester: the copy is gone.
    InvAck,
    /// Requester to home: the transaction is complete, and belongs to this interval, that of its point of atomicity.
    Unblock(Interval),
    /// Cache to home: it would give up the block that it owns.
    PutReq,
    /// Home to cache: give the block up now.
    PutGo,
    /// Cache to home: the content, with its ownership.
    PutData(Block),
    /// Home to cache: it doesn't own the block any more, so there is nothing to give up.
    PutDone,
    /// Node to node 0: the node has completed all that comes before this checkpoint.
    Ready(Interval),
    /// Node 0 to node: the new recovery point.
    Advance(Interval),
}

/// A message: its number, the nodes that it goes from and to, the block that it is about and its body. Its tag is
/// the sender's interval when it was sent; the receiver takes it in no earlier interval of its own. `block` is block 0
/// and without meaning where the body is `Ready` or `Advance`.
#[derive(Clone, Copy, PartialEq, Eq, Debug)]
pub struct Message {
    pub id: MsgId,
    pub from: NodeId,
    pub to: NodeId,
    pub tag: Interval,
    pub block: BlockNo,
    pub body: Body,
}
