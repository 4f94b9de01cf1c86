//! Events and their answers.
ghost use Rattle.std.specs.Prelude.{◌≡◌};
ghost use Rattle.sn_base.specs.Events.{event_fits};

use crate::block::BlockNo;
use crate::node::NodeId;
use crate::switch::SwitchId;
use crate::{Interval, MsgId};

/// One event, applied to the whole machine in one step.
#[derive(Clone, Copy, PartialEq, Eq, Debug)]
pub enum Event {
    /// The node's core does one instruction.
    Step(NodeId),
    /// The node's cache gives up a block.
    Evict(NodeId, BlockNo),
    /// The node's checkpoint clock ticks: its next interval begins.
    Edge(NodeId),
    /// A message goes on to its next switch.
    Hop(MsgId),
    /// A message that stands at its receiver is taken.
    Deliver(MsgId),
    /// A message is lost.
    Lose(MsgId),
    /// A switch dies, with the messages in it.
    Kill(SwitchId),
    /// A node tells the service controller up to which checkpoint it has completed everything.
    Report(NodeId),
    /// The service controller moves the recovery point by one checkpoint.
    Validate,
    /// The whole machine goes back to the recovery point.
    Recover,
    /// A byte of input is given to a core.
    Input(NodeId, u8),
}

impl Event {
    /// Whether its nodes and its switch are there in a machine of so many nodes.
    pub fn fits(&self, nodes: u8) -> bool
        ensures { result ≡ event_fits nodes self.now }
    {
        match self {
            Event::Step(node)
            | Event::Evict(node, _)
            | Event::Edge(node)
            | Event::Report(node)
            | Event::Input(node, _) => node.number() < nodes,
            Event::Kill(switch) => u16::from(switch.number()) < 2 * u16::from(nodes),
            Event::Hop(_) | Event::Deliver(_) | Event::Lose(_) | Event::Validate | Event::Recover =>
                true,
        }
    }
}

/// What a recovery did: the checkpoint that it went back to, how many log entries it undid, and how many messages
/// in flight it dropped.
#[derive(Clone, Copy, PartialEq, Eq, Debug)]
pub struct Undo {
    pub to: Interval,
    pub undone: u32,
    pub dropped: u32,
}

/// The answer of an event.
#[derive(Clone, Copy, PartialEq, Eq, Debug)]
pub enum Answer {
    /// The instruction is done.
    Retired,
    /// The block isn't there: a request went to its home.
    Missed,
    /// The node's miss is open, or its put on the block is.
    Waits,
    /// All frames of the block's set are taken.
    NeedsEvict,
    /// An entry would be needed and the log is full.
    LogFull,
    /// The network holds as many messages as it may.
    NetFull,
    /// The core has ended.
    Ended,
    /// The shared copy is gone.
    Evicted,
    /// The cache asked the home whether it may put the block.
    PutBegun,
    /// The cache has no line of the block.
    NotCached,
    /// The cache's put is open.
    PutOpen,
    /// The cache's miss on the block is open.
    MissOpen,
    /// The interval that begins.
    Edged(Interval),
    /// The node has as many checkpoints above the recovery point that it knows as it may.
    CheckpointsFull,
    /// The message stands in its next switch.
    Hopped,
    /// The message was lost in a dead switch.
    LostInDead,
    /// The message stands at its receiver already.
    Arrived,
    /// The message doesn't stand at its receiver yet.
    NotArrived,
    /// No message in flight has this number.
    NoMessage,
    /// The message was taken.
    Delivered,
    /// The message's interval has not begun at its receiver.
    Held,
    /// The home serves another transaction on the block.
    HomeBusy,
    /// The message is lost.
    Lost,
    /// The switch is dead now.
    Killed,
    /// The switch was dead.
    AlreadyDead,
    /// The checkpoint that the node is ready for.
    Reported(Interval),
    /// The new recovery point.
    Validated(Interval),
    /// The least node that has not reported a checkpoint above the recovery point.
    NotReady(NodeId),
    /// The machine is back at the recovery point.
    Recovered(Undo),
    /// No path of living switches joins these nodes.
    CutOff(NodeId, NodeId),
    /// The byte is given.
    Given,
    /// The core wants a byte and has taken all that it was given.
    NoInput,
}
